//! Instances and matchings from short texts, for the tests that work out examples.

use spa::{Code, Instance, Matching};
use std::alloc::Global;
use std::test::Fail;
use testing::judged::well;

/// Reads supervisors, such as `L:5`, which is a code and a quota.
pub(crate) fn supervisors(alloc: Global, text: &str) -> Result<Vec<(Code, u32)>, Fail> {
    let mut roll = Vec::new(alloc);
    for entry in text.split_whitespace() {
        let mut fields = entry.split(':');
        let code = well(Code::read(fields.next().unwrap_or("")), "a code")?;
        let quota = fields.next().unwrap_or("").parse()?;
        roll.push((code, quota))?;
    }
    Ok(roll)
}

/// Reads projects, such as `P:L:1`, which is a code, a supervisor and a quota.
pub(crate) fn projects(alloc: Global, text: &str) -> Result<Vec<(Code, Code, u32)>, Fail> {
    let mut roll = Vec::new(alloc);
    for entry in text.split_whitespace() {
        let mut fields = entry.split(':');
        let code = well(Code::read(fields.next().unwrap_or("")), "a code")?;
        let supervisor = well(Code::read(fields.next().unwrap_or("")), "a code")?;
        let quota = fields.next().unwrap_or("").parse()?;
        roll.push((code, supervisor, quota))?;
    }
    Ok(roll)
}

/// Reads students, such as `A:P:Q`, which is a code and a list; `A` alone lists nothing.
pub(crate) fn students(alloc: Global, text: &str) -> Result<Vec<(Code, Vec<Code>)>, Fail> {
    let mut roll = Vec::new(alloc);
    for entry in text.split_whitespace() {
        let mut fields = entry.split(':');
        let code = well(Code::read(fields.next().unwrap_or("")), "a code")?;
        let mut list = Vec::new(alloc);
        for field in fields {
            list.push(well(Code::read(field), "a code")?)?;
        }
        roll.push((code, list))?;
    }
    Ok(roll)
}

/// Returns the instance of three such rolls.
pub(crate) fn instance(
    alloc: Global,
    supervisor_roll: &str,
    project_roll: &str,
    student_roll: &str,
) -> Result<Instance, Fail> {
    let supervisors = supervisors(alloc, supervisor_roll)?;
    let projects = projects(alloc, project_roll)?;
    let students = students(alloc, student_roll)?;
    well(
        Instance::new(alloc, supervisors, projects, students),
        "an instance",
    )
}

/// Reads places, such as `1-2`, where `-` is none.
pub(crate) fn places(alloc: Global, text: &str) -> Result<Matching, Fail> {
    let mut places = Vec::new(alloc);
    for byte in text.as_bytes() {
        if *byte == b'-' {
            places.push(None)?;
        } else {
            places.push(Some(byte.wrapping_sub(b'0')))?;
        }
    }
    Ok(Matching { places })
}
