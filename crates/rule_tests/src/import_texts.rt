//! Import texts: what each stands for, request by request, and why a text is none.

use import_csv::{ImportFault, read_import};
use office_model::{ImportKind, Plain};
use std::alloc::{AllocError, Global};
use std::rt::HostRuntime;
use std::test::Fail;
use testing::judged::{holds, well};

// Texts, and what they are read as: a line a request, its fields parted by bars, and the codes of a list each after one.
#[rattlefmt::skip]
static TEXTS: [(&str, ImportKind, &[u8], &str); 24] = [
    ("a header alone",          ImportKind::Students,    b"code,name\n",                                    ""),
    ("a header without an end", ImportKind::Students,    b"code,name",                                      ""),
    ("two students",            ImportKind::Students,    b"code,name\nS1,Ann\nS2,Bob\n",                    "S1|Ann\nS2|Bob\n"),
    ("a mark and CR LF",        ImportKind::Students,    b"\xef\xbb\xbfcode,name\r\nS1,Ann\r\nS2,Bob\r\n",  "S1|Ann\nS2|Bob\n"),
    ("empty lines",             ImportKind::Students,    b"\n\ncode,name\n\nS1,Ann\n\n\n",                  "S1|Ann\n"),
    ("no end of the last line", ImportKind::Students,    b"code,name\nS1,Ann",                              "S1|Ann\n"),
    ("an empty code",           ImportKind::Students,    b"code,name\nS1,Ann\nS2,Bob\n,Cy\n",               "S1|Ann\nS2|Bob\n|Cy\n"),
    ("a code that is none",     ImportKind::Students,    b"code,name\n-A,Ann\n",                            "-A|Ann\n"),
    ("spaces stay",             ImportKind::Students,    b"code,name\n S1 , Ann \n",                        " S1 | Ann \n"),
    ("a name in quotes",        ImportKind::Students,    b"code,name\nS1,\"An\"\"n, Ltd\"\n",               "S1|An\"n, Ltd\n"),
    ("a line end in quotes",    ImportKind::Students,    b"code,name\nS1,\"A\nB\"\n",                       "S1|A\nB\n"),
    ("a header in quotes",      ImportKind::Students,    b"\"code\",\"name\"\nS1,Ann\n",                    "S1|Ann\n"),
    ("a name that is no UTF-8", ImportKind::Students,    b"code,name\nS1,\xff\n",                           "S1|\n"),
    ("a code that is no UTF-8", ImportKind::Students,    b"code,name\n\xff,Ann\n",                          "|Ann\n"),
    ("quotas",                  ImportKind::Supervisors, b"code,name,quota\nL,Lee,5\nM,May,007\nN,Nye,999\n", "L|Lee|5\nM|May|7\nN|Nye|999\n"),
    ("a quota of four digits",  ImportKind::Supervisors, b"code,name,quota\nL,Lee,1000\nM,May,0005\n",      "L|Lee|9999\nM|May|9999\n"),
    ("quotas that are none",    ImportKind::Supervisors, b"code,name,quota\nL,Lee,\nM,May,+5\nN,Nye,5 \n",  "L|Lee|9999\nM|May|9999\nN|Nye|9999\n"),
    ("a project",               ImportKind::Projects,    b"code,name,supervisor,quota\nP,Pumps,L,1\n",      "P|Pumps|L|1\n"),
    ("a list",                  ImportKind::Lists,       b"student,choices\nS1,P Q\n",                      "S1|P|Q\n"),
    ("a list of one",           ImportKind::Lists,       b"student,choices\nS1,P\n",                        "S1|P\n"),
    ("an empty list",           ImportKind::Lists,       b"student,choices\nS1,\n",                         "S1\n"),
    ("two spaces",              ImportKind::Lists,       b"student,choices\nS1,P  Q\n",                     "S1|P||Q\n"),
    ("a space alone",           ImportKind::Lists,       b"student,choices\nS1, \n",                        "S1||\n"),
    ("a list that is no UTF-8", ImportKind::Lists,       b"student,choices\nS1,P \xff\n",                   "S1\n"),
];

// Texts that are none, and why.
#[rattlefmt::skip]
static FAULTY_TEXTS: [(&str, ImportKind, &[u8], ImportFault); 15] = [
    ("no bytes",                    ImportKind::Students,    b"",                                        ImportFault::Header),
    ("only line ends",              ImportKind::Students,    b"\n\r\n",                                  ImportFault::Header),
    ("a mark alone",                ImportKind::Students,    b"\xef\xbb\xbf",                            ImportFault::Header),
    ("two marks",                   ImportKind::Students,    b"\xef\xbb\xbf\xef\xbb\xbfcode,name\n",     ImportFault::Header),
    ("another kind's header",       ImportKind::Supervisors, b"code,name\nS1,Ann\n",                     ImportFault::Header),
    ("a header in capitals",        ImportKind::Students,    b"Code,Name\nS1,Ann\n",                     ImportFault::Header),
    ("a header with a space",       ImportKind::Students,    b"code, name\nS1,Ann\n",                    ImportFault::Header),
    ("a header of one field",       ImportKind::Students,    b"\"code,name\"\nS1,Ann\n",                 ImportFault::Header),
    ("a header with a field more",  ImportKind::Students,    b"code,name,\nS1,Ann\n",                    ImportFault::Header),
    ("an odd number of quotes",     ImportKind::Students,    b"code,name\nS1,\"Ann\n",                   ImportFault::Header),
    ("a quote inside a field",      ImportKind::Students,    b"code,name\nS1,An\"n\n",                   ImportFault::Header),
    ("a field too few",             ImportKind::Students,    b"code,name\n-A,Ann\nS2\n",                 ImportFault::Fields { record: 2 }),
    ("a field too many",            ImportKind::Students,    b"code,name\nS1,Ann,\nS2\n",                ImportFault::Fields { record: 1 }),
    ("fields come before quotas",   ImportKind::Supervisors, b"code,name,quota\nL,Lee,x\nM,May\n",       ImportFault::Fields { record: 2 }),
    ("a list with commas",          ImportKind::Lists,       b"student,choices\nS1,P\nS2,P\nS3,P,Q\n",   ImportFault::Fields { record: 3 }),
];

/// Appends what a request asks.
fn show(out: &mut String, request: &Plain) -> Result<(), AllocError> {
    match request {
        Plain::PutSupervisor { code, label, quota } => {
            writeln!(out, "{}|{}|{quota}", code.as_str(), label.as_str())
        }
        Plain::PutProject {
            code,
            label,
            supervisor,
            quota,
        } => {
            let supervisor = supervisor.as_str();
            writeln!(
                out,
                "{}|{}|{supervisor}|{quota}",
                code.as_str(),
                label.as_str()
            )
        }
        Plain::PutStudent { code, label } => writeln!(out, "{}|{}", code.as_str(), label.as_str()),
        Plain::PutList { student, choices } => {
            out.push_str(student.as_str())?;
            for code in choices.as_slice() {
                write!(out, "|{}", code.as_str())?;
            }
            out.push_str("\n")
        }
        _ => writeln!(out, "no put"),
    }
}

/// Returns what requests ask, a line each.
fn shown(alloc: Global, requests: &[Plain]) -> Result<String, AllocError> {
    let mut out = String::new(alloc);
    for request in requests {
        show(&mut out, request)?;
    }
    Ok(out)
}

/// Reads a text that is no longer than an import may be.
fn read(
    alloc: Global,
    kind: ImportKind,
    text: &[u8],
) -> Result<Result<Vec<Plain>, ImportFault>, Fail> {
    holds(text.len() <= 65_536, "a text that may be an import")?;
    Ok(read_import(alloc, kind, text))
}

#[test]
fn texts_are_read_request_by_request(rt: HostRuntime) -> Result<(), Fail> {
    let alloc = rt.alloc();
    for (name, kind, text, want) in TEXTS.as_slice() {
        let requests = well(read(alloc, *kind, text)?, *name)?;
        let shown = shown(alloc, &requests)?;
        holds(shown.as_str() == *want, name)?;
    }
    Ok(())
}

#[test]
fn texts_that_are_none_have_their_fault(rt: HostRuntime) -> Result<(), Fail> {
    for (name, kind, text, want) in FAULTY_TEXTS.as_slice() {
        let fault = read(rt.alloc(), *kind, text)?.err();
        holds(fault == Some(*want), name)?;
    }
    Ok(())
}
