//! The exported functions themselves, over texts of a round and of a result.

use crate::{page_check, page_own, page_publish, page_solve};
use std::rt::HostRuntime;
use std::test::Fail;

const ROUND: &str = "S,L,1\nP,P,L,1\nC,A,P\n";

const SOLVED: &str =
    "S,L,1\nP,P,L,1\nC,A,P\nM,A,P\nU,A,1,1,0,0,0,0,0,0,0,0,0,0,0\nY,P,0,0,0,0,0,0,0,0,0,0,0,0,0\nZ,L,0,0,0,0,0,0,0,0,0,0,0,0,0\n";

const RESULT: &str = "S,L,1\nP,P,L,1\nR,A,P\nZ,L,1,1,0,0,0,0,0,0,0,0,0,0,0\n";

/// By the word of the command: the text, the student with the list where one is asked, the room, and what is put there.
#[rattlefmt::skip]
const ROWS: [(&str, &str, &str, usize, &str); 11] = [
    ("solve", ROUND, "", 500, SOLVED),
    ("solve", "S,L,05\n", "", 500, "bad line 1\n"),
    ("check", SOLVED, "", 500, "best size 1 profile 1 0 0 0 0 0 0 0 0 0 0 0\n"),
    ("check", ROUND, "", 500, "fault 2\n"),
    ("check", SOLVED, "", 10, ""),
    ("publish", SOLVED, "", 500, RESULT),
    ("publish", ROUND, "", 500, "fault 2\n"),
    ("own", RESULT, "A,P", 500, "accepted P 1\n"),
    ("own", RESULT, "A", 500, "fault 7\n"),
    ("own", RESULT, "B,P", 500, "not in this round\n"),
    ("own", RESULT, "A,P", 12, ""),
];

#[test]
fn each_function_puts_what_its_command_prints(rt: HostRuntime) -> Result<(), Fail> {
    let alloc = rt.alloc();
    for (command, text, line, room, wanted) in ROWS {
        let mut out = Vec::from_elem(alloc, 7u8, room)?;
        let text = text.as_bytes();
        let count = match command {
            "solve" => page_solve(alloc, text, &mut out),
            "check" => page_check(alloc, text, &mut out),
            "publish" => page_publish(alloc, text, &mut out),
            _ => page_own(alloc, text, line.as_bytes(), &mut out),
        };
        assert_eq!(rt; out[..count], *wanted.as_bytes(), "{command} {line}");
        assert!(rt;
            out[count..].iter().all(|byte| *byte == 7),
            "{command} {line}"
        );
    }
    Ok(())
}
