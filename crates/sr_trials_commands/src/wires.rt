//! Sessions of both wires with a server, byte by byte.
use crate::common::{Given, ends, run_given};
use sr_cell::list::NoMemory;
use std::alloc::Global;

const SCHEMA: &[u8] =
    b"CREATE TABLE p (id INT PRIMARY KEY CHECK (id BETWEEN 0 AND 9999), age INT CHECK (age BETWEEN 0 AND 150))
";

/// Version 1 has a row, and version 2 another age in it.
const EXEC: &[u8] = b"INSERT INTO p VALUES (1, 35)
UPDATE p SET age = 36 WHERE id = 1
";

/// Hello, an ask for the column id of all rows, and a write that changes the other column.
const ASKS: &[u8] =
    b"\0\0\0\x0b\x01\x01\x01\0\0\0\0\0\0\0\0\0\0\0\x15\x03\0\0\0\0\0\0\0\x01\x01\x01\0\0\x01\0\0\0\x01\x02\0\0\0\0\0\x2f\x04\0\0\0\0\0\0\0\x02\0\0\0\x22UPDATE p SET age = 37 WHERE id = 1";

const LATER_ASKS: &[u8] =
    b"\0\0\0\x0b\x01\x02\x01\0\0\0\0\0\0\0\0\0\0\0\x15\x03\0\0\0\0\0\0\0\x01\x01\x01\0\0\x01\0\0\0\x01\x02\0\0\0\0\0\x2f\x04\0\0\0\0\0\0\0\x02\0\0\0\x22UPDATE p SET age = 37 WHERE id = 1";

/// The row and the reply; over wire 1 the change is told, though its column was not asked.
const TOLD: &[u8] =
    b"\0\0\0\x12\x11\0\0\0\0\0\0\0\0\0\0\0\0\0\0\0\x02\0\0\0\0\x16\x13\0\0\0\0\0\0\0\x01\0\0\x01\x01\0\0\0\0\0\0\0\0\x01\0\0\0\x11\x14\0\0\0\0\0\0\0\x01\0\0\0\0\0\0\0\x02\0\0\0\x2b\x12\0\0\0\0\0\0\0\x03\0\0\0\x01\0\0\0\0\0\0\0\0\0\x01\x01\x02\0\0\0\0\0\0\0\0\x01\0\0\0\0\0\0\0\0\x25\0\0\0\x11\x15\0\0\0\0\0\0\0\x02\0\0\0\0\0\0\0\x03";

/// Over wire 2 it is not.
const UNTOLD: &[u8] =
    b"\0\0\0\x12\x11\0\0\0\0\0\0\0\0\0\0\0\0\0\0\0\x02\0\0\0\0\x16\x13\0\0\0\0\0\0\0\x01\0\0\x01\x01\0\0\0\0\0\0\0\0\x01\0\0\0\x11\x14\0\0\0\0\0\0\0\x01\0\0\0\0\0\0\0\x02\0\0\0\x11\x15\0\0\0\0\0\0\0\x02\0\0\0\0\0\0\0\x03";

/// Resume with all rows of version 1: over wire 1 a holding names no columns.
const RESUMES: &[u8] =
    b"\0\0\0\x1f\x02\x01\x01\0\0\0\0\0\0\0\x07\0\0\0\0\0\0\0\x01\0\0\0\x01\0\0\0\0\x01\x02\0\0";

/// With the column id alone.
const LATER_RESUMES: &[u8] =
    b"\0\0\0\x21\x02\x02\x01\0\0\0\0\0\0\0\x07\0\0\0\0\0\0\0\x01\0\0\0\x01\0\0\x01\0\0\0\x01\x02\0\0";

/// With the column age alone, which is not the key.
const KEYLESS_RESUMES: &[u8] =
    b"\0\0\0\x21\x02\x02\x01\0\0\0\0\0\0\0\x07\0\0\0\0\0\0\0\x01\0\0\0\x01\0\0\x02\0\0\0\x01\x02\0\0";

/// With a column that the table does not have.
const STRANGE_RESUMES: &[u8] =
    b"\0\0\0\x21\x02\x02\x01\0\0\0\0\0\0\0\x07\0\0\0\0\0\0\0\x01\0\0\0\x01\0\0\x05\0\0\0\x01\x02\0\0";

/// The change of version 2, and what is held is kept.
const TOLD_AND_KEPT: &[u8] =
    b"\0\0\0\x2b\x12\0\0\0\0\0\0\0\x02\0\0\0\x01\0\0\0\0\0\0\0\0\0\x01\x01\x02\0\0\0\0\0\0\0\0\x01\0\0\0\0\0\0\0\0\x24\0\0\0\x12\x11\0\0\0\0\0\0\0\x07\0\0\0\0\0\0\0\x02\x01";

const KEPT: &[u8] = b"\0\0\0\x12\x11\0\0\0\0\0\0\0\x07\0\0\0\0\0\0\0\x02\x01";

/// What a client says, what it is sent, and the line of its connection.
static SESSIONS: [(&[u8], &[u8], &[u8]); 6] = [
    (ASKS, TOLD, OUTPUT_OF_THREE),
    (LATER_ASKS, UNTOLD, OUTPUT_OF_THREE),
    (RESUMES, TOLD_AND_KEPT, OUTPUT),
    (LATER_RESUMES, KEPT, OUTPUT),
    (KEYLESS_RESUMES, b"", REFUSED),
    (STRANGE_RESUMES, b"", REFUSED),
];

const OUTPUT_OF_THREE: &[u8] = b"listening
exec version 1
exec version 2
connection 1 end 3
";

const OUTPUT: &[u8] = b"listening
exec version 1
exec version 2
connection 1 end 1
";

const REFUSED: &[u8] = b"listening
exec version 1
exec version 2
connection 1 bad 1
";

const WORDS: &[&str] = &["serve", "--exec", "exec", "--schema", "schema", "a", "1"];

/// Whether a client that says this is sent just that.
fn is_served(alloc: Global, says: &[u8], sent: &[u8], output: &[u8]) -> Result<bool, NoMemory> {
    let given = Given {
        files: &[("schema", SCHEMA), ("exec", EXEC)],
        peers: &[says],
        fails: 0,
    };
    let got = run_given(alloc, WORDS, given)?;
    Ok(ends(&got, 0, output, b"") && got.sent.as_slice() == sent)
}

#[test]
fn each_wire_is_served(rt: HostRuntime) {
    for (says, sent, output) in &SESSIONS {
        assert!(rt;
            is_served(rt.alloc(), says, sent, output) == Ok(true),
            "{says:?}"
        );
    }
}
