//! Lines that no script makes yet, as text.
use crate::common::{ages, other_text, people};
use sr_cell::attrs::Attrs;
use sr_cell::fault::{Fault, Why};
use sr_cell::list::NoMemory;
use sr_script::line::{FailKind, RequestKind, TraceLine};
use sr_union::rects::Rects;
use std::alloc::Global;

// As `other_text` of the lines of an explanation, by the rects of a probe and of the rest.
fn other_explained(
    alloc: Global,
    rects: Rects,
    others: Rects,
) -> Result<Option<&'static str>, NoMemory> {
    let table = 0;
    let attrs = Attrs(3);
    let lines = [
        (TraceLine::Pieces, "0 pieces\n"),
        (TraceLine::Need { table, attrs }, "0 need emp (id,age)\n"),
        (
            TraceLine::Probe {
                table,
                attrs,
                stamp: 2,
                rects,
            },
            "0 probe emp (id,age) 2 {age 30..40}\n",
        ),
        (
            TraceLine::Rest {
                table,
                attrs,
                rects: others,
            },
            "0 rest emp (id,age) {age 30..40}\n",
        ),
        (
            TraceLine::Victim {
                place: 1,
                table,
                attrs,
                stamp: 2,
                rows: 7,
            },
            "0 victim 1 emp (id,age) 2 7\n",
        ),
    ];
    other_text(alloc, &[people(alloc)?], 0, &lines)
}

// The same of the ages from 30 to 40.
fn other_of_thirties(alloc: Global) -> Result<Option<&'static str>, NoMemory> {
    let rects = ages(alloc, 30, 40)?;
    other_explained(alloc, rects, ages(alloc, 30, 40)?)
}

#[test]
fn explained_lines_are_printed(rt: HostRuntime) {
    assert_eq!(rt; other_of_thirties(rt.alloc()), Ok(None));
}

const FAULT: Fault = Fault {
    why: Why::DuplicateKey,
    at: 0,
};

const LINES: [(TraceLine, &str); 10] = [
    (
        TraceLine::Fail {
            client: 1,
            kind: FailKind::Write,
            number: 3,
        },
        "9 fail 1 write 3\n",
    ),
    (
        TraceLine::WriteSql {
            client: 1,
            fault: FAULT,
        },
        "9 write 1 sql duplicate-key 0\n",
    ),
    (
        TraceLine::WriteDown { client: 1, cut: 2 },
        "9 write 1 down 2\n",
    ),
    (
        TraceLine::ServerTook {
            client: 1,
            kind: RequestKind::Resume,
            frames: 1,
        },
        "9 toserver 1 resume 1\n",
    ),
    (
        TraceLine::ClientWritten {
            client: 1,
            request: 3,
            version: 5,
        },
        "9 toclient 1 written 3 5\n",
    ),
    (
        TraceLine::ClientRefused {
            client: 1,
            request: 3,
            fault: FAULT,
        },
        "9 toclient 1 refused 3 duplicate-key 0\n",
    ),
    (
        TraceLine::ClientWelcome {
            client: 1,
            version: 5,
            kept: true,
        },
        "9 toclient 1 welcome 5 kept\n",
    ),
    (TraceLine::EvictDropped { client: 1 }, "9 evict 1 dropped\n"),
    (
        TraceLine::Explained {
            client: 1,
            version: 5,
        },
        "9 explain 1 5\n",
    ),
    (
        TraceLine::CutAlready { client: 1, cut: 2 },
        "9 cut 1 already 2\n",
    ),
];

#[test]
fn lines_of_one_client_are_printed(rt: HostRuntime) {
    let other = other_text(rt.alloc(), &[], 9, &LINES);
    assert_eq!(rt; other, Ok(None));
}
