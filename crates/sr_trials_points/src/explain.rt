//! The lines of an explanation, as text.
ghost use Rattle.std.specs.Prelude.{◌≡◌, length, IfOk};

use crate::common::{ages, list_of, people};
use sr_cell::attrs::Attrs;
use sr_cell::list::NoMemory;
use sr_explain::explanation::{ExplainPart, Explanation, ProbeView, Victim};
use sr_explain::lines::lines;
use sr_script::text::push_line;
use std::alloc::Global;
use std::test::Fail;

// A region of that stamp, with so many rows.
fn region(stamp: u64, rows: u64) -> Victim {
    Victim {
        table: 0,
        attrs: Attrs(3),
        stamp,
        rows,
    }
}

// A part of a query of which some points are held.
fn part(alloc: Global) -> Result<ExplainPart, NoMemory> {
    let attrs = Attrs(3);
    let rest = ages(alloc, 41, 50)?;
    let probe = ProbeView {
        attrs,
        stamp: 1,
        rects: ages(alloc, 35, 40)?,
    };
    Ok(ExplainPart {
        table: 0,
        need: attrs,
        probes: list_of(alloc, [probe])?,
        rest,
        attrs,
    })
}

// A query of that part, and two regions.
fn partly_held(alloc: Global) -> Result<Explanation, NoMemory>
    ensures { IfOk result (λ explanation. length explanation.victims ≡ 2) }
{
    let parts = list_of(alloc, [part(alloc)?])?;
    let victims = list_of(alloc, [region(1, 2), region(4, 0)])?;
    Ok(Explanation {
        version: 2,
        pieces: false,
        parts,
        victims,
    })
}

fn text_of(alloc: Global, explanation: &Explanation) -> Result<String, NoMemory>
    requires { length explanation.now.victims ≡ 2 }
{
    let schema = [people(alloc)?];
    let mut text = String::new(alloc);
    for line in lines(alloc, explanation)?.as_slice() {
        push_line(&mut text, &schema, 6, line)?;
    }
    Ok(text)
}

// The lines of that query.
fn text_of_partly_held(alloc: Global) -> Result<String, NoMemory> {
    let explanation = partly_held(alloc)?;
    text_of(alloc, &explanation)
}

#[test]
fn probes_stand_before_the_rest(rt: HostRuntime) -> Result<(), Fail> {
    let text = text_of_partly_held(rt.alloc())?;
    assert_eq!(rt;
        text.as_str(),
        "6 need emp (id,age)
6 probe emp (id,age) 1 {age 35..40}
6 rest emp (id,age) {age 41..50}
6 victim 1 emp (id,age) 1 2
6 victim 2 emp (id,age) 4 0
"
    );
    Ok(())
}
