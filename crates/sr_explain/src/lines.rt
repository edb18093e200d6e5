//! The lines that tell an explanation.
ghost use Rattle.std.specs.Prelude.{◌≡◌, ◌<◌, ◌^◌, ◌++◌, map, flat_map, length, OnOk, IfOk};
ghost use Rattle.sr_explain.specs.Telling.{probe_line, rest_line, part_lines, victim_lines, detail_lines};

use crate::explanation::{ExplainPart, Explanation, ProbeView, Victim};
use sr_cell::list::{Copied, NoMemory, Seq};
use sr_script::line::{TraceLine, TraceLines};
use std::alloc::Global;

/// The lines of details of an explanation: the parts one by one, each with its probes and its rest, and then the victims, counted
/// from 1.
pub fn lines(alloc: Global, explanation: &Explanation) -> Result<TraceLines, NoMemory>
    requires few { length explanation.now.victims < 2 ^ 32 }
    ensures lines { IfOk result (λ lines. lines ≡ detail_lines explanation.now) }
{
    let mut lines = Seq::new(alloc);
    if explanation.pieces {
        lines.push(TraceLine::Pieces)?;
    }
    push_parts(alloc, &mut lines, explanation.parts.as_slice())?;
    push_victims(&mut lines, explanation.victims.as_slice())?;
    Ok(lines)
}

fn push_parts(alloc: Global, lines: &mut TraceLines, parts: &[ExplainPart]) -> Result<(), NoMemory>
    ensures { OnOk result (lines.new ≡ lines.old ++ flat_map part_lines parts.now) }
{
    for part in parts {
        push_part(alloc, lines, part)?;
    }
    Ok(())
}

/// What a part needs, its probes, and its rest.
fn push_part(alloc: Global, lines: &mut TraceLines, part: &ExplainPart) -> Result<(), NoMemory>
    ensures { OnOk result (lines.new ≡ lines.old ++ part_lines part.now) }
{
    lines.push(TraceLine::Need {
        table: part.table,
        attrs: part.need,
    })?;
    push_probes(alloc, lines, part.table, part.probes.as_slice())?;
    push_rest(alloc, lines, part)
}

fn push_probes(
    alloc: Global,
    lines: &mut TraceLines,
    table: u8,
    probes: &[ProbeView],
) -> Result<(), NoMemory>
    ensures { OnOk result (lines.new ≡ lines.old ++ map (probe_line table) probes.now) }
{
    for probe in probes {
        lines.push(TraceLine::Probe {
            table,
            attrs: probe.attrs,
            stamp: probe.stamp,
            rects: probe.rects.copy(alloc)?,
        })?;
    }
    Ok(())
}

/// The rest of a part, if something would be asked of it.
fn push_rest(alloc: Global, lines: &mut TraceLines, part: &ExplainPart) -> Result<(), NoMemory>
    ensures { OnOk result (lines.new ≡ lines.old ++ rest_line part.now.table part.now.attrs part.now.rest) }
{
    if !part.rest.is_empty() {
        lines.push(TraceLine::Rest {
            table: part.table,
            attrs: part.attrs,
            rects: part.rest.copy(alloc)?,
        })?;
    }
    Ok(())
}

fn push_victims(lines: &mut TraceLines, victims: &[Victim]) -> Result<(), NoMemory>
    requires { length victims.now < 2 ^ 32 }
    ensures { OnOk result (lines.new ≡ lines.old ++ victim_lines 1 victims.now) }
{
    for (before, victim) in victims.iter().enumerate() {
        lines.push(TraceLine::Victim {
            place: before as u32 + 1,
            table: victim.table,
            attrs: victim.attrs,
            stamp: victim.stamp,
            rows: victim.rows,
        })?;
    }
    Ok(())
}
