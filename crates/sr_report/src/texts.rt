//! The texts of an aggregate's lines.
ghost use Rattle.std.specs.Prelude.{◌≡◌, ◌++◌, ◌∷◌, [], IfOk, OnOk, codes, decimal, flat_map, map, string_bytes};
ghost use Rattle.sr_lines.specs.Texts.{joined};
ghost use Rattle.sr_script.specs.TraceText.{ended, fault_words};
ghost use Rattle.sr_report.specs.Texts.{told_text, group_text, groups_text, refusal_words, refused_text};

use sr_agg::agg::AggFault;
use sr_agg::item::GroupRow;
use sr_cell::cell::Cell;
use sr_cell::fault::Fault;
use sr_cell::list::NoMemory;
use sr_script::cells::push_cell;
use sr_script::words::why_word;
use std::alloc::Global;
use std::fmt::Write;

/// Appends where a text begins no aggregate.
fn push_place(text: &mut String, client: u8, why: &str, place: u32) -> Result<(), NoMemory>
    ensures { OnOk result (string_bytes text.new ≡ string_bytes text.old ++ ended (codes "agg" ∷ decimal client ∷ why.now ∷ decimal place ∷ [])) }
{
    write!(text, "agg {client} {why} {place}\n")?;
    Ok(())
}

/// Appends what a text or its query is refused for.
fn push_sql(text: &mut String, client: u8, fault: Fault) -> Result<(), NoMemory>
    ensures { OnOk result (string_bytes text.new ≡ string_bytes text.old ++ ended (codes "agg" ∷ decimal client ∷ codes "sql" ∷ fault_words fault)) }
{
    let why = why_word(fault.why);
    let at = fault.at;
    write!(text, "agg {client} sql {why} {at}\n")?;
    Ok(())
}

/// Appends why a text begins no aggregate.
fn push_refusal(text: &mut String, client: u8, fault: AggFault) -> Result<(), NoMemory>
    ensures { OnOk result (string_bytes text.new ≡ string_bytes text.old ++ ended (codes "agg" ∷ decimal client ∷ refusal_words fault)) }
{
    match fault {
        AggFault::Sql(fault) => push_sql(text, client, fault),
        AggFault::NotGrouped { place } => push_place(text, client, "not-grouped", place),
        AggFault::SumOfText { place } => push_place(text, client, "sum-of-text", place),
    }
}

/// The line of a text that begins no aggregate, for that line of the script.
pub(crate) fn refused_text(
    alloc: Global,
    client: u8,
    number: u64,
    fault: AggFault,
) -> Result<String, NoMemory>
    ensures { IfOk result (λ text. string_bytes text ≡ refused_text client number fault) }
{
    let mut text = String::new(alloc);
    write!(&mut text, "{number} ")?;
    push_refusal(&mut text, client, fault)?;
    Ok(text)
}

/// Appends what is told of an item.
fn push_told(text: &mut String, told: &Option<Cell>) -> Result<(), NoMemory>
    ensures { OnOk result (string_bytes text.new ≡ string_bytes text.old ++ told_text told.now) }
{
    match told {
        Some(cell) => push_cell(text, cell),
        None => {
            text.push_str("null")?;
            Ok(())
        }
    }
}

/// Appends what is told of the items of a group, with a comma and a blank between two.
#[tactic(auto, using(sr_script::proofs::Separated::joined_behind))]
fn push_row(text: &mut String, row: &[Option<Cell>]) -> Result<(), NoMemory>
    ensures { OnOk result (string_bytes text.new ≡ string_bytes text.old ++ joined (codes ", ") (map told_text row.now)) }
{
    let mut separator = "";
    for told in row {
        text.push_str(separator)?;
        push_told(text, told)?;
        separator = ", ";
    }
    Ok(())
}

/// Appends the line of a group.
fn push_group(text: &mut String, number: u64, row: &GroupRow) -> Result<(), NoMemory>
    ensures { OnOk result (string_bytes text.new ≡ string_bytes text.old ++ group_text number row.now) }
{
    write!(text, "{number} group ")?;
    push_row(text, row.as_slice())?;
    text.push('\n')?;
    Ok(())
}

/// Appends the lines of groups.
fn push_groups(text: &mut String, number: u64, groups: &[GroupRow]) -> Result<(), NoMemory>
    ensures { OnOk result (string_bytes text.new ≡ string_bytes text.old ++ flat_map (group_text number) groups.now) }
{
    for row in groups {
        push_group(text, number, row)?;
    }
    Ok(())
}

/// How many groups there are at that version, and a line for each of them, for that line of the script.
pub(crate) fn groups_text(
    alloc: Global,
    client: u8,
    number: u64,
    version: u64,
    groups: &[GroupRow],
) -> Result<String, NoMemory>
    ensures { IfOk result (λ text. string_bytes text ≡ groups_text client number version groups.now) }
{
    let mut text = String::new(alloc);
    let count = groups.len();
    write!(&mut text, "{number} groups {client} {version} {count}\n")?;
    push_groups(&mut text, number, groups)?;
    Ok(text)
}
