//! The width of a condition.
ghost use Rattle.std.specs.Prelude.{◌≡◌, ◌≤◌, ◌+◌, true, length, if◌then◌else◌};
ghost use Rattle.sr_cell.specs.declared.cell.Cell.{Cell};
ghost use Rattle.sr_model.specs.Width.{capped, width, product, total, test_width};
ghost use Rattle.sr_query.specs.Binding.{cond_of, compared};
ghost use Rattle.sr_query.specs.Meant.{meant, members, test_meant};

use sr_grammar::statement::Op;
use sr_query::condition::{Condition, Test};

/// How many rects the condition may take; 65,536 stands for more.
pub fn width(condition: &Condition) -> u32
    ensures { result ≡ width true (cond_of (meant condition.now)) }
{
    width_of(true, condition)
}

// The width of a condition, or of its contrary.
#[cycle(condition)]
fn width_of(plain: bool, condition: &Condition) -> u32
    ensures { result ≡ width plain (cond_of (meant condition.now)) }
{
    match condition {
        Condition::Test(_, _, test) => test_width(plain, test),
        Condition::And(all) => {
            if plain {
                product(plain, all)
            } else {
                total(plain, all)
            }
        }
        Condition::Or(all) => {
            if plain {
                total(plain, all)
            } else {
                product(plain, all)
            }
        }
        Condition::Not(one) => width_of(!plain, one),
    }
}

#[cycle(condition)]
fn product(plain: bool, all: &[Condition]) -> u32
    ensures { result ≡ product plain (members all.now) }
{
    let mut product = 1;
    let mut i = all.len();
    while i > 0 {
        i -= 1;
        product = capped(u64::from(width_of(plain, &all[i])) * u64::from(product));
    }
    product
}

#[cycle(condition)]
fn total(plain: bool, all: &[Condition]) -> u32
    ensures { result ≡ total plain (members all.now) }
{
    let mut total = 0;
    let mut i = all.len();
    while i > 0 {
        i -= 1;
        total = capped(u64::from(width_of(plain, &all[i])) + u64::from(total));
    }
    total
}

fn test_width(plain: bool, test: &Test) -> u32
    ensures { result ≡ capped (test_width plain (test_meant test.now)) }
{
    match test {
        Test::Compared(op, _) => compared_width(plain, *op),
        Test::Between(_, _) => one_or_two(plain),
        Test::OneOf(all) => list_width(plain, all.len()),
        Test::Prefix(_) => one_or_two(plain),
        Test::IsNull => 1,
    }
}

fn compared_width(plain: bool, op: Op) -> u32
    ensures { (v : Cell) → result ≡ capped (test_width plain (compared op v)) }
{
    match op {
        Op::Eq => one_or_two(plain),
        Op::Ne => one_or_two(!plain),
        Op::Lt | Op::Le | Op::Gt | Op::Ge => 1,
    }
}

fn one_or_two(one: bool) -> u32
    ensures { result ≡ (if one then 1 else 2) }
{
    if one { 1 } else { 2 }
}

// The values of a list, or what lies between them.
fn list_width(plain: bool, values: usize) -> u32
    ensures { result ≡ capped (if plain then values else values + 1) }
{
    let values = values as u64;
    if plain {
        capped(values)
    } else {
        capped(values.saturating_add(1))
    }
}

fn capped(number: u64) -> u32
    ensures { result ≡ capped number }
{
    number.min(65_536) as u32
}
