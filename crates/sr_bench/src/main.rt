//! How many rects the differences and the disjoint lists of random rects have and, with the word `times`, how long each
//! takes, with the making of the random rects. With the word `wire`: how fast frames are written and read.
#![tactic(auto)]

ghost use Rattle.std.specs.Prelude.{◌≡◌, true};
ghost use Rattle.sr_box.specs.Corners.{have_first};
ghost use Rattle.sr_union.specs.Grid.{all_inner};

mod frames;
mod messages;
mod mutate;
mod rects;
mod wire;

use frames::frames;
use rects::{Random, table_of};
use sr_cell::list::No;
use sr_cell::table::Table;
use sr_union::minus::Over;
use sr_union::rects::Rects;
use std::alloc::Global;
use std::time::Instant;
use std::{env, io};

/// The most rects that a result may have.
const LIMIT: u32 = 16384;

fn main(rt: HostRuntime) -> io::Result<()> {
    if is_said(&rt, "wire")? {
        return frames(&rt);
    }
    let timed = is_said(&rt, "times")?;
    for columns in [2, 4] {
        for count in [10, 20, 50, 100] {
            print_both(&rt, columns, count, timed)?;
        }
    }
    Ok(())
}

/// Whether the word is among those of the program.
fn is_said(rt: &HostRuntime, word: &str) -> io::Result<bool> {
    Ok(env::args(rt)?.any(|said| said.as_str() == word))
}

/// Prints how many rects the difference and the disjoint list have.
fn print_both(rt: &HostRuntime, columns: usize, count: usize, timed: bool) -> io::Result<()> {
    print!(rt; "{columns} columns, {count} rects: ")?;
    let start = Instant::now(rt)?;
    print_len(rt, "difference", difference(rt.alloc(), columns, count))?;
    print_time(rt, timed, start)?;
    let start = Instant::now(rt)?;
    print_len(rt, ", disjoint", disjoint(rt.alloc(), columns, count))?;
    print_time(rt, timed, start)?;
    println!(rt; "")
}

/// Prints how long it took, where times are asked for.
fn print_time(rt: &HostRuntime, timed: bool, start: Instant) -> io::Result<()> {
    if timed {
        print!(rt; " in {} µs", start.elapsed(rt)?.as_micros())?;
    }
    Ok(())
}

fn print_len(rt: &HostRuntime, name: &str, len: Result<usize, No<Over>>) -> io::Result<()> {
    match len {
        Ok(len) => print!(rt; "{name} {len}"),
        Err(_) => print!(rt; "{name} over the limit"),
    }
}

/// How long the difference of so many rects by as many others is.
fn difference(alloc: Global, columns: usize, count: usize) -> Result<usize, No<Over>> {
    let table = table_of(alloc, columns)?;
    let mut random = random_of(columns);
    let rects = random.rects(alloc, count)?;
    let others = random.rects(alloc, count)?;
    difference_of(alloc, &table, &rects, &others)
}

/// How long the difference of rects by others is.
fn difference_of(
    alloc: Global,
    table: &Table,
    rects: &Rects,
    others: &Rects,
) -> Result<usize, No<Over>>
    requires inner { all_inner table.now.columns ≡ true }
    requires first { have_first table.now.columns ≡ true }
{
    if !rects.fits(table) || !others.fits(table) {
        return Err(No::Refused(Over));
    }
    Ok(rects.minus(alloc, others, table, LIMIT)?.len())
}

/// How long the disjoint list of so many rects is.
fn disjoint(alloc: Global, columns: usize, count: usize) -> Result<usize, No<Over>> {
    let table = table_of(alloc, columns)?;
    let rects = random_of(columns).rects(alloc, count)?;
    disjoint_of(alloc, &table, &rects)
}

/// How long the disjoint list of rects is.
fn disjoint_of(alloc: Global, table: &Table, rects: &Rects) -> Result<usize, No<Over>>
    requires inner { all_inner table.now.columns ≡ true }
    requires first { have_first table.now.columns ≡ true }
{
    if !rects.fits(table) {
        return Err(No::Refused(Over));
    }
    Ok(rects.disjoint(alloc, table, LIMIT)?.len())
}

/// Narrow rects of two columns and wide ones of more, so that about as many of them meet.
fn random_of(columns: usize) -> Random {
    Random {
        state: 1,
        columns,
        width: if columns == 2 { 3000 } else { 9999 },
    }
}
