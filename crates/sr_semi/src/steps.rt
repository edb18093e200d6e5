//! What comes of an answer.
ghost use Rattle.std.specs.Prelude.{◌≡◌, IfOk};
ghost use Rattle.sr_semi.specs.Going.{step_of, right_if_read, joins, ends_with};
ghost use Rattle.sr_semi.specs.declared.stage.Stage.TheVariants.{Left, LeftAgain};
ghost use Rattle.sr_semi.specs.declared.stage.Next.TheVariants.{Run};
ghost use Rattle.sr_semi.specs.Seen.{sides_seen};

use crate::joining::join;
use crate::keys::Keys;
use crate::reading::unread;
use crate::sides::Sides;
use crate::stage::{Next, Stage, Step};
use sr_cell::cell::{Row, Rows};
use sr_cell::list::{Copied, NoMemory, Seq};
use std::alloc::Global;

/// The last step.
fn ends_with(next: Next) -> Step
    ensures { result ≡ ends_with next }
{
    Step {
        next,
        stage: Stage::Over,
    }
}

/// Runs the right text, if it can be read.
fn right_if_read(
    alloc: Global,
    sides: &Sides,
    version: u64,
    lefts: &Rows,
    keys: Keys,
) -> Result<Step, NoMemory>
    ensures { IfOk result (λ step. step ≡ right_if_read (sides_seen sides.now) version lefts.now keys) }
{
    let text = sides.right.text(alloc, keys.as_slice())?;
    if unread(alloc, text.as_str())?.is_some() {
        return Ok(ends_with(Next::Plain));
    }
    Ok(Step {
        next: Next::Run(text),
        stage: Stage::Right {
            version,
            keys,
            lefts: lefts.copy(alloc)?,
        },
    })
}

/// Behind the first left text.
fn behind_left(alloc: Global, sides: &Sides, version: u64, rows: &Rows) -> Result<Step, NoMemory>
    ensures { IfOk result (λ step. step ≡ step_of (sides_seen sides.now) Left version rows.now) }
{
    let most = sides.right.most_keys();
    match Keys::of(alloc, rows.as_slice(), sides.left_place(), most)? {
        None => Ok(ends_with(Next::Plain)),
        Some(keys) => {
            if keys.as_slice().is_empty() {
                return Ok(ends_with(Next::Joined {
                    version,
                    keys: 0,
                    rows: Seq::new(alloc),
                }));
            }
            right_if_read(alloc, sides, version, rows, keys)
        }
    }
}

/// Joins the rows of both sides.
fn joins(
    alloc: Global,
    sides: &Sides,
    version: u64,
    keys: &Keys,
    lefts: &[Row],
    rights: &[Row],
) -> Result<Step, NoMemory>
    ensures { IfOk result (λ step. step ≡ joins (sides_seen sides.now) version keys.now lefts.now rights.now) }
{
    Ok(ends_with(Next::Joined {
        version,
        keys: keys.len(),
        rows: join(alloc, sides, keys, lefts, rights)?,
    }))
}

/// Runs the left text again, with what the right one brought.
fn left_again(
    alloc: Global,
    sides: &Sides,
    version: u64,
    keys: &Keys,
    rights: &Rows,
) -> Result<Step, NoMemory>
    ensures { IfOk result (λ step. step ≡ record { next = Run (sides_seen sides.now).left.text; stage = LeftAgain version keys.now rights.now }) }
{
    Ok(Step {
        next: Next::Run(sides.left.text.copy(alloc)?),
        stage: Stage::LeftAgain {
            version,
            keys: keys.copy(alloc)?,
            rights: rights.copy(alloc)?,
        },
    })
}

/// What comes of an answer to the text that was named last.
pub fn step(
    alloc: Global,
    sides: &Sides,
    stage: &Stage,
    version: u64,
    rows: &Rows,
) -> Result<Step, NoMemory>
    ensures { IfOk result (λ step. step ≡ step_of (sides_seen sides.now) stage.now version rows.now) }
{
    match stage {
        Stage::Left => behind_left(alloc, sides, version, rows),
        Stage::Right {
            version: first,
            keys,
            lefts,
        } => {
            if version == *first {
                joins(
                    alloc,
                    sides,
                    version,
                    keys,
                    lefts.as_slice(),
                    rows.as_slice(),
                )
            } else {
                left_again(alloc, sides, version, keys, rows)
            }
        }
        Stage::LeftAgain {
            version: second,
            keys,
            rights,
        } => {
            if version == *second && keys.all_have(rows.as_slice(), sides.left_place()) {
                joins(
                    alloc,
                    sides,
                    version,
                    keys,
                    rows.as_slice(),
                    rights.as_slice(),
                )
            } else {
                Ok(ends_with(Next::Plain))
            }
        }
        Stage::Over => Ok(ends_with(Next::Plain)),
    }
}
