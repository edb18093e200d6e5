//! The texts that begin with a prefix.
ghost use Rattle.std.specs.Prelude.{◌≡◌, IfOk};
ghost use Rattle.sr_box.specs.Prefixes.{next_prefix};

use sr_cell::list::{Bytes, NoMemory, Seq};
use std::alloc::Global;

/// The least text above all that begin with the prefix; none where there is no text above them.
pub fn next_prefix(alloc: Global, prefix: &[u8]) -> Result<Option<Bytes>, NoMemory>
    ensures { IfOk result (λ next. next ≡ next_prefix prefix.now) }
{
    let mut end = prefix.len();
    while end > 0 {
        end -= 1;
        if prefix[end] < 255 {
            let mut next = Seq::new(alloc);
            next.extend(&prefix[..end])?;
            next.push(prefix[end] + 1)?;
            return Ok(Some(next));
        }
    }
    Ok(None)
}
