//! The data words that changed.

ghost use Rattle.std.specs.Prelude.{◌≡◌, ◌+◌, ◌*◌, ◌<◌, ◌≤◌, length, IfOk};
ghost use Rattle.tm_spelling.specs.Story.{changes};

use std::alloc::{AllocError, Global};
use tm_marker::Items;

/// Where data stands, in bytes.
const DATA: u32 = 0x1000_0000;

fn address_of(index: usize) -> u32
    requires { index < 16384 }
    ensures { result ≡ 0x10000000 + 4 * index }
{
    DATA + 4 * index as u32
}

/// The data words that differ from what they were, as pairs of their address and what they are
/// now, in rising address. Words past the end of the shorter list are not compared.
pub fn changes(alloc: Global, before: &[u32], now: &[u32]) -> Result<Items<(u32, u32)>, AllocError>
    requires { length now.now ≤ 16384 }
    ensures { IfOk result (λ changed. changed ≡ changes before.now now.now) }
{
    let mut changed = Items::new(alloc);
    for (index, &word) in now.iter().enumerate() {
        if index >= before.len() {
            break;
        }
        if before[index] != word {
            changed.push((address_of(index), word))?;
        }
    }
    Ok(changed)
}
