//! Writing a dump.

ghost use Rattle.std.specs.Prelude.{◌≡◌, ◌++◌, ◌≤◌, drop, length, IsOk, OnOk, OnErr};
ghost use Rattle.tm_log.specs.Window.{dump_bound};
ghost use Rattle.tm_dump.specs.Dump.{closing_digest, dump_bytes};
ghost use Rattle.tm_dump.specs.Room.{HasRoom, Gains};

use crate::body::put_body;
use crate::length::dump_length;
use crate::numbers::put;
use crate::widths::DIGEST_BYTES;
use sha2::{Digest, Sha256};
use std::alloc::AllocError;
use tm_log::Window;

/// The digest that closes a dump whose other bytes are these.
#[tactic(auto, unfolding(crate::specs::Dump::closing_digest))]
pub(crate) fn closing_digest(body: &[u8]) -> [u8; 32]
    ensures digest { result ≡ closing_digest body.now }
    ensures long { length result ≡ DIGEST_BYTES }
{
    Sha256::digest(body)
}

/// The digest of all bytes from a place on.
fn put_digest(start: usize, into: &mut Vec<u8>)
    requires start { start ≤ length into.old.items }
    requires room { HasRoom into.old DIGEST_BYTES }
    ensures { Gains into.old into.new (closing_digest (drop start into.old.items)) }
{
    let digest = closing_digest(&into.as_slice()[start..]);
    put(&digest, into);
}

/// Appends the dump of a window, which has [`Window::dump_bound`] bytes at most. It succeeds where `into`
/// has room for so many more bytes. On want of memory `into` is as before.
#[tactic(auto, unfolding(crate::specs::Dump::dump_bytes))]
pub fn write_dump(window: &Window, into: &mut Vec<u8>) -> Result<(), AllocError>
    ensures ok { OnOk result (into.new.items ≡ into.old.items ++ dump_bytes window.now) }
    ensures err { OnErr result (into.new.items ≡ into.old.items) }
    ensures bound { OnOk result (length (dump_bytes window.now) ≤ dump_bound window.now.shape) }
    ensures room { HasRoom into.old (dump_bound window.now.shape) → IsOk result }
{
    into.reserve(dump_length(window) as usize)?;
    let start = into.len();
    put_body(window, into);
    put_digest(start, into);
    Ok(())
}
