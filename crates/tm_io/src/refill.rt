//! A list of the caller's, filled anew.

ghost use Rattle.std.specs.Prelude.{◌≡◌, ◌<◌, length, vec_capacity, OnOk, OnErr};

use crate::Memory;

/// Makes `into` these bytes, or leaves it as it was.
pub(crate) fn refill(into: &mut Vec<u8>, bytes: &[u8]) -> Result<(), Memory>
    ensures ok { OnOk result (into.new.items ≡ bytes.now) }
    ensures err { OnErr result (into.new.items ≡ into.old.items) }
    ensures full { OnErr result (vec_capacity into.old < length bytes.now) }
{
    into.reserve(bytes.len().saturating_sub(into.len()))?;
    into.clear();
    // The room is there now, so this can't fail.
    let _ = into.extend_from_slice(bytes);
    Ok(())
}
