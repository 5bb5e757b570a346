//! Where named files are got and put.

ghost use Rattle.std.specs.Prelude.{◌≡◌, ◌≢◌, ◌<◌, ◌≤◌, ◌⊎◌, Some, None, length, IsTrue, IsSomeAnd, IsOk, OnOk, OnErr};

use std::alloc::AllocError;
use thiserror::Error;

/// Why a content was not got. The cases are tested in this order.
#[derive(Clone, Copy, Debug, PartialEq, Eq, Error)]
pub enum GetFault {
    /// The name isn't there, or can't be read.
    #[error("can't be read")]
    Failed,
    /// The content is longer than the limit.
    #[error("too long")]
    TooLong,
    /// Want of memory.
    #[error("out of memory")]
    Memory,
}

impl From<AllocError> for GetFault {
    ghost use Rattle.tm_io.specs.declared.shelf.GetFault.{GetFault};

    ghost from_gives = { λ _ fault. fault ≡ GetFault.Memory };

    fn from(_: AllocError) -> Self {
        GetFault::Memory
    }
}

/// Why a content was not put.
#[derive(Clone, Copy, Debug, PartialEq, Eq, Error)]
pub enum PutFault {
    /// The name can't be written. Its content is then open.
    #[error("can't be written")]
    Failed,
}

/// Where named files are got and put, with a count of faults for gets and one for puts. A count
/// stands still at 2^64 - 1.
pub trait Shelf {
    ghost use Rattle.tm_io.specs.Shelf.{ShelfView, get_failed, put_in, PutFailed, HasRoom};

    // What contracts see of the shelf. A calm shelf that tells its contents fails no get of a name that is
    // there, and no put for which it has room.
    ghost seen: { Self → ShelfView };

    /// Makes `into` the content under the name, of at most `limit` bytes. After a fault `into` is as
    /// before. `Failed` comes also for a name that isn't there.
    fn get(&mut self, name: &str, limit: u64, into: &mut Vec<u8>) -> Result<(), GetFault>
        ensures stays { result ≢ Err GetFault.Failed → seen self.new ≡ seen self.old }
        ensures failed { result ≡ Err GetFault.Failed → seen self.new ≡ get_failed (seen self.old) }

        ensures within { OnOk result (length into.new.items ≤ limit) }
        ensures found { IsTrue (seen self.old).tells → OnOk result ((seen self.old).content name.now ≡ Some into.new.items) }
        ensures into_stays { OnErr result (into.new.items ≡ into.old.items) }

        ensures missing { IsTrue (seen self.old).tells → (seen self.old).content name.now ≡ None → result ≡ Err GetFault.Failed }
        ensures calm_finds { IsTrue (seen self.old).tells → IsTrue (seen self.old).calm →
            result ≡ Err GetFault.Failed → (seen self.old).content name.now ≡ None }

        // TooLong comes exactly where the content is longer than the limit, but after Failed.
        ensures too_long { IsTrue (seen self.old).tells → result ≡ Err GetFault.TooLong →
            IsSomeAnd ((seen self.old).content name.now) (λ bytes. limit < length bytes) }
        ensures longer { IsTrue (seen self.old).tells → IsSomeAnd ((seen self.old).content name.now) (λ bytes. limit < length bytes) →
            (result ≡ Err GetFault.TooLong) ⊎ (result ≡ Err GetFault.Failed) };

    /// Gives the name these bytes. It takes no memory of the program's.
    fn put(&mut self, name: &str, bytes: &[u8]) -> Result<(), PutFault>
        ensures held { OnOk result (seen self.new ≡ put_in (seen self.old) name.now bytes.now) }
        ensures failed { OnErr result (PutFailed (seen self.old) name.now (seen self.new)) }
        ensures quiet { HasRoom (seen self.old) name.now bytes.now → IsOk result };
}
