//! Where text is written.

ghost use Rattle.std.specs.Prelude.{◌≡◌, ◌<◌, ◌≤◌, length, take, IsOk, IfOk, OnErr};

use thiserror::Error;

/// A write that failed, and appended nothing.
#[derive(Clone, Copy, Debug, PartialEq, Eq, Error)]
#[error("the output takes no more bytes")]
pub struct Failed;

/// Where text is written, with a count of faults, which stands still at 2^64 - 1.
pub trait Sink {
    ghost use Rattle.tm_io.specs.Sink.{SinkView, took, write_failed, HasRoomFor};

    // What contracts see of the sink. A calm sink that tells its bytes fails no write for which it has room.
    ghost seen: { Self → SinkView };

    /// Appends the first bytes of the piece, and says how many: at least 1 of a piece that isn't
    /// empty. A fault appends nothing and is counted.
    fn write(&mut self, piece: &[u8]) -> Result<usize, Failed>
        ensures within { IfOk result (λ n. n ≤ length piece.now) }
        ensures goes_on { IfOk result (λ n. 0 < length piece.now → 0 < n) }
        ensures taken { IfOk result (λ n. seen self.new ≡ took (seen self.old) (take n piece.now)) }
        ensures failed { OnErr result (seen self.new ≡ write_failed (seen self.old)) }
        ensures quiet { HasRoomFor (seen self.old) (length piece.now) → IsOk result };
}
