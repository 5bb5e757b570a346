//! Laws of every dump. The function here does nothing: its clause is the law.

ghost use Rattle.std.specs.Prelude.{◌≡◌};
ghost use Rattle.tm_dump.specs.Laws.{DumpsAreBounded, DumpsAreRead, ReadsAreDumps};

use crate::widths::{
    CHECKPOINT_BYTES, CORE_BYTES, DIGEST_BYTES, ENDS_BYTES, ENTRY_BYTES, HEAD_BYTES, LONG_BYTES,
    MAGIC_BYTES, MARKER_BYTES, OUTPUT_BYTES, STAND_BYTES, SWITCH_BYTES, WORD_BYTES,
};

/// A dump is no longer than that of a window of its shape in which every buffer is full.
pub fn dumps_are_bounded()
    ensures { DumpsAreBounded }
{}

/// What is read is a window that a run could have left, and the bytes are its dump.
pub fn reads_are_dumps()
    ensures { ReadsAreDumps }
{}

/// The dump of a window that a run could have left is read, and gives that window.
pub fn dumps_are_read()
    ensures { DumpsAreRead }
{}

/// The widths of a dump's parts, as figures.
pub fn widths_are()
    ensures word { WORD_BYTES ≡ 4 }
    ensures long { LONG_BYTES ≡ 8 }
    ensures magic { MAGIC_BYTES ≡ 5 }
    ensures digest { DIGEST_BYTES ≡ 32 }
    ensures head { HEAD_BYTES ≡ 38 }
    ensures marker { MARKER_BYTES ≡ 16 }
    ensures switch { SWITCH_BYTES ≡ 35 }
    ensures output { OUTPUT_BYTES ≡ 6 }
    ensures entry { ENTRY_BYTES ≡ 21 }
    ensures core { CORE_BYTES ≡ 128 }
    ensures checkpoint { CHECKPOINT_BYTES ≡ 144 }
    ensures ends { ENDS_BYTES ≡ 2 }
    ensures stand { STAND_BYTES ≡ 17 }
{}
