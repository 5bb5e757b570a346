//! How many bytes each part of a dump has.

/// A number below 2^32.
pub const WORD_BYTES: u64 = 4;

/// A number below 2^64: a total, an epoch, the number of an entry.
pub const LONG_BYTES: u64 = 8;

/// The magic number and the version.
pub const MAGIC_BYTES: u64 = 5;

/// The image's digest, or the closing one.
pub const DIGEST_BYTES: u64 = 32;

/// The magic number, the version, the image's digest and the number of tasks.
pub const HEAD_BYTES: u64 = MAGIC_BYTES + DIGEST_BYTES + 1;

/// An epoch, a count, a pc.
pub const MARKER_BYTES: u64 = LONG_BYTES + 2 * WORD_BYTES;

/// A control entry: two tasks, two markers, a kind.
pub const SWITCH_BYTES: u64 = 3 + 2 * MARKER_BYTES;

/// An output: a task, a port, a value.
pub const OUTPUT_BYTES: u64 = 2 + WORD_BYTES;

/// A data entry: a service, a status, four words.
pub const ENTRY_BYTES: u64 = 1 + 5 * WORD_BYTES;

/// The pc and the registers of a checkpoint.
pub const CORE_BYTES: u64 = 32 * WORD_BYTES;

/// A checkpoint without its data words.
pub const CHECKPOINT_BYTES: u64 = CORE_BYTES + 2 * LONG_BYTES;

/// Who runs, and how the run stands.
pub const ENDS_BYTES: u64 = 2;

/// The marker and the state of a task.
pub const STAND_BYTES: u64 = MARKER_BYTES + 1;
