//! How long the files may be.

ghost use Rattle.std.specs.Prelude.{◌≡◌};
ghost use Rattle.tm_prog.specs.RunDumps.{RunDumpsFit};

/// The most bytes of an image's file.
pub const IMAGE_LIMIT: u64 = 8 * 1024 * 1024;

/// The most bytes of the file of a plan or a plant.
pub const PLAN_LIMIT: u64 = 128 * 1024 * 1024;

/// The most bytes of a dump's file.
pub const DUMP_LIMIT: u64 = 128 * 1024 * 1024;

/// The most bytes of an executable.
pub const ELF_LIMIT: u64 = 8 * 1024 * 1024;

/// What the limits are, as figures: the clauses are the law, and the function does nothing.
pub fn limits_are()
    ensures image { IMAGE_LIMIT ≡ 8388608 }
    ensures plan { PLAN_LIMIT ≡ 134217728 }
    ensures dump { DUMP_LIMIT ≡ 134217728 }
    ensures elf { ELF_LIMIT ≡ 8388608 }
{}

/// The dump of every run is within the limit of a dump's file: the clause is the law, and the function does
/// nothing.
pub fn run_dumps_fit()
    ensures { RunDumpsFit }
{}
