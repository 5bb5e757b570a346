//! Laws of every recorder. Each function here does nothing: its clauses are the laws.

ghost use Rattle.tm_record.specs.Laws.{TotalsAreBounded, RecordersAreOfTheirImage, RecordersAreWellFormed};
ghost use Rattle.tm_record.specs.WindowOf.{WindowsAreOfRuns};

/// After so many slices no list is longer than they could make it; each recorder is of its image; and
/// its window is well formed.
pub fn recorders_are_consistent()
    ensures bounded { TotalsAreBounded }
    ensures image { RecordersAreOfTheirImage }
    ensures well_formed { RecordersAreWellFormed }
{}

/// A recorder's window is that of the run of the script that it stands for.
pub fn windows_are_of_runs()
    ensures { WindowsAreOfRuns }
{}
