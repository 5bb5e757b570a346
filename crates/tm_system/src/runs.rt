//! Laws of every run of a script. Each function here does nothing: its clauses are the laws.

ghost use Rattle.tm_system.specs.Laws.{ScriptsAreRuns, ScriptsAreSound};

/// The run of every script on every image is boot and moments that each follow, and it is sound
/// at each of them.
pub fn scripts_are_runs()
    ensures runs { ScriptsAreRuns }
    ensures sound { ScriptsAreSound }
{}
