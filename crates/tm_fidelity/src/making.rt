//! The outputs of a run, and those that its window has kept.

ghost use Rattle.tm_fidelity.specs.Making.{OutputsAgree};

/// The outputs of a run's text from a point on are those that the run's window has kept, as far back as
/// both go.
pub fn outputs_agree()
    ensures { OutputsAgree }
{}
