//! What a dump of a run says.

ghost use Rattle.tm_widths.specs.Legible.{DumpsOfRunsAreRead, DumpsOfRunsAreShort, DumpsTellRuns, ImagesFit};

/// Each data word and each mask of events of an image that a text gives is a number of 32 bits.
pub fn images_fit()
    ensures { ImagesFit }
{}

/// The dump of every run is read, and gives the run's window.
pub fn dumps_of_runs_are_read()
    ensures { DumpsOfRunsAreRead }
{}

/// The dump of every run has at most 128 MiB, whatever the script and the sizes of the image's buffers.
pub fn dumps_of_runs_are_short()
    ensures { DumpsOfRunsAreShort }
{}

/// From each point, the dump of a script's run is accepted exactly where the run can be replayed from
/// it, and then tells exactly what the run did.
pub fn dumps_tell_runs()
    ensures { DumpsTellRuns }
{}
