//! What the words of a call ask for.

use crate::text::Name;

/// What the program can be asked for.
#[derive(Drop)]
pub enum Command {
    /// The text of the whole run of a plan on an image.
    Trace {
        image: Name,
        plan: Name,
    },
    /// The dump of that run's window, put under a name.
    Record {
        image: Name,
        plan: Name,
        dump: Name,
    },
    /// A run of 0 to 1,048,576 slices, each of 0 to 1,048,576 instructions, beside the devices of a plant: the dump of
    /// its window and, where a name is given for it, the tape of its slices are put, under two names.
    Live {
        image: Name,
        plant: Name,
        dump: Name,
        slices: u32,
        len: u32,
        tape: Option<Name>,
    },
    /// The points from which a dump of an image can be replayed.
    Points {
        image: Name,
        dump: Name,
    },
    /// The text of the run that a dump of an image tells, from a point on, by 1 to 16 workers.
    Replay {
        image: Name,
        dump: Name,
        from: u64,
        workers: u8,
    },
    /// The summary of a generated run.
    Make {
        number: u32,
    },
    /// The text of an image, put under a new name, whose task 0 to 15 comes from an executable; the new name
    /// may be that of the image or of the executable.
    Load {
        image: Name,
        task: u8,
        executable: Name,
        new: Name,
    },
}

/// A run of 0 to 1,048,576 slices, each of 0 to 1,048,576 instructions, beside the devices of a plant and 1 to 4
/// observers, each of which looks 1 to 1,000 times: the dumps that they saw are put, under names with one prefix.
#[derive(Drop)]
pub struct WatchCommand {
    pub image: Name,
    pub plant: Name,
    pub prefix: Name,
    pub slices: u32,
    pub len: u32,
    pub observers: u8,
    pub looks: u16,
}
