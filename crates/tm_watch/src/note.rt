//! A note of what a watch has published.

ghost use Rattle.std.specs.Prelude.{◌≡◌, length};
ghost use Rattle.tm_watch.specs.Views.{Told};

use crate::history::Front;
use std::marker::Model;

/// What a watch had published when it gave the note. Contracts see which watch that is and the list of slices.
#[derive(Drop)]
pub struct Note {
    pub(crate) front: Front,
}

impl Model for Note {
    ghost use Rattle.tm_watch.specs.Views.{Told};

    ghost Value = { Told };

    ghost view = { λ n. n.front };
}

impl Note {
    /// How many slices the list has.
    pub fn slices(&self) -> u64
        ensures { result ≡ length self.now.list }
    {
        self.front.slices()
    }
}
