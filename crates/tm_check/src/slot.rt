//! One place for a checkpoint, to be filled again and again.

ghost use Rattle.std.specs.Prelude.{◌≡◌, length, replicate, IfOk};
ghost use Rattle.tm_marker.specs.declared.body.Body.{Body};
ghost use Rattle.tm_check.specs.Checkpoint.{checkpoint};

use std::alloc::{AllocError, Global};
use std::marker::Model;
use tm_marker::Body;

/// A checkpoint.
#[derive(Drop)]
pub(crate) struct Slot {
    pub(crate) body: Body,
    pub(crate) data_no: u64,
    pub(crate) control_no: u64,
}

impl Model for Slot {
    ghost use Rattle.tm_check.specs.Checkpoint.{Checkpoint, checkpoint};

    ghost Value = { Checkpoint };

    ghost view = { λ s. checkpoint s.body s.data_no s.control_no };
}

impl Slot {
    /// A place for a body of so many data words.
    pub(crate) fn new(alloc: Global, words: u32) -> Result<Self, AllocError>
        ensures { IfOk result (λ slot. length slot.body.words ≡ words) }
    {
        Ok(Slot {
            body: Body::new(alloc, words)?,
            data_no: 0,
            control_no: 0,
        })
    }

    /// Keeps this checkpoint in the place of another of the same size.
    pub(crate) fn fill(&mut self, body: &Body, data_no: u64, control_no: u64)
        requires { length body.now.words ≡ length self.old.body.words }
        ensures { self.new ≡ checkpoint body.now data_no control_no }
    {
        self.body.copy_from(body);
        self.data_no = data_no;
        self.control_no = control_no;
    }
}
