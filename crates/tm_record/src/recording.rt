//! The inner layer: a machine and the window of its run, moment by moment, for every image and history.

ghost use Rattle.std.specs.Prelude.{◌≡◌, [], IfOk};
ghost use Rattle.tm_image.specs.Plan.{IsSlice};
ghost use Rattle.tm_system.specs.History.{History};
ghost use Rattle.tm_system.specs.Parts.{word_counts};
ghost use Rattle.tm_system.specs.Run.{sliced};
ghost use Rattle.tm_system.specs.Hearing.{heard, AreYoung};
ghost use Rattle.tm_record.specs.Recording.{IsNoted, IsRecorded};
ghost use Rattle.tm_record.specs.Contents.{after_recording};

use crate::closing::close;
use crate::noting::{Notes, note_checkpoint};
use std::alloc::{AllocError, Global};
use tm_image::Image;
use tm_log::Window;
use tm_marker::Slice;
use tm_system::Machine;

/// A machine and the window of its run.
#[derive(Drop)]
pub(crate) struct Recording {
    pub(crate) machine: Machine,
    pub(crate) notes: Notes,
}

impl Recording {
    /// The machine of an image at boot, and its window: the boot's checkpoints, and no entries.
    pub(crate) fn boot(alloc: Global, image: &Image) -> Result<Self, AllocError>
        ensures { IfOk result (λ r. IsRecorded image.now r.machine r.notes []) }
    {
        let machine = Machine::boot(alloc, image)?;
        let mut window = Window::new(alloc, image.shape())?;
        // Each task of an image has a body that the machine can boot.
        let _tasks = image.tasks();
        for task in 0..machine.tasks() {
            let _tasks = window.tasks();
            note_checkpoint(&machine, &mut window, Some(task));
        }
        close(&machine, &mut window);
        Ok(Recording {
            machine,
            notes: Notes { window },
        })
    }

    /// Makes it another whose machine and window have the same sizes.
    pub(crate) fn copy_from(&mut self, other: &Recording)
        requires spec { self.old.machine.kernel.spec ≡ other.now.machine.kernel.spec }
        requires words { word_counts self.old.machine.tasks ≡ word_counts other.now.machine.tasks }
        requires shape { self.old.notes.shape ≡ other.now.notes.shape }
        ensures machine { self.new.machine ≡ other.now.machine }
        ensures notes { self.new.notes ≡ other.now.notes }
    {
        self.machine.copy_from(&other.machine);
        self.notes.window.copy_from(&other.notes.window);
    }

    /// One slice: its arrival, then up to as many instructions as it is long, while a task runs.
    pub(crate) fn slice(&mut self, image: &Image, slice: &Slice)
        requires slice { IsSlice slice.now }
        requires young { AreYoung IsNoted image.now self.old.machine self.old.notes 1048577 }
        ensures recorded { (h : History) → IsRecorded image.now self.old.machine self.old.notes h →
            IsRecorded image.now self.new.machine self.new.notes (sliced image.now h slice.now) }
        ensures contents { heard self.new.machine self.new.notes
            ≡ after_recording image.now slice.now (heard self.old.machine self.old.notes) }
    {
        match self.machine.slice(image, slice, &mut self.notes) {
            Ok(()) => self.notes.close(&self.machine),
            Err(never) => match never {},
        }
    }
}
