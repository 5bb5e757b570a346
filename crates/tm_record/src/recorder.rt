//! The outer layer: a recorder always stands for a script.

ghost use Rattle.std.specs.Prelude.{◌≡◌, ◌+◌, ◌-◌, ◌^◌, ◌<◌, ◌≤◌, List, [], ◌∷◌, ◌++◌, IfOk};
ghost use Rattle.tm_marker.specs.declared.entries.Slice.{Slice};
ghost use Rattle.tm_image.specs.Image.{ImageView};
ghost use Rattle.tm_record.specs.StandsFor.{StandsFor, IsReal};
ghost use Rattle.tm_record.specs.Contents.{stepped};

use crate::recording::Recording;
use std::alloc::{AllocError, Global};
use std::marker::Model;
use tm_image::Image;
use tm_log::Window;
use tm_marker::Slice;

/// A machine of an image and the window of its run, slice by slice.
#[derive(Drop)]
pub struct Recorder {
    image: Image,
    recording: Recording,
    slices: u64,
}

impl Model for Recorder {
    ghost use Rattle.tm_record.specs.StandsFor.{RecorderView, IsReal};

    ghost Value = { RecorderView };

    ghost view = { λ r. record { image = r.image; machine = r.recording.machine; window = r.recording.notes; slices = r.slices } };

    ghost invariant = { λ r. IsReal (record { image = r.image; machine = r.recording.machine; window = r.recording.notes; slices = r.slices }) };
}

impl Recorder {
    /// A recorder of the image at boot: its window has the boot's checkpoints and no entries. All memory
    /// that later calls need is taken here.
    pub fn open(alloc: Global, image: Image) -> Result<Self, AllocError>
        ensures { IfOk result (λ recorder. StandsFor image recorder []) }
    {
        let recording = Recording::boot(alloc, &image)?;
        Ok(Recorder {
            image,
            recording,
            slices: 0,
        })
    }

    /// One slice: its arrival, then up to as many instructions as it is long, while a task runs. Where
    /// the run has ended, the slice is counted, and changes nothing else.
    pub fn slice(&mut self, slice: &Slice)
        requires few { self.old.slices < 2 ^ 32 - 1 }
        requires short { slice.now.length ≤ 1048576 }
        requires lines { slice.now.mask < 65536 }
        ensures stepped { self.new ≡ stepped self.old slice.now }
        ensures stands { (image : ImageView) (script : List Slice) → StandsFor image self.old script →
            StandsFor image self.new (script ++ slice.now ∷ []) }
    {
        // An image keeps what its type says, and a slice has four ports.
        let _tasks = self.image.tasks();
        let _ports = &slice.ports;
        self.recording.slice(&self.image, slice);
        self.slices += 1;
    }

    /// Makes the recorder another of an equal image.
    pub fn copy_from(&mut self, other: &Recorder)
        requires { self.old.image ≡ other.now.image }
        ensures copied { self.new ≡ other.now }
    {
        // An image keeps what its type says.
        let _tasks = self.image.tasks();
        self.recording.copy_from(&other.recording);
        self.slices = other.slices;
    }

    /// How many slices were done.
    pub fn slices(&self) -> u64
        ensures slices { result ≡ self.now.slices }
        ensures real { IsReal self.now }
    {
        self.slices
    }

    /// The window.
    pub fn window(&self) -> &Window
        ensures window { result.now ≡ self.now.window }
        ensures real { IsReal self.now }
    {
        &self.recording.notes.window
    }

    /// The image.
    pub fn image(&self) -> &Image
        ensures { result.now ≡ self.now.image }
    {
        &self.image
    }
}
