//! A recorder beside the script that it stands for. Code keeps the recorder alone; contracts see the script.

ghost use Rattle.std.specs.Prelude.{◌≡◌, ◌+◌, ◌-◌, ◌<◌, ◌≤◌, ◌^◌, [], ◌∷◌, ◌++◌, length, IfOk, vec_len, vec_capacity};
ghost use Rattle.tm_image.specs.Image.{shape_of};
ghost use Rattle.tm_log.specs.Window.{dump_bound};
ghost use Rattle.tm_watch.specs.Dumps.{dump_of};
ghost use Rattle.tm_watch.specs.Run.{RunView, no_run};

use crate::untold::{List, Untold, nothing};
use logbook::{Opening, Start};
use std::alloc::{AllocError, Global};
use std::marker::Model;
use tm_dump::write_dump;
use tm_image::Image;
use tm_marker::Slice;
use tm_record::Recorder;

/// A script that contracts alone see.
type Script = List<Slice>;

/// A recorder, and the script that it stands for. Contracts see its image and the script.
#[derive(Drop)]
pub(crate) struct Run {
    recorder: Recorder,
    script: Script,
}

impl Model for Run {
    ghost use Rattle.tm_record.specs.StandsFor.{StandsFor};
    ghost use Rattle.tm_watch.specs.Run.{RunView};

    ghost Value = { RunView };

    ghost view = { λ r. record { image = r.recorder.image; script = r.script.log } };

    ghost invariant = { λ r. StandsFor r.recorder.image r.recorder r.script.log };
}

/// A script, and a slice that follows.
#[derive(Drop)]
struct Longer {
    script: Script,
    slice: Slice,
}

impl Opening<Longer, Slice> for Untold {
    ghost use Rattle.std.specs.Prelude.{[], ◌∷◌, ◌++◌};

    ghost log = { λ count longer. longer.script.log ++ longer.slice ∷ [] };
}

/// A script with one slice more.
fn with_slice(script: &Script, slice: &Slice) -> Script
    ensures { result.log ≡ script.now.log ++ slice.now ∷ [] }
{
    let longer = Longer {
        script: script.again(),
        slice: *slice,
    };
    Script::open_row::<Longer, Untold>(&longer, Start::alone(), 0).0
}

impl Run {
    /// The run of no slice.
    pub(crate) fn open(alloc: Global, image: Image) -> Result<Run, AllocError>
        ensures { IfOk result (λ run. run ≡ no_run image) }
    {
        Ok(Run {
            recorder: Recorder::open(alloc, image)?,
            script: nothing(),
        })
    }

    /// How many slices the script has.
    pub(crate) fn slices(&self) -> u64
        ensures { result ≡ length self.now.script }
    {
        self.recorder.slices()
    }

    /// The image.
    pub(crate) fn image(&self) -> &Image
        ensures { result.now ≡ self.now.image }
    {
        self.recorder.image()
    }

    /// One slice more.
    pub(crate) fn slice(&mut self, slice: &Slice)
        requires few { length self.old.script < 2 ^ 32 - 1 }
        requires short { slice.now.length ≤ 1048576 }
        requires lines { slice.now.mask < 65536 }
        ensures { self.new ≡ record self.old { script = self.old.script ++ slice.now ∷ [] } }
    {
        self.recorder.slice(slice);
        self.script = with_slice(&self.script, slice);
    }

    /// How many bytes a dump of the run has at most, whatever the script.
    pub(crate) fn dump_bound(&self) -> u64
        ensures { result ≡ dump_bound (shape_of self.now.image) }
    {
        self.recorder.window().dump_bound()
    }

    /// Appends the dump of the run to `into`, which has room for it.
    pub(crate) fn write(&self, into: &mut Vec<u8>)
        requires { vec_len into.old + dump_bound (shape_of self.now.image) ≤ vec_capacity into.old }
        ensures { into.new.items ≡ into.old.items ++ dump_of self.now.image self.now.script }
    {
        // An image and a window keep what their types say.
        self.recorder.image().attest();
        let window = self.recorder.window();
        let _tasks = window.tasks();
        match write_dump(window, into) {
            Ok(()) => (),
            Err(_) => unreachable!(),
        }
    }
}
