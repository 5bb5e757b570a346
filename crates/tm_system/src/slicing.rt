//! The way through a slice: its arrival, then the instructions of the tasks that run.

ghost use Rattle.std.specs.Prelude.{◌≡◌, ◌≢◌, ◌+◌, ◌<◌, ◌≤◌, IfOk, OnOk};
ghost use Rattle.tm_kernel.specs.State.{nobody};
ghost use Rattle.tm_image.specs.Image.{IsImage};
ghost use Rattle.tm_image.specs.Plan.{IsSlice};
ghost use Rattle.tm_system.specs.History.{History};
ghost use Rattle.tm_system.specs.Run.{arrives, turned, turns, sliced};
ghost use Rattle.tm_system.specs.Hearing.{heard, after_arrival, after_turn, after_turns, after_slice, StandAt, AreYoung};

use crate::listening::Listener;
use crate::machine::Machine;
use tm_image::Image;
use tm_marker::{NOBODY, Slice};

impl Machine {
    /// One slice: its arrival, then up to as many instructions as it is long, while a task runs.
    /// `listener` hears what is told of each moment that adds to a list of the run; where it refuses, the
    /// slice stops.
    pub fn slice<L: Listener>(
        &mut self,
        image: &Image,
        slice: &Slice,
        listener: &mut L,
    ) -> Result<(), L::Refusal>
        requires slice { IsSlice slice.now }
        requires young { AreYoung L.stands image.now self.old listener.old 1048577 }
        ensures stand { (h : History) → StandAt L.stands image.now self.old listener.old h →
            OnOk result (StandAt L.stands image.now self.new listener.new (sliced image.now h slice.now)) }
        ensures heard { OnOk result (heard self.new listener.new ≡ after_slice L.hears image.now slice.now (heard self.old listener.old)) }
    {
        // An image keeps what its type says.
        let _tasks = image.tasks();
        self.arrival(image, slice, listener)?;
        self.instructions(image, slice.length, listener)
    }

    /// The arrival of a slice, while the run goes on.
    fn arrival<L: Listener>(
        &mut self,
        _image: &Image,
        slice: &Slice,
        listener: &mut L,
    ) -> Result<(), L::Refusal>
        requires lines { slice.now.mask < 65536 }
        requires young { AreYoung L.stands _image.now self.old listener.old 0 }
        ensures stand { (h : History) → StandAt L.stands _image.now self.old listener.old h →
            OnOk result (StandAt L.stands _image.now self.new listener.new (arrives _image.now slice.now.mask slice.now.ports h)) }
        ensures heard { OnOk result (heard self.new listener.new ≡ after_arrival L.hears slice.now.mask slice.now.ports (heard self.old listener.old)) }
    {
        if self.ended() != 0 {
            return Ok(());
        }
        let task = self.running();
        let told = self.arrive(slice.mask, slice.ports);
        listener.hear(self, task, &told)
    }

    /// Up to so many instructions, while a task runs.
    fn instructions<L: Listener>(
        &mut self,
        image: &Image,
        most: u32,
        listener: &mut L,
    ) -> Result<(), L::Refusal>
        requires image { IsImage image.now }
        requires young { AreYoung L.stands image.now self.old listener.old most }
        ensures stand { (h : History) → StandAt L.stands image.now self.old listener.old h →
            OnOk result (StandAt L.stands image.now self.new listener.new (turns image.now most h)) }
        ensures heard { OnOk result (heard self.new listener.new ≡ after_turns L.hears image.now most (heard self.old listener.old)) }
    {
        let mut done = 0;
        while done < most && self.running() != NOBODY {
            done += self.stretch(image, most - done, listener)?;
        }
        Ok(())
    }

    /// One stretch of the running task, and how many instructions it has, 1 to `most`: those that add to
    /// no list, and the next one.
    #[inline]
    fn stretch<L: Listener>(
        &mut self,
        image: &Image,
        most: u32,
        listener: &mut L,
    ) -> Result<u32, L::Refusal>
        requires some { 0 < most }
        requires runs { self.old.kernel.running ≢ nobody }
        requires image { IsImage image.now }
        requires young { AreYoung L.stands image.now self.old listener.old most }
        ensures some { IfOk result (λ n. 0 < n) }
        ensures within { IfOk result (λ n. n ≤ most) }
        ensures stand { (h : History) → StandAt L.stands image.now self.old listener.old h →
            IfOk result (λ n. StandAt L.stands image.now self.new listener.new (turns image.now n h)) }
        ensures heard { IfOk result (λ n. heard self.new listener.new ≡ after_turns L.hears image.now n (heard self.old listener.old)) }
    {
        // The machine keeps what its type says.
        let _running = self.running();
        let went = self.advance(image, most);
        if went == most {
            return Ok(went);
        }
        self.instruction(image, listener)?;
        Ok(went + 1)
    }

    /// One instruction of the running task.
    #[inline]
    fn instruction<L: Listener>(
        &mut self,
        image: &Image,
        listener: &mut L,
    ) -> Result<(), L::Refusal>
        requires runs { self.old.kernel.running ≢ nobody }
        requires image { IsImage image.now }
        requires young { AreYoung L.stands image.now self.old listener.old 0 }
        ensures stand { (h : History) → StandAt L.stands image.now self.old listener.old h →
            OnOk result (StandAt L.stands image.now self.new listener.new (turned image.now h)) }
        ensures heard { OnOk result (heard self.new listener.new ≡ after_turn L.hears image.now (heard self.old listener.old)) }
    {
        let task = self.running();
        let told = self.turn(image);
        listener.hear(self, task, &told)
    }
}
