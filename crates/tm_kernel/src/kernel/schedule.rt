//! Who runs next, what an interrupt does, and how a run ends.

ghost use Rattle.std.specs.Prelude.{◌≡◌, ◌≢◌, ◌<◌, fold};
ghost use Rattle.tm_kernel.specs.State.{IsKernel, nobody, paused, stopped};
ghost use Rattle.tm_kernel.specs.Schedule.{pick, run_task, rescheduled, arrived, performed, raised_actions};

use super::claim::first_greatest;
use super::{Kernel, TaskState};
use crate::{Action, LINES};
use tm_marker::{FAULTED, GOES_ON, NOBODY, SHUT_DOWN};

impl Kernel {
    /// The ready or running task of greatest current priority, the holder of a resource among equals,
    /// or [`NOBODY`].
    pub fn pick(&self) -> u8
        ensures picked { result ≡ pick self.now }
        ensures sound { IsKernel self.now }
    {
        first_greatest(&self.ceilings, self.states.as_slice())
    }

    /// Runs the picked task; another that ran before becomes ready.
    pub fn run(&mut self, task: u8)
        requires picked { task ≡ pick self.old }
        requires somebody { task ≢ nobody }
        ensures runs { self.new ≡ run_task self.old task }
        ensures sound { IsKernel self.new }
    {
        self.pause();
        self.states.set(usize::from(task), TaskState::Running);
        self.running = task;
    }

    /// Runs the picked task, where there is one and the run goes on.
    pub fn reschedule(&mut self)
        ensures rescheduled { self.new ≡ rescheduled self.old }
        ensures sound { IsKernel self.new }
    {
        let task = self.pick();
        if self.ended == GOES_ON && task != NOBODY {
            self.run(task);
        }
    }

    /// Ends the run by a fault or by a shutdown: the running task becomes ready, and nobody runs.
    pub fn stop(&mut self, fault: bool)
        requires { self.old.running ≢ nobody }
        ensures stopped { self.new ≡ stopped self.old fault }
        ensures sound { IsKernel self.new }
    {
        self.pause();
        self.ended = if fault { FAULTED } else { SHUT_DOWN };
    }

    /// Latches the input ports and performs the actions of the mask's lines in rising line,
    /// without the rescheduling that follows.
    pub fn arrive(&mut self, mask: u32, ports: [u32; 4])
        requires { mask < 65536 }
        ensures arrived { self.new ≡ arrived self.old mask ports }
        ensures sound { IsKernel self.new }
    {
        self.ports = ports;
        let lines = self.spec.lines;
        self.perform_raised(mask, &lines);
    }

    fn perform_raised(&mut self, mask: u32, lines: &[Action; LINES])
        ensures { self.new ≡ fold performed self.old (raised_actions mask 0 lines.now) }
    {
        for (line, action) in lines.iter().enumerate() {
            if (mask >> line) % 2 == 1 {
                self.perform(*action);
            }
        }
    }

    /// The running task, where there is one, becomes ready, and nobody runs.
    fn pause(&mut self)
        ensures paused { self.new ≡ record self.old { states = paused self.old; running = nobody } }
        ensures was_sound { IsKernel self.old }
    {
        if self.running != NOBODY {
            self.states.set(usize::from(self.running), TaskState::Ready);
            self.running = NOBODY;
        }
    }

    fn perform(&mut self, action: Action)
        ensures { self.new ≡ performed self.old action }
    {
        match action {
            Action::Tick => self.tick(),
            Action::Nothing | Action::Activate(_) | Action::Event(..) => self.act(action),
        }
    }
}
