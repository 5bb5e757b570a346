//! The machine: every task of an image and the kernel, moment by moment.

ghost use Rattle.std.specs.Prelude.{◌≡◌, ◌≢◌, ℕ, ◌^◌, ◌<◌, ◌≤◌, ◌==◌, [], ◌∷◌, length, slice_get, option_map, IfOk, IfSome};
ghost use Rattle.tm_task.specs.Exec.{Calls, Faults};
ghost use Rattle.tm_task.specs.RunsOn.{HasStopped};
ghost use Rattle.tm_task.specs.Standing.{begins_epoch};
ghost use Rattle.tm_kernel.specs.State.{IsRunning, nobody, state_number};
ghost use Rattle.tm_image.specs.Image.{ImageView, text_of};
ghost use Rattle.tm_system.specs.History.{History};
ghost use Rattle.tm_system.specs.Run.{arrival, arrives, turned, turns, next_moment, left_by};
ghost use Rattle.tm_system.specs.Controls.{kind_by};
ghost use Rattle.tm_system.specs.Machine.{IsAt, IsMachine, IsQuiet, told_of, arrival_told};
ghost use Rattle.tm_system.specs.Moving.{whole_in, moment_in, next_in, Does, DoesQuietly};
ghost use Rattle.tm_system.specs.Parts.{AreBooted, CanAnswer, IsTaskOrNobody, StepsTask, RunsTask, RepliesTo, marker_in, switched, word_counts};

use std::alloc::{AllocError, Global};
use std::marker::Model;
use tm_image::Image;
use tm_kernel::{Kernel, Need};
use tm_marker::{DataEntry, Kind, Marker, NOBODY, OutputEntry, Switch};
use tm_rv::Code;
use tm_task::{Cause, Stepped, Task};

/// What one moment of a run adds to the lists that the run leaves: the data entry and the output of
/// a call, the task whose checkpoint is taken now, and the control entry. `fault` is the number of
/// the cause of the task's fault, 0 where there is none, and `idle` is true exactly where nobody
/// runs afterwards.
#[derive(Clone, Copy, Debug, PartialEq, Eq)]
pub struct Told {
    pub entry: Option<DataEntry>,
    pub output: Option<OutputEntry>,
    pub checkpoint: Option<u8>,
    pub switch: Option<Switch>,
    pub fault: u8,
    pub idle: bool,
}

impl Told {
    /// An instruction that went on in its epoch.
    const WENT: Told = Told {
        entry: None,
        output: None,
        checkpoint: None,
        switch: None,
        fault: 0,
        idle: false,
    };
}

/// The whole state of a run: every task, and the kernel.
#[derive(Drop)]
pub struct Machine {
    tasks: Vec<Task>,
    kernel: Kernel,
}

impl Model for Machine {
    ghost use Rattle.tm_system.specs.Machine.{MachineView, IsMachine};

    ghost Value = { MachineView };

    ghost view = { λ m. record { tasks = m.tasks.items; kernel = m.kernel } };

    ghost invariant = { λ m. IsMachine (record { tasks = m.tasks.items; kernel = m.kernel }) };
}

impl Machine {
    /// The machine of an image at boot.
    pub fn boot(alloc: Global, image: &Image) -> Result<Self, AllocError>
        ensures boot { IfOk result (λ machine. IsAt image.now machine []) }
        ensures sound { IfOk result (λ machine. IsMachine machine) }
    {
        let kernel = Kernel::new(alloc, image.spec())?;
        let tasks = booted_tasks(alloc, image)?;
        Ok(Machine { tasks, kernel })
    }

    /// The arrival of a slice: its lines come in and its ports are latched, while the run goes on.
    pub fn arrive(&mut self, mask: u32, ports: [u32; 4]) -> Told
        requires { mask < 65536 }
        ensures done { self.old.kernel.ended ≡ 0 → Does self.old (arrival (whole_in self.old) mask ports) result self.new }
        ensures at { (image : ImageView) (h : History) → IsAt image self.old h →
            IsAt image self.new (arrives image mask ports h) }
        ensures told { (image : ImageView) (h : History) → IsAt image self.old h →
            result ≡ arrival_told image mask ports h }
        ensures ended { self.old.kernel.ended ≢ 0 → self.new ≡ self.old }
        ensures spec { self.new.kernel.spec ≡ self.old.kernel.spec }
        ensures sound { IsMachine self.new }
    {
        if self.kernel.ended() != 0 {
            return self.nothing();
        }
        let from = self.kernel.running();
        self.kernel.arrive(mask, ports);
        self.kernel.reschedule();
        Told {
            switch: self.switch(from, None),
            ..self.nothing()
        }
    }

    /// One instruction of the running task, from the image that the machine was booted from.
    #[inline]
    pub fn turn(&mut self, image: &Image) -> Told
        requires runs { self.old.kernel.running ≢ nobody }
        requires image { self.old.kernel.spec ≡ image.now.spec }
        requires epoch { IfSome (slice_get self.old.tasks self.old.kernel.running) (λ task. task.standing.epoch < 2 ^ 53) }
        ensures done { Does self.old (next_in image.now self.old) result self.new }
        ensures at { (h : History) → IsAt image.now self.old h → IsAt image.now self.new (turned image.now h) }
        ensures told { (h : History) → IsAt image.now self.old h →
            result ≡ told_of image.now (next_moment image.now h) h }
        ensures spec { self.new.kernel.spec ≡ self.old.kernel.spec }
        ensures sound { IsMachine self.new }
    {
        let task = self.kernel.running();
        // An image has a text for each task of its kernel's specification.
        let _tasks = image.tasks();
        self.act(task, image.text(task))
    }

    /// Up to `most` instructions of the running task, from the image that the machine was booted
    /// from, and how many: each goes on in its task's epoch, so that it adds to no list, and it stops
    /// before the first that may not.
    #[inline]
    pub fn advance(&mut self, image: &Image, most: u32) -> u32
        requires runs { self.old.kernel.running ≢ nobody }
        requires image { self.old.kernel.spec ≡ image.now.spec }
        requires epoch { IfSome (slice_get self.old.tasks self.old.kernel.running) (λ task. task.standing.epoch < 2 ^ 53) }
        ensures within { result ≤ most }
        ensures done { DoesQuietly image.now result self.old self.new }
        ensures at { (h : History) → IsAt image.now self.old h → IsAt image.now self.new (turns image.now result h) }
        ensures quiet { (h : History) → IsAt image.now self.old h → (i : ℕ) → i < result → IsQuiet image.now (turns image.now i h) }
        ensures stopped { result < most → IfSome (slice_get self.new.tasks self.new.kernel.running) (HasStopped (text_of image.now self.new.kernel.running)) }
        ensures kernel { self.new.kernel ≡ self.old.kernel }
        ensures sound { IsMachine self.new }
    {
        let task = self.kernel.running();
        // An image has a text for each task of its kernel's specification.
        let _tasks = image.tasks();
        self.run_on(task, image.text(task), most)
    }

    /// Makes the machine another of an equal image.
    pub fn copy_from(&mut self, other: &Machine)
        requires spec { self.old.kernel.spec ≡ other.now.kernel.spec }
        requires words { word_counts self.old.tasks ≡ word_counts other.now.tasks }
        ensures copied { self.new ≡ other.now }
        ensures sound { IsMachine self.new }
    {
        copy_tasks(&other.tasks, &mut self.tasks);
        self.kernel.copy_from(&other.kernel);
    }

    /// The task of a number.
    pub fn task(&self, number: u8) -> &Task
        requires { number < length self.now.tasks }
        ensures { slice_get self.now.tasks number ≡ Some result.now }
    {
        &self.tasks[usize::from(number)]
    }

    /// The number of a task's state: 0 suspended, 1 ready, 2 running, 3 waiting.
    pub fn state(&self, number: u8) -> u8
        requires { number < length self.now.tasks }
        ensures { option_map state_number (slice_get self.now.kernel.states number) ≡ Some result }
    {
        self.kernel.state(number)
    }

    /// How many tasks there are, 1 to 16.
    pub fn tasks(&self) -> u8
        ensures number { result ≡ length self.now.tasks }
        ensures few { result ≤ 16 }
    {
        self.tasks.len() as u8
    }

    /// The running task, or [`NOBODY`].
    #[inline]
    pub fn running(&self) -> u8
        ensures task { result ≡ self.now.kernel.running }
        ensures sound { IsMachine self.now }
    {
        self.kernel.running()
    }

    /// 0 while the run goes on, 1 after a fault, 2 after a shutdown.
    pub fn ended(&self) -> u8
        ensures { result ≡ self.now.kernel.ended }
    {
        self.kernel.ended()
    }
}

impl Machine {
    /// One instruction of the running task by its text.
    #[inline]
    fn act(&mut self, task: u8, code: &Code) -> Told
        requires runs { IsRunning self.old.kernel task }
        requires somebody { task ≢ nobody }
        requires there { task < length self.old.tasks }
        requires some { 0 < length code.now.words }
        requires few { length code.now.words ≤ 16384 }
        requires epoch { IfSome (slice_get self.old.tasks task) (λ t. t.standing.epoch < 2 ^ 53) }
        ensures done { (image : ImageView) → code.now ≡ text_of image task → Does self.old (next_in image self.old) result self.new }
        ensures spec { self.new.kernel.spec ≡ self.old.kernel.spec }
        ensures sound { IsMachine self.new }
    {
        match self.step(task, code) {
            Stepped::Ran => Told::WENT,
            Stepped::Forced => Told {
                checkpoint: Some(task),
                ..Told::WENT
            },
            Stepped::Call(service) => self.answer(task, service),
            Stepped::Fault(cause) => self.fail(task, cause),
        }
    }

    /// One instruction of a task by its text.
    #[inline]
    fn step(&mut self, task: u8, code: &Code) -> Stepped
        requires there { task < length self.old.tasks }
        requires some { 0 < length code.now.words }
        requires few { length code.now.words ≤ 16384 }
        requires epoch { IfSome (slice_get self.old.tasks task) (λ t. t.standing.epoch < 2 ^ 53) }
        ensures stepped { StepsTask code.now task self.old result self.new }
        ensures sound { IsMachine self.new }
    {
        self.tasks[usize::from(task)].step(code)
    }

    /// Up to `most` instructions of a task by its text, and how many.
    #[inline]
    fn run_on(&mut self, task: u8, code: &Code, most: u32) -> u32
        requires there { task < length self.old.tasks }
        requires some { 0 < length code.now.words }
        requires few { length code.now.words ≤ 16384 }
        requires epoch { IfSome (slice_get self.old.tasks task) (λ t. t.standing.epoch < 2 ^ 53) }
        ensures within { result ≤ most }
        ensures ran { RunsTask code.now task self.old result self.new }
        ensures stopped { result < most → IfSome (slice_get self.new.tasks task) (HasStopped code.now) }
        ensures sound { IsMachine self.new }
    {
        self.tasks[usize::from(task)].advance(code, most)
    }

    /// Answers the running task's call of a service; a rescheduling follows.
    #[inline(never)]
    fn answer(&mut self, task: u8, service: u8) -> Told
        requires runs { IsRunning self.old.kernel task }
        requires caller { IfSome (slice_get self.old.tasks task) CanAnswer }
        ensures done { Does self.old (moment_in self.old task (Calls service)) result self.new }
        ensures spec { self.new.kernel.spec ≡ self.old.kernel.spec }
        ensures sound { IsMachine self.new }
    {
        let args = self.tasks[usize::from(task)].args();
        let answer = self.kernel.call(task, service, args);
        let begins = self.reply(task, &answer.entry);
        self.kernel.reschedule();
        Told {
            entry: Some(answer.entry),
            output: answer.output,
            checkpoint: begins.then_some(task),
            switch: self.switch(task, left_by(answer.need)),
            ..self.nothing()
        }
    }

    /// Ends the run by a fault of the running task.
    #[cold]
    #[inline(never)]
    fn fail(&mut self, task: u8, cause: Cause) -> Told
        requires runs { IsRunning self.old.kernel task }
        requires somebody { task ≢ nobody }
        ensures done { Does self.old (moment_in self.old task (Faults cause)) result self.new }
        ensures spec { self.new.kernel.spec ≡ self.old.kernel.spec }
        ensures sound { IsMachine self.new }
    {
        self.kernel.stop(true);
        Told {
            switch: self.switch(task, Some(Kind::Fault)),
            fault: cause.number(),
            ..self.nothing()
        }
    }

    /// Gives a task what its call was answered; tells whether that begins an epoch of the task.
    fn reply(&mut self, task: u8, entry: &DataEntry) -> bool
        requires there { task < length self.old.tasks }
        requires caller { IfSome (slice_get self.old.tasks task) CanAnswer }
        ensures replied { RepliesTo task entry.now self.old self.new }
        ensures begins { result ≡ begins_epoch entry.now }
        ensures sound { IsMachine self.new }
    {
        let task = &mut self.tasks[usize::from(task)];
        let before = task.marker().epoch;
        task.answer(entry);
        task.marker().epoch != before
    }

    /// The control entry of a moment that is done: `from` ran before it, and `leaves` says why that
    /// task left the processor by itself, where it did.
    fn switch(&self, from: u8, leaves: Option<Kind>) -> Option<Switch>
        requires { IsTaskOrNobody (length self.now.tasks) from }
        ensures { result ≡ switched self.now from leaves }
    {
        let to = self.kernel.running();
        if leaves.is_none() && from == to {
            return None;
        }
        Some(Switch {
            from,
            kind: kind_by(from, leaves),
            from_at: self.marker(from),
            to,
            to_at: self.marker(to),
        })
    }

    /// The marker of a task; nobody has the zero marker.
    fn marker(&self, task: u8) -> Marker
        requires { IsTaskOrNobody (length self.now.tasks) task }
        ensures { result ≡ marker_in self.now task }
    {
        if task == NOBODY {
            Marker::ZERO
        } else {
            self.tasks[usize::from(task)].marker()
        }
    }

    /// What is told of a moment that adds to no list.
    fn nothing(&self) -> Told
        ensures { result ≡ record {
          entry = None;
          output = None;
          checkpoint = None;
          switch = None;
          fault = 0;
          idle = (self.now.kernel.running == nobody);
        } }
    {
        Told {
            idle: self.kernel.running() == NOBODY,
            ..Told::WENT
        }
    }
}

/// Every task of the image at boot.
fn booted_tasks(alloc: Global, image: &Image) -> Result<Vec<Task>, AllocError>
    ensures { IfOk result (λ tasks. AreBooted image.now tasks.items) }
{
    let mut tasks = Vec::new(alloc);
    for task in 0..image.tasks() {
        let number = task as u8;
        tasks.push(Task::new(alloc, image.entry(number), image.words(number))?)?;
    }
    Ok(tasks)
}

/// Makes every task the other one of its number.
fn copy_tasks(from: &[Task], into: &mut [Task])
    requires { word_counts into.old ≡ word_counts from.now }
    ensures { into.new ≡ from.now }
{
    for number in 0..from.len() {
        let task = &mut into[number];
        task.copy_from(&from[number]);
    }
}

/// Why control goes on: nobody ran, the task left by itself, or it was preempted.
fn kind_by(from: u8, leaves: Option<Kind>) -> Kind
    ensures { result ≡ kind_by from leaves }
{
    if from == NOBODY {
        Kind::Idle
    } else {
        leaves.unwrap_or(Kind::Preempted)
    }
}

/// Why the caller of a service leaves the processor by itself, where it does.
fn left_by(need: Need) -> Option<Kind>
    ensures { result ≡ left_by need }
{
    match need {
        Need::Goes => None,
        Need::Leaves(kind) => Some(kind),
    }
}
