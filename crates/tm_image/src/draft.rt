//! An image as far as its lines have been read.

ghost use Rattle.std.specs.Prelude.{◌≡◌, ◌<◌, ◌≤◌, All, false, length, map, slice_get, slice_set, unwrap_or, IfOk};
ghost use Rattle.std.specs.List.{list_any};
ghost use Rattle.tm_lines.specs.Steps.{Answers};
ghost use Rattle.tm_image.specs.Load.{has_no_text, is_outside};
ghost use Rattle.tm_image.specs.Draft.{Draft, empty_draft, is_taken, is_off_range, is_no_task, has_twice, mask_of, task_of, action_of, names_no_task, line_action_of, is_given, caps_of, new_task, new_text, new_data_words, new_resource, new_alarm, new_box, new_line, new_ring, whole};

use crate::load::{Loaded, add_text, set_data};
use crate::rings::Rings;
use crate::said::{
    AlarmLine, BoxLine, DataLine, Keyword, LineAction, LineLine, ResourceLine, RingLine,
    TaskAction, TaskLine, TextLine, alarm_said, box_said, data_said, keyword_said, line_said,
    resource_said, ring_said, task_said, text_said,
};
use std::alloc::{AllocError, Global};
use std::marker::Model;
use tm_kernel::{
    Action, KernelSpec, MOST_ALARMS, MOST_BOXES, MOST_MESSAGES, MOST_RESOURCES, TaskSpec,
};
use tm_lines::{Format, Reason};
use tm_marker::{Caps, Items, LINES, MOST_TASKS, MOST_WORDS};
use tm_rv::Set;

/// What the lines so far say.
#[derive(Debug, Drop)]
pub(crate) struct Reading {
    set: Set,
    spec: KernelSpec,
    loads: Vec<Loaded>,
    rings: Rings,
}

impl Model for Reading {
    ghost use Rattle.std.specs.Prelude.{◌≤◌, length};
    ghost use Rattle.tm_marker.specs.declared.shape.TheConstants.{MOST_TASKS};
    ghost use Rattle.tm_image.specs.Draft.{Draft};

    ghost Value = { Draft };

    ghost view = { λ r. record { set = r.set; spec = r.spec; loads = r.loads.items; rings = r.rings } };

    ghost invariant = { λ r. length r.spec.tasks ≤ MOST_TASKS };
}

/// Whether a line `task` has a number outside its range.
fn is_off_range(line: &TaskLine) -> bool
    ensures { result ≡ is_off_range line.now }
{
    !(1..=255).contains(&line.priority)
        || line.entry % 4 != 0
        || !(1..=MOST_WORDS).contains(&line.words)
}

/// Whether some number stands twice in the list.
fn has_twice(numbers: &[u32]) -> bool
    ensures { result ≡ has_twice numbers.now }
{
    let mut left = numbers;
    while let [number, rest @ ..] = left {
        if rest.contains(number) {
            return true;
        }
        left = rest;
    }
    false
}

/// The mask in which the bits of the users are set.
fn mask_of(users: &[u32]) -> u16
    requires { All (λ user. user < 16) users.now }
    ensures { result ≡ mask_of users.now }
{
    let mut mask: u16 = 0;
    for user in users {
        mask |= 1 << *user;
    }
    mask
}

/// The task that an action names.
fn task_of(action: TaskAction) -> u32
    ensures { result ≡ task_of action }
{
    match action {
        TaskAction::Activate(task) | TaskAction::Event(task, _) => task,
    }
}

/// What the kernel is to do to a task that there is.
fn action_of(action: TaskAction) -> Action
    requires { task_of action < 16 }
    ensures { result ≡ action_of action }
{
    match action {
        TaskAction::Activate(task) => Action::Activate(task as u8),
        TaskAction::Event(task, mask) => Action::Event(task as u8, mask),
    }
}

/// Whether a line was given this action.
fn is_given(action: Action) -> bool
    ensures { result ≡ is_given action }
{
    !matches!(action, Action::Nothing)
}

/// A copy of what a kernel is made of.
fn copy_of_spec(alloc: Global, spec: &KernelSpec) -> Result<KernelSpec, AllocError>
    ensures { IfOk result (λ copy. copy ≡ spec.now) }
{
    Ok(KernelSpec {
        tasks: Items::from(Vec::from_slice(alloc, spec.tasks.as_slice())?),
        users: Items::from(Vec::from_slice(alloc, spec.users.as_slice())?),
        alarms: Items::from(Vec::from_slice(alloc, spec.alarms.as_slice())?),
        boxes: Items::from(Vec::from_slice(alloc, spec.boxes.as_slice())?),
        lines: spec.lines,
    })
}

/// A copy of what some tasks are loaded from.
fn copy_of_loads(alloc: Global, loads: &[Loaded]) -> Result<Vec<Loaded>, AllocError>
    ensures { IfOk result (λ copy. copy.items ≡ loads.now) }
{
    let mut copy = Vec::new(alloc);
    for load in loads {
        let one = load.copy(alloc)?;
        copy.push(one)?;
    }
    Ok(copy)
}

impl Reading {
    /// No line has been read.
    pub(crate) fn new(alloc: Global, set: Set) -> Self
        ensures { result ≡ empty_draft set }
    {
        Reading {
            set,
            spec: KernelSpec {
                tasks: Items::new(alloc),
                users: Items::new(alloc),
                alarms: Items::new(alloc),
                boxes: Items::new(alloc),
                lines: [Action::Nothing; LINES],
            },
            loads: Vec::new(alloc),
            rings: Rings::NONE,
        }
    }

    /// A copy.
    pub(crate) fn copy(&self, alloc: Global) -> Result<Self, AllocError>
        ensures { IfOk result (λ copy. copy ≡ self.now) }
    {
        Ok(Reading {
            set: self.set,
            spec: copy_of_spec(alloc, &self.spec)?,
            loads: copy_of_loads(alloc, self.loads.as_slice())?,
            rings: self.rings,
        })
    }

    /// Loads a task that there is from something else.
    pub(crate) fn set_load(&mut self, task: usize, load: Loaded)
        requires { task < length self.old.loads }
        ensures { self.new ≡ record self.old { loads = slice_set self.old.loads task load } }
    {
        self.loads[task] = load;
    }

    /// The set of instructions.
    pub(crate) fn set(&self) -> Set
        ensures { result ≡ self.now.set }
    {
        self.set
    }

    /// What the kernel is made of.
    pub(crate) fn spec(&self) -> &KernelSpec
        ensures { result.now ≡ self.now.spec }
    {
        &self.spec
    }

    /// What each task is loaded from.
    pub(crate) fn loads(&self) -> &[Loaded]
        ensures { result.now ≡ self.now.loads }
    {
        self.loads.as_slice()
    }

    /// The capacities.
    pub(crate) fn caps(&self) -> Caps
        ensures { result ≡ caps_of self.now.rings }
    {
        self.rings.caps()
    }

    /// How many data words each task has.
    pub(crate) fn word_counts(&self, alloc: Global) -> Result<Items<u32>, AllocError>
        ensures { IfOk result (λ counts. counts ≡ map (λ load. length load.words) self.now.loads) }
    {
        let mut counts = Items::new(alloc);
        for load in &self.loads {
            counts.push(load.words().len() as u32)?;
        }
        Ok(counts)
    }

    /// Whether some task has this priority.
    fn is_taken(&self, priority: u32) -> bool
        ensures { result ≡ is_taken priority self.now.spec.tasks }
    {
        let tasks = self.spec.tasks.as_slice();
        tasks
            .iter()
            .any(|task| u32::from(task.priority) == priority)
    }

    /// Whether there is no task of this number.
    fn is_no_task(&self, task: u32) -> bool
        ensures { result ≡ is_no_task self.now.spec.tasks task }
    {
        task as usize >= self.spec.tasks.len()
    }

    /// Whether for one of the numbers there is no task.
    fn is_some_no_task(&self, tasks: &[u32]) -> bool
        ensures { result ≡ list_any (is_no_task self.now.spec.tasks) tasks.now }
    {
        tasks.iter().any(|task| self.is_no_task(*task))
    }

    fn add_task(&mut self, alloc: Global, line: &TaskLine) -> Result<(), Reason>
        ensures { Answers (λ _. self.new) result (new_task self.old line.now) }
    {
        let number = line.number as usize;
        if number > self.spec.tasks.len() || is_off_range(line) {
            return Err(Reason::Range);
        }
        if number < self.spec.tasks.len() || self.is_taken(line.priority) {
            return Err(Reason::Repeated);
        }
        if line.number == MOST_TASKS {
            return Err(Reason::Limit);
        }
        let load = Loaded::new(alloc, line.entry, self.set, line.words)?;
        self.loads.push(load)?;
        self.spec.tasks.push(TaskSpec {
            extended: line.extended,
            priority: line.priority as u8,
            auto: line.auto,
        })?;
        Ok(())
    }

    fn add_text(&mut self, line: &TextLine) -> Result<(), Reason>
        ensures { Answers (λ _. self.new) result (new_text self.old line.now) }
    {
        add_text(&mut self.loads, line)
    }

    fn set_data(&mut self, line: &DataLine) -> Result<(), Reason>
        ensures { Answers (λ _. self.new) result (new_data_words self.old line.now) }
    {
        set_data(&mut self.loads, line)
    }

    fn add_resource(&mut self, line: &ResourceLine) -> Result<(), Reason>
        ensures { Answers (λ _. self.new) result (new_resource self.old line.now) }
    {
        let number = line.number as usize;
        let users = line.users.as_slice();
        if number > self.spec.users.len() || self.is_some_no_task(users) {
            return Err(Reason::Range);
        }
        if number < self.spec.users.len() || has_twice(users) {
            return Err(Reason::Repeated);
        }
        if line.number == MOST_RESOURCES {
            return Err(Reason::Limit);
        }
        self.spec.users.push(mask_of(users))?;
        Ok(())
    }

    fn add_alarm(&mut self, line: &AlarmLine) -> Result<(), Reason>
        ensures { Answers (λ _. self.new) result (new_alarm self.old line.now) }
    {
        let number = line.number as usize;
        if number > self.spec.alarms.len() || self.is_no_task(task_of(line.action)) {
            return Err(Reason::Range);
        }
        if number < self.spec.alarms.len() {
            return Err(Reason::Repeated);
        }
        if line.number == MOST_ALARMS {
            return Err(Reason::Limit);
        }
        self.spec.alarms.push(action_of(line.action))?;
        Ok(())
    }

    fn add_box(&mut self, line: &BoxLine) -> Result<(), Reason>
        ensures { Answers (λ _. self.new) result (new_box self.old line.now) }
    {
        let number = line.number as usize;
        if number > self.spec.boxes.len() || !(1..=MOST_MESSAGES).contains(&line.capacity) {
            return Err(Reason::Range);
        }
        if number < self.spec.boxes.len() {
            return Err(Reason::Repeated);
        }
        if line.number == MOST_BOXES {
            return Err(Reason::Limit);
        }
        self.spec.boxes.push(line.capacity as u8)?;
        Ok(())
    }

    /// Whether the action of a line names a task that there is not. There are at most 16.
    fn names_no_task(&self, action: LineAction) -> bool
        ensures value { result ≡ names_no_task self.now.spec.tasks action }
        ensures few { length self.now.spec.tasks ≤ 16 }
    {
        let tasks = self.spec.tasks.len();
        match action {
            LineAction::Tick => false,
            LineAction::OfTask(action) => task_of(action) as usize >= tasks,
        }
    }

    /// What the kernel is to do when a line comes, as far as it was told.
    fn line_at(&self, number: usize) -> Action
        requires { number < 16 }
        ensures { result ≡ unwrap_or (slice_get self.now.spec.lines number) Action.Nothing }
    {
        self.spec.lines[number]
    }

    /// What the kernel is to do when a line comes, whose task is there.
    fn line_action_of(&self, action: LineAction) -> Action
        requires few { length self.now.spec.tasks ≤ 16 }
        requires there { names_no_task self.now.spec.tasks action ≡ false }
        ensures { result ≡ line_action_of action }
    {
        match action {
            LineAction::Tick => Action::Tick,
            LineAction::OfTask(action) => action_of(action),
        }
    }

    fn add_line(&mut self, line: &LineLine) -> Result<(), Reason>
        ensures { Answers (λ _. self.new) result (new_line self.old line.now) }
    {
        let number = line.number as usize;
        if number >= self.spec.lines.len() || self.names_no_task(line.action) {
            return Err(Reason::Range);
        }
        if is_given(self.line_at(number)) {
            return Err(Reason::Repeated);
        }
        self.spec.lines[number] = self.line_action_of(line.action);
        Ok(())
    }

    fn add_ring(&mut self, line: &RingLine) -> Result<(), Reason>
        ensures { Answers (λ _. self.new) result (new_ring self.old line.now) }
    {
        if line.capacity == 0 || line.capacity > line.ring.most() {
            return Err(Reason::Range);
        }
        if self.rings.is_given(line.ring) {
            return Err(Reason::Repeated);
        }
        self.rings.give(line.ring, line.capacity);
        Ok(())
    }

    /// Whether some task has no text.
    fn wants_text(&self) -> bool
        ensures { result ≡ list_any has_no_text self.now.loads }
    {
        self.loads.iter().any(|load| load.has_no_text())
    }

    /// Whether some entry is outside its text.
    fn is_outside(&self) -> bool
        ensures { result ≡ list_any is_outside self.now.loads }
    {
        self.loads.iter().any(|load| load.is_outside())
    }

    /// What the end of the file is refused for.
    pub(crate) fn end(&self) -> Result<(), Reason>
        ensures { Answers (λ _. self.now) result (whole self.now) }
    {
        if self.loads.is_empty() || self.wants_text() {
            return Err(Reason::Missing);
        }
        if self.is_outside() {
            return Err(Reason::Range);
        }
        Ok(())
    }
}

impl Format for Reading {
    ghost use Rattle.tm_image.specs.Draft.{image_line};

    ghost next = { image_line };

    fn most_tokens() -> Option<usize> {
        None
    }

    fn take(&mut self, alloc: Global, tokens: &[&[u8]]) -> Result<(), Reason> {
        let [keyword, words @ ..] = tokens else {
            return Err(Reason::Form);
        };
        match keyword_said(keyword)? {
            Keyword::Task => self.add_task(alloc, &task_said(words)?),
            Keyword::Text => self.add_text(&text_said(alloc, words)?),
            Keyword::Data => self.set_data(&data_said(alloc, words)?),
            Keyword::Resource => self.add_resource(&resource_said(alloc, words)?),
            Keyword::Alarm => self.add_alarm(&alarm_said(words)?),
            Keyword::Box => self.add_box(&box_said(words)?),
            Keyword::Line => self.add_line(&line_said(words)?),
            Keyword::Ring => self.add_ring(&ring_said(words)?),
        }
    }
}
