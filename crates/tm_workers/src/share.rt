//! Which tasks how many workers replay.

ghost use Rattle.std.specs.Prelude.{◌≤◌, IfSome};
ghost use Rattle.tm_workers.specs.Shares.{AreHalves};

/// The tasks from the number `start` on and below `end`, and how many workers replay them.
#[derive(Clone, Copy)]
pub struct Share {
    pub start: u8,
    pub end: u8,
    pub workers: u8,
}

impl Share {
    /// Half of the tasks for half of the workers, and the others; none where one worker or one task is left.
    pub fn halves(&self) -> Option<(Share, Share)>
        requires { self.now.start ≤ self.now.end }
        ensures { IfSome result (AreHalves self.now) }
    {
        let Share {
            start,
            end,
            workers,
        } = *self;
        let tasks = end - start;
        if workers < 2 || tasks < 2 {
            return None;
        }
        let middle = start + tasks / 2;
        let few = workers / 2;
        let low = Share {
            start,
            end: middle,
            workers: few,
        };
        let high = Share {
            start: middle,
            end,
            workers: workers - few,
        };
        Some((low, high))
    }
}
