//! The claims of the tasks to the processor, and the greatest of them.

ghost use Rattle.std.specs.Prelude.{◌≡◌, ◌≤◌, ◌<◌, length, nat_lt, ◌==◌, ◌&&◌, ◌||◌, not};
ghost use Rattle.tm_kernel.specs.Schedule.{claim, claims_from, pick_of};

use super::TaskState;
use tm_marker::NOBODY;
use tm_services::Ceilings;

/// What a task can claim: its current priority, 0 where it can't run, and whether it holds a resource.
#[derive(Clone, Copy, Debug, PartialEq, Eq)]
pub struct Claim {
    pub priority: u8,
    pub holder: bool,
}

impl Claim {
    /// Greater than the claim of each task that can't run, and than no other.
    const NONE: Claim = Claim {
        priority: 0,
        holder: true,
    };

    /// Whether the claim goes before another that was made earlier.
    fn beats(self, other: Claim) -> bool
        ensures { result ≡ (nat_lt other.priority self.priority || (self.priority == other.priority && self.holder && not other.holder)) }
    {
        self.priority > other.priority
            || self.priority == other.priority && self.holder && !other.holder
    }
}

/// The task of the greatest claim above 0, the first where several are equal, or [`NOBODY`].
pub(super) fn first_greatest(ceilings: &Ceilings, states: &[TaskState]) -> u8
    requires { length states.now ≤ 16 }
    ensures { result ≡ pick_of (claims_from ceilings.now 0 states.now) }
{
    let mut best = Claim::NONE;
    let mut picked = NOBODY;
    for (task, state) in states.iter().enumerate() {
        let here = claim_of(ceilings, task as u8, *state);
        if here.beats(best) {
            best = here;
            picked = task as u8;
        }
    }
    picked
}

fn claim_of(ceilings: &Ceilings, task: u8, state: TaskState) -> Claim
    requires { task < 16 }
    ensures { result ≡ claim ceilings.now task state }
{
    let holder = ceilings.holds(task);
    match state {
        TaskState::Ready | TaskState::Running => Claim {
            priority: ceilings.current(task),
            holder,
        },
        TaskState::Suspended | TaskState::Waiting => Claim {
            priority: 0,
            holder,
        },
    }
}
