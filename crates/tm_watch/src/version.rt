//! A version of what a watch has published, and the operations that lead from one to the next.

ghost use Rattle.std.specs.Prelude.{◌≡◌};
ghost use Rattle.tm_watch.specs.declared.version.Operation.TheVariants.{Adds};
ghost use Rattle.tm_watch.specs.Versions.{after};

use crate::entry::Entry;
use crate::history::Front;
use crate::run::Run;
use left_right::Absorb;
use std::alloc::AllocError;

/// The run of the slices of a list, and the list.
#[derive(Drop)]
pub(crate) struct Version {
    pub(crate) run: Run,
    pub(crate) front: Front,
}

/// What leads to the next version.
#[derive(Drop)]
pub(crate) enum Operation {
    /// The version stays as it is.
    Nothing,
    /// A slice is added.
    Adds(Entry),
}

impl Version {
    /// Adds a slice. A run that has all slices that a recorder can take stays as it is.
    fn add(&mut self, entry: &Entry)
        ensures { self.new ≡ after self.old (Adds entry.now) }
    {
        if self.run.slices() < u64::from(u32::MAX) {
            self.run.slice(&entry.slice);
            self.front = entry.front.again();
        }
    }
}

impl Absorb<Operation> for Version {
    ghost use Rattle.tm_watch.specs.Versions.{after};

    type State = Version;

    ghost state = { λ version. version };

    ghost applied = { after };

    ghost never_fails = { Unit {0} };

    fn absorb_first(&mut self, operation: &Operation, _other: &Version) -> Result<(), AllocError> {
        if let Operation::Adds(entry) = operation {
            self.add(entry);
        }
        Ok(())
    }
}
