//! The capacities that an image gives to the rings of a recorder.

ghost use Rattle.std.specs.Prelude.{◌≡◌, is_some};
ghost use Rattle.tm_image.specs.Draft.{most_of, ring_of, with_ring, caps_of};

use tm_marker::{Caps, MOST_CHECKPOINTS, MOST_ITEMS};

/// The rings that a line `ring` can name.
#[derive(Clone, Copy, Debug, PartialEq, Eq)]
pub(crate) enum RingName {
    Control,
    Data,
    Outputs,
    Checks,
}

impl RingName {
    /// How many items the ring may keep at most.
    pub(crate) fn most(self) -> u32
        ensures { result ≡ most_of self }
    {
        match self {
            RingName::Control | RingName::Data | RingName::Outputs => MOST_ITEMS,
            RingName::Checks => MOST_CHECKPOINTS,
        }
    }
}

/// The capacities that were given.
#[derive(Clone, Copy, Debug, PartialEq, Eq)]
pub(crate) struct Rings {
    pub control: Option<u32>,
    pub logs: Option<u32>,
    pub outputs: Option<u32>,
    pub checks: Option<u32>,
}

impl Rings {
    /// No capacity was given.
    pub(crate) const NONE: Rings = Rings {
        control: None,
        logs: None,
        outputs: None,
        checks: None,
    };

    /// Whether a ring was given its capacity.
    pub(crate) fn is_given(&self, ring: RingName) -> bool
        ensures { result ≡ is_some (ring_of self.now ring) }
    {
        match ring {
            RingName::Control => self.control.is_some(),
            RingName::Data => self.logs.is_some(),
            RingName::Outputs => self.outputs.is_some(),
            RingName::Checks => self.checks.is_some(),
        }
    }

    /// Gives a ring its capacity.
    pub(crate) fn give(&mut self, ring: RingName, capacity: u32)
        ensures { self.new ≡ with_ring self.old ring capacity }
    {
        match ring {
            RingName::Control => self.control = Some(capacity),
            RingName::Data => self.logs = Some(capacity),
            RingName::Outputs => self.outputs = Some(capacity),
            RingName::Checks => self.checks = Some(capacity),
        }
    }

    /// The capacities: those that were given, else the default ones.
    pub(crate) fn caps(&self) -> Caps
        ensures { result ≡ caps_of self.now }
    {
        Caps {
            control: self.control.unwrap_or(Caps::DEFAULT.control),
            logs: self.logs.unwrap_or(Caps::DEFAULT.logs),
            outputs: self.outputs.unwrap_or(Caps::DEFAULT.outputs),
            checks: self.checks.unwrap_or(Caps::DEFAULT.checks),
        }
    }
}
