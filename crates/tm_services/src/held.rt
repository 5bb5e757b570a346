//! A short list of resources, the one got first first.

ghost use Rattle.std.specs.Prelude.{◌≡◌, ◌≤◌, ◌<◌, ◌+◌, ◌-◌, ◌==◌, ◌++◌, ◌∷◌, [], length, take};

/// The resources that one task holds, at most 16.
#[derive(Clone, Copy, Debug, PartialEq, Eq)]
pub struct Held {
    resources: [u8; 16],
    number: u8,
    ghost few: { number ≤ 16 },
}

impl Held {
    ghost use Rattle.tm_services.specs.Ceilings.{is_last};
    ghost use Rattle.tm_services.specs.Held.{resources_of};

    pub const NOTHING: Held = Held {
        resources: [0; 16],
        number: 0,
    };

    pub fn as_slice(&self) -> &[u8]
        ensures { result.now ≡ resources_of self.now }
    {
        &self.resources[..usize::from(self.number)]
    }

    pub fn is_empty(&self) -> bool
        ensures { result ≡ (length (resources_of self.now) == 0) }
    {
        self.number == 0
    }

    /// Whether the resource is the last of the list.
    pub fn ends_with(&self, resource: u8) -> bool
        ensures { result ≡ is_last resource (resources_of self.now) }
    {
        self.number > 0 && self.resources[usize::from(self.number) - 1] == resource
    }

    pub fn push(&mut self, resource: u8)
        requires { length (resources_of self.old) < 16 }
        ensures { resources_of self.new ≡ resources_of self.old ++ resource ∷ [] }
    {
        self.resources[usize::from(self.number)] = resource;
        self.number += 1;
    }

    pub fn pop(&mut self)
        requires { 0 < length (resources_of self.old) }
        ensures { resources_of self.new ≡ take (length (resources_of self.old) - 1) (resources_of self.old) }
    {
        self.number -= 1;
    }
}
