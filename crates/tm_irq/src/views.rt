//! What a seat knows: the lists of what was done at it. They stand in proofs alone, and no value of
//! these types is ever made.
use std::collections::LinkedList;

/// A raise of a line: whether its bit was found set, and the number of takes that was found.
pub struct Raise {
    pub line: u8,
    pub joined: bool,
    pub number: u64,
}

/// A store of a value in a port.
pub struct Store {
    pub port: u8,
    pub value: u32,
}

/// A look at the lines: the mask that was found, with the number of takes, and what the device had raised
/// before.
pub struct Glance {
    pub mask: u32,
    pub number: u64,
    pub before: LinkedList<Raise>,
}

/// What one device did, in order.
pub struct Deeds {
    pub device: u8,
    pub raises: LinkedList<Raise>,
    pub stores: LinkedList<Store>,
    pub glances: LinkedList<Glance>,
}

/// What a seat knows. The kernel's seat knows the number of devices, its takes and latches, the words
/// of the latch that it makes, and the deeds of the devices that are home with it. A device's seat
/// knows its own deeds.
pub struct View {
    pub kernel: bool,
    pub devices: u8,
    pub takes: LinkedList<u32>,
    pub latches: LinkedList<LinkedList<u32>>,
    pub latching: LinkedList<u32>,
    pub deeds: LinkedList<Deeds>,
}
