//! Where the threads of a call tell what they are about to do.

/// Told by each thread before what it does, so that a caller can hold one thread until another has come as far.
/// Its calls return, and change nothing that contracts see.
pub trait Gate: Sync {
    /// A worker is about to replay the task of this number, or a device of this number to raise, store or look.
    fn at(&self, place: u8);

    /// So many slices are done, and the lines for the next are about to be taken.
    fn slice(&self, done: u64);
}

/// A gate that holds nobody.
#[derive(Clone, Copy, Debug, PartialEq, Eq)]
pub struct Open;

impl Gate for Open {
    fn at(&self, _place: u8) {}

    fn slice(&self, _done: u64) {}
}
