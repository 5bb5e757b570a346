//! The edge of the program: where named files are got and put, and where text is written.
//!
//! [`Shelf`] and [`Sink`] say what the program asks of that edge. [`MemShelf`] and [`MemSink`] keep
//! all in memory, for tests and for callers that want the bytes, and fail the calls that they are
//! told to fail. [`FileShelf`] and [`OutSink`] stand over files and standard output. A [`Gate`] is told what
//! the threads of a call are about to do.
#![tactic(auto)]

mod counts;
mod file_shelf;
mod gate;
mod mem_shelf;
mod mem_sink;
mod named_room;
mod named_rooms;
mod out_sink;
mod refill;
mod shelf;
mod sink;
mod whole_file;

pub use file_shelf::FileShelf;
pub use gate::{Gate, Open};
pub use mem_shelf::MemShelf;
pub use mem_sink::MemSink;
pub use out_sink::OutSink;
pub use shelf::{GetFault, PutFault, Shelf};
pub use sink::{Failed, Sink};

/// Want of memory.
pub type Memory = std::alloc::AllocError;
