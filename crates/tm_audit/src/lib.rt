//! The text of an audit: how many slices were run, and what became of the raises of each line.
//!
//! [`write_audit`] appends `slices N`, and for each line that was raised, rising,
//! `line L raised A joined B taken C pending D`.
#![tactic(auto)]

mod examples;
mod text;

pub use examples::{audit_examples, room_is};
pub use text::{AUDIT_ROOM, write_audit};
