//! What a recorder's buffers tell of its live machine. [`recorders_replay_to_live`] does nothing: its clauses
//! are the laws.
#![tactic(auto)]

mod recorders;

pub use recorders::recorders_replay_to_live;
