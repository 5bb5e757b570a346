//! The dump of a whole run: what a recorder keeps of a script, as bytes.
#![tactic(auto)]

mod run;

pub use run::run_dump;
