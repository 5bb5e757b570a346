//! The tests that cross crates: whole texts, dumps and refusals of the call `tm`, over a shelf and a
//! sink in memory, and the summaries of large runs. Expected texts were worked by hand from the tables of
//! instructions and services.
#![tactic(auto)]

#[cfg(test)]
mod calls;
#[cfg(test)]
mod dumps;
#[cfg(test)]
mod faults;
#[cfg(test)]
mod large_runs;
#[cfg(test)]
mod live;
#[cfg(test)]
mod load;
#[cfg(test)]
mod statuses;
#[cfg(test)]
mod texts;
#[cfg(test)]
mod watch;
#[cfg(test)]
mod workers;
