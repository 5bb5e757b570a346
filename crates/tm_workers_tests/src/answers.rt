//! That several workers answer as one.

use crate::runs::{open, play, told, told_by};
use std::test::Fail;
use tm_io::Open;
use tm_make::CELL;
use tm_points::points;

/// How many slices of the large run there are, and how many instructions each has.
const SLICES: u32 = 20_000;

const LENGTH: u32 = 500;

#[test]
fn one_and_eight_workers_tell_what_a_plain_replay_does(rt: HostRuntime) -> Result<(), Fail> {
    let alloc = rt.alloc();
    let mut recorder = open(&rt, alloc, CELL)?;
    for number in 0..SLICES {
        play(&rt, &mut recorder, LENGTH, 1, number);
    }
    let points = points(&rt, alloc, recorder.window())?;
    let least = points.as_slice().first().copied().expect(&rt, "a point");
    let plain = told(&rt, alloc, &recorder, least)?;
    for workers in [1, 8] {
        let shared = told_by(&rt, alloc, &recorder, least, workers, &Open)?;
        assert!(rt; shared == plain, "by {workers}");
    }
    Ok(())
}
