//! The versions that the observers of a run end with.

ghost use Rattle.std.specs.Prelude.{◌≡◌, ℕ, ◌<◌, ◌^◌, length, All, IfOk, OnOk};
ghost use Rattle.std.specs.List.{AllZip};
ghost use Rattle.tm_observe.specs.Lookers.{IsShown, IsVersion, AllTold};
ghost use Rattle.tm_observe.specs.Versions.{AreVersions};

use crate::looker::Looker;
use std::alloc::{AllocError, Global};
use std::sync::Wait;
use tm_image::Image;
use tm_live::Tape;
use tm_watch::Watch;

/// What observers saw of a run.
#[derive(Drop)]
pub struct Versions {
    /// The last look of each observer beside the run, by the observer's number: the dump of a beginning of the tape.
    pub beside: Vec<Vec<u8>>,
    /// A look after the run: the dump of the whole tape.
    pub last: Vec<u8>,
}

/// The versions of observers that looked beside a run. Each observer learns the watch's last note, and the first looks
/// once more. The lookers give away their bytes.
///
/// # Errors
///
/// There is too little memory, or a look beside the run found too little.
pub fn versions_of<R: Wait>(
    rt: &R,
    alloc: Global,
    watch: &Watch,
    image: &Image,
    lookers: &mut [Looker],
    tape: &Tape,
) -> Result<Versions, AllocError>
    requires image { watch.now.image ≡ image.now }
    requires list { watch.now.list ≡ tape.now.slices }
    requires few { length tape.now.slices < 2 ^ 32 }
    requires some { 0 < length lookers.old }
    requires shown { All (IsShown watch.now) lookers.old }
    ensures versions { IfOk result (AreVersions image.now tape.now.slices (length lookers.old)) }
    ensures each { IfOk result (λ v. AllZip (λ looker bytes. IsVersion image.now tape.now.slices looker bytes.items) lookers.old v.beside.items) }
{
    let beside = settle_all(alloc, watch, image, lookers, tape)?;
    let last = lookers[0].last_look(rt, alloc, image, tape)?;
    Ok(Versions { beside, last })
}

/// Each observer learns the watch's last note, and gives away the bytes of its last look.
fn settle_all(
    alloc: Global,
    watch: &Watch,
    image: &Image,
    lookers: &mut [Looker],
    tape: &Tape,
) -> Result<Vec<Vec<u8>>, AllocError>
    requires image { watch.now.image ≡ image.now }
    requires list { watch.now.list ≡ tape.now.slices }
    requires few { length tape.now.slices < 2 ^ 32 }
    requires shown { All (IsShown watch.now) lookers.old }
    ensures versions { IfOk result (λ beside. AllZip (λ looker bytes. IsVersion image.now tape.now.slices looker bytes.items) lookers.old beside.items) }
    ensures told { OnOk result (AllTold watch.now.list lookers.old lookers.new) }
{
    let mut beside = Vec::with_capacity(alloc, lookers.len())?;
    for looker in lookers.iter_mut() {
        let bytes = looker.settle(alloc, watch.tell(), image, tape)?;
        beside.push(bytes)?;
    }
    Ok(beside)
}
