//! What no clause says: that a look comes back with what was published last, also to an observer that was told nothing,
//! and that a watch and its observers run in threads of their own.

ghost use Rattle.std.specs.Prelude.{◌≡◌, ◌≤◌, length};
ghost use Rattle.std.specs.Thread.{IsSync};

use crate::{Observer, Watch};
use std::alloc::Global;
use std::process::Abort;
use std::sync::Wait;
use std::sync::atomic::{AtomicU64, Ordering};
use std::test::Fail;
use std::thread;
use std::thread::{Threads, for_each_mut, join_mut};
use tm_image::{Image, read_image};
use tm_marker::Slice;

/// A task that terminates at once.
const ENDS: &[u8] = b"tmi 1\ntask 0 basic 1 auto 0 1\ntext 0 00200893 00000073\n";

/// The digest that closes the image's dump after two slices.
const CLOSING: [u8; 32] = [
    0xb0, 0x86, 0x2f, 0x7d, 0xfb, 0x16, 0xb4, 0x06, 0x5e, 0xf1, 0x39, 0x03, 0x20, 0xf1, 0xbc, 0x6a,
    0x46, 0x04, 0xbd, 0x37, 0x6f, 0x1f, 0xaa, 0x09, 0x5e, 0x06, 0xaa, 0xeb, 0x7b, 0x5d, 0xee, 0xfc,
];

const QUIET: Slice = Slice {
    length: 2,
    mask: 0,
    ports: [0; 4],
};

/// How many slices are published beside the observers.
const MANY: u64 = 50;

fn ends(rt: &impl Abort, alloc: Global) -> Image {
    assert!(rt; ENDS.len() < 1 << 20);
    read_image(alloc, ENDS).expect(rt, "the image is read")
}

fn publish<R: Wait + Abort>(rt: &R, watch: &mut Watch) -> Result<(), Fail>
    ensures { watch.new.book ≡ watch.old.book }
{
    assert!(rt; watch.slices() < 1 << 20);
    watch.publish(rt, &QUIET)?;
    Ok(())
}

fn assert_ended(rt: &impl Abort, dump: &[u8]) {
    assert_eq!(rt; dump.len(), 508);
    assert!(rt; dump.starts_with(&[0x54, 0x4d, 0x44, 0x50, 1]));
    for (place, byte) in [(46, 0xff), (47, 5), (81, 0), (82, 2)] {
        assert_eq!(rt; dump.get(place).copied(), Some(byte), "at {place}");
    }
    assert!(rt; dump.ends_with(&CLOSING));
}

/// A look before any slice, and one after two slices and a note of them.
fn look_twice<R: Wait + Abort>(
    rt: &R,
    alloc: Global,
    watch: &mut Watch,
    observer: &mut Observer,
) -> Result<(), Fail>
    requires { observer.old.book ≡ watch.old.book }
{
    let mut dump = Vec::from_slice(alloc, &[7; 9])?;
    observer.look(rt, &mut dump)?;
    assert_eq!(rt; (dump.len(), observer.seen_slices()), (269, 0));
    publish(rt, watch)?;
    publish(rt, watch)?;
    let note = watch.tell();
    assert_eq!(rt; note.slices(), 2);
    observer.learn(note);
    assert_eq!(rt; observer.seen_slices(), 0);
    observer.look(rt, &mut dump)?;
    assert_ended(rt, dump.as_slice());
    assert_eq!(rt; (observer.seen_slices(), watch.slices()), (2, 2));
    Ok(())
}

#[test]
fn a_look_after_a_note_of_two_slices(rt: HostRuntime) -> Result<(), Fail> {
    let image = ends(&rt, rt.alloc());
    let (mut watch, mut observers) = Watch::new(&rt, rt.alloc(), image, 1)?;
    let looked = match observers.pop() {
        Some(mut observer) => look_twice(&rt, rt.alloc(), &mut watch, &mut observer),
        None => Ok(()),
    };
    watch.end(&rt);
    assert_eq!(rt; observers.len(), 0);
    looked
}

/// Publishes slices, and counts a failure where one is not published.
fn publish_all<R: Wait>(rt: &R, watch: &mut Watch, failures: &AtomicU64) {
    for _ in 0..MANY {
        if watch.slices() < MANY && watch.publish(rt, &QUIET).is_err() {
            failures.fetch_add(1, Ordering::SeqCst);
        }
    }
}

/// Looks until all slices are seen, and counts a failure where a look fails or sees less than the one before.
fn look_often<R: Wait>(rt: &R, alloc: Global, observer: &mut Observer, failures: &AtomicU64) {
    let mut dump = Vec::new(alloc);
    for _ in 0..1_000_000u32 {
        let before = observer.seen_slices();
        if observer.look(rt, &mut dump).is_err() || observer.seen_slices() < before {
            break;
        }
        if observer.seen_slices() == MANY {
            return;
        }
        thread::yield_now();
    }
    failures.fetch_add(1, Ordering::SeqCst);
}

/// The watch in one thread, and its observers in others.
fn run_beside<R: Threads + Wait + Sync>(
    rt: &R,
    alloc: Global,
    watch: &mut Watch,
    observers: &mut [Observer],
    failures: &AtomicU64,
)
    requires { length observers.old ≤ 4 }
{
    join_mut(
        rt,
        &mut || publish_all(rt, watch, failures),
        &mut ||
            requires { IsSync R.row × (length observers.now ≤ 4) }
        {
            for_each_mut(
                rt,
                observers,
                4,
                &|_, observer| { look_often(rt, alloc, observer, failures) },
            )
        },
    );
}

#[test]
fn two_observers_see_all_that_is_published_beside_them(rt: HostRuntime) -> Result<(), Fail> {
    let image = ends(&rt, rt.alloc());
    let failures = AtomicU64::new(0);
    let (mut watch, mut observers) = Watch::new(&rt, rt.alloc(), image, 2)?;
    run_beside(
        &rt,
        rt.alloc(),
        &mut watch,
        observers.as_mut_slice(),
        &failures,
    );
    let slices = watch.slices();
    watch.end(&rt);
    assert_eq!(rt; (slices, failures.load(Ordering::SeqCst)), (MANY, 0));
    for observer in observers.as_slice() {
        assert_eq!(rt; observer.seen_slices(), MANY);
    }
    Ok(())
}
