//! That rings are made and work at their limits, and that threads may share them.

use std::test::Fail;
use tm_ring::Ring;

fn assert_shared<T: Send + Sync>() {}

#[test]
fn threads_may_share_a_ring() {
    assert_shared::<Ring<u32>>();
}

#[test]
fn the_last_three_of_five(rt: HostRuntime) -> Result<(), Fail> {
    let mut ring = Ring::new(rt.alloc(), 3)?;
    assert!(rt; ring.is_empty());
    for (item, dropped) in [
        (7, None),
        (8, None),
        (9, None),
        (10, Some(7)),
        (11, Some(8)),
    ] {
        assert!(rt; ring.total() < 1 << 53);
        assert_eq!(rt; ring.push(item), dropped, "at {item}");
    }
    assert_eq!(rt;
        (ring.first(), ring.total(), ring.len(), ring.cap()),
        (2, 5, 3, 3)
    );
    for (number, item) in [(0, None), (1, None), (2, Some(9)), (4, Some(11)), (5, None)] {
        assert_eq!(rt; ring.get(number).copied(), item, "at {number}");
    }
    Ok(())
}

#[test]
fn a_copy_of_a_ring_that_wrapped(rt: HostRuntime) -> Result<(), Fail> {
    let mut ring = Ring::starting(rt.alloc(), 2, 40)?;
    assert_eq!(rt; (ring.first(), ring.total()), (40, 40));
    for item in 1..=3u32 {
        assert!(rt; ring.total() < 1 << 53);
        ring.push(item);
    }
    let mut copy = Ring::new(rt.alloc(), 2)?;
    copy.push(0);
    assert_eq!(rt; copy.cap(), ring.cap());
    copy.copy_from(&ring);
    assert_eq!(rt; (copy.first(), copy.total()), (41, 43));
    assert_eq!(rt;
        (copy.get(41).copied(), copy.get(42).copied()),
        (Some(2), Some(3))
    );
    Ok(())
}

#[test]
fn the_largest_ring_and_the_last_total(rt: HostRuntime) -> Result<(), Fail> {
    let mut ring = Ring::starting(rt.alloc(), 65_536, (1 << 53) - 65_537)?;
    for item in 0..65_537u32 {
        assert!(rt; ring.total() < 1 << 53);
        ring.push(item);
    }
    assert_eq!(rt; (ring.first(), ring.total()), ((1 << 53) - 65_536, 1 << 53));
    assert_eq!(rt; ring.get((1 << 53) - 65_536).copied(), Some(1));
    assert_eq!(rt; ring.get((1 << 53) - 1).copied(), Some(65_536));
    Ok(())
}
