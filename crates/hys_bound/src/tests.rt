use crate::{BoundFault, bounds};
use hys_lin::Interval;
use hys_prog::examples::{crossed, crossed_order};
use std::alloc::{AllocError, Global};

fn shown(alloc: Global, interval: &Interval) -> Result<String, AllocError> {
    format!(in alloc; "{} to {}", interval.low.num(), interval.high.num())
}

// The interval of the name at the place; all of them are whole.
fn answered(alloc: Global, place: usize) -> Result<String, AllocError> {
    let program = crossed(alloc, 0)?;
    let order = crossed_order(alloc)?;
    match bounds(alloc, &program, &order) {
        Ok(boxes) => match boxes.get(place) {
            Some(interval) => shown(alloc, interval),
            None => format!(in alloc; "no name"),
        },
        Err(BoundFault::Range(item, _)) => format!(in alloc; "range at {item}"),
        Err(BoundFault::Memory) => format!(in alloc; "memory"),
    }
}

// Of x, 0 to 10, z = w + 1, and w = 2*x. Worked out by hand.
#[test]
fn intervals_along_an_order(rt: HostRuntime) {
    let alloc = rt.alloc();
    for (place, want) in [
        (0, "0 to 10"),
        (1, "1 to 21"),
        (2, "0 to 20"),
        (3, "no name"),
    ] {
        let got = answered(alloc, place).expect(&rt, "memory");
        assert_eq!(rt; got.as_str(), want, "of the name at place {place}");
    }
}
