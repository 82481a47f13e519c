use crate::{OrderFault, order};
use hys_prog::NameId;
use hys_prog::examples::crossed;
use std::alloc::{AllocError, Global};

fn shown(alloc: Global, word: &str, names: &[NameId]) -> Result<String, AllocError> {
    let mut text = String::new(alloc);
    text.push_str(word)?;
    for name in names {
        text.push_str(&format!(in alloc; " {name}")?)?;
    }
    Ok(text)
}

// What is answered for the program whose second auxiliary mentions the name at the place.
fn answered(alloc: Global, column: NameId) -> Result<String, AllocError> {
    let mentioned = if column < 3 { column } else { 0 };
    let program = crossed(alloc, mentioned)?;
    match order(alloc, &program) {
        Ok(order) => shown(alloc, "order", order.names.items()),
        Err(OrderFault::Cycle(names)) => shown(alloc, "cycle", names.items()),
        Err(OrderFault::Memory) => shown(alloc, "memory", &[]),
    }
}

// Of x, z, w, where z mentions w and w mentions x, z or itself. Worked out by hand.
#[test]
fn an_order_or_a_cycle(rt: HostRuntime) {
    let alloc = rt.alloc();
    for (column, want) in [(0, "order 2 1"), (1, "cycle 1 2"), (2, "cycle 2")] {
        let got = answered(alloc, column).expect(&rt, "memory");
        assert_eq!(rt; got.as_str(), want, "with the name at place {column}");
    }
}
