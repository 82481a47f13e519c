ghost use Rattle.std.specs.Prelude.{◌≡◌, IfOk, IfSome, negsuc, pos};
ghost use Rattle.hys_number.specs.Number.{make};
ghost use Rattle.hys_number.specs.Ops.{whole};
ghost use Rattle.hys_prog.specs.Guarded.{d_first, d_item as guard_item, d_name as guard_name, guarded, x_item as state_item, x_name as state_name};

use crate::{Body, Name, Order, ProgItem, Program, Role, StepFault, Stepped, Stop, step};
use hys_ast::{Kind, Place};
use hys_frac::{Frac, List, Text};
use hys_lin::{Affine, Interval, Term};
use std::alloc::{AllocError, Global};
use std::test::Fail;

const START: Place = Place {
    byte: 0,
    line: 1,
    col: 1,
};

fn x_name(alloc: Global) -> Result<Name, AllocError>
    ensures { IfOk result (λ r. r ≡ state_name) }
{
    Ok(Name {
        text: Text::of(String::from_str(alloc, "x")?),
        role: Role::State,
        kind: Kind::Real,
        place: START,
        bounds: Interval {
            low: Frac::whole(0),
            high: Frac::whole(10),
        },
        value: Frac::whole(0),
    })
}

fn d_name(alloc: Global) -> Result<Name, AllocError>
    ensures { IfOk result (λ r. r ≡ guard_name) }
{
    Ok(Name {
        text: Text::of(String::from_str(alloc, "d")?),
        role: Role::Aux,
        kind: Kind::Bool,
        place: START,
        bounds: Interval {
            low: Frac::whole(0),
            high: Frac::whole(0),
        },
        value: Frac::whole(0),
    })
}

fn x_item(alloc: Global) -> Result<ProgItem, AllocError>
    ensures { IfOk result (λ r. r ≡ state_item) }
{
    let mut terms = Vec::new(alloc);
    terms.push(Term {
        column: 0,
        factor: Frac::whole(1),
    })?;
    Ok(ProgItem {
        name: Some(0),
        place: START,
        body: Body::NextReal(Affine {
            terms: List::of(terms),
            constant: Frac::whole(0),
        }),
    })
}

fn d_item(alloc: Global, minus: Frac, eps: Frac) -> Result<ProgItem, AllocError>
    requires minus { minus ≡ make (negsuc 0) 1 }
    requires eps { eps ≡ make (pos 1) 1000 }
    ensures { IfOk result (λ r. r ≡ guard_item) }
{
    let mut terms = Vec::new(alloc);
    terms.push(Term {
        column: 0,
        factor: minus,
    })?;
    Ok(ProgItem {
        name: Some(1),
        place: START,
        body: Body::Guard {
            number: Affine {
                terms: List::of(terms),
                constant: Frac::whole(5),
            },
            eps,
        },
    })
}

fn minus_one() -> Frac
    ensures { result ≡ make (negsuc 0) 1 }
{
    Frac::whole(1).neg()
}

fn tolerance() -> Option<Frac>
    ensures { IfSome result (λ r. r ≡ make (pos 1) 1000) }
{
    Frac::new(1, 1000)
}

fn guard_program(alloc: Global, eps: Frac) -> Result<Program, AllocError>
    requires { eps ≡ make (pos 1) 1000 }
    ensures { IfOk result (λ r. r ≡ guarded) }
{
    let mut names = Vec::new(alloc);
    names.push(x_name(alloc)?)?;
    names.push(d_name(alloc)?)?;
    let mut items = Vec::new(alloc);
    items.push(d_item(alloc, minus_one(), eps)?)?;
    items.push(x_item(alloc)?)?;
    Ok(Program {
        system: Text::of(String::from_str(alloc, "g")?),
        names: List::of(names),
        items: List::of(items),
        weight: 2,
    })
}

fn guard_order(alloc: Global) -> Result<Order, AllocError>
    ensures { IfOk result (λ r. r ≡ d_first) }
{
    let mut names = Vec::new(alloc);
    names.push(1)?;
    Ok(Order {
        names: List::of(names),
    })
}

// One step from the value of x; none where the tolerance doesn't fit.
fn stepped(alloc: Global, x: Frac) -> Result<Option<Result<Stepped, StepFault>>, AllocError> {
    let eps = match tolerance() {
        Some(eps) => eps,
        None => return Ok(None),
    };
    let program = guard_program(alloc, eps)?;
    let order = guard_order(alloc)?;
    Ok(Some(step(alloc, &program, &order, &[x], &[])))
}

fn made(alloc: Global, d: u32, x: Frac) -> Result<Stepped, AllocError> {
    let mut aux = Vec::new(alloc);
    aux.push(Frac::whole(d))?;
    let mut next = Vec::new(alloc);
    next.push(x)?;
    Ok(Stepped {
        aux: List::of(aux),
        outputs: List::of(Vec::new(alloc)),
        next: List::of(next),
    })
}

#[test]
fn steps_of_a_guard(rt: HostRuntime) -> Result<(), Fail> {
    let alloc = rt.alloc();
    let five = Frac::whole(5);
    let below = Frac::new(4999, 1000).ok_or("a number of a row doesn't fit")?;
    let gap = Frac::new(9999, 2000).ok_or("a number of a row doesn't fit")?;
    assert_eq!(rt; stepped(alloc, five)?, Some(Ok(made(alloc, 1, five)?)));
    assert_eq!(rt; stepped(alloc, below)?, Some(Ok(made(alloc, 0, below)?)));
    assert_eq!(rt;
        stepped(alloc, gap)?,
        Some(Err(StepFault::Stop(Stop::Gap(0))))
    );
    assert_eq!(rt;
        stepped(alloc, Frac::whole(11))?,
        Some(Err(StepFault::Stop(Stop::Bounds(0))))
    );
    Ok(())
}
