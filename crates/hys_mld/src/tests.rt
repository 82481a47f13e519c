ghost use Rattle.std.specs.Prelude.{◌≡◌, IfOk, IfSome, negsuc, pos};
ghost use Rattle.hys_number.specs.Number.{make};
ghost use Rattle.hys_prog.specs.Guarded.{d_first, d_item as guard_item, d_name as guard_name, guarded, x_item as state_item, x_name as state_name};
ghost use Rattle.hys_sys.specs.System.{IsSystem};

use crate::{BuildFault, build};
use hys_ast::{Kind, Place};
use hys_base::{List, Text};
use hys_bound::bounds;
use hys_file::write_system;
use hys_frac::Frac;
use hys_lin::{Affine, Interval, Point, Term};
use hys_prog::examples::{crossed, crossed_order};
use hys_prog::{Body, Name, Order, ProgItem, Program, Role};
use hys_sys::{System, holds};
use std::alloc::{AllocError, Global};
use std::test::Fail;

// Both rows of the guard, with the labels of their item.
const GUARDED: &str =
    "{\"columns\":[{\"box\":[\"0\",\"10\"],\"kind\":\"real\",\"name\":\"x\",\"role\":\"state\"},{\"box\":[\"0\",\"1\"],\"kind\":\"bool\",\"name\":\"d\",\"role\":\"d\"}],\"format\":\"hysdel-mld\",\"next\":[{\"constant\":\"0\",\"terms\":[[0,\"1\"]]}],\"outputs\":[],\"rows\":[{\"bound\":\"0\",\"item\":\"d\",\"terms\":[[0,\"-1\"],[1,\"5\"]]},{\"bound\":\"4999/1000\",\"item\":\"d\",\"terms\":[[0,\"1\"],[1,\"-5001/1000\"]]}],\"system\":\"g\",\"version\":2,\"weight\":2}\n";

// z = w + 1 and w = 2*x, each held by two rows.
const CROSSED: &str =
    "{\"columns\":[{\"box\":[\"0\",\"10\"],\"kind\":\"real\",\"name\":\"x\",\"role\":\"state\"},{\"box\":[\"1\",\"21\"],\"kind\":\"real\",\"name\":\"z\",\"role\":\"z\"},{\"box\":[\"0\",\"20\"],\"kind\":\"real\",\"name\":\"w\",\"role\":\"z\"}],\"format\":\"hysdel-mld\",\"next\":[{\"constant\":\"0\",\"terms\":[[0,\"1\"]]}],\"outputs\":[],\"rows\":[{\"bound\":\"1\",\"item\":\"z\",\"terms\":[[1,\"1\"],[2,\"-1\"]]},{\"bound\":\"-1\",\"item\":\"z\",\"terms\":[[1,\"-1\"],[2,\"1\"]]},{\"bound\":\"0\",\"item\":\"w\",\"terms\":[[0,\"-2\"],[2,\"1\"]]},{\"bound\":\"0\",\"item\":\"w\",\"terms\":[[0,\"2\"],[2,\"-1\"]]}],\"system\":\"p\",\"version\":2,\"weight\":3}\n";

const START: Place = Place {
    byte: 0,
    line: 1,
    col: 1,
};

fn x_name(alloc: Global) -> Result<Name, AllocError>
    ensures { IfOk result (λ r. r ≡ state_name) }
{
    Ok(Name {
        text: Text::of(String::from_str(alloc, "x")?),
        role: Role::State,
        kind: Kind::Real,
        place: START,
        bounds: Interval {
            low: Frac::whole(0),
            high: Frac::whole(10),
        },
        value: Frac::whole(0),
    })
}

fn d_name(alloc: Global) -> Result<Name, AllocError>
    ensures { IfOk result (λ r. r ≡ guard_name) }
{
    Ok(Name {
        text: Text::of(String::from_str(alloc, "d")?),
        role: Role::Aux,
        kind: Kind::Bool,
        place: START,
        bounds: Interval {
            low: Frac::whole(0),
            high: Frac::whole(0),
        },
        value: Frac::whole(0),
    })
}

fn x_item(alloc: Global) -> Result<ProgItem, AllocError>
    ensures { IfOk result (λ r. r ≡ state_item) }
{
    let mut terms = Vec::new(alloc);
    terms.push(Term {
        column: 0,
        factor: Frac::whole(1),
    })?;
    Ok(ProgItem {
        name: Some(0),
        place: START,
        body: Body::NextReal(Affine {
            terms: List::of(terms),
            constant: Frac::whole(0),
        }),
    })
}

fn d_item(alloc: Global, minus: Frac, eps: Frac) -> Result<ProgItem, AllocError>
    requires minus { minus ≡ make (negsuc 0) 1 }
    requires eps { eps ≡ make (pos 1) 1000 }
    ensures { IfOk result (λ r. r ≡ guard_item) }
{
    let mut terms = Vec::new(alloc);
    terms.push(Term {
        column: 0,
        factor: minus,
    })?;
    Ok(ProgItem {
        name: Some(1),
        place: START,
        body: Body::Guard {
            number: Affine {
                terms: List::of(terms),
                constant: Frac::whole(5),
            },
            eps,
        },
    })
}

fn minus_one() -> Frac
    ensures { result ≡ make (negsuc 0) 1 }
{
    Frac::whole(1).neg()
}

fn tolerance() -> Option<Frac>
    ensures { IfSome result (λ r. r ≡ make (pos 1) 1000) }
{
    Frac::new(1, 1000)
}

// Whether x is at least 5, with tolerance 1/1000.
fn guard_program(alloc: Global, eps: Frac) -> Result<Program, AllocError>
    requires { eps ≡ make (pos 1) 1000 }
    ensures { IfOk result (λ r. r ≡ guarded) }
{
    let mut names = Vec::new(alloc);
    names.push(x_name(alloc)?)?;
    names.push(d_name(alloc)?)?;
    let mut items = Vec::new(alloc);
    items.push(d_item(alloc, minus_one(), eps)?)?;
    items.push(x_item(alloc)?)?;
    Ok(Program {
        system: Text::of(String::from_str(alloc, "g")?),
        names: List::of(names),
        items: List::of(items),
        weight: 2,
    })
}

fn guard_order(alloc: Global) -> Result<Order, AllocError>
    ensures { IfOk result (λ r. r ≡ d_first) }
{
    let mut names = Vec::new(alloc);
    names.push(1)?;
    Ok(Order {
        names: List::of(names),
    })
}

// The system of the guard.
fn guard_system(alloc: Global, eps: Frac) -> Result<System, BuildFault>
    requires { eps ≡ make (pos 1) 1000 }
    ensures { IfOk result IsSystem }
{
    let program = guard_program(alloc, eps)?;
    let order = guard_order(alloc)?;
    match bounds(alloc, &program, &order) {
        Ok(boxes) => build(alloc, &program, &order, boxes.as_slice()),
        Err(_) => Err(BuildFault::Memory),
    }
}

fn crossed_system(alloc: Global) -> Result<System, BuildFault> {
    let program = crossed(alloc, 0)?;
    let order = crossed_order(alloc)?;
    match bounds(alloc, &program, &order) {
        Ok(boxes) => build(alloc, &program, &order, boxes.as_slice()),
        Err(_) => Err(BuildFault::Memory),
    }
}

// Whether the two numbers are a solution of the system; none where it hasn't two columns.
fn solves(alloc: Global, system: &System, x: Frac, d: u32) -> Result<Option<bool>, AllocError>
    requires { IsSystem system.now }
{
    let mut values = Vec::new(alloc);
    values.push(x)?;
    values.push(Frac::whole(d))?;
    let point = Point {
        values: List::of(values),
    };
    if system.columns.items().len() != 2 {
        return Ok(None);
    }
    match holds(system, &point) {
        Ok(is_solution) => Ok(Some(is_solution)),
        Err(_) => Ok(None),
    }
}

#[test]
fn systems(rt: HostRuntime) -> Result<(), Fail> {
    let alloc = rt.alloc();
    let eps = tolerance().ok_or("a number of a row doesn't fit")?;
    let guard = match guard_system(alloc, eps) {
        Ok(guard) => guard,
        Err(_) => return Err(Fail::from("no system of the guard")),
    };
    assert_eq!(rt; write_system(alloc, &guard)?.as_slice(), GUARDED.as_bytes());
    let crossed = crossed_system(alloc).ok().ok_or("no system")?;
    assert_eq!(rt;
        write_system(alloc, &crossed)?.as_slice(),
        CROSSED.as_bytes()
    );
    for (num, den, d, want) in [
        (5, 1, 1, true),
        (5, 1, 0, false),
        (9999, 2000, 0, false),
        (9999, 2000, 1, false),
        (4999, 1000, 0, true),
        (4999, 1000, 1, false),
    ] {
        let x = Frac::new(num, den).ok_or("a number of a row doesn't fit")?;
        assert_eq!(rt;
            solves(alloc, &guard, x, d)?,
            Some(want),
            "{num}/{den} with {d}"
        );
    }
    Ok(())
}
