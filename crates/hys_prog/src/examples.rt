//! Programs that are written out, for trying calls on them.

ghost use Rattle.std.specs.Prelude.{◌≡◌, ◌<◌, IfOk, string_bytes};
ghost use Rattle.hys_number.specs.Ops.{whole};
ghost use Rattle.hys_prog.specs.Programs.{IsProgram};
ghost use Rattle.hys_prog.specs.Orders.{IsOrder};
ghost use Rattle.hys_prog.specs.Example.{crossed as two_auxiliaries, real_name as name_of, one_term as term_of, item_of as item_by};

use crate::program::{Body, Name, Order, ProgItem, Program, Role};
use hys_ast::{Kind, Place};
use hys_formula::NameId;
use hys_frac::{Frac, List, Text};
use hys_lin::{Affine, Interval, Term};
use std::alloc::{AllocError, Global};

/// A program of the state x, 0 to 10, and of two auxiliaries: z is w + 1, and w is twice the name
/// at the place, of x, z, w. With x it has an order of definition, with z or w a cycle.
pub fn crossed(alloc: Global, column: NameId) -> Result<Program, AllocError>
    requires { column < 3 }
    ensures value { IfOk result (λ p. p ≡ two_auxiliaries column) }
    ensures lawful { IfOk result (λ p. IsProgram p) }
{
    build(alloc, column)
}

/// The order of definition of that program with x: w, and then z.
pub fn crossed_order(alloc: Global) -> Result<Order, AllocError>
    ensures { IfOk result (λ o. IsOrder (two_auxiliaries 0) o) }
{
    let mut names = Vec::new(alloc);
    names.push(2)?;
    names.push(1)?;
    Ok(Order {
        names: List::of(names),
    })
}

fn build(alloc: Global, column: NameId) -> Result<Program, AllocError>
    ensures { IfOk result (λ p. p ≡ two_auxiliaries column) }
{
    let mut names = Vec::new(alloc);
    names.push(real_name(alloc, "x", Role::State, 10)?)?;
    names.push(real_name(alloc, "z", Role::Aux, 0)?)?;
    names.push(real_name(alloc, "w", Role::Aux, 0)?)?;
    let mut items = Vec::new(alloc);
    items.push(item_of(1, Body::Linear(one_term(alloc, 2, 1, 1)?)))?;
    items.push(item_of(2, Body::Linear(one_term(alloc, column, 2, 0)?)))?;
    items.push(item_of(0, Body::NextReal(one_term(alloc, 0, 1, 0)?)))?;
    Ok(Program {
        system: word(alloc, "p")?,
        names: List::of(names),
        items: List::of(items),
        weight: 3,
    })
}

const START: Place = Place {
    byte: 0,
    line: 1,
    col: 1,
};

fn word(alloc: Global, text: &str) -> Result<Text, AllocError>
    ensures { IfOk result (λ t. t ≡ text.now) }
{
    let mut string = String::new(alloc);
    string.push_str(text)?;
    Ok(Text::of(string))
}

// A real name with the box from 0 to `high`.
fn real_name(alloc: Global, text: &str, role: Role, high: u32) -> Result<Name, AllocError>
    ensures { IfOk result (λ x. x ≡ name_of text.now role (whole high)) }
{
    Ok(Name {
        text: word(alloc, text)?,
        role,
        kind: Kind::Real,
        place: START,
        bounds: Interval {
            low: Frac::whole(0),
            high: Frac::whole(high),
        },
        value: Frac::whole(0),
    })
}

// A form of one term.
fn one_term(alloc: Global, column: NameId, factor: u32, constant: u32) -> Result<Affine, AllocError>
    ensures { IfOk result (λ f. f ≡ term_of column (whole factor) (whole constant)) }
{
    let mut terms = Vec::new(alloc);
    terms.push(Term {
        column,
        factor: Frac::whole(factor),
    })?;
    Ok(Affine {
        terms: List::of(terms),
        constant: Frac::whole(constant),
    })
}

fn item_of(name: NameId, body: Body) -> ProgItem
    ensures { result ≡ item_by name body }
{
    ProgItem {
        name: Some(name),
        place: START,
        body,
    }
}
