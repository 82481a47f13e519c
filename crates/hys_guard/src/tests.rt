ghost use Rattle.std.specs.Prelude.{◌≡◌, IfOk};
ghost use Rattle.hys_lin.specs.Sums.{AreTerms, EachColumn};
ghost use Rattle.hys_number.specs.Ops.{◌<ₙ◌, whole as whole_of};

use crate::terms::set_factor;
use crate::{GuardFault, choice_rows, copy_rows, guard_rows};
use hys_frac::{Frac, List};
use hys_lin::{Affine, Interval, Lost, Op, Row};
use std::alloc::{AllocError, Global};
use std::cmp::Ordering;

fn whole(number: i8) -> Frac {
    let magnitude = Frac::whole(u32::from(number.unsigned_abs()));
    if number < 0 {
        magnitude.neg()
    } else {
        magnitude
    }
}

fn added(a: Frac, b: Frac) -> Frac {
    match a.add(b) {
        Some(sum) => sum,
        None => a,
    }
}

// The greatest number that fits.
fn largest() -> Frac {
    let mut power = Frac::whole(1);
    for _ in 0..62 {
        power = added(power, power);
    }
    added(power, added(power, Frac::whole(1).neg()))
}

fn unit() -> Frac
    ensures { whole_of 0 <ₙ result }
{
    Frac::whole(1)
}

// The tolerance 1/1000.
fn tolerance() -> Frac
    ensures { whole_of 0 <ₙ result }
{
    match Frac::new(1, 1000) {
        Some(number) => match number.cmp(Frac::whole(0)) {
            Ordering::Greater => number,
            _ => unit(),
        },
        None => unit(),
    }
}

// A form that doesn't name the column.
fn form(alloc: Global, pairs: &[(u32, i8)], constant: i8, column: u32) -> Result<Affine, AllocError>
    ensures terms { IfOk result (λ f. AreTerms f.terms) }
    ensures apart { IfOk result (λ f. EachColumn (λ c. ¬ (c ≡ column)) f.terms) }
{
    let mut terms = Vec::new(alloc);
    for pair in pairs {
        if pair.0 == column {
            continue;
        }
        set_factor(&mut terms, pair.0, whole(pair.1))?;
    }
    Ok(Affine {
        terms: List::of(terms),
        constant: whole(constant),
    })
}

fn between(low: i8, high: i8) -> Interval {
    Interval {
        low: whole(low),
        high: whole(high),
    }
}

// Rows as `factor@column .. <= bound;`, or the fault.
fn shown(alloc: Global, rows: Result<Vec<Row>, GuardFault>) -> Result<String, AllocError> {
    let mut text = String::new(alloc);
    match rows {
        Ok(rows) => {
            for row in &rows {
                for term in row.terms.items() {
                    text.push_str(term.factor.text(alloc)?.as_str())?;
                    text.push_str(&format!(in alloc; "@{} ", term.column)?)?;
                }
                text.push_str("<= ")?;
                text.push_str(row.bound.text(alloc)?.as_str())?;
                text.push_str("; ")?;
            }
        }
        Err(GuardFault::Lost(lost)) => text.push_str(sign_of(&lost))?,
        Err(GuardFault::Memory) => text.push_str("memory")?,
    }
    Ok(text)
}

fn sign_of(lost: &Lost) -> &'static str {
    match lost.op {
        Op::Add => "+",
        Op::Sub => "-",
        Op::Mul => "*",
        Op::Div => "/",
    }
}

fn guarded(
    alloc: Global,
    pairs: &[(u32, i8)],
    constant: i8,
    range: Interval,
    column: u32,
) -> Result<String, AllocError> {
    let number = form(alloc, pairs, constant, column)?;
    shown(
        alloc,
        guard_rows(alloc, &number, range, tolerance(), column),
    )
}

fn copied(
    alloc: Global,
    pairs: &[(u32, i8)],
    constant: i8,
    column: u32,
) -> Result<String, AllocError> {
    let value = form(alloc, pairs, constant, column)?;
    shown(alloc, copy_rows(alloc, &value, column))
}

// A form with its interval.
type Branch<'a> = (&'a [(u32, i8)], i8, i8, i8);

fn chosen(
    alloc: Global,
    literal: (&[(u32, i8)], i8),
    hit: Branch<'_>,
    other: Branch<'_>,
    column: u32,
) -> Result<String, AllocError> {
    let literal = form(alloc, literal.0, literal.1, column)?;
    let first = form(alloc, hit.0, hit.1, column)?;
    let second = form(alloc, other.0, other.1, column)?;
    if literal.terms.items().len() > 1 {
        return Ok(String::new(alloc));
    }
    shown(
        alloc,
        choice_rows(
            alloc,
            &literal,
            &first,
            between(hit.2, hit.3),
            &second,
            between(other.2, other.3),
            column,
        ),
    )
}

// `x >= 5` and `x <= 20` for x from 0 to 10 with tolerance 1/1000, a high end 0, and a column before
// the number's; the rows were worked out by hand from their inequalities.
#[test]
fn guards(rt: HostRuntime) {
    let alloc = rt.alloc();
    let text = guarded(alloc, &[(0, -1)], 5, between(-5, 5), 1).expect(&rt, "memory");
    assert_eq!(rt;
        text.as_str(),
        "-1@0 5@1 <= 0; 1@0 -5001/1000@1 <= 4999/1000; "
    );
    let text = guarded(alloc, &[(0, 1)], -20, between(-20, -10), 1).expect(&rt, "memory");
    assert_eq!(rt;
        text.as_str(),
        "1@0 -10@1 <= 10; -1@0 -20001/1000@1 <= -20001/1000; "
    );
    let text = guarded(alloc, &[(0, 1)], -5, between(-5, 0), 1).expect(&rt, "memory");
    assert_eq!(rt;
        text.as_str(),
        "1@0 <= 5; -1@0 -5001/1000@1 <= -5001/1000; "
    );
    let text = guarded(alloc, &[(1, -1)], 5, between(-5, 5), 0).expect(&rt, "memory");
    assert_eq!(rt;
        text.as_str(),
        "5@0 -1@1 <= 0; -5001/1000@0 1@1 <= 4999/1000; "
    );
    let wide = Interval {
        low: largest().neg(),
        high: largest(),
    };
    let text = guarded(alloc, &[(0, 1)], 0, wide, 1).expect(&rt, "memory");
    assert_eq!(rt; text.as_str(), "-");
}

#[test]
fn copies(rt: HostRuntime) {
    let alloc = rt.alloc();
    let text = copied(alloc, &[(0, 2), (3, -1)], 7, 1).expect(&rt, "memory");
    assert_eq!(rt; text.as_str(), "-2@0 1@1 1@3 <= 7; 2@0 -1@1 -1@3 <= -7; ");
}

// A choice without ELSE, forms that share the literal's column, one whose joined factor is 0, a
// negated and a constant literal; the rows were worked out by hand from their inequalities.
#[test]
fn choices(rt: HostRuntime) {
    let alloc = rt.alloc();
    let text = chosen(
        alloc,
        (&[(3, 1)], 0),
        (&[(0, 2)], 0, 0, 20),
        (&[], 0, 0, 0),
        4,
    )
    .expect(&rt, "memory");
    assert_eq!(rt;
        text.as_str(),
        "-20@3 1@4 <= 0; -1@4 <= 0; -2@0 1@4 <= 0; 2@0 20@3 -1@4 <= 20; "
    );
    let text = chosen(
        alloc,
        (&[(0, 1)], 0),
        (&[(0, 3)], 1, 1, 4),
        (&[(0, 2)], 0, 0, 2),
        1,
    )
    .expect(&rt, "memory");
    assert_eq!(rt;
        text.as_str(),
        "-6@0 1@1 <= 0; 1@0 -1@1 <= 0; -2@0 1@1 <= 2; 7@0 -1@1 <= 3; "
    );
    let text = chosen(
        alloc,
        (&[(0, 1)], 0),
        (&[], 4, 4, 4),
        (&[(0, -4)], 0, -4, 0),
        1,
    )
    .expect(&rt, "memory");
    assert_eq!(rt;
        text.as_str(),
        "-4@0 1@1 <= 0; -1@1 <= 0; -4@0 1@1 <= 0; 8@0 -1@1 <= 4; "
    );
    let text = chosen(alloc, (&[(0, -1)], 1), (&[], 3, 3, 3), (&[], 1, 1, 1), 1).expect(
        &rt, "memory",
    );
    assert_eq!(rt;
        text.as_str(),
        "2@0 1@1 <= 3; -2@0 -1@1 <= -3; 2@0 1@1 <= 3; -2@0 -1@1 <= -3; "
    );
    let text = chosen(alloc, (&[], 1), (&[], 3, 3, 3), (&[], 1, 1, 1), 1).expect(&rt, "memory");
    assert_eq!(rt;
        text.as_str(),
        "1@1 <= 3; -1@1 <= -3; 1@1 <= 3; -1@1 <= -3; "
    );
}
