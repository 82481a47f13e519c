ghost use Rattle.std.specs.Prelude.{◌≡◌, ◌≤◌, ◌<◌, IfSome};
ghost use Rattle.hys_formula.specs.Formulas.{tree_of, connectives};
ghost use Rattle.hys_logic.specs.Meanings.{HaveColumns};
ghost use Rattle.hys_logic.specs.Uses.{IsApart};

use crate::usage::Use;
use crate::{Logic, define_rows, must_rows, rows_of};
use hys_formula::{Connective, Formula};
use hys_lin::Row;
use std::alloc::{AllocError, Global};

// The number of connectives, if it is small and the names have columns below `first_free`, none of
// them `apart`.
fn small(formula: &Formula, columns: &[u32], first_free: u32, apart: u32) -> Option<u32>
    ensures count { IfSome result (λ k. (k ≡ connectives (tree_of formula.now)) × (k ≤ 5000)) }
    ensures names { IfSome result (λ _. HaveColumns columns.now first_free (tree_of formula.now)) }
    ensures apart { IfSome result (λ _. IsApart apart columns.now (tree_of formula.now)) }
{
    match formula {
        Formula::Const(_) => Some(0),
        Formula::Name(name) => {
            let place = *name as usize;
            if place < columns.len() && columns[place] < first_free && columns[place] != apart {
                Some(0)
            } else {
                None
            }
        }
        Formula::Not(inner) => small(inner, columns, first_free, apart),
        Formula::Join(_, left, right) => {
            match (
                small(left, columns, first_free, apart),
                small(right, columns, first_free, apart),
            ) {
                (Some(a), Some(b)) if a + b < 5000 => Some(a + b + 1),
                _ => None,
            }
        }
    }
}

fn not(alloc: Global, inner: Formula) -> Result<Formula, AllocError> {
    Ok(Formula::Not(Box::new(alloc, inner)?))
}

fn join(
    alloc: Global,
    connective: Connective,
    left: Formula,
    right: Formula,
) -> Result<Formula, AllocError> {
    Ok(Formula::Join(connective, Box::new(alloc, left)?, Box::new(alloc, right)?))
}

// A row as `factor@column .. <= bound`, all numbers being whole.
fn shown(alloc: Global, row: &Row) -> Result<String, AllocError> {
    let mut text = String::new(alloc);
    for term in row.terms.items() {
        text.push_str(&format!(in alloc; "{}@{} ", term.factor.num(), term.column)?)?;
    }
    text.push_str(&format!(in alloc; "<= {}", row.bound.num())?)?;
    Ok(text)
}

// The rows, then the literal and the number of fresh columns.
fn logic_shown(alloc: Global, logic: &Logic) -> Result<String, AllocError> {
    let mut text = String::new(alloc);
    for row in logic.rows.items() {
        text.push_str(&shown(alloc, row)?)?;
        text.push_str("; ")?;
    }
    for term in logic.literal.terms.items() {
        text.push_str(&format!(in alloc; "{}@{} ", term.factor.num(), term.column)?)?;
    }
    let constant = logic.literal.constant.num();
    text.push_str(&format!(in alloc; "+ {constant}, {} fresh", logic.fresh)?)?;
    Ok(text)
}

// The rows of a formula under a use, where no name has the column `apart`.
fn logic(
    alloc: Global,
    used: Use,
    formula: &Formula,
    columns: &[u32],
    first_free: u32,
) -> Result<Option<Logic>, AllocError> {
    let apart = match used {
        Use::Define(column) => column,
        Use::Read | Use::Require => first_free,
    };
    if first_free > 1000 {
        return Ok(None);
    }
    match small(formula, columns, first_free, apart) {
        Some(_) => match used {
            Use::Read => Ok(Some(rows_of(alloc, formula, columns, first_free)?)),
            Use::Define(column) => {
                if column < first_free && column == apart {
                    Ok(Some(define_rows(alloc, formula, columns, column, first_free)?))
                } else {
                    Ok(None)
                }
            }
            Use::Require => Ok(Some(must_rows(alloc, formula, columns, first_free)?)),
        },
        None => Ok(None),
    }
}

fn all_shown(
    alloc: Global,
    used: Use,
    formula: &Formula,
    columns: &[u32],
    first_free: u32,
) -> Result<String, AllocError> {
    match logic(alloc, used, formula, columns, first_free)? {
        Some(logic) => logic_shown(alloc, &logic),
        None => Ok(String::new(alloc)),
    }
}

// The formula of a text in postfix form, with the names `a` and `b`.
fn formula_of(alloc: Global, text: &str) -> Result<Formula, AllocError> {
    let mut parts: Vec<Formula> = Vec::new(alloc);
    for byte in text.as_bytes() {
        let made = match *byte {
            b'a' => Formula::Name(0),
            b'b' => Formula::Name(1),
            b'c' => Formula::Name(2),
            b'd' => Formula::Name(3),
            b'0' => Formula::Const(false),
            b'1' => Formula::Const(true),
            b'~' => not(alloc, last(&mut parts))?,
            sign => {
                let right = last(&mut parts);
                let left = last(&mut parts);
                join(alloc, connective_of(sign), left, right)?
            }
        };
        parts.push(made)?;
    }
    Ok(last(&mut parts))
}

fn last(parts: &mut Vec<Formula>) -> Formula {
    match parts.pop() {
        Some(formula) => formula,
        None => Formula::Const(false),
    }
}

fn connective_of(sign: u8) -> Connective {
    match sign {
        b'&' => Connective::And,
        b'|' => Connective::Or,
        b'=' => Connective::Iff,
        b'>' => Connective::Then,
        _ => Connective::From,
    }
}

// Formulas in postfix form over names `a` to `d` at the columns from a first one, the use, and the
// first free column. The rows were worked out by hand from the inequalities of the connectives and
// from truth tables.
#[test]
fn rows_are_the_stated_ones(rt: HostRuntime) {
    let alloc = rt.alloc();
    for (text, columns, used, first_free, want) in [
        (
            "ab~=",
            [0, 1, 0, 0],
            Use::Read,
            2,
            "-1@0 -1@1 1@2 <= 0; -1@0 1@1 -1@2 <= 0; 1@0 -1@1 -1@2 <= 0; 1@0 1@1 1@2 <= 2; 1@2 + 0, 1 fresh",
        ),
        ("a~", [0, 1, 0, 0], Use::Read, 2, "-1@0 + 1, 0 fresh"),
        ("1", [0, 1, 0, 0], Use::Read, 2, "+ 1, 0 fresh"),
        (
            "ab>",
            [0, 1, 0, 0],
            Use::Read,
            2,
            "-1@0 -1@1 -1@2 <= -1; -1@0 1@1 -1@2 <= 0; 1@0 -1@1 1@2 <= 1; 1@0 1@1 -1@2 <= 1; 1@2 + 0, 1 fresh",
        ),
        (
            "ba&",
            [0, 1, 0, 0],
            Use::Read,
            2,
            "-1@0 -1@1 1@2 <= 0; -1@0 1@1 1@2 <= 1; 1@0 -1@1 1@2 <= 1; 1@0 1@1 -1@2 <= 1; 1@2 + 0, 1 fresh",
        ),
        (
            "aa~|",
            [0, 1, 0, 0],
            Use::Read,
            2,
            "-1@0 -1@2 <= -1; 1@0 -1@2 <= 0; 1@2 + 0, 1 fresh",
        ),
        (
            "01=",
            [0, 1, 0, 0],
            Use::Read,
            2,
            "1@2 <= 0; 1@2 + 0, 1 fresh",
        ),
        (
            "ab|cd|&",
            [0, 1, 2, 3],
            Use::Read,
            4,
            "1@0 -1@4 <= 0; 1@1 -1@4 <= 0; -1@0 -1@1 1@4 <= 0; 1@2 -1@5 <= 0; 1@3 -1@5 <= 0; -1@2 -1@3 1@5 <= 0; -1@4 1@6 <= 0; -1@5 1@6 <= 0; 1@4 1@5 -1@6 <= 1; 1@6 + 0, 3 fresh",
        ),
        (
            "ab~>cd<=",
            [0, 1, 2, 3],
            Use::Read,
            4,
            "-1@0 -1@4 <= -1; -1@1 -1@4 <= -1; 1@0 1@1 1@4 <= 2; 1@2 -1@5 <= 0; -1@3 -1@5 <= -1; -1@2 1@3 1@5 <= 1; 1@4 -1@5 1@6 <= 1; -1@4 1@5 1@6 <= 1; -1@4 -1@5 -1@6 <= -1; 1@4 1@5 -1@6 <= 1; 1@6 + 0, 3 fresh",
        ),
        (
            "ab&",
            [0, 1, 0, 0],
            Use::Define(2),
            3,
            "-1@0 -1@1 1@2 <= 0; -1@0 1@1 1@2 <= 1; 1@0 -1@1 1@2 <= 1; 1@0 1@1 -1@2 <= 1; 1@2 + 0, 0 fresh",
        ),
        (
            "ab&",
            [1, 2, 0, 0],
            Use::Define(0),
            3,
            "1@0 -1@1 -1@2 <= 0; 1@0 -1@1 1@2 <= 1; 1@0 1@1 -1@2 <= 1; -1@0 1@1 1@2 <= 1; 1@0 + 0, 0 fresh",
        ),
        (
            "a~",
            [0, 1, 0, 0],
            Use::Define(2),
            3,
            "1@0 1@2 <= 1; -1@0 -1@2 <= -1; 1@2 + 0, 0 fresh",
        ),
        (
            "1",
            [0, 1, 0, 0],
            Use::Define(2),
            3,
            "1@2 <= 1; -1@2 <= -1; 1@2 + 0, 0 fresh",
        ),
        (
            "ab>",
            [0, 1, 0, 0],
            Use::Require,
            2,
            "1@0 -1@1 <= 0; + 1, 0 fresh",
        ),
        (
            "a~",
            [0, 1, 0, 0],
            Use::Require,
            2,
            "1@0 <= 0; + 1, 0 fresh",
        ),
        (
            "a",
            [0, 1, 0, 0],
            Use::Require,
            2,
            "-1@0 <= -1; + 1, 0 fresh",
        ),
        ("0", [0, 1, 0, 0], Use::Require, 2, "<= -1; + 1, 0 fresh"),
        ("1", [0, 1, 0, 0], Use::Require, 2, "<= 0; + 1, 0 fresh"),
        ("aa~|", [0, 1, 0, 0], Use::Require, 2, "+ 1, 0 fresh"),
        ("01&", [0, 1, 0, 0], Use::Require, 2, "<= -1; + 1, 0 fresh"),
    ] {
        let formula = formula_of(alloc, text).expect(&rt, "memory");
        let columns = Vec::from_array(alloc, columns).expect(&rt, "memory");
        let shown = all_shown(alloc, used, &formula, &columns, first_free).expect(&rt, "memory");
        assert_eq!(rt; shown.as_str(), want, "at {text}");
    }
}

// A chain of 1000 connectives over five names, which the stack holds.
#[test]
fn a_long_chain(rt: HostRuntime) {
    let alloc = rt.alloc();
    let mut chain = Formula::Name(0);
    for count in 0..1000u32 {
        chain = join(alloc, Connective::And, chain, Formula::Name(count % 5)).expect(&rt, "memory");
    }
    let shown = all_shown(alloc, Use::Read, &chain, &[0, 1, 2, 3, 4], 5).expect(&rt, "memory");
    assert!(rt; shown.as_str().ends_with("1@1004 + 0, 1000 fresh"));
}
