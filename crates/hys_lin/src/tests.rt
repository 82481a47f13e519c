use crate::{Affine, LinFault, Lost, Op, Term, add_scaled, scale};
use hys_frac::{Frac, List};
use std::alloc::Global;
use std::test::Fail;

fn whole(number: i64) -> Result<Frac, Fail> {
    Ok(Frac::new(number, 1).ok_or("a number of a row doesn't fit")?)
}

fn form(alloc: Global, rows: &[(u32, i64)], constant: i64) -> Result<Affine, Fail> {
    let mut terms = Vec::new(alloc);
    for (column, factor) in rows {
        terms.push(Term {
            column: *column,
            factor: whole(*factor)?,
        })?;
    }
    Ok(Affine {
        terms: List::of(terms),
        constant: whole(constant)?,
    })
}

#[test]
fn multiples_of_forms(rt: HostRuntime) -> Result<(), Fail> {
    let alloc = rt.alloc();
    let left = form(alloc, &[(0, 1), (2, 4)], 5)?;
    let right = form(alloc, &[(1, 3), (2, 2)], 1)?;
    assert_eq!(rt;
        scale(alloc, &left, whole(2)?),
        Ok(form(alloc, &[(0, 2), (2, 8)], 10)?)
    );
    assert_eq!(rt; scale(alloc, &left, whole(0)?), Ok(form(alloc, &[], 0)?));
    assert_eq!(rt;
        add_scaled(alloc, &left, whole(-2)?, &right),
        Ok(form(alloc, &[(0, 1), (1, -6)], 3)?)
    );
    let large = form(alloc, &[(2, i64::MAX)], 0)?;
    let lost = Lost {
        op: Op::Add,
        left: whole(4)?,
        right: whole(i64::MAX)?,
    };
    assert_eq!(rt;
        add_scaled(alloc, &left, whole(1)?, &large),
        Err(LinFault::Lost(lost))
    );
    Ok(())
}
