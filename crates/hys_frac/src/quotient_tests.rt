use crate::Frac;
use std::cmp::Ordering;
use std::test::Fail;

fn frac(parts: (i64, i64)) -> Result<Frac, Fail> {
    Ok(Frac::new(parts.0, parts.1).ok_or("a number of a row doesn't fit")?)
}

#[test]
fn quotients_are_told_apart(rt: HostRuntime) -> Result<(), Fail> {
    let rows = [
        (
            ((1, 9223372036854775807), (9223372036854775807, 1)),
            ((1, 9223372036854775806), (9223372036854775807, 1)),
            Ordering::Less,
        ),
        (
            ((-1, 9223372036854775807), (9223372036854775807, 1)),
            ((-1, 9223372036854775806), (9223372036854775807, 1)),
            Ordering::Greater,
        ),
        (
            ((9223372036854775807, 1), (1, 9223372036854775807)),
            ((9223372036854775807, 1), (1, 9223372036854775807)),
            Ordering::Equal,
        ),
        (((1, 2), (-1, 3)), ((-3, 2), (1, 1)), Ordering::Equal),
        (((0, 1), (-5, 1)), ((0, 1), (7, 1)), Ordering::Equal),
        (((7, 1), (2, 1)), ((10, 1), (3, 1)), Ordering::Greater),
        (((-7, 1), (2, 1)), ((10, 1), (3, 1)), Ordering::Less),
        (((7, 1), (1, 1)), ((15, 1), (2, 1)), Ordering::Less),
        (
            (
                (7540113804746346429, 4660046610375530309),
                (2880067194370816120, 1779979416004714189),
            ),
            (
                (4660046610375530309, 2880067194370816120),
                (1779979416004714189, 1100087778366101931),
            ),
            Ordering::Greater,
        ),
    ];
    for (left, right, want) in rows {
        let (a, b) = (frac(left.0)?, frac(left.1)?);
        let (c, d) = (frac(right.0)?, frac(right.1)?);
        if b == Frac::whole(0) || d == Frac::whole(0) {
            return Err(Fail::from("a divisor of a row is 0"));
        }
        assert_eq!(rt;
            Frac::cmp_quotient(a, b, c, d),
            want,
            "at {left:?} and {right:?}"
        );
    }
    Ok(())
}

#[test]
fn scaled_numbers_fit_exactly_at_the_edges(rt: HostRuntime) -> Result<(), Fail> {
    let large = (9223372036854775807, 1);
    let small = (1, 9223372036854775807);
    let rows = [
        (large, (2, 1), (2, 1), Some(large)),
        (large, large, large, Some(large)),
        (small, small, small, Some(small)),
        (large, (2, 1), (-2, 1), Some((-9223372036854775807, 1))),
        (small, (-1, 2), (-1, 2), Some(small)),
        (large, (1, 2), (9223372036854775807, 2), Some((1, 1))),
        ((-6, 35), (10, 21), (4, 49), Some((-1, 1))),
        ((0, 1), large, small, Some((0, 1))),
        ((0, 1), large, (0, 1), None),
        (large, (1, 1), (0, 1), None),
        (large, (2, 1), (1, 1), None),
        (large, (1, 1), (1, 2), None),
        (small, (1, 2), (-1, 1), None),
    ];
    for (left, right, below, want) in rows {
        let result = match frac(left)?.mul_div(frac(right)?, frac(below)?) {
            Some(number) => Some((number.num(), number.den())),
            None => None,
        };
        assert_eq!(rt; result, want, "at {left:?}, {right:?} and {below:?}");
    }
    Ok(())
}
