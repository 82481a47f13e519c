use crate::{Frac, FracFault};
use std::cmp::Ordering;
use std::test::Fail;

fn parts(number: Option<Frac>) -> Option<(i64, i64)> {
    match number {
        Some(number) => Some((number.num(), number.den())),
        None => None,
    }
}

fn frac(parts: (i64, i64)) -> Result<Frac, Fail> {
    Ok(Frac::new(parts.0, parts.1).ok_or("a number of a row doesn't fit")?)
}

#[test]
fn numbers_are_made(rt: HostRuntime) {
    let rows = [
        ((i64::MIN, 2), Some((-4611686018427387904, 1))),
        ((i64::MIN, 1), None),
        ((i64::MIN, i64::MIN), Some((1, 1))),
        ((1, i64::MIN), None),
        ((2, i64::MIN), Some((-1, 4611686018427387904))),
        ((0, -5), Some((0, 1))),
        ((5, 0), None),
        ((6, -4), Some((-3, 2))),
    ];
    for ((num, den), want) in rows {
        assert_eq!(rt; parts(Frac::new(num, den)), want, "at {num} and {den}");
    }
}

#[test]
fn results_fit_exactly_at_the_edges(rt: HostRuntime) -> Result<(), Fail> {
    let rows = [
        (
            b'+',
            (9223372036854775807, 1),
            (0, 1),
            Some((9223372036854775807, 1)),
        ),
        (b'+', (9223372036854775807, 1), (1, 1), None),
        (b'+', (-9223372036854775807, 1), (-1, 1), None),
        (
            b'+',
            (9223372036854775806, 1),
            (1, 1),
            Some((9223372036854775807, 1)),
        ),
        (
            b'+',
            (1, 9223372036854775807),
            (1, 9223372036854775807),
            Some((2, 9223372036854775807)),
        ),
        (
            b'+',
            (1, 9223372036854775807),
            (1, 9223372036854775806),
            None,
        ),
        (b'+', (1, 2), (1, 3), Some((5, 6))),
        (
            b'-',
            (-9223372036854775807, 1),
            (0, 1),
            Some((-9223372036854775807, 1)),
        ),
        (b'-', (-9223372036854775807, 1), (1, 1), None),
        (
            b'-',
            (9223372036854775807, 1),
            (9223372036854775807, 1),
            Some((0, 1)),
        ),
        (b'-', (1, 2), (1, 3), Some((1, 6))),
        (
            b'*',
            (3037000499, 1),
            (3037000499, 1),
            Some((9223372030926249001, 1)),
        ),
        (b'*', (3037000500, 1), (3037000500, 1), None),
        (
            b'*',
            (-9223372036854775807, 1),
            (1, 9223372036854775807),
            Some((-1, 1)),
        ),
        (b'*', (1, 9223372036854775807), (1, 2), None),
        (b'*', (2, 3), (3, 2), Some((1, 1))),
        (
            b'*',
            (9223372036854775807, 2),
            (2, 9223372036854775807),
            Some((1, 1)),
        ),
        (b'/', (1, 1), (0, 1), None),
        (
            b'/',
            (9223372036854775807, 1),
            (9223372036854775807, 1),
            Some((1, 1)),
        ),
        (
            b'/',
            (1, 1),
            (1, 9223372036854775807),
            Some((9223372036854775807, 1)),
        ),
        (
            b'/',
            (1, 9223372036854775807),
            (9223372036854775807, 1),
            None,
        ),
        (
            b'/',
            (1, 2),
            (-1, 9223372036854775807),
            Some((-9223372036854775807, 2)),
        ),
        (b'/', (3, 4), (-3, 2), Some((-1, 2))),
    ];
    for (op, left, right, want) in rows {
        let a = frac(left)?;
        let b = frac(right)?;
        let result = match op {
            b'+' => a.add(b),
            b'-' => a.sub(b),
            b'*' => a.mul(b),
            _ => a.div(b),
        };
        assert_eq!(rt; parts(result), want, "at {op} of {left:?} and {right:?}");
    }
    Ok(())
}

#[test]
fn near_numbers_are_told_apart(rt: HostRuntime) -> Result<(), Fail> {
    let low = frac((9223372036854775805, 9223372036854775806))?;
    let high = frac((9223372036854775806, 9223372036854775807))?;
    assert_eq!(rt; low.cmp(high), Ordering::Less);
    assert_eq!(rt; high.cmp(low), Ordering::Greater);
    assert_eq!(rt; low.max(high), high);
    assert!(rt; low <= low && low < high);
    Ok(())
}

#[test]
fn number_texts_are_read(rt: HostRuntime) {
    let rows = [
        (b".5".as_slice(), Ok((1, 2))),
        (b"5.".as_slice(), Ok((5, 1))),
        (b"6/4".as_slice(), Ok((3, 2))),
        (b"-0".as_slice(), Ok((0, 1))),
        (b"+3e-2".as_slice(), Ok((3, 100))),
        (b"5.25".as_slice(), Ok((21, 4))),
        (b"-7/3".as_slice(), Ok((-7, 3))),
        (b"12e1".as_slice(), Ok((120, 1))),
        (b"1/0".as_slice(), Err(FracFault::Form)),
        (b".".as_slice(), Err(FracFault::Form)),
        (b"".as_slice(), Err(FracFault::Form)),
        (b"e5".as_slice(), Err(FracFault::Form)),
        (b"5e".as_slice(), Err(FracFault::Form)),
        (b"1/2/3".as_slice(), Err(FracFault::Form)),
        (b"--1".as_slice(), Err(FracFault::Form)),
        (b" 1".as_slice(), Err(FracFault::Form)),
        (b"1/00".as_slice(), Err(FracFault::Form)),
        (
            b"111111111111111111111111111111111".as_slice(),
            Err(FracFault::Long),
        ),
        (
            b"1/000000000000000000000000000000001".as_slice(),
            Err(FracFault::Long),
        ),
        (b"00000000000000000000000000000000".as_slice(), Ok((0, 1))),
        (
            b"9223372036854775807".as_slice(),
            Ok((9223372036854775807, 1)),
        ),
        (b"9223372036854775808".as_slice(), Err(FracFault::Range)),
        (b"-9223372036854775808".as_slice(), Err(FracFault::Range)),
        (b"1e18".as_slice(), Ok((1000000000000000000, 1))),
        (b"1e19".as_slice(), Err(FracFault::Range)),
        (b"1e-18".as_slice(), Ok((1, 1000000000000000000))),
        (b"1e-19".as_slice(), Err(FracFault::Range)),
        (
            b"9094947017729282379150390625e-40".as_slice(),
            Ok((1, 1099511627776)),
        ),
        (b"0e99999999999999999999999999999".as_slice(), Ok((0, 1))),
        (
            b"1e99999999999999999999999999999".as_slice(),
            Err(FracFault::Range),
        ),
        (
            b"1e-9999999999999999999999999999".as_slice(),
            Err(FracFault::Range),
        ),
        (b"1000e-21".as_slice(), Ok((1, 1000000000000000000))),
        (
            b"1/9223372036854775807".as_slice(),
            Ok((1, 9223372036854775807)),
        ),
        (b"1/9223372036854775808".as_slice(), Err(FracFault::Range)),
    ];
    for (text, want) in rows {
        let read = match Frac::read(text) {
            Ok(number) => Ok((number.num(), number.den())),
            Err(fault) => Err(fault),
        };
        assert_eq!(rt; read, want, "at {text:?}");
    }
}

#[test]
fn numbers_are_written(rt: HostRuntime) -> Result<(), Fail> {
    let alloc = rt.alloc();
    let rows = [
        ((0, 1), b"0".as_slice()),
        ((-3, 2), b"-3/2".as_slice()),
        ((9223372036854775807, 1), b"9223372036854775807".as_slice()),
        (
            (-9223372036854775807, 1),
            b"-9223372036854775807".as_slice(),
        ),
        (
            (1, 9223372036854775807),
            b"1/9223372036854775807".as_slice(),
        ),
    ];
    for (number, want) in rows {
        let mut out = Vec::new(alloc);
        frac(number)?.write(alloc, &mut out)?;
        assert_eq!(rt; out.as_slice(), want);
    }
    Ok(())
}
