use super::*;
use std::alloc::{AllocGlobal, Global};
use std::process::Abort;
use std::test::Fail;

// More than one block of the second level has.
const NUMBERS: u64 = 3000;

// All numbers are 1,000,000.
fn filled(alloc: Global) -> Result<Minima, Fail> {
    let mut minima = Minima::new(alloc);
    for _ in 0..NUMBERS {
        minima.push(1_000_000)?;
    }
    Ok(minima)
}

fn lower(rt: &impl Abort, minima: &mut Minima, place: usize, number: u64) {
    assert!(rt; place < minima.len());
    minima.set(place, number);
}

fn expect_first(rt: &impl Abort, minima: &Minima, from: usize, most: u64, expected: Option<usize>) {
    assert!(rt; from <= minima.len());
    assert_eq!(rt; minima.first(from, most), expected);
}

#[test]
fn the_first_low_number_is_found_far_behind(rt: HostRuntime) -> Result<(), Fail> {
    let mut minima = filled(rt.alloc())?;
    expect_first(&rt, &minima, 0, 999_999, None);
    lower(&rt, &mut minima, 2999, 7);
    lower(&rt, &mut minima, 1500, 9);
    expect_first(&rt, &minima, 0, 9, Some(1500));
    expect_first(&rt, &minima, 0, 8, Some(2999));
    expect_first(&rt, &minima, 1501, 9, Some(2999));
    expect_first(&rt, &minima, 3000, 9, None);
    Ok(())
}

#[test]
fn a_number_that_rises_is_passed_over(rt: HostRuntime) -> Result<(), Fail> {
    let mut minima = filled(rt.alloc())?;
    lower(&rt, &mut minima, 40, 5);
    lower(&rt, &mut minima, 40, 1_000_001);
    expect_first(&rt, &minima, 0, 5, None);
    expect_first(&rt, &minima, 40, 1_000_000, Some(41));
    Ok(())
}
