//! The order and sums of worths.

use spa::{COMPONENTS, Generous, Lex, Worth};
use std::cmp::Ordering;
use std::rt::HostRuntime;
use std::test::Fail;
use testing::judged::holds;

fn row(size: i64, first: i64, last: i64) -> [i64; COMPONENTS] {
    let mut places = [0; COMPONENTS];
    places[0] = size;
    places[1] = first;
    places[COMPONENTS - 1] = last;
    places
}

fn is_less<G: Worth>(a: G, b: G) -> bool {
    a.cmp(b) == Ordering::Less
}

#[test]
fn the_first_place_counts_first(_rt: HostRuntime) -> Result<(), Fail> {
    holds(is_less(Lex(row(1, 0, 9)), Lex(row(1, 1, 0))), "1 0 9")?;
    holds(is_less(Lex(row(1, 5, 5)), Lex(row(2, 0, 0))), "1 5 5")?;
    holds(!is_less(Lex(row(2, 1, 0)), Lex(row(2, 1, 0))), "2 1 0")?;
    let order = Lex(row(2, 0, 0)).cmp(Lex(row(1, 5, 5)));
    holds(order == Ordering::Greater, "2 0 0")
}

#[test]
fn of_a_generous_row_the_last_rank_counts_before_the_first(_rt: HostRuntime) -> Result<(), Fail> {
    let few_late = Generous(row(2, 0, 1));
    let many_late = Generous(row(2, 1, 2));
    holds(is_less(many_late, few_late), "2 1 2")?;
    holds(is_less(Generous(row(1, 0, 0)), many_late), "1 0 0")?;
    holds(!is_less(few_late, few_late), "2 0 1")
}

#[test]
fn sums_of_generous_rows_are_by_place(_rt: HostRuntime) -> Result<(), Fail> {
    let v = Generous(row(2, 0, 1));
    let w = Generous(row(2, 1, 2));
    holds(v.span() == 2, "a span of 2")?;
    holds(w.span() == 2, "a span of 2")?;
    let sum = v.plus(w);
    holds(sum.span() == 4, "a span of 4")?;
    let difference = sum.minus(w);
    let nothing = sum.minus(sum);
    holds(difference.cmp(v) == Ordering::Equal, "a difference")?;
    holds(nothing.cmp(Generous::zero()) == Ordering::Equal, "zero")
}

#[test]
fn sums_are_by_place(_rt: HostRuntime) -> Result<(), Fail> {
    let v = Lex(row(1, -7, 3));
    let w = Lex(row(1, 1, 1));
    holds(v.span() == 7, "a span of 7")?;
    holds(w.span() == 1, "a span of 1")?;
    let sum = v.plus(w);
    let difference = v.minus(w);
    holds(sum == Lex(row(2, -6, 4)), "a sum")?;
    holds(difference == Lex(row(0, -8, 2)), "a difference")?;
    holds(Lex::zero().span() == 0, "zero")
}
