//! Assignment with quotas by cost: `network` over another worth than a round's. Houses have wards; students name wards with the minutes
//! of the way there; a ward takes a given number, and so does its house. As many as can be have a ward, and of such the way of all is
//! shortest.

use crate::admissions::Trial;
use spa::Worth;
use std::alloc::Global;
use std::cmp::Ordering;
use std::marker::Model;
use std::rt::HostRuntime;
use std::test::Fail;
use testing::judged::holds;

/// What a pair is worth.
#[derive(Clone, Copy)]
struct Saved(i128);

impl Model for Saved {
    ghost use Rattle.std.specs.Prelude.{ℤ};
    ghost use Rattle.std.proofs.Common.{refl};

    ghost Value = { ℤ };

    ghost view = { λ a. a.0 };

    ghost inverse = { λ v. record { 0 = v } };

    ghost inverse_ok = { λ a h. refl };
}

impl Worth for Saved {
    ghost use Rattle.rule_tests.specs.Inside.Costs.{cost_ops, cost_worth};

    ghost ops = { cost_ops };

    fn zero() -> Saved {
        Saved(0)
    }

    fn plus(self, other: Saved) -> Saved {
        Saved(self.0 + other.0)
    }

    fn minus(self, other: Saved) -> Saved {
        Saved(self.0 - other.0)
    }

    fn cmp(self, other: Saved) -> Ordering {
        if self.0 < other.0 {
            Ordering::Less
        } else if other.0 < self.0 {
            Ordering::Greater
        } else {
            Ordering::Equal
        }
    }

    fn span(self) -> u64 {
        ((self.0.unsigned_abs() + 18446744073709551615) / 18446744073709551616) as u64
    }

    ghost laws = { cost_worth };
}

/// More than all ways together: one more place is worth more than any minutes.
const PLACE: i128 = 1_000_000;

/// The wards that a student names, with the minutes of the way.
type Ways = &'static [(usize, i64)];

/// The places of each house; the house and the places of each ward; the students in order; and how many have a ward, and the minutes of
/// all their ways.
type Case = (
    &'static [u32],
    &'static [(usize, u32)],
    &'static [Ways],
    (usize, i64),
);

/// Returns a list with the worth of each ward.
fn worths(alloc: Global, ways: Ways) -> Result<Vec<(usize, Saved)>, Fail> {
    let mut list = Vec::new(alloc);
    for at in 0..ways.len() {
        let (ward, minutes) = ways[at];
        list.push((ward, Saved(PLACE.wrapping_sub(i128::from(minutes)))))?;
    }
    Ok(list)
}

/// Returns how many students have a ward, and the minutes of all their ways.
fn totals(trial: &Trial<Saved>, students: &[Ways]) -> Result<(usize, i64), Fail> {
    let mut placed: usize = 0;
    let mut minutes: i64 = 0;
    for student in 0..students.len() {
        let rank = trial.rank_of(student)?;
        if rank > 0 {
            placed = placed.wrapping_add(1);
            let way = students[student].get(rank - 1);
            minutes = minutes.wrapping_add(way.map_or(0, |(_ward, minutes)| *minutes));
        }
    }
    Ok((placed, minutes))
}

// The nearer ward goes to whom another costs more. One goes farther so that another has a place at all. A house is full before its
// wards are. And whoever comes last has the only place, where the way is shortest.
#[rattlefmt::skip]
static CASES: [Case; 4] = [
    (&[2],    &[(0, 1), (0, 1)],         &[&[(0, 10), (1, 20)], &[(0, 12), (1, 60)]], (2, 32)),
    (&[2],    &[(0, 1), (0, 1)],         &[&[(0, 5), (1, 90)], &[(0, 10)]],           (2, 100)),
    (&[1, 1], &[(0, 1), (0, 1), (1, 1)], &[&[(0, 5), (2, 50)], &[(1, 7)]],            (2, 57)),
    (&[1],    &[(0, 1)],                 &[&[(0, 30)], &[(0, 25)], &[(0, 20)]],       (1, 20)),
];

#[test]
fn ways_are_shortest(rt: HostRuntime) -> Result<(), Fail> {
    for (houses, wards, students, wanted) in CASES {
        let mut trial: Trial<Saved> = Trial::start(rt.alloc(), houses, wards)?;
        for ways in students {
            let _admitted = trial.admit(&worths(rt.alloc(), *ways)?)?;
        }
        holds(totals(&trial, students)? == wanted, "the wards")?;
    }
    Ok(())
}
