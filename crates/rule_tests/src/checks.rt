//! The checker over faults that no round text can have.

use intake::read_round;
use spa::{Aim, COMPONENTS};
use std::rt::HostRuntime;
use std::test::Fail;
use testing::cells::body_of;
use testing::judged::{holds, well};
use verdict::{CheckFault, check};

/// Supervisor L with quota 5 offers P and Q with quota 1 and Z with quota 0. A lists P, Q and has Q; C lists Z, P and has
/// P. The prices prove it best.
const WORKED: &str =
    "S,L,5^nP,P,L,1^nP,Q,L,1^nP,Z,L,0^nC,A,P,Q^nC,C,Z,P^nM,A,Q^nM,C,P^nU,A,1,0,1,0,0^,^nU,C,1,-1,2,0,0^,^nY,P,0,1,-1,0,0^,^nY,Q,0,0,0,0,0^,^nY,Z,0,2,-2,0,0^,^nZ,L,0,0,0,0,0^,^n";

#[test]
fn what_no_text_can_say_is_a_fault(rt: HostRuntime) -> Result<(), Fail> {
    let alloc = rt.alloc();
    let text = body_of(alloc, WORKED)?;
    let mut parts = well(read_round(alloc, &text), "the worked text")?;
    let mut price = [0; COMPONENTS];
    price[1] = 1_000_001;
    parts.prices.supervisors = Vec::from_array(alloc, [price])?;
    let fault = check(&parts.instance, Aim::Greedy, &parts.matching, &parts.prices).err();
    holds(fault == Some(CheckFault::Shape), "a price of 1,000,001")?;
    parts.matching.places = Vec::from_array(alloc, [Some(2), Some(3)])?;
    let fault = check(&parts.instance, Aim::Greedy, &parts.matching, &parts.prices).err();
    let is_none = fault == Some(CheckFault::NotMatching);
    holds(is_none, "a place behind the list")
}
