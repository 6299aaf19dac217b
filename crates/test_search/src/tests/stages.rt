//! The stages of annealing (`annealing_schedule`), worked out by hand.

use crate::tests::builders::{TestProblem, case_of, is_passing};
use annealing_schedule::{boundary, hundredths, mean_leg_share, stage_of};
use plan_audit::passing_is_local;
use plan_types::{Pins, Plan, Problem};
use std::alloc::Global;
use std::test::Fail;

/// Two customers in one direction, with one vehicle: a distance of 5 + 5 + 10, so a mean leg of 10.
const TWO: TestProblem = TestProblem::Customers(10, 1, &[(3, 4, 1), (6, 8, 1)]);

#[test]
fn stages_begin_at_twentieths(rt: HostRuntime) {
    assert!(rt; boundary(0, 1000, 0) == 0);
    assert!(rt; boundary(0, 1000, 19) == 950);
    assert!(rt; boundary(0, 7, 2) == 0);
    assert!(rt; boundary(0, 7, 3) == 1);
    assert!(rt; boundary(5, 27, 10) == 16);
    assert!(rt; boundary(9, 9, 7) == 9);
    let late = boundary(576_460_752_303_423_488, 1_152_921_504_606_846_976, 1);
    assert!(rt; late == 605_283_789_918_594_662);
}

#[test]
fn shares_fall_from_stage_to_stage(rt: HostRuntime) {
    assert!(rt; hundredths(0) == 150);
    assert!(rt; hundredths(1) == 122);
    assert!(rt; hundredths(10) == 19);
    assert!(rt; hundredths(19) == 3);
}

#[test]
fn steps_have_their_stage(rt: HostRuntime) {
    assert!(rt; stage_of(0, 1000, 49) == Some(0));
    assert!(rt; stage_of(0, 1000, 50) == Some(1));
    assert!(rt; stage_of(0, 1000, 999) == Some(19));
    assert!(rt; stage_of(0, 1000, 1000).is_none());
    assert!(rt; stage_of(5, 27, 4).is_none());
    assert!(rt; stage_of(0, 7, 0) == Some(2));
}

// Returns this share of the mean leg of a plan, in hundredths, or `None` if the plan does not pass.
fn share_of(
    alloc: Global,
    problem: &Problem,
    pins: &Pins,
    plan: &Plan,
    hundredths: u32,
) -> Result<Option<u32>, Fail> {
    passing_is_local();
    if !is_passing(alloc, problem, pins, plan)? {
        return Ok(None);
    }
    Ok(Some(mean_leg_share(problem, plan, hundredths)))
}

// Returns this share, in hundredths, of the mean leg of the plan in which one route serves both customers.
fn share_of_two(alloc: Global, hundredths: u32) -> Result<Option<u32>, Fail> {
    let case = case_of(alloc, TWO, &[], &[1, 2, 0])?;
    let mean_leg_share = share_of(alloc, &case.problem, &case.pins, &case.plan, hundredths);
    drop(case);
    mean_leg_share
}

/// A number of hundredths, and that share of the mean leg.
const SHARES: [(u32, u32); 4] = [(100, 10), (122, 12), (3, 0), (4_000_000_000, 400_000_000)];

#[test]
fn shares_are_hundredths_of_the_mean_leg(rt: HostRuntime) -> Result<(), Fail> {
    for (hundredths, mean_leg_share) in SHARES {
        assert!(rt; share_of_two(rt.alloc(), hundredths)? == Some(mean_leg_share));
    }
    Ok(())
}
