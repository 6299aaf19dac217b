//! `Reduce` on built plans, against the attempts of another program.
use super::{TestCommand, after, loaded};
use crate::tests::builders::{TestProblem, stops_of};
use command_core::State;
use std::alloc::Global;
use std::test::Fail;

/// The fleet of six pairs, a number of steps, and the plan after them.
const BUILT_AND_REDUCED: [(u32, u32, &[u32]); 6] = [
    // One vehicle: the attempt serves one more pair, and then other pairs instead.
    (1, 1, &[5, 6, 11, 1, 2, 9, 10, 12, 0]),
    (1, 5, &[3, 4, 9, 1, 2, 11, 12, 10, 0]),
    (1, 300, &[3, 4, 9, 1, 2, 11, 12, 10, 0]),
    // Six vehicles, of which the plan uses two. One vehicle can't replace them.
    (
        6,
        1,
        &[1, 2, 3, 4, 9, 10, 0, 5, 11, 12, 6, 7, 8, 0, 0, 0, 0, 0],
    ),
    (
        6,
        5,
        &[1, 2, 3, 4, 9, 10, 0, 5, 11, 12, 6, 7, 8, 0, 0, 0, 0, 0],
    ),
    (
        6,
        300,
        &[1, 2, 3, 4, 9, 10, 0, 5, 11, 12, 6, 7, 8, 0, 0, 0, 0, 0],
    ),
];

fn planned(alloc: Global, state: &State) -> Result<Vec<u32>, Fail> {
    match state {
        State::Loaded(job) => stops_of(alloc, &job.plan.routes),
        State::Empty => Ok(Vec::new(alloc)),
    }
}

// Returns the plan after building and this many steps.
fn reduced(alloc: Global, fleet: u32, count: u32) -> Result<Vec<u32>, Fail> {
    let steps = [TestCommand::Build, TestCommand::Reduce(count)];
    let state = after(alloc, loaded(alloc, TestProblem::SixPairs(fleet))?, &steps)?;
    let planned = planned(alloc, &state);
    drop(state);
    planned
}

#[test]
fn of_six_pairs(rt: HostRuntime) -> Result<(), Fail> {
    for (fleet, count, plan) in &BUILT_AND_REDUCED {
        assert!(rt; reduced(rt.alloc(), *fleet, *count)?.as_slice() == *plan);
    }
    Ok(())
}
