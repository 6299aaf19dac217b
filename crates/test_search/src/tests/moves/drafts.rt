//! A draft: a plan that is changed in place.
ghost use Rattle.std.specs.Prelude.{OnOk};
ghost use Rattle.move_ops.specs.Drafts.{IsDraftOf};

use crate::tests::builders::{Case, FOUR, TestProblem, case_of, stops_of};
use move_ops::Draft;
use plan_types::{Kind, OutOfMemory, Pins, Problem};
use std::alloc::Global;
use std::test::Fail;

/// An edit of a draft.
#[derive(Clone, Copy)]
enum Edit {
    Relocate(u32),
    /// The insertion of an unplanned request, if it adds less than this distance. If vehicles count, it uses no
    /// empty vehicle.
    PlaceBelow(u32, i64),
    Exchange(u32, u32),
    Cross(u64, u64, u64, u64),
}

// Makes the edit and returns whether it was possible.
fn make(draft: &mut Draft, problem: &Problem, pins: &Pins, edit: Edit) -> Result<bool, OutOfMemory>
    requires { IsDraftOf problem.now pins.now.routes draft.old }
    ensures { OnOk result (IsDraftOf problem.now pins.now.routes draft.new) }
{
    match edit {
        Edit::Relocate(name) => {
            let is_made = draft.remove(problem, pins, &[name])?;
            draft.place(problem, pins, name)?;
            Ok(is_made)
        }
        Edit::PlaceBelow(name, below) => draft.place_below(problem, pins, name, below),
        Edit::Exchange(a, b) => draft.exchange(problem, pins, a, b),
        Edit::Cross(a, a_cut, b, b_cut) => draft.cross(problem, pins, a, a_cut, b, b_cut),
    }
}

// Returns the distance after the edit if it can be predicted, otherwise 0.
fn predicted_distance(draft: &Draft, problem: &Problem, pins: &Pins, edit: Edit) -> u32
    requires { IsDraftOf problem.now pins.now.routes draft.now }
{
    let cost = match edit {
        Edit::Relocate(_) | Edit::PlaceBelow(_, _) => None,
        Edit::Exchange(a, b) => draft.exchange_cost(problem, pins, a, b),
        Edit::Cross(a, a_cut, b, b_cut) => { draft.cross_cost(problem, pins, a, a_cut, b, b_cut) }
    };
    match cost {
        Some(cost) => cost.distance.min(1_000) as u32,
        None => 0,
    }
}

// Returns the draft's routes after the edit, whether it was made, the distance then, and the predicted distance.
fn edited(
    alloc: Global,
    draft: &mut Draft,
    problem: &Problem,
    pins: &Pins,
    made: Edit,
) -> Result<Vec<u32>, Fail>
    requires { IsDraftOf problem.now pins.now.routes draft.old }
{
    let predicted_distance = predicted_distance(draft, problem, pins, made);
    let is_made = make(draft, problem, pins, made)?;
    let distance = draft.cost(problem, pins).distance.min(1_000) as u32;
    let mut stops = stops_of_draft(alloc, draft)?;
    stops.extend_from_slice(&[u32::from(is_made), distance, predicted_distance])?;
    Ok(stops)
}

fn stops_of_draft(alloc: Global, draft: &Draft) -> Result<Vec<u32>, Fail> {
    stops_of(alloc, &draft.plan(alloc)?.routes)
}

/// A problem, a plan, an edit, whether the draft is then accepted, and the expected values, as `left` returns
/// them.
type Example = (TestProblem, &'static [u32], Edit, bool, &'static [u32]);

/// Two customers at a distance of 3, and a third between them, at the depot.
const DETOUR: TestProblem = TestProblem::Customers(10, 1, &[(1, 1, 1), (-1, -1, 1), (0, 0, 1)]);

const RELOCATIONS_AND_EXCHANGES: [Example; 8] = [
    (
        FOUR,
        &[1, 0, 2, 3, 0, 4, 0, 0],
        Edit::Relocate(3),
        false,
        &[1, 0, 3, 2, 0, 4, 0, 0, 1, 54, 0, 1, 0, 2, 3, 0, 4, 0, 0],
    ),
    (
        FOUR,
        &[1, 0, 2, 3, 0, 4, 0, 0],
        Edit::Exchange(1, 4),
        false,
        &[4, 0, 2, 3, 0, 1, 0, 0, 1, 54, 54, 1, 0, 2, 3, 0, 4, 0, 0],
    ),
    (
        FOUR,
        &[1, 0, 2, 3, 0, 4, 0, 0],
        Edit::Exchange(1, 1),
        false,
        &[1, 0, 2, 3, 0, 4, 0, 0, 0, 54, 0, 1, 0, 2, 3, 0, 4, 0, 0],
    ),
    // Stops 3 and 1 change places: 6 + 6, and 10 + 6 + 10.
    (
        FOUR,
        &[1, 0, 2, 3, 0, 4, 0, 0],
        Edit::Exchange(1, 3),
        false,
        &[3, 0, 2, 1, 0, 4, 0, 0, 1, 48, 48, 1, 0, 2, 3, 0, 4, 0, 0],
    ),
    // Within one route nothing is predicted.
    (
        FOUR,
        &[1, 0, 2, 3, 0, 4, 0, 0],
        Edit::Exchange(3, 2),
        false,
        &[1, 0, 3, 2, 0, 4, 0, 0, 1, 54, 0, 1, 0, 2, 3, 0, 4, 0, 0],
    ),
    (
        TestProblem::Pairs,
        &[1, 3, 4, 2, 0],
        Edit::Relocate(3),
        false,
        &[1, 3, 4, 2, 0, 1, 4, 0, 1, 3, 4, 2, 0],
    ),
    // Without stop 1, the direct leg to stop 3 is too long.
    (
        TestProblem::Pairs,
        &[1, 3, 4, 2, 0],
        Edit::Relocate(1),
        false,
        &[1, 3, 4, 2, 0, 0, 4, 0, 1, 3, 4, 2, 0],
    ),
    (
        TestProblem::Pairs,
        &[1, 3, 4, 2, 0],
        Edit::Exchange(1, 3),
        false,
        &[1, 3, 4, 2, 0, 0, 4, 0, 1, 3, 4, 2, 0],
    ),
];

const CROSSINGS: [Example; 4] = [
    (
        FOUR,
        &[1, 0, 2, 3, 0, 4, 0, 0],
        Edit::Cross(2, 0, 3, 1),
        false,
        &[1, 0, 0, 4, 2, 3, 0, 0, 1, 44, 44, 1, 0, 2, 3, 0, 4, 0, 0],
    ),
    (
        FOUR,
        &[1, 0, 2, 3, 0, 4, 0, 0],
        Edit::Cross(2, 0, 3, 1),
        true,
        &[1, 0, 0, 4, 2, 3, 0, 0, 1, 44, 44, 1, 0, 0, 4, 2, 3, 0, 0],
    ),
    // One more vehicle serves stop 3: 10 + 10, and 6 + 6.
    (
        FOUR,
        &[1, 0, 2, 3, 0, 4, 0, 0],
        Edit::Cross(2, 1, 4, 0),
        false,
        &[1, 0, 2, 0, 4, 0, 3, 0, 1, 62, 62, 1, 0, 2, 3, 0, 4, 0, 0],
    ),
    // A cut after the end.
    (
        FOUR,
        &[1, 0, 2, 3, 0, 4, 0, 0],
        Edit::Cross(2, 3, 1, 0),
        false,
        &[1, 0, 2, 3, 0, 4, 0, 0, 0, 54, 0, 1, 0, 2, 3, 0, 4, 0, 0],
    ),
];

const PLACINGS: [Example; 8] = [
    // In the used route, stop 2 adds 1 + 3 + 1 - 2. Another vehicle would add 2, and is used only if vehicles
    // do not count.
    (
        TestProblem::Opposite(Kind::LiLim),
        &[0, 1, 0, 0],
        Edit::PlaceBelow(2, 4),
        false,
        &[0, 2, 1, 0, 0, 1, 5, 0, 0, 1, 0, 0],
    ),
    (
        TestProblem::Opposite(Kind::LiLim),
        &[0, 1, 0, 0],
        Edit::PlaceBelow(2, 3),
        false,
        &[0, 1, 0, 0, 0, 2, 0, 0, 1, 0, 0],
    ),
    (
        TestProblem::Opposite(Kind::LiLim),
        &[0, 0, 0],
        Edit::PlaceBelow(2, 1_000),
        false,
        &[0, 0, 0, 0, 0, 0, 0, 0, 0],
    ),
    (
        TestProblem::Opposite(Kind::Vrp),
        &[0, 1, 0, 0],
        Edit::PlaceBelow(2, 3),
        false,
        &[2, 0, 1, 0, 0, 1, 4, 0, 0, 1, 0, 0],
    ),
    (
        TestProblem::Opposite(Kind::Vrp),
        &[0, 1, 0, 0],
        Edit::PlaceBelow(2, 2),
        false,
        &[0, 1, 0, 0, 0, 2, 0, 0, 1, 0, 0],
    ),
    // A leg via the depot is shorter: 1 + 1 instead of 3.
    (
        DETOUR,
        &[1, 2, 0],
        Edit::PlaceBelow(3, 0),
        false,
        &[1, 3, 2, 0, 1, 4, 0, 1, 2, 0],
    ),
    (
        DETOUR,
        &[1, 2, 0],
        Edit::PlaceBelow(3, -1),
        false,
        &[1, 2, 0, 0, 5, 0, 1, 2, 0],
    ),
    // A planned request.
    (
        FOUR,
        &[1, 0, 2, 3, 0, 4, 0, 0],
        Edit::PlaceBelow(3, 1_000),
        false,
        &[1, 0, 2, 3, 0, 4, 0, 0, 0, 54, 0, 1, 0, 2, 3, 0, 4, 0, 0],
    ),
];

// Makes the edit, accepts the draft if `is_taken` and otherwise discards it. Returns the values of the edit and
// the routes at the end.
fn left(
    alloc: Global,
    draft: &mut Draft,
    problem: &Problem,
    pins: &Pins,
    made: Edit,
    is_taken: bool,
) -> Result<Vec<u32>, Fail>
    requires { IsDraftOf problem.now pins.now.routes draft.old }
{
    let mut stops = edited(alloc, draft, problem, pins, made)?;
    if is_taken {
        draft.accept();
    }
    draft.discard();
    stops.extend_from_slice(&stops_of_draft(alloc, draft)?)?;
    Ok(stops)
}

// Builds a draft of the plan, makes the edit as `left` does, and returns the values of `left`.
fn edit_result(alloc: Global, case: &Case, made: Edit, is_taken: bool) -> Result<Vec<u32>, Fail> {
    if !case.is_passing(alloc)? {
        return Ok(Vec::new(alloc));
    }
    let Case {
        problem,
        pins,
        plan,
    } = case;
    let mut draft = Draft::build(alloc, problem, pins, plan)?;
    let left = left(alloc, &mut draft, problem, pins, made, is_taken);
    drop(draft);
    left
}

fn edit_result_of(alloc: Global, example: &Example) -> Result<Vec<u32>, Fail> {
    let (given, plan, made, is_taken, _) = *example;
    let case = case_of(alloc, given, &[], plan)?;
    let edit_result = edit_result(alloc, &case, made, is_taken);
    drop(case);
    edit_result
}

// Returns whether each example has the expected values.
fn are_edited(alloc: Global, examples: &[Example]) -> Result<bool, Fail> {
    for example in examples {
        if edit_result_of(alloc, example)?.as_slice() != example.4 {
            return Ok(false);
        }
    }
    Ok(true)
}

#[test]
fn drafts_relocated_and_exchanged(rt: HostRuntime) -> Result<(), Fail> {
    assert!(rt; are_edited(rt.alloc(), &RELOCATIONS_AND_EXCHANGES)?);
    Ok(())
}

#[test]
fn drafts_crossed(rt: HostRuntime) -> Result<(), Fail> {
    assert!(rt; are_edited(rt.alloc(), &CROSSINGS)?);
    Ok(())
}

#[test]
fn drafts_with_a_request_more(rt: HostRuntime) -> Result<(), Fail> {
    assert!(rt; are_edited(rt.alloc(), &PLACINGS)?);
    Ok(())
}
