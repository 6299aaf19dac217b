//! Problems: their contents, insertions and removals.
use crate::tests::builders::{depot_until, most_pairs, pair_at, problem_of, single, two_pairs};
use plan_types::limits::MAX_STOP_NUMBER;
use plan_types::{Kind, Problem, PutFault};
use std::alloc::Global;
use std::test::Fail;

// Returns a problem with a pair of stops 3 and 4, and a request of one stop, 1.
fn pair_and_single(alloc: Global) -> Result<Problem, Fail> {
    let requests = [pair_at(3, (3, 4), 100), single(1, (1, 1), 2, 100)];
    problem_of(alloc, Kind::LiLim, depot_until(100), 10, 2, &requests)
}

// Returns the request's name, the partner and the pickup that are found for a stop number, each 0 if there is
// none.
fn found(problem: &Problem, number: u32) -> [u32; 3] {
    let name = problem.name_of(number).unwrap_or(0);
    let partner = problem.partner_of(number).unwrap_or(0);
    [name, partner, problem.pickup_of(number).unwrap_or(0)]
}

/// A stop number, and the name, the partner and the pickup that are found for it.
const FOUND: [(u32, [u32; 3]); 5] = [
    (1, [1, 0, 0]),
    (2, [0, 0, 0]),
    (3, [3, 4, 0]),
    (4, [3, 3, 3]),
    (5, [0, 0, 0]),
];

// Returns whether these values are found for these stop numbers.
fn are_found(problem: &Problem, rows: &[(u32, [u32; 3])]) -> bool {
    for (number, want) in rows {
        if found(problem, *number) != *want {
            return false;
        }
    }
    true
}

// Returns the demand of the stop with this number.
fn demand(problem: &Problem, number: u32) -> Option<i32> {
    Some(problem.stop(number)?.demand)
}

/// A stop number, and the demand of the stop.
const DEMANDS: [(u32, Option<i32>); 5] = [
    (1, Some(2)),
    (2, None),
    (3, Some(1)),
    (4, Some(-1)),
    (5, None),
];

fn have_demands(problem: &Problem) -> bool {
    for (number, want) in &DEMANDS {
        if demand(problem, *number) != *want {
            return false;
        }
    }
    true
}

// Returns the name of the first request.
fn first_name(problem: &Problem) -> Option<u32> {
    let (name, _) = problem.requests.get_index(0)?;
    Some(*name)
}

// Returns whether the pair and the single stop are found by number, kept by name and counted.
fn is_pair_and_single(problem: &Problem) -> bool {
    are_found(problem, &FOUND)
        && have_demands(problem)
        && first_name(problem) == Some(1)
        && problem.next_number == 5
        && problem.requests.len() == 2
}

fn is_kept(alloc: Global) -> Result<bool, Fail> {
    Ok(is_pair_and_single(&pair_and_single(alloc)?))
}

#[test]
fn keeps_requests(rt: HostRuntime) -> Result<(), Fail> {
    assert!(rt; is_kept(rt.alloc())?);
    Ok(())
}

fn is_copied(alloc: Global) -> Result<bool, Fail> {
    Ok(is_pair_and_single(&pair_and_single(alloc)?.copy()?))
}

#[test]
fn copies_a_problem(rt: HostRuntime) -> Result<(), Fail> {
    assert!(rt; is_copied(rt.alloc())?);
    Ok(())
}

// Returns whether inserting is refused for a number that is in use, and for one that is too great.
fn refuses(problem: &mut Problem) -> bool {
    let taken = problem.put(single(4, (0, 0), 1, 100));
    let range = problem.put(single(40_001, (0, 0), 1, 100));
    taken == Err(PutFault::Taken) && range == Err(PutFault::Range)
}

fn pair_and_single_refuses(alloc: Global) -> Result<bool, Fail> {
    Ok(refuses(&mut pair_and_single(alloc)?))
}

#[test]
fn refuses_requests(rt: HostRuntime) -> Result<(), Fail> {
    assert!(rt; pair_and_single_refuses(rt.alloc())?);
    Ok(())
}

// Returns whether the second pair is removed only by its name, and only once.
fn takes_second(problem: &mut Problem) -> bool {
    let by_delivery = problem.take(4);
    let by_name = problem.take(3);
    by_delivery.is_none() && by_name == Some(pair_at(3, (2, 2), 50)) && problem.take(3).is_none()
}

fn is_taken(alloc: Global) -> Result<bool, Fail> {
    Ok(takes_second(&mut two_pairs(alloc, Kind::LiLim, 50)?))
}

#[test]
fn removes_a_request_by_name(rt: HostRuntime) -> Result<(), Fail> {
    assert!(rt; is_taken(rt.alloc())?);
    Ok(())
}

// Returns a problem of two pairs from which the second pair was removed.
fn first_pair(alloc: Global) -> Result<Problem, Fail> {
    let mut problem = two_pairs(alloc, Kind::LiLim, 50)?;
    problem.take(3);
    Ok(problem)
}

/// A stop number, and the name, the partner and the pickup that are found for it after the second of two pairs
/// was removed.
const LEFT: [(u32, [u32; 3]); 4] = [
    (1, [1, 2, 0]),
    (2, [1, 1, 1]),
    (3, [0, 0, 0]),
    (4, [0, 0, 0]),
];

fn is_first_pair(problem: &Problem) -> bool {
    are_found(problem, &LEFT) && problem.next_number == 5
}

fn is_left(alloc: Global) -> Result<bool, Fail> {
    Ok(is_first_pair(&first_pair(alloc)?))
}

#[test]
fn removes_no_other_request(rt: HostRuntime) -> Result<(), Fail> {
    assert!(rt; is_left(rt.alloc())?);
    Ok(())
}

// Returns the name, the partner and the pickup that are found for number 4, after a single with this number,
// which was free again, was inserted.
fn found_after_reuse(problem: &mut Problem) -> Result<[u32; 3], PutFault> {
    problem.put(single(4, (0, 0), 1, 100))?;
    Ok(found(problem, 4))
}

fn found_again(alloc: Global) -> Result<[u32; 3], Fail> {
    let mut problem = first_pair(alloc)?;
    Ok(found_after_reuse(&mut problem)?)
}

#[test]
fn reuses_a_free_number(rt: HostRuntime) -> Result<(), Fail> {
    assert!(rt; found_again(rt.alloc())? == [4, 0, 0]);
    Ok(())
}

// Returns whether the partner of each stop has the neighbouring number.
fn stand_in_pairs(problem: &Problem) -> bool {
    for number in 1..=MAX_STOP_NUMBER {
        let partner = if number % 2 == 1 {
            number + 1
        } else {
            number - 1
        };
        if problem.partner_of(number) != Some(partner) {
            return false;
        }
    }
    true
}

fn is_full(problem: &Problem) -> bool {
    stand_in_pairs(problem) && problem.requests.len() == 20_000 && problem.next_number == 40_001
}

fn is_copied_full(alloc: Global) -> Result<bool, Fail> {
    Ok(is_full(&most_pairs(alloc)?.copy()?))
}

#[test]
fn keeps_as_many_stops_as_there_are_numbers(rt: HostRuntime) -> Result<(), Fail> {
    assert!(rt; is_copied_full(rt.alloc())?);
    Ok(())
}

// Returns how many numbers belong to a stop.
fn stop_count(problem: &Problem) -> u32 {
    let mut count = 0u32;
    for number in 1..=MAX_STOP_NUMBER {
        if problem.stop(number).is_some() {
            count = count.saturating_add(1);
        }
    }
    count
}

// Returns how many numbers belong to a stop after these requests are removed, or 0 if one of the requests is
// missing.
fn count_without(problem: &mut Problem, names: &[u32]) -> u32 {
    for name in names {
        if problem.take(*name).is_none() {
            return 0;
        }
    }
    stop_count(problem)
}

fn most_but_three(alloc: Global) -> Result<u32, Fail> {
    Ok(count_without(&mut most_pairs(alloc)?, &[1, 20_001, 39_999]))
}

#[test]
fn removes_requests_from_the_largest_problem(rt: HostRuntime) -> Result<(), Fail> {
    assert!(rt; most_but_three(rt.alloc())? == 39_994);
    Ok(())
}
