//! Absence counters: how often each request was left out of a candidate, by name, and the weight of several
//! requests.
ghost use Rattle.std.specs.Prelude.{◌≡◌, ℕ, ◌+◌, ◌<◌, ◌^◌, IfOk, length};
ghost use Rattle.move_ops.specs.Drafts.{draft_of};
ghost use Rattle.anneal_search.specs.AttemptState.{absences_of, counted, counted_once, weight};
ghost use Rattle.anneal_search.specs.Absences.{AreAtMost, is_left_out, left_out};

use move_ops::{Draft, request_named};
use plan_types::{OutOfMemory, Problem};
use std::alloc::Global;

/// Returns those names whose requests have no stop in the draft.
pub(crate) fn left_out(
    alloc: Global,
    problem: &Problem,
    draft: &Draft,
    names: &[u32],
) -> Result<Vec<u32>, OutOfMemory>
    ensures { IfOk result (λ left. left.items
        ≡ left_out problem.now (draft_of draft.now) names.now) }
{
    let mut left = Vec::with_capacity(alloc, names.len())?;
    for name in names {
        if is_left_out(problem, draft, *name) {
            left.push(*name)?;
        }
    }
    Ok(left)
}

fn is_left_out(problem: &Problem, draft: &Draft, name: u32) -> bool
    ensures { result ≡ is_left_out problem.now (draft_of draft.now) name }
{
    match request_named(problem, name) {
        Some(request) => !draft.is_planned(&request),
        None => false,
    }
}

/// Counts each of these requests once more.
pub(crate) fn count(absences: &mut Vec<u64>, names: &[u32])
    requires few { (most : ℕ) × AreAtMost most absences.old.items
        × (most + length names.now < 2 ^ 64) }
    ensures { absences.new.items ≡ counted absences.old.items names.now }
{
    count_in(absences, names);
}

fn count_in(absences: &mut [u64], names: &[u32])
    requires few { (most : ℕ) × AreAtMost most absences.old × (most + length names.now < 2 ^ 64) }
    ensures { absences.new ≡ counted absences.old names.now }
{
    for name in names {
        count_once(absences, *name);
    }
}

fn count_once(absences: &mut [u64], name: u32)
    requires { absences_of absences.old name + 1 < 2 ^ 64 }
    ensures { absences.new ≡ counted_once absences.old name }
{
    let name = name as usize;
    if name < absences.len() {
        absences[name] += 1;
    }
}

/// Returns the sum of the absence counters of these requests.
pub(crate) fn weight(absences: &[u64], names: &[u32]) -> u128
    ensures { result ≡ weight absences.now names.now }
{
    let mut sum = 0;
    for name in names {
        sum += u128::from(absences_of(absences, *name));
    }
    sum
}

fn absences_of(absences: &[u64], name: u32) -> u64
    ensures { result ≡ absences_of absences.now name }
{
    match absences.get(name as usize) {
        Some(count) => *count,
        None => 0,
    }
}
