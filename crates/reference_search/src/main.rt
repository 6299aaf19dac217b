//! A slow reference for the search: it makes each step a second time, by the table of operators in
//! `docs/SEARCH.md`, with moves that return whole plans. After each step, the incumbent and the working plan must
//! be those of `search_step`, and at the end those of `search_steps`.
//!
//! A line of standard input is one search: a format, the path of an instance, whether its first plan is `best`
//! or `spread`, a seed, the number of pinned stops of each route, a deviation, the number of the first step,
//! and the number of steps. The gate runs the program and compares its output with `stdout`.
//!
//! Modules: `plans` (costs and insertions, the slow way), `steps` (a step by the table of operators).
//!
//! Proved: only that nothing panics.
#![tactic(auto)]

ghost use Rattle.std.specs.Prelude.{◌≡◌, ◌<◌, ◌^◌, true};
ghost use Rattle.plan_audit.specs.Passes.{passes};

mod plans;
mod steps;

use instance_read::{ReadFault, read_lilim, read_vrp};
use plan_types::{Cost, OutOfMemory, Pins, Plan, Problem};
use plans::{are_same, built, cost, pins_of};
use seeded_search::{Found, search_step, search_steps, words};
use std::alloc::Global;
use std::rt::Files;
use std::str::Split;
use std::{fs, io};
use steps::{copies_of, step};

/// A search whose steps are made twice.
#[derive(Clone, Copy)]
struct Task<'a> {
    is_vrp: bool,
    path: &'a str,
    is_spread: bool,
    seed: u64,
    pinned: usize,
    deviation: u32,
    first: u64,
    steps: u32,
}

fn main(rt: HostRuntime) -> io::Result<()> {
    for line in rt.lines(rt.alloc()) {
        let line = line?;
        println!(rt; "> {}", line.as_str())?;
        if let Some(task) = task_of(line.as_str()) {
            run(&rt, rt.alloc(), &task)?;
        }
    }
    Ok(())
}

fn task_of(line: &str) -> Option<Task<'_>> {
    let mut words = line.split(' ');
    let is_vrp = words.next()? == "vrp";
    let path = words.next()?;
    let is_spread = words.next()? == "spread";
    let [seed, pinned, deviation, first, steps] = numbers_of(words)?;
    Some(Task {
        is_vrp,
        path,
        is_spread,
        seed,
        pinned: pinned as usize,
        deviation: u32::try_from(deviation).ok()?,
        first,
        steps: u32::try_from(steps).ok()?,
    })
}

// Reads five numbers from the next five words.
fn numbers_of(mut words: Split<'_, char>) -> Option<[u64; 5]> {
    let mut numbers = [0; 5];
    for number in &mut numbers {
        *number = words.next()?.parse().ok()?;
    }
    Some(numbers)
}

fn run<R: Print + Files + Alloc>(rt: &R, alloc: Global, task: &Task) -> io::Result<()> {
    let text = fs::read(rt, task.path)?;
    print_read(rt, alloc, task, &read(alloc, task, &text))
}

// Prints the result of the search for the problem that was read.
fn print_read<R: Print>(
    rt: &R,
    alloc: Global,
    task: &Task,
    read: &Result<Problem, ReadFault>,
) -> io::Result<()> {
    match read {
        Ok(problem) => print_outcome(rt, compared(alloc, task, problem)),
        Err(fault) => println!(rt; "{fault}"),
    }
}

fn print_outcome<R: Print>(rt: &R, outcome: Result<Outcome, OutOfMemory>) -> io::Result<()> {
    match outcome {
        Ok(Outcome::Agree { changes, cost }) => {
            println!(rt;
                "alike; the working plan changed {changes} times; cost {} {} {}",
                cost.unplanned, cost.vehicles, cost.distance
            )
        }
        Ok(Outcome::Differ { step }) => println!(rt; "step {step} differs"),
        Err(_) => println!(rt; "out of memory"),
    }
}

fn read(alloc: Global, task: &Task, text: &[u8]) -> Result<Problem, ReadFault> {
    if task.is_vrp {
        read_vrp(alloc, text)
    } else {
        read_lilim(alloc, text)
    }
}

/// The result of comparing the search with the reference.
#[derive(Clone, Copy)]
enum Outcome {
    Agree { changes: u32, cost: Cost },
    Differ { step: u64 },
}

// Makes each step twice, beginning with the built plan, and compares the plans.
fn compared(alloc: Global, task: &Task, problem: &Problem) -> Result<Outcome, OutOfMemory> {
    let (pins, begun) = begin(alloc, task, problem)?;
    compared_from(alloc, task, problem, &pins, &begun)
}

// Makes each step twice, beginning with this plan, and compares the plans.
fn compared_from(
    alloc: Global,
    task: &Task,
    problem: &Problem,
    pins: &Pins,
    begun: &Plan,
) -> Result<Outcome, OutOfMemory> {
    let mut found = copies_of(begun, begun)?;
    compared_on(alloc, task, problem, pins, begun, &mut found)
}

// Makes each step twice, beginning with these plans. They become the plans of the last step on which both
// computations agree.
fn compared_on(
    alloc: Global,
    task: &Task,
    problem: &Problem,
    pins: &Pins,
    begun: &Plan,
    found: &mut Found,
) -> Result<Outcome, OutOfMemory> {
    let mut changes: u32 = 0;
    for done in 0..task.steps {
        let number = task.first.saturating_add(u64::from(done));
        match advance(alloc, task, problem, pins, found, number)? {
            Some(is_changed) => changes = changes.saturating_add(u32::from(is_changed)),
            None => return Ok(Outcome::Differ { step: number }),
        }
    }
    match searched(alloc, task, problem, pins, begun, found)? {
        Some(cost) => Ok(Outcome::Agree { changes, cost }),
        None => Ok(Outcome::Differ { step: task.first }),
    }
}

// Makes a step twice. If both results agree, returns whether the step changed the working plan.
fn advance(
    alloc: Global,
    task: &Task,
    problem: &Problem,
    pins: &Pins,
    found: &mut Found,
    number: u64,
) -> Result<Option<bool>, OutOfMemory> {
    match one_step(alloc, task, problem, pins, found, number)? {
        Some(next) => {
            let is_changed = !are_same(&next.work, &found.work);
            *found = next;
            Ok(Some(is_changed))
        }
        None => Ok(None),
    }
}

fn are_both_same(one: &Found, other: &Found) -> bool {
    are_same(&one.plan, &other.plan) && are_same(&one.work, &other.work)
}

// Returns the first plan of the task and its pins, the first stops of each route.
fn begin(alloc: Global, task: &Task, problem: &Problem) -> Result<(Pins, Plan), OutOfMemory> {
    let plan = built(alloc, problem, task.is_spread)?;
    let pins = pins_of(alloc, &plan, task.pinned)?;
    Ok((pins, plan))
}

// Returns the plans after the step, or `None` if `search_step` and the reference differ.
fn one_step(
    alloc: Global,
    task: &Task,
    problem: &Problem,
    pins: &Pins,
    found: &Found,
    number: u64,
) -> Result<Option<Found>, OutOfMemory> {
    if number >= 1 << 60 {
        return Ok(None);
    }
    let Some(best) = cost(alloc, problem, pins, &found.plan)? else {
        return Ok(None);
    };
    if cost(alloc, problem, pins, &found.work)?.is_none() {
        return Ok(None);
    }
    let words = words(task.seed, number);
    let slow = step(alloc, problem, pins, found, &best, task.deviation, &words)?;
    next_if_same(alloc, task, problem, pins, found, number, &slow)
}

// Returns the plans after the step, or `None` if `search_step` finds others than the reference.
fn next_if_same(
    alloc: Global,
    task: &Task,
    problem: &Problem,
    pins: &Pins,
    found: &Found,
    number: u64,
    slow: &Found,
) -> Result<Option<Found>, OutOfMemory>
    requires plan { passes problem.now pins.now.routes found.now.plan.routes ≡ true }
    requires work { passes problem.now pins.now.routes found.now.work.routes ≡ true }
    requires number { number < 2 ^ 60 }
{
    let next = search_step(
        alloc,
        problem,
        pins,
        &found.plan,
        &found.work,
        task.deviation,
        task.seed,
        number,
    )?;
    if are_both_same(slow, &next) {
        Ok(Some(next))
    } else {
        Ok(None)
    }
}

// Makes all steps in one call. Returns the cost of the incumbent, or `None` if the plans are not those in
// `found`.
fn searched(
    alloc: Global,
    task: &Task,
    problem: &Problem,
    pins: &Pins,
    plan: &Plan,
    found: &Found,
) -> Result<Option<Cost>, OutOfMemory> {
    let count = u64::from(task.steps);
    if task.first >= 1 << 60 || count > (1 << 60) - task.first {
        return Ok(None);
    }
    if cost(alloc, problem, pins, plan)?.is_none() {
        return Ok(None);
    }
    let all = search_steps(
        alloc,
        problem,
        pins,
        plan,
        plan,
        task.deviation,
        task.seed,
        task.first,
        count,
    )?;
    if are_both_same(&all, found) {
        cost(alloc, problem, pins, &all.plan)
    } else {
        Ok(None)
    }
}
