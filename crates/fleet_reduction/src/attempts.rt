//! Attempts with fewer vehicles, one after another.
ghost use Rattle.std.specs.Prelude.{◌≡◌, ◌+◌, ◌-◌, ◌<◌, ◌≤◌, ◌/◌, ◌^◌, ◌&&◌, if◌then◌else◌, not, true, None, Some, IfOk, MatchOption, length};
ghost use Rattle.plan_types.specs.declared.limits.TheConstants.{MAX_STEPS};
ghost use Rattle.plan_types.specs.declared.requests.Kind.TheVariants.{LiLim};
ghost use Rattle.plan_types.specs.Cost.{cost_at_most};
ghost use Rattle.plan_types.specs.Limits.{IsFleet};
ghost use Rattle.route_sched.specs.Cost.{cost_of};
ghost use Rattle.route_sched.specs.Route.{IsPlan};
ghost use Rattle.plan_audit.specs.Passes.{passes};
ghost use Rattle.anneal_search.specs.AttemptState.{AttemptState};
ghost use Rattle.anneal_search.specs.AttemptLaws.{IsAttemptResult};
ghost use Rattle.fleet_reduction.specs.Fleets.{marked, put_back};
ghost use Rattle.fleet_reduction.specs.Laws.{HasAttempts};
ghost use Rattle.fleet_reduction.specs.Attempts.{all_attempts, after_attempt, subfleet, first_attempts, can_continue, serves_all, limit, max_attempts, next, attempt, attempts_from};
ghost use Rattle.fleet_reduction.specs.ReductionStates.{IsBetweenAttempts, IsSubfleet, attempts_by};

use crate::fleets::{marked, picked, put_back, with_fleet};
use crate::laws::picked_pass;
use crate::subfleets::kept;
use anneal_search::{Reduction, attempt_steps, attempts_keep_passing};
use annealing_schedule::mean_leg_share;
use log::{Log, info};
use plan_audit::passing_is_local;
use plan_types::{
    Kind, OutOfMemory, Pins, Plan, Problem, costs_are_totally_ordered,
    costs_compare_lexicographically,
};
use route_sched::{plan_cost, used_count};
use seeded_search::SearchContext;
use std::alloc::Global;

/// The length by which a candidate may exceed the working plan in an attempt, in hundredths of the mean leg.
const ATTEMPT_HUNDREDTHS: u32 = 1000;

/// Runs attempts for at most `count` steps, from step number `step` on. Each attempt has fewer vehicles than the
/// plan uses or, if the plan leaves requests unplanned, all vehicles. Its plan replaces the present one if it costs
/// no more. Returns the plan and the number of the step after the last one. If no attempt is left, the attempts end
/// before all steps are made. In problems where vehicles do not count, there are no attempts.
///
/// The plan must pass with the pins, there must be one pin per vehicle, and the steps must be below `MAX_STEPS`.
/// Each attempt has a deviation of its own, so that of the context is not used. Each attempt is logged when it
/// ends.
///
/// Source: this project's own method, with absence counters (Christiaens and Vanden Berghe, 2020). Leaving the
/// requests of some routes out is a common way to find a smaller fleet (Bent and Van Hentenryck 2006; Nagata and
/// Bräysy 2009).
pub fn reduce_fleet<R: Log>(
    rt: &R,
    alloc: Global,
    context: &SearchContext,
    plan: &Plan,
    step: u64,
    count: u32,
) -> Result<Reduction, OutOfMemory>
    requires pins { length context.now.pins.now.routes ≡ context.now.problem.now.fleet }
    requires plan { let c = context.now in
        passes c.problem.now c.pins.now.routes plan.now.routes ≡ true }
    requires last { step + count ≤ MAX_STEPS }
    ensures { let c = context.now in IfOk result (HasAttempts
        (all_attempts c.problem.now c.pins.now.routes c.seed count step plan.now.routes)) }
{
    let problem = context.problem;
    let attempts = first_attempts(plan, step)?;
    let attempts = match problem.kind {
        Kind::LiLim => attempts_from(rt, alloc, context, attempts, count)?,
        Kind::Vrp => attempts,
    };
    Ok(Reduction {
        plan: attempts.plan,
        step: attempts.step,
    })
}

/// The state between two attempts.
#[derive(Drop)]
pub struct ReductionState {
    pub plan: Plan,
    /// The number of the next step.
    pub step: u64,
    /// The number of vehicles that the next attempt leaves out.
    pub size: u64,
}

// Returns the state before the first attempt, which leaves a sixteenth of the vehicles out, but at least one.
fn first_attempts(plan: &Plan, step: u64) -> Result<ReductionState, OutOfMemory>
    ensures { IfOk result (λ attempts. attempts_by attempts ≡ first_attempts plan.now.routes step) }
{
    Ok(ReductionState {
        plan: plan.copy()?,
        step,
        size: (used_count(plan.routes.as_slice()) / 16).max(1),
    })
}

// Runs all attempts within `count` steps.
fn attempts_from<R: Log>(
    rt: &R,
    alloc: Global,
    context: &SearchContext,
    attempts: ReductionState,
    count: u32,
) -> Result<ReductionState, OutOfMemory>
    requires pins { length context.now.pins.now.routes ≡ context.now.problem.now.fleet }
    requires kind { let p = context.now.problem.now in (p.kind ≡ LiLim) × IsFleet p.fleet }
    requires plan { let c = context.now in
        passes c.problem.now c.pins.now.routes attempts.plan.routes ≡ true }
    requires last { attempts.step + count ≤ MAX_STEPS }
    ensures { let p = context.now.problem.now in let pins = context.now.pins.now.routes in
        IfOk result (λ r. attempts_by r ≡ attempts_from p pins context.now.seed count
        (attempts.step + count) (max_attempts p pins count (attempts_by attempts))
        (attempts_by attempts)) }
{
    picked_pass();
    attempts_keep_passing();
    costs_compare_lexicographically();
    costs_are_totally_ordered();
    let end = attempts.step + u64::from(count);
    let mut attempts = attempts;
    while attempts.step < end && attempts.size > 0 {
        attempts = next(rt, alloc, context, attempts, count, end)?;
    }
    Ok(attempts)
}

// Runs the next attempt, or halves the number of vehicles to leave out if there is no attempt of this size.
fn next<R: Log>(
    rt: &R,
    alloc: Global,
    context: &SearchContext,
    attempts: ReductionState,
    count: u32,
    end: u64,
) -> Result<ReductionState, OutOfMemory>
    requires pins { let p = context.now.problem.now in
        (length context.now.pins.now.routes ≡ p.fleet) × IsFleet p.fleet }
    requires between { let c = context.now in
        IsBetweenAttempts c.problem.now c.pins.now.routes end (attempts_by attempts) }
    requires on { let c = context.now in
        can_continue c.problem.now c.pins.now.routes end (attempts_by attempts) ≡ true }
    requires last { end ≤ MAX_STEPS }
    requires few { end ≤ attempts.step + count }
    ensures { let c = context.now in IfOk result (λ r. attempts_by r
        ≡ next c.problem.now c.pins.now.routes c.seed count end (attempts_by attempts)) }
{
    picked_pass();
    attempts_keep_passing();
    let SearchContext { problem, pins, .. } = *context;
    let whole = serves_all(problem, &attempts.plan);
    let Some(subfleet) = subfleet(alloc, problem, pins, &attempts, whole)? else {
        return Ok(ReductionState {
            plan: attempts.plan,
            step: attempts.step,
            size: attempts.size / 2,
        });
    };
    let last = limit(whole, &attempts, count, end);
    let attempt = run_attempt(alloc, context, &attempts, last, &subfleet)?;
    after_attempt(rt, alloc, problem, attempts, &subfleet, attempt)
}

// Marks the vehicles of the next attempt, if there is one.
fn subfleet(
    alloc: Global,
    problem: &Problem,
    pins: &Pins,
    attempts: &ReductionState,
    whole: bool,
) -> Result<Option<Vec<bool>>, OutOfMemory>
    requires { whole ≡ serves_all problem.now attempts.now.plan.routes }
    ensures { let answer = subfleet problem.now pins.now.routes (attempts_by attempts.now) in IfOk result
        (λ found. MatchOption found (answer ≡ None) (λ marks. answer ≡ Some marks.items)) }
{
    if !whole {
        return Ok(Some(vec![in alloc; true; problem.fleet as usize]?));
    }
    let routes = attempts.plan.routes.as_slice();
    let used = used_count(routes);
    if used <= attempts.size || used - attempts.size < used_count(pins.routes.as_slice()) {
        return Ok(None);
    }
    let marks = kept(alloc, pins.routes.as_slice(), routes, used - attempts.size)?;
    Ok(Some(marks))
}

// Returns the step before which the next attempt ends. An attempt that leaves several vehicles out has at most an
// eighth of all steps.
fn limit(whole: bool, attempts: &ReductionState, count: u32, end: u64) -> u64
    requires below { attempts.now.step < end }
    requires last { end ≤ MAX_STEPS }
    ensures limit { result ≡ limit whole count end (attempts_by attempts.now) }
    ensures least { attempts.now.step ≤ result }
    ensures most { result ≤ end }
{
    if whole && attempts.size > 1 {
        end.min(attempts.step + u64::from(count / 8))
    } else {
        end
    }
}

// Runs the attempt with these vehicles.
fn run_attempt(
    alloc: Global,
    context: &SearchContext,
    attempts: &ReductionState,
    last: u64,
    subfleet: &[bool],
) -> Result<Reduction, OutOfMemory>
    requires pins { length context.now.pins.now.routes ≡ context.now.problem.now.fleet }
    requires plan { let c = context.now in
        passes c.problem.now c.pins.now.routes attempts.now.plan.routes ≡ true }
    requires subfleet { let c = context.now in
        IsSubfleet c.problem.now c.pins.now.routes (attempts_by attempts.now) subfleet.now }
    requires last { let first = attempts.now.step in
        (first ≤ last) × (first < MAX_STEPS) × (last ≤ MAX_STEPS) }
    requires few { last < attempts.now.step + 2 ^ 32 }
    ensures { let c = context.now in IfOk result (IsAttemptResult
        (attempt c.problem.now c.pins.now.routes c.seed last (attempts_by attempts.now)
        subfleet.now)) }
{
    passing_is_local();
    picked_pass();
    let SearchContext {
        problem,
        pins,
        seed,
        ..
    } = *context;
    let smaller = with_fleet(problem, marked(subfleet) as u32)?;
    let pins = Pins {
        routes: picked(alloc, subfleet, pins.routes.as_slice())?,
    };
    let plan = Plan {
        routes: picked(alloc, subfleet, attempts.plan.routes.as_slice())?,
    };
    let deviation = mean_leg_share(problem, &attempts.plan, ATTEMPT_HUNDREDTHS);
    let most = (last - attempts.step) as u32;
    let context = SearchContext {
        problem: &smaller,
        pins: &pins,
        deviation,
        seed,
    };
    attempt_steps(alloc, &context, &plan, attempts.step, most)
}

// Returns the state after an attempt with these vehicles.
fn after_attempt<R: Log>(
    rt: &R,
    alloc: Global,
    problem: &Problem,
    attempts: ReductionState,
    subfleet: &[bool],
    attempt: Reduction,
) -> Result<ReductionState, OutOfMemory>
    requires plan { IsPlan problem.now attempts.plan.routes }
    requires found { IsPlan problem.now (put_back subfleet.now attempt.plan.routes) }
    ensures { IfOk result (λ r. (pins : _) (end : AttemptState) → IsAttemptResult end attempt
        → attempts_by r ≡ after_attempt problem.now pins (attempts_by attempts) subfleet.now end) }
{
    let ReductionState { plan, size, .. } = attempts;
    let whole = serves_all(problem, &plan);
    let found = Plan {
        routes: put_back(alloc, subfleet, attempt.plan.routes.as_slice())?,
    };
    let vehicles = vehicles_before(problem, whole, &plan);
    log_attempt(rt, problem, subfleet, vehicles, &found, attempt.step);
    let size = next_size(problem, whole, size, &found);
    Ok(ReductionState {
        plan: cheaper(problem, found, plan),
        step: attempt.step,
        size,
    })
}

// Returns from how many vehicles those of the attempt are chosen: those that the plan uses, or all if the plan
// leaves requests unplanned.
fn vehicles_before(problem: &Problem, whole: bool, plan: &Plan) -> u64 {
    if whole {
        used_count(plan.routes.as_slice())
    } else {
        u64::from(problem.fleet)
    }
}

// Logs an attempt that ended before this step.
fn log_attempt<R: Log>(
    rt: &R,
    problem: &Problem,
    subfleet: &[bool],
    vehicles: u64,
    found: &Plan,
    step: u64,
)
    requires { IsPlan problem.now found.now.routes }
{
    let kept = marked(subfleet);
    let left_out = plan_cost(problem, found).unplanned;
    info!(rt;
        "an attempt with {kept} of {vehicles} vehicles ended before step {step} with {left_out} requests left out"
    );
}

// Returns the plan found if it costs no more than the present one, else the present one.
fn cheaper(problem: &Problem, found: Plan, plan: Plan) -> Plan
    requires found { IsPlan problem.now found.routes }
    requires plan { IsPlan problem.now plan.routes }
    ensures { result ≡ (if cost_at_most (cost_of problem.now found.routes)
        (cost_of problem.now plan.routes) then found else plan) }
{
    costs_compare_lexicographically();
    let cost = plan_cost(problem, &found);
    if cost <= plan_cost(problem, &plan) {
        found
    } else {
        plan
    }
}

// Returns how many vehicles the next attempt leaves out: half of `size` if this attempt failed, otherwise
// `size` again. An attempt fails if it starts from a plan without unplanned requests and its own plan has some.
fn next_size(problem: &Problem, whole: bool, size: u64, found: &Plan) -> u64
    requires { IsPlan problem.now found.now.routes }
    ensures { result ≡ (if whole && not (serves_all problem.now found.now.routes)
        then size / 2 else size) }
{
    if whole && !serves_all(problem, found) {
        size / 2
    } else {
        size
    }
}

// Returns whether the plan has all requests.
fn serves_all(problem: &Problem, plan: &Plan) -> bool
    requires { IsPlan problem.now plan.now.routes }
    ensures { result ≡ serves_all problem.now plan.now.routes }
{
    plan_cost(problem, plan).unplanned == 0
}
