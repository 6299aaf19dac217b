//! Decoding states.
ghost use Rattle.std.specs.Prelude.{◌≡◌, true, IfOk, OnOk, IfErr};
ghost use Rattle.std.specs.List.{list_all};
ghost use Rattle.plan_audit.specs.Passes.{feasible_alone, passes};
ghost use Rattle.command_types.specs.States.{IsState};
ghost use Rattle.command_types.specs.declared.states.State.{State};
ghost use Rattle.state_codec.specs.declared.version.Version.TheVariants.{One, Two};
ghost use Rattle.state_codec.specs.Parts.{job_in, IsWithin};
ghost use Rattle.state_codec.specs.DecodeResults.{Decodes, IsDecoded, IsRefused, IsUnlessOutOfMemory, ReportsRule};
ghost use Rattle.state_codec.specs.Bytes.{state_bytes};
ghost use Rattle.state_codec.specs.Limits.{IsStateOf};

use crate::fault::CodecFault;
use crate::parts::{Parts, whole_state_at};
use crate::rule_checks::{audit_plan, check_pins};
use crate::version::Version;
use command_types::{Job, State};
use plan_audit::{
    feasible_alone_decides_feasibility, passes_decides_the_verdict, pins_are_distinct_stops,
    verdicts_are_unique,
};
use plan_types::numbers_are_below_next_number;
use std::alloc::Global;

// Returns the job of these parts if its plan, pins and working plan break no rule.
fn audited_job(alloc: Global, parts: Parts) -> Result<Job, CodecFault>
    requires { IsWithin (job_in parts) }
    ensures ok { IfOk result (λ job. job ≡ job_in parts) }
    ensures err { IfErr result (ReportsRule (IsRefused (job_in parts))) }
{
    check_rules(alloc, &parts)?;
    let Parts {
        problem,
        pins,
        plan,
        work,
        deviation,
        seed,
        steps,
    } = parts;
    Ok(Job::from_parts(problem, pins, plan, work, deviation, seed, steps))
}

// Checks that the plan, the pins and the working plan break no rule.
fn check_rules(alloc: Global, parts: &Parts) -> Result<(), CodecFault>
    requires { IsWithin (job_in parts.now) }
    ensures plan { let j = job_in parts.now in OnOk result (passes j.problem j.pins j.plan ≡ true) }
    ensures pins { let j = job_in parts.now in
        OnOk result (list_all (feasible_alone j.problem) j.pins ≡ true) }
    ensures work { let j = job_in parts.now in OnOk result (passes j.problem j.pins j.work ≡ true) }
    ensures err { IfErr result (ReportsRule (IsRefused (job_in parts.now))) }
{
    let problem = &parts.problem;
    let pins = &parts.pins;
    audit_plan(alloc, problem, pins, &parts.plan)?;
    pins_are_distinct_stops();
    check_pins(problem, pins.routes.as_slice())?;
    audit_plan(alloc, problem, pins, &parts.work)?;
    Ok(())
}

/// Decodes a state.
///
/// # Errors
///
/// The first fault in reading order: `Truncated` if the bytes end before or inside a field that is due,
/// `BadField` at a field that its rule refuses or if a byte follows the end. For bytes that were read
/// completely, `PlanRefused` with the rule that the plan breaks, or else the first pin by itself, or else the
/// working plan. `OutOfMemory` at any time.
pub fn decode_state(alloc: Global, bytes: &[u8]) -> Result<State, CodecFault>
    ensures decodes { Decodes Two bytes.now result }
    ensures only { (state : State) → IsState state → IsStateOf Two state
        → bytes.now ≡ state_bytes Two state → IsUnlessOutOfMemory state result }
{
    decode_version(alloc, Version::Two, bytes)
}

/// Decodes a state of version 1, which has shorter numbers and lower limits. The state has deviation 0, and its
/// working plan is the plan.
///
/// # Errors
///
/// Fails like `decode_state`.
pub fn decode_state_v1(alloc: Global, bytes: &[u8]) -> Result<State, CodecFault>
    ensures decodes { Decodes One bytes.now result }
    ensures only { (state : State) → IsState state → IsStateOf One state
        → bytes.now ≡ state_bytes One state → IsUnlessOutOfMemory state result }
{
    decode_version(alloc, Version::One, bytes)
}

fn decode_version(alloc: Global, version: Version, bytes: &[u8]) -> Result<State, CodecFault>
    ensures decodes { Decodes version bytes.now result }
    ensures only { (state : State) → IsState state → IsStateOf version state
        → bytes.now ≡ state_bytes version state → IsUnlessOutOfMemory state result }
{
    numbers_are_below_next_number();
    verdicts_are_unique();
    passes_decides_the_verdict();
    feasible_alone_decides_feasibility();
    decode(alloc, version, bytes)
}

// Decodes a state. The contract describes the result in terms of what is read from the bytes.
fn decode(alloc: Global, version: Version, bytes: &[u8]) -> Result<State, CodecFault>
    ensures { IsDecoded version bytes.now result }
{
    match whole_state_at(alloc, version, bytes)? {
        None => Ok(State::Empty),
        Some(parts) => {
            let job = audited_job(alloc, parts)?;
            Ok(State::Loaded(job))
        }
    }
}
