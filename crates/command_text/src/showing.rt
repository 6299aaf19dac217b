//! The answers to `show`, `print` and `instance`.
ghost use Rattle.std.specs.Prelude.{◌≡◌, ◌<◌, ◌≤◌, ◌*◌, ◌^◌, ◌++◌, [], true, false, IfOk, OnOk, IsErrOf, IsOkUnless, codes, decimal, string_bytes};
ghost use Rattle.plan_types.specs.declared.limits.TheConstants.{MAX_STEPS};
ghost use Rattle.route_sched.specs.Cost.{cost_of, unplanned_count};
ghost use Rattle.instance_text.specs.Formats.{has_format};
ghost use Rattle.instance_text.specs.Texts.{instance_text};
ghost use Rattle.instance_text.specs.declared.faults.WriteFault.TheVariants as instance_fault;
ghost use Rattle.sol_text.specs.Faults.{Spells};
ghost use Rattle.sol_text.specs.Written.{customers_text};
ghost use Rattle.sol_text.specs.declared.faults.WriteSolFault.TheVariants as write;
ghost use Rattle.std.specs.List.{flat_map};
ghost use Rattle.command_text.specs.Answers.{cost_text, line};
ghost use Rattle.command_text.specs.Showing.{counts_text, list_text, lists_text, print_text, show_text, solution_of, unplanned_text, work_text};

use command_core::{Job, unplanned_names};
use instance_text::{WriteFault, write_instance};
use itoa::Buffer;
use plan_audit::passing_is_local;
use plan_types::{Cost, OutOfMemory, Route};
use route_sched::plan_cost;
use sol_text::{WriteSolFault, write_sol};
use std::alloc::Global;
use std::marker::Model;

/// Whole lines as bytes, each with its line feed.
#[derive(Debug, Drop)]
pub struct Text {
    bytes: Vec<u8>,
}

impl Model for Text {
    ghost use Rattle.std.specs.Prelude.{List, ℕ};

    ghost Value = { List ℕ };

    ghost view = { λ t. t.bytes.items };
}

impl Text {
    fn new(alloc: Global) -> Text
        ensures { result ≡ [] }
    {
        Text {
            bytes: Vec::new(alloc),
        }
    }

    pub(crate) fn from_string(text: String) -> Text
        ensures { result ≡ string_bytes text }
    {
        Text {
            bytes: text.into_bytes(),
        }
    }

    /// Returns the bytes of the lines.
    pub fn as_bytes(&self) -> &[u8]
        ensures { result.now ≡ self.now }
    {
        self.bytes.as_slice()
    }

    fn put(&mut self, text: &str) -> Result<(), OutOfMemory>
        ensures { OnOk result (self.new ≡ self.old ++ text.now) }
    {
        self.bytes.extend_from_slice(text.as_bytes())
    }

    fn put_number(&mut self, n: u64) -> Result<(), OutOfMemory>
        ensures { OnOk result (self.new ≡ self.old ++ decimal n) }
    {
        let mut buffer = Buffer::new();
        self.put(buffer.format(n))
    }

    // Appends a name, which ends with a space, and a number.
    fn put_named(&mut self, name: &str, n: u64) -> Result<(), OutOfMemory>
        ensures { OnOk result (self.new ≡ self.old ++ (name.now ++ decimal n)) }
    {
        self.put(name)?;
        self.put_number(n)
    }

    fn put_line(&mut self, name: &str, n: u64) -> Result<(), OutOfMemory>
        ensures { OnOk result (self.new ≡ self.old ++ line (name.now ++ decimal n)) }
    {
        self.put_named(name, n)?;
        self.put("\n")
    }

    fn put_cost(&mut self, name: &str, cost: Cost) -> Result<(), OutOfMemory>
        ensures { OnOk result (self.new ≡ self.old ++ line (name.now ++ cost_text cost)) }
    {
        self.put_named(name, cost.unplanned)?;
        self.put_named(" ", cost.vehicles)?;
        self.put_named(" ", cost.distance)?;
        self.put("\n")
    }

    // Appends a space and the number of each stop.
    fn put_stops(&mut self, stops: &[u32]) -> Result<(), OutOfMemory>
        ensures { OnOk result (self.new ≡ self.old ++ customers_text stops.now) }
    {
        for stop in stops {
            self.put_named(" ", u64::from(*stop))?;
        }
        Ok(())
    }

    fn put_list(&mut self, key: &str, vehicle: u64, stops: &[u32]) -> Result<(), OutOfMemory>
        ensures { OnOk result (self.new ≡ self.old ++ list_text key.now vehicle stops.now) }
    {
        if stops.is_empty() {
            return Ok(());
        }
        self.put(key)?;
        self.put_named(" ", vehicle)?;
        self.put(":")?;
        self.put_stops(stops)?;
        self.put("\n")
    }

    fn put_lists(&mut self, key: &str, lists: &[Route]) -> Result<(), OutOfMemory>
        ensures { OnOk result (self.new ≡ self.old ++ lists_text key.now 1 lists.now) }
    {
        for (place, list) in lists.iter().enumerate() {
            self.put_list(key, place as u64 + 1, list.as_slice())?;
        }
        Ok(())
    }

    fn put_unplanned(&mut self, names: &[u32]) -> Result<(), OutOfMemory>
        ensures { OnOk result (self.new ≡ self.old ++ flat_map unplanned_text names.now) }
    {
        for name in names {
            self.put_line("unplanned ", u64::from(*name))?;
        }
        Ok(())
    }

    fn put_counts(&mut self, job: &Job) -> Result<(), OutOfMemory>
        ensures { OnOk result (self.new ≡ self.old ++ counts_text job.now) }
    {
        let problem = &job.problem;
        self.put_named("requests ", problem.requests.len() as u64)?;
        self.put_named(" next ", u64::from(problem.next_number))?;
        self.put("\n")?;
        self.put_named("steps ", job.steps)?;
        self.put(" place ")?;
        self.put_place(job.steps)?;
        self.put("\n")
    }

    // Appends 16 times this number of steps: the position of the next step's random words. The product may be
    // 2^64.
    fn put_place(&mut self, steps: u64) -> Result<(), OutOfMemory>
        requires { steps ≤ MAX_STEPS }
        ensures { OnOk result (self.new ≡ self.old ++ decimal (16 * steps)) }
    {
        let mut buffer = Buffer::new();
        self.put(buffer.format(16 * u128::from(steps)))
    }

    fn put_work(&mut self, job: &Job) -> Result<(), OutOfMemory>
        ensures { OnOk result (self.new ≡ self.old ++ work_text job.now) }
    {
        if job.deviation == 0 {
            return Ok(());
        }
        self.put_line("deviation ", u64::from(job.deviation))?;
        self.put_cost("work ", work_cost(job))
    }
}

/// Returns the lines of `show`: numbers, pins, routes, unplanned requests and costs. Takes linear time, except
/// that `plan_cost` searches the routes for the pickup of each delivery.
pub fn show(alloc: Global, job: &Job) -> Result<Text, OutOfMemory>
    ensures { IfOk result (λ text. text ≡ show_text job.now) }
{
    let unplanned = unplanned_names(alloc, &job.problem, job.plan.routes.as_slice())?;
    let mut text = Text::new(alloc);
    text.put_counts(job)?;
    text.put_lists("pin", job.pins.routes.as_slice())?;
    text.put_lists("vehicle", job.plan.routes.as_slice())?;
    text.put_unplanned(unplanned.as_slice())?;
    text.put_cost("cost ", incumbent_cost(job))?;
    text.put_work(job)?;
    Ok(text)
}

// Returns the cost of the incumbent.
fn incumbent_cost(job: &Job) -> Cost
    ensures { result ≡ cost_of job.now.problem job.now.plan }
{
    passing_is_local();
    plan_cost(&job.problem, &job.plan)
}

// Returns the cost of the working plan.
fn work_cost(job: &Job) -> Cost
    ensures { result ≡ cost_of job.now.problem job.now.work }
{
    passing_is_local();
    plan_cost(&job.problem, &job.work)
}

/// Returns the text of the plan as a solution, as `sol_text` writes it.
///
/// # Errors
///
/// `Unplanned` if a request is in no route, then `OutOfMemory`.
pub fn print(alloc: Global, job: &Job) -> Result<Text, WriteSolFault>
    ensures text { IfOk result (λ text. text ≡ print_text job.now) }
    // The text reads back as the used routes of the plan, with their distance.
    ensures spells { IfOk result (λ text. Spells text (solution_of job.now)) }
    ensures unplanned { let n = unplanned_count job.now.problem job.now.plan in 0 < n
        → IsErrOf result (write.Unplanned n) }
    ensures planned { unplanned_count job.now.problem job.now.plan ≡ 0
        → IsOkUnless result write.OutOfMemory }
{
    passing_is_local();
    match write_sol(alloc, &job.problem, &job.plan) {
        Ok(bytes) => Ok(Text { bytes }),
        Err(fault) => Err(fault),
    }
}

/// Returns the text of the problem as an instance, as `instance_text` writes it.
///
/// # Errors
///
/// `NoFormat` if no format can express the problem, then `OutOfMemory`.
pub fn print_instance(alloc: Global, job: &Job) -> Result<Text, WriteFault>
    ensures text { IfOk result (λ text. text ≡ instance_text job.now.problem) }
    ensures no_format { has_format job.now.problem ≡ false
        → IsErrOf result instance_fault.NoFormat }
    ensures format { has_format job.now.problem ≡ true
        → IsOkUnless result instance_fault.OutOfMemory }
{
    match write_instance(alloc, &job.problem) {
        Ok(bytes) => Ok(Text { bytes }),
        Err(fault) => Err(fault),
    }
}
