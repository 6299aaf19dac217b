//! The lines of answers.
ghost use Rattle.std.specs.Prelude.{◌≡◌, ◌≤◌, ◌+◌, ◌++◌, [], codes, decimal, length};
ghost use Rattle.instance_read.specs.Names.{kind_name};
ghost use Rattle.route_sched.specs.Cost.{cost_of};
ghost use Rattle.command_text.specs.Answers.{at_text, broken_text, cost_text, next_text, no_text, pin_text, read_text, sol_fault_text, assignment_fault_text};
ghost use Rattle.command_text.specs.Answering.{progress_after};

use command_core::{Command, Job, Refusal};
use instance_read::{ReadFault, ReadFaultKind};
use itoa::Buffer;
use plan_types::Cost;
use sol_text::{SolFault, SolFaultKind};
use std::marker::Model;
use vehicle_assignment::AssignmentFault;

/// A short line without its line feed, in a fixed buffer, since an answer to an executed operation must not run
/// out of memory.
#[derive(Debug, Drop)]
pub struct ShortLine {
    bytes: [u8; 128],
    used: usize,
}

impl Model for ShortLine {
    ghost use Rattle.std.specs.Prelude.{List, ℕ};

    ghost Value = { List ℕ };

    ghost use Rattle.command_text.specs.Lines.{used_bytes, IsWithin};

    ghost view = { used_bytes };

    ghost invariant = { IsWithin };
}

impl ShortLine {
    fn new() -> ShortLine
        ensures { result ≡ [] }
    {
        ShortLine {
            bytes: [0; 128],
            used: 0,
        }
    }

    fn put(&mut self, text: &str)
        requires { length self.old + length text.now ≤ 128 }
        ensures text { self.new ≡ self.old ++ text.now }
        ensures len { length self.new ≡ length self.old + length text.now }
    {
        let end = self.used + text.len();
        self.bytes[self.used..end].copy_from_slice(text.as_bytes());
        self.used = end;
    }

    fn put_number(&mut self, n: u64)
        requires { length self.old + 20 ≤ 128 }
        ensures text { self.new ≡ self.old ++ decimal n }
        ensures len { length self.new ≤ length self.old + 20 }
    {
        let mut buffer = Buffer::new();
        self.put(buffer.format(n));
    }

    fn put_cost(&mut self, cost: Cost)
        requires { length self.old + 62 ≤ 128 }
        ensures { self.new ≡ self.old ++ cost_text cost }
    {
        self.put_number(cost.unplanned);
        self.put(" ");
        self.put_number(cost.vehicles);
        self.put(" ");
        self.put_number(cost.distance);
    }

    /// Returns the bytes of the line.
    pub fn as_bytes(&self) -> &[u8]
        ensures { result.now ≡ self.now }
    {
        &self.bytes[..self.used]
    }
}

/// The end of the answer to a command.
#[derive(Clone, Copy, Debug, PartialEq, Eq)]
pub enum Answer {
    Ok,
    /// The line is not a command.
    BadLine,
    /// The input ended before the announced bytes did.
    Truncated,
    /// The device failed in an earlier command.
    Broken,
    Refused(Refusal),
    /// The text of the instance has this fault.
    Read(ReadFault),
    /// The text of the solution does not become a plan, for this reason.
    AssignmentFault(AssignmentFault),
    /// There are requests in no route, so there is no solution to print.
    Unplanned,
    /// The instance has no times, so `freeze` can't decide which stops to pin.
    NoTimes,
    /// No format can express the requests as they are.
    NoFormat,
    /// The store can't be written any more.
    Spent,
    /// The device failed in this command.
    DeviceFault,
}

impl Answer {
    ghost use Rattle.command_text.specs.Answers.{answer_text};

    /// Returns the line of the answer: `ok`, `no NAME`, `no NAME LINE` or `fault device`. For a solution that
    /// breaks a rule there are two lines, the auditor's first.
    pub fn line(&self) -> ShortLine
        ensures { result ≡ answer_text self.now }
    {
        match self {
            Answer::Ok => words("ok"),
            Answer::BadLine => no_line("BadLine"),
            Answer::Truncated => no_line("Truncated"),
            Answer::Broken => no_line("Broken"),
            Answer::Refused(refusal) => no_line(refusal.name()),
            Answer::Read(fault) => fault_line(*fault),
            Answer::AssignmentFault(why) => assignment_fault_line(*why),
            Answer::Unplanned => no_line("Unplanned"),
            Answer::NoTimes => no_line("NoTimes"),
            Answer::NoFormat => no_line("NoFormat"),
            Answer::Spent => no_line("Spent"),
            Answer::DeviceFault => words("fault device"),
        }
    }
}

fn words(text: &str) -> ShortLine
    requires { length text.now ≤ 128 }
    ensures { result ≡ text.now }
{
    let mut line = ShortLine::new();
    line.put(text);
    line
}

fn no_line(name: &str) -> ShortLine
    requires { length name.now ≤ 32 }
    ensures text { result ≡ no_text name.now }
    ensures len { length result ≡ 3 + length name.now }
{
    let mut line = ShortLine::new();
    line.put("no ");
    line.put(name);
    line
}

fn fault_line(fault: ReadFault) -> ShortLine
    ensures { result ≡ read_text fault.kind fault.line }
{
    match fault.kind {
        ReadFaultKind::OutOfMemory => no_line("OutOfMemory"),
        _ => {
            let mut line = no_line(fault.name());
            line.put(" ");
            line.put_number(fault.line);
            line
        }
    }
}

// Returns the answer to the text of a solution that does not become a plan.
fn assignment_fault_line(why: AssignmentFault) -> ShortLine
    ensures { result ≡ assignment_fault_text why }
{
    match why {
        AssignmentFault::Sol(fault) => sol_fault_line(fault),
        AssignmentFault::Broken {
            rule,
            route,
            place,
            stop,
        } => {
            let mut line = broken_line(rule, route, place, stop);
            line.put("\nno NotAPlan");
            line
        }
        AssignmentFault::PinWithoutRoute(_) => no_line("Pinned"),
        AssignmentFault::OutOfMemory => no_line("OutOfMemory"),
    }
}

fn sol_fault_line(fault: SolFault) -> ShortLine
    ensures { result ≡ sol_fault_text fault.kind fault.line }
{
    match fault.kind {
        SolFaultKind::OutOfMemory => no_line("OutOfMemory"),
        _ => {
            let mut line = no_line(fault.name());
            line.put(" ");
            line.put_number(fault.line);
            line
        }
    }
}

fn broken_line(rule: u32, route: u64, place: u64, stop: u32) -> ShortLine
    ensures text { result ≡ broken_text rule route place stop }
    ensures len { length result ≤ 107 }
{
    let mut line = ShortLine::new();
    line.put("broken ");
    line.put_number(u64::from(rule));
    line.put(" route ");
    line.put_number(route);
    line.put(" place ");
    line.put_number(place);
    line.put(" stop ");
    line.put_number(u64::from(stop));
    line
}

/// Returns the line with the progress of a command that makes steps: `at STEPS UNPLANNED VEHICLES DISTANCE`. The
/// cost of the incumbent is known after each operation, so the caller passes it.
pub fn at_line(job: &Job, cost: Cost) -> ShortLine
    requires { cost ≡ cost_of job.now.problem job.now.plan }
    ensures { result ≡ at_text job.now }
{
    let mut line = ShortLine::new();
    line.put("at ");
    line.put_number(job.steps);
    line.put(" ");
    line.put_cost(cost);
    line
}

/// The line to print after an operation of a command that takes several.
#[derive(Clone, Copy, Debug, PartialEq, Eq)]
pub enum Progress {
    Nothing,
    /// The number of steps so far, and the cost (`at_line`).
    Stepped,
    /// The pin that was set (`pin_line`).
    Pinned { vehicle: u32, stops: u32 },
}

/// Returns the line to print after this operation, if it belongs to a command that takes several.
pub fn progress_after(command: &Command) -> Progress
    ensures { result ≡ progress_after command.now }
{
    match command {
        Command::Pin(vehicle, stops) => Progress::Pinned {
            vehicle: *vehicle,
            stops: *stops,
        },
        _ if command.makes_steps() => Progress::Stepped,
        _ => Progress::Nothing,
    }
}

/// Returns the line for a pin that a command has set: `pin V K`.
pub fn pin_line(vehicle: u32, stops: u32) -> ShortLine
    ensures { result ≡ pin_text vehicle stops }
{
    let mut line = ShortLine::new();
    line.put("pin ");
    line.put_number(u64::from(vehicle));
    line.put(" ");
    line.put_number(u64::from(stops));
    line
}

/// Returns the line with the number that the next request gets: `next N`. For a pair this is the number of its
/// pickup.
pub fn next_line(job: &Job) -> ShortLine
    ensures { result ≡ next_text job.now }
{
    let mut line = ShortLine::new();
    line.put("next ");
    line.put_number(u64::from(job.problem.next_number));
    line
}
