//! A progress line, and the result of the steps.
ghost use Rattle.std.specs.Prelude.{◌≡◌, true, Ok, IfOk};
ghost use Rattle.std.specs.Io.KnownBytes.{Appends};
ghost use Rattle.route_sched.specs.Cost.{cost_of};
ghost use Rattle.command_types.specs.declared.states.State.TheVariants.{Loaded};
ghost use Rattle.command_text.specs.Answers.{at_text, line};

use crate::execute::into_job;
use command_core::{Job, Planner};
use command_text::at_line;
use plan_types::{Cost, OutOfMemory};
use std::io::Write;

/// The job after the last step, and whether the progress lines were written.
#[derive(Drop)]
pub(crate) struct EndedJob {
    pub job: Job,
    /// Whether each progress line was written.
    pub is_written: bool,
}

impl EndedJob {
    /// Returns the planner's job if the steps succeeded, and whether each progress line was written.
    pub fn of(
        planner: Planner,
        reported: Result<bool, OutOfMemory>,
    ) -> Result<EndedJob, OutOfMemory>
        ensures { IfOk result (λ ended. (planner ≡ Loaded ended.job) × (reported ≡ Ok ended.is_written)) }
    {
        let is_written = reported?;
        let job = into_job(planner)?;
        Ok(EndedJob { job, is_written })
    }
}

/// Writes a progress line and flushes it, unless an earlier line could not be written. `cost` is that of the
/// incumbent. Returns whether this line and all earlier ones were written.
pub(crate) fn write_progress<W: Write>(
    is_written: bool,
    job: &Job,
    cost: Cost,
    progress: &mut W,
) -> bool
    requires { cost ≡ cost_of job.now.problem job.now.plan }
    ensures { result ≡ true → (is_written ≡ true)
        × Appends (W.contents progress.old) (W.contents progress.new) (line (at_text job.now)) }
{
    if !is_written {
        return false;
    }
    write_line(progress, at_line(job, cost).as_bytes())
}

// Writes a line and flushes it. Returns whether it was written.
fn write_line<W: Write>(progress: &mut W, text: &[u8]) -> bool
    ensures { result ≡ true
        → Appends (W.contents progress.old) (W.contents progress.new) (line text.now) }
{
    if progress.write_all(text).is_err() || progress.write_all(b"\n").is_err() {
        return false;
    }
    progress.flush().is_ok()
}
