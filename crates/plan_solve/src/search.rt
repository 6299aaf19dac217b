//! The search, with a progress line before its first step and after each twentieth of the steps.
ghost use Rattle.std.specs.Prelude.{◌≡◌, IfOk, OnOk};
ghost use Rattle.command_core.specs.Effects.{effect, searched};
ghost use Rattle.plan_solve.specs.Solved.{marks, search_lines, searched_with};
ghost use Rattle.plan_solve.specs.ProgressState.{HasMade, HasEnded, reported};
ghost use Rattle.command_types.specs.Job.{JobValue};
ghost use Rattle.command_types.specs.declared.states.State.TheVariants.{Loaded};

use crate::execute::{execute, incumbent_of};
use crate::marks::{TWENTIETHS, twentieths};
use crate::progress_lines::{EndedJob, write_progress};
use command_core::{Command, Job, Planner, State, searches_add_up};
use command_text::next_count;
use plan_types::OutOfMemory;
use std::alloc::Global;
use std::io::Write;

/// Makes this many steps of the search with this deviation, which is in the unit of distance.
pub(crate) fn search_with_progress<W: Write>(
    alloc: Global,
    begun: Job,
    deviation: u32,
    steps: u32,
    progress: &mut W,
) -> Result<EndedJob, OutOfMemory>
    ensures { IfOk result
        (HasEnded (W.contents progress.old) (W.contents progress.new)
        (searched_with deviation begun steps) (search_lines deviation begun steps)) }
{
    let mut planner = Planner::new(State::Loaded(begun));
    let reported = search_with(alloc, &mut planner, deviation, steps, progress);
    EndedJob::of(planner, reported)
}

// Sets the deviation and makes the steps, starting from the planner's job. Returns whether each progress line
// was written.
fn search_with<W: Write>(
    alloc: Global,
    planner: &mut Planner,
    deviation: u32,
    steps: u32,
    progress: &mut W,
) -> Result<bool, OutOfMemory>
    ensures { IfOk result (λ is_written. (begun : JobValue) → planner.old ≡ Loaded begun
        → HasMade (W.contents progress.old) (W.contents progress.new)
        (searched_with deviation begun steps) (search_lines deviation begun steps)
        planner.new is_written) }
{
    execute(alloc, planner, Command::Deviation(deviation))?;
    search_parts(alloc, planner, steps, progress)
}

// Makes the steps, starting from the planner's job. Returns whether each progress line was written.
fn search_parts<W: Write>(
    alloc: Global,
    planner: &mut Planner,
    steps: u32,
    progress: &mut W,
) -> Result<bool, OutOfMemory>
    ensures { IfOk result (λ is_written. (begun : JobValue) → planner.old ≡ Loaded begun
        → HasMade (W.contents progress.old) (W.contents progress.new)
        (searched begun steps) (reported begun (marks steps)) planner.new is_written) }
{
    searches_add_up();
    let (job, cost) = incumbent_of(planner)?;
    let mut is_written = write_progress(true, job, cost, progress);
    let mut done = 0;
    let mut parts = 0;
    while parts < TWENTIETHS {
        parts += 1;
        let mark = twentieths(steps, parts);
        if done < mark {
            search(alloc, planner, mark - done)?;
            let (job, cost) = incumbent_of(planner)?;
            is_written = write_progress(is_written, job, cost, progress);
            done = mark;
        }
    }
    Ok(is_written)
}

// Makes this many more steps of the search, at most 256 in one operation.
fn search(alloc: Global, planner: &mut Planner, steps: u32) -> Result<(), OutOfMemory>
    ensures { OnOk result (planner.new ≡ effect planner.old (Command.Search steps)) }
{
    searches_add_up();
    let mut left = steps;
    while left > 0 {
        let count = next_count(left);
        execute(alloc, planner, Command::Search(count))?;
        left -= u32::from(count);
    }
    Ok(())
}
