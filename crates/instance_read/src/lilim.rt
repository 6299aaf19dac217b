//! The reader of Li and Lim's pickup and delivery instances.
ghost use Rattle.std.specs.Prelude.{◌≡◌, IfOk, IfErr, MatchResult, None, map};
ghost use Rattle.instance_read.specs.Faults.{ReportsFirstFault};
ghost use Rattle.instance_read.specs.HeadingLines.{truncated_after};
ghost use Rattle.instance_read.specs.Lilim.{LilimFault, SpellsLilim};
ghost use Rattle.instance_read.specs.Pairs.{task_in};
ghost use Rattle.instance_read.specs.TaskFaults.{AreStopLimits, HasNoStopFault, LinesAbove, ReportsStopFault};
ghost use Rattle.instance_read.specs.declared.scales.Scale.TheVariants.{One};

use crate::field_limits::{Limits, task_limits};
use crate::pairs::pair_up;
use crate::rows::NumberedLines;
use crate::scales::Scale;
use crate::tasks::{FleetLine, Task};
use crate::{ReadFault, ReadFaultKind};
use plan_types::Problem;
use std::alloc::Global;
use text_lines::Lines;

/// Reads a pickup and delivery instance with time windows in Li and Lim's format.
///
/// The first line has the number of vehicles, their capacity and a speed that is not used. Each other line is a
/// task: `number x y demand earliest latest service pickup delivery`. Task 0, the depot, comes first. Blank
/// lines are skipped.
///
/// # Errors
///
/// Returns the first fault of the text, or `OutOfMemory`. Faults of single lines come before those of the whole
/// text. For one line, the order is `FieldCount`, `BadNumber`, `TooManyStops`, `Range`, `TaskOrder`,
/// `EmptyWindow`.
pub fn read_lilim(alloc: Global, text: &[u8]) -> Result<Problem, ReadFault>
    ensures value { IfOk result (SpellsLilim One text.now) }
    ensures fault { IfErr result (ReportsFirstFault (LilimFault One text.now)) }
{
    read_lilim_scaled(alloc, Scale::One, text)
}

/// Like `read_lilim`, for a text with this scale.
pub fn read_lilim_scaled(alloc: Global, scale: Scale, text: &[u8]) -> Result<Problem, ReadFault>
    ensures value { IfOk result (SpellsLilim scale text.now) }
    ensures fault { IfErr result (ReportsFirstFault (LilimFault scale text.now)) }
{
    let mut lines = NumberedLines::new(text);
    let Some(first) = lines.next() else {
        return Err(truncated(text));
    };
    let header = match FleetLine::read(first.text) {
        Ok(header) => header,
        Err(kind) => {
            return Err(ReadFault {
                line: first.number,
                kind,
            });
        }
    };
    let tasks = read_tasks(alloc, scale, &task_limits(scale), lines)?;
    match tasks.as_slice() {
        [] => Err(truncated(text)),
        [depot, customers @ ..] => pair_up(alloc, header, depot, customers),
    }
}

/// Reads the tasks of these lines. `limits` are those of their fields.
pub fn read_tasks<const N: usize>(
    alloc: Global,
    scale: Scale,
    limits: &[Limits; N],
    lines: NumberedLines<'_>,
) -> Result<Vec<Task>, ReadFault>
    requires limits { AreStopLimits scale limits.now }
    requires lines { LinesAbove 0 lines }
    ensures ok { IfOk result (λ tasks. HasNoStopFault limits.now None lines.entry
        × (tasks.items ≡ map (task_in scale) lines.entry)) }
    ensures err { IfErr result (ReportsStopFault limits.now None lines.entry) }
{
    let mut tasks: Vec<Task> = Vec::new(alloc);
    for line in lines {
        let previous = tasks.last().copied();
        match Task::read(scale, limits, previous, line.number, line.text) {
            Ok(task) => tasks.push(task)?,
            Err(kind) => {
                return Err(ReadFault {
                    line: line.number,
                    kind,
                });
            }
        }
    }
    Ok(tasks)
}

/// Returns the fault of a text that is cut off. Its line is the one after the last.
pub fn truncated(text: &[u8]) -> ReadFault
    ensures { result ≡ truncated_after text.now }
{
    ReadFault {
        line: Lines::new(text).count() as u64 + 1,
        kind: ReadFaultKind::Truncated,
    }
}
