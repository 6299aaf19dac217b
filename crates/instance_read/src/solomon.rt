//! The reader of Solomon's instances of vehicle routing with time windows.
ghost use Rattle.std.specs.Prelude.{◌≡◌, ◌∷◌, [], IfErr, IfOk, MatchResult, codes, length, ◌+◌};
ghost use Rattle.text_lines.specs.Lines.{lines_of};
ghost use Rattle.text_lines.specs.Words.{words_of};
ghost use Rattle.instance_read.specs.Faults.{IsFirstFault, ReportsFirstFault};
ghost use Rattle.instance_read.specs.HeadingLines.{ArePassed, HasFleet, IsFleetLine, IsPassed, IsStopped, truncated_after};
ghost use Rattle.instance_read.specs.RowViews.{row_view};
ghost use Rattle.instance_read.specs.Solomon.{LinesFault, SolomonFault, SpellsSolomon, begins_with, fleet_fault, heading, word_fault};
ghost use Rattle.instance_read.specs.TaskFaults.{LinesAbove};
ghost use Rattle.instance_read.specs.declared.scales.Scale.{Scale};
ghost use Rattle.instance_read.specs.declared.scales.Scale.TheVariants.{One};

use crate::field_limits::customer_limits;
use crate::lilim::{read_tasks, truncated};
use crate::rows::{NumberedLine, NumberedLines};
use crate::scales::Scale;
use crate::singles::problem_of_singles;
use crate::tasks::FleetLine;
use crate::vrp_lines::is_word;
use crate::{ReadFault, ReadFaultKind};
use plan_types::Problem;
use std::alloc::Global;
use text_lines::Words;

/// Reads a vehicle routing instance with time windows in Solomon's format, in which the instances of Gehring
/// and Homberger are published too.
///
/// The first line is the name, whatever it holds. The next lines have a first word in any letter case, or two
/// numbers: `VEHICLE`, `NUMBER`, the fleet and the capacity, `CUSTOMER`, `CUST`. Each other line is a customer:
/// `number x y demand ready due service`. Customer 0, the depot, comes first. Blank lines are skipped.
///
/// # Errors
///
/// Returns the first fault of the text, or `OutOfMemory`. Faults of single lines come before `Truncated`, which
/// means that there is no depot. For one line, the order is `FieldCount`, `BadNumber`, `TooManyStops`, `Range`,
/// `TaskOrder`, `EmptyWindow`; `MissingKey` is the only fault of a line that must begin with a word.
pub fn read_solomon(alloc: Global, text: &[u8]) -> Result<Problem, ReadFault>
    ensures value { IfOk result (SpellsSolomon One text.now) }
    ensures fault { IfErr result (ReportsFirstFault (SolomonFault One text.now)) }
{
    read_solomon_scaled(alloc, Scale::One, text)
}

/// Like `read_solomon`, for a text with this scale.
pub fn read_solomon_scaled(alloc: Global, scale: Scale, text: &[u8]) -> Result<Problem, ReadFault>
    ensures value { IfOk result (SpellsSolomon scale text.now) }
    ensures fault { IfErr result (ReportsFirstFault (SolomonFault scale text.now)) }
{
    let mut lines = NumberedLines::new(text);
    let header = read_heading(&mut lines, text)?;
    let tasks = read_tasks(alloc, scale, &customer_limits(scale), lines)?;
    match tasks.as_slice() {
        [] => Err(truncated(text)),
        [depot, customers @ ..] => problem_of_singles(alloc, header, depot, customers),
    }
}

// Reads the lines before the depot. `text` is the whole text.
fn read_heading(lines: &mut NumberedLines<'_>, text: &[u8]) -> Result<FleetLine, ReadFault>
    requires { LinesAbove 0 lines.old }
    ensures { MatchResult result
        (λ header. ArePassed heading lines.old lines.new × HasFleet lines.old header)
        (λ fault. (scale : Scale) → IsFirstFault
        (LinesFault scale (length (lines_of text.now) + 1) heading lines.old) fault) }
{
    next_line(lines, text)?;
    pass_word(lines, text, b"VEHICLE")?;
    pass_word(lines, text, b"NUMBER")?;
    let header = read_fleet(lines, text)?;
    pass_word(lines, text, b"CUSTOMER")?;
    pass_word(lines, text, b"CUST")?;
    Ok(header)
}

// Reads the line with fleet and capacity.
fn read_fleet(lines: &mut NumberedLines<'_>, text: &[u8]) -> Result<FleetLine, ReadFault>
    ensures passed { IfOk result (λ _. IsPassed fleet_fault lines.old lines.new) }
    ensures header { IfOk result (λ header. IsFleetLine lines.old header) }
    ensures stopped { IfErr result (IsStopped text.now fleet_fault lines.old) }
{
    let line = next_line(lines, text)?;
    match FleetLine::read_two(line.text) {
        Ok(header) => Ok(header),
        Err(kind) => Err(ReadFault {
            line: line.number,
            kind,
        }),
    }
}

// Reads a line whose first word must be this one.
fn pass_word(lines: &mut NumberedLines<'_>, text: &[u8], word: &[u8]) -> Result<(), ReadFault>
    ensures { MatchResult result
        (λ _. IsPassed (word_fault word.now) lines.old lines.new)
        (IsStopped text.now (word_fault word.now) lines.old) }
{
    let line = next_line(lines, text)?;
    if begins_with(line.text, word) {
        Ok(())
    } else {
        Err(ReadFault {
            line: line.number,
            kind: ReadFaultKind::MissingKey,
        })
    }
}

// Returns whether the first word of a line is this one, in any letter case.
fn begins_with(line: &[u8], word: &[u8]) -> bool
    ensures { result ≡ begins_with word.now (words_of line.now) }
{
    match Words::new(line).next() {
        Some(first) => is_word(first, word),
        None => false,
    }
}

// Returns the next line that is not blank, or the fault that the text ends here.
fn next_line<'a>(lines: &mut NumberedLines<'a>, text: &[u8]) -> Result<NumberedLine<'a>, ReadFault>
    ensures { MatchResult result
        (λ line. lines.old ≡ row_view line ∷ lines.new)
        (λ fault. (lines.old ≡ []) × (fault ≡ truncated_after text.now)) }
{
    match lines.next() {
        Some(line) => Ok(line),
        None => Err(truncated(text)),
    }
}
