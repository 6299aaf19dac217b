//! The reader of CVRPLIB's capacitated routing instances, in the layout of TSPLIB95.
//!
//! The reader also counts the lines after EOF. If a text is cut off, the fault is in the line after the last,
//! so the number of lines is needed anyway.
ghost use Rattle.std.specs.Prelude.{◌≡◌, ◌+◌, IfOk, IfErr, None, length};
ghost use Rattle.std.specs.Option.{option_map_or};
ghost use Rattle.text_lines.specs.Lines.{lines_of};
ghost use Rattle.instance_read.specs.Drafts.{IsDraft};
ghost use Rattle.instance_read.specs.Faults.{ReportsFirstFault};
ghost use Rattle.instance_read.specs.Vrp.{SpellsVrp, VrpFault, is_inside};
ghost use Rattle.instance_read.specs.VrpLines.{end_from};
ghost use Rattle.instance_read.specs.DraftLines.{HasNoLineFault, IsDraftOfLines, ReportsLine, draft_lacks_key, placed_rows};
ghost use Rattle.instance_read.specs.declared.scales.Scale.TheVariants.{One};
ghost use Rattle.instance_read.specs.declared.vrp_lines.Section.TheVariants.{Outside};

use crate::rows::NumberedLines;
use crate::scales::Scale;
use crate::vrp_draft::VrpDraft;
use crate::vrp_lines::{Key, Section};
use crate::vrp_problem::problem_of;
use crate::{ReadFault, ReadFaultKind};
use plan_types::Problem;
use std::alloc::Global;
use text_lines::Lines;

/// Reads a capacitated routing instance in CVRPLIB's format: the keys and sections of TSPLIB95, with TYPE CVRP
/// and EDGE_WEIGHT_TYPE EUC_2D.
///
/// Node 1 is the depot, node i+1 is customer i. Keys may be in any letter case, and sections in any order.
/// Other keys are ignored, and so is everything after EOF.
///
/// # Errors
///
/// Returns the first fault of the text, or `OutOfMemory`. Faults of single lines come before those of the whole
/// text. For one line, the order is `FieldCount`, `BadNumber`, `TooManyStops`, `Range`, `Unsupported`,
/// `MissingKey`, `NodeRepeated`, `DepotNotFirst`.
pub fn read_vrp(alloc: Global, text: &[u8]) -> Result<Problem, ReadFault>
    ensures value { IfOk result (SpellsVrp One text.now) }
    ensures fault { IfErr result (ReportsFirstFault (VrpFault One text.now)) }
{
    read_vrp_scaled(alloc, Scale::One, text)
}

/// Like `read_vrp`, for a text with this scale.
pub fn read_vrp_scaled(alloc: Global, scale: Scale, text: &[u8]) -> Result<Problem, ReadFault>
    ensures value { IfOk result (SpellsVrp scale text.now) }
    ensures fault { IfErr result (ReportsFirstFault (VrpFault scale text.now)) }
{
    let (draft, place) = read_lines(alloc, scale, NumberedLines::new(text))?;
    if is_inside(place) {
        return Err(ReadFault {
            line: line_after(text),
            kind: ReadFaultKind::Truncated,
        });
    }
    if lacks_key(&draft) {
        return Err(ReadFault {
            line: end_line(&draft, text),
            kind: ReadFaultKind::MissingKey,
        });
    }
    problem_of(alloc, &draft)
}

// Returns the data of the lines, and the section after the last one.
fn read_lines(
    alloc: Global,
    scale: Scale,
    lines: NumberedLines<'_>,
) -> Result<(VrpDraft, Section), ReadFault>
    ensures ok { let placed = placed_rows lines.entry in IfOk result (λ r. IsDraftOfLines placed r.0
        × IsDraft r.0
        × (r.0.scale ≡ scale)
        × HasNoLineFault scale placed
        × (r.1 ≡ end_from None Outside lines.entry)) }
    ensures err { IfErr result (ReportsLine scale (placed_rows lines.entry)) }
{
    let mut draft = VrpDraft::new(alloc, scale);
    let mut place = Section::Outside;
    for line in lines {
        match draft.take(alloc, place, &line) {
            Ok(next) => place = next,
            Err(kind) => return Err(ReadFault::of_line(line.number, kind)),
        }
    }
    Ok((draft, place))
}

fn is_inside(place: Section) -> bool
    ensures { result ≡ is_inside place }
{
    !matches!(place, Section::Outside | Section::AfterEnd)
}

// Returns whether a required key or section is missing.
fn lacks_key(draft: &VrpDraft) -> bool
    requires { IsDraft draft.now }
    ensures { result ≡ draft_lacks_key draft.now }
{
    !(draft.has_seen(Key::Dimension)
        && draft.has_seen(Key::Capacity)
        && draft.has_seen(Key::WeightType)
        && draft.has_seen(Key::Coordinates)
        && draft.has_seen(Key::Demands)
        && draft.has_seen(Key::Depots))
}

// Returns the line of EOF, or the one after the last.
fn end_line(draft: &VrpDraft, text: &[u8]) -> u64
    ensures { result ≡ option_map_or (λ line. line) draft.now.end (length (lines_of text.now) + 1) }
{
    match draft.end {
        Some(line) => line,
        None => line_after(text),
    }
}

fn line_after(text: &[u8]) -> u64
    ensures { result ≡ length (lines_of text.now) + 1 }
{
    Lines::new(text).count() as u64 + 1
}
