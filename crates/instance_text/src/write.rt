//! The writer of a problem's text.
ghost use Rattle.std.specs.Prelude.{◌≡◌, ◌++◌, true, false, IfOk, OnOk, IsErrOf, IsOkUnless};
ghost use Rattle.instance_read.specs.Readings.{SpellsInstance};
ghost use Rattle.instance_text.specs.Formats.{has_format, text_format};
ghost use Rattle.instance_text.specs.ReadBack.{as_read};
ghost use Rattle.instance_text.specs.Texts.{column_lines, end_lines, head_lines, instance_text, lilim_lines, lines_text, section_lines, solomon_lines, vehicle_lines, vrp_lines};
ghost use Rattle.instance_text.specs.declared.faults.WriteFault.TheVariants.{NoFormat, OutOfMemory};

use crate::faults::WriteFault;
use crate::formats::{has_format, text_format};
use crate::laws::texts_are_read_back;
use crate::lines::{Heading, put_heading, put_key_line, put_line};
use crate::stops::{StopLine, put_visits};
use instance_read::Layout;
use plan_types::Problem;
use std::alloc::{AllocError, Global};

/// Writes a problem as text, in the format that `text_format` returns. The stops are in ascending order of
/// number. A task or a customer has the number of its stop, while stop n is node n + 1 of a `.vrp` file. A
/// `.vrp` file does not contain the fleet.
///
/// # Errors
///
/// Returns `NoFormat` if the format can't express the problem (see `has_format`), then `OutOfMemory`.
pub fn write_instance(alloc: Global, problem: &Problem) -> Result<Vec<u8>, WriteFault>
    ensures text { IfOk result (λ text. text.items ≡ instance_text problem.now) }
    ensures spells { IfOk result (λ text. SpellsInstance (text_format problem.now) text.items
        (as_read problem.now)) }
    ensures no_format { has_format problem.now ≡ false → IsErrOf result NoFormat }
    ensures format { has_format problem.now ≡ true → IsOkUnless result OutOfMemory }
{
    if !has_format(problem) {
        return Err(WriteFault::NoFormat);
    }
    let text = write_lines(alloc, problem)?;
    // By this law, the text reads back as the problem.
    texts_are_read_back();
    Ok(text)
}

fn write_lines(alloc: Global, problem: &Problem) -> Result<Vec<u8>, AllocError>
    ensures { IfOk result (λ text. text.items ≡ instance_text problem.now) }
{
    match text_format(problem).layout {
        Layout::LiLim => write_lilim(alloc, problem),
        Layout::Solomon => write_solomon(alloc, problem),
        Layout::Vrp => write_vrp(alloc, problem),
    }
}

fn write_lilim(alloc: Global, problem: &Problem) -> Result<Vec<u8>, AllocError>
    ensures { IfOk result (λ text. text.items ≡ lines_text (lilim_lines problem.now)) }
{
    let mut text = Vec::new(alloc);
    put_line(
        &mut text,
        &[i64::from(problem.fleet), i64::from(problem.capacity), 1],
    )?;
    put_visits(&mut text, problem, StopLine::Task)?;
    Ok(text)
}

fn write_solomon(alloc: Global, problem: &Problem) -> Result<Vec<u8>, AllocError>
    ensures { IfOk result (λ text. text.items ≡ lines_text (solomon_lines problem.now)) }
{
    let mut text = Vec::new(alloc);
    put_vehicles(&mut text, problem)?;
    put_columns(&mut text)?;
    put_visits(&mut text, problem, StopLine::Customer)?;
    Ok(text)
}

fn put_vehicles(text: &mut Vec<u8>, problem: &Problem) -> Result<(), AllocError>
    ensures { OnOk result (text.new.items
        ≡ text.old.items ++ lines_text (vehicle_lines problem.now)) }
{
    put_heading(text, Heading::Title)?;
    put_heading(text, Heading::Blank)?;
    put_heading(text, Heading::Vehicles)?;
    put_heading(text, Heading::Amounts)?;
    put_line(
        text,
        &[i64::from(problem.fleet), i64::from(problem.capacity)],
    )
}

fn put_columns(text: &mut Vec<u8>) -> Result<(), AllocError>
    ensures { OnOk result (text.new.items ≡ text.old.items ++ lines_text column_lines) }
{
    put_heading(text, Heading::Blank)?;
    put_heading(text, Heading::Customers)?;
    put_heading(text, Heading::Columns)?;
    put_heading(text, Heading::Blank)
}

fn write_vrp(alloc: Global, problem: &Problem) -> Result<Vec<u8>, AllocError>
    ensures { IfOk result (λ text. text.items ≡ lines_text (vrp_lines problem.now)) }
{
    let mut text = Vec::new(alloc);
    put_head(&mut text, problem)?;
    put_section(&mut text, problem, Heading::Coordinates, StopLine::Node)?;
    put_section(&mut text, problem, Heading::Demands, StopLine::Demand)?;
    put_end(&mut text)?;
    Ok(text)
}

fn put_head(text: &mut Vec<u8>, problem: &Problem) -> Result<(), AllocError>
    ensures { OnOk result (text.new.items
        ≡ text.old.items ++ lines_text (head_lines problem.now)) }
{
    put_heading(text, Heading::Name)?;
    put_heading(text, Heading::ProblemType)?;
    put_key_line(text, Heading::Dimension, problem.requests.len() as u64 + 1)?;
    put_heading(text, Heading::Weights)?;
    put_key_line(text, Heading::Capacity, u64::from(problem.capacity))
}

fn put_section(
    text: &mut Vec<u8>,
    problem: &Problem,
    heading: Heading,
    row: StopLine,
) -> Result<(), AllocError>
    ensures { OnOk result (text.new.items
        ≡ text.old.items ++ lines_text (section_lines problem.now heading row)) }
{
    put_heading(text, heading)?;
    put_visits(text, problem, row)
}

fn put_end(text: &mut Vec<u8>) -> Result<(), AllocError>
    ensures { OnOk result (text.new.items ≡ text.old.items ++ lines_text end_lines) }
{
    put_heading(text, Heading::Depots)?;
    put_line(text, &[1])?;
    put_line(text, &[-1])?;
    put_heading(text, Heading::End)
}
