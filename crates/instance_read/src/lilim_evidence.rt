//! The details of a fault that a line of a Li-Lim text shows.
ghost use Rattle.std.specs.Prelude.{◌≡◌, [], find};
ghost use Rattle.std.specs.Option.{option_map};
ghost use Rattle.text_lines.specs.Words.{words_of};
ghost use Rattle.instance_read.specs.LilimEvidence.{is_negative, is_task_line, lilim_evidence, missing_line, back_reference, order_evidence, pair_evidence, partner_evidence, row_evidence, line_and_previous};
ghost use Rattle.instance_read.specs.RowViews.{row_view};
ghost use Rattle.instance_read.specs.Rows.{rows_of};

use crate::evidence::{Evidence, Excerpt, Field};
use crate::field_limits::{HEADER, task_limits};
use crate::number_evidence::{is_beyond, numbers_evidence, stop_at, word_at};
use crate::rows::{NumberedLine, NumberedLines};
use crate::scales::Scale;
use crate::{ReadFault, ReadFaultKind};
use plan_types::limits::MAX_DEMAND;
use text_lines::word_count;

const HEADER_FIELDS: [Field; 3] = [Field::Fleet, Field::Capacity, Field::Speed];

const TASK_FIELDS: [Field; 9] = [
    Field::Number,
    Field::X,
    Field::Y,
    Field::Demand,
    Field::Earliest,
    Field::Latest,
    Field::Service,
    Field::Pickup,
    Field::Delivery,
];

/// Returns the details of a fault that its line shows.
pub fn lilim_evidence<'a>(scale: Scale, text: &'a [u8], fault: ReadFault) -> Evidence<'a>
    ensures { result ≡ lilim_evidence scale text.now fault }
{
    let (before, line) = line_and_previous(text, fault.line);
    let line = line.bytes();
    match fault.kind {
        ReadFaultKind::TaskOrder => order_evidence(before.bytes(), line),
        ReadFaultKind::EmptyWindow => Evidence::Window {
            earliest: word_at(line, 4),
            latest: word_at(line, 5),
        },
        ReadFaultKind::PairMismatch => pair_evidence(text, line),
        ReadFaultKind::Truncated => missing_line(before.bytes()),
        kind => row_evidence(scale, kind, before.bytes(), line),
    }
}

// Returns the line that is read just before the line with this number, and the line with this number. A line
// that does not exist is empty here.
fn line_and_previous<'a>(text: &'a [u8], number: u64) -> (Excerpt<'a>, Excerpt<'a>)
    ensures { result ≡ line_and_previous number [] (rows_of text.now) }
{
    let mut before: &[u8] = &[];
    for line in NumberedLines::new(text) {
        if line.number == number {
            return (Excerpt::new(before), Excerpt::new(line.text));
        }
        before = line.text;
    }
    (Excerpt::new(before), Excerpt::new(&[]))
}

// Returns the details of a bad number in the first line, or in a task.
fn row_evidence<'a>(
    scale: Scale,
    kind: ReadFaultKind,
    before: &[u8],
    line: &'a [u8],
) -> Evidence<'a>
    ensures { result ≡ row_evidence scale kind (words_of line.now) before.now }
{
    match before {
        [] => numbers_evidence(kind, line, &HEADER_FIELDS, &HEADER),
        _ => numbers_evidence(kind, line, &TASK_FIELDS, &task_limits(scale)),
    }
}

// Returns the number of a task, and that of the task before it, if there is one.
fn order_evidence<'a>(before: &'a [u8], line: &'a [u8]) -> Evidence<'a>
    ensures { result ≡ order_evidence (words_of before.now) (words_of line.now) }
{
    if word_count(before) == TASK_FIELDS.len() {
        Evidence::TaskOutOfOrder {
            task: word_at(line, 0),
            before: word_at(before, 0),
        }
    } else {
        Evidence::FirstTask(word_at(line, 0))
    }
}

fn missing_line<'a>(before: &[u8]) -> Evidence<'a>
    ensures { result ≡ missing_line before.now }
{
    match before {
        [] => Evidence::NoHeader,
        _ => Evidence::NoDepot,
    }
}

// Returns why the task of a line is not half of a pair.
fn pair_evidence<'a>(text: &'a [u8], line: &'a [u8]) -> Evidence<'a>
    ensures { result ≡ pair_evidence (rows_of text.now) (words_of line.now) }
{
    let pickup = stop_at(line, 7);
    let delivery = stop_at(line, 8);
    match (pickup == 0, delivery == 0) {
        (true, true) => Evidence::NamesNone,
        (false, false) => Evidence::NamesBoth,
        (true, false) => partner_evidence(text, line, Field::Delivery, delivery),
        (false, true) => partner_evidence(text, line, Field::Pickup, pickup),
    }
}

// Returns what is wrong with the task that this field names.
fn partner_evidence<'a>(text: &'a [u8], line: &'a [u8], field: Field, number: u16) -> Evidence<'a>
    ensures { result ≡ partner_evidence (words_of line.now) field number
        (find (is_task_line number) (rows_of text.now)) }
{
    let Some(other) = task_line(text, number) else {
        return Evidence::NoSuchTask(field, number);
    };
    let (back, named) = back_reference(field, other.text);
    if named != stop_at(line, 0) {
        return Evidence::NamesOther {
            field,
            task: number,
            line: other.number,
            named,
            back,
        };
    }
    let demand = word_at(other.text, 3);
    let own = word_at(line, 3);
    let is_negative = is_negative(field, own.bytes());
    Evidence::Demands {
        field,
        task: number,
        line: other.number,
        demand,
        own,
        is_negative,
    }
}

// Returns the line of the task with this number.
fn task_line<'a>(text: &'a [u8], number: u16) -> Option<NumberedLine<'a>>
    ensures { option_map row_view result ≡ find (is_task_line number) (rows_of text.now) }
{
    for line in NumberedLines::new(text) {
        if is_task_line(number, &line) {
            return Some(line);
        }
    }
    None
}

fn is_task_line(number: u16, line: &NumberedLine<'_>) -> bool
    ensures { result ≡ is_task_line number (row_view line.now) }
{
    word_count(line.text) == TASK_FIELDS.len() && stop_at(line.text, 0) == number
}

// Returns the opposite field, and the task that a line names in it.
fn back_reference(field: Field, line: &[u8]) -> (Field, u16)
    ensures { result ≡ back_reference (words_of line.now) field }
{
    match field {
        Field::Pickup => (Field::Delivery, stop_at(line, 8)),
        _ => (Field::Pickup, stop_at(line, 7)),
    }
}

// Returns whether the task that names its partner in this field is a pickup with a negative demand.
fn is_negative(field: Field, demand: &[u8]) -> bool
    ensures { result ≡ is_negative demand.now field }
{
    match field {
        Field::Delivery => is_beyond(demand, (0, MAX_DEMAND)),
        _ => false,
    }
}
