//! The details of a fault that a line of a text in Solomon's format shows.
ghost use Rattle.std.specs.Prelude.{◌≡◌, []};
ghost use Rattle.text_lines.specs.Words.{words_of};
ghost use Rattle.instance_read.specs.Rows.{rows_of};
ghost use Rattle.instance_read.specs.SolomonEvidence.{due_evidence, due_line_from, line_after, order_evidence, solomon_evidence};
ghost use Rattle.instance_read.specs.declared.evidence.SolomonLine.TheVariants.{Name};

use crate::evidence::{Evidence, Excerpt, Field, SolomonLine};
use crate::field_limits::{HEADER, customer_limits};
use crate::number_evidence::{numbers_evidence, word_at};
use crate::rows::NumberedLines;
use crate::scales::Scale;
use crate::{ReadFault, ReadFaultKind};

const FLEET_FIELDS: [Field; 2] = [Field::Fleet, Field::Capacity];

const CUSTOMER_FIELDS: [Field; 7] = [
    Field::Customer,
    Field::X,
    Field::Y,
    Field::Demand,
    Field::Ready,
    Field::Due,
    Field::Service,
];

/// Returns the details of a fault that its line shows.
pub fn solomon_evidence<'a>(scale: Scale, text: &'a [u8], fault: ReadFault) -> Evidence<'a>
    ensures { result ≡ solomon_evidence scale text.now fault }
{
    let (due, before, line) = due_line(text, fault.line);
    let line = line.bytes();
    match fault.kind {
        ReadFaultKind::MissingKey => Evidence::WrongWord(due, word_at(line, 0)),
        ReadFaultKind::TaskOrder => order_evidence(due, before.bytes(), line),
        ReadFaultKind::EmptyWindow => Evidence::Window {
            earliest: word_at(line, 4),
            latest: word_at(line, 5),
        },
        ReadFaultKind::Truncated => Evidence::MissingLine(due),
        kind => due_evidence(scale, kind, due, line),
    }
}

// Returns what is due as the line with this number, the line that is read before it, and the line itself. A
// line that does not exist is empty here.
fn due_line<'a>(text: &'a [u8], number: u64) -> (SolomonLine, Excerpt<'a>, Excerpt<'a>)
    ensures { result ≡ due_line_from number Name [] (rows_of text.now) }
{
    let mut due = SolomonLine::Name;
    let mut before: &[u8] = &[];
    for line in NumberedLines::new(text) {
        if line.number == number {
            return (due, Excerpt::new(before), Excerpt::new(line.text));
        }
        due = line_after(due);
        before = line.text;
    }
    (due, Excerpt::new(before), Excerpt::new(&[]))
}

// Returns the line that is due after this one.
fn line_after(due: SolomonLine) -> SolomonLine
    ensures { result ≡ line_after due }
{
    match due {
        SolomonLine::Name => SolomonLine::Vehicle,
        SolomonLine::Vehicle => SolomonLine::Number,
        SolomonLine::Number => SolomonLine::Fleet,
        SolomonLine::Fleet => SolomonLine::Customers,
        SolomonLine::Customers => SolomonLine::Columns,
        SolomonLine::Columns => SolomonLine::Depot,
        SolomonLine::Depot | SolomonLine::Customer => SolomonLine::Customer,
    }
}

// Returns the details of a bad number in the line that is due.
fn due_evidence<'a>(
    scale: Scale,
    kind: ReadFaultKind,
    due: SolomonLine,
    line: &'a [u8],
) -> Evidence<'a>
    ensures { result ≡ due_evidence scale kind (words_of line.now) due }
{
    match due {
        SolomonLine::Fleet => numbers_evidence(kind, line, &FLEET_FIELDS, &HEADER),
        SolomonLine::Depot | SolomonLine::Customer => {
            numbers_evidence(kind, line, &CUSTOMER_FIELDS, &customer_limits(scale))
        }
        _ => Evidence::Nothing,
    }
}

// Returns the number of a customer, and that of the customer before it, if there is one.
fn order_evidence<'a>(due: SolomonLine, before: &'a [u8], line: &'a [u8]) -> Evidence<'a>
    ensures { result ≡ order_evidence (words_of before.now) (words_of line.now) due }
{
    match due {
        SolomonLine::Customer => Evidence::CustomerOutOfOrder {
            customer: word_at(line, 0),
            before: word_at(before, 0),
        },
        _ => Evidence::FirstCustomer(word_at(line, 0)),
    }
}
