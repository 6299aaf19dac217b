//! The words of a line of numbers: how many there are, and the first that is at fault.
ghost use Rattle.std.specs.Prelude.{◌≡◌, slice_get, slice_index_or};
ghost use Rattle.std.specs.Option.{option_copied};
ghost use Rattle.text_lines.specs.Numbers.{number_of};
ghost use Rattle.text_lines.specs.Words.{words_of};
ghost use Rattle.instance_read.specs.Fields.{is_beyond, is_no_number, passes_test};
ghost use Rattle.instance_read.specs.WordEvidence.{faulty_word, is_beyond_some, is_faulty, numbers_evidence, stop_at, stop_in, word_at};

use crate::ReadFaultKind;
use crate::evidence::{Evidence, Excerpt, Field};
use crate::field_limits::Limits;
use text_lines::{Number, Words, number_to_u64, word_count};

/// Returns whether a word is a number outside these limits.
pub fn is_beyond(word: &[u8], limits: Limits) -> bool
    ensures { result ≡ passes_test (is_beyond limits) (number_of word.now) }
{
    match Number::parse(word) {
        Some(number) => number.within(limits.0, limits.1).is_none(),
        None => false,
    }
}

/// Returns the details of a fault in a line that should have these `fields`. `limits` may be shorter than
/// `fields`, since the last fields may have any value.
pub fn numbers_evidence<'a>(
    kind: ReadFaultKind,
    line: &'a [u8],
    fields: &[Field],
    limits: &[Limits],
) -> Evidence<'a>
    ensures { result ≡ numbers_evidence kind fields.now limits.now (words_of line.now) }
{
    match kind {
        ReadFaultKind::FieldCount => Evidence::Count {
            due: fields.len(),
            found: word_count(line),
        },
        _ => faulty_word(kind, line, fields, limits),
    }
}

// Returns the first word that can have this fault.
fn faulty_word<'a>(
    kind: ReadFaultKind,
    line: &'a [u8],
    fields: &[Field],
    limits: &[Limits],
) -> Evidence<'a>
    ensures { result ≡ faulty_word kind fields.now limits.now 0 (words_of line.now) }
{
    let mut place = 0;
    for word in Words::new(line) {
        let limits = limits.get(place).copied();
        if is_faulty(kind, limits, word) {
            return Evidence::Word {
                field: field_at(fields, place),
                word: Excerpt::new(word),
                limits,
            };
        }
        place += 1;
    }
    Evidence::Nothing
}

fn is_faulty(kind: ReadFaultKind, limits: Option<Limits>, word: &[u8]) -> bool
    ensures { result ≡ is_faulty kind limits word.now }
{
    match kind {
        ReadFaultKind::BadNumber => is_no_number(word),
        ReadFaultKind::Range | ReadFaultKind::TooManyStops => is_beyond_some(limits, word),
        // The node of a line is its first word.
        ReadFaultKind::NodeRepeated => true,
        _ => false,
    }
}

fn is_beyond_some(limits: Option<Limits>, word: &[u8]) -> bool
    ensures { result ≡ is_beyond_some limits word.now }
{
    match limits {
        Some(limits) => is_beyond(word, limits),
        None => false,
    }
}

fn is_no_number(word: &[u8]) -> bool
    ensures { result ≡ is_no_number word.now }
{
    Number::parse(word).is_none()
}

fn field_at(fields: &[Field], place: usize) -> Field
    ensures { result ≡ slice_index_or fields.now place Field.ExtraWord }
{
    fields.get(place).copied().unwrap_or(Field::ExtraWord)
}

/// Returns the word at this place, from 0, or an empty word if there is none.
pub fn word_at<'a>(line: &'a [u8], place: usize) -> Excerpt<'a>
    ensures { result ≡ word_at (words_of line.now) place }
{
    Excerpt::new(nth_word(line, place).unwrap_or(&[]))
}

fn nth_word(line: &[u8], place: usize) -> Option<&[u8]>
    ensures { option_copied result ≡ slice_get (words_of line.now) place }
{
    Words::new(line).nth(place)
}

/// Returns the number at this place if it is below 2^16, as stop numbers are, otherwise 0.
pub fn stop_at(line: &[u8], place: usize) -> u16
    ensures { result ≡ stop_at (words_of line.now) place }
{
    stop_in(word_at(line, place).bytes())
}

fn stop_in(word: &[u8]) -> u16
    ensures { result ≡ stop_in word.now }
{
    match number_to_u64(word) {
        Some(number) => u16::try_from(number).unwrap_or(0),
        None => 0,
    }
}
