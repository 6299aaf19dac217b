//! The numbers of a line, within their limits.
//!
//! A number may have any size until the limits of its field are checked. So a number of a hundred digits is
//! reported as out of range, not as a word that is not a number.
ghost use Rattle.std.specs.Prelude.{◌≡◌, ◌<◌, ℕ, drop, MatchOption, MatchResult, OnSome};
ghost use Rattle.text_lines.specs.Words.{words_of};
ghost use Rattle.instance_read.specs.Fields.{field, has_no_number};
ghost use Rattle.instance_read.specs.FieldValues.{HasNumbers, HasNoNumbers, HasValue, HasNoValue, IsValue, IsNoValue, range_kind, numbers_fault, numbers_kind};
ghost use Rattle.instance_read.specs.TaskFaults.{IsFirstKind};

use crate::ReadFaultKind;
use crate::field_limits::Limits;
use text_lines::{Number, Words, word_count};

/// Returns whether some word of a line is not a number.
pub fn has_no_number(line: &[u8]) -> bool
    ensures { result ≡ has_no_number (words_of line.now) }
{
    Words::new(line).any(|word| Number::parse(word).is_none())
}

/// Reads the numbers of a line of N words, each within its limits.
pub fn read_numbers<const N: usize>(
    line: &[u8],
    limits: &[Limits; N],
) -> Result<[i32; N], ReadFaultKind>
    ensures { let words = words_of line.now in MatchResult result
        (HasNumbers N limits.now words)
        (IsFirstKind (numbers_fault N limits.now words)) }
{
    match values(line, limits) {
        Some(values) => Ok(values),
        None => Err(numbers_kind(line, N)),
    }
}

// Returns the fault of a line that does not have `count` numbers within their limits.
fn numbers_kind(line: &[u8], count: usize) -> ReadFaultKind
    ensures { result ≡ numbers_kind count (words_of line.now) }
{
    if word_count(line) != count {
        return ReadFaultKind::FieldCount;
    }
    if has_no_number(line) {
        return ReadFaultKind::BadNumber;
    }
    ReadFaultKind::Range
}

// Returns the numbers of a line of N words if each is within its limits. A line without a fault is split into
// words only once.
fn values<const N: usize>(line: &[u8], limits: &[Limits; N]) -> Option<[i32; N]>
    ensures { let words = words_of line.now in
        MatchOption result (HasNoNumbers N limits.now words) (HasNumbers N limits.now words) }
{
    let mut words = Words::new(line);
    let values = next_values(&mut words, limits)?;
    match words.next() {
        None => Some(values),
        Some(_) => None,
    }
}

/// Returns the next N words as numbers, if there are N words and each is a number within its limits.
pub fn next_values<const N: usize>(words: &mut Words<'_>, limits: &[Limits; N]) -> Option<[i32; N]>
    ensures rest { OnSome result (words.new ≡ drop N words.old) }
    ensures values { MatchOption result ((k : ℕ) × (k < N) × HasNoValue limits.now words.old k)
        (λ values. (k : ℕ) → k < N → HasValue limits.now words.old values k) }
{
    let mut values = [0; N];
    for i in 0..N {
        values[i] = next_value(words, limits[i])?;
    }
    Some(values)
}

// Returns the next word as a number, if it is one and within these limits.
#[inline(always)]
fn next_value(words: &mut Words<'_>, limits: Limits) -> Option<i32>
    ensures rest { words.new ≡ drop 1 words.old }
    ensures value { let number = field words.old 0 in
        MatchOption result (IsNoValue limits number) (IsValue limits number) }
{
    words.next_number(limits.0, limits.1)
}

/// Returns the fault of a line whose first number is beyond its limits: `TooManyStops` if the number is greater
/// than `most`, otherwise `Range`.
pub fn range_kind(line: &[u8], most: u32) -> ReadFaultKind
    ensures { result ≡ range_kind most (words_of line.now) }
{
    let Some(first) = Words::new(line).next() else {
        return ReadFaultKind::Range;
    };
    match Number::parse(first) {
        Some(number) if number.is_above(most) => ReadFaultKind::TooManyStops,
        _ => ReadFaultKind::Range,
    }
}
