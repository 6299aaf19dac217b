//! The lines of a solution text.

ghost use Rattle.std.specs.Prelude.{◌≡◌, drop, map};
ghost use Rattle.std.specs.Char.{to_ascii_lowercase};
ghost use Rattle.std.specs.List.{prefix_len};
ghost use Rattle.std.specs.Option.{option_copied};
ghost use Rattle.text_lines.specs.Words.{words_of};
ghost use Rattle.sol_text.specs.LineShapes.{after_key, after_optional_mark, after_digits, after_colon, after_separator, route_tail, cost_tail, cost_word, only_word};
ghost use Rattle.sol_text.specs.Values.{customer_of, cost_of};
ghost use Rattle.sol_text.specs.Reading.{Returns, customers_of, or_bad_number, line_of, cost_line};
ghost use Rattle.sol_text.specs.declared.lines.Line.TheVariants.{Route as Routed};

use crate::faults::{SolFault, SolFaultKind};
use plan_types::Route;
use std::alloc::Global;
use text_lines::{
    Words, digits_to_u32, is_blank_line, leading_digits_len, number_to_u64, trim_blanks_start,
};

/// The meaning of a line.
#[derive(Drop)]
pub(crate) enum Line {
    /// A blank line, or a line of a head.
    Skipped,
    /// The customers in order.
    Route(Route),
    /// The distance that the author of the solution claims, or the fault of its word.
    Cost(Result<u64, SolFault>),
}

/// Parses the line with this number. A fault names the number. In a head, a line that is neither a route line nor
/// a cost line is skipped.
#[tactic(auto, unfolding(crate::specs::Reading::line_of))]
pub(crate) fn parse_line(
    alloc: Global,
    in_head: bool,
    number: u64,
    line: &[u8],
) -> Result<Line, SolFault>
    ensures { Returns result (line_of in_head number line.now) }
{
    if is_blank_line(line) {
        return Ok(Line::Skipped);
    }
    match route_tail(line) {
        Some(tail) => read_route(alloc, number, tail),
        None => read_cost(in_head, number, line),
    }
}

// Parses the customers of a route line, which follow its colon.
fn read_route(alloc: Global, number: u64, tail: &[u8]) -> Result<Line, SolFault>
    ensures { Returns result (or_bad_number Routed number (customers_of (words_of tail.now))) }
{
    let mut customers = Vec::new(alloc);
    for word in Words::new(tail) {
        let customer = customer_of(word).ok_or(SolFault {
            line: number,
            kind: SolFaultKind::BadNumber,
        })?;
        customers.push(customer)?;
    }
    Ok(Line::Route(Route::from(customers)))
}

// Parses a line that is neither blank nor a route line. Outside a head it must be a cost line.
fn read_cost(in_head: bool, number: u64, line: &[u8]) -> Result<Line, SolFault>
    ensures { Returns result (cost_line in_head number (cost_word line.now)) }
{
    match cost_word(line) {
        Some(word) => Ok(Line::Cost(cost_of(word).ok_or(SolFault {
            line: number,
            kind: SolFaultKind::BadNumber,
        }))),
        None if in_head => Ok(Line::Skipped),
        None => Err(SolFault {
            line: number,
            kind: SolFaultKind::BadLine,
        }),
    }
}

#[tactic(auto, unfolding(crate::specs::Values::customer_of))]
fn customer_of(word: &[u8]) -> Option<u32>
    ensures { result ≡ customer_of word.now }
{
    digits_to_u32(word)
}

#[tactic(auto, unfolding(crate::specs::Values::cost_of))]
fn cost_of(word: &[u8]) -> Option<u64>
    ensures { result ≡ cost_of word.now }
{
    number_to_u64(word)
}

// Returns the part after the colon of a route line.
#[tactic(auto, unfolding(crate::specs::LineShapes::route_tail))]
fn route_tail(line: &[u8]) -> Option<&[u8]>
    ensures { option_copied result ≡ route_tail line.now }
{
    let rest = strip_key(line, b"route")?;
    let rest = strip_optional_mark(trim_blanks_start(rest), b'#');
    let rest = strip_digits(trim_blanks_start(rest))?;
    strip_colon(trim_blanks_start(rest))
}

/// Returns the word of a cost line in the format of CVRPLIB's `.sol` files. Returns `None` if the line is not a
/// cost line, or does not have exactly one word after `Cost` and its separator.
pub fn cost_word(line: &[u8]) -> Option<&[u8]>
    ensures { option_copied result ≡ cost_word line.now }
{
    let mut words = Words::new(cost_tail(line)?);
    let word = words.next()?;
    match words.next() {
        None => Some(word),
        Some(_) => None,
    }
}

/// Returns the part after `Cost`, in any letter case, and its separator: a colon, blanks or both. Returns
/// `None` if the line does not begin like this.
#[tactic(auto, unfolding(crate::specs::LineShapes::cost_tail))]
pub fn cost_tail(line: &[u8]) -> Option<&[u8]>
    ensures { option_copied result ≡ cost_tail line.now }
{
    let rest = strip_key(line, b"cost")?;
    match rest {
        [b' ' | b'\t' | b':', ..] => Some(strip_optional_mark(trim_blanks_start(rest), b':')),
        _ => None,
    }
}

// Returns the part after the key, which may be in any letter case.
fn strip_key<'a>(text: &'a [u8], key: &[u8]) -> Option<&'a [u8]>
    ensures { option_copied result ≡ after_key (map to_ascii_lowercase key.now) text.now }
{
    let (front, rest) = text.split_at_checked(key.len())?;
    if !front.eq_ignore_ascii_case(key) {
        return None;
    }
    Some(rest)
}

// Returns the part after the mark, or the whole text if it does not begin with the mark.
fn strip_optional_mark(text: &[u8], mark: u8) -> &[u8]
    ensures { result.now ≡ after_optional_mark mark text.now }
{
    text.strip_prefix([mark].as_slice()).unwrap_or(text)
}

fn strip_colon(text: &[u8]) -> Option<&[u8]>
    ensures { option_copied result ≡ after_colon text.now }
{
    text.strip_prefix(b":")
}

// Returns the part after one or more digits.
fn strip_digits(text: &[u8]) -> Option<&[u8]>
    ensures { option_copied result ≡ after_digits text.now }
{
    let digits = leading_digits_len(text);
    if digits == 0 {
        return None;
    }
    Some(&text[digits..])
}
