//! The details of a solution's fault, printed after its kind.
ghost use Rattle.std.specs.Prelude.{◌≡◌, ◌++◌, find};
ghost use Rattle.std.specs.List.{list_any};
ghost use Rattle.std.specs.Option.{option_copied};
ghost use Rattle.text_lines.specs.Words.{words_of};
ghost use Rattle.sol_text.specs.LineShapes.{cost_tail};
ghost use Rattle.plan_explain.specs.Quotes.{is_bad_customer};
ghost use Rattle.plan_explain.specs.SolFaults.{bad_customer_text, bad_line_text, cost_text, first_word, is_indented, is_line_keyword, is_key_line, is_not_key_byte, is_unrounded, other_line_text, sol_detail, wrong_number_text};

use crate::quotes::{is_fraction, line_at};
use crate::templates::Value::{Number, Quote, TextIf};
use crate::templates::{put_if, put_template};
use instance_read::split_key;
use sol_text::{SolFault, SolFaultKind, cost_tail};
use text_buffer::TextBuffer;
use text_lines::{Words, digits_to_u32, word_count};

/// Appends the details of a fault, from the line that it names.
pub(crate) fn put_sol_detail(text: &mut TextBuffer, solution: &[u8], fault: SolFault)
    ensures { text.new ≡ text.old ++ sol_detail solution.now fault.line fault.kind }
{
    let line = line_at(solution, fault.line).unwrap_or(&[]);
    match fault.kind {
        SolFaultKind::BadLine => put_bad_line(text, line),
        SolFaultKind::BadNumber => put_wrong_number(text, line),
        SolFaultKind::NoCost => text.push_str("; behind the word routes no cost is asked"),
        SolFaultKind::OutOfMemory => {}
    }
}

// Appends how many words follow `Cost`. If the line does not begin with `Cost`, appends advice on such a line.
fn put_bad_line(text: &mut TextBuffer, line: &[u8])
    ensures { text.new ≡ text.old ++ bad_line_text line.now (cost_tail line.now) }
{
    match cost_tail(line) {
        Some(tail) => {
            let found = Number(word_count(tail) as u64);
            put_template(text, ": 1 due behind Cost, @ found", &[found])
        }
        None => put_other_line(text, line),
    }
}

fn put_other_line(text: &mut TextBuffer, line: &[u8])
    ensures { text.new ≡ text.old ++ other_line_text line.now }
{
    if is_indented(line) {
        text.push_str(
            ": Route and Cost have to begin their lines, as they do behind: sed 's/^[[:blank:]]*//'",
        );
    } else {
        let words =
            ": a solution has no other keys, as it has none behind: grep -iE '^(route|cost)'";
        put_if(text, words, is_key_line(line));
    }
}

// Returns whether blanks precede the word with which a route line or a cost line begins.
fn is_indented(line: &[u8]) -> bool
    ensures { result ≡ is_indented line.now }
{
    matches!(line, [b' ' | b'\t', ..]) && is_line_keyword(first_word(line))
}

fn is_line_keyword(word: &[u8]) -> bool
    ensures { result ≡ is_line_keyword word.now }
{
    word.eq_ignore_ascii_case(b"route")
        || word.eq_ignore_ascii_case(b"cost")
        || word.eq_ignore_ascii_case(b"cost:")
}

// Returns whether the line has a colon, and neither a digit nor `#` before it. Such a line is taken for a key
// and its value.
fn is_key_line(line: &[u8]) -> bool
    ensures { result ≡ is_key_line line.now }
{
    line.contains(&b':') && !has_non_key_byte(split_key(line).0)
}

fn has_non_key_byte(key: &[u8]) -> bool
    ensures { result ≡ list_any is_not_key_byte key.now }
{
    key.iter().any(|byte| matches!(*byte, b'0'..=b'9' | b'#'))
}

fn put_wrong_number(text: &mut TextBuffer, line: &[u8])
    ensures { text.new ≡ text.old ++ wrong_number_text line.now (cost_tail line.now) }
{
    match cost_tail(line) {
        Some(tail) => {
            let word = first_word(tail);
            put_cost(text, word, is_fraction(word), is_unrounded(word))
        }
        None => put_bad_customer(text, first_bad_customer(split_key(line).1)),
    }
}

#[tactic(auto, unfolding(crate::specs::SolFaults::cost_text))]
fn put_cost(text: &mut TextBuffer, word: &[u8], has_fraction: bool, is_unrounded: bool)
    ensures { text.new ≡ text.old ++ cost_text word.now has_fraction is_unrounded }
{
    let fraction = TextIf(", which has a fraction", has_fraction);
    let note =
        ". Each way is rounded to a whole number here; behind the word routes no cost is asked";
    let values = [Quote(word), fraction, TextIf(note, is_unrounded)];
    let words = ": the cost is @@, allowed are whole numbers in 0..18446744073709551615@";
    put_template(text, words, &values);
}

// Returns whether the cost has a fraction or an exponent.
fn is_unrounded(word: &[u8]) -> bool
    ensures { result ≡ is_unrounded word.now }
{
    word.iter().any(|byte| matches!(*byte, b'.' | b'e' | b'E'))
}

fn put_bad_customer(text: &mut TextBuffer, word: Option<&[u8]>)
    ensures { text.new ≡ text.old ++ bad_customer_text (option_copied word.entry) }
{
    if let Some(word) = word {
        let words = ": a customer is @, allowed are digits alone, at most 4294967295";
        put_template(text, words, &[Quote(word)]);
    }
}

// Returns the first word that is not the number of a customer, which is digits only and at most 4,294,967,295.
#[tactic(auto, unfolding(sol_text::specs::Values::customer_of))]
fn first_bad_customer(tail: &[u8]) -> Option<&[u8]>
    ensures { option_copied result ≡ find is_bad_customer (words_of tail.now) }
{
    for word in Words::new(tail) {
        if digits_to_u32(word).is_none() {
            return Some(word);
        }
    }
    None
}

// Returns the first word of the line, or an empty word if there is none.
fn first_word(line: &[u8]) -> &[u8]
    ensures { result.now ≡ first_word (words_of line.now) }
{
    Words::new(line).next().unwrap_or(&[])
}
