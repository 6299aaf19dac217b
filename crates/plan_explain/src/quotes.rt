//! Quoted lines, words and bytes of a refused file.
//!
//! Quoted text keeps its tabs, since Li and Lim's files use them. Every other byte that is not printable ASCII
//! becomes `?`.
ghost use Rattle.std.specs.Prelude.{◌≡◌, ◌<◌, ◌++◌, map, take};
ghost use Rattle.std.specs.Option.{option_copied};
ghost use Rattle.text_lines.specs.Lines.{lines_of};
ghost use Rattle.plan_audit.specs.Rules.{item_at};
ghost use Rattle.plan_explain.specs.Quotes.{is_fraction, is_key, shown_byte, shown_bytes};

use instance_read::split_key;
use text_buffer::TextBuffer;
use text_lines::{Lines, leading_digits_len};

/// The number of bytes after which a quoted line or word is cut.
const MAX_QUOTED: usize = 200;

/// Returns the first `most` items, or all if there are fewer.
#[tactic(auto, using(std::proofs::lemmas::List::take_min))]
pub(crate) fn first_of<T>(items: &[T], most: usize) -> &[T]
    ensures { result.now ≡ take most items.now }
{
    &items[..most.min(items.len())]
}

/// Returns the line with this number, counted from 1, or `None` if the text has no such line.
pub(crate) fn line_at(text: &[u8], number: u64) -> Option<&[u8]>
    ensures { option_copied result ≡ item_at (lines_of text.now) number }
{
    if number == 0 {
        return None;
    }
    Lines::new(text).nth(number as usize - 1)
}

/// Returns whether the key of a line, the part before the colon, is this key in any letter case.
pub(crate) fn is_key(key: &[u8], line: &[u8]) -> bool
    ensures { result ≡ is_key key.now line.now }
{
    split_key(line).0.eq_ignore_ascii_case(key)
}

/// Appends at most `MAX_QUOTED` of the bytes, with `?` for each byte that is neither printable ASCII nor a tab.
pub(crate) fn put_quoted(text: &mut TextBuffer, bytes: &[u8])
    ensures { text.new ≡ text.old ++ shown_bytes bytes.now }
{
    put_bytes(text, first_of(bytes, MAX_QUOTED));
}

fn put_bytes(text: &mut TextBuffer, bytes: &[u8])
    ensures { text.new ≡ text.old ++ map shown_byte bytes.now }
{
    for byte in bytes {
        text.push_ascii(shown_byte(*byte));
    }
}

fn shown_byte(byte: u8) -> u8
    ensures shown { result ≡ shown_byte byte }
    ensures ascii { result < 128 }
{
    match byte {
        b' '..=b'~' | b'\t' => byte,
        _ => b'?',
    }
}

/// Returns whether a word is a decimal fraction: a sign or none, digits or none, a point, and at least one
/// digit.
pub(crate) fn is_fraction(word: &[u8]) -> bool
    ensures { result ≡ is_fraction word.now }
{
    let body = match word {
        [b'+' | b'-', rest @ ..] => rest,
        _ => word,
    };
    match &body[leading_digits_len(body)..] {
        [b'.', digits @ ..] => !digits.is_empty() && leading_digits_len(digits) == digits.len(),
        _ => false,
    }
}
