//! The lines of a text.
ghost use Rattle.std.specs.Prelude.{◌≡◌, ◌<◌, ◌≤◌, ◌∷◌, length};
ghost use Rattle.std.specs.Iterator.{YieldsFirstRef, item_count};
ghost use Rattle.std.specs.Str.Lines.{strip_carriage_return};
ghost use Rattle.text_lines.specs.Lines.{lines_of, pieces_of};

use memchr::memchr;
use std::marker::Model;

/// An iterator over the lines of a text.
///
/// A line ends at a line feed, or at the end of the text if at least one byte is left. It does not include the
/// line feed, nor a carriage return at its end.
#[derive(Drop)]
pub struct Lines<'a> {
    rest: &'a [u8],
}

impl<'a> Model for Lines<'a> {
    ghost use Rattle.std.specs.Prelude.{ℕ, List};
    ghost use Rattle.text_lines.specs.Lines.{lines_of};

    ghost Value = { List (List ℕ) };

    ghost view = { λ lines. lines_of lines.rest.now };
}

impl<'a> Lines<'a> {
    /// Returns the lines of `text`. There are at most as many lines as bytes.
    #[inline]
    pub fn new(text: &'a [u8]) -> Lines<'a>
        ensures lines { result ≡ lines_of text.now }
        ensures few { length result ≤ length text.now }
    {
        Lines { rest: text }
    }
}

impl<'a> Iterator for Lines<'a> {
    type Item = &'a [u8];

    ghost next_gives = { YieldsFirstRef (λ lines. lines) };

    ghost remaining = { item_count (λ lines. lines) };

    #[inline]
    fn next(&mut self) -> Option<&'a [u8]> {
        if self.rest.is_empty() {
            return None;
        }
        let (piece, rest) = first_piece(self.rest);
        self.rest = rest;
        Some(without_carriage_return(piece))
    }
}

// Splits a text after its first line feed. Returns the part before the line feed, or the whole text if there is
// none, and the rest.
fn first_piece(text: &[u8]) -> (&[u8], &[u8])
    requires { 0 < length text.now }
    ensures { pieces_of text.now ≡ result.0.now ∷ pieces_of result.1.now }
{
    match memchr(b'\n', text) {
        Some(end) => (&text[..end], &text[end + 1..]),
        None => (text, &text[text.len()..]),
    }
}

fn without_carriage_return(piece: &[u8]) -> &[u8]
    ensures { result.now ≡ strip_carriage_return piece.now }
{
    match piece {
        [line @ .., b'\r'] => line,
        _ => piece,
    }
}
