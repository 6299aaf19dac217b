//! The lines of a text that are not blank, with their numbers.
ghost use Rattle.std.specs.Prelude.{◌≡◌, ◌+◌, ◌<◌, ◌^◌, length};
ghost use Rattle.std.specs.Iterator.{YieldsFirstBy, item_count};
ghost use Rattle.text_lines.specs.Lines.{lines_of};
ghost use Rattle.instance_read.specs.Rows.{rows_from, rows_of};
ghost use Rattle.instance_read.specs.RowViews.{row_view};

use std::marker::Model;
use text_lines::{Lines, is_blank_line};

/// A line and its number in the text.
#[derive(Drop)]
pub struct NumberedLine<'a> {
    pub number: u64,
    pub text: &'a [u8],
}

/// An iterator over the lines of a text that are not blank, in order.
#[derive(Drop)]
pub struct NumberedLines<'a> {
    lines: Lines<'a>,
    // The number of lines so far, blank ones included.
    count: u64,
}

impl<'a> Model for NumberedLines<'a> {
    ghost use Rattle.std.specs.Prelude.{◌+◌, ◌<◌, ◌^◌, List, length};
    ghost use Rattle.instance_read.specs.Rows.{Row, rows_from};

    ghost Value = { List Row };

    ghost view = { λ rows. rows_from (rows.count + 1) rows.lines };

    ghost invariant = { λ rows. rows.count + length rows.lines < 2 ^ 64 };
}

impl<'a> NumberedLines<'a> {
    /// Returns an iterator that begins at the first line of a text.
    pub fn new(text: &'a [u8]) -> NumberedLines<'a>
        ensures { result ≡ rows_of text.now }
    {
        NumberedLines {
            lines: Lines::new(text),
            count: 0,
        }
    }
}

impl<'a> Iterator for NumberedLines<'a> {
    type Item = NumberedLine<'a>;

    ghost next_gives = { YieldsFirstBy row_view (λ rows. rows) };

    ghost remaining = { item_count (λ rows. rows) };

    fn next(&mut self) -> Option<NumberedLine<'a>> {
        while let Some(text) = self.lines.next() {
            self.count += 1;
            if !is_blank_line(text) {
                return Some(NumberedLine {
                    number: self.count,
                    text,
                });
            }
        }
        None
    }
}
