//! The words of a line.
ghost use Rattle.std.specs.Prelude.{◌≡◌, ◌<◌, ◌≤◌, ◌↔◌, ℕ, IsTrue, List, drop, length};
ghost use Rattle.std.specs.Iterator.{YieldsFirstRef, item_count};
ghost use Rattle.std.specs.List.{position_or_len, prefix_len};
ghost use Rattle.text_lines.specs.Numbers.{first_number, within};
ghost use Rattle.text_lines.specs.Words.{EndsWord, is_blank, is_blank_line, words_of};

use crate::numeral::Number;
use std::marker::Model;

/// An iterator over the words of a line. Words are separated by spaces and tabs.
#[derive(Drop)]
pub struct Words<'a> {
    rest: &'a [u8],
}

impl<'a> Model for Words<'a> {
    ghost use Rattle.std.specs.Prelude.{ℕ, List};
    ghost use Rattle.text_lines.specs.Words.{words_of};

    ghost Value = { List (List ℕ) };

    ghost view = { λ words. words_of words.rest.now };
}

impl<'a> Words<'a> {
    /// Returns the words of `line`. There are at most as many words as bytes.
    #[inline]
    pub fn new(line: &'a [u8]) -> Words<'a>
        ensures words { result ≡ words_of line.now }
        ensures few { length result ≤ length line.now }
    {
        Words { rest: line }
    }

    /// Returns the next word as a number, if there is a word, it is a number, and it is within these limits,
    /// both inclusive. Consumes the word in every case.
    #[inline(always)]
    pub fn next_number(&mut self, least: i32, most: i32) -> Option<i32>
        ensures rest { self.new ≡ drop 1 self.old }
        ensures number { result ≡ within least most (first_number self.old) }
    {
        let Some((number, rest)) = Number::parse_prefix(trim_blanks_start(self.rest)) else {
            return Number::parse(self.next()?)?.within(least, most);
        };
        self.rest = rest;
        number.within(least, most)
    }
}

impl<'a> Iterator for Words<'a> {
    type Item = &'a [u8];

    ghost next_gives = { YieldsFirstRef (λ words. words) };

    ghost remaining = { item_count (λ words. words) };

    #[inline]
    fn next(&mut self) -> Option<&'a [u8]> {
        let rest = trim_blanks_start(self.rest);
        let (word, rest) = rest.split_at(word_len(rest));
        self.rest = rest;
        if word.is_empty() {
            return None;
        }
        Some(word)
    }
}

/// Returns whether a word that is directly before this text ends at the text: the text is empty or begins with
/// a blank.
#[inline(always)]
pub(crate) fn ends_word(text: &[u8]) -> bool
    ensures { IsTrue result ↔ EndsWord text.now }
{
    match text {
        [first, ..] => is_blank_byte(*first),
        [] => true,
    }
}

fn is_blank_byte(byte: u8) -> bool
    ensures { result ≡ is_blank byte }
{
    byte == b' ' || byte == b'\t'
}

// Returns the number of bytes before the first blank, or of all bytes if there is no blank.
fn word_len(text: &[u8]) -> usize
    ensures { result ≡ position_or_len is_blank text.now }
{
    text.iter()
        .position(|byte| is_blank_byte(*byte))
        .unwrap_or(text.len())
}

/// Returns the text without its leading spaces and tabs.
#[inline(always)]
pub fn trim_blanks_start(text: &[u8]) -> &[u8]
    ensures { result.now ≡ drop (prefix_len is_blank text.now) text.now }
{
    match text {
        // Nearly all gaps between words are a single space.
        [b' ', rest @ ..] if !ends_word(rest) => rest,
        _ => without_blanks(text),
    }
}

fn without_blanks(text: &[u8]) -> &[u8]
    ensures { result.now ≡ drop (prefix_len is_blank text.now) text.now }
{
    let blanks = text
        .iter()
        .position(|byte| !is_blank_byte(*byte))
        .unwrap_or(text.len());
    &text[blanks..]
}

/// Returns the number of words of a line.
pub fn word_count(line: &[u8]) -> usize
    ensures { result ≡ length (words_of line.now) }
{
    Words::new(line).count()
}

/// Returns whether a line has only spaces and tabs.
#[inline]
pub fn is_blank_line(line: &[u8]) -> bool
    ensures { result ≡ is_blank_line line.now }
{
    line.iter().all(|byte| is_blank_byte(*byte))
}
