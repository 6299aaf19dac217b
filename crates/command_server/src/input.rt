//! Reads an input as lines and announced texts, whatever the pieces in which its bytes arrive.
//!
//! Bytes are counted when they are taken, not when they are read ahead. So the place where serving ends does
//! not depend on the pieces.
ghost use Rattle.std.specs.Prelude.{◌≡◌, ◌≤◌, ◌<◌, ◌+◌, ◌-◌, ◌++◌, IfOk, MatchResult, OnErr, OnOk, OnSome, ℕ, List, [], length};
ghost use Rattle.std.specs.Str.Lines.{strip_carriage_return};
ghost use Rattle.command_text.specs.Parsing.{parsed_line};
ghost use Rattle.command_server.specs.Input.{Between, Counts, CountsExactly, CutsNext, IsFirstLineLen, IsLast, IsPartialLine, IsPartialText, IsInputFault, TakesAll, TakesLess, TakesMore, TakesPart, TakesBuffered, TakesText};

use crate::read_buffer::ReadBuffer;
use crate::streams::{IoFault, Source};
use arrayvec::ArrayVec;
use command_text::{FirstWord, ParsedCommand, read_line};
use memchr::memchr;
use std::alloc::Global;

/// The number of bytes that makes an input too long.
const MAX_INPUT_LEN: u64 = 1_000_000_000_000;

/// The number of bytes kept of a line: the longest line with its carriage return, and one more byte, which shows
/// that a line is too long.
const KEPT_LEN: usize = 1026;

/// The part of a line that was read so far, without its line feed.
#[derive(Drop)]
pub(crate) struct PartialLine {
    /// The first bytes of the line.
    kept: ArrayVec<u8, 1026>,
    first_word: FirstWord,
}

impl PartialLine {
    fn new() -> PartialLine
        ensures { IsPartialLine [] result }
    {
        PartialLine {
            kept: ArrayVec::new(),
            first_word: FirstWord::new(),
        }
    }

    // Begins the next line.
    fn begin(&mut self)
        ensures { IsPartialLine [] self.new }
    {
        self.kept.clear();
        self.first_word = FirstWord::new();
    }

    fn take(&mut self, part: &[u8])
        ensures { (before : List ℕ) → IsPartialLine before self.old
            → IsPartialLine (before ++ part.now) self.new }
    {
        self.first_word = self.first_word.take(part);
        let room = KEPT_LEN.saturating_sub(self.kept.len()).min(part.len());
        let _ = self.kept.try_extend_from_slice(&part[..room]);
    }

    // Parses the line, once it has ended.
    fn requested(&self) -> ParsedCommand
        ensures { (line : List ℕ) → IsPartialLine line self.now
            → result ≡ parsed_line (strip_carriage_return line) }
    {
        if self.kept.len() < KEPT_LEN {
            return read_line(without_return(self.kept.as_slice()));
        }
        if self.first_word.announces_text() {
            ParsedCommand::BadText
        } else {
            ParsedCommand::BadLine
        }
    }

    // Parses the input's last line. It is a line only if it has a byte.
    fn last_command(&self) -> Option<ParsedCommand>
        ensures last { (line : List ℕ) → IsPartialLine line self.now → IsLast line result }
        ensures some { OnSome result (0 < length self.now.kept.items) }
    {
        if self.kept.is_empty() {
            return None;
        }
        Some(self.requested())
    }
}

// Returns the line without the one carriage return at its end.
fn without_return(line: &[u8]) -> &[u8]
    ensures { result.now ≡ strip_carriage_return line.now }
{
    match line {
        [front @ .., b'\r'] => front,
        _ => line,
    }
}

/// The result of taking a part of a line.
#[derive(Clone, Copy)]
enum Part {
    /// This many bytes were taken, and the line continues.
    More(usize),
    /// This many bytes were taken, the last of them the line feed.
    Feed(usize),
    /// The end of the input was reached.
    End,
}

// Returns the number of bytes before the first line feed, or of all bytes if there is none.
fn line_part_len(bytes: &[u8]) -> usize
    ensures { IsFirstLineLen bytes.now result }
{
    memchr(b'\n', bytes).unwrap_or(bytes.len())
}

// Takes the bytes of a line that are in the buffer.
fn take_part(ahead: &mut ReadBuffer, line: &mut PartialLine) -> Part
    ensures { TakesBuffered ahead.old ahead.new line.old line.new result }
{
    let available = ahead.as_slice();
    if available.is_empty() {
        return Part::End;
    }
    let len = line_part_len(available);
    line.take(&available[..len]);
    if len < available.len() {
        ahead.take(len + 1);
        Part::Feed(len + 1)
    } else {
        ahead.take(len);
        Part::More(len)
    }
}

/// The part of an announced text that was read so far. If its memory can't be allocated, its bytes are dropped.
#[derive(Drop)]
pub(crate) struct PartialText {
    bytes: Vec<u8>,
    is_whole: bool,
    /// The number of bytes still to come.
    left: usize,
}

impl PartialText {
    fn new(alloc: Global, len: usize) -> PartialText
        ensures { IsPartialText len [] result }
    {
        match Vec::with_capacity(alloc, len) {
            Ok(bytes) => PartialText {
                bytes,
                is_whole: true,
                left: len,
            },
            Err(_) => PartialText {
                bytes: Vec::new(alloc),
                is_whole: false,
                left: len,
            },
        }
    }

    fn take(&mut self, part: &[u8])
        ensures bytes { (len : ℕ) (seen : List ℕ) → length part.now ≤ self.old.left
            → IsPartialText len seen self.old → IsPartialText len (seen ++ part.now) self.new }
        ensures left { self.new.left ≡ self.old.left - length part.now }
    {
        self.left = self.left.saturating_sub(part.len());
        if self.is_whole {
            self.is_whole = self.bytes.extend_from_slice(part).is_ok();
        }
    }
}

// Takes some of the bytes that are still to come and returns their number, 0 if there are none.
fn take_text(ahead: &mut ReadBuffer, text: &mut PartialText) -> usize
    ensures { TakesText ahead.old ahead.new text.old text.new result }
{
    let available = ahead.as_slice();
    let taken = text.left.min(available.len());
    text.take(&available[..taken]);
    ahead.take(taken);
    taken
}

/// The result of reading an announced text.
#[derive(Drop)]
pub(crate) enum AnnouncedText {
    Whole(Vec<u8>),
    /// The bytes were read, but their memory could not be allocated.
    Dropped,
    /// The input ended before the text did.
    Short,
}

/// The reason why the input can't be read to its end: the reader failed, or the limit is reached.
#[derive(Clone, Copy)]
pub(crate) struct InputFault;

impl From<IoFault> for InputFault {
    fn from(_: IoFault) -> InputFault {
        InputFault
    }
}

/// An input that is read line by line from a reader.
#[derive(Drop)]
pub(crate) struct Input {
    ahead: ReadBuffer,
    line: PartialLine,
    /// The number of bytes that may still be taken before the limit is reached.
    left: u64,
    alloc: Global,
}

impl Input {
    /// Returns an input before its first byte.
    pub(crate) fn new(alloc: Global) -> Input
        ensures ahead { result.ahead ≡ [] }
        ensures left { result.left ≡ 1000000000000 }
    {
        Input {
            ahead: ReadBuffer::new(),
            line: PartialLine::new(),
            left: MAX_INPUT_LEN,
            alloc,
        }
    }

    /// Reads and parses the next line, or returns `None` if there is none. A line ends with a line feed or with
    /// the input.
    pub(crate) fn read_command<R: Source>(
        &mut self,
        reader: &mut R,
    ) -> Result<Option<ParsedCommand>, InputFault>
        ensures cuts { IfOk result (λ next. Between R.Source self.old reader.old self.new reader.new
            (CutsNext next)) }
        ensures counted { Counts R.Source self.old reader.old self.new reader.new }
        ensures exact { OnOk result
            (CountsExactly R.Source self.old reader.old self.new reader.new) }
        ensures less { IfOk result (λ next. OnSome next (self.new.left < self.old.left)) }
        ensures input_fault { OnErr result (IsInputFault (R.has_failed reader.new) self.new.left) }
    {
        self.line.begin();
        loop {
            match self.take_line(reader)? {
                Part::More(_) => {}
                Part::Feed(_) => return Ok(Some(self.line.requested())),
                Part::End => return Ok(self.line.last_command()),
            }
        }
    }

    // Takes and counts the bytes of the line that are read ahead, up to its line feed. Reads once if none are read
    // ahead.
    fn take_line<R: Source>(&mut self, reader: &mut R) -> Result<Part, InputFault>
        ensures part { IfOk result (λ part. Between R.Source self.old reader.old self.new reader.new
            (λ old new. TakesPart old new self.old.line self.new.line part)) }
        ensures counted { Counts R.Source self.old reader.old self.new reader.new }
        ensures exact { OnOk result
            (CountsExactly R.Source self.old reader.old self.new reader.new) }
        ensures less { IfOk result (TakesLess self.old.left self.new.left) }
        ensures input_fault { OnErr result (IsInputFault (R.has_failed reader.new) self.new.left) }
    {
        self.ahead.fill(reader)?;
        let part = take_part(&mut self.ahead, &mut self.line);
        if let Part::More(len) | Part::Feed(len) = part {
            self.count(len)?;
        }
        Ok(part)
    }

    /// Reads the announced text, which has the next `len` bytes.
    pub(crate) fn announced_text<R: Source>(
        &mut self,
        reader: &mut R,
        len: usize,
    ) -> Result<AnnouncedText, InputFault>
        ensures takes { IfOk result (λ text. Between R.Source self.old reader.old
            self.new reader.new (λ old new. TakesAll len old new text)) }
        ensures counted { Counts R.Source self.old reader.old self.new reader.new }
        ensures exact { OnOk result
            (CountsExactly R.Source self.old reader.old self.new reader.new) }
        ensures less { self.new.left ≤ self.old.left }
        ensures input_fault { OnErr result (IsInputFault (R.has_failed reader.new) self.new.left) }
    {
        let mut text = PartialText::new(self.alloc, len);
        while text.left > 0 {
            if !self.take_more(reader, &mut text)? {
                return Ok(AnnouncedText::Short);
            }
        }
        if text.is_whole {
            Ok(AnnouncedText::Whole(text.bytes))
        } else {
            Ok(AnnouncedText::Dropped)
        }
    }

    // Takes and counts the bytes of the text that are read ahead, and returns whether there were any. Reads once if
    // none are read ahead.
    fn take_more<R: Source>(
        &mut self,
        reader: &mut R,
        text: &mut PartialText,
    ) -> Result<bool, InputFault>
        ensures more { IfOk result (λ some. Between R.Source self.old reader.old self.new reader.new
            (λ old new. TakesMore old new text.old text.new some)) }
        ensures counted { Counts R.Source self.old reader.old self.new reader.new }
        ensures exact { OnOk result
            (CountsExactly R.Source self.old reader.old self.new reader.new) }
        ensures less { self.new.left ≤ self.old.left }
        ensures input_fault { OnErr result (IsInputFault (R.has_failed reader.new) self.new.left) }
    {
        self.ahead.fill(reader)?;
        let taken = take_text(&mut self.ahead, text);
        if taken == 0 {
            return Ok(false);
        }
        self.count(taken)?;
        Ok(true)
    }

    // Counts bytes that were taken. Fails once the limit for an input is reached.
    fn count(&mut self, taken: usize) -> Result<(), InputFault>
        ensures ahead { self.new.ahead ≡ self.old.ahead }
        ensures line { self.new.line ≡ self.old.line }
        ensures left { MatchResult result (λ _. self.new.left + taken ≡ self.old.left)
            (λ _. (self.new.left ≡ 0) × (self.old.left ≤ taken)) }
        ensures some { OnOk result (0 < self.new.left) }
    {
        let taken = taken as u64;
        if taken >= self.left {
            self.left = 0;
            return Err(InputFault);
        }
        self.left -= taken;
        Ok(())
    }
}
