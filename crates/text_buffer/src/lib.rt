//! A buffer for texts that people read. It is filled piece by piece with words, and with numbers in decimal or
//! in columns.
//!
//! A report about a plan is a long sequence of small pieces, and appending any of them may run out of memory. A
//! `TextBuffer` remembers whether that happened, so that appending returns no error. Only the caller that takes
//! the whole text gets the error, once.
//!
//! The entry points are `TextBuffer::new`, the functions that append a piece, and `TextBuffer::into_string` or
//! `TextBuffer::into_vec`.
//!
//! Contracts see a `TextBuffer` as the list of all bytes that were appended, whether there was memory for them
//! or not. The invariant says that the text equals this list unless memory has run out.
//!
//! Proved: the text that `into_string` or `into_vec` returns is everything that was appended, in order.
#![tactic(auto)]

ghost use Rattle.std.specs.Prelude.{◌≡◌, ◌<◌, ◌∷◌, ◌++◌, [], IfOk, string_bytes};
ghost use Rattle.text_buffer.specs.Columns.{left, right, right_signed};

use ghost_values::{Ghost, ListOf};
use itoa::{Buffer, Integer};
use plan_types::OutOfMemory;
use std::alloc::{AllocError, Global};
use std::marker::Model;

/// The text so far. After memory has run out, nothing more is stored, and `into_string` and `into_vec` return
/// an error.
#[derive(Drop)]
pub struct TextBuffer {
    text: String,
    has_room: bool,
    // Everything that was appended so far, whether there was memory for it or not.
    pushed: Ghost<ListOf<u8>>,
}

impl Model for TextBuffer {
    ghost use Rattle.std.specs.Prelude.{List, ℕ, true, string_bytes, ◌≡◌};

    ghost Value = { List ℕ };

    ghost view = { λ t. t.pushed.value };

    ghost invariant = { λ t. t.has_room ≡ true → string_bytes t.text ≡ t.pushed.value };
}

impl TextBuffer {
    /// Returns an empty text.
    pub fn new(alloc: Global) -> TextBuffer
        ensures { result ≡ [] }
    {
        TextBuffer {
            text: String::new(alloc),
            has_room: true,
            pushed: Ghost::of(),
        }
    }

    /// Returns the text, without allocating. Returns an error if memory had run out before.
    pub fn into_string(self) -> Result<String, OutOfMemory>
        ensures { IfOk result (λ text. string_bytes text ≡ self) }
    {
        let TextBuffer { text, has_room, .. } = self;
        if has_room { Ok(text) } else { Err(AllocError) }
    }

    /// Returns the bytes of the text, like `into_string`.
    pub fn into_vec(self) -> Result<Vec<u8>, OutOfMemory>
        ensures { IfOk result (λ bytes. bytes.items ≡ self) }
    {
        let text = self.into_string()?;
        Ok(text.into_bytes())
    }

    /// Appends a text.
    pub fn push_str(&mut self, text: &str)
        ensures { self.new ≡ self.old ++ text.now }
    {
        self.pushed = self.pushed.after(text.as_bytes());
        self.has_room = self.has_room && self.text.push_str(text).is_ok();
    }

    /// Appends an ASCII character.
    pub fn push_ascii(&mut self, byte: u8)
        requires { byte < 128 }
        ensures { self.new ≡ self.old ++ byte ∷ [] }
    {
        self.pushed = self.pushed.after(byte);
        self.has_room = self.has_room && self.text.push(char::from(byte)).is_ok();
    }

    /// Appends a number in decimal.
    pub fn push_number<N: Integer>(&mut self, n: N)
        ensures { self.new ≡ self.old ++ N.text n }
    {
        let mut buffer = Buffer::new();
        self.push_str(buffer.format(n));
    }

    /// Appends a number, right-aligned in a column of this width.
    pub fn push_right_aligned(&mut self, width: usize, n: u128)
        ensures { self.new ≡ self.old ++ right width n }
    {
        self.pushed = self.pushed.after((width, n));
        self.has_room = self.has_room && write!(self.text, "{n:>width$}").is_ok();
    }

    /// Appends a number, left-aligned in a column of this width.
    pub fn push_left_aligned(&mut self, width: usize, n: u128)
        ensures { self.new ≡ self.old ++ left width n }
    {
        self.pushed = self.pushed.after((width, n));
        self.has_room = self.has_room && write!(self.text, "{n:<width$}").is_ok();
    }

    /// Appends a signed number, right-aligned in a column of this width.
    pub fn push_right_aligned_signed(&mut self, width: usize, n: i64)
        ensures { self.new ≡ self.old ++ right_signed width n }
    {
        self.pushed = self.pushed.after((width, n));
        self.has_room = self.has_room && write!(self.text, "{n:>width$}").is_ok();
    }
}
