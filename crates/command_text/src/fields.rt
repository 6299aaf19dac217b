//! The numbers of a line. Each integer is kept in every type that a field may need. It is checked once the
//! command is known.
ghost use Rattle.std.specs.Prelude.{◌≡◌, ◌<◌, ◌≤◌, ◌++◌, [], ◌∷◌, length, None, Some, MatchOption, OnSome};
ghost use Rattle.command_text.specs.Parsing.{as_u32, field_in, field_of, fields_of};
ghost use Rattle.command_text.specs.Numbers.{IsNoCommand};
ghost use Rattle.command_text.specs.declared.fields.TheConstants.{MAX_NUMBERS};

use std::marker::Model;
use text_lines::{Number, Words};

/// The largest count of numbers in a command.
const MAX_NUMBERS: usize = 11;

/// An integer as an `i32` and as a `u64`, or `None` for a type that it does not fit.
#[derive(Clone, Copy)]
pub(crate) struct Field {
    pub(crate) signed: Option<i32>,
    pub(crate) unsigned: Option<u64>,
}

impl Field {
    fn of(number: &Number<'_>) -> Field
        ensures { result ≡ field_of number.now }
    {
        Field {
            signed: number.within(i32::MIN, i32::MAX),
            unsigned: number.to_u64(),
        }
    }

    /// Returns the number if it fits a `u32`.
    pub(crate) fn as_u32(&self) -> Option<u32>
        ensures { result ≡ as_u32 self.now }
    {
        u32::try_from(self.unsigned?).ok()
    }
}

// Reads a word as an integer. Returns `None` if it is not one.
fn integer(word: &[u8]) -> Option<Field>
    ensures { result ≡ field_in word.now }
{
    match Number::parse_integer(word) {
        Some(number) => Some(Field::of(&number)),
        None => None,
    }
}

/// The numbers of a line, at most `MAX_NUMBERS` of them.
#[derive(Drop)]
pub(crate) struct Fields {
    fields: [Field; MAX_NUMBERS],
    used: usize,
}

impl Model for Fields {
    ghost use Rattle.std.specs.Prelude.{List};
    ghost use Rattle.command_text.specs.declared.fields.Field.{Field};

    ghost Value = { List Field };

    ghost use Rattle.command_text.specs.Numbers.{taken, IsTaken};

    ghost view = { taken };

    ghost invariant = { IsTaken };
}

impl Fields {
    fn new() -> Fields
        ensures { result ≡ [] }
    {
        let none = Field {
            signed: None,
            unsigned: None,
        };
        Fields {
            fields: [none; MAX_NUMBERS],
            used: 0,
        }
    }

    // Adds a number. Returns `None` if there is no room.
    fn push(&mut self, field: Field) -> Option<()>
        ensures none { result ≡ None → MAX_NUMBERS ≤ length self.old }
        ensures some { OnSome result (self.new ≡ self.old ++ field ∷ []) }
    {
        if self.used == MAX_NUMBERS {
            return None;
        }
        self.fields[self.used] = field;
        self.used += 1;
        Some(())
    }

    /// Returns the numbers that were added, in order.
    pub(crate) fn as_slice(&self) -> &[Field]
        ensures { result.now ≡ self.now }
    {
        &self.fields[..self.used]
    }
}

/// Reads the words as integers. Returns `None` if a word is not an integer, or if there are more words than any
/// command has.
pub(crate) fn integers(words: &mut Words<'_>) -> Option<Fields>
    ensures { MatchOption result (IsNoCommand words.old)
        (λ fields. fields_of words.old ≡ Some fields) }
{
    let mut fields = Fields::new();
    for word in words.by_ref() {
        fields.push(integer(word)?)?;
    }
    Some(fields)
}
