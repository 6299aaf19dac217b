//! Numbers in their columns, or after tabs.
ghost use Rattle.std.specs.Prelude.{◌≡◌, ◌++◌};
ghost use Rattle.plan_timetable.specs.Cells.{field, load_cell, number, optional_number};
ghost use Rattle.plan_timetable.specs.Words.{word};

use crate::forms::Form;
use crate::words::Word;
use text_buffer::TextBuffer;

/// Appends a word.
pub(crate) fn put_word(text: &mut TextBuffer, form: Form, what: Word)
    ensures { text.new ≡ text.old ++ word form what }
{
    text.push_str(what.text(form));
}

/// Appends a number to a line, in a column of this width.
pub(crate) fn put_number(text: &mut TextBuffer, form: Form, width: usize, n: u64)
    ensures { text.new ≡ text.old ++ number form width n }
{
    match form {
        Form::Columns => {
            text.push_str(" ");
            text.push_right_aligned(width, u128::from(n))
        }
        Form::Tabs => {
            text.push_str("\t");
            text.push_number(n)
        }
    }
}

/// Appends a load to a line, in a column of width 8.
pub(crate) fn put_load(text: &mut TextBuffer, form: Form, load: i64)
    ensures { text.new ≡ text.old ++ load_cell form load }
{
    match form {
        Form::Columns => {
            text.push_str(" ");
            text.push_right_aligned_signed(8, load)
        }
        Form::Tabs => {
            text.push_str("\t");
            text.push_number(load)
        }
    }
}

/// Appends a number to a line, or `-` if there is no number, in a column of width 8.
pub(crate) fn put_optional_number(text: &mut TextBuffer, form: Form, n: Option<u64>)
    ensures { text.new ≡ text.old ++ optional_number form n }
{
    match n {
        None => put_word(text, form, Word::Nothing),
        Some(n) => put_number(text, form, 8, n),
    }
}

/// Appends a word and the number after it.
pub(crate) fn put_field(text: &mut TextBuffer, form: Form, what: Word, n: u64)
    ensures { text.new ≡ text.old ++ field form what n }
{
    put_word(text, form, what);
    text.push_number(n);
}
