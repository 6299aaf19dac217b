//! The beginning of each line of an answer.
ghost use Rattle.std.specs.Prelude.{◌≡◌, ◌++◌, IfOk, string_bytes};
ghost use Rattle.request_explanation.specs.LinePrefixes.{line_prefix_text};

use crate::words::{Word, put_word, put_word_and_number};
use plan_types::OutOfMemory;
use std::alloc::Global;
use text_buffer::TextBuffer;

/// The beginning of each line when lines of several requests are printed together.
#[derive(Clone, Copy, Debug, PartialEq, Eq)]
pub enum LinePrefix {
    /// No prefix: the lines are about one request.
    Nothing,
    /// `why R: `, for people.
    Named,
    /// `why` and the request's name, each with a tab after it, for programs.
    Tabbed,
}

impl LinePrefix {
    /// Returns the prefix of each line about the request with this name.
    pub(crate) fn text(self, alloc: Global, name: u32) -> Result<String, OutOfMemory>
        ensures { IfOk result (λ text. string_bytes text ≡ line_prefix_text self name) }
    {
        let mut text = TextBuffer::new(alloc);
        self.put(&mut text, u64::from(name));
        text.into_string()
    }

    fn put(self, text: &mut TextBuffer, name: u64)
        ensures { text.new ≡ text.old ++ line_prefix_text self name }
    {
        match self {
            LinePrefix::Nothing => {}
            LinePrefix::Named => {
                put_word_and_number(text, Word::Why, name);
                put_word(text, Word::Colon)
            }
            LinePrefix::Tabbed => {
                put_word_and_number(text, Word::WhyTab, name);
                put_word(text, Word::Tab)
            }
        }
    }
}
