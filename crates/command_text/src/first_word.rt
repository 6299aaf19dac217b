//! The first word of a line that arrives in parts.
ghost use Rattle.std.specs.Prelude.{◌≡◌, ℕ, List, ◌++◌, []};
ghost use Rattle.std.specs.Str.Lines.{strip_carriage_return};
ghost use Rattle.text_lines.specs.Words.{words_of};
ghost use Rattle.command_text.specs.Parsing.{announces_text};
ghost use Rattle.command_text.specs.Scanning.{is_announcement, scan_of, scanned_byte, scanned_on};

use text_lines::lines_split_into_words;

/// The state of a scan for the first word of a line. For a line that is too long to be kept, it shows whether
/// the line announces a text.
#[derive(Clone, Copy, Debug, PartialEq, Eq)]
pub enum FirstWord {
    /// Only blanks so far.
    Nothing,
    /// After blanks, a prefix of `load`.
    L,
    Lo,
    Loa,
    /// A prefix of `adopt`.
    A,
    Ad,
    Ado,
    Adop,
    /// `load` or `adopt`.
    Whole,
    /// `load` or `adopt`, and then a carriage return. It belongs to the word unless the line ends with it.
    WholeAndReturn,
    /// `load` or `adopt`, and then a blank and any bytes.
    Over,
    /// Another word, or its beginning.
    Other,
}

impl FirstWord {
    /// Returns the state before the first byte.
    pub fn new() -> FirstWord
        ensures { result ≡ scan_of [] }
    {
        FirstWord::Nothing
    }

    /// Returns the state after these bytes are scanned, too.
    pub fn take(self, bytes: &[u8]) -> FirstWord
        ensures { (before : List ℕ) → self ≡ scan_of before
            → result ≡ scan_of (before ++ bytes.now) }
    {
        self.after_all(bytes)
    }

    fn after_all(self, bytes: &[u8]) -> FirstWord
        ensures { result ≡ scanned_on self bytes.now }
    {
        let mut word = self;
        for byte in bytes {
            word = word.after(*byte);
        }
        word
    }

    fn after(self, byte: u8) -> FirstWord
        ensures { result ≡ scanned_byte self byte }
    {
        match (self, byte) {
            (FirstWord::Nothing, b' ' | b'\t') => FirstWord::Nothing,
            (FirstWord::Nothing, b'l') => FirstWord::L,
            (FirstWord::Nothing, b'a') => FirstWord::A,
            (FirstWord::L, b'o') => FirstWord::Lo,
            (FirstWord::Lo, b'a') => FirstWord::Loa,
            (FirstWord::Loa, b'd') => FirstWord::Whole,
            (FirstWord::A, b'd') => FirstWord::Ad,
            (FirstWord::Ad, b'o') => FirstWord::Ado,
            (FirstWord::Ado, b'p') => FirstWord::Adop,
            (FirstWord::Adop, b't') => FirstWord::Whole,
            (FirstWord::Whole, b'\r') => FirstWord::WholeAndReturn,
            (FirstWord::Whole, b' ' | b'\t') => FirstWord::Over,
            (FirstWord::Over, _) => FirstWord::Over,
            _ => FirstWord::Other,
        }
    }

    /// Returns whether the line announces a text. All bytes of the line before its line feed must have been
    /// taken.
    pub fn announces_text(self) -> bool
        ensures { (piece : List ℕ) → self ≡ scan_of piece
            → result ≡ announces_text (words_of (strip_carriage_return piece)) }
    {
        lines_split_into_words();
        self.is_announcement()
    }

    fn is_announcement(self) -> bool
        ensures { result ≡ is_announcement self }
    {
        match self {
            FirstWord::Whole | FirstWord::WholeAndReturn | FirstWord::Over => true,
            _ => false,
        }
    }
}
