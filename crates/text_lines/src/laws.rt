//! The meaning of lines, words and numbers, as laws about every text.
ghost use Rattle.std.specs.Prelude.{◌≡◌, []};
ghost use Rattle.text_lines.specs.Lines.{TextSplitsIntoLines, LinesEndAtFeeds, LastLineEndsWithText, lines_of};
ghost use Rattle.text_lines.specs.Words.{LinesSplitIntoWords};
ghost use Rattle.text_lines.specs.Numbers.{NumbersFollowGrammar, DecimalsParseBack};

/// States that the lines of a text are what its line feeds split it into, without loss or addition.
pub fn text_splits_into_lines()
    ensures { TextSplitsIntoLines }
{}

/// States that each line of a text, from the first on, ends at a line feed or at the end of the text.
pub fn lines_end_at_line_feeds()
    ensures ended { LinesEndAtFeeds }
    ensures last { LastLineEndsWithText }
    ensures none { lines_of [] ≡ [] }
{}

/// States that the words of a line are exactly those that make up the line together with blanks.
pub fn lines_split_into_words()
    ensures { LinesSplitIntoWords }
{}

/// States the grammar of numbers: a plus, a minus or no sign, one or more digits, and optionally a point with
/// only zeros after it.
pub fn numbers_follow_grammar()
    ensures { NumbersFollowGrammar }
{}

/// States that a number printed in decimal digits parses back to that number.
pub fn decimals_parse_back()
    ensures { DecimalsParseBack }
{}
