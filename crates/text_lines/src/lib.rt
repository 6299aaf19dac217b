//! Lines, words and numbers of a text, as slices of its bytes. Nothing here allocates.
//!
//! All readers of texts depend on this crate: `instance_read` (Li-Lim and `.vrp` files), `sol_text`
//! (solutions), and the reader of commands. `Lines` iterates over the lines of a text, `Words` over the words
//! of a line, and `Number` is the numeric value of a word.
//!
//! Modules, in reading order:
//! - `line_iter`: the lines of a text, which end at a line feed.
//! - `word_iter`: the words of a line, which are separated by spaces and tabs; the next word as a number.
//! - `numeral`: the numeric value of a word.
//! - `laws`: what lines, words and numbers mean for every text, without code.
//!
//! Source: this project's own rules for line ends and blanks, since neither Li and Lim's format nor TSPLIB95
//! has a grammar for them.
//!
//! A number may have any size until a reader checks the limits of a field. So a number of a hundred digits is
//! reported as out of range, not as a word that is not a number. Digits are found and evaluated in one pass: up
//! to 19 digits always fit a `u64`, longer numbers are evaluated with checked steps.
//!
//! `trim_blanks_start` exists because std's trim functions remove more bytes than spaces and tabs.
//!
//! Proved: the iterators and parsers return exactly what the definitions of lines, words and numbers say,
//! including whether a value fits its integer type. The laws say that a text splits into its lines, and a line
//! into its words, in only one way, and state the grammar of numbers. A number that is printed in decimal
//! parses back to itself.
#![tactic(auto)]

mod laws;
mod line_iter;
mod numeral;
mod word_iter;

pub use laws::{
    decimals_parse_back, lines_end_at_line_feeds, lines_split_into_words, numbers_follow_grammar,
    text_splits_into_lines,
};
pub use line_iter::Lines;
pub use numeral::{Number, digits_to_u32, leading_digits_len, number_to_u64};
pub use word_iter::{Words, is_blank_line, trim_blanks_start, word_count};
