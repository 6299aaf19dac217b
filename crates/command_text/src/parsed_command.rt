//! Parsing of a line into a command.
ghost use Rattle.std.specs.Prelude.{◌≡◌, ◌+◌};
ghost use Rattle.std.specs.Option.{option_map_or};
ghost use Rattle.text_lines.specs.Words.{words_of};
ghost use Rattle.text_lines.specs.Numbers.{below};
ghost use Rattle.command_text.specs.declared.parsed_command.TheConstants.{MAX_TEXT_LEN};
ghost use Rattle.command_text.specs.Parsing.{adopt_with, announces_text, parsed_line, fields_of, parse_load, load_with, load_within, parse_numbers, text_within, parse_command, parse_words};

use crate::fields::{Field, Fields, integers};
use crate::questions::Question;
use crate::steps::StepRequest;
use crate::verbs::{
    Verb, is_word, parse_no_numbers, parse_one_number, parse_spot, parse_two_numbers,
    parse_two_spots, spot_of, verb_named,
};
use command_core::{Command, Refusal};
use instance_read::Format;
use text_lines::Words;

/// The maximum length of a line in bytes, without its line end.
pub const MAX_LINE_LEN: usize = 1024;
/// The maximum length in bytes of a text that a line announces.
pub const MAX_TEXT_LEN: u64 = 16_777_216;

/// The use of a text that a line announces.
#[derive(Clone, Copy, Debug, PartialEq, Eq)]
pub enum Purpose {
    /// An instance in this format, with which the session starts over.
    Load { format: Format, seed: u64 },
    /// A solution, whose plan becomes the incumbent.
    Adopt,
}

/// A parsed line.
#[derive(Debug, Drop)]
pub enum ParsedCommand {
    /// The line has no word.
    Nothing,
    /// The line is not a command.
    BadLine,
    /// A bad line whose first word is `load` or `adopt`. The length of its text is unknown, so serving ends.
    BadText,
    /// A line that announces a text, but has a seed or a length outside its limits. Serving ends.
    TextRange,
    /// The next `len` bytes are a text.
    Text { purpose: Purpose, len: u32 },
    /// A command with one operation that is neither `Load` nor `Adopt` and makes no steps.
    Plain(Command),
    /// A command with a number that its field can't hold. The answer is this refusal, unless the session is
    /// broken or has no instance.
    Refused(Refusal),
    /// A command that makes steps of the search, of annealing or for fewer vehicles, or sets the pins of
    /// `freeze`.
    Steps(StepRequest),
    Print,
    /// Prints the current problem as an instance.
    PrintInstance,
    Show,
    /// A question about the plan.
    Ask(Question),
    /// Prints the number that the next request gets.
    Next,
    /// Prints the list of commands.
    Help,
}

/// Parses a line, given without its line end. Takes no memory.
#[tactic(auto, unfolding(crate::specs::Parsing::parsed_line))]
pub fn read_line(line: &[u8]) -> ParsedCommand
    ensures { result ≡ parsed_line line.now }
{
    let mut words = Words::new(line);
    if line.len() <= MAX_LINE_LEN {
        return parse_words(&mut words);
    }
    if announces_text(&mut words) {
        ParsedCommand::BadText
    } else {
        ParsedCommand::BadLine
    }
}

fn announces_text(words: &mut Words<'_>) -> bool
    ensures { result ≡ announces_text words.old }
{
    match words.next() {
        Some(word) => is_word(word, b"load") || is_word(word, b"adopt"),
        None => false,
    }
}

fn parse_words(words: &mut Words<'_>) -> ParsedCommand
    ensures { result ≡ parse_words words.old }
{
    match words.next() {
        Some(word) => parse_command(verb_named(word), words),
        None => ParsedCommand::Nothing,
    }
}

fn parse_command(verb: Option<Verb>, words: &mut Words<'_>) -> ParsedCommand
    ensures { result ≡ parse_command verb words.old }
{
    match verb {
        None => ParsedCommand::BadLine,
        Some(Verb::Load) => parse_load(words),
        Some(Verb::Adopt) => adopt_with(integers(words)),
        Some(verb) => parse_fields(verb, words),
    }
}

// Parses the words after a command's name.
fn parse_fields(verb: Verb, words: &mut Words<'_>) -> ParsedCommand
    ensures { result ≡ option_map_or (parse_numbers verb) (fields_of words.old) ParsedCommand.BadLine }
{
    match integers(words) {
        Some(fields) => parse_numbers(verb, fields.as_slice()),
        None => ParsedCommand::BadLine,
    }
}

// Parses a command's name and its numbers.
#[tactic(auto, unfolding(crate::specs::Parsing::parse_numbers))]
fn parse_numbers(verb: Verb, fields: &[Field]) -> ParsedCommand
    ensures { result ≡ parse_numbers verb fields.now }
{
    match fields {
        [] => parse_no_numbers(verb),
        [number] => parse_one_number(verb, number),
        [vehicle, stops] => parse_two_numbers(verb, vehicle, stops),
        [q, x, y, e, l, s] => parse_spot(verb, q, spot_of(x, y, e, l, s)),
        [q, x, y, e, l, s, x2, y2, e2, l2, s2] => parse_two_spots(
            verb,
            q,
            spot_of(x, y, e, l, s),
            spot_of(x2, y2, e2, l2, s2),
        ),
        _ => ParsedCommand::BadLine,
    }
}

// Parses the words after `load`.
fn parse_load(words: &mut Words<'_>) -> ParsedCommand
    ensures { result ≡ parse_load words.old }
{
    let Some(kind) = words.next() else {
        return ParsedCommand::BadText;
    };
    load_with(Format::named(kind), integers(words))
}

fn load_with(format: Option<Format>, fields: Option<Fields>) -> ParsedCommand
    ensures { result ≡ load_with format fields }
{
    let Some(format) = format else {
        return ParsedCommand::BadText;
    };
    let Some(fields) = fields else {
        return ParsedCommand::BadText;
    };
    match fields.as_slice() {
        [seed, len] => load_within(format, seed.unsigned, len.unsigned),
        _ => ParsedCommand::BadText,
    }
}

fn load_within(format: Format, seed: Option<u64>, len: Option<u64>) -> ParsedCommand
    ensures { result ≡ load_within format seed (below (MAX_TEXT_LEN + 1) len) }
{
    match seed {
        Some(seed) => text_within(Purpose::Load { format, seed }, len),
        None => ParsedCommand::TextRange,
    }
}

// Parses the words after `adopt`.
fn adopt_with(fields: Option<Fields>) -> ParsedCommand
    ensures { result ≡ adopt_with fields }
{
    let Some(fields) = fields else {
        return ParsedCommand::BadText;
    };
    match fields.as_slice() {
        [len] => text_within(Purpose::Adopt, len.unsigned),
        _ => ParsedCommand::BadText,
    }
}

fn text_within(purpose: Purpose, len: Option<u64>) -> ParsedCommand
    ensures { result ≡ text_within purpose (below (MAX_TEXT_LEN + 1) len) }
{
    match len {
        Some(len) if len <= MAX_TEXT_LEN => ParsedCommand::Text {
            purpose,
            len: len as u32,
        },
        _ => ParsedCommand::TextRange,
    }
}
