//! The text interface of `run`, without devices and streams: it parses commands, formats answers, and defines
//! the answers to a whole input. `command_server` uses it to serve a session, `plan_solve` to print its steps.
//!
//! Entry points: `read_line` parses a line. `Answer::line`, `at_line`, `next_line`, `help_lines`, `show`,
//! `print` and `question_text` format answers. `steps_to_make` and `next_command` split a command that makes
//! steps into operations (`Command` of `command_core`).
//!
//! Source: this project's own.
//!
//! A line is a command's name and its numbers, separated by spaces or tabs. A command with many steps is split
//! into operations of at most 256 search steps, 16,384 annealing steps, or 524,288 steps that look for fewer
//! vehicles. After each operation, an `at` line acknowledges its steps. A number that does not fit its field is
//! noticed while the line is parsed. The answer is then the refusal of that number, unless the session is broken
//! or has no instance. Answers to an executed operation need no memory: otherwise a missing `at` or `ok` would
//! look like a refusal of something that was done.
//!
//! The fate of an attempt is its outcome: it succeeds, memory runs out, the store can't be written any more, or
//! the device fails. The definition of the answers takes a list of fates, one for each attempt, so that every
//! outcome can occur at any attempt. After the end of the list, every attempt succeeds. The definition also
//! takes a `Reading`, which says what each text contains. An instance contains a problem or a first fault, a
//! solution a plan or the reason why there is none. There is exactly one `Reading`.
//!
//! Modules, in reading order:
//! - `fields`: the numbers of a line
//! - `parsed_command`: the parsed command, and `read_line`
//! - `verbs`: the names of the commands, and the commands that announce no text, with their numbers
//! - `first_word`: the first word of a line that arrives in parts
//! - `steps`: the operations of a command that makes steps; `staging`: those of annealing in stages
//! - `freezing`: the operations of `freeze`
//! - `instances`, `plans`: the texts that follow a `load` and an `adopt` command
//! - `answers`: the lines of answers
//! - `help`: the answer to `help`
//! - `showing`: the answers to `show`, `print` and `instance`
//! - `questions`: the answers to `timetable` and `why`
//! - `laws`: the laws about cutting an input and about the state that it leaves
//!
//! Proved: every parsed command, every byte of every answer, and every list of operations is as defined in
//! `specs`. A printed solution reads back as the plan's routes and distance. An input is cut into lines with the
//! bytes that they announce, and it leaves the state after the executed operations. If `anneal FROM TO` or
//! `reach N` is cut off anywhere and repeated, it ends in the same state as without the interruption.
#![tactic(auto)]

mod answers;
mod fields;
mod first_word;
mod freezing;
mod help;
mod instances;
mod laws;
mod parsed_command;
mod plans;
mod questions;
mod showing;
mod staging;
mod steps;
mod verbs;

pub use answers::{Answer, Progress, ShortLine, at_line, next_line, pin_line, progress_after};
pub use first_word::FirstWord;
pub use help::{HELP, help_lines};
pub use instances::read_instance;
pub use laws::{
    pieces_follow, reaches_may_be_cut, stages_may_be_cut, states_follow, texts_have_a_reading,
};
pub use parsed_command::{MAX_LINE_LEN, MAX_TEXT_LEN, ParsedCommand, Purpose, read_line};
pub use plans::read_plan;
pub use questions::{Question, question_refusal, question_text};
pub use showing::{Text, print, print_instance, show};
pub use steps::{StepCursor, StepRequest, next_command, next_count, steps_to_make};
