//! The command loop of `run`: reads the commands of an input, executes them on a session, and writes the
//! answers.
//!
//! Entry points: `serve_source` takes any device, `Source` and `Sink`; `planner_cli` calls it for the `run`
//! subcommand. `serve` takes any reader and writer of std.
//!
//! Source: this project's own. `command_text` defines the commands and their answers.
//!
//! Bytes are read in blocks of 8,192. Up to 1,026 bytes of a line are kept in an array. For a longer line only
//! the state of its first word is kept, which shows whether the line announces a text. So reading lines takes
//! no memory, and out of memory never looks like a failed reader. Only an announced text takes memory. `ok` and
//! `at` are written after the last sync of what they acknowledge, and each answer is flushed. Each call of a
//! `Sink` takes the session, so that contracts can say how many device calls had finished at each write and
//! flush. The results of reads are recorded for contracts only, without cost at run time.
//!
//! Modules, in reading order:
//! - `streams`: `Source`, `Sink`, and `FailureTracking`, which turns any reader or writer of std into one of
//!   them; `write_text`
//! - `events`: the record of writes, flushes and reads, for contracts only
//! - `strict`: `StrictWriter`, a sink whose `flush` fails after an answer that reports a refusal or a failed
//!   device
//! - `read_buffer`: the read buffer
//! - `input`: reads an input as lines and announced texts
//! - `answering`: `serve_source`, and a function for each kind of command
//! - `hints`: messages for people, logged beside an answer
//! - `std_streams`: `serve`
//! - `laws`: recovery after a crash, the causes of answers, and the end of strict serving
//!
//! Proved for `serve_source`: after `Ok` the output is the answer to the input, and the session is in the state
//! after the executed operations. After a `ServeFault` this holds for a prefix of the input, with at most one
//! more operation, whose answer is written in part, whole or not at all. The input requested each operation
//! that was tried, and no answer is written before the device calls that it acknowledges have finished. A crash
//! at any moment recovers to the state after a prefix of the kept operations: those executed, and the one
//! during which the device failed, if any. The prefix has every acknowledged operation
//! (`crashed_servings_recover` states this for an input). `no Spent`, `fault device` and `ServeFault` occur
//! only with their causes. Serving through a `StrictWriter` executes nothing after the first answer that
//! reports a refusal or a failed device.
//!
//! Not excluded: `OutOfMemory` although there is memory, a `flush` that passes nothing on, and a
//! `FailureTracking` that always fails, since std's contracts do not say when a call may fail nor what a flush
//! does. The test programs show that none of this happens.
#![tactic(auto)]

mod answering;
mod events;
mod hints;
mod input;
mod laws;
mod read_buffer;
mod std_streams;
mod streams;
mod strict;

pub use answering::{ServeFault, serve_source};
pub use laws::{crashed_servings_recover, fates_have_causes, nothing_is_done_after_a_refusal};
pub use std_streams::serve;
pub use streams::{FailureTracking, IoFault, Sink, Source, TrackingState, write_text};
pub use strict::{FailedAnswer, StrictWriter, last_lines_are_ended};
