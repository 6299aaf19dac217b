//! The progress of long commands, on standard error. No clause covers it.
ghost use Rattle.std.specs.Prelude.{[], true, Some};

use log::kv::Source;
use log::span::Spans;
use log::{Log, Metadata, Record};
use std::fmt::Display;

/// A logger that writes each record as a line on standard error. A line that can't be written is dropped.
#[derive(Drop)]
pub(crate) struct Progress<'a, R>(pub &'a R);

impl<'a, R: Eprint> Log for Progress<'a, R> {
    ghost enables = { λ _ _ _. Some true };

    ghost target_of = { λ _. Some [] };

    fn enabled(&self, _metadata: &Metadata<'_>) -> bool {
        true
    }

    fn log<D: Display, K: Source, S: Spans>(&self, record: &Record<'_, D, K, S>) {
        let _ = eprintln!(self.0; "{}", record.args());
    }

    fn flush(&self) {}

    fn target(&self) -> &str {
        ""
    }
}
