//! The record of the files that were read or made. Only contracts use it.
ghost use Rattle.std.specs.Prelude.{◌≡◌, [], ◌∷◌};
ghost use Rattle.auditor_cli.specs.FileOutcome.{given};

use ghost_values::{Ghost, ListOf};
use std::io::ErrorKind;
use std::marker::Model;

/// The result of reading or making a file.
#[derive(Clone, Copy)]
pub(crate) enum Outcome {
    Done,
    Failed(ErrorKind),
}

/// The path of a file, with the bytes read or written, or the kind of the error.
type Entry = (ListOf<u8>, Result<ListOf<u8>, ErrorKind>);

/// The files that were read or made, the newest first.
#[derive(Drop)]
pub(crate) struct FileRecord {
    entries: Ghost<ListOf<Entry>>,
}

impl Model for FileRecord {
    ghost use Rattle.std.specs.Prelude.{List};
    ghost use Rattle.auditor_cli.specs.Reads.{FileEntry};

    ghost Value = { List FileEntry };

    ghost view = { λ r. r.entries.value };
}

impl FileRecord {
    /// Makes a record without files.
    pub(crate) fn new() -> FileRecord
        ensures { result ≡ [] }
    {
        FileRecord {
            entries: Ghost::of(),
        }
    }

    /// Adds a file with the bytes read or written, or with the error.
    pub(crate) fn note(&mut self, path: &[u8], outcome: Outcome, text: &[u8])
        ensures { self.new ≡ (path.now, given outcome text.now) ∷ self.old }
    {
        self.entries = self.entries.after((path, outcome, text));
    }
}
