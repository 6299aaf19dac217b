//! Assumptions about a file when it is opened.
//!
//! A type `S: FileAssumptions` holds the assumptions, and a function generic over it is proved for all of them.
//! Each opening consumes a value of `S`, so such a function opens one file for each value that it receives.
//! Otherwise two files under one `S` could be shown to disagree with it, and the clauses would be vacuous. Only
//! `main` names a concrete type, `UnknownFile`.
ghost use Rattle.std.specs.Prelude.{ℕ, List, [], ◌∷◌};
ghost use Rattle.sector_disk.specs.Model.{Disk, settled};

/// The content of a file when it is opened, and what its reads return after a failed call. No code can read
/// these members. So a function over `S: FileAssumptions` is proved for every file, and its theorem reads: if
/// the file answers as these members say, then ..
pub trait FileAssumptions: Drop {
    /// The bytes that reads return, and the possible contents of each sector. A sector may have several: a
    /// killed process leaves writes that are not durable yet.
    ghost disk: { Disk };

    /// The bytes that reads return after a failed write or sync. The argument is the number of earlier entries
    /// in the file's record.
    ghost shown: { ℕ → List ℕ };
}

/// The type that assumes nothing, for `main` and for code without a clause on contents. With this type, a
/// clause on contents says nothing about a nonempty file.
#[derive(Drop)]
pub struct UnknownFile;

impl FileAssumptions for UnknownFile {
    ghost disk = { settled [] };

    ghost shown = { λ _. [] };
}
