//! Readers and makers of the files that a command line names.
ghost use Rattle.std.specs.Prelude.{◌≡◌, List, [], ◌∷◌, IfOk, MatchResult};
ghost use Rattle.std.specs.Io.{StopsAt};
ghost use Rattle.std.specs.IoError.{error_kind};
ghost use Rattle.auditor_cli.specs.Reads.{FileRead, FileWrite};

use crate::file_record::{FileRecord, Outcome};
use std::fs::{File, OpenOptions};
use std::io::{BufRead, BufReader, ErrorKind, Write};
use std::rt::Files;
use std::{fs, io};
use system_calls::{SystemCallLog, sync_folder_of};

/// A reader of files by path, each completely or line by line. It records each read with its result.
pub trait ReadFiles {
    /// A file that is read line by line.
    type OpenFile: Drop;

    /// The reads so far with their results, newest first.
    ghost reads: { Self → List FileRead };

    /// Reads the whole file.
    fn read(&mut self, path: &str) -> io::Result<Vec<u8>>
        ensures { MatchResult result
            (λ text. reads self.new ≡ (path.now, Ok text.items) ∷ reads self.old)
            (λ error. reads self.new ≡ (path.now, Err (error_kind error)) ∷ reads self.old) };

    /// Opens a file for reading line by line. Reads nothing from it. An error is recorded like that of a read.
    fn open(&mut self, path: &str) -> io::Result<Self::OpenFile>
        ensures { MatchResult result
            (λ _. reads self.new ≡ reads self.old)
            (λ error. reads self.new ≡ (path.now, Err (error_kind error)) ∷ reads self.old) };

    /// Reads the next line of a file that was opened from this path, with its line feed. Returns the rest of the
    /// file if it has no line feed, and no bytes at the end of the file.
    fn read_line(&mut self, path: &str, opened: &mut Self::OpenFile) -> io::Result<Vec<u8>>
        ensures noted { MatchResult result
            (λ line. reads self.new ≡ (path.now, Ok line.items) ∷ reads self.old)
            (λ error. reads self.new ≡ (path.now, Err (error_kind error)) ∷ reads self.old) }
        ensures line { IfOk result (λ line. StopsAt line.items 10) };
}

/// A maker of new files by path, each written as a whole. It records the path and the bytes of each file, or
/// the error.
pub trait WriteFiles {
    /// The files written so far, or not written because of an error, newest first.
    ghost writes: { Self → List FileWrite };

    /// Checks, as far as possible beforehand, that a new file can be made at the path. Fails, for example, if a
    /// file already exists there.
    fn check_new(&mut self, path: &str) -> io::Result<()>
        ensures { MatchResult result
            (λ _. writes self.new ≡ writes self.old)
            (λ error. writes self.new ≡ (path.now, Err (error_kind error)) ∷ writes self.old) };

    /// Writes a whole new file. If something already exists at the path, leaves it as it is and fails.
    fn write_new(&mut self, path: &str, text: &[u8]) -> io::Result<()>
        ensures { MatchResult result
            (λ _. writes self.new ≡ (path.now, Ok text.now) ∷ writes self.old)
            (λ error. writes self.new ≡ (path.now, Err (error_kind error)) ∷ writes self.old) };
}

// The system's files, and the record of those that were read or made.
#[derive(Drop)]
struct Host<'a, R> {
    rt: &'a R,
    noted: FileRecord,
}

impl<'a, R> Host<'a, R> {
    fn new(rt: &'a R) -> Host<'a, R>
        ensures { result.noted ≡ [] }
    {
        Host {
            rt,
            noted: FileRecord::new(),
        }
    }

    // Records a file with the bytes read or written.
    fn done(&mut self, path: &str, text: &[u8])
        ensures { self.new.noted ≡ (path.now, Ok text.now) ∷ self.old.noted }
    {
        self.noted.note(path.as_bytes(), Outcome::Done, text);
    }
}

impl<'a, R: Eprint> Host<'a, R> {
    // Records a file that can't be read or made, and returns the error. Prints the system's error on standard
    // error, except if a new file already exists.
    fn fail(&mut self, path: &str, error: io::Error) -> io::Error
        ensures noted { self.new.noted ≡ (path.now, Err (error_kind error)) ∷ self.old.noted }
        ensures same { result ≡ error }
    {
        let kind = error.kind();
        if kind != ErrorKind::AlreadyExists {
            let _ = eprintln!(self.rt; "planner: {path}: {error}");
        }
        self.noted.note(path.as_bytes(), Outcome::Failed(kind), &[]);
        error
    }
}

/// The files of the system, with standard input for the path `-`. If a file can't be read, the system's error is
/// printed on standard error.
#[derive(Drop)]
pub struct HostFiles<'a, R> {
    host: Host<'a, R>,
}

impl<'a, R> HostFiles<'a, R> {
    /// Makes a reader that has read nothing yet.
    pub fn new(rt: &'a R) -> HostFiles<'a, R>
        ensures { result.host.noted ≡ [] }
    {
        HostFiles {
            host: Host::new(rt),
        }
    }
}

impl<'a, R: Files + Eprint + AllocGlobal> ReadFiles for HostFiles<'a, R> {
    type OpenFile = BufReader<R::File>;

    ghost reads = { λ f. f.host.noted };

    fn read(&mut self, path: &str) -> io::Result<Vec<u8>> {
        match fs::read(self.host.rt, source_of(path)) {
            Ok(text) => {
                self.host.done(path, &text);
                Ok(text)
            }
            Err(error) => Err(self.host.fail(path, error)),
        }
    }

    fn open(&mut self, path: &str) -> io::Result<BufReader<R::File>> {
        match open_source(self.host.rt, path) {
            Ok(opened) => Ok(opened),
            Err(error) => Err(self.host.fail(path, error)),
        }
    }

    fn read_line(&mut self, path: &str, opened: &mut BufReader<R::File>) -> io::Result<Vec<u8>> {
        let mut line = Vec::new(self.host.rt.alloc());
        match opened.read_until(b'\n', &mut line) {
            Ok(_) => {
                self.host.done(path, &line);
                Ok(line)
            }
            Err(error) => Err(self.host.fail(path, error)),
        }
    }
}

// Returns the system's path for a path on the command line: `-` is standard input.
fn source_of(path: &str) -> &str {
    if path == "-" { "/dev/stdin" } else { path }
}

fn open_source<R: Files + AllocGlobal>(rt: &R, path: &str) -> io::Result<BufReader<R::File>> {
    let file = fs::open(rt, source_of(path))?;
    BufReader::new(rt.alloc(), file)
}

/// New files of the system. Each is on the disk before it is recorded as written. If a file can't be made, the
/// system's error is printed on standard error, except if the file already exists.
#[derive(Drop)]
pub struct HostNewFiles<'a, R> {
    host: Host<'a, R>,
}

impl<'a, R> HostNewFiles<'a, R> {
    /// Makes a writer that has written nothing yet.
    pub fn new(rt: &'a R) -> HostNewFiles<'a, R>
        ensures { result.host.noted ≡ [] }
    {
        HostNewFiles {
            host: Host::new(rt),
        }
    }
}

impl<'a, R: Files<File = File> + Eprint> WriteFiles for HostNewFiles<'a, R> {
    ghost writes = { λ f. f.host.noted };

    fn check_new(&mut self, path: &str) -> io::Result<()> {
        match check_new_file(self.host.rt, path) {
            Ok(()) => Ok(()),
            Err(error) => Err(self.host.fail(path, error)),
        }
    }

    fn write_new(&mut self, path: &str, text: &[u8]) -> io::Result<()> {
        match write_new_file(self.host.rt, path, text) {
            Ok(()) => {
                self.host.done(path, text);
                Ok(())
            }
            Err(error) => Err(self.host.fail(path, error)),
        }
    }
}

// Checks that a new file can be made at the path: makes one and removes it. So a folder that can't be written is
// reported before a long search.
fn check_new_file<R: Files<File = File>>(rt: &R, path: &str) -> io::Result<()> {
    open_new(rt, path)?;
    fs::remove_file(rt, path)
}

// Makes a file at a path that does not exist, not even as a dangling link.
fn open_new<R: Files<File = File>>(rt: &R, path: &str) -> io::Result<File> {
    OpenOptions::new()
        .write(true)
        .create_new(true)
        .open(rt, path)
}

// Writes a new file, and syncs the file and its name. Removes a file that could not be written completely.
fn write_new_file<R: Files<File = File>>(rt: &R, path: &str, text: &[u8]) -> io::Result<()> {
    let mut file = open_new(rt, path)?;
    let written = match write_whole(&mut file, text) {
        Ok(()) => sync_folder_of(rt, path, &mut SystemCallLog::new()),
        failed => failed,
    };
    if written.is_err() {
        let _ = fs::remove_file(rt, path);
    }
    written
}

fn write_whole(file: &mut File, text: &[u8]) -> io::Result<()> {
    file.write_all(text)?;
    file.sync_all()
}
