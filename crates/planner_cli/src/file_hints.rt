//! Hints for the user about a file that is opened as a store but holds no store of the expected version: what
//! the file may be, and what to do.
//!
//! They are printed on standard error, and no clause covers their text. The device is only read for them.
ghost use Rattle.std.specs.Prelude.{◌↔◌, ◌≡◌, IsTrue, take};
ghost use Rattle.checkpoint.specs.Headers.{magic};
ghost use Rattle.planner_cli.specs.StoreDevices.{IsReadAtMost};

use checkpoint::{SECTORS, StoreFault};
use file_disk::FileFault;
use sector_disk::{SECTOR_SIZE, Sectors};

// The first bytes of each header.
const MAGIC: [u8; 8] = *b"PDRSTORE";

/// The kind of a file that holds no valid header, judged by its length and its first two sectors.
#[derive(Clone, Copy)]
enum FileKind {
    /// A file with a sector that begins like a header, but shorter than a store.
    Truncated,
    /// A file with a sector that begins like a header, and at least as long as a store.
    Header,
    /// An empty file.
    Empty,
    /// A file whose first two sectors have only zeros.
    Zeros,
    /// A file whose first sector has only bytes of text.
    Text,
    /// A file of any other kind.
    Unrecognized,
}

impl FileKind {
    // Returns the hint: what may have happened and what to do.
    fn hint(self) -> &'static str {
        match self {
            FileKind::Truncated =>
                "it begins like a store, but its end is missing: use a whole copy",
            FileKind::Header =>
                "it begins like a store, but its headers are damaged: use a whole copy",
            FileKind::Empty =>
                "it is empty: `planner load STORE KIND INSTANCE` creates a store in it",
            FileKind::Zeros => {
                "it begins with zeros in place of headers. If a `load` was interrupted while it created the store, nothing is lost: move the file aside and load again. Otherwise use a whole copy"
            }
            FileKind::Text => {
                "it is a text file, not a store: `planner load STORE KIND INSTANCE` creates a store from an instance, in a new file"
            }
            FileKind::Unrecognized => {
                "it does not begin like a store: it is another file, its creation was interrupted, or its headers are damaged"
            }
        }
    }
}

/// The content of a sector, judged by its bytes.
#[derive(Clone, Copy)]
enum Content {
    Header,
    Zeros,
    Text,
    Other,
}

/// Prints a hint about a file whose length is not a whole number of sectors.
pub(crate) fn report_length<R: Eprint>(rt: &R, path: &str, fault: FileFault) {
    if let FileFault::BadLength = fault {
        let _ = eprintln!(rt;
            "planner: {path}: it does not end with a whole sector of 512 bytes, so it is not a whole store. If it was a store, use a whole copy. `planner load STORE KIND INSTANCE` creates a store from an instance, in a new file"
        );
    }
}

/// Prints a hint about a device that holds no store, or one of another version.
pub(crate) fn report_file_kind<R: Eprint, D: Sectors>(
    rt: &R,
    path: &str,
    fault: StoreFault,
    device: &mut D,
)
    ensures { IsReadAtMost D.Sectors device.old device.new }
{
    match fault {
        StoreFault::NotFormatted => {
            let hint = file_kind_of(device).hint();
            let _ = eprintln!(rt; "planner: {path}: {hint}");
        }
        StoreFault::BadVersion => {
            let _ = eprintln!(rt;
                "planner: {path}: it has another version: `planner upgrade OLD NEW` converts a store of version 1 into a new store"
            );
        }
        _ => {}
    }
}

/// Prints a hint about a file that holds no store of version 1.
pub(crate) fn report_upgrade_hint<R: Eprint>(rt: &R, path: &str, fault: StoreFault) {
    match fault {
        StoreFault::NotFormatted => {
            let _ = eprintln!(rt;
                "planner: {path}: it has no store of version 1: it is another file, its end is missing, or its headers are damaged. Use a whole copy"
            );
        }
        StoreFault::BadVersion => {
            let _ = eprintln!(rt;
                "planner: {path}: it does not have version 1. A store of version 2 needs no upgrade: `run` opens it as it is"
            );
        }
        _ => {}
    }
}

// Returns the kind of the device's file. Reads at most two sectors.
fn file_kind_of<D: Sectors>(device: &mut D) -> FileKind
    ensures { IsReadAtMost D.Sectors device.old device.new }
{
    if device.len() == 0 {
        return FileKind::Empty;
    }
    let first = content_at(device, 0);
    let second = content_at(device, 1);
    kind_of_sectors(first, second, device.len() < SECTORS)
}

// Returns the kind of a file with these first two sectors.
fn kind_of_sectors(first: Content, second: Content, is_short: bool) -> FileKind {
    match (first, second, is_short) {
        (Content::Header, _, true) | (_, Content::Header, true) => FileKind::Truncated,
        (Content::Header, _, false) | (_, Content::Header, false) => FileKind::Header,
        (Content::Zeros, Content::Zeros, _) => FileKind::Zeros,
        (Content::Text, _, _) => FileKind::Text,
        _ => FileKind::Unrecognized,
    }
}

// Returns the content of this sector of the device, or `Other` if there is no such sector or it can't be read.
fn content_at<D: Sectors>(device: &mut D, index: u64) -> Content
    ensures { IsReadAtMost D.Sectors device.old device.new }
{
    if index >= device.len() {
        return Content::Other;
    }
    let mut sector = [0; SECTOR_SIZE];
    match device.read(index, &mut sector) {
        Ok(()) => content_of(&sector),
        Err(_) => Content::Other,
    }
}

fn content_of(sector: &[u8; SECTOR_SIZE]) -> Content {
    if has_magic(sector) {
        return Content::Header;
    }
    if sector.iter().all(|byte| *byte == 0) {
        return Content::Zeros;
    }
    if sector.iter().all(|byte| is_of_text(*byte)) {
        return Content::Text;
    }
    Content::Other
}

// Returns whether text can contain this byte: every byte except control characters, of which only tabs and line
// ends are allowed.
fn is_of_text(byte: u8) -> bool {
    matches!(byte, b'\t' | b'\n' | b'\r' | b' '..=0xff)
}

// Returns whether a sector begins like a header.
fn has_magic(sector: &[u8; SECTOR_SIZE]) -> bool
    ensures { IsTrue result ↔ (take 8 sector.now ≡ magic) }
{
    &sector[..8] == MAGIC.as_slice()
}
