//! Opens a store for `run`, which also accepts a suspect store. Before that, the first integrity warning is
//! printed on standard error.
//!
//! The warning is found by reading only, with one device call. If the read fails, opening fails with the same
//! cause, as in `opening`.
ghost use Rattle.std.specs.Prelude.{◌≡◌, ◌∷◌, IfErr, MatchResult, Ok, OnOk};
ghost use Rattle.std.specs.Io.KnownBytes.{Appends};
ghost use Rattle.file_disk.specs.DeviceFiles.{IsOpenedExistingAt};
ghost use Rattle.planner_cli.specs.WarnedOpening.{IsFirstWarning, IsWarningOfImage, IsWarned, warning_line, first_warning};
ghost use Rattle.planner_cli.specs.ReplayNotice.{IsStepsOfImage};
ghost use Rattle.planner_cli.specs.Opening.{MayAnnounceReplay, IsOpening, IsStoreOpening};
ghost use Rattle.recover.specs.Opening.{IsOpened, IsRefused};

use crate::opening::{OpenFailure, Opening, open_session};
use checkpoint::{
    IntegrityWarning, IntegrityWarnings, StoreFault, check_integrity, images_hold_at_most_one_state,
};
use file_disk::{DeviceFiles, FileAssumptions, FileCalls, FileDevice, FileRequest, HostFile};
use recover::Opened;
use sector_disk::Sectors;
use std::alloc::Global;
use std::io;
use std::io::Write;

/// Opens the store in the file, as `open_store` does. If the store is suspect, first prints the first integrity
/// warning on `errors`.
pub(crate) fn open_with_warning<R: AllocGlobal, X: DeviceFiles, T: FileAssumptions, E: Write>(
    rt: &R,
    disks: &mut X,
    start: T,
    store: &str,
    errors: &mut E,
) -> Result<Opened<FileDevice<T>>, OpenFailure<FileDevice<T>>>
    ensures requests { X.requested disks.new ≡ (FileRequest.OpenExisting, store.now) ∷ X.requested disks.old }
    ensures opens { IsStoreOpening ⟦<FileDevice<T> as Sectors>⟧
        (IsOpenedExistingAt ⟦<HostFile as FileCalls>⟧.entries) store.now result }
    ensures announced { IfErr result (λ unopened. MayAnnounceReplay unopened
        (E.contents errors.old) (E.contents errors.new)) }
{
    match disks.open_existing(store, start) {
        Ok(device) => open_device_with_warning(rt.alloc(), device, store, errors),
        Err(refusal) => Err(OpenFailure::File(refusal)),
    }
}

// Opens the store on the device. If the store is suspect, first prints a warning.
fn open_device_with_warning<D: Sectors, E: Write>(
    alloc: Global,
    device: D,
    store: &str,
    errors: &mut E,
) -> Result<Opened<D>, OpenFailure<D>>
    ensures { IsOpening D.Sectors device result }
{
    let opening = open_session_with_warning(alloc, device, store, errors);
    match opening.into_opened() {
        Ok(opened) => Ok(opened),
        Err((fault, device)) => Err(OpenFailure::Store(fault, device)),
    }
}

// Opens the store on the device, or returns the fault and the device. Before that, prints on `errors` the first
// integrity warning and then how many search steps will be replayed.
fn open_session_with_warning<D: Sectors, E: Write>(
    alloc: Global,
    device: D,
    store: &str,
    errors: &mut E,
) -> Opening<D>
    ensures opens { MatchResult result.opened
        (λ opened. IsOpened D.Sectors device opened.session opened.replayed)
        (λ refused. IsRefused D.Sectors device refused.1 refused.0) }
    ensures reported { OnOk result.reported (MatchResult result.opened
        (λ opened. IsWarned D.Sectors opened.session.device store.now
        (IsFirstWarning (D.seen device)) (λ steps. opened.replayed ≡ steps)
        (E.contents errors.old) (E.contents errors.new))
        (λ refused. IsWarned D.Sectors refused.1 store.now
        (IsWarningOfImage (D.seen device) refused.0) (IsStepsOfImage D.Sectors device refused.0)
        (E.contents errors.old) (E.contents errors.new))) }
{
    images_hold_at_most_one_state();
    let mut device = device;
    match check_integrity(alloc, &mut device) {
        Ok(doubts) => {
            let warned = print_first_warning(&doubts, store, errors);
            let Opening { reported, opened } = open_session(alloc, device, errors);
            Opening {
                reported: both(warned, reported),
                opened,
            }
        }
        Err(fault) => Opening {
            reported: Ok(()),
            opened: Err((fault, device)),
        },
    }
}

// Prints the first integrity warning; nothing if there is none.
fn print_first_warning<E: Write>(
    doubts: &IntegrityWarnings,
    store: &str,
    errors: &mut E,
) -> io::Result<()>
    ensures { OnOk result (Appends (E.contents errors.old) (E.contents errors.new)
        (warning_line store.now (first_warning doubts.now))) }
{
    match first_warning(doubts) {
        Some(warning) => {
            let name = warning.name();
            writeln!(errors, "planner: {store}: suspect {name}")
        }
        None => Ok(()),
    }
}

// Returns the first warning in the order in which `check` prints them, if there is one.
fn first_warning(doubts: &IntegrityWarnings) -> Option<IntegrityWarning>
    ensures { result ≡ first_warning doubts.now }
{
    if doubts.has(IntegrityWarning::HeaderLost) {
        return Some(IntegrityWarning::HeaderLost);
    }
    if doubts.has(IntegrityWarning::HeadersApart) {
        return Some(IntegrityWarning::HeadersApart);
    }
    if doubts.has(IntegrityWarning::RecordDamaged) {
        return Some(IntegrityWarning::RecordDamaged);
    }
    if doubts.has(IntegrityWarning::RecordsMixed) {
        return Some(IntegrityWarning::RecordsMixed);
    }
    None
}

// Returns `Ok` if both writes succeeded, and otherwise the first error.
fn both(first: io::Result<()>, second: io::Result<()>) -> io::Result<()>
    ensures { OnOk result ((first ≡ Ok tt) × (second ≡ Ok tt)) }
{
    match first {
        Ok(()) => second,
        Err(error) => Err(error),
    }
}
