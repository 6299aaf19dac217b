//! Opens a store, on a device or in a file.
//!
//! Replaying the search steps of a store can take long, so their number is first printed on standard error. The
//! number is found by reading only. If that read fails, opening fails with the same cause, since otherwise one
//! fault of the device would be counted twice.
ghost use Rattle.std.specs.Prelude.{◌≡◌, ◌≤◌, ◌∷◌, IfErr, IfOk, MatchResult, OnOk};
ghost use Rattle.file_disk.specs.DeviceFiles.{IsOpenedExistingAt};
ghost use Rattle.recover.specs.Opening.{IsOpened, IsRefused};
ghost use Rattle.planner_cli.specs.ReplayNotice.{AnnouncesReplay, IsStepsOfImage};
ghost use Rattle.planner_cli.specs.StoreDevices.{IsLeftOnFailure};
ghost use Rattle.planner_cli.specs.Opening.{MayAnnounceReplay, IsOpening, IsStoreOpening, open_failure_line, open_failure_status};
ghost use Rattle.planner_cli.specs.Messages.{PrintsText};

use crate::file_hints::{report_file_kind, report_length};
use crate::messages::{
    print_file_refusal, print_format_fault, print_repeating, print_store_fault, report_cause,
    report_repair_hint,
};
use checkpoint::{FormatFault, StoreFault, images_hold_at_most_one_state};
use file_disk::{
    DeviceFiles, FileAssumptions, FileCalls, FileDevice, FileRequest, HostFile, OpenError,
};
use recover::{Opened, Session, steps_to_replay};
use sector_disk::Sectors;
use std::alloc::Global;
use std::io;
use std::io::Write;

/// The reason why a store was not opened.
#[derive(Drop)]
pub(crate) enum OpenFailure<D> {
    /// The file could not be opened as a device.
    File(OpenError),
    /// The store on this device can't be opened.
    Store(StoreFault, D),
    /// The device held no store, and formatting it failed.
    FormatFailed(FormatFault, D),
}

/// The result of opening a store.
#[derive(Drop)]
pub(crate) struct Opening<D: Sectors> {
    /// Whether the number of replayed search steps could be printed. If it could not, opening goes on.
    pub reported: io::Result<()>,
    /// The session, or the fault and the device.
    pub opened: Result<Opened<D>, (StoreFault, D)>,
}

impl<D: Sectors> Opening<D> {
    /// Returns the session, or the fault and the device, whether or not the line could be printed.
    pub(crate) fn into_opened(self) -> Result<Opened<D>, (StoreFault, D)>
        ensures { result ≡ self.opened }
    {
        let Opening { opened, .. } = self;
        opened
    }
}

/// Opens the store on the device, or returns the fault and the device. Before replaying search steps, prints
/// their number on `errors`.
pub(crate) fn open_session<D: Sectors, E: Write>(
    alloc: Global,
    device: D,
    errors: &mut E,
) -> Opening<D>
    ensures opens { MatchResult result.opened
        (λ opened. IsOpened D.Sectors device opened.session opened.replayed)
        (λ refused. IsRefused D.Sectors device refused.1 refused.0) }
    ensures reported { OnOk result.reported (MatchResult result.opened
        (λ opened. AnnouncesReplay D.Sectors opened.session.device (λ steps. opened.replayed ≡ steps)
        (E.contents errors.old) (E.contents errors.new))
        (λ refused. AnnouncesReplay D.Sectors refused.1 (IsStepsOfImage D.Sectors device refused.0)
        (E.contents errors.old) (E.contents errors.new))) }
{
    images_hold_at_most_one_state();
    let mut device = device;
    match steps_to_replay(alloc, &mut device) {
        Ok(steps) => {
            let reported = print_repeating(steps, errors);
            let opened = Session::open(alloc, device);
            Opening { reported, opened }
        }
        Err(fault) => Opening {
            reported: Ok(()),
            opened: Err((fault, device)),
        },
    }
}

/// Opens the store on the device. Before replaying search steps, prints their number on `errors`.
pub(crate) fn open_device<D: Sectors, E: Write>(
    alloc: Global,
    device: D,
    errors: &mut E,
) -> Result<Opened<D>, OpenFailure<D>>
    ensures { IsOpening D.Sectors device result }
{
    let opening = open_session(alloc, device, errors);
    match opening.into_opened() {
        Ok(opened) => Ok(opened),
        Err((fault, device)) => Err(OpenFailure::Store(fault, device)),
    }
}

/// Opens the store in the file, as `open_device` does. Makes no file.
pub(crate) fn open_store<R: AllocGlobal, X: DeviceFiles, T: FileAssumptions, E: Write>(
    rt: &R,
    disks: &mut X,
    start: T,
    store: &str,
    errors: &mut E,
) -> Result<Opened<FileDevice<T>>, OpenFailure<FileDevice<T>>>
    ensures requests { X.requested disks.new ≡ (FileRequest.OpenExisting, store.now) ∷ X.requested disks.old }
    ensures opens { IsStoreOpening ⟦<FileDevice<T> as Sectors>⟧
        (IsOpenedExistingAt ⟦<HostFile as FileCalls>⟧.entries) store.now result }
    ensures announced { IfErr result (λ unopened. MayAnnounceReplay unopened
        (E.contents errors.old) (E.contents errors.new)) }
{
    match disks.open_existing(store, start) {
        Ok(device) => open_device(rt.alloc(), device, errors),
        Err(refusal) => Err(OpenFailure::File(refusal)),
    }
}

/// Closes the session and returns its device. If the device has failed, prints on standard error the system's
/// error and what to do.
pub(crate) fn close_store<R: Eprint, T: FileAssumptions>(
    rt: &R,
    store: &str,
    session: Session<FileDevice<T>>,
) -> FileDevice<T>
    ensures { result ≡ session.device }
{
    let has_failed = session.is_broken();
    let device = session.close();
    report_cause(rt, store, device.cause());
    if has_failed {
        report_repair_hint(rt);
    }
    device
}

/// Prints why the store was not opened, with the system's error on standard error. Returns the device, if there
/// is one.
pub(crate) fn print_open_failure<R: Eprint, T: FileAssumptions, W: Write>(
    rt: &R,
    output: &mut W,
    store: &str,
    unopened: OpenFailure<FileDevice<T>>,
) -> (io::Result<u8>, Option<FileDevice<T>>)
    ensures status { IfOk result.0 (λ status. status ≤ 4) }
    ensures reported { PrintsText (open_failure_line store.now unopened) (open_failure_status unopened)
        (W.contents output.old) (W.contents output.new) result.0 }
    ensures left { IsLeftOnFailure ⟦<FileDevice<T> as Sectors>⟧ unopened result.1 }
{
    match unopened {
        OpenFailure::File(refusal) => {
            report_length(rt, store, refusal.fault);
            (print_file_refusal(rt, output, store, refusal), None)
        }
        OpenFailure::Store(fault, device) => {
            let mut device = device;
            let reported = print_store_fault(output, fault);
            report_file_kind(rt, store, fault, &mut device);
            report_cause(rt, store, device.cause());
            (reported, Some(device))
        }
        OpenFailure::FormatFailed(fault, device) => {
            let reported = print_format_fault(output, fault);
            report_cause(rt, store, device.cause());
            (reported, Some(device))
        }
    }
}
