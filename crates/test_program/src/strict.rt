//! `StrictWriter` of `command_server`: texts in parts that the program never writes, and a session over a
//! failing device in memory.

use checkpoint::{SECTORS, format};
use command_server::{FailedAnswer, FailureTracking, ServeFault, Sink, StrictWriter, serve_source};
use log::sink::Discard;
use recover::Session;
use sector_disk::MemDevice;
use std::alloc::Global;
use std::test::Fail;

/// A text that is written and flushed, and the failure that the last complete line then reports, if any.
type WriteStep = (&'static [u8], Option<FailedAnswer>);

const REFUSED: Option<FailedAnswer> = Some(FailedAnswer::Refused);

const DEVICE_FAULT: Option<FailedAnswer> = Some(FailedAnswer::DeviceFault);

const WRITE_STEPS: [WriteStep; 14] = [
    (b"", None),
    (b"ok\n", None),
    (b"no Range\n", REFUSED),
    (b"ok\n", None),
    (b"nothing\n", None),
    (b"not yet\n no Range\nno\n", None),
    (b"no", None),
    (b" Range", None),
    (b"\n", REFUSED),
    (b"vehicle 1: 2 1\n", None),
    (b"fault device\n", DEVICE_FAULT),
    (b"no \nfault devices\n", None),
    (b"fault device\nno FieldCount 1\n", REFUSED),
    (b"fault device", REFUSED),
];

// Returns whether the writer accepts the text of `put` and then reports the failure of `put`, or none.
fn reports(
    writer: &mut StrictWriter<Vec<u8>>,
    session: &Session<MemDevice>,
    put: &WriteStep,
) -> bool {
    let (text, stopped) = *put;
    let is_taken = writer.put(session, text).is_ok();
    let is_flushed = Sink::flush(writer, session).is_ok();
    is_taken
        && is_flushed == stopped.is_none()
        && writer.failed_answer() == stopped
        && !writer.has_failed()
}

// Returns the index of the first text after which the writer does not report the expected failure.
fn first_wrong(alloc: Global, session: &Session<MemDevice>, puts: &[WriteStep]) -> Option<usize> {
    let mut writer = StrictWriter::new(FailureTracking::new(Vec::new(alloc)));
    for index in 0..puts.len() {
        if !reports(&mut writer, session, &puts[index]) {
            return Some(index);
        }
    }
    None
}

fn first_wrong_step(alloc: Global) -> Result<Option<usize>, Fail> {
    let session = opened(alloc, new_device(alloc)?).ok_or("a session")?;
    let wrong = first_wrong(alloc, &session, &WRITE_STEPS);
    drop(session);
    Ok(wrong)
}

#[test]
fn reports_the_last_line(rt: HostRuntime) -> Result<(), Fail> {
    assert!(rt; first_wrong_step(rt.alloc())?.is_none());
    Ok(())
}

pub(crate) fn new_device(alloc: Global) -> Result<MemDevice, Fail> {
    let mut device = MemDevice::new(alloc, SECTORS).ok().ok_or("a device")?;
    format(alloc, &mut device).ok().ok_or("a store")?;
    Ok(device)
}

pub(crate) fn opened(alloc: Global, device: MemDevice) -> Option<Session<MemDevice>> {
    Some(Session::open(alloc, device).ok()?.session)
}

/// The result of serving an input strictly.
#[derive(Drop)]
struct ServeResult {
    text: Vec<u8>,
    fault: Option<ServeFault>,
    stopped: Option<FailedAnswer>,
}

fn serve_strictly(alloc: Global, session: &mut Session<MemDevice>, input: &[u8]) -> ServeResult {
    let mut reader: &[u8] = input;
    let mut writer = StrictWriter::new(FailureTracking::new(Vec::new(alloc)));
    let fault = serve_source(&Discard, alloc, session, &mut reader, &mut writer).err();
    let stopped = writer.failed_answer();
    ServeResult {
        text: writer.into_inner().into_inner(),
        fault,
        stopped,
    }
}

const ONE_PAIR: &[u8] =
    b"load lilim 0 66\n1 10 1\n0 0 0 0 0 100 0 0 0\n1 1 1 1 0 50 0 0 2\n2 1 1 -1 0 50 0 1 0\nbuild\nnext\n";

// Returns the result of serving `ONE_PAIR` over a store whose device fails at its first call after the opening.
fn serve_on_faulty_device(alloc: Global) -> Result<ServeResult, Fail> {
    let mut device = new_device(alloc)?;
    for calls in 0..64 {
        device.fail_once(calls);
        match Session::open(alloc, device) {
            Ok(opened) => {
                let mut session = opened.session;
                let served = serve_strictly(alloc, &mut session, ONE_PAIR);
                drop(session);
                return Ok(served);
            }
            Err((_, given_back)) => device = given_back,
        }
    }
    Err("a session".into())
}

#[test]
fn ends_after_a_device_fault(rt: HostRuntime) -> Result<(), Fail> {
    let served = serve_on_faulty_device(rt.alloc())?;
    assert!(rt; served.text.as_slice() == b"fault device\n".as_slice());
    assert!(rt; served.fault == Some(ServeFault::WriteFault) && served.stopped == DEVICE_FAULT);
    Ok(())
}
