//! An input that goes on after its end, as that of a terminal may. `FailureTracking` of `command_server` reads
//! nothing after the end.

use crate::strict::{new_device, opened};
use command_server::{FailureTracking, IoFault, ServeFault, Source, serve_source};
use log::sink::Discard;
use std::alloc::Global;
use std::io;
use std::io::Read;
use std::test::Fail;

/// The bytes that each call of a reader returns, up to the end of its input and after it.
type Calls = [&'static [u8]; 4];

/// A reader whose calls return these bytes, and then none.
#[derive(Drop)]
struct Terminal {
    calls: Calls,
    made: usize,
}

impl Read for Terminal {
    fn read(&mut self, block: &mut [u8]) -> io::Result<usize> {
        if self.made >= self.calls.len() {
            return Ok(0);
        }
        let piece = self.calls[self.made];
        self.made += 1;
        let len = piece.len().min(block.len());
        block[..len].copy_from_slice(&piece[..len]);
        Ok(len)
    }
}

/// The end of the input is within a line.
const WITHIN_A_LINE: Calls = [b"show\nne", b"xt", b"", b"\nnext\n"];

/// The end of the input is after the line that announces a text, before the first byte of the text.
const BEFORE_A_TEXT: Calls = [b"show\n", b"load lilim 0 5", b"", b"hello"];

/// The answers to an input, and the number of calls that its reader got.
#[derive(Drop)]
struct ServeResult {
    text: Vec<u8>,
    fault: Option<ServeFault>,
    made: usize,
}

fn serve(alloc: Global, calls: Calls) -> Result<ServeResult, Fail> {
    let mut session = opened(alloc, new_device(alloc)?).ok_or("a session")?;
    let mut reader = FailureTracking::new(Terminal { calls, made: 0 });
    let mut writer = FailureTracking::new(Vec::new(alloc));
    let fault = serve_source(&Discard, alloc, &mut session, &mut reader, &mut writer).err();
    drop(session);
    Ok(ServeResult {
        text: writer.into_inner(),
        fault,
        made: reader.into_inner().made,
    })
}

// Returns whether exactly `wanted` is answered, and the reader gets only the three calls up to the end.
fn is_served(alloc: Global, calls: Calls, wanted: &[u8]) -> Result<bool, Fail> {
    let served = serve(alloc, calls)?;
    Ok(served.text.as_slice() == wanted && served.fault.is_none() && served.made == 3)
}

#[test]
fn reads_nothing_after_the_end(rt: HostRuntime) -> Result<(), Fail> {
    let alloc = rt.alloc();
    let refused = b"no NoInstance\nno NoInstance\n".as_slice();
    assert!(rt; is_served(alloc, WITHIN_A_LINE, refused)?);
    let truncated = b"no NoInstance\nno Truncated\n".as_slice();
    assert!(rt; is_served(alloc, BEFORE_A_TEXT, truncated)?);
    Ok(())
}

// Returns how many calls the reader gets for one read into an empty block and then `reads` more reads.
fn read_calls(calls: Calls, reads: u32) -> Result<usize, IoFault> {
    let mut reader = FailureTracking::new(Terminal { calls, made: 0 });
    let mut block = [0; 8];
    reader.read_some(&mut block[..0])?;
    for _ in 0..reads {
        reader.read_some(&mut block)?;
    }
    Ok(reader.into_inner().made)
}

#[test]
fn a_read_with_no_room_is_no_end(rt: HostRuntime) -> Result<(), Fail> {
    assert!(rt; read_calls([b"", b"next", b"", b"\n"], 9) == Ok(3));
    Ok(())
}
