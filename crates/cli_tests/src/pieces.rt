//! One input, served over stores in memory: in pieces of several sizes, with a reader and a writer that fail at
//! each call in turn, and with a device that fails once, at each of its calls in turn.

use crate::faulty_streams::{Chunks, LimitedWriter};
use crate::stores::{FaultResult, ServeResult, new_store, serve_input, serve_on_faulty_device};
use planner_cli::ServeFault;
use std::alloc::{AllocError, Global};
use std::io;
use std::io::Write;

const LOAD: &str =
    "load vrp 0 173\nNAME : t3\nTYPE : CVRP\nDIMENSION : 4\nEDGE_WEIGHT_TYPE : EUC_2D\nCAPACITY : 10\nNODE_COORD_SECTION\n1 0 0\n2 3 4\n3 6 8\n4 0 5\nDEMAND_SECTION\n1 0\n2 6\n3 4\n4 5\nDEPOT_SECTION\n1\n-1\nEOF\n";

/// The parts of the input: each is a command with the bytes that it announces. The last one has no line feed.
const PARTS: [&str; 9] = [
    "search 1\n",
    LOAD,
    "build\r\n",
    "search 600\n",
    "print\n",
    "\n",
    "pin 1 1\n",
    "deviation 5\r\n",
    "show",
];

/// A line that announces one byte more than `load` allows.
const LOAD_OUT_OF_RANGE: &str = "load lilim 0 16777217\n";

/// Commands that are refused after the device has failed in `build`. A `load` follows them.
const REFUSED: &str = "show\nsearch 1\n";

/// The answers to `LOAD`, `build`, the commands of `REFUSED` and `LOAD` again, if the device fails in `build`.
const FAULT_IN_BUILD: &[u8] = b"ok\nfault device\nno Broken\nno Broken\nno Broken\n";

/// Prints the answers, and how many of the failing runs end in a wrong way.
pub(crate) fn print_pieces(rt: &HostRuntime) -> io::Result<()> {
    let whole = text_of(rt.alloc(), &PARTS)?;
    print_input(rt.alloc(), &whole, &mut io::writer(rt))
}

// Prints the results for this input.
fn print_input<W: Write>(alloc: Global, whole: &[u8], output: &mut W) -> io::Result<()> {
    match served(alloc, whole, Chunks::whole(), LimitedWriter::whole(alloc)) {
        Some(all) => print_answers(alloc, whole, &all, output),
        None => writeln!(output, "no store"),
    }
}

// Prints the results for this input. `all` is the result of serving it in one piece.
fn print_answers<W: Write>(
    alloc: Global,
    whole: &[u8],
    all: &ServeResult,
    output: &mut W,
) -> io::Result<()> {
    output.write_all(&all.text)?;
    for most in [1, 2, 511, 8191, 8192] {
        let is_same = is_served(alloc, whole, most, all);
        writeln!(output, "in pieces of {most}: the same: {is_same}")?;
    }
    print_failing(alloc, whole, &stages(alloc)?, output)
}

// Returns whether serving the input in pieces of `most` bytes has the same result.
fn is_served(alloc: Global, whole: &[u8], most: usize, all: &ServeResult) -> bool {
    match served(alloc, whole, Chunks::of(most), LimitedWriter::whole(alloc)) {
        Some(once) => once.text == all.text && once.shown == all.shown,
        None => false,
    }
}

// Prints how many of the failing runs end in a wrong way.
fn print_failing<W: Write>(
    alloc: Global,
    whole: &[u8],
    stages: &[ServeResult],
    output: &mut W,
) -> io::Result<()> {
    let (calls, wrong) = failing_runs(alloc, whole, stages, FaultyStream::Reader);
    writeln!(output, "a reader that fails: {calls} calls, {wrong} wrong")?;
    let (calls, wrong) = failing_runs(alloc, whole, stages, FaultyStream::Writer);
    writeln!(output, "a writer that fails: {calls} calls, {wrong} wrong")?;
    refused_loads(alloc, stages, output)?;
    failed_builds(alloc, stages, output)
}

// Joins the parts.
fn text_of(alloc: Global, parts: &[&str]) -> Result<Vec<u8>, AllocError> {
    let mut text = Vec::new(alloc);
    for part in parts {
        text.extend_from_slice(part.as_bytes())?;
    }
    Ok(text)
}

// Returns the result of serving the input over a new store.
fn served(
    alloc: Global,
    input: &[u8],
    pieces: Chunks,
    limited: LimitedWriter,
) -> Option<ServeResult> {
    let mut session = new_store(alloc)?;
    let served = serve_input(alloc, &mut session, input, pieces, limited);
    drop(session);
    Some(served)
}

// Returns the results of serving none of the parts, the first part, the first two parts, and so on.
fn stages(alloc: Global) -> Result<Vec<ServeResult>, AllocError> {
    let mut stages = Vec::new(alloc);
    for count in 0..PARTS.len() + 1 {
        if let Some(stage) = stage(alloc, &PARTS[..count])? {
            stages.push(stage)?;
        }
    }
    Ok(stages)
}

// Returns the result of serving these parts.
fn stage(alloc: Global, parts: &[&str]) -> Result<Option<ServeResult>, AllocError> {
    let text = text_of(alloc, parts)?;
    Ok(served(alloc, &text, Chunks::whole(), LimitedWriter::whole(alloc)))
}

// Returns whether the output is that of the first parts, followed by a prefix of the next answer. The state
// must be the one before or after that answer, or one within a search.
fn is_allowed(stages: &[ServeResult], stopped: &ServeResult) -> bool {
    stages.windows(2).any(|pair| match pair {
        [before, after] => {
            stopped.text.starts_with(&before.text)
                && after.text.starts_with(&stopped.text)
                && (stopped.shown == before.shown
                    || stopped.shown == after.shown
                    || is_within_search(stopped))
        }
        _ => false,
    })
}

// Returns whether serving ended within the search of 600 steps, at the end of one of its operations: the last one
// that was answered, or the next one.
fn is_within_search(stopped: &ServeResult) -> bool {
    [
        (0usize, "\nsteps 256 "),
        (1, "\nsteps 256 "),
        (1, "\nsteps 512 "),
        (2, "\nsteps 512 "),
        (2, "\nsteps 600 "),
        (3, "\nsteps 600 "),
    ]
    .iter()
    .any(|(reported, steps)| {
        count_of(&stopped.text, b"at ") == *reported
            && count_of(&stopped.shown, steps.as_bytes()) == 1
    })
}

// Returns how often the bytes occur in the text.
fn count_of(text: &[u8], bytes: &[u8]) -> usize {
    text.windows(bytes.len().max(1))
        .filter(|window| *window == bytes)
        .count()
}

/// The stream that fails at one of its calls.
#[derive(Clone, Copy)]
enum FaultyStream {
    Reader,
    Writer,
}

impl FaultyStream {
    // Returns the result of serving the input if this stream fails after `calls` calls.
    fn served(self, alloc: Global, input: &[u8], calls: u32) -> Option<ServeResult> {
        let (pieces, limited) = match self {
            FaultyStream::Reader => (Chunks::failing(7, calls), LimitedWriter::whole(alloc)),
            FaultyStream::Writer => (Chunks::whole(), LimitedWriter::failing(alloc, 5, calls)),
        };
        served(alloc, input, pieces, limited)
    }

    fn fault(self) -> ServeFault {
        match self {
            FaultyStream::Reader => ServeFault::ReadFault,
            FaultyStream::Writer => ServeFault::WriteFault,
        }
    }
}

/// The end of serving an input with a stream that may fail.
#[derive(Clone, Copy)]
enum Ending {
    NoStore,
    /// No fault.
    Whole,
    /// The expected fault, with an output and a state that are allowed.
    Allowed,
    Wrong,
}

// Returns the ending of serving the input. `fault` is the fault that the failing stream must cause.
fn ending_of(stages: &[ServeResult], stopped: &Option<ServeResult>, fault: ServeFault) -> Ending {
    match stopped {
        None => Ending::NoStore,
        Some(stopped) => match stopped.fault {
            None => Ending::Whole,
            Some(found) if found == fault && is_allowed(stages, stopped) => Ending::Allowed,
            Some(_) => Ending::Wrong,
        },
    }
}

// Serves the input with a reader or writer that fails after 0 calls, after 1 call, and so on, until no call
// fails. Returns the number of failing runs, and how many of them end in a wrong way.
fn failing_runs(
    alloc: Global,
    input: &[u8],
    stages: &[ServeResult],
    failing: FaultyStream,
) -> (u32, u32) {
    let mut wrong = 0u32;
    for calls in 0..1000 {
        let ending = ending_of(
            stages,
            &failing.served(alloc, input, calls),
            failing.fault(),
        );
        match ending {
            Ending::NoStore => return (calls, u32::MAX),
            Ending::Whole => return (calls, wrong),
            Ending::Allowed => {}
            Ending::Wrong => wrong = wrong.saturating_add(1),
        }
    }
    (1000, wrong)
}

// Prints the answers to an input with a `load` whose length is out of range, in pieces of two sizes. Serving ends
// after the answer to this `load`, and the state stays the same.
fn refused_loads<W: Write>(
    alloc: Global,
    stages: &[ServeResult],
    output: &mut W,
) -> io::Result<()> {
    let text = text_of(alloc, &[LOAD, LOAD_OUT_OF_RANGE, "build\n"])?;
    let [_, _, loaded, ..] = stages else {
        return writeln!(output, "no stages");
    };
    for most in [1, 8192] {
        let ended = served(alloc, &text, Chunks::of(most), LimitedWriter::whole(alloc));
        print_refused(most, &ended, loaded, output)?;
    }
    Ok(())
}

fn print_refused<W: Write>(
    most: usize,
    ended: &Option<ServeResult>,
    loaded: &ServeResult,
    output: &mut W,
) -> io::Result<()> {
    let Some(ended) = ended else {
        return writeln!(output, "no store");
    };
    output.write_all(&ended.text)?;
    let is_kept = ended.fault.is_none() && ended.shown == loaded.shown;
    writeln!(
        output,
        "a load out of range in pieces of {most}: the state stays: {is_kept}"
    )
}

// Prints the result for a device that fails once, at each of its calls in turn: how many of these calls are
// within `build`, and after how many of them the store opens with a wrong state.
fn failed_builds<W: Write>(
    alloc: Global,
    stages: &[ServeResult],
    output: &mut W,
) -> io::Result<()> {
    let [_, _, loaded, built, ..] = stages else {
        return writeln!(output, "no stages");
    };
    let text = text_of(alloc, &[LOAD, "build\n", REFUSED, LOAD])?;
    let (in_build, wrong) = builds_of(alloc, &text, loaded, built);
    writeln!(
        output,
        "a device that fails once: {in_build} calls within build, {wrong} wrong"
    )
}

// Returns how many calls are within `build`, and after how many of them the store opens with a wrong state.
fn builds_of(alloc: Global, text: &[u8], loaded: &ServeResult, built: &ServeResult) -> (u32, u32) {
    let (mut in_build, mut wrong) = (0u32, 0u32);
    for calls in 0..2000 {
        let build = build_of(&serve_on_faulty_device(alloc, calls, text), loaded, built);
        match build {
            FaultPosition::Before => {}
            FaultPosition::Within { is_wrong } => {
                in_build = in_build.saturating_add(1);
                wrong = wrong.saturating_add(u32::from(is_wrong));
            }
            FaultPosition::After => return (in_build, wrong),
        }
    }
    (in_build, wrong)
}

/// The position of the failed call: before `build`, within it, or after it.
#[derive(Clone, Copy)]
enum FaultPosition {
    Before,
    Within {
        /// Whether the store opens with a wrong state: one that is neither that before the build nor that after
        /// it, or that changes by a crash.
        is_wrong: bool,
    },
    After,
}

fn build_of(
    stopped: &Option<FaultResult>,
    loaded: &ServeResult,
    built: &ServeResult,
) -> FaultPosition {
    let Some(stopped) = stopped else {
        return FaultPosition::Before;
    };
    if stopped.served.text.starts_with(b"ok\nok\n") {
        return FaultPosition::After;
    }
    if stopped.served.text.as_slice() != FAULT_IN_BUILD {
        return FaultPosition::Before;
    }
    let is_either = stopped.opened == loaded.shown || stopped.opened == built.shown;
    FaultPosition::Within {
        is_wrong: !is_either || stopped.stopped != stopped.opened,
    }
}
