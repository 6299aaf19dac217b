//! Runs the program once for each line of `words.txt` and prints each answer, followed by its exit status. A line
//! has the arguments, separated by `|`. One of the lines uses the `run` subcommand, which reads standard input.
//! After that, serves one input over stores in memory, with readers, writers and devices that fail.
//!
//! The gate compares the output with `stdout`. `data` has copies of the repository's examples, since the gate
//! refuses links; `tests/words.sh` compares them. Nothing is proved except that no step panics.
//!
//! Modules: `pieces` (an input in pieces), `faulty_streams` (readers and writers that fail), `stores` (sessions
//! over stores in memory).
#![tactic(auto)]

mod faulty_streams;
mod pieces;
mod stores;

use file_disk::{HostDeviceFiles, UnknownFile};
use pieces::print_pieces;
use planner_cli::{FailureTracking, HostFiles, HostNewFiles, Streams, run_args};
use std::alloc::{AllocError, Global};
use std::{fs, io};

const LISTS: &str = "words.txt";

const SEPARATOR: char = '|';

fn main(rt: HostRuntime) -> io::Result<()> {
    print_answers(&rt)?;
    print_pieces(&rt)
}

fn print_answers(rt: &HostRuntime) -> io::Result<()> {
    let lists = fs::read_to_string(rt, LISTS)?;
    for list in lists.as_str().lines() {
        println!(rt; "> {list}")?;
        let words = words_of(rt.alloc(), list)?;
        let status = status_of(rt, words.as_slice());
        println!(rt; "= {status}")?;
    }
    Ok(())
}

// Runs the program with these arguments and returns its exit status.
fn status_of(rt: &HostRuntime, words: &[&str]) -> u8 {
    let mut disks = HostDeviceFiles::new(rt);
    let mut files = HostFiles::new(rt);
    let mut new_files = HostNewFiles::new(rt);
    let streams = Streams {
        input: FailureTracking::new(rt.reader()),
        output: FailureTracking::new(io::writer(rt)),
        errors: rt.stderr(),
    };
    let (status, _streams, _left) = run_args(
        rt,
        UnknownFile,
        UnknownFile,
        &mut disks,
        &mut files,
        &mut new_files,
        streams,
        words,
    );
    status
}

// Returns the arguments of the line, after the program's name. An empty line has none.
fn words_of(alloc: Global, line: &str) -> Result<Vec<&str>, AllocError> {
    let mut words = Vec::new(alloc);
    words.push("planner")?;
    if !line.is_empty() {
        for word in line.split(SEPARATOR) {
            words.push(word)?;
        }
    }
    Ok(words)
}
