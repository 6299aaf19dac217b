//! The program `auditor`: audits and explains solutions for pickup and delivery and for capacitated routing. It
//! has the subcommands `audit`, `audits` and `explain` of `planner`, and builds without the proofs of search and
//! store.
//!
//! All its work is done by `auditor_cli::audit_args`. `main` passes it the arguments, the files and the
//! standard streams. An argument that is not UTF-8 ends the program with status 64.
#![tactic(auto)]

use auditor_cli::{HostFiles, audit_args, command_args};
use std::io;
use std::process::ExitCode;

fn main(rt: HostRuntime) -> ExitCode {
    let status = match command_args(&rt) {
        Ok(words) => status_of(&rt, words.as_slice()),
        Err(status) => status,
    };
    ExitCode::from(status)
}

// Executes the command line with the system's files and the standard streams.
fn status_of(rt: &HostRuntime, words: &[String]) -> u8 {
    let mut files = HostFiles::new(rt);
    let mut output = io::writer(rt);
    let mut errors = rt.stderr();
    audit_args(rt.alloc(), &mut files, &mut output, &mut errors, words)
}
