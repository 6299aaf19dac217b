//! Commands of `run` and answers of `command_text` that can't be tested through the program: numbers at the
//! limits of the parser, above those that the program can execute, and answers to faults that no small input
//! has.

use command_core::Command;
use command_text::{Answer, ParsedCommand, StepRequest, read_line};
use instance_read::{ReadFault, ReadFaultKind};
use std::process::Abort;
use std::test::Fail;

fn goal_of(line: &[u8]) -> Option<StepRequest> {
    let read_calls = read_line(line);
    let goal = match &read_calls {
        ParsedCommand::Steps(goal) => Some(*goal),
        _ => None,
    };
    drop(read_calls);
    goal
}

const GREATEST_STEP: u64 = 1_152_921_504_606_846_976;

#[test]
fn reads_as_many_steps_as_there_are(rt: HostRuntime) {
    assert!(rt; goal_of(b"search 1000000000") == Some(StepRequest::Search(1_000_000_000)));
    assert!(rt; goal_of(b"anneal 1000000000") == Some(StepRequest::Anneal(1_000_000_000)));
    assert!(rt; goal_of(b"reduce 1000000000") == Some(StepRequest::Reduce(1_000_000_000)));
    assert!(rt; goal_of(b"reach 1152921504606846976") == Some(StepRequest::Reach(GREATEST_STEP)));
    assert!(rt;
        goal_of(b"anneal 0 1152921504606846976")
            == Some(StepRequest::Stages {
                from: 0,
                to: GREATEST_STEP
            })
    );
}

fn deviation_of(line: &[u8]) -> Option<u32> {
    let read_calls = read_line(line);
    let deviation = match &read_calls {
        ParsedCommand::Plain(Command::Deviation(deviation)) => Some(*deviation),
        _ => None,
    };
    drop(read_calls);
    deviation
}

// A deviation above the limit is refused when the command is executed, not when its line is parsed.
#[test]
fn reads_a_deviation_that_is_too_far(rt: HostRuntime) {
    assert!(rt; deviation_of(b"deviation 1000000001") == Some(1_000_000_001));
    assert!(rt; deviation_of(b"deviation 4294967296").is_none());
}

const NUMBER_FAULT: ReadFault = ReadFault {
    line: u64::MAX,
    kind: ReadFaultKind::PairMismatch,
};

const NO_MEMORY: ReadFault = ReadFault {
    line: 0,
    kind: ReadFaultKind::OutOfMemory,
};

const ANSWERS: [(Answer, &[u8]); 3] = [
    (
        Answer::Read(NUMBER_FAULT),
        b"no PairMismatch 18446744073709551615",
    ),
    (Answer::Read(NO_MEMORY), b"no OutOfMemory"),
    (Answer::Spent, b"no Spent"),
];

fn check_answers<R: Abort>(rt: &R, answers: &[(Answer, &[u8])]) {
    for (answer, text) in answers {
        assert!(rt; answer.line().as_bytes() == *text, "{text:?}");
    }
}

#[test]
fn writes_answers(rt: HostRuntime) {
    check_answers(&rt, &ANSWERS);
}
