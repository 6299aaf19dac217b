//! The commands of an input, executed on a session: `serve_source`, and a function for each kind of command.
ghost use Rattle.std.specs.Prelude.{◌≡◌, ◌<◌, ◌++◌, ◌^◌, [], IfErr, IfOk, OnErr, OnOk, MatchResult, ℕ, List, Result, Ok, Err, Some, true, false, length};
ghost use Rattle.instance_read.specs.declared.formats.Format.{Format};
ghost use Rattle.command_text.specs.Answering.{at_line, operations_reply, commands_of, question_reply, instance_reply, steps_or_refusal, next_reply, plain, print_reply, refusal_reply, show_reply, steps_to_make, unless_broken};
ghost use Rattle.command_text.specs.Laws.{cut_at};
ghost use Rattle.command_text.specs.Readings.{IsReading, Reading};
ghost use Rattle.command_text.specs.Answers.{answer_text, line};
ghost use Rattle.command_types.specs.declared.states.State.TheVariants.{Loaded};
ghost use Rattle.command_server.specs.Input.{Counts, left_of};
ghost use Rattle.command_server.specs.KnownInput.{Fits, InputKnowledge};
ghost use Rattle.command_server.specs.Streams.{WritesAndFlushes};
ghost use Rattle.command_server.specs.ServeContract.{EndsOrIsCut, HasCause, IsInputOf, IsTaken, Reports};
ghost use Rattle.command_server.specs.ServeSteps.{Answers, ContinuesOrIsCut, HasNoJob, IsAppliedOn, IsCause, TakesAnnounced, bytes_reply, answer_to_denial, flow_after, text_or_answer, progress_of, silent, announced_reply};
ghost use Rattle.command_server.specs.CrashRecovery.{RunsLeave};
ghost use Rattle.command_server.specs.declared.answering.ServeFault.TheVariants.{WriteFault};

use crate::hints::{Hint, log_hint, log_unassigned};
use crate::input::{AnnouncedText, Input, InputFault};
use crate::streams::{IoFault, Sink, Source};
use command_core::{Command, Job, Refusal, State};
use command_text::{
    Answer, ParsedCommand, Progress, Purpose, Question, StepCursor, StepRequest, Text, at_line,
    help_lines, next_command, next_line, pieces_follow, pin_line, print, print_instance,
    progress_after, question_refusal, question_text, read_instance, read_plan, show, states_follow,
    steps_to_make,
};
use instance_read::Format;
use log::Log;
use recover::{Denial, Reply, Session, runs_compose};
use sector_disk::Sectors;
use sol_text::WriteSolFault;
use std::alloc::Global;

/// The reason why serving ended before the input was answered.
#[derive(Clone, Copy, Debug, PartialEq, Eq)]
pub enum ServeFault {
    /// The input can't be read, or is too long.
    ReadFault,
    /// An answer can't be written.
    WriteFault,
}

impl From<InputFault> for ServeFault {
    ghost use Rattle.std.specs.Prelude.{◌≡◌};
    ghost use Rattle.command_server.specs.declared.answering.ServeFault.TheVariants as serve_fault;

    ghost from_gives = { λ _ fault. fault ≡ serve_fault.ReadFault };

    fn from(_: InputFault) -> ServeFault {
        ServeFault::ReadFault
    }
}

impl From<IoFault> for ServeFault {
    ghost use Rattle.std.specs.Prelude.{◌≡◌};
    ghost use Rattle.command_server.specs.declared.answering.ServeFault.TheVariants as serve_fault;

    ghost from_gives = { λ _ fault. fault ≡ serve_fault.WriteFault };

    fn from(_: IoFault) -> ServeFault {
        ServeFault::WriteFault
    }
}

/// The decision whether serving continues after a command.
#[derive(Clone, Copy)]
enum Flow {
    Continue,
    Finish,
}

/// Executes the commands of the input one by one and writes each answer. Ends with the input, or after a `load`
/// or `adopt` command that is malformed, out of range, or not followed by all its bytes, since the next command
/// could not be found. Reading lines takes no memory.
///
/// `ok` and `at` are written after the last sync of what they acknowledge. Each attempt to use fewer vehicles is
/// logged when it ends. If the whole input is served, the output is the answer to it, and the session has
/// executed exactly the operations that the answer reports as executed. If the bytes of the reader are known
/// beforehand, they are the input. Otherwise every text that begins with the bytes that the reads returned counts
/// as the input (`IsInputOf`). `serve` takes any reader and writer.
///
/// # Errors
///
/// `ReadFault` if the reader fails or 10^12 bytes of the input were taken; after `Ok` fewer were taken.
/// `WriteFault` if the writer fails. The state is then that after the answered commands, or with one more
/// operation, whose answer was being written.
pub fn serve_source<L: Log, D: Sectors, R: Source, W: Sink>(
    rt: &L,
    alloc: Global,
    session: &mut Session<D>,
    reader: &mut R,
    writer: &mut W,
) -> Result<(), ServeFault>
    ensures serves { (reading : Reading) (input : List ℕ) → IsReading reading
        → IsInputOf R.Source reader.old reader.new input
        → EndsOrIsCut D.Sectors result reading session.old input
        (W.stream writer.old) (W.stream writer.new) session.new }
    ensures moments { RunsLeave D.Sectors session.old session.new }
    ensures origin { W.origin writer.new ≡ W.origin writer.old }
    ensures cause { (input : List ℕ) → IsInputOf R.Source reader.old reader.new input
        → IfErr result (λ fault. HasCause fault (R.has_failed reader.new)
        (W.has_failed writer.new) (length input)) }
    ensures most { (input : List ℕ) → IsInputOf R.Source reader.old reader.new input
        → OnOk result (IsTaken (10 ^ 12) input) }
{
    session.images_recover_to_the_state();
    runs_compose::<D>();
    let mut input = Input::new(alloc);
    serve_lines(rt, alloc, session, reader, &mut input, writer)
}

// Serves the remaining lines of the input.
fn serve_lines<L: Log, D: Sectors, R: Source, W: Sink>(
    rt: &L,
    alloc: Global,
    session: &mut Session<D>,
    reader: &mut R,
    input: &mut Input,
    writer: &mut W,
) -> Result<(), ServeFault>
    ensures serves { (reading : Reading) (bytes : List ℕ) (how : InputKnowledge) → IsReading reading
        → Fits R.Source how reader.new → left_of R.Source how input.old reader.old ≡ Some bytes
        → EndsOrIsCut D.Sectors result reading session.old bytes
        (W.stream writer.old) (W.stream writer.new) session.new }
    ensures origin { W.origin writer.new ≡ W.origin writer.old }
    ensures cause { IfErr result (λ fault. IsCause fault (R.has_failed reader.new)
        (W.has_failed writer.new) input.new.left) }
    ensures counted { Counts R.Source input.old reader.old input.new reader.new }
    ensures most { OnOk result ((bytes : List ℕ) (how : InputKnowledge) → Fits R.Source how reader.new
        → left_of R.Source how input.old reader.old ≡ Some bytes → 0 < input.old.left
        → IsTaken input.old.left bytes) }
{
    pieces_follow();
    states_follow();
    loop {
        let Some(requested) = input.read_command(reader)? else {
            return Ok(());
        };
        match serve_command(rt, alloc, session, reader, input, writer, requested)? {
            Flow::Continue => {}
            Flow::Finish => return Ok(()),
        }
    }
}

fn serve_command<L: Log, D: Sectors, R: Source, W: Sink>(
    rt: &L,
    alloc: Global,
    session: &mut Session<D>,
    reader: &mut R,
    input: &mut Input,
    writer: &mut W,
    requested: ParsedCommand,
) -> Result<Flow, ServeFault>
    ensures serves { (reading : Reading) (rest : List ℕ) (how : InputKnowledge) → IsReading reading
        → Fits R.Source how reader.new → left_of R.Source how input.old reader.old ≡ Some rest
        → ContinuesOrIsCut D.Sectors result reading session.old (cut_at requested rest)
        (W.stream writer.old) (W.stream writer.new) session.new
        (left_of R.Source how input.new reader.new) }
    ensures origin { W.origin writer.new ≡ W.origin writer.old }
    ensures cause { IfErr result (λ fault. IsCause fault (R.has_failed reader.new)
        (W.has_failed writer.new) input.new.left) }
    ensures counted { Counts R.Source input.old reader.old input.new reader.new }
    ensures taken { IfOk result (TakesAnnounced R.Source requested input.old reader.old input.new
        reader.new) }
{
    match requested {
        ParsedCommand::Text { purpose, len } => {
            let text = input.announced_text(reader, len as usize)?;
            let goes = flow_after(&text);
            let answer = text_answer(rt, alloc, session, purpose, text);
            flow_or_fault(write_answer(session, writer, answer), goes)
        }
        ParsedCommand::BadText => flow_or_fault(
            write_answer(session, writer, Answer::BadLine),
            Flow::Finish,
        ),
        ParsedCommand::TextRange => flow_or_fault(
            write_answer(session, writer, Answer::Refused(Refusal::Range)),
            Flow::Finish,
        ),
        ParsedCommand::Nothing => Ok(Flow::Continue),
        ParsedCommand::BadLine => flow_or_fault(
            write_answer(session, writer, Answer::BadLine),
            Flow::Continue,
        ),
        ParsedCommand::Refused(refusal) => {
            flow_or_fault(
                write_answer(session, writer, refused(session, refusal)),
                Flow::Continue,
            )
        }
        ParsedCommand::Plain(command) => {
            let answer = applied_with_hint(rt, alloc, session, command);
            flow_or_fault(write_answer(session, writer, answer), Flow::Continue)
        }
        ParsedCommand::Steps(goal) => flow_or_fault(
            serve_steps(rt, alloc, session, writer, goal),
            Flow::Continue,
        ),
        ParsedCommand::Print => flow_or_fault(
            write_text_or_answer(session, writer, print_reply(alloc, session)),
            Flow::Continue,
        ),
        ParsedCommand::PrintInstance => flow_or_fault(
            write_text_or_answer(session, writer, instance_reply(alloc, session)),
            Flow::Continue,
        ),
        ParsedCommand::Show => flow_or_fault(
            write_text_or_answer(session, writer, show_reply(alloc, session)),
            Flow::Continue,
        ),
        ParsedCommand::Ask(question) => {
            let made = question_reply(alloc, session, question);
            flow_or_fault(write_text_or_answer(session, writer, made), Flow::Continue)
        }
        ParsedCommand::Next => flow_or_fault(serve_next(session, writer), Flow::Continue),
        ParsedCommand::Help => flow_or_fault(
            write_line_and_ok(session, writer, help_lines()),
            Flow::Continue,
        ),
    }
}

// Returns whether serving continues after an answer, or a fault if the answer could not be written.
fn flow_or_fault(written: Result<(), IoFault>, goes: Flow) -> Result<Flow, ServeFault>
    ensures { MatchResult written (λ _. result ≡ Ok goes) (λ _. result ≡ Err WriteFault) }
{
    match written {
        Ok(()) => Ok(goes),
        Err(IoFault) => Err(ServeFault::WriteFault),
    }
}

// Writes a line and flushes everything written.
fn put_line<D: Sectors, W: Sink>(
    session: &Session<D>,
    writer: &mut W,
    text: &[u8],
) -> Result<(), IoFault>
    ensures reported { WritesAndFlushes (W.stream writer.old) (W.stream writer.new) result
        (D.calls session.now.device) (line text.now) }
    ensures failed { OnErr result (W.has_failed writer.new ≡ true) }
    ensures origin { W.origin writer.new ≡ W.origin writer.old }
{
    writer.put(session, text)?;
    writer.put(session, b"\n")?;
    flush_unlogged(session, writer)
}

// Flushes everything written. Contracts see it as writing the empty text and flushing.
#[tactic(auto, using(crate::proofs::StreamLemmas::hands_nothing))]
fn flush_unlogged<D: Sectors, W: Sink>(session: &Session<D>, writer: &mut W) -> Result<(), IoFault>
    ensures reported { WritesAndFlushes (W.stream writer.old) (W.stream writer.new) result
        (D.calls session.now.device) [] }
    ensures failed { OnErr result (W.has_failed writer.new ≡ true) }
    ensures origin { W.origin writer.new ≡ W.origin writer.old }
{
    writer.flush(session)
}

// Writes the last line of an answer and flushes the answer.
fn write_answer<D: Sectors, W: Sink>(
    session: &Session<D>,
    writer: &mut W,
    answer: Answer,
) -> Result<(), IoFault>
    ensures reported { WritesAndFlushes (W.stream writer.old) (W.stream writer.new) result
        (D.calls session.now.device) (line (answer_text answer)) }
    ensures failed { OnErr result (W.has_failed writer.new ≡ true) }
    ensures origin { W.origin writer.new ≡ W.origin writer.old }
{
    put_line(session, writer, answer.line().as_bytes())
}

// Writes the lines of an answer and `ok` after them.
fn write_text_and_ok<D: Sectors, W: Sink>(
    session: &Session<D>,
    writer: &mut W,
    text: &[u8],
) -> Result<(), IoFault>
    ensures reported { WritesAndFlushes (W.stream writer.old) (W.stream writer.new) result
        (D.calls session.now.device) (text.now ++ line (answer_text Answer.Ok)) }
    ensures failed { OnErr result (W.has_failed writer.new ≡ true) }
    ensures origin { W.origin writer.new ≡ W.origin writer.old }
{
    writer.put(session, text)?;
    write_answer(session, writer, Answer::Ok)
}

// Writes the text, or the answer that replaces it.
fn write_text_or_answer<D: Sectors, W: Sink>(
    session: &Session<D>,
    writer: &mut W,
    made: Result<Text, Answer>,
) -> Result<(), IoFault>
    ensures reported { WritesAndFlushes (W.stream writer.old) (W.stream writer.new) result
        (D.calls session.now.device) (text_or_answer made) }
    ensures failed { OnErr result (W.has_failed writer.new ≡ true) }
    ensures origin { W.origin writer.new ≡ W.origin writer.old }
{
    match made {
        Ok(text) => write_text_and_ok(session, writer, text.as_bytes()),
        Err(answer) => write_answer(session, writer, answer),
    }
}

// Writes a line and `ok` after it.
fn write_line_and_ok<D: Sectors, W: Sink>(
    session: &Session<D>,
    writer: &mut W,
    text: &[u8],
) -> Result<(), IoFault>
    ensures reported { WritesAndFlushes (W.stream writer.old) (W.stream writer.new) result
        (D.calls session.now.device) (line text.now ++ line (answer_text Answer.Ok)) }
    ensures failed { OnErr result (W.has_failed writer.new ≡ true) }
    ensures origin { W.origin writer.new ≡ W.origin writer.old }
{
    writer.put(session, text)?;
    write_text_and_ok(session, writer, b"\n")
}

// Executes the operation. If there is something to explain about its answer, logs a hint for people.
fn applied_with_hint<L: Log, D: Sectors>(
    rt: &L,
    alloc: Global,
    session: &mut Session<D>,
    command: Command,
) -> Answer
    ensures { Reports D.Sectors session.old (λ s. plain s command)
        (line (answer_text result)) session.new silent }
{
    let hint = Hint::of(&command);
    let answer = applied(rt, alloc, session, command);
    log_hint(rt, alloc, session, hint, answer);
    answer
}

// Executes the operation. `Ok` is returned after its last sync.
fn applied<L: Log, D: Sectors>(
    rt: &L,
    alloc: Global,
    session: &mut Session<D>,
    command: Command,
) -> Answer
    ensures { Reports D.Sectors session.old (λ s. plain s command)
        (line (answer_text result)) session.new silent }
{
    match apply(rt, alloc, session, command).answer {
        Ok(()) => Answer::Ok,
        Err(denial) => answer_to_denial(denial),
    }
}

// Applies the operation. The contract has everything that a session guarantees about it.
fn apply<L: Log, D: Sectors>(
    rt: &L,
    alloc: Global,
    session: &mut Session<D>,
    command: Command,
) -> Reply
    ensures { IsAppliedOn D.Sectors session.old command result session.new }
{
    session.apply_logged(rt, alloc, command)
}

fn answer_to_denial(denial: Denial) -> Answer
    ensures { result ≡ answer_to_denial denial }
{
    match denial {
        Denial::Broken => Answer::Broken,
        Denial::Core(refusal) => Answer::Refused(refusal),
        Denial::Spent => Answer::Spent,
        Denial::OutOfMemory => Answer::Refused(Refusal::OutOfMemory),
        Denial::DeviceFault => Answer::DeviceFault,
    }
}

// Returns the answer to a command with a number that its field can't hold.
fn refused<D: Sectors>(session: &Session<D>, refusal: Refusal) -> Answer
    ensures { Reports D.Sectors session.now (λ s. unless_broken s (refusal_reply s s.state refusal))
        (line (answer_text result)) session.now silent }
{
    if session.is_broken() {
        return Answer::Broken;
    }
    match session.state() {
        State::Empty => Answer::Refused(Refusal::NoInstance),
        State::Loaded(_) => Answer::Refused(refusal),
    }
}

// Returns the job of the session. If the session is broken or has no instance, returns the answer that reports
// this.
fn job_of<D: Sectors>(session: &Session<D>) -> Result<&Job, Answer>
    ensures job { IfOk result (λ job. (session.now.is_broken ≡ false)
        × (session.now.state ≡ Loaded job.now)) }
    ensures none { IfErr result (HasNoJob session.now.is_broken session.now.state) }
{
    if session.is_broken() {
        return Err(Answer::Broken);
    }
    match session.state() {
        State::Loaded(job) => Ok(job),
        State::Empty => Err(Answer::Refused(Refusal::NoInstance)),
    }
}

// Returns whether serving continues after an announced text.
fn flow_after(text: &AnnouncedText) -> Flow
    ensures { result ≡ flow_after text.now }
{
    match text {
        AnnouncedText::Short => Flow::Finish,
        AnnouncedText::Dropped | AnnouncedText::Whole(_) => Flow::Continue,
    }
}

// Returns the answer to a command whose announced text was read.
fn text_answer<L: Log, D: Sectors>(
    rt: &L,
    alloc: Global,
    session: &mut Session<D>,
    purpose: Purpose,
    text: AnnouncedText,
) -> Answer
    ensures { (reading : Reading) (bytes : List ℕ) → IsReading reading
        → Reports D.Sectors session.old (announced_reply text reading purpose bytes)
        (line (answer_text result)) session.new silent }
{
    match text {
        AnnouncedText::Short => Answer::Truncated,
        AnnouncedText::Dropped => dropped(session, purpose),
        AnnouncedText::Whole(text) => bytes_answer(rt, alloc, session, purpose, &text),
    }
}

// Returns the answer to a command whose text was read but did not fit into memory.
fn dropped<D: Sectors>(session: &Session<D>, purpose: Purpose) -> Answer
    ensures { (reading : Reading) (bytes : List ℕ)
        → Reports D.Sectors session.now (bytes_reply reading purpose bytes)
        (line (answer_text result)) session.now silent }
{
    match purpose {
        Purpose::Load { .. } => answer_to_unread_load(session),
        Purpose::Adopt => answer_to_unread_adopt(session),
    }
}

fn answer_to_unread_load<D: Sectors>(session: &Session<D>) -> Answer
    ensures { (reading : Reading) (format : Format) (seed : ℕ) (bytes : List ℕ)
        → Reports D.Sectors session.now (bytes_reply reading (Purpose.Load format seed) bytes)
        (line (answer_text result)) session.now silent }
{
    if session.is_broken() {
        Answer::Broken
    } else {
        Answer::Refused(Refusal::OutOfMemory)
    }
}

fn answer_to_unread_adopt<D: Sectors>(session: &Session<D>) -> Answer
    ensures { (reading : Reading) (bytes : List ℕ)
        → Reports D.Sectors session.now (bytes_reply reading Purpose.Adopt bytes)
        (line (answer_text result)) session.now silent }
{
    match job_of(session) {
        Ok(_) => Answer::Refused(Refusal::OutOfMemory),
        Err(answer) => answer,
    }
}

// Executes a command with its text.
fn bytes_answer<L: Log, D: Sectors>(
    rt: &L,
    alloc: Global,
    session: &mut Session<D>,
    purpose: Purpose,
    text: &[u8],
) -> Answer
    ensures { (reading : Reading) → IsReading reading
        → Reports D.Sectors session.old (bytes_reply reading purpose text.now)
        (line (answer_text result)) session.new silent }
{
    match purpose {
        Purpose::Load { format, seed } => loaded(rt, alloc, session, format, seed, text),
        Purpose::Adopt => adopted(rt, alloc, session, text),
    }
}

// Reads the instance and loads it, which replaces the session's instance and plan.
fn loaded<L: Log, D: Sectors>(
    rt: &L,
    alloc: Global,
    session: &mut Session<D>,
    format: Format,
    seed: u64,
    text: &[u8],
) -> Answer
    ensures { (reading : Reading) → IsReading reading
        → Reports D.Sectors session.old (bytes_reply reading (Purpose.Load format seed) text.now)
        (line (answer_text result)) session.new silent }
{
    if session.is_broken() {
        return Answer::Broken;
    }
    match read_instance(alloc, format, text) {
        Ok(problem) => applied(rt, alloc, session, Command::Load(problem, seed)),
        Err(fault) => Answer::Read(fault),
    }
}

// Reads the solution and adopts its plan.
fn adopted<L: Log, D: Sectors>(
    rt: &L,
    alloc: Global,
    session: &mut Session<D>,
    text: &[u8],
) -> Answer
    ensures { (reading : Reading) → IsReading reading
        → Reports D.Sectors session.old (bytes_reply reading Purpose.Adopt text.now)
        (line (answer_text result)) session.new silent }
{
    let job = match job_of(session) {
        Ok(job) => job,
        Err(answer) => return answer,
    };
    match read_plan(alloc, job, text) {
        Ok(plan) => applied(rt, alloc, session, Command::Adopt(plan)),
        Err(why) => {
            log_unassigned(rt, why);
            Answer::AssignmentFault(why)
        }
    }
}

fn serve_steps<L: Log, D: Sectors, W: Sink>(
    rt: &L,
    alloc: Global,
    session: &mut Session<D>,
    writer: &mut W,
    goal: StepRequest,
) -> Result<(), IoFault>
    ensures answers { Answers D.Sectors result session.old
        (λ s. unless_broken s (steps_or_refusal s (steps_to_make s.state goal)))
        (W.stream writer.old) (W.stream writer.new) session.new silent }
    ensures failed { OnErr result (W.has_failed writer.new ≡ true) }
    ensures origin { W.origin writer.new ≡ W.origin writer.old }
{
    if session.is_broken() {
        return write_answer(session, writer, Answer::Broken);
    }
    match steps_to_make(session.state(), goal) {
        Ok(steps) => make_steps(rt, alloc, session, writer, steps),
        Err(answer) => write_answer(session, writer, answer),
    }
}

// Makes the steps or pins operation by operation, and writes the progress after each acknowledgement.
fn make_steps<L: Log, D: Sectors, W: Sink>(
    rt: &L,
    alloc: Global,
    session: &mut Session<D>,
    writer: &mut W,
    steps: StepCursor,
) -> Result<(), IoFault>
    ensures answers { Answers D.Sectors result session.old
        (λ s. operations_reply s (commands_of steps session.old.state))
        (W.stream writer.old) (W.stream writer.new) session.new silent }
    ensures failed { OnErr result (W.has_failed writer.new ≡ true) }
    ensures origin { W.origin writer.new ≡ W.origin writer.old }
{
    let mut left = steps;
    while let Some((command, rest)) = next_command(left, session.state()) {
        let progress = progress_after(&command);
        if let Err(denial) = apply(rt, alloc, session, command).answer {
            return write_answer(session, writer, answer_to_denial(denial));
        }
        left = rest;
        write_progress(session, writer, progress)?;
    }
    write_answer(session, writer, Answer::Ok)
}

// Writes the progress line after an operation of a command that consists of several operations.
fn write_progress<D: Sectors, W: Sink>(
    session: &Session<D>,
    writer: &mut W,
    progress: Progress,
) -> Result<(), IoFault>
    ensures reported { WritesAndFlushes (W.stream writer.old) (W.stream writer.new) result
        (D.calls session.now.device) (progress_of progress session.now) }
    ensures failed { OnErr result (W.has_failed writer.new ≡ true) }
    ensures origin { W.origin writer.new ≡ W.origin writer.old }
{
    match progress {
        Progress::Nothing => flush_unlogged(session, writer),
        Progress::Stepped => write_at_line(session, writer),
        Progress::Pinned { vehicle, stops } => {
            put_line(session, writer, pin_line(vehicle, stops).as_bytes())
        }
    }
}

// Writes the line `at ..` with the number of steps so far and the cost.
fn write_at_line<D: Sectors, W: Sink>(session: &Session<D>, writer: &mut W) -> Result<(), IoFault>
    ensures reported { WritesAndFlushes (W.stream writer.old) (W.stream writer.new) result
        (D.calls session.now.device) (at_line session.now.state) }
    ensures failed { OnErr result (W.has_failed writer.new ≡ true) }
    ensures origin { W.origin writer.new ≡ W.origin writer.old }
{
    match session.incumbent() {
        Some((job, cost)) => put_line(session, writer, at_line(job, cost).as_bytes()),
        None => flush_unlogged(session, writer),
    }
}

fn print_reply<D: Sectors>(alloc: Global, session: &Session<D>) -> Result<Text, Answer>
    ensures { Reports D.Sectors session.now (λ s. unless_broken s (print_reply s s.state))
        (text_or_answer result) session.now silent }
{
    let job = job_of(session)?;
    match print(alloc, job) {
        Ok(text) => Ok(text),
        Err(WriteSolFault::Unplanned(_)) => Err(Answer::Unplanned),
        Err(WriteSolFault::OutOfMemory) => Err(Answer::Refused(Refusal::OutOfMemory)),
    }
}

fn instance_reply<D: Sectors>(alloc: Global, session: &Session<D>) -> Result<Text, Answer>
    ensures { Reports D.Sectors session.now (λ s. unless_broken s (instance_reply s s.state))
        (text_or_answer result) session.now silent }
{
    let job = job_of(session)?;
    match print_instance(alloc, job) {
        Ok(text) => Ok(text),
        Err(instance_text::WriteFault::NoFormat) => Err(Answer::NoFormat),
        Err(instance_text::WriteFault::OutOfMemory) => {
            Err(Answer::Refused(Refusal::OutOfMemory))
        }
    }
}

fn show_reply<D: Sectors>(alloc: Global, session: &Session<D>) -> Result<Text, Answer>
    ensures { Reports D.Sectors session.now (λ s. unless_broken s (show_reply s s.state))
        (text_or_answer result) session.now silent }
{
    let job = job_of(session)?;
    match show(alloc, job) {
        Ok(text) => Ok(text),
        Err(_) => Err(Answer::Refused(Refusal::OutOfMemory)),
    }
}

// Returns the text that answers a question, or the answer that refuses it.
fn question_reply<D: Sectors>(
    alloc: Global,
    session: &Session<D>,
    question: Question,
) -> Result<Text, Answer>
    ensures { Reports D.Sectors session.now (λ s. unless_broken s (question_reply question s s.state))
        (text_or_answer result) session.now silent }
{
    let job = job_of(session)?;
    match question_refusal(job, question) {
        Some(refusal) => Err(Answer::Refused(refusal)),
        None => match question_text(alloc, job, question) {
            Ok(text) => Ok(text),
            Err(_) => Err(Answer::Refused(Refusal::OutOfMemory)),
        },
    }
}

fn serve_next<D: Sectors, W: Sink>(session: &Session<D>, writer: &mut W) -> Result<(), IoFault>
    ensures answers { Answers D.Sectors result session.now
        (λ s. unless_broken s (next_reply s s.state))
        (W.stream writer.old) (W.stream writer.new) session.now silent }
    ensures failed { OnErr result (W.has_failed writer.new ≡ true) }
    ensures origin { W.origin writer.new ≡ W.origin writer.old }
{
    match job_of(session) {
        Ok(job) => write_line_and_ok(session, writer, next_line(job).as_bytes()),
        Err(answer) => write_answer(session, writer, answer),
    }
}
