//! The names of the commands, and the meaning of the commands that announce no text, with their numbers.
ghost use Rattle.std.specs.Prelude.{◌≡◌, bytes_eq, map};
ghost use Rattle.command_text.specs.Parsing.{add1_of, add_of, anneal_of, parse_no_numbers, count_of, parse_two_numbers, freeze_of, pin_of, plain_or, reach_of, reduce_of, search_of, parse_one_number, parse_spot, spot_of, parse_two_spots, stages_of, steps_or, verb_among, verb_named};

use crate::fields::Field;
use crate::parsed_command::ParsedCommand;
use crate::questions::Question;
use crate::steps::StepRequest;
use command_core::{Command, MAX_STEPS, Refusal, Spot};
use plan_types::limits::{MAX_REQUESTED_STEPS, MAX_TIME};

/// The first word of a command, which names it.
#[derive(Clone, Copy)]
pub(crate) enum Verb {
    Load,
    Adopt,
    Add,
    Add1,
    Withdraw,
    Pin,
    Unpin,
    Freeze,
    Build,
    Checkpoint,
    Search,
    Reach,
    Deviation,
    Anneal,
    Reduce,
    Print,
    Instance,
    Show,
    Timetable,
    Why,
    Next,
    Help,
}

/// The commands with their names.
const VERBS: [(&[u8], Verb); 22] = [
    (b"load", Verb::Load),
    (b"adopt", Verb::Adopt),
    (b"add", Verb::Add),
    (b"add1", Verb::Add1),
    (b"withdraw", Verb::Withdraw),
    (b"pin", Verb::Pin),
    (b"unpin", Verb::Unpin),
    (b"freeze", Verb::Freeze),
    (b"build", Verb::Build),
    (b"checkpoint", Verb::Checkpoint),
    (b"search", Verb::Search),
    (b"reach", Verb::Reach),
    (b"deviation", Verb::Deviation),
    (b"anneal", Verb::Anneal),
    (b"reduce", Verb::Reduce),
    (b"print", Verb::Print),
    (b"instance", Verb::Instance),
    (b"show", Verb::Show),
    (b"timetable", Verb::Timetable),
    (b"why", Verb::Why),
    (b"next", Verb::Next),
    (b"help", Verb::Help),
];

/// Returns the command with this name.
pub(crate) fn verb_named(word: &[u8]) -> Option<Verb>
    ensures { result ≡ verb_named word.now }
{
    verb_among(&VERBS, word)
}

// Returns the command with this name in the table.
fn verb_among(verbs: &[(&[u8], Verb)], word: &[u8]) -> Option<Verb>
    ensures { result ≡ verb_among (map (λ named. (named.0.now, named.1)) verbs.now) word.now }
{
    for (name, verb) in verbs {
        if is_word(word, name) {
            return Some(*verb);
        }
    }
    None
}

/// Returns whether a word is equal to a name.
pub(crate) fn is_word(word: &[u8], name: &[u8]) -> bool
    ensures { result ≡ bytes_eq name.now word.now }
{
    name == word
}

/// Parses a command without numbers.
pub(crate) fn parse_no_numbers(verb: Verb) -> ParsedCommand
    ensures { result ≡ parse_no_numbers verb }
{
    match verb {
        Verb::Build => ParsedCommand::Plain(Command::Build),
        Verb::Checkpoint => ParsedCommand::Plain(Command::Checkpoint),
        Verb::Print => ParsedCommand::Print,
        Verb::Instance => ParsedCommand::PrintInstance,
        Verb::Show => ParsedCommand::Show,
        Verb::Timetable => ParsedCommand::Ask(Question::Timetable),
        Verb::Next => ParsedCommand::Next,
        Verb::Help => ParsedCommand::Help,
        _ => ParsedCommand::BadLine,
    }
}

/// Parses a command with one number: R, V, N, D or T.
pub(crate) fn parse_one_number(verb: Verb, number: &Field) -> ParsedCommand
    ensures { result ≡ parse_one_number verb number.now }
{
    match verb {
        Verb::Withdraw => match number.as_u32() {
            Some(name) => ParsedCommand::Plain(Command::Withdraw(name)),
            None => ParsedCommand::Refused(Refusal::NoSuchRequest),
        },
        Verb::Unpin => match number.as_u32() {
            Some(vehicle) => ParsedCommand::Plain(Command::Unpin(vehicle)),
            None => ParsedCommand::Refused(Refusal::NoSuchPlace),
        },
        Verb::Timetable => match number.as_u32() {
            Some(vehicle) => ParsedCommand::Ask(Question::VehicleTimetable(vehicle)),
            None => ParsedCommand::Refused(Refusal::Range),
        },
        Verb::Why => match number.as_u32() {
            Some(name) => ParsedCommand::Ask(Question::Why(name)),
            None => ParsedCommand::Refused(Refusal::NoSuchRequest),
        },
        Verb::Search => steps_or(search_of(number.unsigned)),
        Verb::Reach => steps_or(reach_of(number.unsigned)),
        Verb::Anneal => steps_or(anneal_of(number.unsigned)),
        Verb::Reduce => steps_or(reduce_of(number.unsigned)),
        Verb::Freeze => steps_or(freeze_of(number.unsigned)),
        Verb::Deviation => match number.as_u32() {
            Some(deviation) => ParsedCommand::Plain(Command::Deviation(deviation)),
            None => ParsedCommand::Refused(Refusal::Range),
        },
        _ => ParsedCommand::BadLine,
    }
}

/// Parses a command with two numbers: V K, or FROM TO.
pub(crate) fn parse_two_numbers(verb: Verb, first: &Field, second: &Field) -> ParsedCommand
    ensures { result ≡ parse_two_numbers verb first.now second.now }
{
    match verb {
        Verb::Pin => plain_or(Refusal::NoSuchPlace, pin_of(first, second)),
        Verb::Anneal => steps_or(stages_of(first.unsigned, second.unsigned)),
        _ => ParsedCommand::BadLine,
    }
}

/// Parses a command with a demand and one spot: Q X Y E L S.
pub(crate) fn parse_spot(verb: Verb, demand: &Field, spot: Option<Spot>) -> ParsedCommand
    ensures { result ≡ parse_spot verb demand.now spot }
{
    match verb {
        Verb::Add1 => plain_or(Refusal::Range, add1_of(demand, spot)),
        _ => ParsedCommand::BadLine,
    }
}

/// Parses a command with a demand and two spots: Q X Y E L S X Y E L S.
pub(crate) fn parse_two_spots(
    verb: Verb,
    demand: &Field,
    pickup: Option<Spot>,
    delivery: Option<Spot>,
) -> ParsedCommand
    ensures { result ≡ parse_two_spots verb demand.now pickup delivery }
{
    match verb {
        Verb::Add => plain_or(Refusal::Range, add_of(demand, pickup, delivery)),
        _ => ParsedCommand::BadLine,
    }
}

fn plain_or(refusal: Refusal, command: Option<Command>) -> ParsedCommand
    ensures { result ≡ plain_or refusal command }
{
    match command {
        Some(command) => ParsedCommand::Plain(command),
        None => ParsedCommand::Refused(refusal),
    }
}

/// Returns the spot X Y E L S, or `None` if a number does not fit its field.
pub(crate) fn spot_of(
    x: &Field,
    y: &Field,
    earliest: &Field,
    latest: &Field,
    service: &Field,
) -> Option<Spot>
    ensures { result ≡ spot_of x.now y.now earliest.now latest.now service.now }
{
    Some(Spot {
        x: x.signed?,
        y: y.signed?,
        earliest: earliest.as_u32()?,
        latest: latest.as_u32()?,
        service: service.as_u32()?,
    })
}

fn add_of(demand: &Field, pickup: Option<Spot>, delivery: Option<Spot>) -> Option<Command>
    ensures { result ≡ add_of demand.now pickup delivery }
{
    Some(Command::Add {
        demand: demand.as_u32()?,
        pickup: pickup?,
        delivery: delivery?,
    })
}

fn add1_of(demand: &Field, spot: Option<Spot>) -> Option<Command>
    ensures { result ≡ add1_of demand.now spot }
{
    Some(Command::Add1 {
        demand: demand.as_u32()?,
        spot: spot?,
    })
}

fn pin_of(vehicle: &Field, stops: &Field) -> Option<Command>
    ensures { result ≡ pin_of vehicle.now stops.now }
{
    Some(Command::Pin(vehicle.as_u32()?, stops.as_u32()?))
}

fn steps_or(goal: Option<StepRequest>) -> ParsedCommand
    ensures { result ≡ steps_or goal }
{
    match goal {
        Some(goal) => ParsedCommand::Steps(goal),
        None => ParsedCommand::Refused(Refusal::Range),
    }
}

fn search_of(steps: Option<u64>) -> Option<StepRequest>
    ensures { result ≡ search_of steps }
{
    Some(StepRequest::Search(count_of(steps)?))
}

fn anneal_of(steps: Option<u64>) -> Option<StepRequest>
    ensures { result ≡ anneal_of steps }
{
    Some(StepRequest::Anneal(count_of(steps)?))
}

fn reduce_of(steps: Option<u64>) -> Option<StepRequest>
    ensures { result ≡ reduce_of steps }
{
    Some(StepRequest::Reduce(count_of(steps)?))
}

fn freeze_of(time: Option<u64>) -> Option<StepRequest>
    ensures { result ≡ freeze_of time }
{
    match time {
        Some(time) if time <= u64::from(MAX_TIME) => Some(StepRequest::Freeze(time as u32)),
        _ => None,
    }
}

fn reach_of(goal: Option<u64>) -> Option<StepRequest>
    ensures { result ≡ reach_of goal }
{
    match goal {
        Some(goal) if goal <= MAX_STEPS => Some(StepRequest::Reach(goal)),
        _ => None,
    }
}

fn stages_of(from: Option<u64>, to: Option<u64>) -> Option<StepRequest>
    ensures { result ≡ stages_of from to }
{
    match (from, to) {
        (Some(from), Some(to)) if from <= to && to <= MAX_STEPS => Some(StepRequest::Stages {
            from,
            to,
        }),
        _ => None,
    }
}

fn count_of(steps: Option<u64>) -> Option<u32>
    ensures { result ≡ count_of steps }
{
    match steps {
        Some(steps) if 1 <= steps && steps <= MAX_REQUESTED_STEPS => Some(steps as u32),
        _ => None,
    }
}
