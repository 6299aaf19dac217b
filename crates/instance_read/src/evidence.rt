//! The details of a fault that its line shows: field, word and limits, the number of words, the key, the
//! section, or the other task.
ghost use Rattle.std.specs.Prelude.{◌≡◌};
ghost use Rattle.instance_read.specs.Evidence.{evidence_of};

use crate::ReadFault;
use crate::field_limits::Limits;
use crate::formats::{Format, Layout};
use crate::lilim_evidence::lilim_evidence;
use crate::solomon_evidence::solomon_evidence;
use crate::vrp_evidence::vrp_evidence;
use crate::vrp_lines::Key;
use std::marker::Model;

/// Bytes of a text: a word of a line, its key, or the value after the key.
#[derive(Drop)]
pub struct Excerpt<'a> {
    bytes: &'a [u8],
}

impl<'a> Model for Excerpt<'a> {
    ghost use Rattle.std.specs.Prelude.{List, ℕ};

    ghost Value = { List ℕ };

    ghost view = { λ excerpt. excerpt.bytes.now };
}

impl<'a> Excerpt<'a> {
    /// Wraps these bytes.
    pub(crate) fn new(bytes: &'a [u8]) -> Excerpt<'a>
        ensures { result ≡ bytes.now }
    {
        Excerpt { bytes }
    }

    /// Returns the bytes.
    pub fn bytes(&self) -> &'a [u8]
        ensures { result.now ≡ self.now }
    {
        self.bytes
    }
}

/// The meaning of a number in a line.
#[derive(Clone, Copy)]
pub enum Field {
    Fleet,
    Capacity,
    Speed,
    Number,
    /// The number of a customer, in Solomon's format.
    Customer,
    X,
    Y,
    Demand,
    Earliest,
    Latest,
    Ready,
    Due,
    Service,
    Pickup,
    Delivery,
    Node,
    Depot,
    /// The value of a key.
    Value(Key),
    /// A word after those that the line should have.
    ExtraWord,
}

/// A line of a text in Solomon's format.
#[derive(Clone, Copy)]
pub enum SolomonLine {
    Name,
    /// The lines that begin with `VEHICLE` and `NUMBER`.
    Vehicle,
    Number,
    /// The line with fleet and capacity.
    Fleet,
    /// The lines that begin with `CUSTOMER` and `CUST`.
    Customers,
    Columns,
    Depot,
    Customer,
}

/// The details of a fault that its line shows. Words are exactly as in the text.
#[derive(Drop)]
pub enum Evidence<'a> {
    /// No details besides the line itself.
    Nothing,
    /// The number of words that the line should have, and the number that it has.
    Count {
        due: usize,
        found: usize,
    },
    /// Like `Count`, for a line of a section of nodes. `lacks` is the number of lines that the section still
    /// lacks, including this one.
    NodeCount {
        due: usize,
        found: usize,
        section: Key,
        lacks: u32,
    },
    /// The first word of the line that is at fault: its field, the word, and the limits of the field in the unit
    /// of the text.
    Word {
        field: Field,
        word: Excerpt<'a>,
        limits: Option<Limits>,
    },
    /// The number of the first task, which is not 0.
    FirstTask(Excerpt<'a>),
    /// The number of a task, and that of the task before it.
    TaskOutOfOrder {
        task: Excerpt<'a>,
        before: Excerpt<'a>,
    },
    /// The number of the first customer, which is not 0.
    FirstCustomer(Excerpt<'a>),
    /// The number of a customer, and that of the customer before it.
    CustomerOutOfOrder {
        customer: Excerpt<'a>,
        before: Excerpt<'a>,
    },
    /// The beginning and the end of an empty time window.
    Window {
        earliest: Excerpt<'a>,
        latest: Excerpt<'a>,
    },
    /// A task names neither a pickup nor a delivery, or both.
    NamesNone,
    NamesBoth,
    /// A task names a pickup or a delivery, but no task has that number.
    NoSuchTask(Field, u16),
    /// A task names another task in `field`, but that task, on line `line`, names the task `named` in its field
    /// `back`.
    NamesOther {
        field: Field,
        task: u16,
        line: u64,
        named: u16,
        back: Field,
    },
    /// Both tasks name each other, but their demands do not match: the demand of the named task, the task's own
    /// demand, and whether the pickup's demand is negative.
    Demands {
        field: Field,
        task: u16,
        line: u64,
        demand: Excerpt<'a>,
        own: Excerpt<'a>,
        is_negative: bool,
    },
    /// The first line, or task 0, is missing.
    NoHeader,
    NoDepot,
    /// The line that is due begins with another word than it must.
    WrongWord(SolomonLine, Excerpt<'a>),
    /// The text ends before the line that is due.
    MissingLine(SolomonLine),
    /// There are words after -1, which ends the list of depots.
    WordsAfterEnd,
    /// A line of numbers is not in a section. The value is the number of lines of a section of nodes, if it is
    /// announced.
    Stray(Option<u32>),
    /// A section of nodes begins before DIMENSION.
    NoDimension,
    /// The keys that no line has, out of DIMENSION, CAPACITY, EDGE_WEIGHT_TYPE and the sections of coordinates,
    /// demands and depots.
    MissingKeys([Option<Key>; 6]),
    /// A key that is not supported, or that occurs twice.
    Key(Excerpt<'a>),
    /// A key that must have another value than this one.
    Value(Key, Excerpt<'a>),
    /// The text ends within a section, which lacks this number of lines, or before the end of the list of
    /// depots.
    UnfinishedSection(Key, u32),
    UnfinishedDepots,
}

/// Returns the details of the first fault of an instance text.
pub fn evidence_of<'a>(format: Format, text: &'a [u8], fault: ReadFault) -> Evidence<'a>
    ensures is { result ≡ evidence_of format text.now fault }
{
    match format.layout {
        Layout::LiLim => lilim_evidence(format.scale, text, fault),
        Layout::Solomon => solomon_evidence(format.scale, text, fault),
        Layout::Vrp => vrp_evidence(format.scale, text, fault),
    }
}
