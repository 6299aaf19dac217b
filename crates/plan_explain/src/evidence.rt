//! The details of an instance's fault, printed after its kind.
ghost use Rattle.std.specs.Prelude.{◌≡◌, ◌++◌};
ghost use Rattle.plan_explain.specs.EvidenceTexts.{customer_text, demand_fault_text, evidence_text, key_text, too_many_text, missing_text, pair_text, reason_text, word_text};

use crate::quotes::is_fraction;
use crate::templates::Value::{KeyName, LineName, Name, Number, Quote, RequiredValue, Signed};
use crate::templates::{put_if, put_template};
use instance_read::{Evidence, Field, Key, Limits, ReadFaultKind};
use text_buffer::TextBuffer;

/// Appends the details of a fault of this kind.
pub(crate) fn put_evidence(text: &mut TextBuffer, kind: ReadFaultKind, evidence: Evidence<'_>)
    ensures { text.new ≡ text.old ++ evidence_text kind evidence.entry }
{
    match evidence {
        Evidence::Count { due, found } => {
            let counts = [Number(due as u64), Number(found as u64)];
            put_template(text, ": @ due, @ found", &counts)
        }
        Evidence::Word {
            field,
            word,
            limits,
        } => put_word(text, kind, field, word.bytes(), limits),
        Evidence::FirstTask(task) => put_template(
            text,
            ": the first is task @",
            &[Quote(task.bytes())],
        ),
        Evidence::TaskOutOfOrder { task, before } => {
            let tasks = [Quote(task.bytes()), Quote(before.bytes())];
            put_template(text, ": task @ stands behind task @", &tasks)
        }
        Evidence::Window { earliest, latest } => {
            let window = [Quote(earliest.bytes()), Quote(latest.bytes())];
            put_template(text, ": it begins at @ and ends at @", &window)
        }
        Evidence::NoHeader => text.push_str(
            ": the first line, of fleet, capacity and speed, is missing",
        ),
        Evidence::NoDepot => text.push_str(": task 0, the depot, is missing"),
        other => put_customer(text, other),
    }
}

// Appends the details of a fault in a file in Solomon's format.
fn put_customer(text: &mut TextBuffer, evidence: Evidence<'_>)
    ensures { text.new ≡ text.old ++ customer_text evidence.entry }
{
    match evidence {
        Evidence::FirstCustomer(customer) => put_template(
            text,
            ": the first is customer @",
            &[Quote(customer.bytes())],
        ),
        Evidence::CustomerOutOfOrder { customer, before } => {
            let customers = [Quote(customer.bytes()), Quote(before.bytes())];
            put_template(text, ": customer @ follows customer @", &customers)
        }
        Evidence::WrongWord(line, word) => {
            let words = [Quote(word.bytes()), LineName(line)];
            put_template(text, ": it is @, the word must be @", &words)
        }
        Evidence::MissingLine(line) => put_template(
            text,
            ": the line with @ is missing",
            &[LineName(line)],
        ),
        other => put_pair(text, other),
    }
}

fn put_word(
    text: &mut TextBuffer,
    kind: ReadFaultKind,
    field: Field,
    word: &[u8],
    limits: Option<Limits>,
)
    ensures { text.new ≡ text.old ++ word_text kind field word.now limits }
{
    match kind {
        ReadFaultKind::TooManyStops => put_too_many(text, field, word),
        _ => {
            put_template(text, ": @ is @", &[Name(field), Quote(word)]);
            put_reason(text, kind, word, limits)
        }
    }
}

// Appends why a word is wrong: it has a fraction, or it is outside these limits.
fn put_reason(text: &mut TextBuffer, kind: ReadFaultKind, word: &[u8], limits: Option<Limits>)
    ensures { text.new ≡ text.old ++ reason_text kind word.now limits }
{
    match (kind, limits) {
        (ReadFaultKind::BadNumber, _) => put_if(text, ", which has a fraction", is_fraction(word)),
        (ReadFaultKind::Range, Some((least, most))) => {
            let (least, most) = (Signed(i64::from(least)), Signed(i64::from(most)));
            put_template(text, ", its limits are @..@", &[least, most])
        }
        _ => {}
    }
}

// Appends the number without its limit, since the description of the kind already names the limit.
fn put_too_many(text: &mut TextBuffer, field: Field, word: &[u8])
    ensures { text.new ≡ text.old ++ too_many_text word.now field }
{
    match field {
        Field::Number => put_template(text, ": task @", &[Quote(word)]),
        Field::Customer => put_template(text, ": customer @", &[Quote(word)]),
        _ => put_template(text, ": @ is @", &[Name(field), Quote(word)]),
    }
}

// Appends why a task is not half of a pair.
fn put_pair(text: &mut TextBuffer, evidence: Evidence<'_>)
    ensures { text.new ≡ text.old ++ pair_text evidence.entry }
{
    match evidence {
        Evidence::NamesNone => text.push_str(": it names neither a pickup nor a delivery"),
        Evidence::NamesBoth => text.push_str(": it names both a pickup and a delivery"),
        Evidence::NoSuchTask(field, task) => {
            let values = [Name(field), Number(u64::from(task))];
            put_template(text, ": its @, task @, is not there", &values)
        }
        Evidence::NamesOther {
            field,
            task,
            line,
            named,
            back,
        } => {
            let (task, named) = (Number(u64::from(task)), Number(u64::from(named)));
            let values = [Name(field), task, Number(line), named, Name(back)];
            put_template(text, ": its @, task @ on line @, has @ as its @", &values)
        }
        Evidence::Demands {
            field,
            task,
            line,
            demand,
            own,
            is_negative,
        } => {
            let (task, line) = (Number(u64::from(task)), Number(line));
            let (demand, own) = (Quote(demand.bytes()), Quote(own.bytes()));
            let words = demand_fault_text(is_negative);
            put_template(text, words, &[Name(field), task, line, demand, own])
        }
        other => put_key(text, other),
    }
}

// Returns the words for a pair whose demands do not match: the pickup's demand is negative, or else the sum of
// both is not 0.
fn demand_fault_text(is_negative: bool) -> &'static str
    ensures { result.now ≡ demand_fault_text is_negative }
{
    if is_negative {
        ": its @, task @ on line @, has demand @, this one @: that of a pickup is not negative"
    } else {
        ": its @, task @ on line @, has demand @, this one @: their sum is not 0"
    }
}

// Appends the details of a fault of a key or a section.
fn put_key(text: &mut TextBuffer, evidence: Evidence<'_>)
    ensures { text.new ≡ text.old ++ key_text evidence.entry }
{
    match evidence {
        Evidence::NodeCount {
            due,
            found,
            section,
            lacks,
        } => {
            let (due, found) = (Number(due as u64), Number(found as u64));
            let values = [due, found, KeyName(section), Number(u64::from(lacks))];
            put_template(text, ": @ due, @ found, @ lacks @ of its lines", &values)
        }
        Evidence::WordsAfterEnd => text.push_str(
            ": words stand behind -1, which ends the list of depots",
        ),
        Evidence::Stray(None) => text.push_str(": these numbers stand in no section"),
        Evidence::Stray(Some(nodes)) => {
            let words =
                ": these numbers stand in no section, each of which has as many lines as DIMENSION says, @";
            put_template(text, words, &[Number(u64::from(nodes))])
        }
        Evidence::Key(key) => put_template(text, ": @", &[Quote(key.bytes())]),
        Evidence::Value(key, value) => {
            let values = [KeyName(key), Quote(value.bytes()), RequiredValue(key)];
            put_template(text, ": @ is @, supported is @", &values)
        }
        Evidence::UnfinishedSection(section, left) => {
            let values = [KeyName(section), Number(u64::from(left))];
            put_template(text, ": @ lacks @ of its lines", &values)
        }
        Evidence::UnfinishedDepots => text.push_str(": DEPOT_SECTION lacks its end, -1"),
        Evidence::NoDimension => text.push_str(": DIMENSION has to stand before this section"),
        Evidence::MissingKeys(keys) => put_missing(text, &keys),
        _ => {}
    }
}

// Appends the missing keys.
fn put_missing(text: &mut TextBuffer, keys: &[Option<Key>])
    ensures { text.new ≡ text.old ++ missing_text keys.now }
{
    text.push_str(":");
    for key in keys {
        if let Some(key) = key {
            put_template(text, " @", &[KeyName(*key)]);
        }
    }
}
