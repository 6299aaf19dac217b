//! The values of a `.vrp` text's keys, and the lines of its sections.
ghost use Rattle.std.specs.Prelude.{◌≡◌, ◌≤◌, false, pos, Some, IfOk, MatchResult, option_copied};
ghost use Rattle.std.specs.Int.RustNames.{unsigned_abs};
ghost use Rattle.std.specs.Option.{option_and_then};
ghost use Rattle.text_lines.specs.Numbers.{number_of};
ghost use Rattle.text_lines.specs.Words.{words_of};
ghost use Rattle.plan_types.specs.Limits.{IsCapacity, IsDemand};
ghost use Rattle.instance_read.specs.Drafts.{IsPoint};
ghost use Rattle.instance_read.specs.Fields.{field, has_no_number, value_at};
ghost use Rattle.instance_read.specs.Vrp.{capacity_fault, coordinate_limits, demand_limits, depot_fault, dimension_fault, continues_after_end, is_end, is_other, max_nodes, node_fault, opening_fault, spelling_fault};
ghost use Rattle.instance_read.specs.TaskFaults.{HasNoKind, IsFirstKind, Passes, ReadsValue};

use crate::ReadFaultKind;
use crate::field_limits::{CAPACITY, DIMENSION, Limits, MAX_NODES, NODE_DEMAND, coordinate_range};
use crate::fields::{has_no_number, range_kind, read_numbers};
use crate::scales::Scale;
use crate::vrp_lines::is_word;
use text_lines::{Number, Words};

/// Reads the value of a DIMENSION line, the number of nodes. `stands` says whether an earlier line has the key.
pub fn read_dimension(stands: bool, value: &[u8]) -> Result<u32, ReadFaultKind>
    ensures read { let words = words_of value.now in
        ReadsValue (dimension_fault stands words)
        (λ n. n ≡ unsigned_abs (value_at words 0)) result }
    ensures within { IfOk result (λ n. (2 ≤ n) × (n ≤ max_nodes)) }
{
    let [nodes] = match read_numbers(value, &[DIMENSION]) {
        Ok(values) => values,
        Err(ReadFaultKind::Range) => return Err(range_kind(value, MAX_NODES)),
        Err(kind) => return Err(kind),
    };
    if stands {
        return Err(ReadFaultKind::NodeRepeated);
    }
    Ok(nodes.unsigned_abs())
}

/// Reads the value of a CAPACITY line. `stands` says whether an earlier line has the key.
pub fn read_capacity(stands: bool, value: &[u8]) -> Result<u32, ReadFaultKind>
    ensures read { let words = words_of value.now in
        ReadsValue (capacity_fault stands words) (λ n. n ≡ unsigned_abs (value_at words 0)) result }
    ensures within { IfOk result IsCapacity }
{
    let [capacity] = read_numbers(value, &[CAPACITY])?;
    if stands {
        return Err(ReadFaultKind::NodeRepeated);
    }
    Ok(capacity.unsigned_abs())
}

/// Checks that a value is the supported word, in any letter case, and that no earlier line has the key.
pub fn expect_word(word: &[u8], stands: bool, value: &[u8]) -> Result<(), ReadFaultKind>
    ensures read { Passes (spelling_fault word.now stands value.now) result }
{
    if !is_word(value, word) {
        return Err(ReadFaultKind::Unsupported);
    }
    if stands {
        return Err(ReadFaultKind::NodeRepeated);
    }
    Ok(())
}

/// Checks that a section of nodes may begin: the number of nodes is announced, and the section has not occurred
/// before.
pub fn open_section(announced: bool, stands: bool) -> Result<(), ReadFaultKind>
    ensures read { Passes (opening_fault announced stands) result }
{
    if !announced {
        return Err(ReadFaultKind::MissingKey);
    }
    if stands {
        return Err(ReadFaultKind::NodeRepeated);
    }
    Ok(())
}

/// Reads a node and its coordinates, in the unit of the text.
pub fn read_coordinates(
    scale: Scale,
    nodes: u32,
    line: &[u8],
) -> Result<(u32, (i32, i32)), ReadFaultKind>
    requires { nodes ≤ max_nodes }
    ensures read { let words = words_of line.now in
        let fault = node_fault 3 (coordinate_limits scale nodes) (λ _. false) words in
        MatchResult result
        (λ r. HasNoKind fault
        × (field words 0 ≡ Some (pos r.0))
        × (r.1 ≡ (value_at words 1, value_at words 2)))
        (IsFirstKind fault) }
    ensures within { IfOk result
        (λ r. (1 ≤ r.0) × (r.0 ≤ nodes) × IsPoint scale r.1) }
{
    let coordinate = coordinate_range(scale);
    let [node, x, y] = read_numbers(line, &[node_limits(nodes), coordinate, coordinate])?;
    Ok((node.unsigned_abs(), (x, y)))
}

/// Reads a node and its demand.
pub fn read_demand(nodes: u32, line: &[u8]) -> Result<(u32, i32), ReadFaultKind>
    requires { nodes ≤ max_nodes }
    ensures read { let words = words_of line.now in
        let fault = node_fault 2 (demand_limits nodes) (λ _. false) words in
        MatchResult result
        (λ r. HasNoKind fault
        × (field words 0 ≡ Some (pos r.0))
        × (r.1 ≡ value_at words 1))
        (IsFirstKind fault) }
    ensures within { IfOk result (λ r. (1 ≤ r.0) × (r.0 ≤ nodes) × IsDemand r.1) }
{
    let [node, demand] = read_numbers(line, &[node_limits(nodes), NODE_DEMAND])?;
    Ok((node.unsigned_abs(), demand))
}

fn node_limits(nodes: u32) -> Limits
    requires { nodes ≤ max_nodes }
    ensures { result ≡ (pos 1, pos nodes) }
{
    (1, nodes as i32)
}

/// Checks that a line of the list of depots continues the list 1 and then -1. `seen` is the number of words of
/// the list on earlier lines.
pub fn read_depots(seen: usize, line: &[u8]) -> Result<(), ReadFaultKind>
    ensures read { Passes (depot_fault seen (words_of line.now)) result }
{
    if continues_after_end(line) {
        return Err(ReadFaultKind::FieldCount);
    }
    if has_no_number(line) {
        return Err(ReadFaultKind::BadNumber);
    }
    if is_other_list(seen, line) {
        return Err(ReadFaultKind::DepotNotFirst);
    }
    Ok(())
}

// Returns whether a word follows a -1.
fn continues_after_end(line: &[u8]) -> bool
    ensures { result ≡ continues_after_end (words_of line.now) }
{
    let mut ended = false;
    for word in Words::new(line) {
        if ended {
            return true;
        }
        ended = is_end(word);
    }
    false
}

fn is_end(word: &[u8]) -> bool
    ensures { result ≡ is_end word.now }
{
    match Number::parse(word) {
        Some(number) => number.within(-1, -1).is_some(),
        None => false,
    }
}

// Returns whether the first words of a line differ from those of the list.
fn is_other_list(seen: usize, line: &[u8]) -> bool
    ensures { result ≡ depot_fault seen (words_of line.now) ReadFaultKind.DepotNotFirst }
{
    let mut words = Words::new(line);
    if seen == 0 && is_other(words.next(), 1) {
        return true;
    }
    is_other(words.next(), -1)
}

// Returns whether the word exists and is another number than this one.
fn is_other(word: Option<&[u8]>, number: i32) -> bool
    ensures { result ≡ is_other number (option_and_then number_of (option_copied word.entry)) }
{
    let Some(word) = word else {
        return false;
    };
    match Number::parse(word) {
        Some(other) => other.within(number, number).is_none(),
        None => false,
    }
}
