//! The details of a fault that a line of a `.vrp` text shows.
ghost use Rattle.std.specs.Prelude.{◌≡◌, None};
ghost use Rattle.std.specs.Int.RustNames.{unsigned_abs};
ghost use Rattle.std.specs.Option.{option_map};
ghost use Rattle.text_lines.specs.Words.{words_of};
ghost use Rattle.instance_read.specs.RowViews.{row_view};
ghost use Rattle.instance_read.specs.Rows.{rows_of};
ghost use Rattle.instance_read.specs.VrpEvidence.{announced, announced_after, depot_evidence, key_evidence, line_from, missing_evidence, node_evidence, missing_key, unsupported, value_evidence, vrp_evidence};
ghost use Rattle.instance_read.specs.VrpLines.{key_of, place_after};
ghost use Rattle.instance_read.specs.declared.vrp_lines.Section.TheVariants.{Outside};

use crate::evidence::{Evidence, Excerpt, Field};
use crate::field_limits::{CAPACITY, DIMENSION, Limits, NODE_DEMAND, coordinate_range};
use crate::number_evidence::numbers_evidence;
use crate::rows::{NumberedLine, NumberedLines};
use crate::scales::Scale;
use crate::vrp_lines::{Key, Section, read_key, split_key};
use crate::{ReadFault, ReadFaultKind};
use text_lines::{Words, word_count};

/// Returns the details of a fault that its line shows.
pub fn vrp_evidence<'a>(scale: Scale, text: &'a [u8], fault: ReadFault) -> Evidence<'a>
    ensures { result ≡ vrp_evidence scale text.now fault }
{
    let (nodes, place, line) = placed_line(text, fault.line);
    let line = line.bytes();
    let numbers = (1, nodes.unwrap_or(0));
    match place {
        Section::Outside => key_evidence(text, nodes, line, fault.kind),
        Section::CoordinateLine(left) => {
            let fields = [Field::Node, Field::X, Field::Y];
            let coordinate = coordinate_range(scale);
            let limits = [numbers, coordinate, coordinate];
            node_evidence(fault.kind, line, &fields, &limits, Key::Coordinates, left)
        }
        Section::DemandLine(left) => {
            let fields = [Field::Node, Field::Demand];
            let limits = [numbers, NODE_DEMAND];
            node_evidence(fault.kind, line, &fields, &limits, Key::Demands, left)
        }
        Section::DepotLine(_) => depot_evidence(fault.kind, line),
        Section::AfterEnd => Evidence::Nothing,
    }
}

// Returns the number of nodes announced before the line with this number, the section of the line, and the
// line.
fn placed_line<'a>(text: &'a [u8], number: u64) -> (Option<i32>, Section, Excerpt<'a>)
    ensures { result ≡ line_from number None Outside (rows_of text.now) }
{
    let mut nodes = None;
    let mut place = Section::Outside;
    for line in NumberedLines::new(text) {
        if line.number == number {
            return (nodes, place, Excerpt::new(line.text));
        }
        let next = place_after(nodes, place, &line);
        nodes = announced_after(nodes, place, &line);
        place = next;
    }
    (nodes, place, Excerpt::new(&[]))
}

fn place_after(nodes: Option<i32>, place: Section, line: &NumberedLine<'_>) -> Section
    ensures { result ≡ place_after (option_map unsigned_abs nodes) (row_view line.now) place }
{
    match place {
        Section::Outside => Section::after_key(nodes.map(i32::unsigned_abs), key_of(line)),
        Section::CoordinateLine(left) => Section::with_coordinates(left.saturating_sub(1)),
        Section::DemandLine(left) => Section::with_demands(left.saturating_sub(1)),
        Section::DepotLine(seen) => Section::after_depots(seen, word_count(line.text)),
        Section::AfterEnd => Section::AfterEnd,
    }
}

#[tactic(auto, unfolding(crate::specs::VrpLines::key_of))]
fn key_of(line: &NumberedLine<'_>) -> Key
    ensures { result ≡ key_of (row_view line.now) }
{
    read_key(line.text).0
}

// Returns the number of nodes announced after a line. The first DIMENSION counts.
fn announced_after(nodes: Option<i32>, place: Section, line: &NumberedLine<'_>) -> Option<i32>
    ensures { result ≡ announced_after nodes (row_view line.now) place }
{
    match (nodes, place) {
        (None, Section::Outside) => announced(line),
        _ => nodes,
    }
}

#[tactic(auto, unfolding(crate::specs::VrpLines::key_of, crate::specs::VrpLines::value_of))]
fn announced(line: &NumberedLine<'_>) -> Option<i32>
    ensures { result ≡ announced (row_view line.now) }
{
    let (key, value) = read_key(line.text);
    match key {
        Key::Dimension => Words::new(value).next_number(DIMENSION.0, DIMENSION.1),
        _ => None,
    }
}

// Returns the details of a fault in a line of a section of nodes with these fields.
fn node_evidence<'a>(
    kind: ReadFaultKind,
    line: &'a [u8],
    fields: &[Field],
    limits: &[Limits],
    section: Key,
    left: u32,
) -> Evidence<'a>
    ensures { result ≡ node_evidence kind fields.now limits.now section left (words_of line.now) }
{
    match kind {
        ReadFaultKind::FieldCount => {
            Evidence::NodeCount {
                due: fields.len(),
                found: word_count(line),
                section,
                lacks: left,
            }
        }
        ReadFaultKind::Truncated => Evidence::UnfinishedSection(section, left),
        _ => numbers_evidence(kind, line, fields, limits),
    }
}

fn depot_evidence<'a>(kind: ReadFaultKind, line: &'a [u8]) -> Evidence<'a>
    ensures { result ≡ depot_evidence kind (words_of line.now) }
{
    match kind {
        ReadFaultKind::FieldCount => Evidence::WordsAfterEnd,
        ReadFaultKind::Truncated => Evidence::UnfinishedDepots,
        _ => numbers_evidence(kind, line, &[Field::Depot, Field::Depot], &[]),
    }
}

// Returns the details of a fault in a line outside the sections. `nodes` is the number of nodes announced so
// far.
fn key_evidence<'a>(
    text: &'a [u8],
    nodes: Option<i32>,
    line: &'a [u8],
    kind: ReadFaultKind,
) -> Evidence<'a>
    ensures { result ≡ key_evidence (rows_of text.now) nodes line.now kind }
{
    let (key, value) = read_key(line);
    match kind {
        ReadFaultKind::Unsupported => unsupported(line, key, value),
        ReadFaultKind::MissingKey => missing_evidence(text, key),
        ReadFaultKind::NodeRepeated => Evidence::Key(Excerpt::new(split_key(line).0)),
        _ => value_evidence(kind, nodes, key, value),
    }
}

fn value_evidence<'a>(
    kind: ReadFaultKind,
    nodes: Option<i32>,
    key: Key,
    value: &'a [u8],
) -> Evidence<'a>
    ensures { result ≡ value_evidence kind nodes (words_of value.now) key }
{
    match key {
        Key::Dimension => numbers_evidence(kind, value, &[Field::Value(key)], &[DIMENSION]),
        Key::Capacity => numbers_evidence(kind, value, &[Field::Value(key)], &[CAPACITY]),
        Key::StrayNumber => Evidence::Stray(nodes.map(i32::unsigned_abs)),
        _ => Evidence::Nothing,
    }
}

// Returns the value that is not supported, or the key.
fn unsupported<'a>(line: &'a [u8], key: Key, value: &'a [u8]) -> Evidence<'a>
    ensures { result ≡ unsupported line.now value.now key }
{
    match key {
        Key::ProblemType | Key::WeightType => Evidence::Value(key, Excerpt::new(value)),
        _ => Evidence::Key(Excerpt::new(split_key(line).0)),
    }
}

// Returns what is missing at a line with this key: DIMENSION before a section, or the keys that no line has.
fn missing_evidence<'a>(text: &'a [u8], key: Key) -> Evidence<'a>
    ensures { result ≡ missing_evidence (rows_of text.now) key }
{
    match key {
        Key::Coordinates | Key::Demands => Evidence::NoDimension,
        _ => Evidence::MissingKeys([
            missing_key(text, Key::Dimension),
            missing_key(text, Key::Capacity),
            missing_key(text, Key::WeightType),
            missing_key(text, Key::Coordinates),
            missing_key(text, Key::Demands),
            missing_key(text, Key::Depots),
        ]),
    }
}

// Returns this key, unless a line before EOF has it.
fn missing_key(text: &[u8], key: Key) -> Option<Key>
    ensures { result ≡ missing_key key (rows_of text.now) }
{
    for line in NumberedLines::new(text) {
        let here = key_of(&line);
        if here == key {
            return None;
        }
        if here == Key::End {
            break;
        }
    }
    Some(key)
}
