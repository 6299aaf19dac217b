//! The data of the lines of a `.vrp` text, collected line by line.
ghost use Rattle.std.specs.Prelude.{◌≡◌, ◌≤◌, ◌<◌, ◌+◌, ◌-◌, IfOk, IfErr, MatchResult, Some, None, is_some, false, true, length, set, slice_index_or};
ghost use Rattle.text_lines.specs.Words.{words_of};
ghost use Rattle.instance_read.specs.Vrp.{key_fault};
ghost use Rattle.instance_read.specs.declared.faults.ReadFaultKind.TheVariants.{NodeRepeated};
ghost use Rattle.instance_read.specs.TaskFaults.{HasNoKind, IsFirstKind};

use crate::ReadFaultKind;
use crate::entries::entry_of;
use crate::rows::NumberedLine;
use crate::scales::Scale;
use crate::vrp_fields::{
    expect_word, open_section, read_capacity, read_coordinates, read_demand, read_depots,
    read_dimension,
};
use crate::vrp_lines::{KEYS, Key, Section, read_key};
use std::alloc::Global;
use text_lines::word_count;

/// The data from the lines read so far.
#[derive(Drop)]
pub struct VrpDraft {
    /// The factor by which the coordinates are multiplied in the problem.
    pub scale: Scale,
    /// Whether each key has occurred, by the key's index.
    pub seen: [bool; KEYS],
    /// The number of nodes that DIMENSION announces.
    pub nodes: Option<u32>,
    pub capacity: Option<u32>,
    /// In the unit of the text. Indexed by node, from node 1. An entry is `None` until its line is read. The table is empty before its
    /// section.
    pub coordinates: Vec<Option<(i32, i32)>>,
    pub demands: Vec<Option<i32>>,
    /// The line of EOF.
    pub end: Option<u64>,
}

impl VrpDraft {
    ghost use Rattle.std.specs.Prelude.{◌≡◌};
    ghost use Rattle.instance_read.specs.Drafts.{IsDraft, FitsSection, TakesKey, TakesNode, TakesTo, ReportsKind, line_fault, has_seen, with_key, nodes_in, is_taken, node_index};
    ghost use Rattle.std.specs.Prelude.{[]};
    ghost use Rattle.instance_read.specs.RowViews.{row_view};
    ghost use Rattle.instance_read.specs.DraftLines.{IsDraftOfLines};
    ghost use Rattle.instance_read.specs.VrpLines.{place_after, place_after_key, key_of, value_of};

    /// Returns the draft before the first line.
    pub fn new(alloc: Global, scale: Scale) -> VrpDraft
        ensures known { IsDraftOfLines [] result }
        ensures scale { result.scale ≡ scale }
        ensures valid { IsDraft result }
        ensures nodes { result.nodes ≡ None }
    {
        VrpDraft {
            scale,
            seen: [false; KEYS],
            nodes: None,
            capacity: None,
            coordinates: Vec::new(alloc),
            demands: Vec::new(alloc),
            end: None,
        }
    }

    /// Takes one more line, which is in this section, and returns the section of the next line.
    pub fn take(
        &mut self,
        alloc: Global,
        place: Section,
        line: &NumberedLine<'_>,
    ) -> Result<Section, ReadFaultKind>
        requires draft { IsDraft self.old }
        requires place { FitsSection place self.old }
        ensures ok { IfOk result (TakesTo self.old (row_view line.now) place self.new) }
        ensures err { IfErr result (ReportsKind (line_fault self.old (row_view line.now) place)) }
    {
        match place {
            Section::Outside => self.take_key(alloc, line),
            Section::CoordinateLine(left) => {
                self.take_coordinates(line.text)?;
                Ok(Section::with_coordinates(left - 1))
            }
            Section::DemandLine(left) => {
                self.take_demand(line.text)?;
                Ok(Section::with_demands(left - 1))
            }
            Section::DepotLine(seen) => {
                read_depots(seen, line.text)?;
                Ok(Section::after_depots(seen, word_count(line.text)))
            }
            Section::AfterEnd => Ok(Section::AfterEnd),
        }
    }

    fn take_key(&mut self, alloc: Global, line: &NumberedLine<'_>) -> Result<Section, ReadFaultKind>
        requires { IsDraft self.old }
        ensures ok { IfOk result (TakesTo self.old (row_view line.now) Section.Outside self.new) }
        ensures err { IfErr result
            (ReportsKind (line_fault self.old (row_view line.now) Section.Outside)) }
    {
        let (key, value) = read_key(line.text);
        let next = Section::after_key(self.nodes, key);
        let stands = self.mark(key);
        self.take_value(alloc, key, stands, value, line.number)?;
        Ok(next)
    }

    fn take_value(
        &mut self,
        alloc: Global,
        key: Key,
        stands: bool,
        value: &[u8],
        line: u64,
    ) -> Result<(), ReadFaultKind>
        requires { IsDraft self.old }
        ensures ok { IfOk result (λ _. TakesKey self.old line value.now key stands self.new) }
        ensures err { IfErr result
            (ReportsKind (key_fault (is_some self.old.nodes) stands value.now key)) }
    {
        match key {
            Key::Dimension => self.nodes = Some(read_dimension(stands, value)?),
            Key::Capacity => self.capacity = Some(read_capacity(stands, value)?),
            Key::ProblemType => expect_word(b"CVRP", stands, value)?,
            Key::WeightType => expect_word(b"EUC_2D", stands, value)?,
            Key::Coordinates => {
                open_section(self.nodes.is_some(), stands)?;
                self.coordinates = vec![in alloc; None; self.node_count() as usize]?;
            }
            Key::Demands => {
                open_section(self.nodes.is_some(), stands)?;
                self.demands = vec![in alloc; None; self.node_count() as usize]?;
            }
            Key::Depots if stands => return Err(ReadFaultKind::NodeRepeated),
            Key::End => self.end = self.end.or(Some(line)),
            Key::Refused => return Err(ReadFaultKind::Unsupported),
            Key::StrayNumber => return Err(ReadFaultKind::FieldCount),
            Key::Depots | Key::Ignored => {}
        }
        Ok(())
    }

    // Records that a key has occurred, and returns whether it had occurred before.
    fn mark(&mut self, key: Key) -> bool
        requires { IsDraft self.old }
        ensures before { result ≡ has_seen self.old key }
        ensures after { self.new ≡ with_key self.old key }
        ensures kept { IsDraft self.new }
    {
        let stands = self.has_seen(key);
        self.seen[key.index()] = true;
        stands
    }

    /// Returns whether a key has occurred.
    pub fn has_seen(&self, key: Key) -> bool
        requires { IsDraft self.now }
        ensures { result ≡ has_seen self.now key }
    {
        self.seen[key.index()]
    }

    /// Returns the number of nodes, or 0 before DIMENSION.
    pub fn node_count(&self) -> u32
        ensures { result ≡ nodes_in self.now }
    {
        self.nodes.unwrap_or(0)
    }

    fn take_coordinates(&mut self, text: &[u8]) -> Result<(), ReadFaultKind>
        requires draft { IsDraft self.old }
        requires fits { length self.old.coordinates.items ≡ nodes_in self.old }
        ensures { TakesNode self.old text.now (Section.CoordinateLine 0) self.new result }
    {
        let (node, point) = read_coordinates(self.scale, self.node_count(), text)?;
        put_once(&mut self.coordinates, node, point)
    }

    fn take_demand(&mut self, text: &[u8]) -> Result<(), ReadFaultKind>
        requires draft { IsDraft self.old }
        requires fits { length self.old.demands.items ≡ nodes_in self.old }
        ensures { TakesNode self.old text.now (Section.DemandLine 0) self.new result }
    {
        let (node, demand) = read_demand(self.node_count(), text)?;
        put_once(&mut self.demands, node, demand)
    }
}

// Stores the value of a node, if no earlier line named the node.
fn put_once<T: Copy>(table: &mut [Option<T>], node: u32, value: T) -> Result<(), ReadFaultKind>
    requires { (1 ≤ node) × (node ≤ length table.old) }
    ensures { let entry = slice_index_or table.old (node - 1) None in MatchResult result
        (λ _. (is_some entry ≡ false) × (table.new ≡ set table.old (node - 1) (Some value)))
        (λ kind. (is_some entry ≡ true) × (kind ≡ NodeRepeated)) }
{
    if entry_of(table, node - 1).is_some() {
        return Err(ReadFaultKind::NodeRepeated);
    }
    table[node as usize - 1] = Some(value);
    Ok(())
}
