//! The lines of a `.vrp` text: keys with their values, and the sections that follow some keys.
//!
//! A section of nodes ends with its last line, whatever that line says, so the line after it is outside the
//! sections. `trim_blanks_end` exists because `trim_ascii_end` trims more bytes; `ends_in` checks a suffix in
//! any letter case.
ghost use Rattle.std.specs.Prelude.{◌≡◌, ◌-◌, ◌<◌, ◌≤◌, codes, length, take, IfSome, MatchOption};
ghost use Rattle.std.specs.List.{position_or_len, suffix_len};
ghost use Rattle.std.specs.Str.{str_eq_ignore_ascii_case};
ghost use Rattle.text_lines.specs.Words.{is_blank};
ghost use Rattle.instance_read.specs.VrpLines.{begins_as_number, ends_in, is_colon, key_from, key_text, trimmed, value_text};

use text_lines::trim_blanks_start;

/// The key of a line outside the sections.
#[derive(Clone, Copy, PartialEq, Eq)]
pub enum Key {
    Dimension,
    Capacity,
    ProblemType,
    WeightType,
    /// A limit on the duration of routes, or an unknown section.
    Refused,
    Coordinates,
    Demands,
    Depots,
    End,
    /// A line that begins with a digit or a sign, as a line of a section does.
    StrayNumber,
    Ignored,
}

/// The number of keys.
pub const KEYS: usize = 11;

impl Key {
    ghost use Rattle.instance_read.specs.Vrp.{key_number};

    /// Returns the index of the key, for tables by key.
    pub fn index(self) -> usize
        ensures is { result ≡ key_number self }
        ensures below { result < 11 }
    {
        self as usize
    }
}

/// The section that a line is in.
#[derive(Clone, Copy, PartialEq, Eq)]
pub enum Section {
    Outside,
    /// In the section of coordinates or of demands, with this number of lines left, including this one.
    CoordinateLine(u32),
    DemandLine(u32),
    /// In the list of depots, with this number of words on earlier lines.
    DepotLine(usize),
    AfterEnd,
}

impl Section {
    ghost use Rattle.std.specs.Prelude.{◌+◌};
    ghost use Rattle.instance_read.specs.VrpLines.{coordinates_left, demands_left, depots_after, place_after_key};

    /// Returns the section of the next line if this number of lines of coordinates is left.
    pub fn with_coordinates(left: u32) -> Section
        ensures { result ≡ coordinates_left left }
    {
        if left == 0 {
            Section::Outside
        } else {
            Section::CoordinateLine(left)
        }
    }

    /// Returns the section of the next line if this number of lines of demands is left.
    pub fn with_demands(left: u32) -> Section
        ensures { result ≡ demands_left left }
    {
        if left == 0 {
            Section::Outside
        } else {
            Section::DemandLine(left)
        }
    }

    /// Returns the section after a line of the list of depots that has `words` words, after `seen` earlier
    /// ones.
    pub fn after_depots(seen: usize, words: usize) -> Section
        ensures { result ≡ depots_after (seen + words) }
    {
        if words < 2_usize.saturating_sub(seen) {
            Section::DepotLine(seen + words)
        } else {
            Section::Outside
        }
    }

    /// Returns the section after a line outside the sections. `nodes` is the number of nodes announced so far.
    pub fn after_key(nodes: Option<u32>, key: Key) -> Section
        ensures { result ≡ place_after_key nodes key }
    {
        match (nodes, key) {
            (Some(nodes), Key::Coordinates) => Section::with_coordinates(nodes),
            (Some(nodes), Key::Demands) => Section::with_demands(nodes),
            (_, Key::Depots) => Section::DepotLine(0),
            (_, Key::End) => Section::AfterEnd,
            _ => Section::Outside,
        }
    }
}

/// Returns the key of a line outside the sections, and the value after its first colon.
pub fn read_key(text: &[u8]) -> (Key, &[u8])
    ensures key { result.0 ≡ key_from (key_text text.now) (trimmed text.now) }
    ensures value { result.1.now ≡ value_text text.now }
{
    let (key, value) = split_key(text);
    (key_from(key, trim_blanks(text)), value)
}

/// Returns the key and the value of a line of a `.vrp` text, as in the specification part of TSPLIB95: the
/// parts before and after the first colon. A line without a colon is all key. Neither part has spaces or tabs
/// at its ends.
pub fn split_key(line: &[u8]) -> (&[u8], &[u8])
    ensures key { result.0.now ≡ key_text line.now }
    ensures value { result.1.now ≡ value_text line.now }
{
    match colon_place(line) {
        Some(colon) => (trim_blanks(&line[..colon]), trim_blanks(&line[colon + 1..])),
        None => (trim_blanks(line), &[]),
    }
}

/// Returns the place of the first colon.
pub(crate) fn colon_place(line: &[u8]) -> Option<usize>
    ensures bound { IfSome result (λ colon. colon < length line.now) }
    ensures place { let place = position_or_len is_colon line.now in
        MatchOption result (length line.now ≤ place) (λ colon. colon ≡ place) }
{
    line.iter().position(|byte| *byte == b':')
}

// Returns the line without the spaces and tabs at both ends.
fn trim_blanks(line: &[u8]) -> &[u8]
    ensures { result.now ≡ trimmed line.now }
{
    trim_blanks_end(trim_blanks_start(line))
}

fn trim_blanks_end(text: &[u8]) -> &[u8]
    ensures { result.now ≡ take (length text.now - suffix_len is_blank text.now) text.now }
{
    let mut rest = text;
    while let [front @ .., b' ' | b'\t'] = rest {
        rest = front;
    }
    rest
}

// Returns the key named before the colon of this line.
fn key_from(key: &[u8], line: &[u8]) -> Key
    ensures { result ≡ key_from key.now line.now }
{
    if is_word(key, b"DIMENSION") {
        Key::Dimension
    } else if is_word(key, b"CAPACITY") {
        Key::Capacity
    } else if is_word(key, b"TYPE") {
        Key::ProblemType
    } else if is_word(key, b"EDGE_WEIGHT_TYPE") {
        Key::WeightType
    } else if is_word(key, b"DISTANCE") || is_word(key, b"SERVICE_TIME") {
        Key::Refused
    } else if is_word(key, b"NODE_COORD_SECTION") {
        Key::Coordinates
    } else if is_word(key, b"DEMAND_SECTION") {
        Key::Demands
    } else if is_word(key, b"DEPOT_SECTION") {
        Key::Depots
    } else if is_word(key, b"EOF") {
        Key::End
    } else if ends_in(b"_SECTION", key) {
        Key::Refused
    } else if begins_as_number(line) {
        Key::StrayNumber
    } else {
        Key::Ignored
    }
}

/// Returns whether a text is this word, in any ASCII letter case.
pub fn is_word(text: &[u8], word: &[u8]) -> bool
    ensures { result ≡ str_eq_ignore_ascii_case text.now word.now }
{
    text.eq_ignore_ascii_case(word)
}

fn ends_in(end: &[u8], word: &[u8]) -> bool
    ensures { result ≡ ends_in end.now word.now }
{
    end.len() <= word.len() && is_word(&word[word.len() - end.len()..], end)
}

fn begins_as_number(line: &[u8]) -> bool
    ensures { result ≡ begins_as_number line.now }
{
    match line {
        [b'0'..=b'9' | b'+' | b'-', ..] => true,
        _ => false,
    }
}
