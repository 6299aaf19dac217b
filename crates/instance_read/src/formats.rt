//! The formats of instance texts, and the words that name them.
ghost use Rattle.std.specs.Prelude.{◌≡◌, Some};
ghost use Rattle.std.specs.List.{position_or_len};
ghost use Rattle.instance_read.specs.Formats.{format_named, format_of, format_word, kind_of, layout_named, scale_named};
ghost use Rattle.instance_read.specs.VrpLines.{is_colon};

use crate::scales::Scale;
use crate::vrp_lines::colon_place;
use plan_types::Kind;

/// The layout of an instance text, which decides what the words of its lines mean.
#[derive(Clone, Copy, Debug, PartialEq, Eq)]
pub enum Layout {
    /// Pickup and delivery with time windows (Li and Lim).
    LiLim,
    /// Vehicle routing with time windows (Solomon).
    Solomon,
    /// Capacitated vehicle routing (CVRPLIB).
    Vrp,
}

/// The format of an instance text.
#[derive(Clone, Copy, Debug, PartialEq, Eq)]
pub struct Format {
    pub layout: Layout,
    pub scale: Scale,
}

impl Format {
    /// Returns the format that a word names: `lilim`, `solomon` or `vrp`, and after a colon perhaps the scale, 1,
    /// 10, 100 or 1000.
    pub fn named(word: &[u8]) -> Option<Format>
        ensures { result ≡ format_named word.now }
    {
        let colon = colon_or_len(word);
        let layout = layout_named(&word[..colon])?;
        let scale = scale_named(&word[colon..])?;
        Some(Format { layout, scale })
    }

    /// Returns the format that has the name of this kind of problem, with scale 1.
    pub fn of_kind(kind: Kind) -> Format
        ensures { result ≡ format_of kind }
    {
        let layout = match kind {
            Kind::LiLim => Layout::LiLim,
            Kind::Vrp => Layout::Vrp,
        };
        Format {
            layout,
            scale: Scale::One,
        }
    }

    /// Returns the kind of the problems that texts in this format spell.
    pub fn kind(self) -> Kind
        ensures { result ≡ kind_of self }
    {
        match self.layout {
            Layout::LiLim | Layout::Solomon => Kind::LiLim,
            Layout::Vrp => Kind::Vrp,
        }
    }

    /// Returns the word that names this format.
    pub fn word(self) -> &'static str
        ensures word { result.now ≡ format_word self }
        ensures names { format_named result.now ≡ Some self }
    {
        match self.layout {
            Layout::LiLim => lilim_word(self.scale),
            Layout::Solomon => solomon_word(self.scale),
            Layout::Vrp => vrp_word(self.scale),
        }
    }
}

fn layout_named(word: &[u8]) -> Option<Layout>
    ensures { result ≡ layout_named word.now }
{
    match word {
        b"lilim" => Some(Layout::LiLim),
        b"solomon" => Some(Layout::Solomon),
        b"vrp" => Some(Layout::Vrp),
        _ => None,
    }
}

// Returns the scale that the rest of a word names, from its colon on. Without a colon, the rest is empty.
fn scale_named(rest: &[u8]) -> Option<Scale>
    ensures { result ≡ scale_named rest.now }
{
    match rest {
        b"" | b":1" => Some(Scale::One),
        b":10" => Some(Scale::Ten),
        b":100" => Some(Scale::Hundred),
        b":1000" => Some(Scale::Thousand),
        _ => None,
    }
}

// Returns the place of the first colon, or the length of the word if it has none.
fn colon_or_len(word: &[u8]) -> usize
    ensures { result ≡ position_or_len is_colon word.now }
{
    colon_place(word).unwrap_or(word.len())
}

fn lilim_word(scale: Scale) -> &'static str
    ensures word { result.now ≡ format_word (record { layout = Layout.LiLim; scale = scale }) }
    ensures names { format_named result.now ≡ Some (record { layout = Layout.LiLim; scale = scale }) }
{
    match scale {
        Scale::One => "lilim",
        Scale::Ten => "lilim:10",
        Scale::Hundred => "lilim:100",
        Scale::Thousand => "lilim:1000",
    }
}

fn solomon_word(scale: Scale) -> &'static str
    ensures word { result.now ≡ format_word (record { layout = Layout.Solomon; scale = scale }) }
    ensures names { format_named result.now ≡ Some (record { layout = Layout.Solomon; scale = scale }) }
{
    match scale {
        Scale::One => "solomon",
        Scale::Ten => "solomon:10",
        Scale::Hundred => "solomon:100",
        Scale::Thousand => "solomon:1000",
    }
}

fn vrp_word(scale: Scale) -> &'static str
    ensures word { result.now ≡ format_word (record { layout = Layout.Vrp; scale = scale }) }
    ensures names { format_named result.now ≡ Some (record { layout = Layout.Vrp; scale = scale }) }
{
    match scale {
        Scale::One => "vrp",
        Scale::Ten => "vrp:10",
        Scale::Hundred => "vrp:100",
        Scale::Thousand => "vrp:1000",
    }
}
