//! The text of a picture, piece by piece.
//!
//! Route n has the colour `hsl(137 n mod 360, 75%, 30 + 4 (n mod 7)%)`. The first 2,520 routes have different
//! colours.
ghost use Rattle.std.specs.Prelude.{◌≡◌, ◌++◌, ◌≤◌, [], IfOk};
ghost use Rattle.plan_audit.specs.Verdict.{rule_name};
ghost use Rattle.plan_picture.specs.Svg.{at_text, attribute, bar, broken_class, colour, digit_count, word_and_number, numbered, placed_tag, placed_text, word_and_nonzero, tagged};
ghost use Rattle.plan_picture.specs.Styles.{style};
ghost use Rattle.plan_picture.specs.Tags.{fixed};
ghost use Rattle.plan_picture.specs.Words.{word};

use crate::frame::Point;
use crate::styles::Style;
use crate::tags::Tag;
use crate::words::Word;
use itoa::{Buffer, Integer};
use plan_audit::Rule;
use plan_types::OutOfMemory;
use std::alloc::Global;
use std::marker::Model;
use text_buffer::TextBuffer;

/// The text so far. Once memory runs out, nothing more is appended, and `into_vec` returns the error.
#[derive(Drop)]
pub(crate) struct Svg {
    text: TextBuffer,
}

impl Model for Svg {
    ghost use Rattle.std.specs.Prelude.{List, ℕ};

    ghost Value = { List ℕ };

    ghost view = { λ s. s.text };
}

impl Svg {
    /// Creates an empty text.
    pub(crate) fn new(alloc: Global) -> Svg
        ensures { result ≡ [] }
    {
        Svg {
            text: TextBuffer::new(alloc),
        }
    }

    /// Returns the bytes. It allocates nothing, but fails if memory ran out before.
    pub(crate) fn into_vec(self) -> Result<Vec<u8>, OutOfMemory>
        ensures { IfOk result (λ bytes. bytes.items ≡ self) }
    {
        let Svg { text } = self;
        text.into_vec()
    }

    /// Appends a number in decimal.
    pub(crate) fn put_number<N: Integer>(&mut self, n: N)
        ensures { self.new ≡ self.old ++ N.text n }
    {
        self.text.push_number(n);
    }

    /// Appends the name of a rule.
    pub(crate) fn put_rule_name(&mut self, rule: Rule)
        ensures { self.new ≡ self.old ++ rule_name rule }
    {
        self.text.push_str(rule.name());
    }

    /// Appends a piece of style.
    pub(crate) fn put_style(&mut self, what: Style)
        ensures { self.new ≡ self.old ++ style what }
    {
        self.text.push_str(what.as_str());
    }

    /// Appends the text of a word.
    pub(crate) fn put_word(&mut self, what: Word)
        ensures { self.new ≡ self.old ++ word what }
    {
        self.text.push_str(what.as_str());
    }

    /// Appends a tag.
    pub(crate) fn put(&mut self, tag: Tag)
        ensures { self.new ≡ self.old ++ fixed tag }
    {
        self.text.push_str(tag.as_str());
    }

    /// Appends a tag and the number after it.
    #[tactic(auto, unfolding(crate::specs::Svg::numbered))]
    pub(crate) fn put_numbered(&mut self, tag: Tag, n: u128)
        ensures { self.new ≡ self.old ++ numbered tag n }
    {
        self.put(tag);
        self.put_number(n);
    }

    /// Appends a tag, a number, and the quote that ends an attribute.
    #[tactic(auto, unfolding(crate::specs::Svg::attribute))]
    pub(crate) fn put_attribute(&mut self, tag: Tag, n: u128)
        ensures { self.new ≡ self.old ++ attribute tag n }
    {
        self.put(tag);
        self.put_number(n);
        self.put(Tag::Quote);
    }

    /// Appends a tag and its position, without closing the tag.
    #[tactic(auto, unfolding(crate::specs::Svg::placed_tag))]
    pub(crate) fn put_placed(&mut self, tag: Tag, point: Point)
        ensures { self.new ≡ self.old ++ placed_tag tag point }
    {
        self.put(tag);
        self.put_attribute(Tag::X, point.x);
        self.put_attribute(Tag::Y, point.y);
    }

    /// Appends a tag and the words after it.
    #[tactic(auto, unfolding(crate::specs::Svg::tagged))]
    pub(crate) fn put_tagged(&mut self, tag: Tag, word: Word)
        ensures { self.new ≡ self.old ++ tagged tag word }
    {
        self.put(tag);
        self.put_word(word);
    }

    /// Appends words and the number after them.
    #[tactic(auto, unfolding(crate::specs::Svg::word_and_number))]
    pub(crate) fn put_word_and_number(&mut self, word: Word, n: u128)
        ensures { self.new ≡ self.old ++ word_and_number word n }
    {
        self.put_word(word);
        self.put_number(n);
    }

    /// Appends words and the number after them, or nothing if it is 0.
    pub(crate) fn put_word_and_nonzero(&mut self, word: Word, n: u128)
        ensures { self.new ≡ self.old ++ word_and_nonzero word n }
    {
        if n == 0 {
            return;
        }
        self.put_word_and_number(word, n);
    }

    /// Appends a point of a line, as ` X,Y`.
    #[tactic(auto, unfolding(crate::specs::Svg::at_text))]
    pub(crate) fn put_at(&mut self, point: Point)
        ensures { self.new ≡ self.old ++ at_text point }
    {
        self.put_numbered(Tag::Blank, point.x);
        self.put_numbered(Tag::Comma, point.y);
    }

    /// Appends a number as an element `text`; `tag` begins its start tag.
    #[tactic(auto, unfolding(crate::specs::Svg::placed_text))]
    pub(crate) fn put_text(&mut self, tag: Tag, x: u128, n: u128)
        ensures { self.new ≡ self.old ++ placed_text tag x n }
    {
        self.put(tag);
        self.put_attribute(Tag::X, x);
        self.put_numbered(Tag::TagEnd, n);
        self.put(Tag::TextEnd);
    }

    /// Appends an attribute with the colour of the route with this number.
    #[tactic(auto, unfolding(crate::specs::Svg::colour))]
    pub(crate) fn put_colour(&mut self, tag: Tag, number: u64)
        ensures { self.new ≡ self.old ++ colour tag number }
    {
        let hue = 137 * number as u128 % 360;
        let light = 30 + number % 7 * 4;
        self.put_numbered(tag, hue);
        self.put_style(Style::Saturation);
        self.put_number(light as u128);
        self.put(Tag::ColourEnd);
    }

    /// Appends a class if the route with this number is the broken one.
    #[tactic(auto, unfolding(crate::specs::Svg::broken_class))]
    pub(crate) fn put_broken(&mut self, broken: u64, number: u64)
        ensures { self.new ≡ self.old ++ broken_class broken number }
    {
        if number == broken {
            self.put(Tag::BrokenClass);
        }
    }

    /// Appends a bar that begins at a time, unless it is empty.
    #[tactic(auto, unfolding(crate::specs::Svg::bar))]
    pub(crate) fn put_bar(&mut self, tag: Tag, first: u128, width: u128)
        ensures { self.new ≡ self.old ++ bar tag first width }
    {
        if width == 0 {
            return;
        }
        self.put(tag);
        self.put_attribute(Tag::X, first);
        self.put_attribute(Tag::Width, width);
        self.put(Tag::Close);
    }
}

/// Returns how many digits a number has.
pub(crate) fn digits(n: u64) -> u32
    ensures count { result ≡ digit_count n }
    ensures few { result ≤ 40 }
{
    let mut buffer = Buffer::new();
    buffer.format(n).len() as u32
}
