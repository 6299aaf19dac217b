//! Templates in which each `@` is replaced by a value, and the names of the fields, keys and lines of instances.
ghost use Rattle.std.specs.Prelude.{◌≡◌, ◌<◌, ◌++◌, map};
ghost use Rattle.std.specs.Option.{option_copied};
ghost use Rattle.plan_explain.specs.Templates.{demand_text, field_name, form, key_name, left, line_name, next_text, plain_byte, position_text, required_value, text_if, value_text};

use crate::quotes::put_quoted;
use instance_read::{Field, Key, SolomonLine};
use plan_types::Stop;
use rule_violations::PrintedPosition;
use text_buffer::TextBuffer;

/// A value that replaces an `@` of a template.
#[derive(Clone, Copy)]
pub(crate) enum Value<'a> {
    Short(u32),
    Number(u64),
    Long(u128),
    Signed(i64),
    /// A number, right-aligned in a column of this width. `Left` is left-aligned.
    Right(usize, u64),
    RightLong(usize, u128),
    RightSigned(usize, i64),
    Left(usize, u64),
    /// These words if the condition holds, otherwise nothing.
    TextIf(&'a str, bool),
    /// The route and place of a stop, or the words for a stop in no route.
    At(Option<PrintedPosition>),
    /// Bytes of the file, as `put_quoted` appends them.
    Quote(&'a [u8]),
    Name(Field),
    KeyName(Key),
    LineName(SolomonLine),
    /// The value that this key must have.
    RequiredValue(Key),
    /// The demand of a stop, or nothing if there is no stop.
    Demand(Option<&'a Stop>),
}

/// Appends a template of ASCII characters, with each `@` replaced by the next value.
pub(crate) fn put_template(text: &mut TextBuffer, words: &str, values: &[Value<'_>])
    ensures { text.new ≡ text.old ++ form words.now (map value_text values.now) }
{
    let mut rest = values;
    for byte in words.as_bytes() {
        rest = put_next(text, *byte, rest);
    }
}

// Appends a byte, or the next value if the byte is `@`, and returns the remaining values.
fn put_next<'a, 'b>(text: &mut TextBuffer, byte: u8, values: &'b [Value<'a>]) -> &'b [Value<'a>]
    ensures text { text.new ≡ text.old ++ next_text byte (map value_text values.now) }
    ensures rest { map value_text result.now ≡ left byte (map value_text values.now) }
{
    match values {
        _ if byte != b'@' => text.push_ascii(plain_byte(byte)),
        [] => {}
        [value, rest @ ..] => {
            put_value(text, *value);
            return rest;
        }
    }
    values
}

fn plain_byte(byte: u8) -> u8
    ensures plain { result ≡ plain_byte byte }
    ensures ascii { result < 128 }
{
    if byte < 128 { byte } else { b'?' }
}

fn put_value(text: &mut TextBuffer, value: Value<'_>)
    ensures { text.new ≡ text.old ++ value_text value.entry }
{
    match value {
        Value::Short(number) => text.push_number(number),
        Value::Number(number) => text.push_number(number),
        Value::Long(number) => text.push_number(number),
        Value::Signed(number) => text.push_number(number),
        Value::Right(width, number) => text.push_right_aligned(width, u128::from(number)),
        Value::RightLong(width, number) => text.push_right_aligned(width, number),
        Value::RightSigned(width, number) => text.push_right_aligned_signed(width, number),
        Value::Left(width, number) => text.push_left_aligned(width, u128::from(number)),
        Value::TextIf(words, holds) => put_if(text, words, holds),
        Value::At(position) => put_position(text, position),
        Value::Quote(bytes) => put_quoted(text, bytes),
        Value::Name(field) => text.push_str(field_name(field)),
        Value::KeyName(key) => text.push_str(key_name(key)),
        Value::LineName(line) => text.push_str(line_name(line)),
        Value::RequiredValue(key) => text.push_str(required_value(key)),
        Value::Demand(stop) => put_demand(text, stop),
    }
}

/// Appends the words if `holds` is true.
pub(crate) fn put_if(text: &mut TextBuffer, words: &str, holds: bool)
    ensures { text.new ≡ text.old ++ text_if words.now holds }
{
    if holds {
        text.push_str(words)
    }
}

fn put_position(text: &mut TextBuffer, position: Option<PrintedPosition>)
    ensures { text.new ≡ text.old ++ position_text position }
{
    let Some(PrintedPosition { route, place }) = position else {
        text.push_str("in no route");
        return;
    };
    text.push_str("at place ");
    text.push_number(place);
    text.push_str(" of route ");
    text.push_number(route);
}

fn put_demand(text: &mut TextBuffer, stop: Option<&Stop>)
    ensures { text.new ≡ text.old ++ demand_text (option_copied stop.entry) }
{
    if let Some(stop) = stop {
        text.push_str(", demand ");
        text.push_number(i64::from(stop.demand));
    }
}

// Returns the name of a field, as messages print it.
#[tactic(auto, unfolding(crate::specs::Templates::field_name))]
fn field_name(field: Field) -> &'static str
    ensures { result.now ≡ field_name field }
{
    match field {
        Field::Fleet => "fleet",
        Field::Capacity => "capacity",
        Field::Speed => "speed",
        Field::Number | Field::Customer => "number",
        Field::X => "x",
        Field::Y => "y",
        Field::Demand => "demand",
        Field::Earliest => "earliest",
        Field::Latest => "latest",
        Field::Ready => "ready",
        Field::Due => "due",
        Field::Service => "service",
        Field::Pickup => "pickup",
        Field::Delivery => "delivery",
        Field::Node => "node",
        Field::Depot => "depot",
        Field::Value(key) => key_name(key),
        Field::ExtraWord => "a word",
    }
}

// Returns the name of a key or a section, as messages print it.
#[tactic(auto, unfolding(crate::specs::Templates::key_name))]
fn key_name(key: Key) -> &'static str
    ensures { result.now ≡ key_name key }
{
    match key {
        Key::Dimension => "DIMENSION",
        Key::Capacity => "CAPACITY",
        Key::ProblemType => "TYPE",
        Key::WeightType => "EDGE_WEIGHT_TYPE",
        Key::Coordinates => "NODE_COORD_SECTION",
        Key::Demands => "DEMAND_SECTION",
        Key::Depots => "DEPOT_SECTION",
        _ => "",
    }
}

// Returns the name of a line in Solomon's format: the word with which it begins, or a description of its
// contents.
#[tactic(auto, unfolding(crate::specs::Templates::line_name))]
fn line_name(line: SolomonLine) -> &'static str
    ensures { result.now ≡ line_name line }
{
    match line {
        SolomonLine::Name => "the name",
        SolomonLine::Vehicle => "VEHICLE",
        SolomonLine::Number => "NUMBER",
        SolomonLine::Fleet => "fleet and capacity",
        SolomonLine::Customers => "CUSTOMER",
        SolomonLine::Columns => "CUST",
        SolomonLine::Depot | SolomonLine::Customer => "customer 0, the depot,",
    }
}

// Returns the only value that is supported for a key.
#[tactic(auto, unfolding(crate::specs::Templates::required_value))]
fn required_value(key: Key) -> &'static str
    ensures { result.now ≡ required_value key }
{
    match key {
        Key::ProblemType => "CVRP",
        _ => "EUC_2D",
    }
}
