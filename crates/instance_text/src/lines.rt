//! One line of an instance text.
ghost use Rattle.std.specs.Prelude.{◌≡◌, ◌++◌, ◌∷◌, [], OnOk};
ghost use Rattle.std.specs.Fmt.{decimal, signed_decimal};
ghost use Rattle.std.specs.List.{flat_map};
ghost use Rattle.text_lines.specs.Lines.{with_line_feed};
ghost use Rattle.instance_text.specs.Texts.{heading_text, key_line, numbers_text};

use itoa::{Buffer, Integer};
use std::alloc::AllocError;

/// The fixed parts of a text, in CVRPLIB's or Solomon's format: whole lines, and two keys that a number follows.
#[derive(Clone, Copy)]
pub(crate) enum Heading {
    Name,
    ProblemType,
    Dimension,
    Weights,
    Capacity,
    Coordinates,
    Demands,
    Depots,
    End,
    Title,
    Blank,
    Vehicles,
    Amounts,
    Customers,
    Columns,
}

impl Heading {
    #[tactic(auto, unfolding(crate::specs::Texts::heading_text))]
    fn text(self) -> &'static [u8]
        ensures { result.now ≡ heading_text self }
    {
        match self {
            Heading::Name => b"NAME : planner",
            Heading::ProblemType => b"TYPE : CVRP",
            Heading::Dimension => b"DIMENSION : ",
            Heading::Weights => b"EDGE_WEIGHT_TYPE : EUC_2D",
            Heading::Capacity => b"CAPACITY : ",
            Heading::Coordinates => b"NODE_COORD_SECTION",
            Heading::Demands => b"DEMAND_SECTION",
            Heading::Depots => b"DEPOT_SECTION",
            Heading::End => b"EOF",
            Heading::Title => b"planner",
            Heading::Blank => b"",
            Heading::Vehicles => b"VEHICLE",
            Heading::Amounts => b"NUMBER CAPACITY",
            Heading::Customers => b"CUSTOMER",
            Heading::Columns => b"CUST NO. XCOORD. YCOORD. DEMAND READY TIME DUE DATE SERVICE TIME",
        }
    }
}

/// Appends a line that is the same in each text.
pub(crate) fn put_heading(text: &mut Vec<u8>, heading: Heading) -> Result<(), AllocError>
    ensures { OnOk result (text.new.items ≡ text.old.items ++ with_line_feed (heading_text heading)) }
{
    text.extend_from_slice(heading.text())?;
    text.push(b'\n')?;
    Ok(())
}

/// Appends a line with a key and its number.
pub(crate) fn put_key_line(text: &mut Vec<u8>, key: Heading, number: u64) -> Result<(), AllocError>
    ensures { OnOk result (text.new.items ≡ text.old.items ++ with_line_feed (key_line key number)) }
{
    text.extend_from_slice(key.text())?;
    put_number(text, number)?;
    text.push(b'\n')?;
    Ok(())
}

/// Appends a line of numbers, separated by single spaces.
#[tactic(auto, unfolding(crate::specs::Texts::numbers_text))]
pub(crate) fn put_line(text: &mut Vec<u8>, numbers: &[i64]) -> Result<(), AllocError>
    ensures { OnOk result (text.new.items ≡ text.old.items ++ with_line_feed (numbers_text numbers.now)) }
{
    if let [first, more @ ..] = numbers {
        put_number(text, *first)?;
        put_more(text, more)?;
    }
    text.push(b'\n')?;
    Ok(())
}

fn put_more(text: &mut Vec<u8>, numbers: &[i64]) -> Result<(), AllocError>
    ensures { OnOk result (text.new.items
        ≡ text.old.items ++ flat_map (λ n. 32 ∷ signed_decimal n) numbers.now) }
{
    for number in numbers {
        text.push(b' ')?;
        put_number(text, *number)?;
    }
    Ok(())
}

fn put_number<I: Integer>(text: &mut Vec<u8>, number: I) -> Result<(), AllocError>
    ensures { OnOk result (text.new.items ≡ text.old.items ++ I.text number) }
{
    let mut buffer = Buffer::new();
    text.extend_from_slice(buffer.format(number).as_bytes())
}
