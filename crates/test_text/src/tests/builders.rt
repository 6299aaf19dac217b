//! Inputs that several of the examples use, and the building of long inputs.

use instance_read::{Format, ReadFault};
use plan_types::{Kind, Problem};
use std::alloc::{AllocError, Global};

/// One pickup and its delivery. The vehicle serves them at 5 and at 12, and is back at 24.
pub const ONE_PAIR: &[u8] =
    b"2 10 1\n0 0 0 0 0 100 0 0 0\n1 3 4 4 0 50 2 0 2\n2 6 8 -4 0 60 2 1 0\n";

/// Reads an instance in the format of this kind.
pub fn read_instance(alloc: Global, kind: Kind, text: &[u8]) -> Result<Problem, ReadFault> {
    instance_read::read_instance(alloc, Format::of_kind(kind), text)
}

/// The form of a numbered line or piece. Numbers count from 1.
#[derive(Clone, Copy)]
pub enum Form {
    /// Pair k: stop 2k is the delivery of stop 2k-1.
    Pair,
    /// Node n is at (n, -n).
    Node,
    /// Node n has demand n.
    Demand,
    /// Customer n in Solomon's format is at (n, -n) and has demand 7.
    Customer,
    /// Route n visits stop n.
    Route,
    /// The number of stop n in a route, after a space.
    Stop,
    /// The digit 9.
    Nine,
}

// Returns the lines of the pair after the first `before` pairs.
fn pair_line(alloc: Global, before: u32) -> Result<String, AllocError> {
    let pickup = before.saturating_mul(2).saturating_add(1);
    let delivery = pickup.saturating_add(1);
    format!(in alloc;
        "{pickup} {before} -{before} 7 0 100000000 90 0 {delivery}\n{delivery} 0 {before} -7 0 100000000 90 {pickup} 0\n"
    )
}

// Returns the line or piece of this form after the first `before` ones.
fn line_of(alloc: Global, form: Form, before: u32) -> Result<String, AllocError> {
    let number = before.saturating_add(1);
    match form {
        Form::Pair => pair_line(alloc, before),
        Form::Node => format!(in alloc; "{number} {number} -{number}\n"),
        Form::Demand => format!(in alloc; "{number} {number}\n"),
        Form::Customer => { format!(in alloc; "{number} {number} -{number} 7 0 100000000 90\n") }
        Form::Route => format!(in alloc; "Route #{number}: {number}\n"),
        Form::Stop => format!(in alloc; " {number}"),
        Form::Nine => format!(in alloc; "9"),
    }
}

/// A part of an input.
#[derive(Clone, Copy)]
pub enum Part {
    Text(&'static [u8]),
    /// The given number of lines or pieces of a form.
    Lines(Form, u32),
}

fn put_lines(alloc: Global, text: &mut Vec<u8>, form: Form, count: u32) -> Result<(), AllocError> {
    for before in 0..count {
        text.extend_from_slice(line_of(alloc, form, before)?.as_bytes())?;
    }
    Ok(())
}

fn put_part(alloc: Global, text: &mut Vec<u8>, part: Part) -> Result<(), AllocError> {
    match part {
        Part::Text(bytes) => text.extend_from_slice(bytes),
        Part::Lines(form, count) => put_lines(alloc, text, form, count),
    }
}

/// Returns the input of these parts.
pub fn text_of(alloc: Global, parts: &[Part]) -> Result<Vec<u8>, AllocError> {
    let mut text = Vec::new(alloc);
    for part in parts {
        put_part(alloc, &mut text, *part)?;
    }
    Ok(text)
}
