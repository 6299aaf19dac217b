//! The text for a refused file: the sentence on its fault, the line that the fault names, and notes on the
//! whole file.
ghost use Rattle.std.specs.Prelude.{◌≡◌, ◌++◌, IfOk, string_bytes};
ghost use Rattle.std.specs.List.{list_any};
ghost use Rattle.text_lines.specs.Lines.{lines_of};
ghost use Rattle.plan_explain.specs.Refusals.{bom_note, encoding_notes, has_byte, has_nine_numbers, has_only_returns, instance_fault_text, instance_reason, instance_sentence, is_solomon_line, is_utf16, is_vrp_line, layout_note, lilim_note, line_end_note, missing_line, out_of_order, solomon_note, solution_fault_text, solution_reason, solution_sentence, too_many, under_sentence, utf16_note, vrp_note};

use crate::evidence::put_evidence;
use crate::quotes::{is_key, line_at};
use crate::sol_faults::put_sol_detail;
use crate::templates::Value::{Number, Quote};
use crate::templates::{put_if, put_template};
use instance_read::{Format, Layout, ReadFault, ReadFaultKind, evidence_of, has_no_number};
use plan_types::OutOfMemory;
use sol_text::{SolFault, SolFaultKind};
use std::alloc::Global;
use text_buffer::TextBuffer;
use text_lines::{Lines, word_count};

/// Returns the sentence on a fault of an instance that was read in this format. If the file has the line that
/// the fault names, its first 200 bytes follow, with `?` for each byte that is neither printable ASCII nor a
/// tab. Notes follow if the file begins with a byte order mark, has lines that end with CR only, or looks like
/// an instance in another format.
pub fn explain_instance_fault(
    alloc: Global,
    format: Format,
    text: &[u8],
    fault: ReadFault,
) -> Result<String, OutOfMemory>
    ensures { IfOk result (λ answer. string_bytes answer
        ≡ instance_fault_text format text.now fault) }
{
    let mut answer = TextBuffer::new(alloc);
    put_instance_sentence(&mut answer, format, text, fault);
    put_line_under(&mut answer, text, fault.line);
    put_encoding_notes(&mut answer, text);
    put_layout_note(&mut answer, format.layout, text);
    answer.into_string()
}

/// Returns the sentence on a fault of a solution, the line that it names, and notes on byte order marks and line
/// ends. The line is quoted as by `explain_instance_fault`.
pub fn explain_solution_fault(
    alloc: Global,
    text: &[u8],
    fault: SolFault,
) -> Result<String, OutOfMemory>
    ensures { IfOk result (λ answer. string_bytes answer ≡ solution_fault_text text.now fault) }
{
    let mut answer = TextBuffer::new(alloc);
    put_solution_sentence(&mut answer, text, fault);
    put_line_under(&mut answer, text, fault.line);
    put_encoding_notes(&mut answer, text);
    answer.into_string()
}

fn put_instance_sentence(answer: &mut TextBuffer, format: Format, text: &[u8], fault: ReadFault)
    ensures { answer.new ≡ answer.old ++ instance_sentence format text.now fault }
{
    put_template(answer, "line @: ", &[Number(fault.line)]);
    answer.push_str(instance_reason(format.layout, fault.kind));
    put_evidence(answer, fault.kind, evidence_of(format, text, fault));
}

#[tactic(auto, unfolding(crate::specs::Refusals::instance_reason))]
fn instance_reason(layout: Layout, fault: ReadFaultKind) -> &'static str
    ensures { result.now ≡ instance_reason layout fault }
{
    match fault {
        ReadFaultKind::BadNumber => "a word is not a whole number",
        ReadFaultKind::Range => "a number is outside its limits",
        ReadFaultKind::FieldCount => "the number of words is wrong",
        ReadFaultKind::TaskOrder => out_of_order(layout),
        ReadFaultKind::PairMismatch => "a task is no half of a pair",
        ReadFaultKind::EmptyWindow => "a window ends before it begins",
        ReadFaultKind::TooManyStops => too_many(layout),
        ReadFaultKind::MissingKey => missing_line(layout),
        ReadFaultKind::Unsupported => "the key or its value is not supported",
        ReadFaultKind::DepotNotFirst => "the list of depots is not 1 and then -1",
        ReadFaultKind::NodeRepeated => "a node, a key or a section stands twice",
        ReadFaultKind::Truncated => "the text ends early",
        ReadFaultKind::OutOfMemory => "out of memory",
    }
}

#[tactic(auto, unfolding(crate::specs::Refusals::too_many))]
fn too_many(layout: Layout) -> &'static str
    ensures { result.now ≡ too_many layout }
{
    match layout {
        Layout::LiLim => "a task has a number above 40000",
        Layout::Solomon => "a customer has a number above 40000",
        Layout::Vrp => "there are more nodes than 40001",
    }
}

#[tactic(auto, unfolding(crate::specs::Refusals::out_of_order))]
fn out_of_order(layout: Layout) -> &'static str
    ensures { result.now ≡ out_of_order layout }
{
    match layout {
        Layout::LiLim | Layout::Vrp => "task numbers do not rise from 0",
        Layout::Solomon => "customer numbers do not rise from 0",
    }
}

#[tactic(auto, unfolding(crate::specs::Refusals::missing_line))]
fn missing_line(layout: Layout) -> &'static str
    ensures { result.now ≡ missing_line layout }
{
    match layout {
        Layout::LiLim | Layout::Vrp => "a key or a section is missing",
        Layout::Solomon => "the line begins with the wrong word",
    }
}

fn put_solution_sentence(answer: &mut TextBuffer, text: &[u8], fault: SolFault)
    ensures { answer.new ≡ answer.old ++ solution_sentence text.now fault }
{
    put_template(answer, "line @: ", &[Number(fault.line)]);
    answer.push_str(solution_reason(fault.kind));
    put_sol_detail(answer, text, fault);
}

#[tactic(auto, unfolding(crate::specs::Refusals::solution_reason))]
fn solution_reason(fault: SolFaultKind) -> &'static str
    ensures { result.now ≡ solution_reason fault }
{
    match fault {
        SolFaultKind::BadLine => "this is no route line, and no cost line with one word",
        SolFaultKind::BadNumber => "a word is not the number that has to stand there",
        SolFaultKind::NoCost => "there is no cost line",
        SolFaultKind::OutOfMemory => "out of memory",
    }
}

// Ends the line of the sentence, and appends the line of the file with this number, if there is one.
fn put_line_under(answer: &mut TextBuffer, text: &[u8], number: u64)
    ensures { answer.new ≡ answer.old ++ under_sentence text.now number }
{
    answer.push_str("\n");
    if let Some(bytes) = line_at(text, number) {
        put_template(answer, "@\n", &[Quote(bytes)]);
    }
}

// Appends notes on a file that is no plain text with line feeds.
fn put_encoding_notes(text: &mut TextBuffer, refused: &[u8])
    ensures { text.new ≡ text.old ++ encoding_notes refused.now }
{
    put_bom_note(text, refused);
    put_utf16_note(text, refused);
    put_line_end_note(text, refused);
}

// Appends a note if the file begins with the byte order mark of UTF-8.
fn put_bom_note(text: &mut TextBuffer, refused: &[u8])
    ensures { text.new ≡ text.old ++ bom_note refused.now }
{
    let words =
        "the text begins with a byte order mark (EF BB BF): save it without, or by tail -c +4\n";
    put_if(text, words, matches!(refused, [0xef, 0xbb, 0xbf, ..]));
}

// Appends a note if the file begins with a byte order mark of UTF-16.
fn put_utf16_note(text: &mut TextBuffer, refused: &[u8])
    ensures { text.new ≡ text.old ++ utf16_note refused.now }
{
    let words = "the text is UTF-16: save it as UTF-8, or by iconv -f UTF-16 -t UTF-8\n";
    put_if(text, words, is_utf16(refused));
}

fn is_utf16(refused: &[u8]) -> bool
    ensures { result ≡ is_utf16 refused.now }
{
    match refused {
        [a, b, ..] => (*a == 0xff && *b == 0xfe) || (*a == 0xfe && *b == 0xff),
        _ => false,
    }
}

// Appends a note if carriage returns end the lines, so that the file is one line.
fn put_line_end_note(text: &mut TextBuffer, refused: &[u8])
    ensures { text.new ≡ text.old ++ line_end_note refused.now }
{
    let words = "the lines end with CR only: save them with LF, or by tr '\\r' '\\n'\n";
    put_if(text, words, has_only_returns(refused));
}

fn has_only_returns(refused: &[u8]) -> bool
    ensures { result ≡ has_only_returns refused.now }
{
    has_byte(b'\r', refused) && !has_byte(b'\n', refused)
}

fn has_byte(byte: u8, text: &[u8]) -> bool
    ensures { result ≡ has_byte byte text.now }
{
    text.iter().any(|b| *b == byte)
}

// Appends a note if an instance that was read with this layout seems to have another layout.
fn put_layout_note(text: &mut TextBuffer, layout: Layout, instance: &[u8])
    ensures { text.new ≡ text.old ++ layout_note layout instance.now }
{
    match layout {
        Layout::LiLim => put_lilim_note(text, instance),
        Layout::Solomon => put_solomon_note(text, instance),
        Layout::Vrp => put_vrp_note(text, instance),
    }
}

fn put_lilim_note(text: &mut TextBuffer, instance: &[u8])
    ensures { text.new ≡ text.old ++ lilim_note instance.now }
{
    if looks_like_vrp(instance) {
        text.push_str("the text looks like a .vrp instance, and is read as lilim\n")
    } else {
        let words = "the text looks like a Solomon instance, and is read as lilim\n";
        put_if(text, words, looks_like_solomon(instance))
    }
}

fn put_vrp_note(text: &mut TextBuffer, instance: &[u8])
    ensures { text.new ≡ text.old ++ vrp_note instance.now }
{
    if looks_like_lilim(instance) {
        text.push_str("the text looks like a Li-Lim instance, and is read as vrp\n")
    } else {
        let words = "the text looks like a Solomon instance, and is read as vrp\n";
        put_if(text, words, looks_like_solomon(instance))
    }
}

fn put_solomon_note(text: &mut TextBuffer, instance: &[u8])
    ensures { text.new ≡ text.old ++ solomon_note instance.now }
{
    if looks_like_vrp(instance) {
        text.push_str("the text looks like a .vrp instance, and is read as solomon\n")
    } else {
        let words = "the text looks like a Li-Lim instance, and is read as solomon\n";
        put_if(text, words, looks_like_lilim(instance))
    }
}

// Returns whether a line has the key `DIMENSION` or `NODE_COORD_SECTION`.
fn looks_like_vrp(instance: &[u8]) -> bool
    ensures { result ≡ list_any is_vrp_line (lines_of instance.now) }
{
    Lines::new(instance).any(|line| is_key(b"DIMENSION", line)
        || is_key(b"NODE_COORD_SECTION", line))
}

// Returns whether a line has the key `VEHICLE` or `CUSTOMER`.
fn looks_like_solomon(instance: &[u8]) -> bool
    ensures { result ≡ list_any is_solomon_line (lines_of instance.now) }
{
    Lines::new(instance).any(|line| is_key(b"VEHICLE", line) || is_key(b"CUSTOMER", line))
}

// Returns whether a line has the nine numbers of a task.
fn looks_like_lilim(instance: &[u8]) -> bool
    ensures { result ≡ list_any has_nine_numbers (lines_of instance.now) }
{
    Lines::new(instance).any(|line| word_count(line) == 9 && !has_no_number(line))
}
