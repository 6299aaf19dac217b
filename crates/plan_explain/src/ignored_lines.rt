//! Parts of a file that are ignored: limits that a `.vrp` file may have, and text after the cost line of a
//! solution.
ghost use Rattle.std.specs.Prelude.{◌≡◌};
ghost use Rattle.text_lines.specs.Lines.{lines_of};
ghost use Rattle.plan_explain.specs.AfterCost.{ReadingEndsAtCost, ReportedLineIsUnread, line_after_cost};
ghost use Rattle.plan_explain.specs.IgnoredLimits.{is_limit, limit_from, ignored_limit_line};

use crate::quotes::is_key;
use instance_read::{Format, Layout, split_key};
use sol_text::cost_word;
use text_lines::{Lines, is_blank_line};

/// Returns the number of the first line before `EOF` whose key sets a limit that this project ignores. Such a
/// limit is on the number of vehicles, or on the length, the stops or the risk of a route. Lines count from 1.
/// Returns `None` for a Li-Lim instance and for one in Solomon's format, which have no keys. Source: keys of
/// LKH, and of extensions of TSPLIB.
pub fn ignored_limit_line(format: Format, text: &[u8]) -> Option<u64>
    ensures { result ≡ ignored_limit_line format text.now }
{
    match format.layout {
        Layout::LiLim | Layout::Solomon => None,
        Layout::Vrp => first_limit(text),
    }
}

fn first_limit(text: &[u8]) -> Option<u64>
    ensures { result ≡ limit_from 1 (lines_of text.now) }
{
    let mut number = 0;
    for line in Lines::new(text) {
        number += 1;
        if is_key(b"EOF", line) {
            return None;
        }
        if is_limit(split_key(line).0) {
            return Some(number);
        }
    }
    None
}

// Returns whether the key limits the number of vehicles, the length of a route, its number of stops, or its
// risk.
fn is_limit(key: &[u8]) -> bool
    ensures { result ≡ is_limit key.now }
{
    key.eq_ignore_ascii_case(b"VEHICLES")
        || key.eq_ignore_ascii_case(b"SALESMEN")
        || key.eq_ignore_ascii_case(b"MAX_DURATION")
        || key.eq_ignore_ascii_case(b"MAX_DISTANCE")
        || key.eq_ignore_ascii_case(b"MTSP_MIN_SIZE")
        || key.eq_ignore_ascii_case(b"MTSP_MAX_SIZE")
        || key.eq_ignore_ascii_case(b"RISK_THRESHOLD")
}

/// Returns the number of the first line after the cost line that has more than spaces and tabs, or `None` if
/// there is none. Lines count from 1. The reader of solutions ignores that line.
pub fn line_after_cost(text: &[u8]) -> Option<u64>
    ensures { result ≡ line_after_cost text.now }
{
    let mut number = 0;
    let mut is_later = false;
    for line in Lines::new(text) {
        number += 1;
        if is_later {
            if !is_blank_line(line) {
                return Some(number);
            }
        } else {
            is_later = cost_word(line).is_some();
        }
    }
    None
}

/// States that the reader of solutions ends at the first cost line. If two files have the same lines up to and
/// including it, they spell the same solution or have the same first fault. The line that `line_after_cost`
/// returns is after that cost line, so the reader ignores it.
pub fn reading_ends_at_the_cost_line()
    ensures ends { ReadingEndsAtCost }
    ensures unread { ReportedLineIsUnread }
{}
