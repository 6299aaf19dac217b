//! The lines that answer an audit.
//!
//! An answer is one line, so `format!` may allocate for it. A solution is printed number by number instead,
//! without allocating for each number.
ghost use Rattle.std.specs.Prelude.{◌≡◌, ◌++◌, ℕ, List, IfOk};
ghost use Rattle.auditor_cli.specs.AnswerText.{broken_text, fault_text, partial_text, pass_text, planned_text};

use plan_types::{Cost, OutOfMemory};
use std::alloc::Global;
use std::marker::Model;

/// A line of text, without its line end.
#[derive(Debug, Drop)]
pub struct AuditLine {
    bytes: Vec<u8>,
}

impl Model for AuditLine {
    ghost Value = { List ℕ };

    ghost view = { λ l. l.bytes.items };
}

impl From<String> for AuditLine {
    ghost use Rattle.std.specs.Prelude.{◌≡◌, string_bytes};

    ghost from_gives = { λ text line. line ≡ string_bytes text };

    /// Converts a text into a line without allocating.
    fn from(text: String) -> AuditLine {
        AuditLine {
            bytes: text.into_bytes(),
        }
    }
}

impl AuditLine {
    /// Returns the bytes of the line.
    pub fn as_bytes(&self) -> &[u8]
        ensures { result.now ≡ self.now }
    {
        self.bytes.as_slice()
    }

    /// Returns the line with `text` appended.
    pub fn with(self, text: &str) -> Result<AuditLine, OutOfMemory>
        ensures { IfOk result (λ line. line ≡ self ++ text.now) }
    {
        let mut bytes = self.into_vec();
        bytes.extend_from_slice(text.as_bytes())?;
        Ok(AuditLine { bytes })
    }

    /// Returns the bytes without allocating.
    pub fn into_vec(self) -> Vec<u8>
        ensures { result.items ≡ self }
    {
        let AuditLine { bytes } = self;
        bytes
    }
}

/// The line that the program prints for an audit, and its exit status.
#[derive(Debug, Drop)]
pub struct AuditAnswer {
    pub line: AuditLine,
    /// The exit status: 0 for a solution that passes, 1 for a broken rule or a partial plan, 2 for a file that
    /// is refused.
    pub status: u8,
}

/// Returns the line for a solution that breaks no rule: `pass UNPLANNED VEHICLES DISTANCE`.
pub fn pass_line(alloc: Global, cost: Cost) -> Result<AuditLine, OutOfMemory>
    ensures { IfOk result (λ line. line ≡ pass_text cost) }
{
    let Cost {
        unplanned,
        vehicles,
        distance,
    } = cost;
    let text = format!(in alloc; "pass {unplanned} {vehicles} {distance}")?;
    Ok(AuditLine::from(text))
}

/// Returns the line for a plan that leaves requests out: `partial UNPLANNED VEHICLES DISTANCE`.
pub fn partial_line(alloc: Global, cost: Cost) -> Result<AuditLine, OutOfMemory>
    ensures { IfOk result (λ line. line ≡ partial_text cost) }
{
    let Cost {
        unplanned,
        vehicles,
        distance,
    } = cost;
    let text = format!(in alloc; "partial {unplanned} {vehicles} {distance}")?;
    Ok(AuditLine::from(text))
}

/// Returns the line for a plan that breaks no rule, which passes or is partial.
pub fn planned_line(alloc: Global, cost: Cost) -> Result<AuditLine, OutOfMemory>
    ensures { IfOk result (λ line. line ≡ planned_text cost) }
{
    if cost.unplanned == 0 {
        pass_line(alloc, cost)
    } else {
        partial_line(alloc, cost)
    }
}

/// Returns the line for a broken rule: `broken RULE route R place P stop S`. Routes and places count from 1.
pub fn broken_line(
    alloc: Global,
    rule: u32,
    route: u64,
    place: u64,
    stop: u32,
) -> Result<AuditLine, OutOfMemory>
    ensures { IfOk result (λ line. line ≡ broken_text rule route place stop) }
{
    let text = format!(in alloc; "broken {rule} route {route} place {place} stop {stop}")?;
    Ok(AuditLine::from(text))
}

/// Returns the line for a file that is refused: `TEXT NAME LINE`. `TEXT` is `instance` or `solution`, `NAME` is
/// the name of its fault, and lines count from 1.
pub fn fault_line(
    alloc: Global,
    text: &str,
    name: &str,
    line: u64,
) -> Result<AuditLine, OutOfMemory>
    ensures { IfOk result (λ answer. answer ≡ fault_text text.now name.now line) }
{
    let answer = format!(in alloc; "{text} {name} {line}")?;
    Ok(AuditLine::from(answer))
}
