//! The stops of a route after some requests are removed.
ghost use Rattle.std.specs.Prelude.{◌≡◌, ◌%◌, ℕ, true, false, not, filter, length, slice_index_or, OnOk};
ghost use Rattle.plan_audit.specs.Passes.{has};
ghost use Rattle.move_ops.specs.Moves.{is_of_named};

use plan_types::{OutOfMemory, Problem};

/// Fills a list with the stops of a route, except those of the named requests.
pub(crate) fn keep_others(
    kept: &mut Vec<u32>,
    problem: &Problem,
    names: &[u32],
    route: &[u32],
) -> Result<(), OutOfMemory>
    ensures { OnOk result (kept.new.items ≡ filter
        (λ n. not (is_of_named problem.now names.now n)) route.now) }
{
    kept.clear();
    kept.reserve(route.len())?;
    let marks = marks_of(names);
    for stop in route {
        if !is_of_named(problem, names, &marks, *stop) {
            kept.push(*stop)?;
        }
    }
    Ok(())
}

// The number of marks. Names with the same remainder modulo this number share one.
const MARKS: usize = 64;

// Returns the marks of the names: for each remainder, whether a name has it.
fn marks_of(names: &[u32]) -> [bool; MARKS]
    ensures len { length result ≡ MARKS }
    ensures marks { (n : ℕ) → has names.now n ≡ true
        → slice_index_or result (n % MARKS) false ≡ true }
{
    let mut marks = [false; MARKS];
    for name in names {
        marks[*name as usize % MARKS] = true;
    }
    marks
}

// Returns whether the stop is of one of the named requests. Most stops are not, and usually the mark shows this
// without a search in `names`.
fn is_of_named(problem: &Problem, names: &[u32], marks: &[bool; MARKS], stop: u32) -> bool
    requires len { length marks.now ≡ MARKS }
    requires marks { (n : ℕ) → has names.now n ≡ true
        → slice_index_or marks.now (n % MARKS) false ≡ true }
    ensures { result ≡ is_of_named problem.now names.now stop }
{
    match problem.name_of(stop) {
        Some(name) => marks[name as usize % MARKS] && names.contains(&name),
        None => false,
    }
}
