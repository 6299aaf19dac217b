//! The audit of the built-in instance and solution.
ghost use Rattle.std.specs.Prelude.{◌≡◌, ◌≤◌, IfOk};
ghost use Rattle.plan_types.specs.declared.requests.Kind.TheVariants.{LiLim};
ghost use Rattle.instance_read.specs.Formats.{format_of};
ghost use Rattle.auditor_cli.specs.Messages.{PrintsAudit, example_instance, example_solution};

use crate::audit::audit_text;
use crate::messages::print_audit;
use plan_types::Kind;
use std::alloc::Global;
use std::io;
use std::io::Write;

/// The built-in instance: one pickup and its delivery, in Li and Lim's format.
const EXAMPLE_INSTANCE: &str =
    "2 10 1\n0 0 0 0 0 100 0 0 0\n1 3 4 4 0 50 2 0 2\n2 6 8 -4 0 60 2 1 0\n";
/// The built-in solution, which passes.
const EXAMPLE_SOLUTION: &str = "Route #1: 1 2\nCost 20\n";

/// Prints the audit of the built-in instance and solution.
pub fn audit_example<W: Write>(alloc: Global, output: &mut W) -> io::Result<u8>
    ensures status { IfOk result (λ status. status ≤ 4) }
    ensures reported { IfOk result (PrintsAudit (format_of LiLim) example_instance example_solution
        (W.contents output.old) (W.contents output.new)) }
{
    let instance = EXAMPLE_INSTANCE.as_bytes();
    let solution = EXAMPLE_SOLUTION.as_bytes();
    let answer = audit_text(alloc, Kind::LiLim, instance, solution);
    print_audit(output, &answer)
}
