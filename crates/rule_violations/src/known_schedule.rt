//! The rules under which the schedule of the routes is known.
ghost use Rattle.std.specs.Prelude.{◌≡◌};
ghost use Rattle.rule_violations.specs.KnownSchedule.{schedule_is_known};

use plan_audit::Rule;

/// Returns whether the schedule is known when this rule is the first broken one: then no stop is unknown or
/// repeated.
pub fn schedule_is_known(rule: Rule) -> bool
    ensures { result ≡ schedule_is_known rule }
{
    match rule {
        Rule::UnknownStop => false,
        Rule::VisitedTwice => false,
        _ => true,
    }
}
