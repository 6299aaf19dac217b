//! The number of places that break a rule, a list of them, and how often each later rule is broken.
ghost use Rattle.std.specs.Prelude.{◌≡◌, ◌++◌, false, All, IfOk, IsTrue, OnOk, drop};
ghost use Rattle.std.specs.List.{flat_map};
ghost use Rattle.route_sched.specs.Route.{AreDistinctStops};
ghost use Rattle.plan_audit.specs.Verdict.{is_stop_rule};
ghost use Rattle.rule_violations.specs.KnownSchedule.{schedule_is_known};
ghost use Rattle.plan_explain.specs.OtherViolations.{count_of, count_text, other_violations_text, is_counted, missing_stop_text, missing_text, later_rule_text, place_text, places_text};

use crate::quotes::first_of;
use crate::templates::Value::{Number, Short};
use crate::templates::put_template;
use plan_audit::Rule;
use plan_types::{OutOfMemory, Problem, Route};
use route_sched::used_count;
use rule_violations::{Violation, missing_stops, schedule_is_known, violations_of};
use std::alloc::Global;
use text_buffer::TextBuffer;

/// The greatest number of other places, or of missing stops, that are listed.
const MAX_LISTED: usize = 20;

/// Appends how many places break the rule, and lists those after the first. For `MissingStop` it lists the stops
/// in no route. For `Fleet`, `Pin` and `PrintedCost` it appends nothing.
pub(crate) fn put_other_violations(
    alloc: Global,
    text: &mut TextBuffer,
    problem: &Problem,
    routes: &[Route],
    rule: Rule,
) -> Result<(), OutOfMemory>
    requires { IsTrue (schedule_is_known rule) → All (AreDistinctStops problem.now) routes.now }
    ensures { OnOk result (text.new ≡ text.old ++ other_violations_text problem.now routes.now rule) }
{
    match rule {
        Rule::MissingStop => {
            let stops = missing_stops(alloc, problem, routes)?;
            put_missing(text, "stops in no route: @\n", stops.as_slice());
        }
        Rule::Fleet | Rule::Pin | Rule::PrintedCost => {}
        _ => {
            let found = violations_of(alloc, problem, routes, rule)?;
            put_places(text, "places that break this rule: @\n", found.as_slice());
        }
    }
    Ok(())
}

#[tactic(auto, unfolding(crate::specs::OtherViolations::missing_text))]
fn put_missing(text: &mut TextBuffer, words: &str, stops: &[u32])
    ensures { text.new ≡ text.old ++ missing_text words.now stops.now }
{
    let count = Number(stops.len() as u64);
    put_template(text, words, &[count]);
    put_missing_stops(text, first_of(stops, MAX_LISTED));
}

fn put_missing_stops(text: &mut TextBuffer, stops: &[u32])
    ensures { text.new ≡ text.old ++ flat_map missing_stop_text stops.now }
{
    for stop in stops {
        put_template(text, "  stop @\n", &[Short(*stop)]);
    }
}

#[tactic(auto, unfolding(crate::specs::OtherViolations::places_text))]
fn put_places(text: &mut TextBuffer, words: &str, found: &[Violation])
    ensures { text.new ≡ text.old ++ places_text words.now found.now }
{
    let count = Number(found.len() as u64);
    put_template(text, words, &[count]);
    put_other_places(text, first_of(after_first(found), MAX_LISTED));
}

#[tactic(auto, using(std::proofs::lemmas::List::drop_min))]
fn after_first(found: &[Violation]) -> &[Violation]
    ensures { result.now ≡ drop 1 found.now }
{
    &found[1.min(found.len())..]
}

fn put_other_places(text: &mut TextBuffer, found: &[Violation])
    ensures { text.new ≡ text.old ++ flat_map place_text found.now }
{
    for breach in found {
        let (route, place) = (Number(breach.route), Number(breach.place));
        let seat = [route, place, Short(breach.stop)];
        put_template(text, "  route @ place @ stop @\n", &seat);
    }
}

/// The rules that are counted if they come after the reported rule: all except unknown stops, pins and the
/// printed cost.
pub(crate) static RULES: [Rule; 8] = [
    Rule::VisitedTwice,
    Rule::MissingStop,
    Rule::SplitPair,
    Rule::EarlyDelivery,
    Rule::Load,
    Rule::Late,
    Rule::LateReturn,
    Rule::Fleet,
];

/// Appends how many places break each of these rules, for those that come after the rule `reported`.
pub(crate) fn put_later_rules(
    alloc: Global,
    text: &mut TextBuffer,
    problem: &Problem,
    routes: &[Route],
    reported: Rule,
    rules: &[Rule],
) -> Result<(), OutOfMemory>
    requires { IsTrue (schedule_is_known reported) → All (AreDistinctStops problem.now) routes.now }
    ensures { OnOk result (text.new ≡ text.old
        ++ flat_map (later_rule_text problem.now routes.now reported) rules.now) }
{
    for rule in rules {
        put_later_rule(alloc, text, problem, routes, reported, *rule)?;
    }
    Ok(())
}

fn put_later_rule(
    alloc: Global,
    text: &mut TextBuffer,
    problem: &Problem,
    routes: &[Route],
    reported: Rule,
    rule: Rule,
) -> Result<(), OutOfMemory>
    requires { IsTrue (schedule_is_known reported) → All (AreDistinctStops problem.now) routes.now }
    ensures { OnOk result (text.new ≡ text.old
        ++ later_rule_text problem.now routes.now reported rule) }
{
    if is_counted(reported, rule) {
        put_count(text, rule, count_of(alloc, problem, routes, rule)?);
    }
    Ok(())
}

fn is_counted(reported: Rule, rule: Rule) -> bool
    ensures { result ≡ is_counted reported rule }
{
    reported.number() < rule.number() && (rule.is_stop_rule() || schedule_is_known(reported))
}

fn put_count(text: &mut TextBuffer, rule: Rule, count: u64)
    ensures { text.new ≡ text.old ++ count_text rule count }
{
    if count != 0 {
        let values = [Number(u64::from(rule.number())), Number(count)];
        put_template(text, "places that break rule @: @\n", &values);
    }
}

// Returns how many places break the rule. For `MissingStop` it is the number of stops in no route, for `Fleet`
// the number of used routes beyond the number of vehicles.
fn count_of(
    alloc: Global,
    problem: &Problem,
    routes: &[Route],
    rule: Rule,
) -> Result<u64, OutOfMemory>
    requires { is_stop_rule rule ≡ false → All (AreDistinctStops problem.now) routes.now }
    ensures { IfOk result (λ count. count ≡ count_of problem.now routes.now rule) }
{
    match rule {
        Rule::MissingStop => Ok(missing_stops(alloc, problem, routes)?.len() as u64),
        Rule::Fleet => Ok(used_count(routes).saturating_sub(u64::from(problem.fleet))),
        _ => Ok(violations_of(alloc, problem, routes, rule)?.len() as u64),
    }
}
