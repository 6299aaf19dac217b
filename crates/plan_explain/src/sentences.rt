//! The sentence on a broken rule.
ghost use Rattle.std.specs.Prelude.{◌≡◌, ◌++◌, All};
ghost use Rattle.std.specs.List.{list_any};
ghost use Rattle.route_sched.specs.Route.{AreDistinctStops};
ghost use Rattle.plan_explain.specs.Sentences.{second_stop_text, cost_sentence, delivery_first_sentence, fleet_sentence, is_unknown_shifted, any_unknown_shifted, late_sentence, late_text, load_sentence, load_text, pair_sentence, return_sentence, shift_text, stop_sentence, unknown_sentence, unknown_text};

use crate::rows::Row;
use crate::templates::Value::{At, Demand, Long, Number, Short, Signed};
use crate::templates::put_template;
use plan_types::{Problem, Route};
use route_sched::{total_distance, used_count};
use rule_violations::{first_position, visit_after};
use text_buffer::TextBuffer;

/// Appends that a stop belongs to no request, with a hint if all stop numbers seem to be one too high or too
/// low.
pub(crate) fn put_unknown(text: &mut TextBuffer, problem: &Problem, routes: &[Route], stop: u32)
    ensures { text.new ≡ text.old ++ unknown_sentence problem.now routes.now stop }
{
    put_unknown_stop(text, problem, stop);
    put_shift(text, problem, routes);
}

fn put_unknown_stop(text: &mut TextBuffer, problem: &Problem, stop: u32)
    ensures { text.new ≡ text.old ++ unknown_text problem.now stop }
{
    if stop == 0 {
        text.push_str("unknown stop: stop 0 is the depot, which no route line has");
        return;
    }
    let words = "unknown stop: no request has stop @, the numbers of the instance are below @";
    put_template(text, words, &[Short(stop), Short(problem.next_number)]);
}

/// A systematic error in a solution: all stop numbers are one too high or too low.
#[derive(Clone, Copy)]
pub(crate) enum Shift {
    TooHigh,
    TooLow,
}

// Appends a hint if all stop numbers seem to be one too high, or else one too low.
fn put_shift(text: &mut TextBuffer, problem: &Problem, routes: &[Route])
    ensures { text.new ≡ text.old ++ shift_text problem.now routes.now }
{
    if !any_unknown_shifted(problem, Shift::TooHigh, routes) {
        text.push_str(". Each stop less 1 is one of the instance: are the numbers one too high?");
    } else if !any_unknown_shifted(problem, Shift::TooLow, routes) {
        text.push_str(
            ". Each stop and 1 more is one of the instance: are the numbers one too low?",
        );
    }
}

// Returns whether some stop of the routes is still unknown after its number is corrected by one.
fn any_unknown_shifted(problem: &Problem, shift: Shift, routes: &[Route]) -> bool
    ensures { result ≡ any_unknown_shifted problem.now shift routes.now }
{
    routes.iter().any(|route| any_unknown_in_route(problem, shift, route.as_slice()))
}

fn any_unknown_in_route(problem: &Problem, shift: Shift, route: &[u32]) -> bool
    ensures { result ≡ list_any (is_unknown_shifted problem.now shift) route.now }
{
    route
        .iter()
        .any(|stop| is_unknown_shifted(problem, shift, *stop))
}

fn is_unknown_shifted(problem: &Problem, shift: Shift, stop: u32) -> bool
    ensures { result ≡ is_unknown_shifted problem.now shift stop }
{
    match shift {
        Shift::TooHigh => is_unknown_one_lower(problem, stop),
        Shift::TooLow => stop >= problem.next_number || problem.stop(stop + 1).is_none(),
    }
}

fn is_unknown_one_lower(problem: &Problem, stop: u32) -> bool
    ensures { result ≡ is_unknown_shifted problem.now Shift.TooHigh stop }
{
    problem.stop(stop.saturating_sub(1)).is_none()
}

/// Appends a template with the number of a stop and its first position.
pub(crate) fn put_stop(text: &mut TextBuffer, words: &str, routes: &[Route], stop: u32)
    ensures { text.new ≡ text.old ++ stop_sentence words.now routes.now stop }
{
    put_template(
        text,
        words,
        &[Short(stop), At(first_position(routes, stop))],
    );
}

/// Appends a template with a stop and its first position, and then the first position of the other stop of its
/// pair.
pub(crate) fn put_pair(
    text: &mut TextBuffer,
    words: &str,
    problem: &Problem,
    routes: &[Route],
    stop: u32,
)
    ensures { text.new ≡ text.old ++ pair_sentence words.now problem.now routes.now stop }
{
    put_stop(text, words, routes, stop);
    let words = "; the other stop of its pair, stop @, is @";
    put_second_stop(text, words, routes, problem.partner_of(stop));
}

/// Appends a template with a delivery and its first position, and then the first position of its pickup.
pub(crate) fn put_delivery_first(
    text: &mut TextBuffer,
    words: &str,
    problem: &Problem,
    routes: &[Route],
    stop: u32,
)
    ensures { text.new ≡ text.old ++ delivery_first_sentence words.now problem.now routes.now stop }
{
    put_stop(text, words, routes, stop);
    let words = "; its pickup, stop @, is @";
    put_second_stop(text, words, routes, problem.pickup_of(stop));
}

// Appends a template with this stop and its first position, if there is a stop.
fn put_second_stop(text: &mut TextBuffer, words: &str, routes: &[Route], stop: Option<u32>)
    ensures { text.new ≡ text.old ++ second_stop_text words.now routes.now stop }
{
    if let Some(stop) = stop {
        put_stop(text, words, routes, stop);
    }
}

/// Appends the load after the place of this row, and the capacity. Without a row it appends nothing.
pub(crate) fn put_overload(text: &mut TextBuffer, problem: &Problem, row: Option<Row>)
    ensures { text.new ≡ text.old ++ load_sentence problem.now row }
{
    if let Some(row) = row {
        let words = "overload: after stop @@, the load is @, the capacity @";
        put_load(text, words, problem, &row);
    }
}

#[tactic(auto, unfolding(crate::specs::Sentences::load_text))]
fn put_load(text: &mut TextBuffer, words: &str, problem: &Problem, row: &Row)
    ensures { text.new ≡ text.old ++ load_text words.now problem.now row.now }
{
    let (stop, demand) = (Short(row.stop), Demand(problem.stop(row.stop)));
    let values = [stop, demand, Signed(row.load), Short(problem.capacity)];
    put_template(text, words, &values);
}

/// Appends the start of service at the place of this row, and the latest start allowed there. Without a row it
/// appends nothing.
pub(crate) fn put_late(text: &mut TextBuffer, row: Option<Row>)
    ensures { text.new ≡ text.old ++ late_sentence row }
{
    if let Some(row) = row {
        let words = "late service: stop @ starts at @, latest @: late by @";
        put_lateness(text, words, row.stop, row.start, row.latest);
    }
}

/// Appends the last stop, the time when the vehicle is back, and the latest time of the depot.
#[tactic(auto, unfolding(crate::specs::Sentences::return_sentence))]
pub(crate) fn put_late_return(text: &mut TextBuffer, problem: &Problem, route: &[u32])
    requires { AreDistinctStops problem.now route.now }
    ensures { text.new ≡ text.old ++ return_sentence problem.now route.now }
{
    let back = visit_after(problem, route, route.len()).start;
    let latest = problem.depot.latest;
    let words = "late return: after stop @ the vehicle is back at @, latest @: late by @";
    // An empty route has no last stop, and breaks no rule on the return.
    let last = route.last().copied().unwrap_or(0);
    put_lateness(text, words, last, back, latest);
}

// Appends a template with a stop, a time, the latest time allowed, and the difference.
fn put_lateness(text: &mut TextBuffer, words: &str, stop: u32, start: u64, latest: u32)
    ensures { text.new ≡ text.old ++ late_text words.now stop start latest }
{
    let late = Number(start.saturating_sub(u64::from(latest)));
    let values = [Short(stop), Number(start), Short(latest), late];
    put_template(text, words, &values);
}

/// Appends how many vehicles are used, and how many there are.
pub(crate) fn put_fleet(text: &mut TextBuffer, problem: &Problem, routes: &[Route])
    ensures { text.new ≡ text.old ++ fleet_sentence problem.now routes.now }
{
    let words = "too many vehicles: @ are used, the fleet has @";
    let values = [Number(used_count(routes)), Short(problem.fleet)];
    put_template(text, words, &values);
}

/// Appends the printed cost, and the distance of the routes.
pub(crate) fn put_cost(text: &mut TextBuffer, problem: &Problem, routes: &[Route], printed: u64)
    requires { All (AreDistinctStops problem.now) routes.now }
    ensures { text.new ≡ text.old ++ cost_sentence problem.now routes.now printed }
{
    let distance = total_distance(problem, routes);
    let words = "wrong cost: @ is printed, the distance driven is @";
    put_template(text, words, &[Number(printed), Long(distance)]);
}
