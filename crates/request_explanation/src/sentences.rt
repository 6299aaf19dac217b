//! The lines of an answer: a limit that a request alone exceeds, the best trial with a vehicle, and where the
//! request is served.
ghost use Rattle.std.specs.Prelude.{◌≡◌, ◌++◌, Some};
ghost use Rattle.request_explanation.specs.Why.{alone_by, alone_text, fleet_text, excess_text, outcome_text, places_text, service_text, start_text, trial_text};
ghost use Rattle.route_sched.specs.Cost.{used_count};

use crate::limit_violations::{Limit, LimitViolation};
use crate::trials::Trial;
use crate::words::{Word, put_word, put_word_and_number};
use plan_explain::Row;
use plan_types::{Kind, Problem, Route};
use route_sched::used_count;
use text_buffer::TextBuffer;

/// Appends the limit exceeded by a vehicle that serves only the request.
pub(crate) fn put_alone(text: &mut TextBuffer, lead: &str, violation: &LimitViolation)
    ensures { text.new ≡ text.old ++ alone_text lead.now violation.now }
{
    text.push_str(lead);
    put_alone_by(text, violation.limit, violation);
    text.push_str("\n");
}

fn put_alone_by(text: &mut TextBuffer, limit: Limit, violation: &LimitViolation)
    ensures { text.new ≡ text.old ++ alone_by limit violation.now }
{
    match limit {
        Limit::Capacity => {
            put_word_and_number(text, Word::AloneStop, u64::from(violation.stop));
            put_word_and_number(text, Word::Needs, violation.actual);
            put_word_and_number(text, Word::VehicleTakes, violation.allowed)
        }
        Limit::Start => {
            put_word_and_number(text, Word::AloneStop, u64::from(violation.stop));
            put_word_and_number(text, Word::WouldStartAt, violation.actual);
            put_word_and_number(text, Word::Latest, violation.allowed)
        }
        Limit::Return => {
            put_word_and_number(text, Word::AloneBack, violation.actual);
            put_word_and_number(text, Word::Latest, violation.allowed)
        }
    }
}

/// Appends the outcome of the best trial with a vehicle, if there is one.
pub(crate) fn put_trial(text: &mut TextBuffer, lead: &str, vehicle: u64, best: &Option<Trial>)
    ensures { text.new ≡ text.old ++ trial_text lead.now vehicle best.now }
{
    match best {
        None => {}
        Some(trial) => put_outcome_line(text, lead, vehicle, trial),
    }
}

fn put_outcome_line(text: &mut TextBuffer, lead: &str, vehicle: u64, trial: &Trial)
    ensures { text.new ≡ text.old ++ trial_text lead.now vehicle (Some trial.now) }
{
    text.push_str(lead);
    put_word_and_number(text, Word::Vehicle, vehicle);
    put_outcome(text, &trial.violation, trial);
    text.push_str("\n");
}

fn put_outcome(text: &mut TextBuffer, violation: &Option<LimitViolation>, trial: &Trial)
    ensures { text.new ≡ text.old ++ outcome_text violation.now trial.now }
{
    match violation {
        None => put_places(text, trial.pickup, trial.delivery),
        Some(violation) => put_excess(text, violation.limit, violation),
    }
}

// Appends the places of the request. A single has one place.
fn put_places(text: &mut TextBuffer, pickup: u64, delivery: u64)
    ensures { text.new ≡ text.old ++ places_text pickup delivery }
{
    if pickup == delivery {
        put_word_and_number(text, Word::FitsAtPlace, pickup);
        return;
    }
    put_word_and_number(text, Word::FitsAtPlaces, pickup);
    put_word_and_number(text, Word::And, delivery)
}

fn put_excess(text: &mut TextBuffer, limit: Limit, violation: &LimitViolation)
    ensures { text.new ≡ text.old ++ excess_text limit violation.now }
{
    match limit {
        Limit::Capacity => {
            put_word_and_number(text, Word::AfterStop, u64::from(violation.stop));
            put_word_and_number(text, Word::WouldCarry, violation.excess());
            put_word(text, Word::TooMuch)
        }
        Limit::Start => {
            put_word_and_number(text, Word::Stop, u64::from(violation.stop));
            put_word_and_number(text, Word::WouldStart, violation.excess());
            put_word(text, Word::Late)
        }
        Limit::Return => {
            put_word_and_number(text, Word::Back, violation.excess());
            put_word(text, Word::Late)
        }
    }
}

/// Appends how many of the vehicles are used.
pub(crate) fn put_fleet(text: &mut TextBuffer, lead: &str, problem: &Problem, routes: &[Route])
    ensures { text.new ≡ text.old ++ fleet_text lead.now problem.now routes.now }
{
    text.push_str(lead);
    put_word_and_number(text, Word::Fleet, used_count(routes));
    put_word_and_number(text, Word::Of, u64::from(problem.fleet));
    put_word(text, Word::VehiclesUsed);
    text.push_str("\n");
}

/// Appends where a vehicle serves a stop, and when, if the problem has times.
pub(crate) fn put_service(text: &mut TextBuffer, kind: Kind, vehicle: u64, row: &Row)
    ensures { text.new ≡ text.old ++ service_text kind vehicle row.now }
{
    put_word_and_number(text, Word::Vehicle, vehicle);
    put_word_and_number(text, Word::Stop, u64::from(row.stop));
    put_word_and_number(text, Word::AtPlace, row.place);
    put_start(text, kind, row);
    text.push_str("\n");
}

fn put_start(text: &mut TextBuffer, kind: Kind, row: &Row)
    ensures { text.new ≡ text.old ++ start_text kind row.now }
{
    match kind {
        Kind::LiLim => put_word_and_number(text, Word::StartsAt, row.start),
        Kind::Vrp => {}
    }
}
