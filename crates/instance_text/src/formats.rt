//! The format of a problem's text, and the problems that it can express.
ghost use Rattle.std.specs.Prelude.{◌≡◌, slice_get, true};
ghost use Rattle.std.specs.List.{list_all};
ghost use Rattle.std.specs.Option.{option_map_or};
ghost use Rattle.plan_types.specs.Instance.{IsInstance};
ghost use Rattle.plan_types.specs.declared.requests.Kind.TheVariants.{LiLim};
ghost use Rattle.instance_text.specs.Formats.{are_customers, are_pairs, are_singles, has_format, layout_for, is_customer, is_open, is_pair, is_single, text_format};

use instance_read::{Format, Layout, Scale};
use plan_types::limits::MAX_TIME;
use plan_types::{Kind, Problem, Request, Stop};

/// Returns the format of a problem's text. Does not allocate.
///
/// A problem of kind `LiLim` is written in Solomon's format if it has requests and each has one stop, otherwise
/// in Li and Lim's format. One of kind `Vrp` is written as a `.vrp` file of CVRPLIB. The scale is 1, since the
/// text has the numbers of the problem.
pub fn text_format(problem: &Problem) -> Format
    ensures { result ≡ text_format problem.now }
{
    let layout = match problem.kind {
        Kind::LiLim => windows_layout(problem),
        Kind::Vrp => Layout::Vrp,
    };
    Format {
        layout,
        scale: Scale::One,
    }
}

// Returns the layout of the text of a problem with time windows.
fn windows_layout(problem: &Problem) -> Layout
    ensures { result ≡ layout_for LiLim problem.now }
{
    if are_singles(problem) {
        Layout::Solomon
    } else {
        Layout::LiLim
    }
}

/// Returns whether the format of a problem's text can express the problem. Does not allocate.
///
/// Li and Lim's format has only pairs, Solomon's only requests with one stop. CVRPLIB's format has one or more
/// customers, numbered from 1 without a gap, and no time windows or services.
pub fn has_format(problem: &Problem) -> bool
    ensures format { result ≡ has_format problem.now }
    ensures valid { IsInstance problem.now }
{
    match problem.kind {
        Kind::LiLim => are_singles(problem) || are_pairs(problem),
        Kind::Vrp => {
            problem.requests.len() > 0 && is_open(&problem.depot) && are_customers(problem)
        }
    }
}

fn are_pairs(problem: &Problem) -> bool
    ensures { result ≡ are_pairs problem.now.requests }
{
    for index in 0..problem.requests.len() {
        if !is_pair_at(problem, index) {
            return false;
        }
    }
    true
}

fn is_pair_at(problem: &Problem, index: usize) -> bool
    ensures { result
        ≡ option_map_or (λ e. is_pair e.1) (slice_get problem.now.requests index) true }
{
    match problem.requests.get_index(index) {
        Some((_, request)) => matches!(request, Request::Pair(_, _)),
        None => true,
    }
}

// Returns whether there are requests, and each has one stop.
fn are_singles(problem: &Problem) -> bool
    ensures { result ≡ are_singles problem.now.requests }
{
    problem.requests.len() > 0 && each_is_single(problem)
}

fn each_is_single(problem: &Problem) -> bool
    ensures { result ≡ list_all (λ e. is_single e.1) problem.now.requests }
{
    for index in 0..problem.requests.len() {
        if !is_single_at(problem, index) {
            return false;
        }
    }
    true
}

fn is_single_at(problem: &Problem, index: usize) -> bool
    ensures { result
        ≡ option_map_or (λ e. is_single e.1) (slice_get problem.now.requests index) true }
{
    match problem.requests.get_index(index) {
        Some((_, request)) => matches!(request, Request::Single(_)),
        None => true,
    }
}

// Returns whether the requests are customers with the numbers 1, 2, 3 and so on.
fn are_customers(problem: &Problem) -> bool
    ensures { result ≡ are_customers 1 problem.now.requests }
{
    let mut number = 1;
    for index in 0..problem.requests.len() {
        if !is_customer_at(problem, index, number) {
            return false;
        }
        number += 1;
    }
    true
}

fn is_customer_at(problem: &Problem, index: usize, number: u64) -> bool
    ensures { result ≡ option_map_or (λ e. is_customer number e.1)
        (slice_get problem.now.requests index) true }
{
    match problem.requests.get_index(index) {
        Some((_, request)) => is_customer(request, number),
        None => true,
    }
}

fn is_customer(request: &Request, number: u64) -> bool
    ensures { result ≡ is_customer number request.now }
{
    match request {
        Request::Single(stop) => u64::from(stop.number) == number && is_open(stop),
        Request::Pair(_, _) => false,
    }
}

fn is_open(stop: &Stop) -> bool
    ensures { result ≡ is_open stop.now }
{
    stop.earliest == 0 && stop.latest == MAX_TIME && stop.service == 0
}
