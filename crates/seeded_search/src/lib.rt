//! A local search, and the random words that it uses. A step depends only on the plans, a seed and the step's
//! number.
//!
//! `search_step` makes one step, `search_steps` several. The command `search` (`command_core`) uses
//! `continue_search`; a recovery runs the same steps again. `words` returns the random words of a step, and
//! `pick` picks one of m things by a word.
//!
//! Modules, in reading order:
//! - this file: `pick`.
//! - `stream`: the words of the steps, from ChaCha20's key stream.
//! - `draws`: what a step's words draw from lists.
//! - `lists`: the lists that a step draws from.
//! - `candidate_threshold`: the test that decides whether a candidate may become the working plan.
//! - `spatial_index`: the stops nearest to each stop, for annealing (`anneal_search`).
//! - `placing`: requests inserted one after another, until the plan is known to be too costly.
//! - `operators`: the candidate that a step's words make.
//! - `search_context`: the problem, the pins and the numbers that all steps share.
//! - `search_state`: the state of a search between steps, and how it accepts a candidate.
//! - `incumbent`: the incumbent's routes, of which only changed ones are copied.
//! - `search`: one step, and many steps.
//! - `laws`: laws about words, picks and steps, without code.
//!
//! A step's words make a candidate from the working plan, by one of four operators over the moves of
//! `move_ops`. A candidate that costs no more than the incumbent becomes the incumbent and the working plan. A
//! candidate with as many unplanned requests and as many vehicles as the incumbent, and with a distance that is
//! greater by at most the deviation, becomes only the working plan. Otherwise nothing changes.
//!
//! The cost of an exchange or 2-opt* is often known from the few legs that change. If it is too high, the move
//! is neither checked nor made. While requests are inserted, the candidate is dropped as soon as it can't be
//! accepted any more (`placing`).
//!
//! Annealing builds its own steps from `SearchState`, `RequestLists`, `StepWords`, `place_all`,
//! `place_all_if_near` and `is_near`.
//!
//! Source: ChaCha20 by RFC 8439; record-to-record travel (Dueck 1993); ruin and recreate, relocation, exchange
//! of requests and 2-opt* as in the literature on vehicle routing.
//!
//! Proved: `search_step`, `search_steps` and `continue_search` return exactly the plans of the definitions
//! `step` and `steps`, or `OutOfMemory`; so a search may be cut into parts and repeated. A step's words are the
//! block of ChaCha20's key stream with its number, and each of m things is picked by `floor(2^32 / m)` words or
//! by one more. A search leads from plans that pass to plans that pass, and the incumbent never costs more.
#![tactic(auto)]

ghost use Rattle.std.specs.Prelude.{◌≡◌, ◌<◌, ◌≤◌};
ghost use Rattle.seeded_search.specs.Words.{pick};

mod candidate_threshold;
mod draws;
mod incumbent;
mod laws;
mod lists;
mod operators;
mod placing;
mod search;
mod search_context;
mod search_state;
mod spatial_index;
mod stream;

pub use candidate_threshold::{Threshold, is_near};
pub use laws::{
    incumbents_never_cost_more, picks_are_even, relocated_never_cost_more, steps_add_up,
    steps_are_blocks, steps_keep_passing, working_stays_near,
};
pub use lists::RequestLists;
pub use placing::{place_all, place_all_if_near};
pub use search::{Found, continue_search, search_step, search_steps};
pub use search_context::SearchContext;
pub use search_state::SearchState;
pub use spatial_index::{Easting, RoutePlace, SpatialIndex, east_of};
pub use stream::{StepWords, words};

/// Returns one of `m` things, numbered from 0, as the word `w` picks it: the integer part of `w * m / 2^32`.
/// There is at least one thing.
pub fn pick(w: u32, m: u32) -> u32
    requires { 1 ≤ m }
    ensures value { result ≡ pick w m }
    ensures bound { result < m }
{
    ((u64::from(w) * u64::from(m)) >> 32) as u32
}
