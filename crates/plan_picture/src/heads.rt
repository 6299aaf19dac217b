//! The text above the map: the cost, or the broken rule in words with its values, and the number of unserved
//! stops.
ghost use Rattle.std.specs.Prelude.{◌≡◌, ◌++◌, [], All};
ghost use Rattle.std.specs.Option.{option_map_or};
ghost use Rattle.route_sched.specs.Cost.{used_count};
ghost use Rattle.route_sched.specs.Route.{AreDistinctStops};
ghost use Rattle.plan_audit.specs.Rules.{item_at};
ghost use Rattle.plan_picture.specs.Heads.{bar_key, bar_words, broken_place, broken_text, cost_text, fleet_values, head_text, key_text, load_values, mark_words, one_route, pair_key, pair_words, partial_text, partner_value, rule_values, rule_text, scope_text, shapes_text, sheet_text, size_text, start_values, stop_key, stop_words, title_head, title_start, title_text, unserved_text, vehicles_text, verdict_text, reported_visit};
ghost use Rattle.plan_picture.specs.DrawnStops.{visits_of};

use crate::styles::Style;
use crate::svg::Svg;
use crate::tags::Tag;
use crate::words::Word;
use plan_audit::{Rule, Verdict};
use plan_types::{Cost, Kind, Problem, Route};
use route_sched::{Visit, Visits, total_distance, used_count};

/// A broken rule and its place; routes and places count from 1, and 0 means none.
#[derive(Clone, Copy)]
pub(crate) struct BrokenRule {
    pub rule: Rule,
    pub route: u64,
    pub place: u64,
    pub stop: u32,
}

impl Svg {
    /// Appends the size of the picture, its shapes, and the key to them.
    #[tactic(auto, unfolding(crate::specs::Heads::head_text))]
    pub(crate) fn put_head(&mut self, kind: Kind, height: u128)
        ensures { self.new ≡ self.old ++ head_text kind height }
    {
        self.put_size(height);
        self.put_sheet();
        self.put_shapes();
        self.put_key(kind);
    }

    #[tactic(auto, unfolding(crate::specs::Heads::size_text))]
    fn put_size(&mut self, height: u128)
        ensures { self.new ≡ self.old ++ size_text height }
    {
        self.put(Tag::Head);
        self.put_style(Style::Letters);
        self.put_attribute(Tag::Size, height);
    }

    #[tactic(auto, unfolding(crate::specs::Heads::sheet_text))]
    fn put_sheet(&mut self)
        ensures { self.new ≡ self.old ++ sheet_text }
    {
        self.put_style(Style::PairStyle);
        self.put_style(Style::LineStyle);
        self.put_style(Style::TextStyle);
        self.put_style(Style::BarStyle);
    }

    #[tactic(auto, unfolding(crate::specs::Heads::shapes_text))]
    fn put_shapes(&mut self)
        ensures { self.new ≡ self.old ++ shapes_text }
    {
        self.put_style(Style::ArrowShape);
        self.put_style(Style::DepotShape);
        self.put_style(Style::PairShapes);
        self.put_style(Style::RingShapes);
        self.put_style(Style::Paper);
    }

    // Appends the key to the marks and the bars.
    fn put_key(&mut self, kind: Kind)
        ensures { self.new ≡ self.old ++ key_text kind }
    {
        match kind {
            Kind::LiLim => self.put_pair_key(),
            Kind::Vrp => self.put_stop_key(),
        }
    }

    #[tactic(auto, unfolding(crate::specs::Heads::pair_key))]
    fn put_pair_key(&mut self)
        ensures { self.new ≡ self.old ++ pair_key }
    {
        self.put(Tag::PairKey);
        self.put_pair_words();
        self.put_bar_key();
    }

    #[tactic(auto, unfolding(crate::specs::Heads::pair_words))]
    fn put_pair_words(&mut self)
        ensures { self.new ≡ self.old ++ pair_words }
    {
        self.put_mark_words();
        self.put_tagged(Tag::PairLines, Word::PairLines);
        self.put(Tag::TextEnd);
    }

    #[tactic(auto, unfolding(crate::specs::Heads::mark_words))]
    fn put_mark_words(&mut self)
        ensures { self.new ≡ self.old ++ mark_words }
    {
        self.put_tagged(Tag::PairDepot, Word::Depot);
        self.put_tagged(Tag::PairPickup, Word::Pickup);
        self.put_tagged(Tag::PairDelivery, Word::Delivery);
        self.put_tagged(Tag::PairStop, Word::Stop);
    }

    #[tactic(auto, unfolding(crate::specs::Heads::bar_key))]
    fn put_bar_key(&mut self)
        ensures { self.new ≡ self.old ++ bar_key }
    {
        self.put_bar_words();
        self.put_tagged(Tag::BarLate, Word::Late);
        self.put(Tag::BarEnd);
    }

    #[tactic(auto, unfolding(crate::specs::Heads::bar_words))]
    fn put_bar_words(&mut self)
        ensures { self.new ≡ self.old ++ bar_words }
    {
        self.put_tagged(Tag::BarDriving, Word::Driving);
        self.put_tagged(Tag::BarWaiting, Word::Waiting);
        self.put_tagged(Tag::BarService, Word::Service);
        self.put_tagged(Tag::BarWindow, Word::Window);
    }

    #[tactic(auto, unfolding(crate::specs::Heads::stop_key))]
    fn put_stop_key(&mut self)
        ensures { self.new ≡ self.old ++ stop_key }
    {
        self.put(Tag::StopKey);
        self.put_stop_words();
    }

    #[tactic(auto, unfolding(crate::specs::Heads::stop_words))]
    fn put_stop_words(&mut self)
        ensures { self.new ≡ self.old ++ stop_words }
    {
        self.put_tagged(Tag::StopDepot, Word::Depot);
        self.put_tagged(Tag::StopStop, Word::Stop);
        self.put_tagged(Tag::StopLines, Word::StopLines);
        self.put(Tag::TextEnd);
    }

    /// Appends the verdict, after the number of the drawn route. `number` is 0 if all routes are drawn.
    #[tactic(auto, unfolding(crate::specs::Heads::title_text))]
    pub(crate) fn put_title(
        &mut self,
        problem: &Problem,
        routes: &[Route],
        verdict: Verdict,
        number: u64,
    )
        requires { All (AreDistinctStops problem.now) routes.now }
        ensures { self.new ≡ self.old ++ title_text problem.now routes.now verdict number }
    {
        self.put_title_start(verdict);
        self.put_scope(number, routes.len());
        self.put_verdict(problem, routes, verdict);
        self.put(Tag::TextEnd);
    }

    #[tactic(auto, unfolding(crate::specs::Heads::title_start))]
    fn put_title_start(&mut self, verdict: Verdict)
        ensures { self.new ≡ self.old ++ title_start verdict }
    {
        self.put(title_head(verdict));
        self.put_style(Style::TitleLetters);
    }

    fn put_scope(&mut self, number: u64, all: usize)
        ensures { self.new ≡ self.old ++ scope_text number all }
    {
        if number == 0 {
            return;
        }
        self.put_one_route(number, all);
    }

    #[tactic(auto, unfolding(crate::specs::Heads::one_route))]
    fn put_one_route(&mut self, number: u64, all: usize)
        ensures { self.new ≡ self.old ++ one_route number all }
    {
        self.put_word_and_number(Word::OneRoute, number as u128);
        self.put_word_and_number(Word::OfRoutes, all as u128);
        self.put_word(Word::OfPlan);
    }

    fn put_verdict(&mut self, problem: &Problem, routes: &[Route], verdict: Verdict)
        requires { All (AreDistinctStops problem.now) routes.now }
        ensures { self.new ≡ self.old ++ verdict_text problem.now routes.now verdict }
    {
        match verdict {
            Verdict::Pass(cost) => self.put_cost(problem.kind, cost),
            Verdict::Broken {
                rule,
                route,
                place,
                stop,
            } => {
                let Some(rule) = Rule::from_number(rule) else {
                    return;
                };
                let breach = BrokenRule {
                    rule,
                    route,
                    place,
                    stop,
                };
                self.put_broken_rule(problem, routes, breach)
            }
        }
    }

    #[tactic(auto, unfolding(crate::specs::Heads::cost_text))]
    fn put_cost(&mut self, kind: Kind, cost: Cost)
        ensures { self.new ≡ self.old ++ cost_text kind cost }
    {
        self.put_partial(cost.unplanned);
        self.put_word_and_number(Word::Unplanned, cost.unplanned as u128);
        self.put_vehicles(kind, cost.vehicles);
        self.put_word_and_number(Word::Distance, cost.distance as u128);
    }

    // Appends that the plan is partial, if it leaves requests out.
    fn put_partial(&mut self, unplanned: u64)
        ensures { self.new ≡ self.old ++ partial_text unplanned }
    {
        if unplanned == 0 {
            return;
        }
        self.put_word(Word::Partial);
    }

    fn put_vehicles(&mut self, kind: Kind, vehicles: u64)
        ensures { self.new ≡ self.old ++ vehicles_text kind vehicles }
    {
        match kind {
            Kind::LiLim => self.put_word_and_number(Word::Vehicles, vehicles as u128),
            Kind::Vrp => {}
        }
    }

    #[tactic(auto, unfolding(crate::specs::Heads::broken_text))]
    fn put_broken_rule(&mut self, problem: &Problem, routes: &[Route], breach: BrokenRule)
        requires { All (AreDistinctStops problem.now) routes.now }
        ensures { self.new ≡ self.old ++ broken_text problem.now routes.now breach }
    {
        self.put_rule(breach.rule);
        self.put_broken_place(breach);
        self.put_rule_values(problem, routes, breach);
    }

    #[tactic(auto, unfolding(crate::specs::Heads::rule_text))]
    fn put_rule(&mut self, rule: Rule)
        ensures { self.new ≡ self.old ++ rule_text rule }
    {
        self.put_word_and_number(Word::BrokenRule, rule.number() as u128);
        self.put_word(Word::BeforeName);
        self.put_rule_name(rule);
    }

    #[tactic(auto, unfolding(crate::specs::Heads::broken_place))]
    fn put_broken_place(&mut self, breach: BrokenRule)
        ensures { self.new ≡ self.old ++ broken_place breach }
    {
        self.put_word_and_nonzero(Word::BrokenRoute, breach.route as u128);
        self.put_word_and_nonzero(Word::BrokenPlace, breach.place as u128);
        self.put_word_and_nonzero(Word::BrokenStop, breach.stop as u128);
    }

    fn put_rule_values(&mut self, problem: &Problem, routes: &[Route], breach: BrokenRule)
        requires { All (AreDistinctStops problem.now) routes.now }
        ensures { self.new ≡ self.old ++ rule_values breach.rule problem.now routes.now breach }
    {
        match breach.rule {
            Rule::MissingStop | Rule::SplitPair | Rule::EarlyDelivery => {
                self.put_partner(problem, breach.stop)
            }
            Rule::Load => {
                let visit = reported_visit(problem, routes, breach.route, breach.place);
                self.put_reported_load(problem, visit)
            }
            Rule::Late => {
                let visit = reported_visit(problem, routes, breach.route, breach.place);
                self.put_reported_start(Word::Start, visit)
            }
            Rule::LateReturn => {
                let visit = reported_visit(problem, routes, breach.route, breach.place);
                self.put_reported_start(Word::Back, visit)
            }
            Rule::Fleet => self.put_fleet(problem, routes),
            Rule::PrintedCost => self.put_word_and_number(
                Word::Driven,
                total_distance(problem, routes),
            ),
            Rule::UnknownStop | Rule::VisitedTwice | Rule::Pin => {}
        }
    }

    // Appends the other stop of a pair.
    fn put_partner(&mut self, problem: &Problem, stop: u32)
        ensures { self.new ≡ self.old ++ partner_value problem.now stop }
    {
        match problem.partner_of(stop) {
            Some(partner) => self.put_word_and_number(Word::Partner, partner as u128),
            None => {}
        }
    }

    fn put_reported_load(&mut self, problem: &Problem, visit: Option<Visit>)
        ensures { self.new ≡ self.old ++ option_map_or (load_values problem.now) visit [] }
    {
        match visit {
            Some(visit) => self.put_load_values(problem, &visit),
            None => {}
        }
    }

    fn put_reported_start(&mut self, word: Word, visit: Option<Visit>)
        ensures { self.new ≡ self.old ++ option_map_or (start_values word) visit [] }
    {
        match visit {
            Some(visit) => self.put_start_values(word, &visit),
            None => {}
        }
    }

    #[tactic(auto, unfolding(crate::specs::Heads::load_values))]
    fn put_load_values(&mut self, problem: &Problem, visit: &Visit)
        ensures { self.new ≡ self.old ++ load_values problem.now visit.now }
    {
        self.put_word(Word::Load);
        self.put_number(visit.load);
        self.put_word_and_number(Word::Capacity, problem.capacity as u128);
    }

    #[tactic(auto, unfolding(crate::specs::Heads::start_values))]
    fn put_start_values(&mut self, word: Word, visit: &Visit)
        ensures { self.new ≡ self.old ++ start_values word visit.now }
    {
        self.put_word_and_number(word, visit.start as u128);
        self.put_word_and_number(Word::Latest, visit.stop.latest as u128);
    }

    #[tactic(auto, unfolding(crate::specs::Heads::fleet_values))]
    fn put_fleet(&mut self, problem: &Problem, routes: &[Route])
        ensures { self.new ≡ self.old ++ fleet_values problem.now routes.now }
    {
        self.put_word_and_number(Word::Used, used_count(routes) as u128);
        self.put_word_and_number(Word::Fleet, problem.fleet as u128);
    }

    /// Appends how many stops are in no route, if any.
    #[tactic(auto, unfolding(crate::specs::Heads::unserved_text))]
    pub(crate) fn put_unserved_count(&mut self, count: usize)
        ensures { self.new ≡ self.old ++ unserved_text count }
    {
        if count == 0 {
            return;
        }
        self.put(Tag::UnservedCount);
        self.put_word_and_number(Word::Unserved, count as u128);
        self.put(Tag::TextEnd);
    }
}

fn title_head(verdict: Verdict) -> Tag
    ensures { result ≡ title_head verdict }
{
    match verdict {
        Verdict::Pass(_) => Tag::Title,
        Verdict::Broken { .. } => Tag::BrokenTitle,
    }
}

// Returns the visit at a place of a route; routes and places count from 1.
fn reported_visit(problem: &Problem, routes: &[Route], route: u64, place: u64) -> Option<Visit>
    requires { All (AreDistinctStops problem.now) routes.now }
    ensures { result ≡ reported_visit problem.now routes.now route place }
{
    if route == 0 {
        return None;
    }
    let Some(stops) = routes.get(route as usize - 1) else {
        return None;
    };
    visit_at(problem, stops.as_slice(), place)
}

fn visit_at(problem: &Problem, route: &[u32], place: u64) -> Option<Visit>
    requires { AreDistinctStops problem.now route.now }
    ensures { result ≡ item_at (visits_of problem.now route.now) place }
{
    if place == 0 {
        return None;
    }
    Visits::new(problem, route).nth(place as usize - 1)
}
