//! The eleven rules with their numbers and names, and the verdict of an audit.
ghost use Rattle.std.specs.Prelude.{◌≡◌, ◌+◌, ◌<◌, ◌^◌};
ghost use Rattle.plan_audit.specs.Rules.{item_at};
ghost use Rattle.plan_audit.specs.Verdict.{all_rules, is_stop_rule, rule_name, rule_number, rule_of};

use crate::faults::Fault;
use plan_types::Cost;

/// The rules, in the order in which they are checked.
#[derive(Clone, Copy, Debug, PartialEq, Eq)]
pub enum Rule {
    /// 1: a stop belongs to no request (`Scan::first_unknown`).
    UnknownStop = 1,
    /// 2: a stop is at an earlier place too (`Scan::first_repeated`).
    VisitedTwice,
    /// 3: the other stop of a pair is in no route (`Scan::first_missing`), or a request is in no route of a
    /// printed solution (`Scan::first_unserved`).
    MissingStop,
    /// 4: the other stop of a pair is in another route (`Scan::first_split`).
    SplitPair,
    /// 5: the pickup is later in the route than its delivery (`Scan::first_early_delivery`).
    EarlyDelivery,
    /// 6: the load exceeds the capacity (`timing::first_overload`).
    Load,
    /// 7: service starts after the stop's latest time (`timing::first_late`).
    Late,
    /// 8: the vehicle returns after the depot's latest time (`timing::first_late_return`).
    LateReturn,
    /// 9: a plan does not have one route for each vehicle (`audits::audit`), or a printed solution uses more
    /// vehicles than there are (`fleet::first_route_beyond`).
    Fleet,
    /// 10: a route does not begin with its pin (`pins::first_pin_mismatch`).
    Pin,
    /// 11: the printed cost is not the distance of the routes (`audits::audit_solution`).
    PrintedCost,
}

/// The result of an audit.
#[derive(Clone, Copy, Debug, PartialEq, Eq)]
pub enum Verdict {
    /// No rule is broken. Holds the cost of the routes.
    Pass(Cost),
    /// The first violation, by rule, route, place and stop. Routes and places count from 1. A route, place or
    /// stop that the rule does not refer to is 0.
    Broken {
        /// The rule's number, as it is printed. `Rule::from_number` returns the rule.
        rule: u32,
        route: u64,
        place: u64,
        stop: u32,
    },
}

/// The rules in order of their numbers, from 1.
static RULES: [Rule; 11] = [
    Rule::UnknownStop,
    Rule::VisitedTwice,
    Rule::MissingStop,
    Rule::SplitPair,
    Rule::EarlyDelivery,
    Rule::Load,
    Rule::Late,
    Rule::LateReturn,
    Rule::Fleet,
    Rule::Pin,
    Rule::PrintedCost,
];

impl Rule {
    /// Returns all rules in order of their numbers, from 1.
    pub fn all<'a>() -> &'a [Rule]
        ensures { result.now ≡ all_rules }
    {
        RULES.as_slice()
    }

    /// Returns the rule with a number from 1 to 11, or `None` for any other number.
    pub fn from_number(number: u32) -> Option<Rule>
        ensures { result ≡ rule_of number }
    {
        rule_at(Rule::all(), number)
    }

    /// Returns the number that is printed for the rule.
    pub fn number(self) -> u32
        ensures { result ≡ rule_number self }
    {
        self as u32
    }

    /// Returns whether the rule is one of the rules 1 to 5. They check only which stops are at which places,
    /// not loads, times or the plan as a whole.
    pub fn is_stop_rule(self) -> bool
        ensures { result ≡ is_stop_rule self }
    {
        self.number() < Rule::Load.number()
    }

    /// Returns a short description of the violation, as it is printed.
    #[tactic(auto, unfolding(crate::specs::Verdict::rule_name))]
    pub fn name(self) -> &'static str
        ensures { result.now ≡ rule_name self }
    {
        match self {
            Rule::UnknownStop => "unknown stop",
            Rule::VisitedTwice => "visited twice",
            Rule::MissingStop => "missing stop",
            Rule::SplitPair => "split pair",
            Rule::EarlyDelivery => "early delivery",
            Rule::Load => "overload",
            Rule::Late => "late service",
            Rule::LateReturn => "late return",
            Rule::Fleet => "too many vehicles",
            Rule::Pin => "not as pinned",
            Rule::PrintedCost => "wrong cost",
        }
    }

    /// Returns the verdict that this rule is broken at this place.
    pub(crate) fn broken_at(self, fault: Fault) -> Verdict
        requires route { fault.route + 1 < 2 ^ 64 }
        requires place { fault.place + 1 < 2 ^ 64 }
        ensures { result ≡ Verdict.Broken (rule_number self) (fault.route + 1)
            (fault.place + 1) fault.stop }
    {
        Verdict::Broken {
            rule: self.number(),
            route: fault.route as u64 + 1,
            place: fault.place as u64 + 1,
            stop: fault.stop,
        }
    }

    /// Returns the verdict that this rule is broken, with this route and without place and stop.
    pub(crate) fn broken_from(self, route: usize) -> Verdict
        requires { route + 1 < 2 ^ 64 }
        ensures { result ≡ Verdict.Broken (rule_number self) (route + 1) 0 0 }
    {
        Verdict::Broken {
            rule: self.number(),
            route: route as u64 + 1,
            place: 0,
            stop: 0,
        }
    }

    /// Returns the verdict that this rule is broken, with this stop and without route and place.
    pub(crate) fn broken_by(self, stop: u32) -> Verdict
        ensures { result ≡ Verdict.Broken (rule_number self) 0 0 stop }
    {
        Verdict::Broken {
            rule: self.number(),
            route: 0,
            place: 0,
            stop,
        }
    }
}

// Returns the rule at a place, counted from 1.
fn rule_at(rules: &[Rule], place: u32) -> Option<Rule>
    ensures { result ≡ item_at rules.now place }
{
    if place == 0 {
        return None;
    }
    rules.get(place as usize - 1).copied()
}
