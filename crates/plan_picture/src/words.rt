//! The words of a picture, for people.
ghost use Rattle.std.specs.Prelude.{◌≡◌};
ghost use Rattle.plan_picture.specs.Words.{word};

/// Words for people. A number may follow.
#[derive(Clone, Copy)]
pub(crate) enum Word {
    OneRoute,
    OfRoutes,
    OfPlan,
    Partial,
    Unplanned,
    Vehicles,
    Distance,
    BrokenRule,
    BeforeName,
    BrokenRoute,
    BrokenPlace,
    BrokenStop,
    Partner,
    Load,
    Capacity,
    Start,
    Back,
    Latest,
    Used,
    Fleet,
    Driven,
    Unserved,
    Depot,
    Pickup,
    Delivery,
    Stop,
    PairLines,
    StopLines,
    Driving,
    Waiting,
    Service,
    Window,
    Late,
    RouteColumn,
    StopsColumn,
    LoadColumn,
    DistanceColumn,
}

impl Word {
    /// Returns the text of the words.
    #[tactic(auto, unfolding(crate::specs::Words::word))]
    pub(crate) fn as_str(self) -> &'static str
        ensures { result.now ≡ word self }
    {
        match self {
            Word::OneRoute => "route ",
            Word::OfRoutes => " of ",
            Word::OfPlan => "; the whole plan: ",
            Word::Partial => "partial, ",
            Word::Unplanned => "unplanned ",
            Word::Vehicles => ", vehicles ",
            Word::Distance => ", distance ",
            Word::BrokenRule => "broken rule ",
            Word::BeforeName => ", ",
            Word::BrokenRoute => ", route ",
            Word::BrokenPlace => ", place ",
            Word::BrokenStop => ", stop ",
            Word::Partner => ", the other of its pair is stop ",
            Word::Load => ", load ",
            Word::Capacity => ", capacity ",
            Word::Start => ", starts at ",
            Word::Back => ", back at ",
            Word::Latest => ", latest ",
            Word::Used => ", used ",
            Word::Fleet => ", fleet ",
            Word::Driven => ", driven ",
            Word::Unserved => "unserved stops, ringed: ",
            Word::Depot => "depot",
            Word::Pickup => "pickup",
            Word::Delivery => "delivery",
            Word::Stop => "stop",
            Word::PairLines => "dashed: pairs, pale: depot legs",
            Word::StopLines => "pale: depot legs",
            Word::Driving => "driving",
            Word::Waiting => "waiting",
            Word::Service => "service",
            Word::Window => "window",
            Word::Late => "late",
            Word::RouteColumn => "route",
            Word::StopsColumn => "stops",
            Word::LoadColumn => "load",
            Word::DistanceColumn => "distance",
        }
    }
}
