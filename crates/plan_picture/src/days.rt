//! The chart beside the table: when each vehicle drives, waits and serves.
ghost use Rattle.std.specs.Prelude.{◌≡◌, ◌+◌, ◌≤◌, ◌^◌, ◌++◌, max, All};
ghost use Rattle.std.specs.List.{flat_map, range_with_len};
ghost use Rattle.route_sched.specs.Route.{AreDistinctStops};
ghost use Rattle.plan_picture.specs.Days.{time_x, bars_text, chart_head, chart_text, day_text, days_text, horizon, last_start, late_text, nth_tick, tick_line, tick_step, tick_text, ticks_text, time_width, time_text, times_row, times_rows, times_text, visit_text, visits_text, window_text, work_text};
ghost use Rattle.plan_picture.specs.DrawnStops.{visits_of};
ghost use Rattle.plan_picture.specs.Svg.{each};

use crate::styles::Style;
use crate::svg::{Svg, digits};
use crate::tags::Tag;
use plan_types::{Kind, Problem, Route, Stop};
use route_sched::{Visit, Visits};

impl Svg {
    /// Appends the chart, if the problem has windows.
    pub(crate) fn put_days(&mut self, problem: &Problem, routes: &[Route])
        requires { All (AreDistinctStops problem.now) routes.now }
        ensures { self.new ≡ self.old ++ days_text problem.now.kind problem.now routes.now }
    {
        match problem.kind {
            Kind::LiLim => {
                let last = horizon(problem, routes);
                self.put_chart(problem, last, routes)
            }
            Kind::Vrp => {}
        }
    }

    #[tactic(auto, unfolding(crate::specs::Days::chart_text))]
    fn put_chart(&mut self, problem: &Problem, last: u64, routes: &[Route])
        requires { All (AreDistinctStops problem.now) routes.now }
        ensures { self.new ≡ self.old ++ chart_text problem.now last routes.now }
    {
        let first = problem.depot.earliest;
        self.put_ticks(first, last, 30 * routes.len() as u128);
        self.put_bars(problem, last, routes);
        self.put_times_rows(problem, last, routes);
    }

    // Appends the axis.
    #[tactic(auto, unfolding(crate::specs::Days::ticks_text))]
    fn put_ticks(&mut self, first: u32, last: u64, height: u128)
        ensures { self.new ≡ self.old ++ ticks_text first last height }
    {
        let step = tick_step(20, last.saturating_sub(u64::from(first)));
        self.put(Tag::Ticks);
        self.put_each_tick(first, last, height, step);
        self.put(Tag::GroupEnd);
    }

    fn put_each_tick(&mut self, first: u32, last: u64, height: u128, step: u64)
        requires { 1 ≤ step }
        ensures { self.new ≡ self.old
            ++ flat_map (nth_tick first last height step) (range_with_len 0 14) }
    {
        for n in 0..14u64 {
            let ticks = u64::from(first).div_ceil(step) as u128 + n as u128;
            self.put_tick(first, last, height, step as u128 * ticks);
        }
    }

    // Appends a line down all rows, with its time above.
    #[tactic(auto, unfolding(crate::specs::Days::tick_text))]
    fn put_tick(&mut self, first: u32, last: u64, height: u128, time: u128)
        ensures { self.new ≡ self.old ++ tick_text first last height time }
    {
        if time > last as u128 {
            return;
        }
        let x = time_x(first, last, time as u64);
        self.put_tick_line(x, height);
        self.put_text(Tag::TickTime, x, time);
    }

    #[tactic(auto, unfolding(crate::specs::Days::tick_line))]
    fn put_tick_line(&mut self, x: u128, height: u128)
        ensures { self.new ≡ self.old ++ tick_line x height }
    {
        self.put_style(Style::TickLine);
        self.put_attribute(Tag::X, x);
        self.put_attribute(Tag::Height, height);
        self.put(Tag::Close);
    }

    #[tactic(auto, unfolding(crate::specs::Days::bars_text))]
    fn put_bars(&mut self, problem: &Problem, last: u64, routes: &[Route])
        requires { All (AreDistinctStops problem.now) routes.now }
        ensures { self.new ≡ self.old ++ bars_text problem.now last routes.now }
    {
        let height = 30 * routes.len() as u128;
        self.put_chart_head(problem.depot.earliest, last, height);
        self.put_each_day(problem, routes);
        self.put(Tag::End);
    }

    #[tactic(auto, unfolding(crate::specs::Days::chart_head))]
    fn put_chart_head(&mut self, first: u32, last: u64, height: u128)
        ensures { self.new ≡ self.old ++ chart_head first last height }
    {
        self.put_attribute(Tag::Chart, height);
        self.put_numbered(Tag::ChartBox, first as u128);
        self.put_numbered(
            Tag::ChartWidth,
            last.saturating_sub(u64::from(first)) as u128,
        );
        self.put_attribute(Tag::Blank, height);
        self.put(Tag::Open);
    }

    #[tactic(auto, unfolding(crate::specs::Days::times_rows))]
    fn put_times_rows(&mut self, problem: &Problem, last: u64, routes: &[Route])
        requires { All (AreDistinctStops problem.now) routes.now }
        ensures { self.new ≡ self.old ++ times_rows problem.now last routes.now }
    {
        self.put_style(Style::Times);
        self.put_each_times_row(problem, last, routes);
        self.put(Tag::GroupEnd);
    }

    fn put_each_times_row(&mut self, problem: &Problem, last: u64, routes: &[Route])
        requires { All (AreDistinctStops problem.now) routes.now }
        ensures { self.new ≡ self.old ++ each (times_row problem.now last) 0 routes.now }
    {
        for (index, route) in routes.iter().enumerate() {
            self.put_times_row(problem, last, index, route.as_slice());
        }
    }

    #[tactic(auto, unfolding(crate::specs::Days::times_row))]
    fn put_times_row(&mut self, problem: &Problem, last: u64, index: usize, route: &[u32])
        requires { AreDistinctStops problem.now route.now }
        ensures { self.new ≡ self.old ++ times_row problem.now last index route.now }
    {
        self.put_numbered(Tag::Day, 1116 + 30 * index as u128);
        self.put(Tag::DayOpen);
        self.put_times(problem, last, route);
        self.put(Tag::GroupEnd);
    }

    // Appends the times of the visits, except those that would cover an earlier one.
    fn put_times(&mut self, problem: &Problem, last: u64, route: &[u32])
        requires { AreDistinctStops problem.now route.now }
        ensures { self.new ≡ self.old
            ++ times_text problem.now.depot.earliest last 0 (visits_of problem.now route.now) }
    {
        let first = problem.depot.earliest;
        let mut free = 0;
        for visit in Visits::new(problem, route) {
            let x = time_x(first, last, visit.start);
            if free <= x {
                self.put_time(x, &visit);
                free = x + u128::from(time_width(&visit));
            }
        }
    }

    // Appends a stop's number and the start of its service.
    #[tactic(auto, unfolding(crate::specs::Days::time_text))]
    fn put_time(&mut self, x: u128, visit: &Visit)
        ensures { self.new ≡ self.old ++ time_text x visit.now }
    {
        self.put_text(Tag::TimeStop, x, visit.stop.number as u128);
        self.put_text(Tag::TimeStart, x, visit.start as u128);
    }

    fn put_each_day(&mut self, problem: &Problem, routes: &[Route])
        requires { All (AreDistinctStops problem.now) routes.now }
        ensures { self.new ≡ self.old ++ each (day_text problem.now) 0 routes.now }
    {
        for (index, route) in routes.iter().enumerate() {
            self.put_day(problem, index, route.as_slice());
        }
    }

    // Appends the day of the vehicle whose row has this index.
    #[tactic(auto, unfolding(crate::specs::Days::day_text))]
    fn put_day(&mut self, problem: &Problem, index: usize, route: &[u32])
        requires { AreDistinctStops problem.now route.now }
        ensures { self.new ≡ self.old ++ day_text problem.now index route.now }
    {
        self.put_numbered(Tag::Day, 30 * index as u128);
        self.put(Tag::DayOpen);
        self.put_visits(problem.depot.earliest, problem, route);
        self.put(Tag::GroupEnd);
    }

    fn put_visits(&mut self, first: u32, problem: &Problem, route: &[u32])
        requires { AreDistinctStops problem.now route.now }
        ensures { self.new ≡ self.old ++ visits_text first 0 (visits_of problem.now route.now) }
    {
        let mut start = u64::from(first);
        let mut service = 0;
        for visit in Visits::new(problem, route) {
            self.put_visit(start, service, &visit);
            start = visit.start;
            service = visit.stop.service;
        }
    }

    #[tactic(auto, unfolding(crate::specs::Days::visit_text))]
    fn put_visit(&mut self, start: u64, service: u32, visit: &Visit)
        ensures { self.new ≡ self.old ++ visit_text (start + service) visit.now }
    {
        self.put_work(start as u128 + service as u128, visit);
        self.put_window(&visit.stop);
        self.put_late(visit);
    }

    // Appends driving, waiting and service.
    #[tactic(auto, unfolding(crate::specs::Days::work_text))]
    fn put_work(&mut self, leave: u128, visit: &Visit)
        requires { leave ≤ 2 ^ 65 }
        ensures { self.new ≡ self.old ++ work_text leave visit.now }
    {
        let leg = visit.leg as u128;
        let start = visit.start as u128;
        let arrival = leave + leg;
        let wait = start.saturating_sub(arrival);
        let service = visit.stop.service as u128;
        self.put_bar(Tag::Drive, leave, leg);
        self.put_bar(Tag::Wait, arrival, wait);
        self.put_bar(Tag::Serve, start, service);
    }

    // Appends the window of a stop. The depot's window has no bar, since the chart begins at its earliest time.
    #[tactic(auto, unfolding(crate::specs::Days::window_text))]
    fn put_window(&mut self, stop: &Stop)
        ensures { self.new ≡ self.old ++ window_text stop.now }
    {
        if stop.number == 0 {
            return;
        }
        let width = stop.latest.saturating_sub(stop.earliest);
        self.put_bar(Tag::Window, stop.earliest as u128, width as u128);
    }

    // Appends a bar for how late the service starts.
    #[tactic(auto, unfolding(crate::specs::Days::late_text))]
    fn put_late(&mut self, visit: &Visit)
        ensures { self.new ≡ self.old ++ late_text visit.now }
    {
        let latest = u64::from(visit.stop.latest);
        self.put_bar(
            Tag::Late,
            latest as u128,
            visit.start.saturating_sub(latest) as u128,
        );
    }
}

// Returns the latest of the end of the depot's window and all starts of service.
fn horizon(problem: &Problem, routes: &[Route]) -> u64
    requires { All (AreDistinctStops problem.now) routes.now }
    ensures { result ≡ horizon problem.now problem.now.depot.latest routes.now }
{
    let mut last = u64::from(problem.depot.latest);
    for route in routes {
        last = last_start(last, problem, route.as_slice());
    }
    last
}

// Returns the latest of a time and the starts of service along a route.
fn last_start(first: u64, problem: &Problem, route: &[u32]) -> u64
    requires { AreDistinctStops problem.now route.now }
    ensures { result ≡ last_start first (visits_of problem.now route.now) }
{
    let mut last = first;
    for visit in Visits::new(problem, route) {
        last = last.max(visit.start);
    }
    last
}

// Returns the distance between the ticks of a day of this length: 1, 2 or 5, followed by zeros, so that about
// twelve ticks fit.
fn tick_step(zeros: u32, span: u64) -> u64
    ensures value { result ≡ tick_step zeros span }
    ensures some { 1 ≤ result }
    ensures bound { result ≤ max span 1 }
{
    if zeros == 0 || span <= 12 {
        return 1;
    }
    if span <= 24 {
        return 2;
    }
    if span <= 60 {
        return 5;
    }
    10 * tick_step(zeros - 1, span / 10)
}

// Returns the width that a stop's number and its time need.
fn time_width(visit: &Visit) -> u32
    ensures { result ≡ time_width visit.now }
{
    let number = u64::from(visit.stop.number);
    6 * digits(visit.start).max(digits(number)) + 5
}

// Returns the x coordinate of a time beside the table.
#[tactic(auto, unfolding(crate::specs::Days::time_x))]
fn time_x(first: u32, last: u64, time: u64) -> u128
    ensures value { result ≡ time_x first last time }
    ensures bound { result ≤ 2 ^ 80 }
{
    let first = u64::from(first);
    let span = last.saturating_sub(first).max(1);
    320 + 840 * time.saturating_sub(first) as u128 / span as u128
}
