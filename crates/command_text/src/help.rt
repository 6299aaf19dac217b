//! The answer to `help`: the commands, their answers, and the names of refusals. The program's `--help` shows
//! it too.
ghost use Rattle.std.specs.Prelude.{◌≡◌};
ghost use Rattle.command_text.specs.Answers.{help_text};

/// The commands, their answers, and the reasons for a refusal, without the line feed at the end.
pub const HELP: &str = "Each line is one command:\n  \
    load KIND SEED LEN         starts with a new instance: the LEN bytes after this line; KIND is lilim, solomon or vrp, perhaps with a scale: lilim:1000\n  \
    adopt LEN                  replaces the plan by a solution that costs no more: the LEN bytes after this line\n  \
    build                      inserts each unplanned request at its best place\n  \
    search N, reach N          makes N search steps, or those that are left to step N\n  \
    anneal N                   makes N annealing steps, which find better plans\n  \
    anneal FROM TO             anneals in stages from step FROM to step TO; repeat it after a crash to continue\n  \
    reduce N                   makes N steps for plans with fewer vehicles or fewer requests left out; for vrp, anneals\n  \
    deviation D                lets a step leave a plan up to D longer than the best one, in `anneal` than the one before\n  \
    add Q X Y E L S X Y E L S  adds a pair: demand; x, y, earliest and latest start, service time of pickup and delivery\n  \
    add1 Q X Y E L S           adds a request with one stop, from the same numbers\n  \
    withdraw R                 removes the request with this name; `show` lists others that this leaves unplanned\n  \
    pin V K, unpin V           fixes the first K stops of vehicle V; removes the pin of vehicle V\n  \
    freeze T                   pins what has begun by time T: the stops for which each vehicle has departed\n  \
    show, print                prints the requests, pins, routes and cost; prints the plan as a solution\n  \
    instance                   prints the problem as it is now, as an instance\n  \
    timetable, timetable V     prints when each vehicle, or vehicle V, is where\n  \
    why R                      prints where and when the request with stop R is served, or why it is in no route\n  \
    next                       prints `next N`: the next request gets the number N, a pair for its pickup\n  \
    checkpoint                 writes a snapshot, so that the next run repeats no step made before it\n  \
    help                       prints this list\n\n\
    Each answer ends with one of these lines:\n  \
    ok                         it is done, and what it changed is on the disk: a crash does not lose it\n  \
    no NAME                    it is refused and changes nothing; `no NAME LINE` if a line of the LEN bytes is wrong\n  \
    fault device               the store's disk failed or is full; the next run shows whether the command was done.\n                             \
    Go on with a copy of the store on a sound disk, or begin that run with `checkpoint`\n\n\
    A command that makes steps first prints lines `at STEPS UNPLANNED VEHICLES DISTANCE`: the number of steps so far, which\n\
    are kept whatever answer follows, and how many requests the plan leaves out, its vehicles and its distance. `freeze`\n\
    first prints `pin V K` for each pin that it makes longer. In `show`, `steps S place P` is the number of steps so far\n\
    and the number of random numbers that they drew, 16 for each step.\n\n\
    The names of refusals (after BadLine, Truncated or Range of `load` and `adopt` the run ends):\n  \
    BadLine        no such command, a word too many or too few, a word that is not an integer, or over 1,024 bytes\n  \
    Truncated      the input ends before LEN bytes\n  \
    Broken         the disk failed earlier in this run\n  \
    NoInstance     nothing is loaded yet\n  \
    Range          a number is outside its limits, there is no such vehicle, or a window ends before it begins\n  \
    NoSuchRequest  no request has this name (for a pair, the number of its pickup); for `why`: none has this stop\n  \
    Pinned         a stop of the request is pinned; for `adopt`: no route begins with the pin of some vehicle\n  \
    NoSuchPlace    there is no such vehicle, or its route has fewer stops\n  \
    NotARoute      no pin can end there: the first K stops by themselves leave load on board, or the vehicle late\n  \
    NumbersSpent   a stop would get a number above 40,000\n  \
    StepsSpent     there would be more than 2^60 steps\n  \
    NoTimes        a vrp instance has no times, so `freeze` can't say what has begun\n  \
    NoFormat       no format can express the requests as they are now\n  \
    NotAPlan       the solution breaks the rule that the line before names\n  \
    Dearer         the solution costs more than the plan\n  \
    Unplanned      a request is in no route, so there is no solution to print\n  \
    Spent          the store can't be written any more\n  \
    OutOfMemory    out of memory; you may repeat the same command";

/// Returns the bytes of `HELP`.
pub fn help_lines() -> &'static [u8]
    ensures { result.now ≡ help_text }
{
    HELP.as_bytes()
}
