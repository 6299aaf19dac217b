//! The help texts: the version, which `clap`'s own flag prints, and the meaning of each line of output and of
//! each status.

pub(crate) const VERSION: &str = "0.1.0";

pub(crate) const ABOUT: &str =
    "Plans vehicle routes: pickup and delivery with time windows (PDPTW), routing with time windows (VRPTW) and capacitated \
    routing (CVRP). `solve` solves an instance. `load` and `run` keep the plan in a store, a file that is recovered after \
    a crash. `audit` checks any solution. Without arguments it audits a built-in example.";

pub(crate) const STATUSES: &str =
    "Answers go to standard output. The exit status says how the program ended:\n  \
    0   done; for an audit: the solution keeps all rules\n  \
    1   a rule is broken, a solution not adopted, requests left out, or `run STORE strict` ended at a refusal\n  \
    2   an input or a store is refused, or a store is suspect\n  \
    3   a file or a device failed, is in use or exists already, or an answer could not be written\n  \
    4   out of memory\n  \
    64  a usage error, or `upgrade` names one file twice\n\n\
    KIND is the format of an instance: lilim, solomon or vrp. After a colon it may have a scale: 1, 10, 100 or 1000. The\n\
    coordinates, time windows and service times of the instance are multiplied by the scale as they are read. So with\n\
    solomon:1000 each distance is rounded to a thousandth, and all costs and times are in thousandths.";

pub(crate) const AUDIT_ABOUT: &str =
    "Checks a solution against the rules, and names the first that it breaks";

pub(crate) const AUDIT_ANSWERS: &str = "It prints one line:\n  \
    pass UNPLANNED VEHICLES DISTANCE    the solution keeps all rules (status 0)\n  \
    broken RULE route R place P stop S  the first rule that it breaks, and where (status 1)\n  \
    instance NAME LINE                  the first fault in the instance (status 2)\n  \
    solution NAME LINE                  the first fault in the solution (status 2)\n  \
    cannot read PATH                    the file can't be read (status 3)\n  \
    out of memory                       (status 4)\n\n\
    Text after the cost line is not read. Standard error names the first such line that is not blank, and the first\n\
    line of a vrp instance that sets a limit which no rule checks.\n\n\
    With the last argument `routes`, only the routes are checked, by rules 1 to 9, and DISTANCE is their length. Lines\n\
    before the first route are skipped. The cost line may be missing, and its cost is not read.\n\n\
    Routes, places and lines count from 1. The rules:\n  \
    1   an unknown stop\n  \
    2   a stop that is visited twice\n  \
    3   a request that is not served, or only half of it\n  \
    4   a pair in two routes\n  \
    5   a delivery before its pickup\n  \
    6   too much load\n  \
    7   service too late\n  \
    8   a vehicle back too late\n  \
    9   more vehicles than the fleet has\n  \
    10  a pin that is not kept (only a plan in a store has pins)\n  \
    11  a printed cost that is not the distance of the routes";

pub(crate) const FORMAT_ABOUT: &str = "Creates an empty store, and replaces what the file holds";

pub(crate) const FORMAT_ANSWERS: &str = "It prints one line:\n  \
    ok                  the empty store is on the disk (status 0)\n  \
    cannot read PATH    the file can't be opened or created; the disk may be full (status 3)\n  \
    store InUse         another program has the store open (status 3)\n  \
    store DeviceFault   a write or a sync failed; format it again: it may not be a store (status 3)\n  \
    store OutOfMemory   (status 4)\n\n\
    If a file or a device fails, standard error has the system's message.";

pub(crate) const LOAD_ABOUT: &str =
    "Loads an instance into a store, and creates the store if the file is missing or empty";

pub(crate) const LOAD_ANSWERS: &str =
    "The instance is read first. A store that already holds one stays as it is: only the `load` command of `run`\n\
    replaces it. It prints one line:\n  \
    ok                  the store holds the instance, on the disk (status 0)\n  \
    store Loaded        the store already holds an instance; it stays as it is (status 2)\n  \
    instance NAME LINE  the first fault in the instance (status 2)\n  \
    cannot read PATH    the instance can't be read, or the store's file can't be opened or created (status 3)\n  \
    store NAME          why the store was not opened, as for `run`, or not created (status 2, 3 or 4)\n  \
    fault device        the disk failed or is full; the next `run` shows whether the instance is there (status 3)\n  \
    no Spent            the store can't be written any more (status 2)\n  \
    no OutOfMemory      the store stays as it is (status 4)\n  \
    out of memory       the instance does not fit into memory (status 4)\n\n\
    If a file or a device fails, standard error has the system's message.";

pub(crate) const RUN_ABOUT: &str = "Opens a store and executes commands of standard input";

pub(crate) const ADOPT_ABOUT: &str = "Makes a solution the plan of a store";

pub(crate) const ADOPT_ANSWERS: &str =
    "The solution is read first, and audited against the store's instance. Each vehicle with a pin gets the first remaining route\n\
    that begins with the pin; the other vehicles get the remaining routes, in order. The `adopt` command of `run` does the same.\n\
    It prints:\n  \
    ok                                  the solution is now the store's plan, on the disk (status 0)\n  \
    broken RULE route R place P stop S  the first rule that it breaks, as for `audit`; then `no NotAPlan` (status 1)\n  \
    no NotAPlan                         it is not a plan for this store (status 1)\n  \
    no Pinned                           no remaining route begins with the pin of some vehicle (status 1)\n  \
    no Dearer                           it costs more than the store's plan (status 1)\n  \
    no NAME LINE                        the first fault in the solution, as for `audit` (status 2)\n  \
    no NoInstance                       nothing is loaded into the store (status 2)\n  \
    cannot read PATH                    the solution can't be read, or the store's file can't be opened (status 3)\n  \
    store NAME                          why the store was not opened, as for `run` (status 2, 3 or 4)\n  \
    fault device                        the disk failed or is full; the next `run` shows whether the plan is there (status 3)\n  \
    no Spent                            the store can't be written any more (status 2)\n  \
    no OutOfMemory                      (status 4)\n\n\
    After any `no` the store stays as it is. If a file or a device fails, standard error has the system's message.";

pub(crate) const INSTANCE_ABOUT: &str = "Prints the instance that a store holds";

pub(crate) const INSTANCE_ANSWERS: &str =
    "It prints the instance, with the requests that were added and without those that were withdrawn, so that other programs\n\
    can solve it and audit its solutions (status 0). It has neither the plan nor its pins. Standard error names the KIND.\n\
    Its numbers are those of the store, times the scale with which the instance was loaded, so its KIND has no scale.\n\
    If that fails, it prints one line:\n  \
    no NoInstance     nothing is loaded into the store (status 2)\n  \
    no NoFormat       the format can't express the requests (status 2)\n  \
    store NAME        why the store was not opened, as for `run` (status 2, 3 or 4)\n  \
    cannot read PATH  the file can't be opened for reading (status 3)\n  \
    out of memory     (status 4)\n\n\
    An instance with time windows is printed as lilim if its requests are pairs, and as solomon if each has one stop. If it\n\
    has both, no format can express it. The vrp format can't express pairs, time windows, service times, numbers that do\n\
    not run from 1 on without gaps, or an instance without requests.";

pub(crate) const CHECK_ABOUT: &str = "Checks whether a store is consistent";

pub(crate) const CHECK_ANSWERS: &str =
    "It reads the store as `run` does to open it, and changes nothing. A store has no checksums, so damage may go unnoticed.\n\
    Check a copy before you keep it, and a store after a fault of its disk. It prints:\n  \
    ok                     it opens and is consistent (status 0)\n  \
    suspect HeaderLost     it opens, but one of its two headers is gone: the plan may be an older one (status 2)\n  \
    suspect HeadersApart   it opens, but its two headers are not consecutive: the plan may be another one (status 2)\n  \
    suspect RecordDamaged  it opens, but a record is damaged: the last commands may be missing (status 2)\n  \
    suspect RecordsMixed   it opens, but a record is newer than the one before it: the last commands may be missing (status 2)\n  \
    store NAME             why it can't be opened, as for `run` (status 2, 3 or 4)\n  \
    cannot read PATH       the file can't be opened for reading (status 3)\n\n\
    A new store is not suspect, and a crash while a command is committed does not make a store suspect. A crash during `format` or\n\
    `upgrade` over another store may. Replace a suspect store with a copy that is `ok`. `run` opens a suspect store all the same,\n\
    and reports the first reason on standard error.";

pub(crate) const UPGRADE_ABOUT: &str = "Converts a store of version 1 into a new store";

pub(crate) const UPGRADE_ANSWERS: &str =
    "NEW becomes a store of the version that this planner writes, with the state of OLD. It replaces what the\n\
    file holds. OLD stays as it is. It prints one line:\n  \
    ok                the new store is on the disk (status 0)\n  \
    same store        both arguments name one file; nothing was changed (status 64)\n  \
    cannot read PATH  a file can't be opened or created; the disk may be full (status 3)\n  \
    store NAME        why OLD was not read, as for `run` (status 2, 3 or 4)\n  \
    new NAME          why NEW was not created: DeviceFault, InUse or OutOfMemory (status 3 or 4)";

pub(crate) const AUDITS_ABOUT: &str = "Audits a list of solutions";

pub(crate) const AUDITS_ANSWERS: &str =
    "Each line of the list has the path of an instance and the path of a solution, separated by a tab. After a second tab\n\
    it may have the best-known cost of the instance: [VEHICLES ]DISTANCE, or DISTANCE for a vrp instance. It is in the\n\
    unit of the instance's file: with KIND lilim:1000 it may have three decimals.\n\
    LIST may be - for standard input. For each line of the list it prints one line:\n  \
    INSTANCE  SOLUTION  ANSWER    separated by tabs; ANSWER is the line of `audit`\n  \
    bad line                      it is not two paths, or the best-known cost is not a cost or has distance 0 (status 2)\n\n\
    Standard error has the number of each bad line and the reason, and reports text after a cost line, as for `audit`.\n\
    If there is a best-known cost, one of these follows a pass:\n  \
    vehicles +1    if the numbers of vehicles differ: how many more or fewer the solution has\n  \
    gap 1.27       otherwise: how much longer the distance is, in percent of the best-known one; negative if shorter\n\n\
    With the last argument `routes`, each solution is checked as by `audit` with `routes`.\n\
    The status is the greatest one of all lines.";

pub(crate) const EXPLAIN_ABOUT: &str = "Audits a solution, and explains the answer in numbers";

pub(crate) const EXPLAIN_ANSWERS: &str =
    "It prints the line of `audit`, with its status, and below it:\n  \
    pass                  a line for each route, and the sums (status 0)\n  \
    broken                a sentence with the numbers, and the route stop by stop (status 1)\n  \
    instance or solution  what the fault means, and the line that has it (status 2)\n\n\
    With the last argument `routes`, only the routes are checked, as by `audit` with `routes`.\n\
    Nothing follows `cannot read PATH` (status 3) and `out of memory` (status 4).";

pub(crate) const TIMETABLE_ABOUT: &str =
    "Prints when each vehicle is where, for a store's plan or a solution";

pub(crate) const TIMETABLE_ANSWERS: &str =
    "The arguments are STORE [tabs] or KIND INSTANCE SOLUTION [tabs]. It prints the line of `audit`, with its status,\n\
    and below it a block for each vehicle that is used, with a line for each stop:\n  \
    place stop kind partner    its place in the route, its number, what it is, and the other stop of its pair\n  \
    set off                    when to leave the place before, in order to arrive exactly when service starts\n  \
    arrival start waiting      when a vehicle arrives that leaves there immediately, when service starts, and the time between\n  \
    service from to            how long service takes, and the earliest and the latest time at which it may start\n  \
    latest                     a later start makes this stop, a later one or the return late; - if the route breaks a rule\n  \
    load                       the load after the stop\n  \
    pin                        if a pin may end here: `run` then accepts the command `pin VEHICLE PLACE`\n\
    Then it prints `unplanned R` for each request in no route, and after `why R: ` what the `why R` command of `run` prints.\n\
    A vrp instance has no times except arrivals.\n\n\
    If the plan leaves requests out, the first line is\n  \
    partial UNPLANNED VEHICLES DISTANCE    (status 1; for a store 0)\n\
    `solve` prints such a plan without a cost line. For a solution, standard error names these requests.\n\n\
    With `tabs` the fields are separated by tabs, `-` is an empty field, and the first field says what the line is about:\n  \
    vehicle    VEHICLE STOPS DISTANCE LOAD SET_OFF RETURN WAITING\n  \
    stop       VEHICLE PLACE STOP KIND PARTNER SET_OFF ARRIVAL START WAITING SERVICE FROM TO LATEST LOAD PIN\n  \
    unplanned  REQUEST\n  \
    why        REQUEST LINE\n\n\
    If a stop is unknown or visited twice, or an input or a store is refused, the first line is the only one:\n  \
    instance NAME LINE, solution NAME LINE, cannot read PATH, out of memory    as for `audit`\n  \
    store NAME       why the store was not opened, as for `run` (status 2, 3 or 4)\n  \
    no NoInstance    nothing is loaded into the store (status 2)";

pub(crate) const DRAW_ABOUT: &str = "Draws a solution, or the plan of a store, as an SVG picture";

pub(crate) const DRAW_ANSWERS: &str =
    "The arguments are STORE [ROUTE] or KIND INSTANCE SOLUTION [ROUTE]. It prints a picture of the depot, the stops, and\n\
    each route with its numbers; with time windows also the day of each vehicle. With ROUTE it draws only that route,\n\
    larger. Routes count from 1; for a store, ROUTE is a vehicle, at most the last one that is used. A plan that breaks\n\
    a rule is drawn too, with a mark at the violation. So is a plan that leaves requests out, which `solve` prints\n\
    without a cost line; for a solution, standard error names these requests (status 0).\n\
    If there is no picture, it prints on standard error:\n  \
    instance NAME LINE  the first fault in the instance (status 2)\n  \
    solution NAME LINE  the first fault in the solution (status 2)\n  \
    store NAME          why the store was not opened, as for `run` (status 2, 3 or 4)\n  \
    no NoInstance       nothing is loaded into the store (status 2)\n  \
    no NoSuchRoute      there is no route with this number (status 2)\n  \
    cannot read PATH    the file can't be read (status 3)\n  \
    out of memory       (status 4)";

pub(crate) const SOLVE_ABOUT: &str = "Solves an instance";

pub(crate) const SOLVE_ANSWERS: &str =
    "It builds a plan, searches for a better one, and prints it as a solution (status 0).\n\
    For KIND vrp with at most 300 customers and no DEVIATION, 64 steps are one iteration of a hybrid genetic search.\n\
    If the plan leaves requests out, the solution has no cost line (status 1).\n\
    On standard error it prints:\n  \
    at STEPS UNPLANNED VEHICLES DISTANCE    progress at the start and about every 5% of the steps; while it looks for fewer vehicles, every 524,288 steps\n  \
    unplanned N: R1 R2 ..                   how many requests are in no route, and which (status 1)\n  \
    why R: WORDS                            for each of them, what the `why R` command of `run` prints\n  \
    instance NAME LINE                      the first fault in the instance (status 2)\n  \
    cannot read PATH                        the file can't be read (status 3)\n  \
    out of memory                           (status 4)\n\n\
    The same arguments print the same solution on every machine.";

pub(crate) const SOLVES_ABOUT: &str = "Solves each instance of a list";

pub(crate) const SOLVES_ANSWERS: &str =
    "Each line of the list has the path of an instance and the path of the solution to write, separated by a tab.\n\
    LIST may be - for standard input. The solution has the bytes that `solve` prints. For each line of the list it\n\
    prints one line as soon as that solution is written:\n  \
    INSTANCE  SOLUTION  ANSWER     separated by tabs; ANSWER is one of these:\n  \
    pass UNPLANNED VEHICLES DISTANCE   the line of `audit` for the written solution (status 0)\n  \
    unplanned N: R1 R2 ..              the written solution leaves out N requests, and has no cost line (status 1)\n  \
    instance NAME LINE                 the first fault in the instance (status 2)\n  \
    there already                      the solution's path exists already; it stays as it is (status 3)\n  \
    cannot read PATH, cannot write PATH    (status 3)\n  \
    out of memory                      (status 4)\n  \
    bad line                       the line is not two paths (status 2)\n\n\
    The status is the greatest one of all lines. If the list can't be read, it prints only `cannot read PATH`.";
