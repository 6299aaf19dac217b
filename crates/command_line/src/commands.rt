//! The definition of the commands for `clap`: each command with its arguments. Also the usage errors for
//! arguments that `clap` accepts and this crate does not.
ghost use Rattle.std.specs.Prelude.{◌≡◌, IfOk, codes};
ghost use Rattle.clap.specs.Words.{App, Rule, app_of, kind_of, new_app, new_rule, with_rule, with_subcommand};
ghost use Rattle.command_line.specs.CommandLine.{IsKindNames, IsLeafCommand, IsModeNames, IsPlannerCommand, IsArg, adopt_app, audits_app, draw_app, load_app, mode_rule, paths_app, kind_rule, run_app, solve_app, solves_app, store_app, timetable_app, upgrade_app, with_plan_rules, with_search_apps, with_solution_apps, with_store_apps, required_rule};

use crate::help::{
    ABOUT, ADOPT_ABOUT, ADOPT_ANSWERS, AUDIT_ABOUT, AUDIT_ANSWERS, AUDITS_ABOUT, AUDITS_ANSWERS,
    CHECK_ABOUT, CHECK_ANSWERS, DRAW_ABOUT, DRAW_ANSWERS, EXPLAIN_ABOUT, EXPLAIN_ANSWERS,
    FORMAT_ABOUT, FORMAT_ANSWERS, INSTANCE_ABOUT, INSTANCE_ANSWERS, LOAD_ABOUT, LOAD_ANSWERS,
    RUN_ABOUT, SOLVE_ABOUT, SOLVE_ANSWERS, SOLVES_ABOUT, SOLVES_ANSWERS, STATUSES, TIMETABLE_ABOUT,
    TIMETABLE_ANSWERS, UPGRADE_ABOUT, UPGRADE_ANSWERS, VERSION,
};
use clap::error::ErrorKind;
use clap::{Arg, ArgMatches, Command, Error};
use plan_types::OutOfMemory;
use std::alloc::Global;

const BAD_AUDIT: &str =
    "the arguments are KIND INSTANCE SOLUTION [routes], and KIND is lilim, solomon or vrp, perhaps with :10, :100 or :1000";

const BAD_AUDITS: &str =
    "the arguments are KIND LIST [routes], and KIND is lilim, solomon or vrp, perhaps with :10, :100 or :1000";

const BAD_STEPS: &str =
    "STEPS and DEVIATION are 0 to 1000000000 and SEED is 0 to 18446744073709551615, with digits only";

const BAD_SEED: &str = "SEED is 0 to 18446744073709551615, with digits only";

const BAD_TASKS: &str =
    "STEPS is 0 to 1000000000 and SEED is 0 to 18446744073709551615, with digits only";

const BAD_DRAWING: &str =
    "the arguments are STORE [ROUTE] or KIND INSTANCE SOLUTION [ROUTE], KIND is lilim, solomon or vrp, perhaps with :10, :100 or :1000, and ROUTE is a number with digits only";

const BAD_TIMETABLE: &str =
    "the arguments are STORE [tabs] or KIND INSTANCE SOLUTION [tabs], and KIND is lilim, solomon or vrp, perhaps with :10, :100 or :1000";

// A format, and perhaps its scale after a colon.
static KINDS: [&str; 15] = [
    "lilim",
    "lilim:1",
    "lilim:10",
    "lilim:100",
    "lilim:1000",
    "solomon",
    "solomon:1",
    "solomon:10",
    "solomon:100",
    "solomon:1000",
    "vrp",
    "vrp:1",
    "vrp:10",
    "vrp:100",
    "vrp:1000",
];

static MODES: [&str; 1] = ["strict"];

// A command under construction. A function that adds to it takes the result of the step before, so that few
// places need `?`.
type CommandResult<'a> = Result<Command<'a>, OutOfMemory>;

/// Returns the program's command. `lines` is the help for the commands that `run` reads.
pub(crate) fn planner_command<'a>(alloc: Global, lines: &'a str) -> CommandResult<'a>
    ensures { IfOk result IsPlannerCommand }
{
    let kinds = kind_names();
    let planner = Command::new(alloc, "planner")
        .about(ABOUT)
        .version(VERSION)
        .after_help(STATUSES);
    let planner = add_solution_commands(alloc, Ok(planner), kinds);
    let planner = add_search_commands(alloc, planner, kinds);
    add_store_commands(alloc, planner, kinds, mode_names(), lines)
}

// Adds the commands that take a solution.
fn add_solution_commands<'a>(
    alloc: Global,
    above: CommandResult<'a>,
    kinds: &'a [&'a str],
) -> CommandResult<'a>
    ensures { (a : App) → IfOk above.entry (λ old. app_of old ≡ a)
        → IfOk result (λ new. app_of new ≡ with_solution_apps kinds.entry a) }
{
    let audit = paths_command(alloc, "audit", AUDIT_ABOUT, AUDIT_ANSWERS, kinds);
    let above = add_subcommand(above, audit);
    let above = add_subcommand(above, audits_command(alloc, kinds));
    let explain = paths_command(alloc, "explain", EXPLAIN_ABOUT, EXPLAIN_ANSWERS, kinds);
    let above = add_subcommand(above, explain);
    let above = add_subcommand(above, timetable_command(alloc));
    add_subcommand(above, draw_command(alloc))
}

// Adds the commands that make a solution.
fn add_search_commands<'a>(
    alloc: Global,
    above: CommandResult<'a>,
    kinds: &'a [&'a str],
) -> CommandResult<'a>
    ensures { (a : App) → IfOk above.entry (λ old. app_of old ≡ a)
        → IfOk result (λ new. app_of new ≡ with_search_apps kinds.entry a) }
{
    let above = add_subcommand(above, solve_command(alloc, kinds));
    add_subcommand(above, solves_command(alloc, kinds))
}

// Adds the commands that make, change or read a store.
fn add_store_commands<'a>(
    alloc: Global,
    above: CommandResult<'a>,
    kinds: &'a [&'a str],
    modes: &'a [&'a str],
    lines: &'a str,
) -> CommandResult<'a>
    ensures { (a : App) → IfOk above.entry (λ old. app_of old ≡ a)
        → IfOk result (λ new. app_of new ≡ with_store_apps kinds.entry modes.entry a) }
{
    let format = store_command(alloc, "format", FORMAT_ABOUT, FORMAT_ANSWERS);
    let above = add_subcommand(above, format);
    let above = add_subcommand(above, load_command(alloc, kinds));
    let above = add_subcommand(above, run_command(alloc, modes, lines));
    let above = add_subcommand(above, adopt_command(alloc));
    let instance = store_command(alloc, "instance", INSTANCE_ABOUT, INSTANCE_ANSWERS);
    let above = add_subcommand(above, instance);
    let check = store_command(alloc, "check", CHECK_ABOUT, CHECK_ANSWERS);
    let above = add_subcommand(above, check);
    add_subcommand(above, upgrade_command(alloc))
}

// Returns the names of the kinds of instance.
fn kind_names<'a>() -> &'a [&'a str]
    ensures { IsKindNames result }
{
    KINDS.as_slice()
}

// Returns the names of the modes of `run`.
fn mode_names<'a>() -> &'a [&'a str]
    ensures { IsModeNames result }
{
    MODES.as_slice()
}

// Returns a command with its help and no arguments yet.
fn bare_command<'a>(alloc: Global, name: &'a str, about: &'a str, answers: &'a str) -> Command<'a>
    ensures { IsLeafCommand (new_app name.entry.now) result }
{
    Command::new(alloc, name).about(about).after_help(answers)
}

// Returns a command whose only argument is the path of a store.
fn store_command<'a>(
    alloc: Global,
    name: &'a str,
    about: &'a str,
    answers: &'a str,
) -> CommandResult<'a>
    ensures { IfOk result (IsLeafCommand (store_app name.entry.now)) }
{
    let command = Ok(bare_command(alloc, name, about, answers));
    add_arg(
        command,
        required_arg(alloc, "STORE", "The file of the store"),
    )
}

fn run_command<'a>(alloc: Global, modes: &'a [&'a str], lines: &'a str) -> CommandResult<'a>
    ensures { IfOk result (IsLeafCommand (run_app modes.entry)) }
{
    let command = Ok(bare_command(alloc, "run", RUN_ABOUT, lines));
    let command = add_arg(
        command,
        required_arg(alloc, "STORE", "The file of the store"),
    );
    add_arg(command, mode_arg(alloc, modes))
}

fn load_command<'a>(alloc: Global, kinds: &'a [&'a str]) -> CommandResult<'a>
    ensures { IfOk result (IsLeafCommand (load_app kinds.entry)) }
{
    let command = Ok(bare_command(alloc, "load", LOAD_ABOUT, LOAD_ANSWERS));
    let command = add_arg(
        command,
        required_arg(alloc, "STORE", "The file of the store"),
    );
    let command = add_arg(command, kind_arg(alloc, kinds));
    let command = add_arg(command, instance_arg(alloc));
    add_arg(command, seed_arg(alloc))
}

fn adopt_command<'a>(alloc: Global) -> CommandResult<'a>
    ensures { IfOk result (IsLeafCommand adopt_app) }
{
    let command = Ok(bare_command(alloc, "adopt", ADOPT_ABOUT, ADOPT_ANSWERS));
    let command = add_arg(
        command,
        required_arg(alloc, "STORE", "The file of the store"),
    );
    add_arg(command, required_solution_arg(alloc))
}

fn upgrade_command<'a>(alloc: Global) -> CommandResult<'a>
    ensures { IfOk result (IsLeafCommand upgrade_app) }
{
    let command = Ok(bare_command(alloc, "upgrade", UPGRADE_ABOUT, UPGRADE_ANSWERS));
    let command = add_arg(
        command,
        required_arg(alloc, "OLD", "The file of the old store"),
    );
    add_arg(
        command,
        required_arg(alloc, "NEW", "The file of the new store"),
    )
}

fn timetable_command<'a>(alloc: Global) -> CommandResult<'a>
    ensures { IfOk result (IsLeafCommand timetable_app) }
{
    let command = Ok(bare_command(alloc, "timetable", TIMETABLE_ABOUT, TIMETABLE_ANSWERS));
    add_plan_args(alloc, command, tabs_or_instance_arg(alloc), tabs_arg(alloc))
}

fn draw_command<'a>(alloc: Global) -> CommandResult<'a>
    ensures { IfOk result (IsLeafCommand draw_app) }
{
    let command = Ok(bare_command(alloc, "draw", DRAW_ABOUT, DRAW_ANSWERS));
    add_plan_args(
        alloc,
        command,
        route_or_instance_arg(alloc),
        route_arg(alloc),
    )
}

// Adds the arguments that name a store or a solution: `STORE|KIND`, `second`, `SOLUTION` and `last`.
fn add_plan_args<'a>(
    alloc: Global,
    command: CommandResult<'a>,
    second: Arg<'a>,
    last: Arg<'a>,
) -> CommandResult<'a>
    ensures { (a : App) (r q : Rule) → IfOk command.entry (IsLeafCommand a) → IsArg r second.entry
        → IsArg q last.entry → IfOk result (IsLeafCommand (with_plan_rules a r q)) }
{
    let command = add_arg(
        command,
        required_arg(alloc, "STORE|KIND", "A store, or a format"),
    );
    let command = add_arg(command, second);
    let command = add_arg(command, solution_arg(alloc));
    add_arg(command, last)
}

// Returns a command with the arguments `KIND INSTANCE SOLUTION [routes]`.
fn paths_command<'a>(
    alloc: Global,
    name: &'a str,
    about: &'a str,
    answers: &'a str,
    kinds: &'a [&'a str],
) -> CommandResult<'a>
    ensures { IfOk result (IsLeafCommand (paths_app name.entry.now kinds.entry)) }
{
    let command = Ok(bare_command(alloc, name, about, answers));
    let command = add_arg(command, kind_arg(alloc, kinds));
    let command = add_arg(command, instance_arg(alloc));
    let command = add_arg(command, required_solution_arg(alloc));
    add_arg(command, routes_arg(alloc))
}

fn audits_command<'a>(alloc: Global, kinds: &'a [&'a str]) -> CommandResult<'a>
    ensures { IfOk result (IsLeafCommand (audits_app kinds.entry)) }
{
    let command = Ok(bare_command(alloc, "audits", AUDITS_ABOUT, AUDITS_ANSWERS));
    let command = add_arg(command, kind_arg(alloc, kinds));
    let command = add_arg(command, list_arg(alloc));
    add_arg(command, routes_arg(alloc))
}

fn solve_command<'a>(alloc: Global, kinds: &'a [&'a str]) -> CommandResult<'a>
    ensures { IfOk result (IsLeafCommand (solve_app kinds.entry)) }
{
    let command = Ok(bare_command(alloc, "solve", SOLVE_ABOUT, SOLVE_ANSWERS));
    let command = add_arg(command, kind_arg(alloc, kinds));
    let command = add_arg(command, instance_arg(alloc));
    let command = add_arg(command, required_arg(alloc, "STEPS", "The number of steps"));
    let command = add_arg(command, seed_arg(alloc));
    add_arg(command, deviation_arg(alloc))
}

fn solves_command<'a>(alloc: Global, kinds: &'a [&'a str]) -> CommandResult<'a>
    ensures { IfOk result (IsLeafCommand (solves_app kinds.entry)) }
{
    let command = Ok(bare_command(alloc, "solves", SOLVES_ABOUT, SOLVES_ANSWERS));
    let command = add_arg(command, kind_arg(alloc, kinds));
    let command = add_arg(command, list_arg(alloc));
    let command = add_arg(
        command,
        required_arg(alloc, "STEPS", "The number of steps for each instance"),
    );
    add_arg(command, seed_arg(alloc))
}

// Returns the argument for the kind of instance.
fn kind_arg<'a>(alloc: Global, kinds: &'a [&'a str]) -> Arg<'a>
    ensures { IsArg (kind_rule kinds.entry) result }
{
    required_arg(
        alloc,
        "KIND",
        "The format of the instance, and perhaps its scale",
    )
    .value_parser(kinds)
}

// Returns the argument for the mode of `run`.
fn mode_arg<'a>(alloc: Global, modes: &'a [&'a str]) -> Arg<'a>
    ensures { IsArg (mode_rule modes.entry) result }
{
    Arg::new(alloc, "strict")
        .help("Ends at the first answer `no` (status 1) or `fault device` (status 3)")
        .value_parser(modes)
}

fn instance_arg<'a>(alloc: Global) -> Arg<'a>
    ensures { IsArg (required_rule (codes "INSTANCE")) result }
{
    required_arg(
        alloc,
        "INSTANCE",
        "The file of the instance; - is standard input",
    )
}

fn required_solution_arg<'a>(alloc: Global) -> Arg<'a>
    ensures { IsArg (required_rule (codes "SOLUTION")) result }
{
    required_arg(
        alloc,
        "SOLUTION",
        "The file of the solution; - is standard input",
    )
}

fn list_arg<'a>(alloc: Global) -> Arg<'a>
    ensures { IsArg (required_rule (codes "LIST")) result }
{
    required_arg(alloc, "LIST", "The file of the list; - is standard input")
}

fn seed_arg<'a>(alloc: Global) -> Arg<'a>
    ensures { IsArg (new_rule (codes "SEED")) result }
{
    Arg::new(alloc, "SEED").help("The seed of all random choices; 0 if left out")
}

fn deviation_arg<'a>(alloc: Global) -> Arg<'a>
    ensures { IsArg (new_rule (codes "DEVIATION")) result }
{
    Arg::new(alloc, "DEVIATION").help(
        "For researchers: another search, whose working plan may be up to DEVIATION longer than the best plan",
    )
}

fn route_or_instance_arg<'a>(alloc: Global) -> Arg<'a>
    ensures { IsArg (new_rule (codes "ROUTE|INSTANCE")) result }
{
    Arg::new(alloc, "ROUTE|INSTANCE").help(
        "After a store, the number of one route; after a format, the instance",
    )
}

fn tabs_or_instance_arg<'a>(alloc: Global) -> Arg<'a>
    ensures { IsArg (new_rule (codes "tabs|INSTANCE")) result }
{
    Arg::new(alloc, "tabs|INSTANCE").help("After a store, `tabs`; after a format, the instance")
}

fn solution_arg<'a>(alloc: Global) -> Arg<'a>
    ensures { IsArg (new_rule (codes "SOLUTION")) result }
{
    Arg::new(alloc, "SOLUTION").help("The file of the solution; - is standard input")
}

fn route_arg<'a>(alloc: Global) -> Arg<'a>
    ensures { IsArg (new_rule (codes "ROUTE")) result }
{
    Arg::new(alloc, "ROUTE").help("Draws only the route with this number, counted from 1")
}

fn routes_arg<'a>(alloc: Global) -> Arg<'a>
    ensures { IsArg (new_rule (codes "routes")) result }
{
    Arg::new(alloc, "routes").help(
        "Checks only the routes: the cost line is not read, and may be missing",
    )
}

fn tabs_arg<'a>(alloc: Global) -> Arg<'a>
    ensures { IsArg (new_rule (codes "tabs")) result }
{
    Arg::new(alloc, "tabs").help("Separates fields by tabs, without headings")
}

// Returns a required argument.
fn required_arg<'a>(alloc: Global, name: &'a str, help: &'a str) -> Arg<'a>
    ensures { IsArg (required_rule name.entry.now) result }
{
    Arg::new(alloc, name).required(true).help(help)
}

// Adds an argument.
fn add_arg<'a>(command: CommandResult<'a>, required_arg: Arg<'a>) -> CommandResult<'a>
    ensures { (a : App) (r : Rule) → IfOk command.entry (IsLeafCommand a) → IsArg r required_arg.entry
        → IfOk result (IsLeafCommand (with_rule a r)) }
{
    command?.arg(required_arg)
}

// Adds a subcommand.
fn add_subcommand<'a>(above: CommandResult<'a>, command: CommandResult<'a>) -> CommandResult<'a>
    ensures { (a b : App) → IfOk above.entry (λ old. app_of old ≡ a)
        → IfOk command.entry (IsLeafCommand b)
        → IfOk result (λ new. app_of new ≡ with_subcommand a b.top) }
{
    above?.subcommand(command?)
}

/// Returns the error for arguments that the parser accepted, with the usage of their command. The cause is one
/// of these: an argument is not a number or is too large, the arguments of `timetable` or `draw` name neither a
/// store nor a solution, or the last argument of an audit is not `routes`.
pub(crate) fn bad_arguments(alloc: Global, matches: &ArgMatches<'_>) -> Result<Error, OutOfMemory>
    ensures { IfOk result (λ error. kind_of error ≡ ErrorKind.InvalidValue) }
{
    let kinds = kind_names();
    match matches.subcommand_name() {
        Some("audit") => refused(
            paths_command(alloc, "audit", AUDIT_ABOUT, AUDIT_ANSWERS, kinds),
            "planner audit",
            BAD_AUDIT,
        ),
        Some("audits") => refused(audits_command(alloc, kinds), "planner audits", BAD_AUDITS),
        Some("explain") => refused(
            paths_command(alloc, "explain", EXPLAIN_ABOUT, EXPLAIN_ANSWERS, kinds),
            "planner explain",
            BAD_AUDIT,
        ),
        Some("load") => refused(load_command(alloc, kinds), "planner load", BAD_SEED),
        Some("solves") => refused(solves_command(alloc, kinds), "planner solves", BAD_TASKS),
        Some("draw") => refused(draw_command(alloc), "planner draw", BAD_DRAWING),
        Some("timetable") => refused(timetable_command(alloc), "planner timetable", BAD_TIMETABLE),
        _ => refused(solve_command(alloc, kinds), "planner solve", BAD_STEPS),
    }
}

// Returns an error for this reason, with the usage of the subcommand of this name.
fn refused(command: CommandResult<'_>, name: &str, why: &str) -> Result<Error, OutOfMemory>
    ensures { IfOk result (λ error. kind_of error ≡ ErrorKind.InvalidValue) }
{
    command?.bin_name(name)?.error(ErrorKind::InvalidValue, why)
}
