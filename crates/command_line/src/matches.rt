//! Converts the arguments that `clap` matched to the invocation.
ghost use Rattle.std.specs.Prelude.{◌≡◌, option_and_then, option_map};
ghost use Rattle.clap.specs.Words.{first_of, found_of, rows_of, subcommand_rows_of};
ghost use Rattle.text_lines.specs.Numbers.{integer_of};
ghost use Rattle.instance_read.specs.Formats.{format_named};
ghost use Rattle.command_line.specs.Invocations.{adopt_in, as_u64, invocation_value, audit, explain, audit_in, paths_from, paths_in, paths_of, run_in, audits_in, load_in, load_of, deviation_or_none, draw_in, flag_named, route_or_none, seed_in, seed_named, steps_named, store_draw_from, store_timetable_from, solve_in, task_of, solves_in, tasks_of, timetable_in, matched_command, matched_other_command, matched_invocation, matched_store_command, upgrade_in};

use crate::arguments::{Invocation, LoadArgs, Paths, SolveArgs, SolvesArgs};
use clap::ArgMatches;
use instance_read::Format;
use plan_types::limits::{MAX_DEVIATION, MAX_REQUESTED_STEPS};
use text_lines::{Number, digits_to_u32};

/// Returns the invocation, or `None` if an argument is missing, or is not a kind or a number.
pub(crate) fn parse_matches<'a>(matches: &ArgMatches<'a>) -> Option<Invocation<'a>>
    ensures { option_map invocation_value result ≡ matched_invocation (subcommand_rows_of matches.now) }
{
    match matches.subcommand() {
        Some((name, words)) => parse_command(name, words),
        None => Some(Invocation::BuiltIn),
    }
}

// Reads the arguments after a command's name.
fn parse_command<'a>(name: &str, words: &ArgMatches<'a>) -> Option<Invocation<'a>>
    ensures { option_map invocation_value result ≡ matched_command name.now (rows_of (found_of words.now)) }
{
    match name {
        "audit" => parse_audit(words),
        "explain" => parse_explain(words),
        _ => parse_other_command(name, words),
    }
}

// Reads the arguments of `audit`. Returns `None` if an argument is missing or is not a kind, or if the last one
// is not `routes`.
fn parse_audit<'a>(matches: &ArgMatches<'a>) -> Option<Invocation<'a>>
    ensures { option_map invocation_value result ≡ audit_in audit (rows_of (found_of matches.now)) }
{
    let paths = parse_paths(matches)?;
    let routes_alone = parse_flag("routes", value_of(matches, "routes"))?;
    Some(Invocation::Audit {
        paths,
        routes_alone,
    })
}

// Like `parse_audit`, for `explain`.
fn parse_explain<'a>(matches: &ArgMatches<'a>) -> Option<Invocation<'a>>
    ensures { option_map invocation_value result ≡ audit_in explain (rows_of (found_of matches.now)) }
{
    let paths = parse_paths(matches)?;
    let routes_alone = parse_flag("routes", value_of(matches, "routes"))?;
    Some(Invocation::Explain {
        paths,
        routes_alone,
    })
}

// Reads the arguments of a command whose arguments are not `KIND INSTANCE SOLUTION [routes]`.
fn parse_other_command<'a>(name: &str, words: &ArgMatches<'a>) -> Option<Invocation<'a>>
    ensures { option_map invocation_value result ≡ matched_other_command name.now (rows_of (found_of words.now)) }
{
    match name {
        "audits" => parse_audits(words),
        "solve" => Some(Invocation::Solve(parse_solve(words)?)),
        "solves" => Some(Invocation::Solves(parse_solves(words)?)),
        "draw" => parse_draw(words),
        "timetable" => parse_timetable(words),
        _ => parse_store_command(name, words),
    }
}

// Reads the arguments of `format`, `load`, `run`, `adopt`, `instance`, `check` or `upgrade`.
fn parse_store_command<'a>(name: &str, words: &ArgMatches<'a>) -> Option<Invocation<'a>>
    ensures { option_map invocation_value result ≡ matched_store_command name.now (rows_of (found_of words.now)) }
{
    match name {
        "format" => Some(Invocation::Format {
            store: value_of(words, "STORE")?,
        }),
        "load" => Some(Invocation::Load(parse_load(words)?)),
        "adopt" => parse_adopt(words),
        "instance" => Some(Invocation::StoreInstance {
            store: value_of(words, "STORE")?,
        }),
        "check" => Some(Invocation::Check {
            store: value_of(words, "STORE")?,
        }),
        "upgrade" => parse_upgrade(words),
        _ => parse_run(words),
    }
}

// Reads the arguments of `run`. Returns `None` if the path is missing, or if the argument after it is not
// `strict`.
fn parse_run<'a>(matches: &ArgMatches<'a>) -> Option<Invocation<'a>>
    ensures { option_map invocation_value result ≡ run_in (rows_of (found_of matches.now)) }
{
    let store = value_of(matches, "STORE")?;
    let is_strict = parse_flag("strict", value_of(matches, "strict"))?;
    Some(Invocation::Run { store, is_strict })
}

// Reads the arguments of `adopt`. Returns `None` if a path is missing.
fn parse_adopt<'a>(matches: &ArgMatches<'a>) -> Option<Invocation<'a>>
    ensures { option_map invocation_value result ≡ adopt_in (rows_of (found_of matches.now)) }
{
    let store = value_of(matches, "STORE")?;
    let solution = value_of(matches, "SOLUTION")?;
    Some(Invocation::Adopt { store, solution })
}

// Reads the arguments of `upgrade`. Returns `None` if a path is missing.
fn parse_upgrade<'a>(matches: &ArgMatches<'a>) -> Option<Invocation<'a>>
    ensures { option_map invocation_value result ≡ upgrade_in (rows_of (found_of matches.now)) }
{
    let old = value_of(matches, "OLD")?;
    let new = value_of(matches, "NEW")?;
    Some(Invocation::Upgrade { old, new })
}

// Reads the arguments of `timetable`: one or two for a store, three or four for a solution. Returns `None` if
// they fit neither.
fn parse_timetable<'a>(matches: &ArgMatches<'a>) -> Option<Invocation<'a>>
    ensures { option_map invocation_value result ≡ timetable_in (rows_of (found_of matches.now)) }
{
    let first = value_of(matches, "STORE|KIND")?;
    let second = value_of(matches, "tabs|INSTANCE");
    match value_of(matches, "SOLUTION") {
        None => store_timetable(first, second),
        Some(solution) => {
            let paths = paths_named(first, second?, solution)?;
            let is_tabbed = parse_flag("tabs", value_of(matches, "tabs"))?;
            Some(Invocation::Timetable { paths, is_tabbed })
        }
    }
}

// Reads the arguments of `draw`: one or two for a store, three or four for a solution. Returns `None` if they
// fit neither.
fn parse_draw<'a>(matches: &ArgMatches<'a>) -> Option<Invocation<'a>>
    ensures { option_map invocation_value result ≡ draw_in (rows_of (found_of matches.now)) }
{
    let first = value_of(matches, "STORE|KIND")?;
    let second = value_of(matches, "ROUTE|INSTANCE");
    match value_of(matches, "SOLUTION") {
        None => parse_store_drawing(first, second),
        Some(solution) => {
            let paths = paths_named(first, second?, solution)?;
            let route = parse_route(value_of(matches, "ROUTE"))?;
            Some(Invocation::Draw { paths, route })
        }
    }
}

// Reads the arguments of `draw` for a store. Returns `None` if the last one is not a number.
fn parse_store_drawing<'a>(store: &'a str, last: Option<&str>) -> Option<Invocation<'a>>
    ensures { option_map invocation_value result
        ≡ store_draw_from store.now (option_map (λ w. w.now) last.entry) }
{
    let route = parse_route(last)?;
    Some(Invocation::DrawStore { store, route })
}

// Reads the number of a route. Returns `Some(None)` if there is no argument, or `None` if it is not a number.
fn parse_route(word: Option<&str>) -> Option<Option<u32>>
    ensures { result ≡ route_or_none (option_map (λ w. w.now) word.entry) }
{
    match word {
        None => Some(None),
        Some(word) => Some(Some(digits_to_u32(word.as_bytes())?)),
    }
}

// Reads the arguments of `timetable` for a store. Returns `None` if the last one is not `tabs`.
fn store_timetable<'a>(store: &'a str, last: Option<&str>) -> Option<Invocation<'a>>
    ensures { option_map invocation_value result
        ≡ store_timetable_from store.now (option_map (λ w. w.now) last.entry) }
{
    let is_tabbed = parse_flag("tabs", last)?;
    Some(Invocation::StoreTimetable { store, is_tabbed })
}

// Returns whether the argument is given, or `None` if it is another word than `name`.
fn parse_flag(name: &str, word: Option<&str>) -> Option<bool>
    ensures { result ≡ flag_named name.now (option_map (λ w. w.now) word.entry) }
{
    match word {
        None => Some(false),
        Some(word) if word == name => Some(true),
        Some(_) => None,
    }
}

// Returns the value of the argument with this name, or `None` if there is none.
fn value_of<'a>(matches: &ArgMatches<'a>, name: &str) -> Option<&'a str>
    ensures { option_map (λ word. word.now) result
        ≡ first_of name.now (rows_of (found_of matches.now)) }
{
    matches.get_str(name)
}

// Reads `KIND INSTANCE SOLUTION`. Returns `None` if an argument is missing or is not a kind.
fn parse_paths<'a>(matches: &ArgMatches<'a>) -> Option<Paths<'a>>
    ensures { option_map paths_of result ≡ paths_in (rows_of (found_of matches.now)) }
{
    let kind = value_of(matches, "KIND")?;
    let instance = value_of(matches, "INSTANCE")?;
    let solution = value_of(matches, "SOLUTION")?;
    paths_named(kind, instance, solution)
}

// Returns the two paths with the format of their instance, or `None` if the first argument is not a kind.
fn paths_named<'a>(kind: &str, instance: &'a str, solution: &'a str) -> Option<Paths<'a>>
    ensures { option_map paths_of result ≡ paths_from kind.now instance.now solution.now }
{
    let format = parse_format(kind)?;
    Some(Paths {
        format,
        instance,
        solution,
    })
}

// Reads the arguments of `audits`. Returns `None` if an argument is missing or is not a kind, or if the last
// one is not `routes`.
fn parse_audits<'a>(matches: &ArgMatches<'a>) -> Option<Invocation<'a>>
    ensures { option_map invocation_value result ≡ audits_in (rows_of (found_of matches.now)) }
{
    let format = parse_format(value_of(matches, "KIND")?)?;
    let list = value_of(matches, "LIST")?;
    let routes_alone = parse_flag("routes", value_of(matches, "routes"))?;
    Some(Invocation::Audits {
        format,
        list,
        routes_alone,
    })
}

// Reads the arguments of `solve`. Returns `None` if an argument is missing, or is not a kind or a number.
fn parse_solve<'a>(matches: &ArgMatches<'a>) -> Option<SolveArgs<'a>>
    ensures { option_map task_of result ≡ solve_in (rows_of (found_of matches.now)) }
{
    Some(SolveArgs {
        format: parse_format(value_of(matches, "KIND")?)?,
        instance: value_of(matches, "INSTANCE")?,
        steps: parse_steps(value_of(matches, "STEPS")?)?,
        seed: seed_or_zero(matches)?,
        deviation: parse_deviation(value_of(matches, "DEVIATION"))?,
    })
}

// Reads the arguments of `solves`. Returns `None` if an argument is missing, or is not a kind or a number.
fn parse_solves<'a>(matches: &ArgMatches<'a>) -> Option<SolvesArgs<'a>>
    ensures { option_map tasks_of result ≡ solves_in (rows_of (found_of matches.now)) }
{
    Some(SolvesArgs {
        format: parse_format(value_of(matches, "KIND")?)?,
        list: value_of(matches, "LIST")?,
        steps: parse_steps(value_of(matches, "STEPS")?)?,
        seed: seed_or_zero(matches)?,
    })
}

// Reads the arguments of `load`. Returns `None` if an argument is missing, or is not a kind or a number.
fn parse_load<'a>(matches: &ArgMatches<'a>) -> Option<LoadArgs<'a>>
    ensures { option_map load_of result ≡ load_in (rows_of (found_of matches.now)) }
{
    Some(LoadArgs {
        store: value_of(matches, "STORE")?,
        format: parse_format(value_of(matches, "KIND")?)?,
        instance: value_of(matches, "INSTANCE")?,
        seed: seed_or_zero(matches)?,
    })
}

fn parse_format(word: &str) -> Option<Format>
    ensures { result ≡ format_named word.now }
{
    Format::named(word.as_bytes())
}

fn parse_steps(word: &str) -> Option<u32>
    ensures { result ≡ steps_named word.now }
{
    let steps = digits_to_u32(word.as_bytes())?;
    if u64::from(steps) > MAX_REQUESTED_STEPS {
        return None;
    }
    Some(steps)
}

// Reads the deviation. Returns `Some(None)` if there is no argument, or `None` if it is not a deviation.
fn parse_deviation(word: Option<&str>) -> Option<Option<u32>>
    ensures { result ≡ deviation_or_none (option_map (λ w. w.now) word.entry) }
{
    let word = match word {
        Some(word) => word,
        None => return Some(None),
    };
    let deviation = digits_to_u32(word.as_bytes())?;
    if deviation > MAX_DEVIATION {
        return None;
    }
    Some(Some(deviation))
}

// Reads the seed, which is 0 if there is no argument. Returns `None` if it is not a number.
fn seed_or_zero(matches: &ArgMatches<'_>) -> Option<u64>
    ensures { result ≡ seed_in (rows_of (found_of matches.now)) }
{
    match value_of(matches, "SEED") {
        Some(word) => parse_seed(word),
        None => Some(0),
    }
}

fn parse_seed(word: &str) -> Option<u64>
    ensures { result ≡ seed_named word.now }
{
    seed_named(word.as_bytes())
}

fn seed_named(word: &[u8]) -> Option<u64>
    ensures { result ≡ seed_named word.now }
{
    match word {
        [] | [b'-', ..] => None,
        _ => unsigned(word),
    }
}

fn unsigned(word: &[u8]) -> Option<u64>
    ensures { result ≡ option_and_then as_u64 (integer_of word.now) }
{
    match Number::parse_integer(word) {
        Some(number) => number.to_u64(),
        None => None,
    }
}
