//! The subcommand `solves`: solves a list of instances, each into a file of its own.
//!
//! If a file already exists at the path of a solution, a line says so before the instance is read, so that no
//! search is wasted. A plan is audited before it is written, so that the audit of a written plan can always be
//! printed, even if memory is short.
ghost use Rattle.std.specs.Prelude.{◌≤◌, IfOk};
ghost use Rattle.command_line.specs.Invocations.{tasks_of};
ghost use Rattle.auditor_cli.specs.Audits.{PrintsLine, PrintsLines};
ghost use Rattle.auditor_cli.specs.Reads.{IsGrown, IsReadFirst};
ghost use Rattle.planner_cli.specs.Solves.{AreGrown, Ends, Finds, HasStatus, IsAuditOf, IsSolvedLine, Places, PlacesAudited, SolvesList, PrintsTask, PrintsPlaced, file_effects};

use crate::solve::{print_solve_fault, print_unplanned};
use auditor_cli::status::{BROKEN, DONE};
use auditor_cli::{
    AuditAnswer, ReadFiles, WriteFiles, audit_in_format, pair_of, print_bad_line,
    print_ignored_limit, print_read_failure, print_write_failure, worse_status, write_line,
};
use command_line::SolvesArgs;
use plan_solve::{SolveFault, SolvedPlan, solve};
use plan_types::OutOfMemory;
use std::alloc::Global;
use std::io;
use std::io::Write;
use text_lines::Lines;

/// Reads a list, and solves the instance of each line into the new file that the line names. Returns the worst
/// status. Prints a note on `errors` for each instance that names a limit that is ignored.
pub(crate) fn solve_list<F: ReadFiles, N: WriteFiles, W: Write, E: Write>(
    alloc: Global,
    tasks: SolvesArgs,
    files: &mut F,
    new_files: &mut N,
    output: &mut W,
    errors: &mut E,
) -> io::Result<u8>
    ensures status { IfOk result (λ status. status ≤ 4) }
    ensures reads { IsReadFirst tasks.entry.list.now (F.reads files.old) (F.reads files.new) }
    ensures makes { IsGrown (N.writes new_files.old) (N.writes new_files.new) }
    ensures reported { IfOk result (SolvesList (tasks_of tasks.entry)
        (file_effects F.reads N.writes E.contents files.old new_files.old errors.old)
        (file_effects F.reads N.writes E.contents files.new new_files.new errors.new)
        (W.contents output.old) (W.contents output.new)) }
{
    match files.read(tasks.list) {
        Ok(text) => {
            let solver = Solver { alloc, tasks };
            solver.solve_lines(Lines::new(&text), files, new_files, output, errors)
        }
        Err(error) => print_read_failure(output, tasks.list, error.kind()),
    }
}

// The arguments of `solves`, which are the same for every line of the list.
#[derive(Clone, Copy)]
struct Solver<'a> {
    alloc: Global,
    tasks: SolvesArgs<'a>,
}

impl Solver<'_> {
    // Solves the instances of the lines one by one, and prints each result before the next search begins.
    fn solve_lines<F: ReadFiles, N: WriteFiles, W: Write, E: Write>(
        &self,
        lines: Lines<'_>,
        files: &mut F,
        new_files: &mut N,
        output: &mut W,
        errors: &mut E,
    ) -> io::Result<u8>
        ensures status { IfOk result (λ status. status ≤ 4) }
        ensures does { Ends AreGrown
            (PrintsLines (IsSolvedLine (tasks_of self.now.tasks)) lines.entry)
            (file_effects F.reads N.writes E.contents files.old new_files.old errors.old)
            (file_effects F.reads N.writes E.contents files.new new_files.new errors.new)
            (W.contents output.old) (W.contents output.new) result }
    {
        let mut greatest = DONE;
        for line in lines {
            let status = self.solve_line(line, files, new_files, output, errors)?;
            greatest = worse_status(greatest, status);
        }
        Ok(greatest)
    }

    // Solves the instance that the line names, prints the result and flushes it.
    fn solve_line<F: ReadFiles, N: WriteFiles, W: Write, E: Write>(
        &self,
        line: &[u8],
        files: &mut F,
        new_files: &mut N,
        output: &mut W,
        errors: &mut E,
    ) -> io::Result<u8>
        ensures status { IfOk result (λ status. status ≤ 4) }
        ensures does { Ends AreGrown (PrintsLine (IsSolvedLine (tasks_of self.now.tasks)) line.now)
            (file_effects F.reads N.writes E.contents files.old new_files.old errors.old)
            (file_effects F.reads N.writes E.contents files.new new_files.new errors.new)
            (W.contents output.old) (W.contents output.new) result }
    {
        let status = self.solve_named(line, files, new_files, output, errors)?;
        output.flush()?;
        Ok(status)
    }

    // Solves the instance that the line names and prints the result.
    fn solve_named<F: ReadFiles, N: WriteFiles, W: Write, E: Write>(
        &self,
        line: &[u8],
        files: &mut F,
        new_files: &mut N,
        output: &mut W,
        errors: &mut E,
    ) -> io::Result<u8>
        ensures status { IfOk result (λ status. status ≤ 4) }
        ensures does { Ends AreGrown (PrintsLine (IsSolvedLine (tasks_of self.now.tasks)) line.now)
            (file_effects F.reads N.writes E.contents files.old new_files.old errors.old)
            (file_effects F.reads N.writes E.contents files.new new_files.new errors.new)
            (W.contents output.old) (W.contents output.new) result }
    {
        let (instance, path) = match pair_of(line) {
            Some(pair) => pair,
            None => return print_bad_line(output),
        };
        write!(output, "{instance}\t{path}\t")?;
        self.solve_into(instance, path, files, new_files, output, errors)
    }

    // Solves the instance into a new file at the path.
    fn solve_into<F: ReadFiles, N: WriteFiles, W: Write, E: Write>(
        &self,
        instance: &str,
        path: &str,
        files: &mut F,
        new_files: &mut N,
        output: &mut W,
        errors: &mut E,
    ) -> io::Result<u8>
        ensures status { IfOk result (λ status. status ≤ 4) }
        ensures does { Ends AreGrown (PrintsTask (tasks_of self.now.tasks) instance.now path.now)
            (file_effects F.reads N.writes E.contents files.old new_files.old errors.old)
            (file_effects F.reads N.writes E.contents files.new new_files.new errors.new)
            (W.contents output.old) (W.contents output.new) result }
    {
        match new_files.check_new(path) {
            Ok(()) => self.solve_file(instance, path, files, new_files, output, errors),
            Err(error) => print_write_failure(output, path, error.kind()),
        }
    }

    // Reads and solves the instance, and writes the plan to the path. Prints a note if the instance names a
    // limit that is ignored.
    fn solve_file<F: ReadFiles, N: WriteFiles, W: Write, E: Write>(
        &self,
        instance: &str,
        path: &str,
        files: &mut F,
        new_files: &mut N,
        output: &mut W,
        errors: &mut E,
    ) -> io::Result<u8>
        ensures status { IfOk result (λ status. status ≤ 4) }
        ensures does { Ends AreGrown (PrintsTask (tasks_of self.now.tasks) instance.now path.now)
            (file_effects F.reads N.writes E.contents files.old new_files.old errors.old)
            (file_effects F.reads N.writes E.contents files.new new_files.new errors.new)
            (W.contents output.old) (W.contents output.new) result }
    {
        let text = match files.read(instance) {
            Ok(text) => text,
            Err(error) => return print_read_failure(output, instance, error.kind()),
        };
        print_ignored_limit(self.tasks.format, instance, &text, errors)?;
        let found = self.find(&text);
        let reported = self.place(&text, path, &found, new_files, output);
        drop(found);
        reported
    }

    // Solves the instance. Progress is not printed.
    fn find(&self, text: &[u8]) -> Result<SolvedPlan, SolveFault>
        ensures { Finds (tasks_of self.now.tasks) text.now result }
    {
        let mut progress = io::sink();
        solve(
            self.alloc,
            self.tasks.format,
            text,
            self.tasks.seed,
            self.tasks.steps,
            None,
            &mut progress,
        )
    }

    // Writes the plan that was found and prints its line, or prints why there is none.
    fn place<N: WriteFiles, W: Write>(
        &self,
        instance: &[u8],
        path: &str,
        found: &Result<SolvedPlan, SolveFault>,
        new_files: &mut N,
        output: &mut W,
    ) -> io::Result<u8>
        ensures status { IfOk result (λ status. status ≤ 4) }
        ensures does { Ends IsGrown (Places self.now.tasks.format instance.now path.now found.now)
            (N.writes new_files.old) (N.writes new_files.new)
            (W.contents output.old) (W.contents output.new) result }
    {
        match found {
            Ok(solved) => self.place_plan(instance, path, solved, new_files, output),
            Err(fault) => print_solve_fault(*fault, output),
        }
    }

    // Writes the plan. Prints its audit, or the requests that it leaves out.
    fn place_plan<N: WriteFiles, W: Write>(
        &self,
        instance: &[u8],
        path: &str,
        solved: &SolvedPlan,
        new_files: &mut N,
        output: &mut W,
    ) -> io::Result<u8>
        ensures status { IfOk result (λ status. status ≤ 4) }
        ensures does { Ends IsGrown
            (Places self.now.tasks.format instance.now path.now (Ok solved.now))
            (N.writes new_files.old) (N.writes new_files.new)
            (W.contents output.old) (W.contents output.new) result }
    {
        match self.audit_solution(instance, solved) {
            Ok(audited) => write_plan(path, solved, &audited, new_files, output),
            Err(_) => print_solve_fault(SolveFault::OutOfMemory, output),
        }
    }

    // Returns the audit of a plan, if the plan leaves no request out.
    fn audit_solution(
        &self,
        instance: &[u8],
        solved: &SolvedPlan,
    ) -> Result<Option<AuditAnswer>, OutOfMemory>
        ensures status { IfOk result HasStatus }
        ensures audited { IfOk result (IsAuditOf self.now.tasks.format instance.now
            solved.now.text.items solved.now.unplanned.items) }
    {
        if !solved.unplanned.is_empty() {
            return Ok(None);
        }
        let answer = audit_in_format(self.alloc, self.tasks.format, instance, &solved.text)?;
        Ok(Some(answer))
    }
}

// Writes the plan. Prints its audit `audited`, or the requests that it leaves out.
fn write_plan<N: WriteFiles, W: Write>(
    path: &str,
    solved: &SolvedPlan,
    audited: &Option<AuditAnswer>,
    new_files: &mut N,
    output: &mut W,
) -> io::Result<u8>
    requires { HasStatus audited.now }
    ensures status { IfOk result (λ status. status ≤ 4) }
    ensures does { Ends IsGrown (PlacesAudited path.now solved.now audited.now)
        (N.writes new_files.old) (N.writes new_files.new)
        (W.contents output.old) (W.contents output.new) result }
{
    match new_files.write_new(path, &solved.text) {
        Ok(()) => print_placed(audited, &solved.unplanned, output),
        Err(error) => print_write_failure(output, path, error.kind()),
    }
}

// Prints the audit of a plan, or the requests that the plan leaves out.
fn print_placed<W: Write>(
    audited: &Option<AuditAnswer>,
    names: &[u32],
    output: &mut W,
) -> io::Result<u8>
    requires { HasStatus audited.now }
    ensures status { IfOk result (λ status. status ≤ 4) }
    ensures reported { IfOk result (PrintsPlaced audited.now names.now (W.contents output.old)
        (W.contents output.new)) }
{
    match audited {
        Some(answer) => {
            write_line(output, answer.line.as_bytes())?;
            Ok(answer.status)
        }
        None => {
            print_unplanned(output, names)?;
            Ok(BROKEN)
        }
    }
}
