//! The header and the tasks of a Li-Lim text, line by line. A customer in Solomon's format is read as a task
//! that names no other.
ghost use Rattle.std.specs.Prelude.{◌≡◌, pos, int_lt, if◌then◌else◌, slice_index_or};
ghost use Rattle.text_lines.specs.Words.{words_of};
ghost use Rattle.instance_read.specs.Fields.{field, passes_test, value_at};
ghost use Rattle.instance_read.specs.Lilim.{header_fault, header_limits, is_out_of_order, stop_fault};
ghost use Rattle.instance_read.specs.Pairs.{scaled_task, task_from};
ghost use Rattle.instance_read.specs.FieldValues.{numbers_fault};
ghost use Rattle.instance_read.specs.Tables.{IsHeader, IsScalable};
ghost use Rattle.instance_read.specs.TaskFaults.{AreStopLimits, ReadsValue};

use crate::ReadFaultKind;
use crate::field_limits::{HEADER, Limits};
use crate::fields::{has_no_number, next_values, range_kind, read_numbers};
use crate::scales::Scale;
use plan_types::Stop;
use plan_types::limits::MAX_STOP_NUMBER;
use text_lines::{Words, word_count};

/// The first line: fleet and capacity.
#[derive(Clone, Copy)]
pub struct FleetLine {
    pub fleet: u32,
    pub capacity: u32,
}

/// A task: a stop, and the two fields that name its pickup or its delivery.
#[derive(Clone, Copy)]
pub struct Task {
    /// The line number of the task in the text.
    pub line: u64,
    pub stop: Stop,
    /// The number of the task's pickup, or 0.
    pub pickup: u32,
    /// The number of the task's delivery, or 0.
    pub delivery: u32,
}

impl FleetLine {
    /// Reads the words of the first line.
    pub fn read(line: &[u8]) -> Result<FleetLine, ReadFaultKind>
        ensures { let words = words_of line.now in
            ReadsValue (header_fault words) (IsHeader words) result }
    {
        if word_count(line) != 3 {
            return Err(ReadFaultKind::FieldCount);
        }
        if has_no_number(line) {
            return Err(ReadFaultKind::BadNumber);
        }
        let Some(values) = next_values(&mut Words::new(line), &HEADER) else {
            return Err(ReadFaultKind::Range);
        };
        Ok(FleetLine {
            fleet: values[0].unsigned_abs(),
            capacity: values[1].unsigned_abs(),
        })
    }

    /// Reads the words of a line that has fleet and capacity only.
    pub fn read_two(line: &[u8]) -> Result<FleetLine, ReadFaultKind>
        ensures { let words = words_of line.now in
            ReadsValue (numbers_fault 2 header_limits words) (IsHeader words) result }
    {
        let values = read_numbers(line, &HEADER)?;
        Ok(FleetLine {
            fleet: values[0].unsigned_abs(),
            capacity: values[1].unsigned_abs(),
        })
    }
}

impl Task {
    /// Reads the words of a line with a stop: a Li-Lim task, or a customer in Solomon's format. `limits` are
    /// those of its fields, and `previous` is the task of the line before it. Without the fields `pickup` and
    /// `delivery`, the task names no other.
    pub fn read<const N: usize>(
        scale: Scale,
        limits: &[Limits; N],
        previous: Option<Task>,
        number: u64,
        line: &[u8],
    ) -> Result<Task, ReadFaultKind>
        requires limits { AreStopLimits scale limits.now }
        ensures { let words = words_of line.now in
            ReadsValue (stop_fault limits.now previous words)
            (λ task. task ≡ scaled_task scale (task_from number (value_at words))) result }
    {
        let values = match read_numbers(line, limits) {
            Ok(values) => values,
            Err(ReadFaultKind::Range) => return Err(range_kind(line, MAX_STOP_NUMBER)),
            Err(kind) => return Err(kind),
        };
        let task = Task::from_values(number, &values);
        if is_out_of_order(previous, task.stop.number) {
            return Err(ReadFaultKind::TaskOrder);
        }
        if task.stop.latest < task.stop.earliest {
            return Err(ReadFaultKind::EmptyWindow);
        }
        Ok(task.scaled(scale))
    }

    // Returns the task with its coordinates, its time window and its service time times the scale.
    fn scaled(self, scale: Scale) -> Task
        requires { IsScalable scale self.stop }
        ensures { result ≡ scaled_task scale self }
    {
        let stop = Stop {
            x: scale.times_signed(self.stop.x),
            y: scale.times_signed(self.stop.y),
            earliest: scale.times(self.stop.earliest),
            latest: scale.times(self.stop.latest),
            service: scale.times(self.stop.service),
            ..self.stop
        };
        Task { stop, ..self }
    }

    #[inline(always)]
    fn from_values(line: u64, values: &[i32]) -> Task
        ensures { result ≡ task_from line (λ k. slice_index_or values.now k (pos 0)) }
    {
        Task {
            line,
            stop: Stop {
                number: value_or_zero(values, 0).unsigned_abs(),
                x: value_or_zero(values, 1),
                y: value_or_zero(values, 2),
                demand: value_or_zero(values, 3),
                earliest: value_or_zero(values, 4).unsigned_abs(),
                latest: value_or_zero(values, 5).unsigned_abs(),
                service: value_or_zero(values, 6).unsigned_abs(),
            },
            pickup: value_or_zero(values, 7).unsigned_abs(),
            delivery: value_or_zero(values, 8).unsigned_abs(),
        }
    }
}

// Returns the value at this place, or 0 if there is none.
#[inline(always)]
fn value_or_zero(values: &[i32], place: usize) -> i32
    ensures { result ≡ slice_index_or values.now place (pos 0) }
{
    values.get(place).copied().unwrap_or(0)
}

fn is_out_of_order(previous: Option<Task>, number: u32) -> bool
    ensures { result ≡ is_out_of_order previous (pos number) }
{
    match previous {
        None => number != 0,
        Some(task) => number <= task.stop.number,
    }
}
