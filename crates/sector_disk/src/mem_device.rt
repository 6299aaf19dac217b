//! A device in memory that can crash anywhere: it keeps a list of its writes and syncs.
//!
//! A crash replays the writes up to the last sync. Then it writes into each sector one of the contents that are
//! possible there, as chosen by the test. The results of a call, including failures by `fuse`, by `fail_once`
//! or because memory runs out, are specified at `try_read`, `try_write` and `try_sync`. The methods of
//! `Sectors` call these three, and have the contracts of the trait.
//!
//! - A write or sync that runs out of memory changes only `faults`, and does not advance `fuse` or `fail_once`.
//! - A write that fails only because `calls` has reached 2^64-1 adds no content.
//! - Setting a fuse again restarts its count.
ghost use Rattle.std.specs.Prelude.{◌≡◌, ◌+◌, ◌-◌, ◌*◌, ◌/◌, ◌%◌, ◌^◌, ◌<◌, ◌≤◌, ◌≢◌, ◌↔◌, ◌++◌, ◌∷◌, [], List, ℕ, length, map, take, drop, slice_get, slice_index, Some, None, OnOk, OnErr, IfOk, IfSome, IsErr, IsTrue, false, if◌then◌else◌};
ghost use Rattle.std.specs.Option.{option_copied};
ghost use Rattle.std.specs.List.{flat_map, filter_map, list_all};
ghost use Rattle.sector_disk.specs.Image.{sector, written};
ghost use Rattle.sector_disk.specs.Model.{settled, run};
ghost use Rattle.sector_disk.specs.Memory.{Wrote, Tore, Synced, TakesChoices, all_fit, events_of, is_now, one_less, one_less_or_none};
ghost use Rattle.sector_disk.specs.Consistency.{call_of, IsConsistent};
ghost use Rattle.sector_disk.specs.Crash.{part_of, content_of, is_write, chosen, IsSettledBy};

use crate::{DeviceFault, OutOfMemory, SECTOR_SIZE, Sectors};
use std::alloc::{AllocError, Global};

/// A write or a sync in the history.
#[derive(Drop)]
enum Call {
    Write { first: u64, bytes: Vec<u8> },
    /// A failed write. A crash may leave its contents nevertheless.
    Torn { first: u64, bytes: Vec<u8> },
    Sync,
}

/// A device in memory. It is always honest. A call fails only by `fuse`, by `fail_once`, if memory runs out, or
/// if 2^64-1 writes and syncs have finished.
#[derive(Drop)]
pub struct MemDevice {
    alloc: Global,
    /// The content when the device was created or last crashed.
    start: Vec<u8>,
    /// The bytes that reads return.
    image: Vec<u8>,
    /// The writes and syncs since the device was created or last crashed.
    history: Vec<Call>,
    calls: u64,
    faults: u64,
    /// The number of writes and syncs that still finish before every call fails.
    fuse: Option<u64>,
    /// Whether a write has failed by the fuse.
    torn: bool,
    /// The number of calls that still come before the single one that fails.
    once: Option<u64>,
    ghost kept: { IsConsistent start.items image.items history.items },
}

fn is_now(left: Option<u64>) -> bool
    ensures { result ≡ is_now left }
{
    left == Some(0)
}

fn one_less(left: Option<u64>) -> Option<u64>
    ensures { result ≡ one_less left }
{
    left.map(|k| k.saturating_sub(1))
}

fn one_less_or_none(left: Option<u64>) -> Option<u64>
    ensures { result ≡ one_less_or_none left }
{
    match left {
        Some(0) | None => None,
        Some(k) => Some(k - 1),
    }
}

// Reads a run of sectors of the image.
fn get(image: &[u8], first: u64, into: &mut [u8])
    requires { 512 * first + length into.old ≤ length image.now }
    ensures { into.new ≡ take (length into.old) (drop (512 * first) image.now) }
{
    let at = first as usize * SECTOR_SIZE;
    into.copy_from_slice(&image[at..at + into.len()]);
}

// Writes a run of sectors of the image.
fn put(image: &mut [u8], first: u64, bytes: &[u8])
    requires { 512 * first + length bytes.now ≤ length image.old }
    ensures { image.new ≡ written first bytes.now image.old }
{
    let at = first as usize * SECTOR_SIZE;
    image[at..at + bytes.len()].copy_from_slice(bytes);
}

// Adds a write to the history.
fn keep_write(
    alloc: Global,
    history: &mut Vec<Call>,
    first: u64,
    bytes: &[u8],
    is_torn: bool,
) -> Result<(), AllocError>
    ensures ok { OnOk result (map call_of history.new.items ≡ map call_of history.old.items
        ++ (if is_torn then Tore first bytes.now else Wrote first bytes.now) ∷ []) }
    ensures err { OnErr result (history.new.items ≡ history.old.items) }
{
    let bytes = bytes.to_vec(alloc)?;
    let call = if is_torn {
        Call::Torn { first, bytes }
    } else {
        Call::Write { first, bytes }
    };
    history.push(call)?;
    Ok(())
}

// Adds a sync to the history.
fn keep_sync(history: &mut Vec<Call>) -> Result<(), AllocError>
    ensures ok { OnOk result (map call_of history.new.items ≡ map call_of history.old.items
        ++ Synced ∷ []) }
    ensures err { OnErr result (history.new.items ≡ history.old.items) }
{
    history.push(Call::Sync)?;
    Ok(())
}

impl MemDevice {
    ghost use Rattle.std.specs.Prelude.{replicate};
    ghost use Rattle.sector_disk.specs.Model.{CrashesTo};
    ghost use Rattle.sector_disk.specs.Sectors.{Only, IsWholeRun};
    ghost use Rattle.sector_disk.specs.MemDevice.{memory};
    ghost use Rattle.sector_disk.specs.Memory.{fresh, len_of, disk_of, seen_of, MayLeave, IsSameDevice, KeepsCounts, is_due, is_refused, tears, failed, read_of, write_of, sync_of, with_fault, HasOutcome, HasOutcomeOrNoMemory, Crashes};

    /// Creates a device of zeros.
    pub fn new(alloc: Global, sectors: u64) -> Result<MemDevice, OutOfMemory>
        ensures fresh { IfOk result (λ device. memory device ≡ fresh sectors) }
        ensures len { IfOk result (λ device. len_of (memory device) ≡ sectors) }
        ensures zeros { IfOk result (λ device. seen_of (memory device)
            ≡ replicate (512 * sectors) 0) }
        ensures only { IfOk result (λ device.
            Only (seen_of (memory device)) (MayLeave (memory device))) }
    {
        let Some(len) = (sectors as usize).checked_mul(SECTOR_SIZE) else {
            return Err(AllocError);
        };
        Ok(MemDevice {
            alloc,
            start: vec![in alloc; 0; len]?,
            image: vec![in alloc; 0; len]?,
            history: Vec::new(alloc),
            calls: 0,
            faults: 0,
            fuse: None,
            torn: false,
            once: None,
        })
    }

    /// Makes every call fail after `k` more finished writes and syncs, until the device is crashed or revived.
    /// A crash may leave the contents of the first write that fails this way.
    pub fn fuse(&mut self, k: u64)
        ensures set { memory self.new ≡ record (memory self.old) { fuse = Some k; torn = false } }
        ensures same { IsSameDevice (memory self.old) (memory self.new) }
    {
        self.fuse = Some(k);
        self.torn = false;
    }

    /// Makes the call after the next `k` calls of any kind fail. If it is a write, a crash may leave its
    /// contents.
    pub fn fail_once(&mut self, k: u64)
        ensures set { memory self.new ≡ record (memory self.old) { once = Some k } }
        ensures same { IsSameDevice (memory self.old) (memory self.new) }
    {
        self.once = Some(k);
    }

    /// Removes the fuse and the failure of `fail_once`, and changes nothing else: the process was killed, but
    /// its device was not. A crash may leave what it might have left before.
    pub fn revive(&mut self)
        ensures set { memory self.new ≡ record (memory self.old) {
          fuse = None;
          torn = false;
          once = None;
        } }
        ensures same { IsSameDevice (memory self.old) (memory self.new) }
    {
        self.fuse = None;
        self.torn = false;
        self.once = None;
    }

    /// Crashes the device. Sector `i` takes one of its possible contents: the one with number `choices[i]`,
    /// modulo how many there are. Number 0 is the synced content, and those written since follow in order. A
    /// sector without an entry in the list takes number 0. The fuse and the failure of `fail_once` are removed.
    pub fn crash(&mut self, choices: &[u32])
        ensures image { Crashes (λ i. slice_index choices.now i) (memory self.old)
            (memory self.new) }
        ensures crash_image { CrashesTo (len_of (memory self.old)) (disk_of (memory self.old))
            (disk_of (memory self.new)) }
        ensures possible { MayLeave (memory self.old) (seen_of (memory self.new)) }
        ensures only { Only (seen_of (memory self.new)) (MayLeave (memory self.new)) }
        ensures counts { KeepsCounts (memory self.old) (memory self.new) }
    {
        crash_image(&mut self.start, &self.history, choices);
        self.image.copy_from_slice(&self.start);
        self.history.clear();
        self.fuse = None;
        self.torn = false;
        self.once = None;
    }

    // Returns whether the next call fails by the fuse or `fail_once`.
    fn is_due(&self) -> bool
        ensures { result ≡ is_due (memory self.now) }
    {
        is_now(self.once) || is_now(self.fuse)
    }

    // Returns whether the next call fails if it is a write or a sync.
    fn is_refused(&self) -> bool
        ensures { result ≡ is_refused (memory self.now) }
    {
        self.is_due() || self.calls == u64::MAX
    }

    // Returns whether a crash may leave the contents of a write that fails now.
    fn tears(&self) -> bool
        ensures { result ≡ tears (memory self.now) }
    {
        is_now(self.once) || is_now(self.fuse) && !self.torn
    }

    /// Performs `Sectors::read`, with an exact contract for a device in memory.
    pub fn try_read(&mut self, first: u64, into: &mut [u8]) -> Result<(), DeviceFault>
        requires { 512 * first + length into.old ≤ 512 * len_of (memory self.old) }
        ensures exact { HasOutcome (read_of (memory self.old)) result (memory self.new) }
        ensures bytes { OnOk result (into.new
            ≡ take (length into.old) (drop (512 * first) (seen_of (memory self.old)))) }
    {
        if self.is_due() {
            return self.fail();
        }
        get(&self.image, first, into);
        self.once = one_less_or_none(self.once);
        Ok(())
    }

    /// Performs `Sectors::write`, with an exact contract for a device in memory. Only a write that is added to
    /// the history can run out of memory.
    pub fn try_write(&mut self, first: u64, bytes: &[u8]) -> Result<(), DeviceFault>
        requires { IsWholeRun first (length bytes.now) (len_of (memory self.old)) }
        ensures exact { HasOutcomeOrNoMemory (memory self.old)
            (write_of (memory self.old) first bytes.now) result (memory self.new) }
        ensures refused { IsTrue (is_refused (memory self.old)) → tears (memory self.old) ≡ false
            → HasOutcome (failed (memory self.old)) result (memory self.new) }
    {
        let refused = self.is_refused();
        if refused && !self.tears() {
            return self.fail();
        }
        if keep_write(self.alloc, &mut self.history, first, bytes, refused).is_err() {
            return self.fault();
        }
        if refused {
            self.torn = self.torn || is_now(self.fuse);
            return self.fail();
        }
        put(&mut self.image, first, bytes);
        self.calls += 1;
        self.fuse = one_less(self.fuse);
        self.once = one_less_or_none(self.once);
        Ok(())
    }

    /// Performs `Sectors::sync`, with an exact contract for a device in memory.
    pub fn try_sync(&mut self) -> Result<(), DeviceFault>
        ensures exact { HasOutcomeOrNoMemory (memory self.old) (sync_of (memory self.old)) result
            (memory self.new) }
        ensures refused { IsTrue (is_refused (memory self.old))
            → HasOutcome (failed (memory self.old)) result (memory self.new) }
    {
        if self.is_refused() {
            return self.fail();
        }
        if keep_sync(&mut self.history).is_err() {
            return self.fault();
        }
        self.calls += 1;
        self.fuse = one_less(self.fuse);
        self.once = one_less_or_none(self.once);
        Ok(())
    }

    // Fails the call because memory ran out.
    fn fault(&mut self) -> Result<(), DeviceFault>
        ensures fails { IsErr result }
        ensures counted { memory self.new ≡ with_fault (memory self.old) }
    {
        self.faults = self.faults.saturating_add(1);
        Err(DeviceFault)
    }

    // Fails the call by `fuse`, by `fail_once`, or because `calls` has reached 2^64-1.
    fn fail(&mut self) -> Result<(), DeviceFault>
        ensures { HasOutcome (failed (memory self.old)) result (memory self.new) }
    {
        self.once = one_less_or_none(self.once);
        self.fault()
    }
}

// Returns the number of calls up to and including the last sync.
fn synced_calls(calls: &[Call]) -> usize
    ensures bound { result ≤ length calls.now }
    ensures settled { IsSettledBy (map call_of (take result calls.now)) }
    ensures rest { IsTrue (list_all is_write (map call_of (drop result calls.now))) }
{
    let mut synced = 0;
    for (i, call) in calls.iter().enumerate() {
        if let Call::Sync = call {
            synced = i + 1;
        }
    }
    synced
}

// Writes the bytes of each finished write into the image, in order.
fn replay(image: &mut [u8], calls: &[Call])
    requires { IsTrue (all_fit (length image.old) (map call_of calls.now)) }
    ensures { image.new ≡ (run (settled image.old)
        (flat_map events_of (map call_of calls.now))).seen }
{
    for call in calls {
        if let Call::Write { first, bytes } = call {
            put(image, *first, bytes);
        }
    }
}

// Returns the part of a write that goes to this sector. The write begins with sector `first`.
fn part_for(first: u64, bytes: &[u8], sector: u64) -> Option<&[u8]>
    ensures part { option_copied result ≡ part_of first bytes.now sector }
    ensures size { IfSome result (λ content. length content.now ≡ 512) }
{
    if sector < first || sector - first >= (bytes.len() / SECTOR_SIZE) as u64 {
        return None;
    }
    let at = (sector - first) as usize * SECTOR_SIZE;
    Some(&bytes[at..at + SECTOR_SIZE])
}

// Returns what a call writes to a sector, finished or not.
fn content_for(call: &Call, sector: u64) -> Option<&[u8]>
    ensures content { option_copied result ≡ content_of sector (call_of call.now) }
    ensures size { IfSome result (λ content. length content.now ≡ 512) }
{
    match call {
        Call::Write { first, bytes } | Call::Torn { first, bytes } => {
            part_for(*first, bytes, sector)
        }
        Call::Sync => None,
    }
}

// Counts the calls that write to a sector.
fn count_for(calls: &[Call], sector: u64) -> usize
    ensures count { result ≡ length (filter_map (content_of sector) (map call_of calls.now)) }
    ensures bound { result ≤ length calls.now }
{
    let mut count = 0;
    for call in calls {
        if content_for(call, sector).is_some() {
            count += 1;
        }
    }
    count
}

// Returns the content that call number `number` writes to a sector, counting only the calls that write to it.
fn nth_content(calls: &[Call], sector: u64, number: usize) -> Option<&[u8]>
    ensures content { option_copied result
        ≡ slice_get (filter_map (content_of sector) (map call_of calls.now)) number }
    ensures size { IfSome result (λ content. length content.now ≡ 512) }
{
    let mut left = number;
    for call in calls {
        if let Some(content) = content_for(call, sector) {
            if left == 0 {
                return Some(content);
            }
            left -= 1;
        }
    }
    None
}

// Puts the chosen content into a sector of the image.
fn choose_sector(image: &mut [u8], unsynced: &[Call], index: u64, choice: u32)
    requires { 512 * index + 512 ≤ length image.old }
    ensures chosen { sector index image.new
        ≡ chosen (sector index image.old)
        (filter_map (content_of index) (map call_of unsynced.now)) choice }
    ensures others { (i : ℕ) → i ≢ index → sector i image.new ≡ sector i image.old }
{
    let number = choice as usize % (count_for(unsynced, index) + 1);
    if number == 0 {
        return;
    }
    if let Some(content) = nth_content(unsynced, index, number - 1) {
        put(image, index, content);
    }
}

// Returns the choice for a sector: 0 after the end of the list.
fn choice_for(choices: &[u32], index: u64) -> u32
    ensures { result ≡ slice_index choices.now index }
{
    choices.get(index as usize).copied().unwrap_or(0)
}

// Puts the chosen content into each sector of the image.
fn choose(image: &mut [u8], unsynced: &[Call], choices: &[u32])
    ensures { (i : ℕ) → i < length image.old / 512 → sector i image.new
        ≡ chosen (sector i image.old) (filter_map (content_of i) (map call_of unsynced.now))
        (slice_index choices.now i) }
{
    for i in 0..(image.len() / SECTOR_SIZE) as u64 {
        choose_sector(image, unsynced, i, choice_for(choices, i));
    }
}

// Replaces the initial image by the chosen one of the images that are possible after the calls.
fn crash_image(image: &mut [u8], calls: &[Call], choices: &[u32])
    requires { IsTrue (all_fit (length image.old) (map call_of calls.now)) }
    ensures { TakesChoices (length image.old / 512)
        (run (settled image.old) (flat_map events_of (map call_of calls.now)))
        (λ i. slice_index choices.now i) image.new }
{
    let synced = synced_calls(calls);
    replay(image, &calls[..synced]);
    choose(image, &calls[synced..], choices);
}

impl Sectors for MemDevice {
    ghost use Rattle.sector_disk.specs.Sectors.{calls_after, faults_after, Reached, AddsContents, Only, SameImages, Elapses};
    ghost use Rattle.sector_disk.specs.MemDevice.{memory};
    ghost use Rattle.sector_disk.specs.Memory.{len_of, seen_of, MayLeave, clock_of, MayHaveLeft, read_of, write_of, sync_of, with_fault, HasOutcome, HasOutcomeOrNoMemory};

    ghost len = { λ d. len_of (memory d) };

    ghost calls = { λ d. (memory d).calls };

    ghost faults = { λ d. (memory d).faults };

    ghost honest = { λ d. Unit {0} };

    ghost seen = { λ d. seen_of (memory d) };

    ghost possible = { λ d. MayLeave (memory d) };

    ghost clock = { λ d. clock_of (memory d) };

    ghost possible_since = { λ d. MayHaveLeft (memory d) };

    fn len(&self) -> u64 {
        (self.image.len() / SECTOR_SIZE) as u64
    }

    fn calls(&self) -> u64 {
        self.calls
    }

    fn faults(&self) -> u64 {
        self.faults
    }

    fn read(&mut self, first: u64, into: &mut [u8]) -> Result<(), DeviceFault> {
        self.try_read(first, into)
    }

    fn write(&mut self, first: u64, bytes: &[u8]) -> Result<(), DeviceFault> {
        self.try_write(first, bytes)
    }

    fn sync(&mut self) -> Result<(), DeviceFault> {
        self.try_sync()
    }

    ghost use Rattle.sector_disk.specs.Memory.{history_of};
    ghost use Rattle.sector_disk.specs.HistoryLaws.{history_counts_now, history_only_now, history_since_earlier};
    ghost use Rattle.sector_disk.specs.MemoryLaws.{memory_reads_possible};

    ghost reads_possible = { λ d _. memory_reads_possible (memory d) d.kept.whole d.kept.fit };

    ghost image_size = { λ d image _ is_image. is_image.size };

    ghost counts_now = { λ d t image _ le is_image.
        history_counts_now (history_of (memory d)) t image le is_image };

    ghost only_now = { λ d m image _ left. history_only_now (history_of (memory d)) m image left };

    ghost since_earlier = { λ d t u m image _ le left.
        history_since_earlier (history_of (memory d)) t u m image le left };
}
