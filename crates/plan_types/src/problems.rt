//! The problem: its requests by name, and next to them a table of the stops by number.
ghost use Rattle.std.specs.Prelude.{◌≡◌, ℕ, All, IsTrue, ◌<◌, ◌≤◌, ◌↔◌, length, IsOk, IfOk, IfErr, IfSome, OnOk, OnErr, IsErrOf, IsSome, None, Some, nat_eq, ◌==◌, if◌then◌else◌, take, drop, vec_len};
ghost use Rattle.std.specs.List.{AllByRecursion};
ghost use Rattle.std.specs.List.Sorted.{IsStrictlySortedBy};
ghost use Rattle.std.specs.Ordering.{nat_cmp};
ghost use Rattle.std.specs.Map.{lookup};
ghost use Rattle.std.specs.Option.{option_copied, option_or, is_some};
ghost use Rattle.indexmap.specs.IndexMap.{get, keys, index_map_len};
ghost use Rattle.plan_types.specs.Limits.{IsDepot, IsCapacity, IsFleet, IsStop};
ghost use Rattle.plan_types.specs.Request.{request_name, stop_in, number_after, IsRequest};
ghost use Rattle.plan_types.specs.Instance.{stop_at, name_at, request_with, partner_at, pickup_at, new_instance, with_entry, with_request, without_request, lesser_names, greater_names, numbers_among, first_some, IsInstance, IsTaken};
ghost use Rattle.plan_types.specs.StopEntry.{table_entry, entry_in};

use crate::OutOfMemory;
use crate::limits::{MAX_CAPACITY, MAX_FLEET};
use crate::requests::{Kind, Request, Stop};
use indexmap::IndexMap;
use std::alloc::{AllocError, AllocFailed, Global};
use std::marker::Model;
use thiserror::Error;

/// The reason why a problem was not created or did not accept a request.
#[derive(Clone, Copy, Debug, PartialEq, Eq, Error)]
pub enum PutFault {
    /// A field is outside its limits, the two stops of a pair have the same number, or the delivery's demand is
    /// not the negative of the pickup's.
    #[error("a field is outside its limits")]
    Range,
    /// One of the request's numbers is the number of a stop of the problem.
    #[error("a stop number is taken")]
    Taken,
    /// An allocation failed.
    #[error("out of memory")]
    OutOfMemory,
}

/// A stop, the name of its request, and the other stop of its pair.
#[derive(Clone, Copy, Debug)]
pub(crate) struct StopEntry {
    name: u32,
    partner: Option<u32>,
    stop: Stop,
}

/// The data of a planning problem: a depot, a fleet of equal vehicles, and requests.
///
/// Every number keeps its limits, all stop numbers are different, and the requests are in ascending order of
/// name. Contracts see a record of the public fields, with the requests as a list of (name, request).
#[derive(Debug, Drop)]
pub struct Problem {
    pub kind: Kind,
    /// The place where each route begins and ends. Its time window is the working day of the vehicles.
    pub depot: Stop,
    /// The most that one vehicle can carry, 0..=1,000,000.
    pub capacity: u32,
    /// The number of vehicles, 1..=40,000.
    pub fleet: u32,
    /// The requests by name, in ascending order.
    pub requests: IndexMap<u32, Request>,
    /// The number for the next new stop, 1..=40,001. It is greater than all numbers in use.
    pub next_number: u32,
    // Indexed by stop number, so that a lookup of a stop, its request or its partner reads one entry.
    by_number: Vec<Option<StopEntry>>,
}

impl Model for Problem {
    ghost use Rattle.plan_types.specs.Instance.{Instance};

    ghost Value = { Instance };

    ghost use Rattle.plan_types.specs.StopEntry.{IsConsistent, instance_of};

    ghost view = { instance_of };

    ghost invariant = { IsConsistent };
}

impl Problem {
    /// Returns a problem without requests.
    ///
    /// Returns `Range` if a value is outside its limits, or if the depot's number, demand or service is not 0.
    pub fn new(
        alloc: Global,
        kind: Kind,
        depot: Stop,
        capacity: u32,
        fleet: u32,
    ) -> Result<Problem, PutFault>
        ensures ok { IfOk result (λ p. (p ≡ new_instance kind depot capacity fleet)
            × IsInstance p) }
        ensures err { IfErr result (λ e. (e ≡ PutFault.Range)
            × ¬ (IsDepot depot × IsCapacity capacity × IsFleet fleet)) }
    {
        if !depot.is_depot() || capacity > MAX_CAPACITY || fleet == 0 || fleet > MAX_FLEET {
            return Err(PutFault::Range);
        }
        Ok(Problem {
            kind,
            depot,
            capacity,
            fleet,
            requests: IndexMap::new(alloc),
            next_number: 1,
            by_number: Vec::new(alloc),
        })
    }

    /// Returns the stop with this number, or `None` if no request has such a stop. The depot, number 0, is not
    /// found. Does not allocate.
    pub fn stop(&self, number: u32) -> Option<&Stop>
        ensures found { option_copied result ≡ stop_at self.now number }
        ensures stop { IfSome result
            (λ s. (s.now.number ≡ number) × IsStop s.now × (number < self.now.next_number)) }
        ensures valid { IsInstance self.now }
    {
        match self.by_number(number) {
            Some(by_number) => Some(&by_number.stop),
            None => None,
        }
    }

    /// Returns the name of the request that has the stop with this number. Does not allocate.
    pub fn name_of(&self, number: u32) -> Option<u32>
        ensures found { result ≡ name_at self.now number }
        ensures request { IfSome result
            (λ name. lookup (nat_eq name) self.now.requests ≡ request_with self.now number) }
        ensures valid { IsInstance self.now }
    {
        match self.by_number(number) {
            Some(by_number) => Some(by_number.name),
            None => None,
        }
    }

    /// Returns the number of the other stop of the pair that has the stop with this number. Does not allocate.
    pub fn partner_of(&self, number: u32) -> Option<u32>
        ensures found { result ≡ partner_at self.now number }
        ensures below { IfSome result (λ n. n < self.now.next_number) }
        ensures valid { IsInstance self.now }
    {
        match self.by_number(number) {
            Some(by_number) => by_number.partner,
            None => None,
        }
    }

    /// Returns the number of the pickup if the stop with this number is a delivery. Does not allocate.
    pub fn pickup_of(&self, number: u32) -> Option<u32>
        ensures found { result ≡ pickup_at self.now number }
        ensures below { IfSome result (λ n. n < self.now.next_number) }
        ensures valid { IsInstance self.now }
    {
        match self.by_number(number) {
            Some(by_number) if by_number.name != number => Some(by_number.name),
            _ => None,
        }
    }

    /// Adds a request under its name and raises `next_number` above its numbers.
    ///
    /// If several errors apply, returns `Range` before `Taken`, and `Taken` before `OutOfMemory`. On an error
    /// the problem is unchanged.
    // This function is inlined, and so are those that it calls before the map is reached. Otherwise each field
    // of a request would pass through memory.
    #[inline(always)]
    pub fn put(&mut self, request: Request) -> Result<(), PutFault>
        ensures ok { OnOk result ((self.new ≡ with_request self.old request) × IsRequest request
            × ¬ IsTaken self.old request) }
        ensures range { IsErrOf result PutFault.Range ↔ ¬ IsRequest request }
        ensures taken { IsErrOf result PutFault.Taken ↔ (IsRequest request
            × IsTaken self.old request) }
        ensures err { OnErr result (self.new ≡ self.old) }
    {
        if !request.is_request() {
            return Err(PutFault::Range);
        }
        if self.is_taken(&request) {
            return Err(PutFault::Taken);
        }
        self.add(request).map_err(|_| PutFault::OutOfMemory)
    }

    // Adds a request that is within its limits and whose numbers are free.
    #[inline(always)]
    fn add(&mut self, request: Request) -> Result<(), AllocError>
        requires valid { IsRequest request }
        requires free { ¬ IsTaken self.old request }
        ensures ok { OnOk result (self.new ≡ with_request self.old request) }
        ensures err { OnErr result (self.new ≡ self.old) }
    {
        let after = request.number_after();
        make_room(&mut self.by_number, after as usize)?;
        insert_by_name(&mut self.requests, request)?;
        add_to_table(&mut self.by_number, &request);
        self.next_number = self.next_number.max(after);
        Ok(())
    }

    /// Removes the request with this name, and no other. `next_number` stays, so the numbers of the request are
    /// not reused. Does not allocate.
    pub fn take(&mut self, name: u32) -> Option<Request>
        ensures taken { result ≡ lookup (nat_eq name) self.old.requests }
        ensures after { self.new ≡ without_request self.old name }
    {
        let request = self.requests.shift_remove(&name)?;
        remove_from_table(&mut self.by_number, &request);
        Some(request)
    }

    // Returns whether one of the request's numbers is in use.
    fn is_taken(&self, request: &Request) -> bool
        ensures taken { IsTrue result ↔ IsTaken self.now request.now }
        ensures valid { IsInstance self.now }
    {
        match request {
            Request::Single(stop) => self.has_stop(stop.number),
            Request::Pair(pickup, delivery) => {
                self.has_stop(pickup.number) || self.has_stop(delivery.number)
            }
        }
    }

    // Returns whether a stop has this number.
    fn has_stop(&self, number: u32) -> bool
        ensures live { IsTrue result ↔ IsSome (stop_at self.now number) }
        ensures valid { IsInstance self.now }
    {
        self.stop(number).is_some()
    }

    /// Sets the number for the next new stop. It must be in 1..=40,001 and greater than all numbers in use.
    pub fn set_next_number(&mut self, number: u32)
        requires from_one { 1 ≤ number }
        requires to_max { number ≤ 40001 }
        requires above { AllByRecursion (λ n. n < number) (numbers_among self.old.requests) }
        ensures { self.new ≡ record self.old { next_number = number } }
    {
        self.next_number = number;
    }

    /// Returns an equal problem.
    pub fn copy(&self) -> Result<Problem, OutOfMemory>
        ensures { IfOk result (λ copy. copy ≡ self.now) }
    {
        let requests = self.requests.clone()?;
        let by_number = Vec::from_slice(*self.by_number.allocator(), self.by_number.as_slice())?;
        Ok(Problem {
            kind: self.kind,
            depot: self.depot,
            capacity: self.capacity,
            fleet: self.fleet,
            requests,
            next_number: self.next_number,
            by_number,
        })
    }

    // Returns the table's entry for this number.
    fn by_number(&self, number: u32) -> Option<&StopEntry>
        ensures found { option_copied result ≡ first_some (entry_in number) self.now.requests }
        ensures valid { IsInstance self.now }
    {
        entry_at(&self.by_number, number)
    }
}

fn entry_at(by_number: &[Option<StopEntry>], number: u32) -> Option<&StopEntry>
    ensures { option_copied result ≡ table_entry by_number.now number }
{
    match by_number.get(number as usize) {
        Some(entry) => entry.as_ref(),
        None => None,
    }
}

// Extends the table to this length with empty entries. On an error its entries stay.
fn make_room(by_number: &mut Vec<Option<StopEntry>>, len: usize) -> Result<(), AllocError>
    ensures same { (n : ℕ) → table_entry by_number.new.items n ≡ table_entry by_number.old.items n }
    ensures room { OnOk result (len ≤ vec_len by_number.new) }
{
    while by_number.len() < len {
        by_number.push(None)?;
    }
    Ok(())
}

// Inserts the request between those with smaller and those with greater names.
#[inline(always)]
fn insert_by_name(requests: &mut IndexMap<u32, Request>, request: Request) -> Result<(), AllocError>
    requires ascending { IsStrictlySortedBy nat_cmp (keys requests.old) }
    requires absent { get nat_eq requests.old (request_name request) ≡ None }
    ensures ok { OnOk result (requests.new.entries ≡ with_entry requests.old.entries request) }
    ensures err { OnErr result (requests.new.entries ≡ requests.old.entries) }
{
    let name = request.name();
    // Requests mostly come in ascending order. Then there is nothing to search for and nothing to move.
    if is_above_all(requests, name) {
        requests.insert(name, request)?;
        return Ok(());
    }
    let place = insertion_place(requests, name);
    requests.insert_before(place, name, request)?;
    Ok(())
}

// Returns whether all requests have smaller names.
fn is_above_all(requests: &IndexMap<u32, Request>, name: u32) -> bool
    requires ascending { IsStrictlySortedBy nat_cmp (keys requests.now) }
    ensures { IsTrue result ↔ All (λ n. n < name) (keys requests.now) }
{
    match requests.last() {
        Some((last, _)) => *last < name,
        None => true,
    }
}

// Returns the number of requests with a smaller name.
fn insertion_place(requests: &IndexMap<u32, Request>, name: u32) -> usize
    requires ascending { IsStrictlySortedBy nat_cmp (keys requests.now) }
    requires absent { get nat_eq requests.now name ≡ None }
    ensures within { result ≤ index_map_len requests.now }
    ensures lesser { lesser_names requests.now.entries name ≡ take result requests.now.entries }
    ensures greater { greater_names requests.now.entries name ≡ drop result requests.now.entries }
{
    match requests.binary_search_keys(&name) {
        Ok(place) => place,
        Err(place) => place,
    }
}

// Enters the stops of a request into the table, which has room for them.
fn add_to_table(by_number: &mut [Option<StopEntry>], request: &Request)
    requires { number_after request.now ≤ length by_number.old }
    ensures { (n : ℕ) → table_entry by_number.new n
        ≡ option_or (entry_in n request.now) (table_entry by_number.old n) }
{
    let name = request.name();
    match request {
        Request::Single(stop) => set_entry(by_number, name, None, stop),
        Request::Pair(pickup, delivery) => {
            // If both stops had the same number, the entry made last would stay. The pickup is entered last,
            // since in the definition the pickup has priority, too.
            set_entry(by_number, name, Some(pickup.number), delivery);
            set_entry(by_number, name, Some(delivery.number), pickup);
        }
    }
}

fn set_entry(by_number: &mut [Option<StopEntry>], name: u32, partner: Option<u32>, stop: &Stop)
    requires { stop.now.number < length by_number.old }
    ensures { (n : ℕ) → table_entry by_number.new n
        ≡ (if stop.now.number == n then Some
        (record { name = name; partner = partner; stop = stop.now })
        else table_entry by_number.old n) }
{
    by_number[stop.number as usize] = Some(StopEntry {
        name,
        partner,
        stop: *stop,
    });
}

// Removes the stops of a request from the table.
fn remove_from_table(by_number: &mut [Option<StopEntry>], request: &Request)
    requires { number_after request.now ≤ length by_number.old }
    ensures { (n : ℕ) → table_entry by_number.new n
        ≡ (if is_some (stop_in n request.now) then None else table_entry by_number.old n) }
{
    match request {
        Request::Single(stop) => clear_entry(by_number, stop.number),
        Request::Pair(pickup, delivery) => {
            clear_entry(by_number, pickup.number);
            clear_entry(by_number, delivery.number);
        }
    }
}

fn clear_entry(by_number: &mut [Option<StopEntry>], number: u32)
    requires { number < length by_number.old }
    ensures { (n : ℕ) → table_entry by_number.new n
        ≡ (if number == n then None else table_entry by_number.old n) }
{
    by_number[number as usize] = None;
}
