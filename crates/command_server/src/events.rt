//! The record of the writes and flushes of a sink and of the results of a source's reads. Only contracts use
//! it: it takes no memory and does nothing at run time.
ghost use Rattle.std.specs.Prelude.{◌≡◌, ◌++◌, ◌∷◌, [], ℕ, List};
ghost use Rattle.std.specs.Borrow.{ftrue};
ghost use Rattle.command_server.specs.Streams.{Event, Flushed, History, Put};

use recover::Session;
use sector_disk::Sectors;
use std::marker::{Model, PhantomData};

/// The events so far, in order, and the result of each read, the newest first.
#[derive(Drop)]
pub struct Events {
    marker: PhantomData<u8>,
    pub ghost events: { List Event },
    pub ghost reads: { List (List ℕ) },
}

impl Model for Events {
    ghost also_owns = { λ _. ftrue };
}

impl Events {
    fn of() -> Events
        ghost history: { History }
        ensures { (result.events ≡ history.events) × (result.reads ≡ history.reads) }
    {
        Events {
            marker: PhantomData,
        }
    }

    /// Returns an empty record.
    pub(crate) fn new() -> Events
        ensures events { result.events ≡ [] }
        ensures reads { result.reads ≡ [] }
    {
        Events::of()
    }

    /// Returns a record of the same events and reads.
    pub(crate) fn copy(&self) -> Events
        ensures events { result.events ≡ self.now.events }
        ensures reads { result.reads ≡ self.now.reads }
    {
        self.of_same()
    }

    /// Returns the record with a text that was written during this session.
    pub(crate) fn with_put<D: Sectors>(&self, session: &Session<D>, text: &[u8]) -> Events
        ensures events { result.events
            ≡ self.now.events ++ Put (D.calls session.now.device) text.now ∷ [] }
        ensures reads { result.reads ≡ self.now.reads }
    {
        self.of_put(session, text)
    }

    /// Returns the record with a text that was written while no session held this device.
    pub(crate) fn with_put_for_device<D: Sectors>(&self, device: &D, text: &[u8]) -> Events
        ensures events { result.events ≡ self.now.events ++ Put (D.calls device.now) text.now ∷ [] }
        ensures reads { result.reads ≡ self.now.reads }
    {
        self.of_put_for_device(device, text)
    }

    /// Returns the record with a flush during this session.
    pub(crate) fn with_flush<D: Sectors>(&self, session: &Session<D>) -> Events
        ensures events { result.events
            ≡ self.now.events ++ Flushed (D.calls session.now.device) ∷ [] }
        ensures reads { result.reads ≡ self.now.reads }
    {
        self.of_flush(session)
    }

    /// Returns the record with a read that returned these bytes.
    pub(crate) fn with_read(&self, piece: &[u8]) -> Events
        ensures events { result.events ≡ self.now.events }
        ensures reads { result.reads ≡ piece.now ∷ self.now.reads }
    {
        self.of_read(piece)
    }

    fn of_same(&self) -> Events
        ghost history: { History }
        requires { history ≡ record { events = self.now.events; reads = self.now.reads } }
        ensures { (result.events ≡ history.events) × (result.reads ≡ history.reads) }
    {
        Events::of()
    }

    fn of_put<D: Sectors>(&self, _session: &Session<D>, _text: &[u8]) -> Events
        ghost history: { History }
        requires { history ≡ record {
          events = self.now.events ++ Put (D.calls _session.now.device) _text.now ∷ [];
          reads = self.now.reads;
        } }
        ensures { (result.events ≡ history.events) × (result.reads ≡ history.reads) }
    {
        Events::of()
    }

    fn of_put_for_device<D: Sectors>(&self, _device: &D, _text: &[u8]) -> Events
        ghost history: { History }
        requires { history ≡ record {
          events = self.now.events ++ Put (D.calls _device.now) _text.now ∷ [];
          reads = self.now.reads;
        } }
        ensures { (result.events ≡ history.events) × (result.reads ≡ history.reads) }
    {
        Events::of()
    }

    fn of_flush<D: Sectors>(&self, _session: &Session<D>) -> Events
        ghost history: { History }
        requires { history ≡ record {
          events = self.now.events ++ Flushed (D.calls _session.now.device) ∷ [];
          reads = self.now.reads;
        } }
        ensures { (result.events ≡ history.events) × (result.reads ≡ history.reads) }
    {
        Events::of()
    }

    fn of_read(&self, _piece: &[u8]) -> Events
        ghost history: { History }
        requires { history ≡ record {
          events = self.now.events;
          reads = _piece.now ∷ self.now.reads;
        } }
        ensures { (result.events ≡ history.events) × (result.reads ≡ history.reads) }
    {
        Events::of()
    }
}
