//! What an association tells its user.

ghost use Rattle.std.specs.Prelude.{◌≡◌, ◌<◌, ◌≤◌, IfSome, None, IfOk, OnErr, OnOk, false, length, take};
ghost use Rattle.sctp_association.specs.Events.{IsTold, KeepsOthers, NoneWaits, NoneWaitsOfStream, BringsNone};
ghost use Rattle.sctp_association.specs.Brought.{NotesOnly};
ghost use Rattle.sctp_association.specs.Telling.{HasPlace, KeepsEvents, KeepsRooms, Stays};

use crate::stream_set::StreamSet;
use std::alloc::{AllocError, Global};

/// What happened. Each waits until `Association::poll` gives it: of one kind, of one stream, at most one waits.
#[derive(Clone, Copy, Debug, PartialEq, Eq)]
pub enum Event {
    /// The association is established.
    Connected,
    /// The peer has begun anew (RFC 9260 5.2.4.1): what was written and not acknowledged is gone, and so is what was not read.
    Restarted,
    /// A message can be read of the stream.
    Readable(u16),
    /// The buffered amount of the stream fell from above its low threshold to at most it.
    BufferedAmountLow(u16),
    /// The peer has reset the stream in our direction, as we asked (RFC 6525 5.2.2).
    ResetByUs(u16),
    /// The peer did not reset the stream (RFC 6525 4.4).
    ResetRefused(u16),
    /// The peer has reset the stream in its direction: what it writes next on it is a new use (RFC 8831 6.7).
    ResetByPeer(u16),
    /// A message of the peer on the stream is longer than `Config::max_message_size`. What was not read of the stream is dropped, and so is
    /// what comes on it until the peer resets it (RFC 6525 5.2.2): `reset_stream` asks for that (RFC 8831 6.7).
    TooLong(u16),
    /// The peer told an error with this cause code (RFC 9260 3.3.10).
    PeerError(u16),
    /// The peer shuts the association down: it takes no further messages (RFC 9260 9.2).
    Shutdown,
    /// The association is over.
    Closed(Ending),
}

/// How an association ended.
#[derive(Clone, Copy, Debug, PartialEq, Eq)]
pub enum Ending {
    /// By SHUTDOWN: all that was written came (RFC 9260 9.2).
    Shutdown,
    /// The peer sent an ABORT (RFC 9260 9.1).
    AbortedByPeer,
    /// We sent an ABORT.
    Aborted,
    /// The peer answered nothing any more (RFC 9260 8.1), or no INIT or COOKIE-ECHO (RFC 9260 4 note 2).
    Unanswered,
}

/// For how many streams on which we write there is room in each set of events.
#[derive(Clone, Copy)]
pub(crate) struct Rooms {
    low: usize,
    reset_by_us: usize,
    reset_refused: usize,
}

/// The events that wait.
#[derive(Drop)]
pub(crate) struct Events {
    pub(crate) connected: bool,
    pub(crate) restarted: bool,
    pub(crate) shutdown: bool,
    pub(crate) closed: Option<Ending>,
    pub(crate) peer_error: Option<u16>,
    pub(crate) readable: StreamSet,
    pub(crate) low: StreamSet,
    pub(crate) reset_by_us: StreamSet,
    pub(crate) reset_refused: StreamSet,
    pub(crate) reset_by_peer: StreamSet,
    pub(crate) too_long: StreamSet,
}

impl Events {
    ghost use Rattle.sctp_association.specs.Rooms.{without};

    /// None. It takes no memory.
    pub(crate) fn new(alloc: Global) -> Events
        ensures { NoneWaits result }
    {
        Events {
            connected: false,
            restarted: false,
            shutdown: false,
            closed: None,
            peer_error: None,
            readable: StreamSet::new(alloc),
            low: StreamSet::new(alloc),
            reset_by_us: StreamSet::new(alloc),
            reset_refused: StreamSet::new(alloc),
            reset_by_peer: StreamSet::new(alloc),
            too_long: StreamSet::new(alloc),
        }
    }

    /// Makes room for the events of a stream on which we write, and answers what room there was. Refuses only for memory, and nothing has
    /// changed then.
    pub(crate) fn reserve_outbound(&mut self, stream: u16) -> Result<Rooms, AllocError>
        ensures kept { KeepsEvents self.old self.new }
        ensures readable { self.new.readable ≡ self.old.readable }
        ensures none { BringsNone self.old self.new }
        ensures undo { IfOk result (λ rooms. without rooms self.new ≡ self.old) }
        ensures room { OnOk result ((stream < length self.new.reset_by_us)
            × (stream < length self.new.reset_refused)) }
        ensures low_room { OnOk result (stream < length self.new.low) }
        ensures err { OnErr result (self.new ≡ self.old) }
    {
        let rooms = Rooms {
            low: self.low.room(),
            reset_by_us: self.reset_by_us.room(),
            reset_refused: self.reset_refused.room(),
        };
        match self.reserve_each(stream) {
            Ok(()) => Ok(rooms),
            Err(e) => {
                self.shrink_outbound(rooms);
                Err(e)
            }
        }
    }

    // The same, but after a refusal there may be more room than before.
    fn reserve_each(&mut self, stream: u16) -> Result<(), AllocError>
        ensures kept { KeepsEvents self.old self.new }
        ensures none { BringsNone self.old self.new }
        ensures rest { self.new ≡ record self.old {
          low = self.new.low;
          reset_by_us = self.new.reset_by_us;
          reset_refused = self.new.reset_refused;
        } }
        ensures low { take (length self.old.low) self.new.low ≡ self.old.low }
        ensures by_us { take (length self.old.reset_by_us) self.new.reset_by_us
            ≡ self.old.reset_by_us }
        ensures refused { take (length self.old.reset_refused) self.new.reset_refused
            ≡ self.old.reset_refused }
        ensures room { OnOk result ((stream < length self.new.reset_by_us)
            × (stream < length self.new.reset_refused)) }
        ensures low_room { OnOk result (stream < length self.new.low) }
    {
        self.low.reserve(stream)?;
        self.reset_by_us.reserve(stream)?;
        self.reset_refused.reserve(stream)
    }

    /// Gives up the room that was made past these rooms.
    pub(crate) fn shrink_outbound(&mut self, rooms: Rooms)
        ensures { self.new ≡ without rooms self.old }
    {
        self.low.shrink(rooms.low);
        self.reset_by_us.shrink(rooms.reset_by_us);
        self.reset_refused.shrink(rooms.reset_refused);
    }

    /// Makes room for the events of a stream on which the peer writes.
    pub(crate) fn reserve_inbound(&mut self, stream: u16) -> Result<(), AllocError>
        ensures kept { KeepsEvents self.old self.new }
        ensures readable { Stays self.old.readable self.new.readable }
        ensures room { length self.old.readable ≤ length self.new.readable }
        ensures place { OnOk result (HasPlace stream self.new) }
        ensures notes { NotesOnly (λ s. ⊥) (λ s. ⊥) self.old self.new }
    {
        self.readable.reserve(stream)?;
        self.too_long.reserve(stream)?;
        self.reset_by_peer.reserve(stream)
    }

    // Takes out an event of the whole association, if one waits, but the last one.
    fn pop_whole(&mut self) -> Option<Event>
        ensures rooms { KeepsRooms self.old self.new }
        ensures others { KeepsOthers self.old self.new result }
        ensures adds { BringsNone self.old self.new }
        ensures all { result ≡ None → (self.old.connected ≡ false)
            × ((self.old.restarted ≡ false) × (self.old.peer_error ≡ None)) }
        ensures told { IfSome result (IsTold self.old self.new) }
        ensures none { result ≡ None → self.new ≡ self.old }
    {
        if self.connected {
            self.connected = false;
            return Some(Event::Connected);
        }
        if self.restarted {
            self.restarted = false;
            return Some(Event::Restarted);
        }
        if let Some(cause) = self.peer_error {
            self.peer_error = None;
            return Some(Event::PeerError(cause));
        }
        None
    }

    // Takes out an event of a stream, if one waits.
    fn pop_of_stream(&mut self) -> Option<Event>
        ensures rooms { KeepsRooms self.old self.new }
        ensures others { KeepsOthers self.old self.new result }
        ensures adds { BringsNone self.old self.new }
        ensures all { result ≡ None → NoneWaitsOfStream self.old }
        ensures told { IfSome result (IsTold self.old self.new) }
        ensures none { result ≡ None → self.new ≡ self.old }
    {
        if let Some(stream) = self.reset_by_us.pop() {
            return Some(Event::ResetByUs(stream));
        }
        if let Some(stream) = self.reset_refused.pop() {
            return Some(Event::ResetRefused(stream));
        }
        if let Some(stream) = self.readable.pop() {
            return Some(Event::Readable(stream));
        }
        if let Some(stream) = self.too_long.pop() {
            return Some(Event::TooLong(stream));
        }
        if let Some(stream) = self.reset_by_peer.pop() {
            return Some(Event::ResetByPeer(stream));
        }
        if let Some(stream) = self.low.pop() {
            return Some(Event::BufferedAmountLow(stream));
        }
        None
    }

    // Takes out how the association ends, if that is to be told.
    fn pop_end(&mut self) -> Option<Event>
        ensures rooms { KeepsRooms self.old self.new }
        ensures others { KeepsOthers self.old self.new result }
        ensures adds { BringsNone self.old self.new }
        ensures all { result ≡ None
            → (self.old.shutdown ≡ false) × (self.old.closed ≡ None) }
        ensures told { IfSome result (IsTold self.old self.new) }
        ensures none { result ≡ None → self.new ≡ self.old }
    {
        if self.shutdown {
            self.shutdown = false;
            return Some(Event::Shutdown);
        }
        let ending = self.closed?;
        self.closed = None;
        Some(Event::Closed(ending))
    }

    /// Takes the next event out: those of the whole association first, the end last.
    pub(crate) fn pop(&mut self) -> Option<Event>
        ensures rooms { KeepsRooms self.old self.new }
        ensures others { KeepsOthers self.old self.new result }
        ensures adds { BringsNone self.old self.new }
        ensures all { result ≡ None → NoneWaits self.old }
        ensures told { IfSome result (IsTold self.old self.new) }
        ensures none { result ≡ None → self.new ≡ self.old }
    {
        if let Some(event) = self.pop_whole() {
            return Some(event);
        }
        if let Some(event) = self.pop_of_stream() {
            return Some(event);
        }
        self.pop_end()
    }
}
