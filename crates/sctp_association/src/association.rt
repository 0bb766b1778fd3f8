//! The association: its calls, and what a user hands in and takes out.

mod arrivals;
mod calls;
mod control;
mod control_chunks;
mod opening;
mod packets;
mod resets;
mod stats;
mod timeouts;
mod unknown;

ghost use Rattle.std.specs.Prelude.{◌≡◌, ℕ, IfSome, None, Some, ◌≢◌, ◌≤◌, ◌+◌, ◌*◌, option_map, true, false, IfErr, IfOk, IsOk, OnErr, OnOk};
ghost use Rattle.std.proofs.Props.{props};
ghost use Rattle.sctp_association.specs.Entering.{usable_in};
ghost use Rattle.sctp_association.specs.Events.{BringsNone, IsTold, KeepsOthers, NoneWaits};
ghost use Rattle.sctp_association.specs.Configs.{can_be_made, offer_by};
ghost use Rattle.sctp_association.specs.declared.event.Ending.TheVariants.{Aborted};
ghost use Rattle.sctp_association.specs.declared.fault.Fault.TheVariants.{BadConfig, WrongState};
ghost use Rattle.sctp_association.specs.Reached.{limits_of, most_user_data};
ghost use Rattle.sctp_association.specs.Waiting.{amount_on};
ghost use Rattle.sctp_handshake.specs.declared.state.State.TheVariants.{Closed};
ghost use Rattle.sctp_path.specs.Rto.{smoothed_of};
ghost use Rattle.sctp_reassembly.specs.reassembly_queue.ReassemblyQueue.{at_start};
ghost use Rattle.sctp_receiver.specs.Limits.{chunk_cost};
ghost use Rattle.sctp_sender.specs.Sender.{stream_of};

pub use self::stats::Stats;
use crate::asking::Asking;
use crate::config::{Config, Secrets};
use crate::draft::Draft;
use crate::due::{AloneKind, Due};
use crate::event::{Ending, Event, Events};
use crate::fault::Fault;
use crate::inbound::Inbound;
use crate::laws::what_is_held_is_bounded;
use crate::outbound::{Outbound, OutboundConfig};
use bytes::Bytes;
use sctp_data::chunk::chunk_payload_data::PayloadProtocolIdentifier;
use sctp_handshake::{Machine, Offer, State};
use sctp_path::{Heartbeat, Timer};
use sctp_reassembly::Chunks;
use sctp_reset::PeerRequests;
use std::alloc::Global;

/// What became of a datagram.
#[derive(Clone, Copy, Debug, PartialEq, Eq)]
pub enum Taken {
    /// It is for this association, and its chunks were taken.
    Accepted,
    /// It is for this association, and memory was wanting behind its first change: the chunks before were taken, and those from the refused
    /// one on count as lost. The peer sends them again.
    Partly,
    /// It is dropped, and changed nothing.
    Dropped(Reason),
}

/// Why a datagram is dropped.
#[derive(Clone, Copy, Debug, PartialEq, Eq)]
pub enum Reason {
    /// It is no SCTP packet (RFC 9260 3).
    NoPacket,
    /// Its checksum is wrong (RFC 9260 6.8).
    Checksum,
    /// It has other ports.
    Ports,
    /// Its verification tag is not that of this association (RFC 9260 8.5).
    Tag,
    /// Its first chunk is not expected in this state (RFC 9260 5.2, 8.4).
    Unexpected,
}

/// An association with one peer. After `handle_datagram`, `handle_timeout`, `write`, `read` and the like call `poll_transmit` until there is
/// no datagram, and `poll` until there is no event. Moments are in nanoseconds.
#[derive(Drop)]
pub struct Association {
    alloc: Global,
    config: Config,
    key: [u8; 32],
    machine: Machine,
    // Whether it ended: nothing begins again.
    is_over: bool,
    // Whether it is to be shut down as soon as it stands.
    wants_shutdown: bool,
    outbound: Outbound,
    inbound: Option<Inbound>,
    requests: Asking,
    peer_requests: Option<PeerRequests>,
    // T1-init, T1-cookie or T2-shutdown, by the state.
    control: Timer,
    // T5-shutdown-guard: until when the shutdown of this side may last.
    guard: Timer,
    heartbeat: Option<Heartbeat>,
    // The cookie that is echoed.
    cookie: Option<Bytes>,
    due: Due,
    events: Events,
    draft: Draft,
    // The receiver has the limits of the config.
    ghost limited: { IfSome inbound (λ i. (i.receiver.limits ≡ Some (limits_of config))
        × (i.streams ≤ config.inbound_streams)) } by { Prim.hlevel props },
}

// What this side offers.
fn offer_of(config: &Config, secrets: &Secrets) -> Offer
    ensures { result ≡ offer_by config.now secrets.now }
{
    Offer {
        tag: secrets.tag,
        window: u32::try_from(config.window).unwrap_or(u32::MAX),
        outbound_streams: config.outbound_streams,
        inbound_streams: config.inbound_streams,
        first_tsn: secrets.first_tsn,
        forward_tsn: true,
        reconfig: true,
        zero_checksum: config.zero_checksum,
    }
}

// How the sending half is set up.
fn outbound_config(config: &Config, first_tsn: u32) -> OutboundConfig
    ensures first_tsn { result.first_tsn ≡ first_tsn }
    ensures sizes { (result.mtu ≡ config.now.mtu)
        × (result.max_message_size ≡ config.now.max_message_size) }
    ensures limits { (result.max_retrans ≡ config.now.max_retrans)
        × (result.rto ≡ config.now.rto) }
{
    OutboundConfig {
        first_tsn,
        mtu: config.mtu,
        max_message_size: config.max_message_size,
        most_waiting: config.most_waiting,
        most_in_flight: config.most_in_flight,
        max_retrans: config.max_retrans,
        rto: config.rto,
    }
}

impl Association {
    ghost use Rattle.sctp_association.specs.Beginnings.{BeginsToAsk, HasAsked, IsMadeOf, IsUnbegun, KeepsPeer};
    ghost use Rattle.sctp_association.specs.Halves.{HalvesAlike, first_halves, halves_of};
    ghost use Rattle.sctp_association.specs.Ends.{IsAborted};
    ghost use Rattle.sctp_association.specs.Held.{HoldsFewChunks, OfReceiver, OpensFewStreams, held_by};
    ghost use Rattle.sctp_association.specs.Reads.{AreReadOff, IsSameBeside, length_of, message_in};
    ghost use Rattle.sctp_association.specs.Lasting.{BeginsWithin, LastsNoLonger};
    ghost use Rattle.sctp_association.specs.Made.{IsNew};
    ghost use Rattle.sctp_association.specs.Rows.{Settles, asking, wants_at};
    ghost use Rattle.sctp_association.specs.Telling.{HasPlaces, KeepsRooms, Tells};
    ghost use Rattle.sctp_association.specs.Timers.{StartsTimers, StopsTimers};
    ghost use Rattle.sctp_association.specs.declared.due.AloneKind.TheVariants.{Abort};

    /// No association yet: it waits for a peer's INIT, or for `connect`. Refuses with `BadConfig`. It takes no memory.
    pub fn new(alloc: Global, config: Config, secrets: Secrets) -> Result<Association, Fault>
        ensures mtu { IfOk result (λ a. a.draft.limit ≡ config.mtu) }
        ensures halves { IfOk result (λ a. halves_of a
            ≡ first_halves secrets.first_tsn config.mtu config.max_message_size) }
        ensures unbegun { IfOk result IsUnbegun }
        ensures made { IfOk result (IsMadeOf config secrets.cookie_key secrets.first_tsn) }
        ensures limits { IfOk result (BeginsWithin config) }
        // This side offers what the `Config` and the `Secrets` say. Nothing is due, no event waits, and no timer runs.
        ensures new { IfOk result (IsNew config secrets) }
        ensures accepted { IsOk result → can_be_made config secrets ≡ true }
        ensures usable { can_be_made config secrets ≡ true → IsOk result }
        ensures refused { IfErr result (λ e. e ≡ BadConfig) }
    {
        if secrets.tag == 0 || !config.is_usable() {
            return Err(Fault::BadConfig);
        }
        let limits = sctp_handshake::Limits {
            max_init_retransmits: config.max_init_retrans,
            association_max_retrans: config.max_retrans,
        };
        let draft = Draft::new(alloc, config.mtu);
        let machine = Machine::new(offer_of(&config, &secrets), limits);
        let outbound = Outbound::new(alloc, outbound_config(&config, secrets.first_tsn));
        Ok(Association {
            alloc,
            config,
            key: secrets.cookie_key,
            machine,
            is_over: false,
            wants_shutdown: false,
            outbound,
            inbound: None,
            requests: Asking::new(alloc, secrets.first_tsn),
            peer_requests: None,
            control: Timer::new(),
            guard: Timer::new(),
            heartbeat: None,
            cookie: None,
            due: Due::new(),
            events: Events::new(alloc),
            draft,
        })
    }

    /// Asks the peer for an association (RFC 9260 5.1 A): an INIT is due. Both sides may (5.2.1). Refuses with `WrongState`, exactly where one
    /// is there, or was.
    pub fn connect(&mut self, now: u64) -> Result<(), Fault>
        ensures tells { Tells self.old self.new }
        ensures accepted { IsOk result → IsUnbegun self.old }
        ensures unbegun { IsUnbegun self.old → IsOk result }
        ensures asked { OnOk result (HasAsked self.new) }
        ensures begins { OnOk result (BeginsToAsk self.old self.new) }
        // T1-init runs (RFC 9260 5.1 A).
        ensures timers { OnOk result (StartsTimers now self.old self.new) }
        ensures left { LastsNoLonger self.old self.new }
        ensures refused { IfErr result (λ e. e ≡ WrongState) }
        // The receiving half stays: so the peer may use the same streams.
        ensures inbound { self.new.inbound ≡ self.old.inbound }
        ensures halves { HalvesAlike self.old self.new }
        ensures quiet { self.new.events ≡ self.old.events }
        ensures err { OnErr result (self.new ≡ self.old) }
    {
        if self.is_over {
            return Err(Fault::WrongState);
        }
        let before = self.machine.state();
        match self.machine.connect() {
            Ok(answer) => {
                self.follow(before, answer, 0, now);
                Ok(())
            }
            Err(_) => Err(Fault::WrongState),
        }
    }

    /// The state (RFC 9260 4).
    pub fn state(&self) -> State
        ensures { result ≡ self.now.machine.state }
    {
        self.machine.state()
    }

    /// Whether the peer has begun again since the association stood first (RFC 9260 5.2.4 A): `Event::Restarted` was told, and what was under
    /// way is gone.
    pub fn has_restarted(&self) -> bool
        ensures { result ≡ self.now.machine.has_restarted }
    {
        self.machine.has_restarted()
    }

    /// The next event, if there is one: it waited, and is told once.
    pub fn poll(&mut self) -> Option<Event>
        // Each stream that is open keeps its place in the sets of events, and each set its room.
        ensures places { HasPlaces self.old.inbound self.old.events
            → HasPlaces self.new.inbound self.new.events }
        ensures rooms { KeepsRooms self.old.events self.new.events }
        // Each other event that waited waits still, and no other comes to wait.
        ensures others { KeepsOthers self.old.events self.new.events result }
        ensures adds { BringsNone self.old.events self.new.events }
        // None waits where it answers None.
        ensures all { result ≡ None → NoneWaits self.old.events }
        ensures told { IfSome result (IsTold self.old.events self.new.events) }
        ensures rest { self.new ≡ record self.old { events = self.new.events } }
        ensures none { result ≡ None → self.new ≡ self.old }
    {
        self.events.pop()
    }

    /// How many bytes were written to a stream that the peer did not acknowledge, and that neither expired nor were abandoned.
    pub fn buffered_amount(&self, stream: u16) -> usize
        ensures { result ≡ amount_on (stream_of stream self.now.outbound.sender) }
    {
        match self.outbound.sender.stream(stream) {
            Some(state) => state.buffered_amount(),
            None => 0,
        }
    }

    /// The next message of a stream, if one is there: the first complete unordered one, else the ordered one that is due. It is taken out, and
    /// where that opens the window, a SACK is due. It is never refused.
    pub fn read(&mut self, stream: u16, now: u64) -> Result<Option<Chunks>, Fault>
        ensures tells { Tells self.old self.new }
        ensures message { IfOk result (λ message. message
            ≡ option_map at_start (message_in stream self.old.inbound)) }
        ensures taken { AreReadOff now stream self.old.inbound self.new.inbound }
        // The peer may use the same streams.
        ensures usable { (s : ℕ) → usable_in s self.new.inbound ≡ usable_in s self.old.inbound }
        ensures rest { IsSameBeside self.old self.new }
        ensures accepted { IsOk result }
    {
        match &mut self.inbound {
            Some(inbound) => inbound.read(stream, now),
            None => Ok(None),
        }
    }

    /// The length and the payload type of the message that `read` would give.
    pub fn next_len(&self, stream: u16) -> Option<(usize, PayloadProtocolIdentifier)>
        ensures { result ≡ length_of (message_in stream self.now.inbound) }
    {
        match &self.inbound {
            Some(inbound) => inbound.receiver.next_len(stream),
            None => None,
        }
    }

    /// What is held of the peer's messages and was not read: its bytes, and 400 for each chunk. Whatever the peer sends, it is within what
    /// the `Config` says (`laws::what_is_held_is_bounded`).
    pub fn held_bytes(&self) -> usize
        ensures value { result ≡ held_by self.now.inbound }
        ensures within { result ≤ self.now.config.window
            + self.now.config.reach * (most_user_data + chunk_cost) }
        ensures chunks { OfReceiver HoldsFewChunks self.now }
        ensures streams { OfReceiver OpensFewStreams self.now }
    {
        what_is_held_is_bounded();
        match &self.inbound {
            Some(inbound) => inbound.receiver.held_bytes(),
            None => 0,
        }
    }

    /// Ends the association once all that was written is acknowledged (RFC 9260 9.2). Refuses with `WrongState`, where none stands.
    pub fn shutdown(&mut self, now: u64) -> Result<(), Fault>
        ensures tells { Tells self.old self.new }
        ensures accepted { IsOk result → self.old.machine.state ≢ Closed }
        ensures stands { self.old.machine.state ≢ Closed → IsOk result }
        // It begins, or does once the association stands; and it goes on where nothing waits or is in flight: a SHUTDOWN or SHUTDOWN-ACK is due,
        // and T2-shutdown begins, and with a SHUTDOWN T5-shutdown-guard.
        ensures settles { OnOk result (Settles now (asking self.old) self.new) }
        ensures left { LastsNoLonger self.old self.new }
        ensures refused { IfErr result (λ e. e ≡ WrongState) }
        // The receiving half stays: so the peer may use the same streams.
        ensures inbound { self.new.inbound ≡ self.old.inbound }
        ensures halves { HalvesAlike self.old self.new }
        ensures peer { KeepsPeer self.old self.new }
        ensures quiet { self.new.events ≡ self.old.events }
        ensures err { OnErr result (self.new ≡ self.old) }
    {
        if self.machine.state() == State::Closed {
            return Err(Fault::WrongState);
        }
        self.wants_shutdown = self.is_asked();
        self.settle(now);
        Ok(())
    }

    // Whether a shutdown is asked for once `shutdown` is called, and has not begun.
    fn is_asked(&self) -> bool
        ensures { result ≡ wants_at self.now.machine.state self.now.wants_shutdown }
    {
        match self.machine.state() {
            State::CookieWait | State::CookieEchoed | State::Established => true,
            _ => self.wants_shutdown,
        }
    }

    /// Ends the association at once: an ABORT with the cause 12 is due (RFC 9260 9.1). Refuses with `WrongState`, where there is none.
    pub fn abort(&mut self) -> Result<(), Fault>
        ensures tells { Tells self.old self.new }
        ensures accepted { IsOk result → self.old.is_over ≡ false }
        ensures going { self.old.is_over ≡ false → IsOk result }
        // Where the peer is known the ABORT is due, and that it ended so waits to be told.
        ensures aborts { OnOk result (IsAborted (Abort 12) self.old.machine.peer self.new) }
        ensures left { LastsNoLonger self.old self.new }
        ensures refused { IfErr result (λ e. e ≡ WrongState) }
        // The receiving half stays: so the peer may use the same streams.
        ensures inbound { self.new.inbound ≡ self.old.inbound }
        ensures halves { HalvesAlike self.old self.new }
        ensures peer { KeepsPeer self.old self.new }
        ensures tells_end { OnOk result (self.new.events
            ≡ record self.old.events { closed = Some Aborted }) }
        ensures err { OnErr result (self.new ≡ self.old) }
    {
        if self.is_over {
            return Err(Fault::WrongState);
        }
        self.end_with(AloneKind::Abort(12));
        Ok(())
    }

    /// The round trip time, smoothed (RFC 9260 6.3.1).
    pub fn rtt(&self) -> Option<u64>
        ensures { result ≡ smoothed_of self.now.outbound.rto.trips }
    {
        self.outbound.rto.smoothed()
    }

    /// The congestion window in bytes (RFC 9260 7.2).
    pub fn congestion_window(&self) -> usize
        ensures value { result ≡ self.now.outbound.congestion.window }
        ensures a_packet { self.now.outbound.congestion.pmdcs ≤ result }
    {
        self.outbound.congestion.window()
    }

    /// The window that the peer told last.
    pub fn peer_window(&self) -> usize
        ensures { result ≡ self.now.outbound.peer_window }
    {
        self.outbound.peer_window
    }

    // The association ended.
    fn end(&mut self, ending: Ending)
        ensures over { self.new.is_over ≡ true }
        ensures told { self.new.events ≡ record self.old.events { closed = Some ending } }
        ensures timers { StopsTimers self.new }
        ensures rest { self.new ≡ record self.old {
          is_over = self.new.is_over;
          control = self.new.control;
          guard = self.new.guard;
          events = self.new.events;
        } }
    {
        self.is_over = true;
        self.control.stop();
        self.guard.stop();
        self.events.closed = Some(ending);
    }
}
