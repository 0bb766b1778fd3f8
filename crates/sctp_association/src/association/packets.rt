//! What goes into a datagram (RFC 9260 6.10, 8.5).

ghost use Rattle.std.specs.Prelude.{◌≡◌, ◌≢◌, ◌⊎◌, ℕ, ◌<◌, ◌≤◌, ◌-◌, ◌∷◌, None, Ok, Some, IfOk, IfSome, OnErr, OnOk, [], map, true, false, length};
ghost use Rattle.sctp_association.specs.Beginnings.{KeepsPeer};
ghost use Rattle.sctp_association.specs.Congested.{IsAsFull, LeavesWithin, PausesWithin, SendsWithin, is_unsent, pauses};
ghost use Rattle.sctp_association.specs.Halves.{HalvesAlike, IsAsTimed, PutsDue, PutsDueOrData, PutsOnce, PutsOthers, PutsSent, is_sent, sides_of};
ghost use Rattle.sctp_association.specs.Entering.{usable_in};
ghost use Rattle.sctp_association.specs.Filled.{IfNoneAdded, IfNonePut};
ghost use Rattle.sctp_association.specs.Idle.{HasNoSackDue, IsIdle, MayReply, MaySend, OwesNoControl, OwesNone, WaitsForSacks, in_flight, sack_delay, sends};
ghost use Rattle.sctp_association.specs.Kept.{IsUnmoved, unknown_in};
ghost use Rattle.sctp_association.specs.Lasting.{LastsNoLonger};
ghost use Rattle.sctp_association.specs.Leaving.{AsksNoMore, IsDueOrData, IsSentIn, IsStreamTold, LeavesBy, LeavesInto, OwesNothingNew, beats, owed_at, owed_before, owed_of, replies_of};
ghost use Rattle.sctp_association.specs.Lows.{AddsWhere};
ghost use Rattle.sctp_association.specs.Most.{FewerWherePut, most_data, most_packets};
ghost use Rattle.sctp_association.specs.Offering.{IsReplyOf, OffersAsDue, PutsReply, answered, init_with};
ghost use Rattle.sctp_association.specs.declared.due.AloneKind.{AloneKind};
ghost use Rattle.sctp_association.specs.declared.inbound.Inbound.{Inbound};
ghost use Rattle.sctp_association.specs.Ordered.{IsInOrder, PutsInOrder, PutsTypes, control_order};
ghost use Rattle.sctp_association.specs.Probing.{LeavesBeat, PutsBeat, Waits, WaitsIdle};
ghost use Rattle.sctp_association.specs.Reads.{IsSameBeside};
ghost use Rattle.sctp_association.specs.Replying.{AddsReply, IsReply, LeavesAlone, PutsOne, header_to, host_name_causes};
ghost use Rattle.sctp_association.specs.Reports.{one_cause, unrecognized_in};
ghost use Rattle.sctp_association.specs.Requesting.{KeepsResets, LeavesResetBy, LeavesResetIn, OwesNoReset, PutsReset, resets_of};
ghost use Rattle.sctp_association.specs.Rows.{SettlesToSend};
ghost use Rattle.sctp_association.specs.Sending.{IsTimed};
ghost use Rattle.sctp_association.specs.Settled.{LeavesSettled};
ghost use Rattle.sctp_association.specs.Skips.{LeavesSkip, LeavesSkipBy};
ghost use Rattle.sctp_association.specs.Still.{IsLater, heartbeat_time};
ghost use Rattle.sctp_association.specs.Telling.{Tells};
ghost use Rattle.sctp_association.specs.Timers.{EntersTimers};
ghost use Rattle.sctp_association.specs.Packets.{IsPacketOf, IsWritten, Stands, Transmits};
ghost use Rattle.sctp_chunks.specs.Init.{init_of};
ghost use Rattle.sctp_chunks.specs.Wire.{abort_chunk, error_chunk};
ghost use Rattle.sctp_cookie.specs.Cookie.{sealed};
ghost use Rattle.sctp_cookie.specs.Hmac.{hmac_sha256};
ghost use Rattle.sctp_handshake.specs.Tickets.{ticket_bytes};
ghost use Rattle.sctp_handshake.specs.declared.state.State.TheVariants.{CookieEchoed};
ghost use Rattle.sctp_packets.specs.Draft.{IsDraft};
ghost use Rattle.sctp_packets.specs.Packet.{Parts};
ghost use Rattle.sctp_params.specs.Param.{heartbeat_info};
ghost use Rattle.sctp_sender.specs.Thresholds.{fell};
ghost use Rattle.sctp_params.specs.ParamKind.{parameter_of};

use super::Association;
use crate::due::{Alone, AloneKind};
use crate::fault::Fault;
use bytes::{Bytes, BytesMut};
use sctp_chunks::{
    ChunkAbort, ChunkCookieAck, ChunkCookieEcho, ChunkError, ChunkHeartbeat, ChunkHeartbeatAck,
    ChunkInit, ChunkShutdown, ChunkShutdownAck, ChunkShutdownComplete, ErrorCause, ErrorCauseCode,
};
use sctp_cookie::{HmacSha256, seal};
use sctp_handshake::ticket::TICKET_LENGTH;
use sctp_handshake::{Offer, State, Ticket};
use sctp_packets::CommonHeader;
use sctp_params::{
    ParamForwardTsnSupported, ParamHeartbeatInfo, ParamKind, ParamStateCookie, ParamUnknown,
};
use std::alloc::Global;

// The type of the parameter Zero Checksum Acceptable (RFC 9653 4.1).
const ZERO_CHECKSUM_ACCEPTABLE: u16 = 0x8001;

// Its value: the error detection method is DTLS.
const DTLS: [u8; 4] = [0, 0, 0, 1];

// What the cause 2 tells of an INIT ACK: one parameter is missing, the State Cookie (RFC 9260 3.3.10.2).
const NO_COOKIE: [u8; 6] = [0, 0, 0, 1, 0, 7];

// The answer to a HEARTBEAT with this information (RFC 9260 3.3.6).
fn heartbeat_ack(alloc: Global, info: &Bytes) -> Result<ChunkHeartbeatAck, Fault>
    ensures { IfOk result (λ ack.
        map parameter_of ack.params.items ≡ heartbeat_info info.now ∷ []) }
{
    let mut params = Vec::new(alloc);
    params.push(ParamKind::HeartbeatInfo(ParamHeartbeatInfo {
        heartbeat_information: info.clone()?,
    }))?;
    Ok(ChunkHeartbeatAck { params })
}

impl Association {
    /// Writes the next datagram that is due, of at most `Config::mtu` bytes, and answers whether there is one: `datagram` lends it. Call it
    /// until there is none. Refuses only for memory, where nothing else can be sent.
    pub fn poll_transmit(&mut self, now: u64) -> Result<bool, Fault>
        ensures tells { Tells self.old self.new }
        ensures over { self.old.is_over ≡ true → self.old.due.alone ≡ None
            → (result ≡ Ok false) × (self.new ≡ self.old) }
        // It tells no more than that a buffered amount fell to its low threshold: as messages are abandoned or expire, exactly of those streams, where
        // there is room for them (`write` makes it).
        ensures quiet { self.new.events ≡ record self.old.events { low = self.new.events.low } }
        ensures lows { AddsWhere (λ s. fell s self.old.outbound.sender self.new.outbound.sender)
            self.old.events.low self.new.events.low }
        ensures made { Transmits (is_sent result) (sides_of self.old) (sides_of self.new) }
        // An INIT has the first TSN of this side; an INIT ACK has a cookie over the ticket that was due.
        ensures offers { is_sent result ≡ true → OffersAsDue self.old self.new.draft.bytes }
        ensures peer { KeepsPeer self.old self.new }
        // The peer may use the same streams.
        ensures usable { (s : ℕ) → usable_in s self.new.inbound ≡ usable_in s self.old.inbound }
        ensures left { LastsNoLonger self.old self.new }
        // The shutdown that was asked for begins, and goes on where nothing waits or is in flight (RFC 9260 9.2).
        ensures settles { self.old.due.alone ≡ None → self.old.is_over ≡ false
            → OnOk result (SettlesToSend now self.old self.new) }
        // So the SHUTDOWN or SHUTDOWN-ACK is due as its state is entered, and leaves or stays due.
        ensures enters { self.old.due.alone ≡ None → self.old.is_over ≡ false
            → OnOk result (LeavesSettled (is_sent result) self.old self.new) }
        // T2-shutdown, and T5-shutdown-guard, begin as its state is entered, whatever is answered.
        ensures timers { EntersTimers now self.old self.new }
        // The one reply that is due leaves first, in a packet of its own, with exactly its chunks.
        ensures reply { IfSome self.old.due.alone (λ alone. IfOk result
            (λ sent. (sent ≡ true) × LeavesAlone alone self.old self.new)) }
        // Where memory is refused it stays due.
        ensures refused { IfSome self.old.due.alone
            (λ alone. OnErr result (self.new.due.alone ≡ Some alone)) }
        // Where there is no datagram no other reply is due either, nor an ERROR or a HEARTBEAT. In CookieEchoed a COOKIE-ECHO goes alone (RFC
        // 9260 5.1 C).
        ensures owes { result ≡ Ok false → MayReply self.new → OwesNone now self.new }
        // Where there is no datagram though DATA may leave: what waits or is to be sent again waits for a SACK, or for T3-rtx.
        ensures idle { result ≡ Ok false → MaySend self.new → IsIdle now self.new }
        // A FORWARD-TSN leaves first, then DATA again, where it may (RFC 9260 6.3.3 E3, 7.2.4), then new DATA: each chunk while nothing is
        // outstanding; or at most cwnd is, the burst lasts, and the peer's window has room (6.1 A, B, D). For each idle RTO cwnd falls once
        // (7.2.1). A burst lasts until no datagram is due.
        ensures within { SendsWithin now (pauses result self.new) self.old.outbound
            self.new.outbound }
        // What else is due stays due, or leaves in the datagram: a COOKIE-ECHO with the cookie, a SHUTDOWN or SACK with the cumulative TSN, a
        // HEARTBEAT-ACK with what came, an ERROR with its report. Only one that no packet has room for is dropped.
        ensures leaves { LeavesBy (is_sent result) self.old self.new }
        // So a FORWARD-TSN does, unless none can be made that a packet has room for.
        ensures skips { LeavesSkipBy (is_sent result) self.old self.new }
        // A RE-CONFIG has the response that is due, and the request whose moment has come, which may begin now (RFC 6525 5.1, 5.2.1). One that does
        // not leave stays due; where there is no datagram none is.
        ensures resets { LeavesResetBy now result self.old self.new }
        // A HEARTBEAT leaves only where one is due, and one at most: its answer is to have this moment in it. Else the one that is awaited stays, and when
        // the next one is due, but where DATA leaves now (8.3).
        ensures beats { LeavesBeat now (is_sent result) self.old self.new }
        // Its control chunks stand in one order, with one of each type at most, but two ERRORs; behind them stands DATA (6.10).
        ensures order { is_sent result ≡ true → self.old.due.alone ≡ None
            → IsInOrder self.new.draft.bytes }
        // Nothing else comes to be due, but a SHUTDOWN or SHUTDOWN-ACK where nothing waits or is in flight; no HEARTBEAT or RE-CONFIG (`moments`).
        ensures asks { OwesNothingNew (owed_of self.old) (owed_of self.new) }
        ensures moments { AsksNoMore now self.old self.new }
        // Each call that writes a datagram leaves fewer that can leave at this moment: with the same `now` at most `most_packets` calls write one.
        ensures fewer { result ≡ Ok true
            → most_packets now self.new < most_packets now self.old }
        // What left is due no more: each COOKIE-ECHO, COOKIE-ACK, SHUTDOWN, SHUTDOWN-ACK, HEARTBEAT-ACK, SACK, HEARTBEAT, ERROR, FORWARD-TSN and
        // parameter of a RE-CONFIG in a packet of what else is due was due, as it says. Beside these it has only DATA.
        ensures once { is_sent result ≡ true → self.old.due.alone ≡ None
            → IsPacketOf (IsDueOrData (owed_before now self.old) (owed_at now self.new))
            self.new.draft.bytes }
    {
        if let Some(alone) = self.due.alone {
            self.put_alone(alone, now)?;
            self.due.alone = None;
            return Ok(true);
        }
        if self.is_over {
            return Ok(false);
        }
        self.outbound.abandon(&mut self.events.low, now)?;
        self.settle(now);
        let Some(peer) = self.machine.peer() else {
            return Ok(false);
        };
        let is_zero = peer.zero_checksum && self.config.zero_checksum && !self.due.cookie_echo;
        let header = self.header(peer.tag);
        self.put_packet(header, is_zero, now)
    }

    // Writes a packet of what is due, and answers whether it has a chunk.
    fn put_packet(&mut self, header: CommonHeader, is_zero: bool, now: u64) -> Result<bool, Fault>
        ensures made { Transmits (is_sent result) (sides_of self.old) (sides_of self.new) }
        ensures once { is_sent result ≡ true
            → IsPacketOf (IsDueOrData (owed_at now self.old) (owed_at now self.new))
            self.new.draft.bytes }
        ensures kept { IsUnmoved self.old self.new }
        ensures moments { AsksNoMore now self.old self.new }
        ensures owes { result ≡ Ok false → self.new.machine.state ≢ CookieEchoed
            → OwesNone now self.new }
        ensures idle { result ≡ Ok false → sends self.new.machine.state ≡ true
            → IsIdle now self.new }
        ensures within { PausesWithin now (is_unsent result) self.old.outbound self.new.outbound }
        ensures leaves { LeavesBy (is_sent result) self.old self.new }
        ensures skips { LeavesSkip (IsSentIn (is_sent result) self.new.draft.bytes)
            self.old.draft.limit self.old.outbound.sender self.old.outbound.is_skip_due
            self.new.outbound.is_skip_due }
        ensures resets { LeavesResetIn now (is_sent result) self.old.outbound.sender
            self.old self.new }
        ensures beats { LeavesBeat now (is_sent result) self.old self.new }
        ensures unasked { result ≡ Ok false → self.new.machine.state ≢ CookieEchoed
            → OwesNoReset now self.old.outbound.sender (resets_of self.old) }
        ensures fewer { result ≡ Ok true
            → most_packets now self.new < most_packets now self.old }
        ensures order { is_sent result ≡ true → IsInOrder self.new.draft.bytes }
    {
        self.draft.begin(header)?;
        let filled = self.fill(now);
        if self.draft.is_empty() {
            filled?;
            self.outbound.pause(now);
            return Ok(false);
        }
        self.draft.seal(is_zero);
        Ok(true)
    }

    /// The datagram that `poll_transmit` wrote last.
    pub fn datagram(&self) -> &[u8]
        ensures value { result.now ≡ self.now.draft.bytes }
        ensures fits { length result.now ≤ self.now.draft.limit }
    {
        self.draft.bytes()
    }

    // The header of a packet with a verification tag.
    fn header(&self, tag: u32) -> CommonHeader
        ensures { result ≡ header_to self.now.config tag }
    {
        CommonHeader {
            source_port: self.config.source_port,
            destination_port: self.config.destination_port,
            verification_tag: tag,
        }
    }

    // Writes a packet of one reply.
    #[inline(never)]
    fn put_alone(&mut self, alone: Alone, now: u64) -> Result<(), Fault>
        ensures written { OnOk result (IsWritten [] [] self.new.draft.bytes) }
        ensures offers { OnOk result (IsPacketOf
            (IsReplyOf self.old.key self.old.machine alone.kind) self.new.draft.bytes) }
        ensures reply { OnOk result (IsReply alone self.old self.new.draft.bytes) }
        ensures halves { HalvesAlike self.old self.new }
        ensures kept { IsUnmoved self.old self.new }
        ensures timed { IsAsTimed self.old self.new }
        ensures replies { replies_of self.new ≡ replies_of self.old }
    {
        let header = self.header(alone.tag);
        self.draft.begin(header)?;
        self.put_reply(alone.kind, now)?;
        self.draft.seal(false);
        Ok(())
    }

    // Puts its chunks.
    #[tactic(auto, using(crate::proofs::Others::others_one, crate::proofs::Others::others_none))]
    fn put_reply(&mut self, kind: AloneKind, now: u64) -> Result<(), Fault>
        ensures reply { PutsReply kind self.old self.new }
        ensures timed { IsAsTimed self.old self.new }
        // Into a packet with no chunk exactly its chunks are put.
        ensures whole { OnOk result (length self.old.draft.bytes ≡ 12
            → AddsReply kind self.old self.new) }
        ensures replies { replies_of self.new ≡ replies_of self.old }
    {
        match kind {
            AloneKind::Init => {
                let init = self.init_of(self.machine.own(), None)?;
                self.draft.put(&init);
                Ok(())
            }
            AloneKind::InitAck(ticket) => {
                let cookie = self.cookie_of(&ticket, now)?;
                let init = self.init_of(ticket.own, Some(cookie))?;
                self.draft.put(&init);
                self.due.unknown_params = None;
                Ok(())
            }
            AloneKind::StaleCookie(by) => self.put_error(3, &by.to_be_bytes()),
            AloneKind::ShuttingDown => {
                self.draft.put(&ChunkShutdownAck);
                self.put_error(10, &[])
            }
            AloneKind::ShutdownComplete => {
                self.draft.put(&ChunkShutdownComplete);
                Ok(())
            }
            AloneKind::Abort(cause) => self.put_abort(cause, &[]),
            AloneKind::NoCookie => self.put_abort(2, &NO_COOKIE),
            AloneKind::HostName => self.put_host_name(),
            AloneKind::NoUserData(tsn) => self.put_abort(9, &tsn.to_be_bytes()),
        }
    }

    // An INIT, or with a cookie an INIT ACK, with an offer. An INIT ACK has what it reports before what it offers.
    fn init_of(&self, own: Offer, cookie: Option<Bytes>) -> Result<ChunkInit, Fault>
        ensures { IfOk result (λ i. init_of i ≡ init_with own cookie (unrecognized_in
            (self.now.draft.limit - length self.now.draft.bytes - 132)
            self.now.due.unknown_params)) }
    {
        let is_ack = cookie.is_some();
        let mut params = self.first_params(cookie)?;
        params.push(ParamKind::ForwardTsnSupported(ParamForwardTsnSupported))?;
        let mut init = ChunkInit {
            is_ack,
            initiate_tag: own.tag,
            advertised_receiver_window_credit: own.window,
            num_outbound_streams: own.outbound_streams,
            num_inbound_streams: own.inbound_streams,
            initial_tsn: own.first_tsn,
            params,
        };
        if init.set_supported_extensions(self.alloc).is_err() {
            return Err(Fault::OutOfMemory);
        }
        if !own.zero_checksum {
            return Ok(init);
        }
        let value = Bytes::copy_from_slice(self.alloc, &DTLS)?;
        init.params.push(ParamKind::Unknown(ParamUnknown {
            typ: ZERO_CHECKSUM_ACCEPTABLE,
            value,
        }))?;
        Ok(init)
    }

    // The parameters before those that an offer has: with a cookie it goes first, and then what is reported.
    fn first_params(&self, cookie: Option<Bytes>) -> Result<Vec<ParamKind>, Fault>
        ensures { IfOk result (λ params. map parameter_of params.items
            ≡ answered cookie (unrecognized_in
            (self.now.draft.limit - length self.now.draft.bytes - 132)
            self.now.due.unknown_params)) }
    {
        let mut params = Vec::new(self.alloc);
        let Some(cookie) = cookie else {
            return Ok(params);
        };
        params.push(ParamKind::StateCookie(ParamStateCookie { cookie }))?;
        self.push_reported(&mut params)?;
        Ok(params)
    }

    // The cookie that holds a ticket (RFC 9260 5.1.3).
    fn cookie_of(&self, ticket: &Ticket, now: u64) -> Result<Bytes, Fault>
        ensures { IfOk result (λ cookie. cookie
            ≡ sealed (hmac_sha256 self.now.key) now (ticket_bytes ticket.now)) }
    {
        let mut payload = BytesMut::with_capacity(self.alloc, TICKET_LENGTH)?;
        ticket.put(&mut payload);
        match seal(self.alloc, &HmacSha256, &self.key, now, payload.as_slice()) {
            Ok(cookie) => Ok(cookie),
            Err(_) => Err(Fault::OutOfMemory),
        }
    }

    // Puts an ERROR with one cause.
    #[tactic(auto, using(crate::proofs::Offering::reply_one, crate::proofs::Offering::reply_none))]
    #[inline(never)]
    fn put_error(&mut self, code: u16, info: &[u8]) -> Result<(), Fault>
        ensures reply { (kind : AloneKind) → PutsReply kind self.old self.new }
        ensures put { OnOk result
            (PutsOne (error_chunk (one_cause code info.now)) self.old.draft self.new.draft) }
        ensures rest { self.new ≡ record self.old { draft = self.new.draft } }
        ensures err { OnErr result (self.new ≡ self.old) }
        ensures replies { replies_of self.new ≡ replies_of self.old }
    {
        let error = ChunkError {
            error_causes: self.causes(code, info)?,
        };
        self.draft.put(&error);
        Ok(())
    }

    // Puts an ABORT with one cause.
    #[tactic(auto, using(crate::proofs::Offering::reply_one, crate::proofs::Offering::reply_none))]
    fn put_abort(&mut self, code: u16, info: &[u8]) -> Result<(), Fault>
        ensures reply { (kind : AloneKind) → PutsReply kind self.old self.new }
        ensures timed { IsAsTimed self.old self.new }
        ensures put { OnOk result
            (PutsOne (abort_chunk (one_cause code info.now)) self.old.draft self.new.draft) }
        ensures replies { replies_of self.new ≡ replies_of self.old }
    {
        let abort = ChunkAbort {
            error_causes: self.causes(code, info)?,
        };
        self.draft.put(&abort);
        Ok(())
    }

    // Puts an ABORT about a Host Name Address (RFC 9260 5.1.2).
    #[tactic(auto, using(crate::proofs::Offering::reply_one, crate::proofs::Offering::reply_none))]
    fn put_host_name(&mut self) -> Result<(), Fault>
        ensures reply { (kind : AloneKind) → PutsReply kind self.old self.new }
        ensures timed { IsAsTimed self.old self.new }
        ensures put { OnOk result (PutsOne (abort_chunk (host_name_causes
            (self.old.draft.limit - length self.old.draft.bytes) self.old.due.unknown_params))
            self.old.draft self.new.draft) }
        ensures replies { replies_of self.new ≡ replies_of self.old }
    {
        let error_causes = self.host_name_causes()?;
        self.draft.put(&ChunkAbort { error_causes });
        Ok(())
    }

    // What an ABORT tells of a Host Name Address, where that is kept and has room behind the headers of chunk and cause.
    fn host_name_causes(&self) -> Result<Vec<ErrorCause>, Fault>
        ensures { IfOk result (λ causes. causes.items ≡ host_name_causes
            (self.now.draft.limit - length self.now.draft.bytes) self.now.due.unknown_params) }
    {
        let most = self.draft.room().saturating_sub(8) / 4 * 4;
        match &self.due.unknown_params {
            Some(raw) if raw.len() <= most => self.causes(5, raw.as_slice()),
            _ => Ok(Vec::new(self.alloc)),
        }
    }

    /// One cause.
    pub(super) fn causes(&self, code: u16, info: &[u8]) -> Result<Vec<ErrorCause>, Fault>
        ensures { IfOk result (λ causes. causes.items ≡ one_cause code info.now) }
    {
        let raw = Bytes::copy_from_slice(self.alloc, info)?;
        let mut causes = Vec::new(self.alloc);
        causes.push(ErrorCause {
            code: ErrorCauseCode(code),
            raw,
        })?;
        Ok(causes)
    }

    // Puts what is due into a packet: control chunks first (RFC 9260 6.10).
    fn fill(&mut self, now: u64) -> Result<(), Fault>
        ensures made { PutsDueOrData now self.old self.new }
        ensures kept { IsUnmoved self.old self.new }
        ensures moments { AsksNoMore now self.old self.new }
        ensures owes { OnOk result (self.new.machine.state ≢ CookieEchoed
            → IfNoneAdded self.old.draft.bytes self.new.draft.bytes (OwesNone now self.new)) }
        ensures idle { OnOk result (sends self.new.machine.state ≡ true → (p : Parts)
            → IsDraft p self.old.draft.bytes → length self.new.draft.bytes ≤ 12
            → IsIdle now self.new) }
        ensures within { LeavesWithin now self.old.outbound self.new.outbound }
        ensures leaves { LeavesInto self.old self.new }
        ensures skips { (p : Parts) → IsDraft p self.old.draft.bytes
            → LeavesSkip (Stands self.old.draft.bytes self.new.draft.bytes) self.old.draft.limit
            self.old.outbound.sender self.old.outbound.is_skip_due self.new.outbound.is_skip_due }
        ensures resets { (p : Parts) → IsDraft p self.old.draft.bytes
            → PutsReset now self.old self.new }
        ensures beats { PutsBeat (WaitsIdle now) now self.old self.new }
        ensures unasked { OnOk result (self.new.machine.state ≢ CookieEchoed
            → IfNoneAdded self.old.draft.bytes self.new.draft.bytes
            (OwesNoReset now self.old.outbound.sender (resets_of self.old))) }
        ensures fewer { (p : Parts) → IsDraft p self.old.draft.bytes
            → FewerWherePut (most_packets now self.old) (most_packets now self.new)
            self.old.draft.bytes self.new.draft.bytes }
        ensures order { PutsInOrder control_order
            self.old.draft.bytes self.new.draft.bytes }
    {
        self.put_cookies();
        if self.machine.state() == State::CookieEchoed {
            // With the cookie goes what is told of its INIT ACK (RFC 9260 3.2.2), and nothing else does (5.1 C).
            return if self.draft.is_empty() {
                Ok(())
            } else {
                self.put_report()
            };
        }
        self.put_sack(now)?;
        self.put_control(now)?;
        self.put_data(now)
    }

    // Puts what is due beside cookies, SACKs and DATA.
    fn put_control(&mut self, now: u64) -> Result<(), Fault>
        ensures made { PutsDue now self.old self.new }
        ensures kept { IsUnmoved self.old self.new }
        ensures moments { AsksNoMore now self.old self.new }
        ensures owes { OnOk result (IfNoneAdded self.old.draft.bytes self.new.draft.bytes
            (OwesNoControl now self.new)) }
        ensures acks { sack_delay self.new ≡ sack_delay self.old }
        ensures full { IsAsFull self.old.outbound self.new.outbound }
        ensures leaves { LeavesInto self.old self.new }
        ensures skip { self.new.outbound.is_skip_due ≡ self.old.outbound.is_skip_due }
        ensures resets { (p : Parts) → IsDraft p self.old.draft.bytes
            → PutsReset now self.old self.new }
        ensures beats { PutsBeat Waits now self.old self.new }
        ensures unasked { OnOk result (IfNoneAdded self.old.draft.bytes self.new.draft.bytes
            (OwesNoReset now self.old.outbound.sender (resets_of self.old))) }
        ensures order { PutsTypes (7 ∷ 8 ∷ 5 ∷ 4 ∷ 9 ∷ 9 ∷ 130 ∷ [])
            self.old.draft.bytes self.new.draft.bytes }
    {
        self.put_shutdown();
        self.put_heartbeats(now)?;
        self.put_unknown_stream()?;
        self.put_report()?;
        self.put_resets(now)
    }

    // Puts FORWARD-TSN and DATA, in the states in which they may be sent.
    fn put_data(&mut self, now: u64) -> Result<(), Fault>
        ensures made { PutsSent self.old self.new }
        ensures kept { IsUnmoved self.old self.new }
        ensures moments { AsksNoMore now self.old self.new }
        ensures acks { sack_delay self.new ≡ sack_delay self.old }
        ensures idle { OnOk result (sends self.new.machine.state ≡ true
            → IfNonePut self.old.draft.bytes self.new.draft.bytes
            (WaitsForSacks self.new.draft.limit self.new.outbound.sender
            × IsTimed (in_flight self.new.outbound.sender) self.new.outbound.timer.at)) }
        ensures skip { OnOk result (sends self.new.machine.state ≡ true
            → IfNonePut self.old.draft.bytes self.new.draft.bytes
            (self.new.outbound.is_skip_due ≡ false)) }
        ensures within { LeavesWithin now self.old.outbound self.new.outbound }
        ensures replies { replies_of self.new ≡ replies_of self.old }
        ensures skips { 12 ≤ length self.old.draft.bytes
            → LeavesSkip (Stands self.old.draft.bytes self.new.draft.bytes) self.old.draft.limit
            self.old.outbound.sender self.old.outbound.is_skip_due self.new.outbound.is_skip_due }
        ensures resets { resets_of self.new ≡ resets_of self.old }
        ensures beats { WaitsIdle now self.old self.new }
        ensures fewer { FewerWherePut (most_data self.old.outbound) (most_data self.new.outbound)
            self.old.draft.bytes self.new.draft.bytes }
        ensures order { PutsInOrder (192 ∷ [])
            self.old.draft.bytes self.new.draft.bytes }
    {
        if !self.machine.state().sends_data() {
            return Ok(());
        }
        self.outbound.put(&mut self.draft, now)?;
        self.note_use(now);
        Ok(())
    }

    // A path on which DATA left is not idle (RFC 9260 8.3).
    #[tactic(auto, using(crate::proofs::Owing::used_later))]
    fn note_use(&mut self, now: u64)
        ensures rest { self.new ≡ record self.old { heartbeat = self.new.heartbeat } }
        ensures moments { AsksNoMore now self.old self.new }
        ensures beats { WaitsIdle now self.old self.new }
    {
        if let Some(heartbeat) = &mut self.heartbeat {
            if self.outbound.was_used(now) {
                heartbeat.used(now);
            }
        }
    }

    // Puts COOKIE-ECHO or COOKIE-ACK.
    fn put_cookies(&mut self)
        ensures others { PutsOthers self.old self.new }
        ensures owes { IfNoneAdded self.old.draft.bytes self.new.draft.bytes
            (self.new.due.cookie_ack ≡ false) }
        ensures leaves { LeavesInto self.old self.new }
        ensures order { PutsTypes (10 ∷ 11 ∷ [])
            self.old.draft.bytes self.new.draft.bytes }
    {
        self.put_cookie_echo();
        self.put_cookie_ack();
    }

    // The cookie stays, since its COOKIE-ECHO may be lost.
    #[tactic(auto, using(crate::proofs::Ordered::order_one, crate::proofs::Ordered::order_none, crate::proofs::Others::others_one, crate::proofs::Others::others_none, crate::proofs::Others::others_then))]
    fn put_cookie_echo(&mut self)
        ensures others { PutsOthers self.old self.new }
        ensures leaves { LeavesInto self.old self.new }
        ensures order { PutsTypes (10 ∷ [])
            self.old.draft.bytes self.new.draft.bytes }
    {
        if !self.due.cookie_echo {
            return;
        }
        let Some(cookie) = self.cookie.take() else {
            return;
        };
        let echo = ChunkCookieEcho { cookie };
        let is_put = self.draft.put(&echo);
        self.cookie = Some(echo.cookie);
        if is_put {
            self.due.cookie_echo = false;
        }
    }

    // Puts the COOKIE-ACK that is due.
    #[tactic(auto, using(crate::proofs::Ordered::order_one, crate::proofs::Ordered::order_none, crate::proofs::Others::others_one, crate::proofs::Others::others_none, crate::proofs::Others::others_then))]
    fn put_cookie_ack(&mut self)
        ensures others { PutsOthers self.old self.new }
        ensures owes { IfNonePut self.old.draft.bytes self.new.draft.bytes
            (self.new.due.cookie_ack ≡ false) }
        ensures leaves { LeavesInto self.old self.new }
        ensures order { PutsTypes (11 ∷ [])
            self.old.draft.bytes self.new.draft.bytes }
    {
        if self.due.cookie_ack && self.draft.put(&ChunkCookieAck) {
            self.due.cookie_ack = false;
        }
    }

    // Puts the SACK that is due, or one that waits where DATA goes with it (RFC 9260 6.1).
    #[tactic(auto, using(crate::proofs::Ordered::order_one, crate::proofs::Ordered::order_none, crate::proofs::Others::same_puts))]
    fn put_sack(&mut self, now: u64) -> Result<(), Fault>
        ensures made { PutsOnce self.old self.new }
        ensures kept { IsUnmoved self.old self.new }
        ensures timed { IsAsTimed self.old self.new }
        ensures idle { OnOk result (IfNonePut self.old.draft.bytes self.new.draft.bytes
            (HasNoSackDue now self.new)) }
        ensures full { IsAsFull self.old.outbound self.new.outbound }
        ensures leaves { LeavesInto self.old self.new }
        ensures skip { self.new.outbound.is_skip_due ≡ self.old.outbound.is_skip_due }
        ensures order { PutsTypes (3 ∷ [])
            self.old.draft.bytes self.new.draft.bytes }
    {
        let has_data = self.outbound.has_data() && self.machine.state().sends_data();
        match &mut self.inbound {
            Some(inbound) => inbound.put_sack(&mut self.draft, has_data, now),
            None => Ok(()),
        }
    }

    // Puts SHUTDOWN or SHUTDOWN-ACK (RFC 9260 9.2).
    fn put_shutdown(&mut self)
        ensures made { PutsOnce self.old self.new }
        ensures kept { IsUnmoved self.old self.new }
        ensures timed { IsAsTimed self.old self.new }
        ensures owes { IfNoneAdded self.old.draft.bytes self.new.draft.bytes
            (((self.new.due.shutdown ≡ false) ⊎ (sack_delay self.new ≡ None))
            × (self.new.due.shutdown_ack ≡ false)) }
        ensures acks { sack_delay self.new ≡ sack_delay self.old }
        ensures full { IsAsFull self.old.outbound self.new.outbound }
        ensures leaves { LeavesInto self.old self.new }
        ensures skip { self.new.outbound.is_skip_due ≡ self.old.outbound.is_skip_due }
        ensures order { PutsTypes (7 ∷ 8 ∷ [])
            self.old.draft.bytes self.new.draft.bytes }
    {
        self.put_shutdown_asked();
        self.put_shutdown_ack();
    }

    // Puts the SHUTDOWN that is due: it acknowledges what a SACK would.
    #[tactic(auto, using(crate::proofs::Ordered::order_one, crate::proofs::Ordered::order_none, crate::proofs::Others::same_puts))]
    fn put_shutdown_asked(&mut self)
        ensures made { PutsOnce self.old self.new }
        ensures kept { IsUnmoved self.old self.new }
        ensures timed { IsAsTimed self.old self.new }
        ensures owes { IfNonePut self.old.draft.bytes self.new.draft.bytes
            ((self.new.due.shutdown ≡ false) ⊎ (sack_delay self.new ≡ None)) }
        ensures acks { sack_delay self.new ≡ sack_delay self.old }
        ensures full { IsAsFull self.old.outbound self.new.outbound }
        ensures leaves { LeavesInto self.old self.new }
        ensures skip { self.new.outbound.is_skip_due ≡ self.old.outbound.is_skip_due }
        ensures order { PutsTypes (7 ∷ [])
            self.old.draft.bytes self.new.draft.bytes }
    {
        if !self.due.shutdown {
            return;
        }
        let Some(inbound) = &self.inbound else {
            return;
        };
        let shutdown = ChunkShutdown {
            cumulative_tsn_ack: inbound.receiver.cumulative_tsn(),
        };
        if self.draft.put(&shutdown) {
            self.due.shutdown = false;
        }
    }

    // Puts the SHUTDOWN-ACK that is due.
    #[tactic(auto, using(crate::proofs::Ordered::order_one, crate::proofs::Ordered::order_none, crate::proofs::Others::others_one, crate::proofs::Others::others_none, crate::proofs::Others::others_then))]
    fn put_shutdown_ack(&mut self)
        ensures others { PutsOthers self.old self.new }
        ensures owes { IfNonePut self.old.draft.bytes self.new.draft.bytes
            (self.new.due.shutdown_ack ≡ false) }
        ensures asked { self.new.due.shutdown ≡ self.old.due.shutdown }
        ensures acks { sack_delay self.new ≡ sack_delay self.old }
        ensures leaves { LeavesInto self.old self.new }
        ensures order { PutsTypes (8 ∷ [])
            self.old.draft.bytes self.new.draft.bytes }
    {
        if self.due.shutdown_ack && self.draft.put(&ChunkShutdownAck) {
            self.due.shutdown_ack = false;
        }
    }

    // Puts the answer to a HEARTBEAT, and a HEARTBEAT of an idle path (RFC 9260 8.3).
    fn put_heartbeats(&mut self, now: u64) -> Result<(), Fault>
        ensures made { PutsDue now self.old self.new }
        ensures halves { HalvesAlike self.old self.new }
        ensures kept { IsUnmoved self.old self.new }
        ensures moments { AsksNoMore now self.old self.new }
        ensures owes { OnOk result (IfNoneAdded self.old.draft.bytes self.new.draft.bytes
            ((self.new.due.heartbeat ≡ None) × (beats now self.new ≡ false))) }
        ensures acks { sack_delay self.new ≡ sack_delay self.old }
        ensures leaves { LeavesInto self.old self.new }
        ensures resets { KeepsResets self.old self.new }
        ensures beats { PutsBeat Waits now self.old self.new }
        ensures order { PutsTypes (5 ∷ 4 ∷ [])
            self.old.draft.bytes self.new.draft.bytes }
    {
        self.put_heartbeat_ack()?;
        match self.next_heartbeat() {
            Some(at) if at <= now => self.put_heartbeat(now),
            _ => Ok(()),
        }
    }

    // Puts the answer to a HEARTBEAT. It waits for a packet that is empty, where one has no room for it; one that is too long for that is
    // dropped, since no control chunk is cut (RFC 9260 6.10, 8.3).
    #[tactic(auto, using(crate::proofs::Ordered::order_one, crate::proofs::Ordered::order_none, crate::proofs::Others::others_one, crate::proofs::Others::others_none, crate::proofs::Others::others_then))]
    #[inline(never)]
    fn put_heartbeat_ack(&mut self) -> Result<(), Fault>
        ensures others { PutsOthers self.old self.new }
        ensures owes { OnOk result (IfNonePut self.old.draft.bytes self.new.draft.bytes
            (self.new.due.heartbeat ≡ None)) }
        ensures acks { sack_delay self.new ≡ sack_delay self.old }
        ensures leaves { LeavesInto self.old self.new }
        ensures order { PutsTypes (5 ∷ [])
            self.old.draft.bytes self.new.draft.bytes }
    {
        let Some(info) = &self.due.heartbeat else {
            return Ok(());
        };
        let is_put = self.draft.put(&heartbeat_ack(self.alloc, info)?);
        if is_put || self.draft.is_empty() {
            self.due.heartbeat = None;
        }
        Ok(())
    }

    // Puts a HEARTBEAT with this time. The next one is later.
    #[tactic(auto, using(crate::proofs::Ordered::order_one, crate::proofs::Ordered::order_none, crate::proofs::Owing::used_later, crate::proofs::Others::same_puts, crate::proofs::Requesting::keeps_same))]
    #[inline(never)]
    fn put_heartbeat(&mut self, now: u64) -> Result<(), Fault>
        requires due { beats now self.old ≡ true }
        ensures made { PutsDue now self.old self.new }
        ensures halves { HalvesAlike self.old self.new }
        ensures kept { IsUnmoved self.old self.new }
        ensures moments { AsksNoMore now self.old self.new }
        ensures acks { sack_delay self.new ≡ sack_delay self.old }
        ensures once { OnOk result (self.new.draft ≡ self.old.draft
            ⊎ IsLater now (heartbeat_time self.new)) }
        ensures owes { OnOk result (IfNonePut self.old.draft.bytes self.new.draft.bytes
            (beats now self.new ≡ false)) }
        ensures replies { replies_of self.new ≡ replies_of self.old }
        ensures resets { KeepsResets self.old self.new }
        ensures beats { PutsBeat Waits now self.old self.new }
        ensures order { PutsTypes (4 ∷ [])
            self.old.draft.bytes self.new.draft.bytes }
    {
        let Some(heartbeat) = &mut self.heartbeat else {
            return Ok(());
        };
        let info = Bytes::copy_from_slice(self.alloc, &now.to_be_bytes())?;
        let mut params = Vec::new(self.alloc);
        params.push(ParamKind::HeartbeatInfo(ParamHeartbeatInfo {
            heartbeat_information: info,
        }))?;
        if self.draft.put(&ChunkHeartbeat { params }) {
            heartbeat.sent(now, now);
        }
        Ok(())
    }

    // Puts the ERROR about a chunk of no such stream (RFC 9260 6.5, 3.3.10.1), if it fits: it waits for a packet that is empty, into which it
    // always fits. Refuses only for memory, and nothing has changed then.
    #[tactic(auto, using(crate::proofs::Ordered::order_one, crate::proofs::Ordered::order_none, crate::proofs::Others::others_one, crate::proofs::Others::others_none, crate::proofs::Others::others_then))]
    fn put_unknown_stream(&mut self) -> Result<(), Fault>
        ensures others { PutsOthers self.old self.new }
        ensures acks { sack_delay self.new ≡ sack_delay self.old }
        ensures leaves { LeavesInto self.old self.new }
        ensures owes { OnOk result (IfNonePut self.old.draft.bytes self.new.draft.bytes
            (unknown_in self.new.inbound ≡ None)) }
        ensures err { OnErr result (self.new ≡ self.old) }
        ensures order { PutsTypes (9 ∷ [])
            self.old.draft.bytes self.new.draft.bytes }
    {
        let Some(inbound) = &self.inbound else {
            return Ok(());
        };
        let Some(stream) = inbound.unknown_stream else {
            return Ok(());
        };
        let number = stream.to_be_bytes();
        let told = ChunkError {
            error_causes: self.causes(1, &[number[0], number[1], 0, 0])?,
        };
        let is_told = self.draft.put(&told);
        if is_told || self.draft.is_empty() {
            self.note_stream_told();
        }
        Ok(())
    }

    // The peer is told of the stream.
    fn note_stream_told(&mut self)
        ensures told { IfSome self.old.inbound (λ old. (new : Inbound)
            × (self.new.inbound ≡ Some new) × IsStreamTold old new) }
        ensures rest { IsSameBeside self.old self.new }
    {
        if let Some(inbound) = &mut self.inbound {
            inbound.unknown_stream = None;
        }
    }
}
