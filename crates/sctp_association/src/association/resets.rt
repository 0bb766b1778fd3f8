//! Streams that are reset (RFC 6525; RFC 8831 6.7).

ghost use Rattle.std.specs.Prelude.{◌≡◌, ◌⊎◌, ◌<◌, ◌≤◌, max, true, false, Ok, Err, IfErr, IfOk, IfSome, IsOk, OnOk, OnErr, drop, is_some, length, take, ◌∷◌, []};
ghost use Rattle.std.specs.Option.{option_map};
ghost use Rattle.sctp_association.specs.Arrivals.{CallsArrive, HearsBy, Does, Follows, IsReset, IsResetAt, IsRestart, ParamAsks, ParamAsksIn, ReceivedIn};
ghost use Rattle.sctp_association.specs.Kept.{IsKept, IsUnmoved, RestStays};
ghost use Rattle.sctp_association.specs.Calls.{is_resettable};
ghost use Rattle.sctp_association.specs.Events.{BringsNone};
ghost use Rattle.sctp_association.specs.Expected.{AsExpected, takes_resets};
ghost use Rattle.sctp_association.specs.Halves.{HalvesAlike, PutsDue, halves_of, receiver_of};
ghost use Rattle.sctp_association.specs.Filled.{IfNonePut};
ghost use Rattle.sctp_association.specs.Idle.{sack_delay};
ghost use Rattle.sctp_association.specs.Leaving.{AsksNoMore, IsReconfigOf, PutsReconfig, replies_of, requests_due, responses_due};
ghost use Rattle.sctp_association.specs.Partly.{ParamPart, ParamsPart, RequestPart, ResetsPart, ResetsPartListed, StaysUnreset};
ghost use Rattle.sctp_association.specs.Reconfigs.{FollowsBytes, ParamOn, ReconfigOn, RequestOn, ResetsEach, ResetsListed, ResetsStream, answered, denied_by, inbound_agreed, number_at, numbers_from};
ghost use Rattle.sctp_association.specs.Ordered.{PutsTypes};
ghost use Rattle.sctp_association.specs.Probing.{KeepsBeat};
ghost use Rattle.sctp_association.specs.Requesting.{HasRoom, IsFewOf, OwesNoReset, PutsExact, PutsReset, begun, due_of, first_response, last_asked, reconfig_with, request_wire, resets_of, sent_where};
ghost use Rattle.sctp_association.specs.Telling.{Tells, TellsEnd};
ghost use Rattle.sctp_association.specs.declared.fault.Fault.TheVariants.{NoSuchStream, OutOfMemory};
ghost use Rattle.sctp_association.specs.declared.association.Reason.{Reason};
ghost use Rattle.sctp_association.specs.declared.association.arrivals.Step.TheVariants as step;
ghost use Rattle.sctp_datagram.specs.Carried.{IsChunkOf};
ghost use Rattle.sctp_datagram.specs.Places.{IsPlace};
ghost use Rattle.sctp_params.specs.Param.{outgoing_reset_request};
ghost use Rattle.sctp_handshake.specs.Machines.{agreed};
ghost use Rattle.sctp_params.specs.ResetRequest.{reset_request_of};
ghost use Rattle.sctp_params.specs.declared.param.param_reconfig_response.ReconfigResult.TheVariants.{SuccessPerformed};
ghost use Rattle.sctp_association.specs.Still.{IsLater, request_time};
ghost use Rattle.sctp_chunks.specs.Reconfig.{reconfig_of};
ghost use Rattle.sctp_reset.specs.Own.{after_ask, is_idle};
ghost use Rattle.sctp_reset.specs.Peer.{without_first};

use super::arrivals::{Step, unless_memory};
use super::{Association, Reason};
use crate::asking::MOST_STREAMS;
use crate::fault::Fault;
use bytes::Bytes;
use sctp_chunks::ChunkReconfig;
use sctp_datagram::ChunkPlace;
use sctp_datagram::params::param_at;
use sctp_params::{
    ParamKind, ParamOutgoingResetRequest, ParamReconfigResponse, ReconfigResult, build_param,
};
use sctp_reset::{Answer, Due};
use sctp_sender::sender::refusal::SenderRefusal;

// The most parameters of a RE-CONFIG chunk (RFC 6525 3.1).
const MOST_PARAMS: usize = 2;

// The most bytes of a RE-CONFIG chunk of this side: a response, and a request of so many streams.
const MOST_BYTES: usize = 4 + 20 + 16 + 2 * MOST_STREAMS;

// A RE-CONFIG chunk with a response, a request, or both in this order (RFC 6525 3.1).
fn reconfig(
    response: Option<ParamReconfigResponse>,
    request: Option<ParamOutgoingResetRequest>,
) -> Option<ChunkReconfig>
    ensures exact { option_map reconfig_of result
        ≡ reconfig_with response (option_map reset_request_of request) }
    ensures own { IfSome result (λ c. IsReconfigOf (is_some response) (is_some request)
        (reconfig_of c)) }
    ensures some { IfSome result (λ c. is_some (reconfig_of c).param_a ≡ true) }
{
    let (param_a, param_b) = match (response, request) {
        (Some(response), Some(request)) => (
            ParamKind::ReconfigResponse(response),
            Some(ParamKind::OutgoingResetRequest(request)),
        ),
        (Some(response), None) => (ParamKind::ReconfigResponse(response), None),
        (None, Some(request)) => (ParamKind::OutgoingResetRequest(request), None),
        (None, None) => return None,
    };
    Some(ChunkReconfig {
        param_a: Some(param_a),
        param_b,
    })
}

impl Association {
    /// Resets a stream in our direction, once the peer has acknowledged all that was written to it (RFC 8831 6.7): an event tells when. One
    /// that is asked for already changes nothing. Refuses with `NoSuchStream`, where the peer takes no resets too, or for memory, and nothing
    /// has changed then.
    pub fn reset_stream(&mut self, stream: u16) -> Result<(), Fault>
        ensures tells { Tells self.old self.new }
        ensures ok { OnOk result (self.new.requests ≡ after_ask stream self.old.requests) }
        // There is room for the event that the answer to it tells.
        ensures room { OnOk result ((stream < length self.new.events.reset_by_us)
            × (stream < length self.new.events.reset_refused)) }
        ensures accepted { IsOk result → is_resettable stream self.old ≡ true }
        ensures named { is_resettable stream self.old ≡ false → result ≡ Err NoSuchStream }
        ensures memory { is_resettable stream self.old ≡ true
            → IfErr result (λ e. e ≡ OutOfMemory) }
        ensures rest { self.new ≡ record self.old {
          requests = self.new.requests;
          events = self.new.events;
        } }
        ensures quiet { BringsNone self.old.events self.new.events }
        ensures err { OnErr result (self.new ≡ self.old) }
    {
        let is_known = match self.machine.agreed() {
            Some(agreed) => agreed.reconfig && stream < agreed.outbound_streams,
            None => false,
        };
        if !is_known {
            return Err(Fault::NoSuchStream);
        }
        let rooms = self.events.reserve_outbound(stream)?;
        if self.requests.ask(stream).is_err() {
            self.events.shrink_outbound(rooms);
            return Err(Fault::OutOfMemory);
        }
        Ok(())
    }

    /// Puts the RE-CONFIG chunk that is due, where there is room for it (RFC 6525 5.1, 5.2): a packet has one.
    #[tactic(auto, using(crate::proofs::Ordered::order_one, crate::proofs::Ordered::order_none))]
    pub(super) fn put_resets(&mut self, now: u64) -> Result<(), Fault>
        ensures made { PutsDue now self.old self.new }
        ensures halves { HalvesAlike self.old self.new }
        ensures kept { IsUnmoved self.old self.new }
        ensures moments { AsksNoMore now self.old self.new }
        ensures acks { sack_delay self.new ≡ sack_delay self.old }
        ensures replies { replies_of self.new ≡ replies_of self.old }
        ensures resets { 12 ≤ length self.old.draft.bytes → PutsReset now self.old self.new }
        ensures beats { KeepsBeat self.old self.new }
        ensures none { OnOk result (IfNonePut self.old.draft.bytes self.new.draft.bytes
            (OwesNoReset now self.old.outbound.sender (resets_of self.old))) }
        ensures order { PutsTypes (130 ∷ [])
            self.old.draft.bytes self.new.draft.bytes }
    {
        if self.draft.room() < MOST_BYTES {
            return Ok(());
        }
        let request = self.next_request(now)?;
        let response = self.next_response();
        if request.is_some() || response.is_some() {
            self.put_reconfig(response, request, now);
        }
        Ok(())
    }

    // The response that is due, if there is one.
    #[tactic(auto, using(crate::proofs::Resetting::taken, crate::proofs::Resetting::fewer))]
    fn next_response(&mut self) -> Option<ParamReconfigResponse>
        ensures rest { self.new ≡ record self.old { peer_requests = self.new.peer_requests } }
        ensures first { result ≡ first_response self.old.peer_requests }
        ensures left { self.new.peer_requests ≡ option_map without_first self.old.peer_requests }
        ensures fewer { responses_due self.new.peer_requests
            ≤ responses_due self.old.peer_requests }
        ensures taken { is_some result ≡ true → responses_due self.new.peer_requests
            < responses_due self.old.peer_requests }
    {
        match &mut self.peer_requests {
            Some(peer) => peer.take_response(),
            None => None,
        }
    }

    // Puts a RE-CONFIG chunk with a response, a request, or both. The request leaves again later.
    #[inline(never)]
    fn put_reconfig(
        &mut self,
        response: Option<ParamReconfigResponse>,
        request: Option<ParamOutgoingResetRequest>,
        now: u64,
    )
        ensures puts { PutsReconfig (is_some response) (is_some request)
            self.old.draft self.new.draft }
        // Where it has room it is put, and says exactly these.
        ensures exact { HasRoom self.old.draft → IsFewOf (option_map reset_request_of request)
            → PutsExact now response (option_map reset_request_of request) self.old self.new }
        ensures once { is_some request ≡ true → self.new.draft ≡ self.old.draft
            ⊎ IsLater now (request_time self.new) }
        ensures under { is_some self.new.requests.under_way
            ≡ is_some self.old.requests.under_way }
        ensures more { requests_due now self.old.requests ≡ false
            → requests_due now self.new.requests ≡ false }
        ensures limit { self.new.draft.limit ≡ self.old.draft.limit }
        ensures rest { self.new ≡ record self.old {
          draft = self.new.draft;
          requests = self.new.requests;
        } }
    {
        let is_asking = request.is_some();
        let Some(chunk) = reconfig(response, request) else {
            return;
        };
        if self.draft.put(&chunk) {
            self.note_sent(is_asking, now);
        }
    }

    // A RE-CONFIG left: where it has a request, that leaves again later than now, so that it leaves once at a moment.
    fn note_sent(&mut self, is_asking: bool, now: u64)
        ensures sent { self.new.requests ≡ sent_where is_asking now
            (max self.old.outbound.rto.rto 1) self.old.requests }
        ensures later { is_asking ≡ true → IsLater now (request_time self.new) }
        ensures under { is_some self.new.requests.under_way
            ≡ is_some self.old.requests.under_way }
        ensures more { requests_due now self.old.requests ≡ false
            → requests_due now self.new.requests ≡ false }
        ensures rest { self.new ≡ record self.old { requests = self.new.requests } }
    {
        if is_asking {
            self.requests.sent(now, self.outbound.rto.get().max(1));
        }
    }

    // Begins the next request, where none is under way, and answers the one that is due.
    fn next_request(&mut self, now: u64) -> Result<Option<ParamOutgoingResetRequest>, Fault>
        ensures begun { OnOk result
            (self.new.requests ≡ begun now self.old.outbound.sender self.old.requests) }
        ensures exact { IfOk result (λ o. option_map reset_request_of o ≡ option_map
            (request_wire (last_asked self.old.peer_requests))
            (due_of now self.new.requests.under_way)) }
        ensures few { IfOk result (λ o. IsFewOf (option_map reset_request_of o)) }
        ensures err { OnErr result ((self.new.requests ≡ self.old.requests) ⊎
            (self.new.requests ≡ begun now self.old.outbound.sender self.old.requests)) }
        ensures due { IfOk result (λ o. is_some o ≡ true
            → (requests_due now self.old.requests ≡ true)
            × (is_some self.new.requests.under_way ≡ true)) }
        ensures more { requests_due now self.old.requests ≡ false
            → requests_due now self.new.requests ≡ false }
        ensures rest { self.new ≡ record self.old { requests = self.new.requests } }
    {
        if self.requests.is_idle() {
            return Ok(None);
        }
        self.next_asked(now)
    }

    // The same, where some stream is to be reset: seldom, and so apart.
    #[inline(never)]
    fn next_asked(&mut self, now: u64) -> Result<Option<ParamOutgoingResetRequest>, Fault>
        requires asked { is_idle self.old.requests ≡ false }
        ensures begun { OnOk result
            (self.new.requests ≡ begun now self.old.outbound.sender self.old.requests) }
        ensures exact { IfOk result (λ o. option_map reset_request_of o ≡ option_map
            (request_wire (last_asked self.old.peer_requests))
            (due_of now self.new.requests.under_way)) }
        ensures few { IfOk result (λ o. IsFewOf (option_map reset_request_of o)) }
        ensures err { OnErr result ((self.new.requests ≡ self.old.requests) ⊎
            (self.new.requests ≡ begun now self.old.outbound.sender self.old.requests)) }
        ensures due { IfOk result (λ o. is_some o ≡ true
            → (requests_due now self.old.requests ≡ true)
            × (is_some self.new.requests.under_way ≡ true)) }
        ensures more { requests_due now self.old.requests ≡ false
            → requests_due now self.new.requests ≡ false }
        ensures rest { self.new ≡ record self.old { requests = self.new.requests } }
    {
        self.begin_request(now)?;
        self.request_due(now)
    }

    // Begins the next request, where none is under way.
    fn begin_request(&mut self, now: u64) -> Result<(), Fault>
        ensures begun { OnOk result
            (self.new.requests ≡ begun now self.old.outbound.sender self.old.requests) }
        ensures rest { self.new ≡ record self.old { requests = self.new.requests } }
        ensures err { OnErr result (self.new ≡ self.old) }
    {
        match self.requests.begin(self.alloc, &self.outbound.sender, now) {
            Ok(()) => Ok(()),
            Err(_) => Err(Fault::OutOfMemory),
        }
    }

    // The request that is due, for the first time or again.
    #[tactic(auto, using(crate::proofs::Requesting::due_is))]
    fn request_due(&self, now: u64) -> Result<Option<ParamOutgoingResetRequest>, Fault>
        ensures exact { IfOk result (λ o. option_map reset_request_of o ≡ option_map
            (request_wire (last_asked self.now.peer_requests))
            (due_of now self.now.requests.under_way)) }
        ensures few { IfOk result (λ o. IsFewOf (option_map reset_request_of o)) }
        ensures due { IfOk result (λ o. is_some o ≡ true
            → (is_some self.now.requests.under_way ≡ true)
            × (requests_due now self.now.requests ≡ true)) }
    {
        let Some(request) = self.requests.due(now) else {
            return Ok(None);
        };
        let mut streams = Vec::with_capacity(self.alloc, request.streams.len())?;
        streams.extend_from_slice(&request.streams)?;
        Ok(Some(ParamOutgoingResetRequest {
            reconfig_request_sequence_number: request.number,
            reconfig_response_sequence_number: self.last_asked(),
            sender_last_tsn: request.last_tsn,
            stream_identifiers: streams,
        }))
    }

    // The number of the last request of the peer; 0 where the association did not stand.
    fn last_asked(&self) -> u32
        ensures { result ≡ last_asked self.now.peer_requests }
    {
        match &self.peer_requests {
            Some(peer) => peer.last_number(),
            None => 0,
        }
    }

    /// Takes a RE-CONFIG chunk: of its parameters those that are requests or responses, and of requests to reset streams the first (RFC 6525
    /// 3.1). So a chunk resets each of the agreed streams at most once, or those that it lists. Where memory is wanting some may be reset.
    #[inline(never)]
    pub(super) fn take_reconfig(
        &mut self,
        datagram: &Bytes,
        chunk: ChunkPlace,
        now: u64,
    ) -> Result<Step, Fault>
        requires place { IsPlace datagram.now chunk }
        requires own { IsChunkOf datagram.now chunk }
        requires typ { chunk.typ ≡ 130 }
        ensures tells { TellsEnd self.old self.new }
        ensures came { CallsArrive datagram.now (halves_of self.old) (halves_of self.new) }
        ensures kept { IsKept self.old self.new }
        ensures refused { (r : Reason) → result ≡ Ok (step.Refused r) → self.new ≡ self.old }
        ensures err { OnErr result (self.new ≡ self.old) }
        ensures rest { RestStays self.old self.new }
        ensures goes_on { result ≡ Ok step.Stop → ⊥ }
        ensures expected { IfOk result
            (λ s. AsExpected (takes_resets self.old.machine.state) s) }
        ensures reconfig { IfOk result
            (λ s. ReconfigOn chunk datagram.now now s self.old self.new) }
        ensures part { result ≡ Ok step.Cut → ParamsPart 2
            (take chunk.length (drop chunk.at datagram.now)) 4 false now self.old self.new }
    {
        if !self.machine.state().takes_data() && !self.machine.state().takes_sacks() {
            return Ok(Step::Refused(Reason::Unexpected));
        }
        let end = chunk.at.saturating_add(chunk.length);
        if end > datagram.len() || chunk.at > end {
            return Ok(Step::Refused(Reason::NoPacket));
        }
        let raw = datagram.slice(chunk.at..end)?;
        let mut at = 4;
        let mut has_request = false;
        for _done in 0..MOST_PARAMS {
            if at >= raw.len() {
                break;
            }
            let Ok(place) = param_at(raw.as_slice(), at) else {
                break;
            };
            let is_request = place.typ == 13;
            if is_request && has_request {
                break;
            }
            has_request = has_request || is_request;
            let Ok(()) = self.take_param(&raw, at, place.typ, now) else {
                return Ok(Step::Cut);
            };
            at = place.next;
        }
        Ok(Step::Next)
    }

    // Takes a parameter.
    fn take_param(&mut self, raw: &Bytes, at: usize, typ: u16, now: u64) -> Result<(), Fault>
        ensures tells { TellsEnd self.old self.new }
        ensures came { Follows (ParamAsksIn (drop at raw.now)) Does
            (halves_of self.old) (halves_of self.new) }
        ensures kept { IsKept self.old self.new }
        ensures rest { RestStays self.old self.new }
        ensures made { OnOk result (ParamOn typ raw.now at now self.old self.new) }
        ensures part { OnErr result (ParamPart (drop at raw.now) self.old self.new) }
    {
        match typ {
            13 | 16 => self.follow_param(raw, at, now),
            14 | 15 | 17 | 18 => Ok(self.deny(raw, at)),
            _ => Ok(()),
        }
    }

    // Reads a parameter, and follows it where it is a request to reset outgoing streams or a response.
    fn follow_param(&mut self, raw: &Bytes, at: usize, now: u64) -> Result<(), Fault>
        ensures tells { TellsEnd self.old self.new }
        ensures came { Follows (ParamAsksIn (drop at raw.now)) Does
            (halves_of self.old) (halves_of self.new) }
        ensures kept { IsKept self.old self.new }
        ensures rest { RestStays self.old self.new }
        ensures made { OnOk result (FollowsBytes (drop at raw.now) now self.old self.new) }
        ensures part { OnErr result (ParamPart (drop at raw.now) self.old self.new) }
    {
        if at > raw.len() {
            return Ok(());
        }
        let rest = raw.slice(at..)?;
        let param = match build_param(self.alloc, &rest) {
            Ok(param) => param,
            Err(e) => return unless_memory(e),
        };
        match param {
            ParamKind::OutgoingResetRequest(request) => self.take_request(&request),
            ParamKind::ReconfigResponse(response) => self.take_response(&response, now),
            _ => Ok(()),
        }
    }

    // Denies a request that is not performed here (RFC 6525 4.2, 4.3, 4.5, 4.6).
    fn deny(&mut self, raw: &Bytes, at: usize)
        ensures tells { TellsEnd self.old self.new }
        ensures halves { HalvesAlike self.old self.new }
        ensures kept { IsKept self.old self.new }
        ensures rest { RestStays self.old self.new }
        ensures made { self.new ≡ denied_by (number_at raw.now at) self.old }
    {
        let Some(peer) = &mut self.peer_requests else {
            return;
        };
        let start = at.saturating_add(4);
        if start.saturating_add(4) > raw.len() {
            return;
        }
        // A shorter one has no number (RFC 6525 4).
        if sctp_util::field::read_u16(&raw[at..], 2) < 8 {
            return;
        }
        let number = sctp_util::field::read_u32(&raw[start..], 0);
        if let Due::Perform = peer.request(number) {
            peer.answered(ReconfigResult::Denied);
        }
    }

    // Takes a request of the peer (RFC 6525 5.2.2): one that comes again has the same answer as before.
    fn take_request(&mut self, request: &ParamOutgoingResetRequest) -> Result<(), Fault>
        ensures tells { TellsEnd self.old self.new }
        ensures came { Follows (ParamAsks (outgoing_reset_request (reset_request_of request.now)))
            Does (halves_of self.old) (halves_of self.new) }
        ensures kept { IsKept self.old self.new }
        ensures rest { RestStays self.old self.new }
        ensures made { OnOk result (RequestOn (reset_request_of request.now)
            self.old.peer_requests self.old self.new) }
        ensures part { OnErr result (RequestPart (reset_request_of request.now)
            self.old.peer_requests self.old self.new) }
    {
        let Some(peer) = &mut self.peer_requests else {
            return Ok(());
        };
        let Due::Perform = peer.request(request.reconfig_request_sequence_number) else {
            return Ok(());
        };
        let outcome = self.perform(request)?;
        if let Some(peer) = &mut self.peer_requests {
            if peer.is_awaited() {
                peer.answered(outcome);
            }
        }
        Ok(())
    }

    // Resets the streams that a request lists, or all where it lists none (RFC 6525 4.1).
    fn perform(&mut self, request: &ParamOutgoingResetRequest) -> Result<ReconfigResult, Fault>
        ensures tells { TellsEnd self.old self.new }
        ensures came { Follows (ParamAsks (outgoing_reset_request (reset_request_of request.now)))
            Does (halves_of self.old) (halves_of self.new) }
        ensures kept { IsKept self.old self.new }
        ensures rest { RestStays self.old self.new }
        ensures listed { IfOk result (λ r. ResetsListed request.now.sender_last_tsn
            request.now.stream_identifiers.items r self.old self.new) }
        ensures part { OnErr result (ResetsPartListed request.now.sender_last_tsn
            request.now.stream_identifiers.items self.old self.new) }
    {
        if request.stream_identifiers.is_empty() {
            return self.perform_all(request.sender_last_tsn);
        }
        let mut outcome = ReconfigResult::SuccessPerformed;
        for stream in &request.stream_identifiers {
            match self.perform_one(*stream, request.sender_last_tsn, true)? {
                ReconfigResult::SuccessPerformed => {}
                ReconfigResult::InProgress => return Ok(ReconfigResult::InProgress),
                wrong => outcome = wrong,
            }
        }
        Ok(outcome)
    }

    // Resets all open streams.
    fn perform_all(&mut self, last_tsn: u32) -> Result<ReconfigResult, Fault>
        ensures tells { TellsEnd self.old self.new }
        ensures outbound { self.new.outbound ≡ self.old.outbound }
        ensures received { ReceivedIn (IsResetAt last_tsn)
            (receiver_of self.old.inbound) (receiver_of self.new.inbound) }
        ensures kept { IsKept self.old self.new }
        ensures rest { RestStays self.old self.new }
        ensures each { IfOk result (λ r. ResetsEach last_tsn false
            (numbers_from (inbound_agreed (agreed self.old.machine)) 0)
            SuccessPerformed r self.old self.new) }
        ensures part { OnErr result (ResetsPart last_tsn false
            (numbers_from (inbound_agreed (agreed self.old.machine)) 0) self.old self.new) }
    {
        let streams = match self.machine.agreed() {
            Some(agreed) => agreed.inbound_streams,
            None => 0,
        };
        for stream in 0..streams {
            if self.perform_one(stream, last_tsn, false)? == ReconfigResult::InProgress {
                return Ok(ReconfigResult::InProgress);
            }
        }
        Ok(ReconfigResult::SuccessPerformed)
    }

    // Resets a stream, which the request names, or with it all.
    fn perform_one(
        &mut self,
        stream: u16,
        last_tsn: u32,
        is_named: bool,
    ) -> Result<ReconfigResult, Fault>
        ensures tells { TellsEnd self.old self.new }
        ensures outbound { self.new.outbound ≡ self.old.outbound }
        ensures received { ReceivedIn (IsReset stream last_tsn)
            (receiver_of self.old.inbound) (receiver_of self.new.inbound) }
        ensures kept { IsKept self.old self.new }
        ensures rest { RestStays self.old self.new }
        ensures one { IfOk result
            (λ r. ResetsStream stream last_tsn is_named r self.old self.new) }
        ensures cut { OnErr result (StaysUnreset self.old self.new) }
    {
        match &mut self.inbound {
            Some(inbound) => inbound.reset(stream, last_tsn, is_named, &mut self.events),
            None => Ok(ReconfigResult::ErrorWrongSsn),
        }
    }

    // Takes the response to the request that is under way (RFC 6525 5.2.7): the streams begin at SSN 0 again.
    fn take_response(&mut self, response: &ParamReconfigResponse, now: u64) -> Result<(), Fault>
        ensures tells { TellsEnd self.old self.new }
        ensures hearing { HearsBy IsRestart
            self.old.outbound.sender self.new.outbound.sender }
        ensures inbound { self.new.inbound ≡ self.old.inbound }
        ensures kept { IsKept self.old self.new }
        ensures rest { RestStays self.old self.new }
        ensures made { OnOk result (self.new ≡ answered response.now now self.old) }
    {
        let rto = self.outbound.rto.get();
        let number = response.reconfig_response_sequence_number;
        match self.requests.response(number, response.result, now, rto) {
            Answer::Performed(request) => {
                for stream in &request.streams {
                    match self.outbound.sender.reset(*stream) {
                        // Nothing was written on it.
                        Ok(()) | Err(SenderRefusal::StreamUnknown) => {}
                        Err(e) => return Err(Fault::from(e)),
                    }
                    self.events.reset_by_us.insert(*stream);
                }
            }
            Answer::Refused(request, _) => {
                for stream in &request.streams {
                    self.events.reset_refused.insert(*stream);
                }
            }
            Answer::Wait | Answer::NotUnderWay => {}
        }
        Ok(())
    }
}
