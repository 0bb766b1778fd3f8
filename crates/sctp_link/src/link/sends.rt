//! What a link sends, and sends again.

ghost use Rattle.std.specs.Prelude.{◌≡◌, ◌<◌, ◌≤◌, ◌+◌, ◌-◌, ◌^◌, ◌∷◌, ◌++◌, ℕ, [], None, Some, OnOk, OnErr, IfOk, IsOkUnless, find, is_some, length, true};
ghost use Rattle.sctp_util.specs.declared.error.Error.TheVariants.{ErrOutOfMemory};
ghost use Rattle.sctp_data.specs.declared.chunk.chunk_payload_data.ChunkPayloadData.{ChunkPayloadData};
ghost use Rattle.sctp_chunks.specs.declared.chunk.chunk_kind.ChunkKind.TheVariants.{PayloadData};
ghost use Rattle.sctp_chunks.specs.Wire.{HasEncoding};
ghost use Rattle.sctp_chunks.specs.Fits.{Canonical};
ghost use Rattle.sctp_chunks.specs.Kind.{wire_of};
ghost use Rattle.sctp_packets.specs.Packet.{ReadsPacket, packet_encoding};
ghost use Rattle.sctp_sender.specs.Flight.{resent};
ghost use Rattle.sctp_sender.specs.Sender.{with_flight};
ghost use Rattle.sctp_serial.specs.DataChunks.{has_tsn};
ghost use Rattle.sctp_link.specs.Encodings.{packet_with};
ghost use Rattle.sctp_link.specs.Sends.{counted_again};

use super::fragments::{next_chunks, places_from, send_fragments};
use super::{Link, memory};
use crate::datagram::{write_chunks, write_datagram};
use crate::event::{LinkRefusal, Reply};
use crate::record::{Datagram, Kind};
use bytes::Bytes;
use sctp_chunks::chunk::chunk_kind::ChunkKind;
use sctp_sender::replay;
use sctp_sender::sender::Sender;
use sctp_util::error::Result;
use sctp_util::util::Checksum;
use std::alloc::Global;

impl<C: Checksum + Drop> Link<C> {
    ghost use Rattle.sctp_model.specs.Queues.{is_cleared};
    ghost use Rattle.sctp_model.specs.Steps.{IsRight, refusal_of, takes_memory};
    ghost use Rattle.sctp_model.specs.declared.event.Event.TheVariants as E;
    ghost use Rattle.sctp_link.specs.Replies.{reply_of};

    /// Sends the next pending fragment, and further ones for as long as the datagram is no longer than the limit;
    /// `now` is in nanoseconds. Refuses only for memory, and nothing changes then.
    pub(super) fn send(&mut self, now: u64) -> Result<Reply>
        ensures ok { IfOk result
            (λ reply. IsRight self.old.recorded (E.Send now) (reply_of reply) self.new.recorded) }
        ensures checksum { self.new.checksum ≡ self.old.checksum }
        ensures err { OnErr result (self.new.recorded ≡ self.old.recorded) }
        ensures memory { IsOkUnless result ErrOutOfMemory }
        ensures wants { OnErr result (takes_memory self.old.recorded (E.Send now) ≡ true) }
    {
        let Some(first) = self.sender.outbound().peek_pending() else {
            self.start(now);
            return Ok(Reply::Idle);
        };
        let ssn = first.stream_sequence_number;
        let tsn = self.sender.next_tsn();
        let chunks = next_chunks(self.alloc, self.sender.outbound(), first, tsn, self.limit)?;
        let count = chunks.len();
        let bytes = write_chunks(self.alloc, chunks, &self.checksum)?;
        let places = places_from(self.alloc, self.slots.len(), count)?;
        self.slots.reserve(count)?;
        self.network.reserve(1)?;
        match self.sender.reserve(count) {
            Ok(()) => {}
            Err(refusal) => return Err(memory(refusal)),
        }
        send_fragments(
            &mut self.sender,
            &mut self.progress,
            &mut self.messages,
            self.unstarted,
            &mut self.slots,
            now,
            count,
        );
        self.unstarted = self.messages.len();
        let datagram = self.network.len() as u64;
        let kind = Kind::Data { places };
        self.network.push_reserved(Datagram { kind, bytes });
        Ok(Reply::Sent {
            datagram,
            tsn,
            ssn,
            count: count as u64,
        })
    }

    /// Why a TSN is not sent again, if it is not.
    pub(super) fn refusal_resend(&self, tsn: u32) -> Option<LinkRefusal>
        ensures { result ≡ refusal_of self.now.recorded (E.Resend tsn) }
    {
        let place = tsn.wrapping_sub(self.first_tsn) as usize;
        if place < self.taken || place >= self.slots.len() || self.is_cleared(place) {
            return Some(LinkRefusal::NotInFlight);
        }
        None
    }

    // Whether a slot is acknowledged or its message abandoned: then it is not sent again.
    fn is_cleared(&self, place: usize) -> bool
        requires { place < length self.now.recorded.slots }
        ensures { result ≡ is_cleared self.now.recorded place }
    {
        let slot = &self.slots[place];
        slot.acknowledged || self.messages[slot.message as usize].abandoned
    }

    /// Sends the chunk of a TSN again. Refuses only for memory, and nothing changes then.
    /// Precondition: the event is not to be refused.
    pub(super) fn resend(&mut self, tsn: u32) -> Result<Reply>
        requires { refusal_of self.old.recorded (E.Resend tsn) ≡ None }
        ensures ok { IfOk result
            (λ reply. IsRight self.old.recorded (E.Resend tsn) (reply_of reply) self.new.recorded) }
        ensures checksum { self.new.checksum ≡ self.old.checksum }
        ensures err { OnErr result (self.new.recorded ≡ self.old.recorded) }
        ensures memory { IsOkUnless result ErrOutOfMemory }
    {
        let places = places_from(self.alloc, tsn.wrapping_sub(self.first_tsn) as usize, 1)?;
        self.network.reserve(1)?;
        let bytes = write_again(self.alloc, &mut self.sender, tsn, &self.checksum)?;
        let datagram = self.network.len() as u64;
        let kind = Kind::Data { places };
        self.network.push_reserved(Datagram { kind, bytes });
        Ok(Reply::Resent { datagram })
    }
}

// Writes the datagram of the chunk in flight with a TSN, and counts one more sending of it, up to the greatest u32; the moment noted for it
// stays that of its first sending. Refuses only for memory, and the sender is as it was then. There is such a chunk, and it has an encoding,
// which reads back.
fn write_again<C: Checksum>(
    alloc: Global,
    sender: &mut Sender,
    tsn: u32,
    checksum: &C,
) -> Result<Bytes>
    requires held { is_some (find (has_tsn tsn) sender.old.flight.queue.inflight.chunks) ≡ true }
    requires encoding { (c : ChunkPayloadData)
        → find (has_tsn tsn) sender.old.flight.queue.inflight.chunks ≡ Some c
        → HasEncoding (wire_of (PayloadData c)) }
    requires canonical { (c : ChunkPayloadData)
        → find (has_tsn tsn) sender.old.flight.queue.inflight.chunks ≡ Some c
        → Canonical (wire_of (PayloadData c)) }
    ensures noted { OnOk result ((c : ChunkPayloadData)
        → find (has_tsn tsn) sender.old.flight.queue.inflight.chunks ≡ Some c
        → find (has_tsn tsn) sender.new.flight.queue.inflight.chunks ≡ Some (counted_again c)) }
    ensures counted { OnOk result ((c : ChunkPayloadData)
        → find (has_tsn tsn) sender.old.flight.queue.inflight.chunks ≡ Some c
        → sender.new ≡ with_flight (resent tsn c sender.old.flight) sender.old) }
    ensures encoding { IfOk result (λ b. (c : ChunkPayloadData)
        → find (has_tsn tsn) sender.old.flight.queue.inflight.chunks ≡ Some c
        → b ≡ packet_encoding (C.sum checksum.now) (packet_with (wire_of (PayloadData c) ∷ []))) }
    ensures reads { IfOk result (λ b. (c : ChunkPayloadData)
        → find (has_tsn tsn) sender.old.flight.queue.inflight.chunks ≡ Some c
        → ReadsPacket (C.sum checksum.now) b (packet_with (wire_of (PayloadData c) ∷ []))) }
    ensures err { OnErr result (sender.new ≡ sender.old) }
    ensures memory { IsOkUnless result ErrOutOfMemory }
{
    let Some(chunk) = sender.outbound().get(tsn) else {
        unreachable!()
    };
    let chunk = chunk.try_clone()?;
    let bytes = write_datagram(alloc, ChunkKind::PayloadData(chunk), checksum)?;
    replay::count_resend(sender, tsn);
    Ok(bytes)
}
