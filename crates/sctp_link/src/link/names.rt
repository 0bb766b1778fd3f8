//! The FORWARD-TSN that a link makes (RFC 3758 3.2).

ghost use Rattle.std.specs.Prelude.{◌≡◌, ◌<◌, ◌≤◌, ◌+◌, ◌-◌, ◌^◌, ◌∷◌, ◌++◌, ℕ, [], true, false, not, None, Some, OnErr, IfOk, IsOkUnless, length, nat_le};
ghost use Rattle.std.specs.List.{list_all};
ghost use Rattle.sctp_util.specs.declared.error.Error.TheVariants.{ErrOutOfMemory};

use super::Link;
use super::streams::fragments_in;
use crate::datagram::write_datagram;
use crate::event::{LinkRefusal, Reply};
use crate::record::{Datagram, Kind};
use crate::skipped::pairs_of;
use sctp_chunks::chunk::chunk_forward_tsn::ChunkForwardTsn;
use sctp_chunks::chunk::chunk_kind::ChunkKind;
use sctp_sender::replay;
use sctp_util::error::Result;
use sctp_util::util::Checksum;

// The greatest count of names in a FORWARD-TSN that fits its length.
const MAX_NAMES: usize = 16381;

impl<C: Checksum + Drop> Link<C> {
    ghost use Rattle.sctp_model.specs.Messages.{place_of, belongs_to, slots_where};
    ghost use Rattle.sctp_model.specs.Steps.{IsRight, refusal_of, skip_refusal, can_name, is_ended};
    ghost use Rattle.sctp_model.specs.declared.event.Event.TheVariants as E;
    ghost use Rattle.sctp_link.specs.Replies.{reply_of};

    /// Why a FORWARD-TSN is not made, if it is not.
    pub(super) fn refusal_skip(&self, upto: u32, messages: &[u64]) -> Option<LinkRefusal>
        ensures { result ≡ skip_refusal self.now.recorded
            (place_of self.now.recorded upto) messages.now }
    {
        let place = upto.wrapping_sub(self.first_tsn) as usize;
        if place >= self.slots.len() {
            return Some(LinkRefusal::SkipUnassigned);
        }
        if messages.len() > MAX_NAMES {
            return Some(LinkRefusal::SkipNames);
        }
        if !self.can_name_each(place, messages) {
            return Some(LinkRefusal::SkipNames);
        }
        None
    }

    // Whether a skip up to a slot can name each of these messages.
    fn can_name_each(&self, place: usize, messages: &[u64]) -> bool
        requires { place < length self.now.recorded.slots }
        ensures { result ≡ list_all (can_name self.now.recorded place) messages.now }
    {
        for at in 0..messages.len() {
            if !self.can_name(place, messages[at]) {
                return false;
            }
        }
        true
    }

    // Whether a skip up to a slot can name a message: an ordered one whose last slot is at or before it.
    fn can_name(&self, place: usize, number: u64) -> bool
        requires { place < length self.now.recorded.slots }
        ensures { result ≡ can_name self.now.recorded place number }
    {
        if number >= self.messages.len() as u64 {
            return false;
        }
        let message = &self.messages[number as usize];
        if !message.ordered {
            return false;
        }
        if message.expired {
            return false;
        }
        if !self.is_ended(number) {
            return false;
        }
        !self.goes_past(place, number)
    }

    // Whether all of a message has slots, or it was abandoned.
    fn is_ended(&self, number: u64) -> bool
        requires { number < length self.now.recorded.messages }
        ensures { result ≡ is_ended self.now.recorded number }
    {
        let message = &self.messages[number as usize];
        let count = fragments_in(
            message.bytes.len(),
            replay::fragment_size(&self.sender) as usize,
        );
        message.abandoned || message.sent == count as u64
    }

    // Whether a message has a slot past this one.
    fn goes_past(&self, place: usize, number: u64) -> bool
        requires { place < length self.now.recorded.slots }
        ensures { result ≡ not (list_all
            (λ p. nat_le p place)
            (slots_where self.now.recorded (belongs_to self.now.recorded number))) }
    {
        let count = self.slots.len();
        for later in place + 1..count {
            if self.slots[later].message == number {
                return true;
            }
        }
        false
    }

    /// Makes a FORWARD-TSN. Refuses only for memory, and nothing changes then.
    /// Precondition: the event is not to be refused.
    pub(super) fn skip(&mut self, upto: u32, messages: Vec<u64>) -> Result<Reply>
        requires { skip_refusal self.old.recorded (place_of self.old.recorded upto) messages.items
            ≡ None }
        ensures ok { IfOk result (λ reply.
            IsRight self.old.recorded (E.Skip upto messages) (reply_of reply) self.new.recorded) }
        ensures checksum { self.new.checksum ≡ self.old.checksum }
        ensures err { OnErr result (self.new.recorded ≡ self.old.recorded) }
        ensures memory { IsOkUnless result ErrOutOfMemory }
    {
        let streams = pairs_of(self.alloc, &self.messages, &messages)?;
        let chunk = ChunkForwardTsn {
            new_cumulative_tsn: upto,
            streams,
        };
        let bytes = write_datagram(self.alloc, ChunkKind::ForwardTsn(chunk), &self.checksum)?;
        self.network.reserve(1)?;
        let upto = upto.wrapping_sub(self.first_tsn) as u64;
        let datagram = self.network.len() as u64;
        let kind = Kind::Forward { upto, messages };
        self.network.push_reserved(Datagram { kind, bytes });
        Ok(Reply::Skip { datagram })
    }
}
