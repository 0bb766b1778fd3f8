//! What a sender abandons, and how its peer learns of it (RFC 3758 3.5).

ghost use Rattle.std.specs.Prelude.{◌≡◌, ℕ, ◌+◌, ◌*◌, ◌≤◌, ◌⊎◌, [], true, None, OnOk, IfOk, IfErr, IfSome, IsOk, length, option_map};
ghost use Rattle.sctp_sender.specs.declared.sender.refusal.SenderRefusal.TheVariants.{OutOfMemory};
ghost use Rattle.sctp_sender.specs.Late.{after_leaving};
ghost use Rattle.sctp_sender.specs.Thresholds.{with_message_lows};

use super::Sender;
use super::flight::late::AbandonedMessage;
use super::outbound_streams::OutboundStreams;
use crate::sender::refusal::SenderRefusal;
use sctp_data::chunk::chunk_forward_tsn::ChunkForwardTsn;

impl Sender {
    ghost use Rattle.sctp_outbound.specs.outbound_queue.OutboundQueue.{late_tsns};
    ghost use Rattle.sctp_sender.specs.Abandonment.{Name, advanced_ack_point, named_up_to, skip_end};
    ghost use Rattle.sctp_sender.specs.Calls.{AbandonsEach};
    ghost use Rattle.sctp_sender.specs.Resending.{worn_tsns};

    /// Abandons each message in flight that is late (RFC 3758 3.5, 4.1): a chunk of it has reached its deadline, it is
    /// not abandoned yet, and of it some chunk is not acknowledged or some fragment waits. `now` is in nanoseconds. Answers
    /// them, each with its stream, its number and the bytes that left, by which its stream has less, and whether the stream's
    /// amount so fell to its low threshold; `forward_tsn` gives what the peer is to be sent then. They stand in the order of the
    /// first late chunk of each, but for the message of which some waits, which comes first. Refuses, only where there is such a
    /// one, with `TsnsUsedUp`, where 2^31 - 1 chunks are in flight; and for memory, but not where no message is late. The sender
    /// is as it was then.
    pub(crate) fn expire_late(&mut self, now: u64) -> Result<Vec<AbandonedMessage>, SenderRefusal>
        ensures { AbandonsEach (late_tsns now self.old.flight.queue) self.old self.new result }
    {
        let mut abandoned = self.flight.expire_late(self.alloc, now)?;
        release_abandoned(&mut self.streams, &mut abandoned);
        Ok(abandoned)
    }

    /// Abandons each message in flight that was sent again as often as it may be (RFC 7496 3.1): a chunk of it is outstanding, of
    /// reliability `Rexmit`, marked for retransmission, and was sent more often than its limit, without the first time; never a
    /// DCEP message (RFC 8832 6). Call it once chunks are marked: `next_to_retransmit` lends no such chunk then. The answer and the
    /// refusals are those of `expire_late`. The sender is as it was then.
    pub(crate) fn expire_rexmit(&mut self) -> Result<Vec<AbandonedMessage>, SenderRefusal>
        ensures abandons { AbandonsEach (worn_tsns self.old.flight) self.old self.new result }
        ensures none_left { OnOk result (worn_tsns self.new.flight ≡ []) }
    {
        let mut worn = self.flight.expire_rexmit(self.alloc)?;
        release_abandoned(&mut self.streams, &mut worn);
        Ok(worn)
    }

    /// The greatest TSN such that the message of it and of each in flight before it is abandoned, or, where that of the first
    /// in flight is not, the TSN up to which all was acknowledged: RFC 3758 3.5 C2 calls it the Advanced.Peer.Ack.Point. It
    /// stops at a chunk that a gap ack block reported and whose message is not abandoned: the peer may take back such a report
    /// (RFC 4960 6.2.1), and at a skip drops the fragments up to there of an unordered message whose other ones are still
    /// missing (RFC 3758 3.6).
    pub(crate) fn advanced_ack_point(&self) -> u32
        ensures { result ≡ advanced_ack_point self.now.flight }
    {
        self.flight.advanced_ack_point()
    }

    /// The FORWARD-TSN up to a TSN (RFC 3758 3.5 C4), or to the last TSN before it at which a message ends: were a message cut, the peer
    /// could be sent the rest of it, and take that for what it still misses. Of each stream that has an ordered chunk up to there which
    /// is abandoned it names the stream sequence number of the last one, once; unordered messages have no number, and are not named, as
    /// they are by the Rust crate. None where no message ends up to there, and where the TSN is not past what is acknowledged, or lies
    /// beyond `advanced_ack_point`. A chunk has room for 16,381 names, a packet for fewer: `forward_tsn` goes as far as they fit.
    /// Refuses only for memory, and takes none where it answers None.
    pub(crate) fn forward_tsn_to(&self, tsn: u32) -> Result<Option<ChunkForwardTsn>, SenderRefusal>
        ensures tsn { IfOk result (λ r. option_map (λ c. c.new_cumulative_tsn) r
            ≡ skip_end tsn self.now.flight) }
        ensures names { IfOk result (λ r. IfSome r
            (λ c. Name c.streams.items (named_up_to c.new_cumulative_tsn self.now.flight))) }
        ensures idle { skip_end tsn self.now.flight ≡ None → IsOk result }
        ensures memory { IfErr result (λ e. e ≡ OutOfMemory) }
    {
        self.flight.forward_tsn_to(self.alloc, tsn)
    }
}

impl Sender {
    ghost use Rattle.sctp_sender.specs.Abandonment.{Fit, IsTooLong, Name, advanced_ack_point, ahead, can_skip_to, is_end, named_up_to, skip_end};

    /// The FORWARD-TSN that is to be sent (RFC 3758 3.5 C3, C4), of at most `room` bytes, as are left of a packet: 8, and 4 a name. It
    /// goes to the last TSN up to the Advanced.Peer.Ack.Point at which a message ends and up to which the names fit. Unordered messages
    /// are not named. Refuses only for memory, and takes none where no message ends up to there.
    pub fn forward_tsn(&self, room: usize) -> Result<Option<ChunkForwardTsn>, SenderRefusal>
        ensures past { IfOk result (λ r. IfSome r
            (λ c. can_skip_to c.new_cumulative_tsn self.now.flight ≡ true)) }
        ensures ended { IfOk result (λ r. IfSome r
            (λ c. is_end c.new_cumulative_tsn self.now.flight ≡ true)) }
        ensures names { IfOk result (λ r. IfSome r
            (λ c. Name c.streams.items (named_up_to c.new_cumulative_tsn self.now.flight))) }
        ensures fits { IfOk result (λ r. IfSome r
            (λ c. 8 + 4 * length c.streams.items ≤ room)) }
        ensures furthest { IfOk result (λ r. IfSome r
            (λ c. (t : ℕ) → is_end t self.now.flight ≡ true
            → (ahead self.now.flight t ≤ ahead self.now.flight c.new_cumulative_tsn)
            ⊎ IsTooLong room t self.now.flight)) }
        ensures none { IfOk result (λ r. r ≡ None
            → (t : ℕ) → is_end t self.now.flight ≡ true → IsTooLong room t self.now.flight) }
        // where there is room for all names up to the advanced point, it goes to the last end
        ensures whole { IfOk result (λ r.
            Fit room (advanced_ack_point self.now.flight) self.now.flight
            → option_map (λ c. c.new_cumulative_tsn) r
            ≡ skip_end (advanced_ack_point self.now.flight) self.now.flight) }
        ensures idle { ahead self.now.flight (advanced_ack_point self.now.flight) ≡ 0
            → IsOk result }
        ensures no_end { skip_end (advanced_ack_point self.now.flight) self.now.flight ≡ None
            → IsOk result }
        ensures memory { IfErr result (λ e. e ≡ OutOfMemory) }
    {
        self.flight.forward_tsn_within(self.alloc, room)
    }
}

// Takes off each stream what left of it, and notes with which messages its amount fell to its low threshold.
fn release_abandoned(streams: &mut OutboundStreams, gone: &mut Vec<AbandonedMessage>)
    ensures less { streams.new ≡ after_leaving gone.old.items streams.old }
    ensures lows { gone.new.items ≡ with_message_lows gone.old.items streams.old }
{
    for one in gone.iter_mut() {
        one.is_low = streams.release(one.stream, one.bytes);
    }
}
