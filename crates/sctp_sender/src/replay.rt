//! Single steps of a sender: what replays a record of calls, takes the steps of a session one by one, or lends them to another language
//! needs of a `Sender` beside its calls.

ghost use Rattle.std.specs.Prelude.{◌≡◌, ◌<◌, ◌≤◌, [], None, Some, OnOk, IfOk, IfErr, IfSome, IsOk, find, option_copied, option_map, slice_get};
ghost use Rattle.sctp_data.specs.SelectiveAck.{sack_of};
ghost use Rattle.sctp_data.specs.declared.chunk.chunk_payload_data.ChunkPayloadData.{ChunkPayloadData};
ghost use Rattle.sctp_outbound.specs.outbound_queue.OutboundQueue.{all_started, late_tsns};
ghost use Rattle.sctp_sender.specs.declared.sender.refusal.SenderRefusal.TheVariants.{OutOfMemory};
ghost use Rattle.sctp_sender.specs.Abandonment.{Name, advanced_ack_point, named_up_to, skip_end};
ghost use Rattle.sctp_sender.specs.Calls.{Acks, AbandonsEach, Expires, ExpiresTail, SendsTsn, TakesBack};
ghost use Rattle.sctp_sender.specs.Flight.{resent, with_queue};
ghost use Rattle.sctp_sender.specs.Numbers.{send_refusal, tsn_refusal};
ghost use Rattle.sctp_sender.specs.Resending.{is_to_resend, worn_tsns};
ghost use Rattle.sctp_sender.specs.Sender.{with_flight};
ghost use Rattle.sctp_serial.specs.DataChunks.{has_tsn};

use crate::sender::flight::Released;
use crate::sender::flight::kept::TakenBack;
use crate::sender::flight::late::AbandonedMessage;
use crate::sender::refusal::SenderRefusal;
use crate::sender::{ExpiredMessage, Sender};
use sctp_data::chunk::chunk_forward_tsn::ChunkForwardTsn;
use sctp_data::chunk::chunk_payload_data::ChunkPayloadData;
use sctp_data::chunk::chunk_selective_ack::ChunkSelectiveAck;
use sctp_serial::turns::Turns;
use sctp_stream::outbound_stream::OutboundStream;

/// Starts the lifetimes of the messages written since the last time; `now` is in nanoseconds. It takes no memory.
pub fn start(sender: &mut Sender, now: u64)
    ensures { sender.new ≡ with_flight
        (with_queue sender.old.flight (all_started now sender.old.flight.queue)) sender.old }
{
    sender.start(now);
}

/// Takes a SACK as `Sender::acked` does, but nothing comes back by it, whatever it does not report: so is taken what a SHUTDOWN reports,
/// which tells of no gaps (RFC 9260 3.3.8), and any SACK by a sender that keeps nothing.
pub fn acked(sender: &mut Sender, sack: &ChunkSelectiveAck) -> Result<Vec<Released>, SenderRefusal>
    ensures { Acks (sack_of sack.now) sender.old sender.new result }
{
    sender.acked_alone(sack)
}

/// Takes back what a SACK no longer reports, as `Sender::acked` does before it takes the SACK. Answers it in order of TSNs.
pub fn take_back(
    sender: &mut Sender,
    sack: &ChunkSelectiveAck,
) -> Result<Vec<TakenBack>, SenderRefusal>
    ensures { TakesBack (sack_of sack.now) sender.old sender.new result }
{
    sender.take_back_alone(sack, &mut Turns::new())
}

/// Removes the message in front, where it is past its deadline and wholly unsent, and answers it (RFC 3758 4.1). `now` is in
/// nanoseconds. It takes no memory.
pub fn expire(sender: &mut Sender, now: u64) -> Option<ExpiredMessage>
    ensures { Expires now sender.old sender.new result }
{
    sender.expire(now)
}

/// Abandons the rest of the partially sent message in front, where it is past its deadline, and answers the message with the bytes that
/// left. Refuses, only where there is such a message, with `TsnsUsedUp`, where 2^31 - 1 chunks are in flight, and for memory, though not
/// within the room of `Sender::reserve`. The sender is as it was then.
pub fn expire_tail(sender: &mut Sender, now: u64) -> Result<Option<AbandonedMessage>, SenderRefusal>
    ensures { ExpiresTail now sender.old sender.new result }
{
    sender.expire_tail(now)
}

/// Abandons each message in flight that is late (RFC 3758 3.5, 4.1), and answers them, the one of which some waits first. Refuses, only
/// where there is such a one, with `TsnsUsedUp`, where 2^31 - 1 chunks are in flight; and for memory, but not where no message is late.
/// The sender is as it was then.
pub fn expire_late(sender: &mut Sender, now: u64) -> Result<Vec<AbandonedMessage>, SenderRefusal>
    ensures { AbandonsEach (late_tsns now sender.old.flight.queue) sender.old sender.new result }
{
    sender.expire_late(now)
}

/// Abandons each message in flight that was sent again as often as it may be (RFC 7496 3.1); never a DCEP message (RFC 8832 6). Call it
/// once chunks are marked for retransmission: `next_to_retransmit` lends no such chunk then. The answer and the refusals are those of
/// `expire_late`. The sender is as it was then.
pub fn expire_rexmit(sender: &mut Sender) -> Result<Vec<AbandonedMessage>, SenderRefusal>
    ensures abandons { AbandonsEach (worn_tsns sender.old.flight) sender.old sender.new result }
    ensures none_left { OnOk result (worn_tsns sender.new.flight ≡ []) }
{
    sender.expire_rexmit()
}

/// As `Sender::send_next`, but answers the TSN alone: `outbound().get` lends the chunk. So within the room of `Sender::reserve` it takes
/// no memory.
pub fn send_next_tsn(sender: &mut Sender, now: u64) -> Result<Option<u32>, SenderRefusal>
    ensures { SendsTsn (send_refusal sender.old.flight) now sender.old sender.new result }
{
    sender.send_next_tsn(now)
}

/// As `send_next_tsn`, however far the numbers of ordered messages go: for a caller that sees to it that its receiver can still tell them
/// apart. Refuses, only where something waits, with `TsnsUsedUp`, where 2^31 - 1 chunks are in flight, and for memory, but not within the
/// room of `Sender::reserve`. The sender is as it was then.
pub fn send_next_tsn_unbounded(sender: &mut Sender, now: u64) -> Result<Option<u32>, SenderRefusal>
    ensures { SendsTsn (tsn_refusal sender.old.flight) now sender.old sender.new result }
{
    sender.send_next_tsn_unbounded(now)
}

/// Counts one more sending of the chunk in flight with a TSN, up to the greatest u32; none is counted where the TSN is not in flight. It
/// takes no memory.
pub fn count_resend(sender: &mut Sender, tsn: u32)
    ensures counted { (c : ChunkPayloadData)
        → find (has_tsn tsn) sender.old.flight.queue.inflight.chunks ≡ Some c
        → sender.new ≡ with_flight (resent tsn c sender.old.flight) sender.old }
    ensures none { find (has_tsn tsn) sender.old.flight.queue.inflight.chunks ≡ None
        → sender.new ≡ sender.old }
{
    sender.count_resend(tsn);
}

/// The first chunk in flight that is marked for retransmission and outstanding; `Sender::resend` sends it again, and takes the mark.
pub fn next_to_retransmit(sender: &Sender) -> Option<&ChunkPayloadData>
    ensures { option_copied result ≡ find is_to_resend sender.now.flight.queue.inflight.chunks }
{
    sender.next_to_retransmit()
}

/// The chunk in flight at a place, lent: the first has the place 0, and the TSN past `Sender::acked_tsn`. None where there are no more.
pub fn in_flight_at(sender: &Sender, place: usize) -> Option<&ChunkPayloadData>
    ensures { option_copied result ≡ slice_get sender.now.flight.queue.inflight.chunks place }
{
    sender.in_flight_at(place)
}

/// The FORWARD-TSN up to a TSN (RFC 3758 3.5 C4), or to the last TSN before it at which a message ends. None where no message ends up to
/// there, where the TSN is not past what is acknowledged, and where it lies beyond `advanced_ack_point`. It has as many names as there
/// are: a chunk has room for 16,381, a packet for fewer. Refuses only for memory, and takes none where it answers None.
pub fn forward_tsn_to(sender: &Sender, tsn: u32) -> Result<Option<ChunkForwardTsn>, SenderRefusal>
    ensures tsn { IfOk result (λ r. option_map (λ c. c.new_cumulative_tsn) r
        ≡ skip_end tsn sender.now.flight) }
    ensures names { IfOk result (λ r. IfSome r
        (λ c. Name c.streams.items (named_up_to c.new_cumulative_tsn sender.now.flight))) }
    ensures idle { skip_end tsn sender.now.flight ≡ None → IsOk result }
    ensures memory { IfErr result (λ e. e ≡ OutOfMemory) }
{
    sender.forward_tsn_to(tsn)
}

/// The Advanced.Peer.Ack.Point (RFC 3758 3.5 C2): the greatest TSN such that the message of it and of each in flight before it is
/// abandoned, or, where that of the first in flight is not, the TSN up to which all was acknowledged.
pub fn advanced_ack_point(sender: &Sender) -> u32
    ensures { result ≡ advanced_ack_point sender.now.flight }
{
    sender.advanced_ack_point()
}

/// The open streams, in the order in which they were opened; where one was closed, the last one stands in its place.
pub fn open_streams(sender: &Sender) -> &[OutboundStream]
    ensures { result.now ≡ sender.now.streams }
{
    sender.open_streams()
}

/// How many bytes a fragment has at most: 1 to 65,519.
pub fn fragment_size(sender: &Sender) -> u32
    ensures value { result ≡ sender.now.fragment_size }
    ensures some { 0 < result }
    ensures short { result ≤ 65519 }
{
    sender.fragment_size()
}

/// How many bytes a message has at most.
pub fn max_message_size(sender: &Sender) -> u32
    ensures { result ≡ sender.now.max_message_size }
{
    sender.max_message_size()
}
