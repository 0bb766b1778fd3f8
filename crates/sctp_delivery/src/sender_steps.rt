//! Each call of a sender makes the step that sessions have of it (RFC 4960 6.1, 6.2.1; RFC 3758 3.5): here it is called and nothing else.
//!
//! Left out are `close`, `reset` and `replay::count_resend`, which are no calls of a session, and `replay::take_back`, which is one of sessions
//! of their own (`laws::returns`).

ghost use Rattle.std.specs.Prelude.{◌≡◌, ◌<◌, ◌≤◌, Some, None, OnErr, OnOk, IfOk, IfSome, find};
ghost use Rattle.sctp_data.specs.declared.chunk.chunk_payload_data.ChunkPayloadData.{ChunkPayloadData};
ghost use Rattle.sctp_data.specs.ForwardTsn.{forward_tsn_of};
ghost use Rattle.sctp_data.specs.SelectiveAck.{sack_of};
ghost use Rattle.sctp_sender.specs.Numbers.{send_refusal};
ghost use Rattle.sctp_sender.specs.Resending.{count_before, next_within};
ghost use Rattle.sctp_serial.specs.DataChunks.{has_tsn};
ghost use Rattle.sctp_delivery.specs.Amounts.{Drops};
ghost use Rattle.sctp_delivery.specs.SenderCalls.{SenderMakes, TakesBackAndSack, abandons, expires, expires_late, expires_rexmit, expires_tail, forwards, forwards_within, marks, misses, next_chunk, opens, resends, reserves, sends, sets_low, sets_mode, sets_size, starts, writes};

use bytes::Bytes;
use sctp_data::chunk::chunk_forward_tsn::ChunkForwardTsn;
use sctp_data::chunk::chunk_payload_data::{
    ChunkPayloadData, PayloadProtocolIdentifier, ReliabilityType,
};
use sctp_data::chunk::chunk_selective_ack::ChunkSelectiveAck;
use sctp_sender::sender::flight::late::AbandonedMessage;
use sctp_sender::sender::refusal::SenderRefusal;
use sctp_sender::sender::{Acked, Dropped, ExpiredMessage, Sender};
use sctp_sender::{costs, replay};
use sctp_serial::turns::Turns;

/// Opens a stream.
pub fn open(sender: &mut Sender, stream: u16) -> Result<(), SenderRefusal>
    ensures step { OnOk result (SenderMakes (opens stream) sender.old sender.new) }
    ensures err { OnErr result (sender.new ≡ sender.old) }
{
    sender.open(stream)
}

/// Sets the mode of a stream.
pub fn set_mode(
    sender: &mut Sender,
    stream: u16,
    unordered: bool,
    reliability: ReliabilityType,
    value: u32,
) -> Result<(), SenderRefusal>
    ensures step { OnOk result
        (SenderMakes (sets_mode stream unordered reliability value) sender.old sender.new) }
    ensures err { OnErr result (sender.new ≡ sender.old) }
{
    sender.set_mode(stream, unordered, reliability, value)
}

/// Writes.
pub fn write(
    sender: &mut Sender,
    stream: u16,
    ppi: PayloadProtocolIdentifier,
    bytes: &Bytes,
) -> Result<(Option<u64>, usize), SenderRefusal>
    ensures step { OnOk result (SenderMakes (writes stream ppi bytes.now) sender.old sender.new) }
    ensures err { OnErr result (sender.new ≡ sender.old) }
{
    sender.write(stream, ppi, bytes)
}

/// Starts lifetimes, at a moment in nanoseconds.
pub fn start(sender: &mut Sender, now: u64)
    ensures { SenderMakes (starts now) sender.old sender.new }
{
    replay::start(sender, now);
}

/// Sends the fragment that is next, and answers the chunk, if there is one.
pub fn send_next(sender: &mut Sender, now: u64) -> Result<Option<ChunkPayloadData>, SenderRefusal>
    ensures step { OnOk result (SenderMakes (sends now) sender.old sender.new) }
    ensures chunk { IfOk result (λ sent. sent ≡ next_chunk now sender.old) }
    ensures err { OnErr result (sender.new ≡ sender.old) }
{
    sender.send_next(now)
}

/// Sends the fragment that is next, and answers its TSN, if there is one.
pub fn send_next_tsn(sender: &mut Sender, now: u64) -> Result<Option<u32>, SenderRefusal>
    ensures step { OnOk result (SenderMakes (sends now) sender.old sender.new) }
    ensures err { OnErr result (sender.new ≡ sender.old) }
{
    replay::send_next_tsn(sender, now)
}

/// Sends the fragment that is next, however far its stream sequence number goes, and answers its TSN, if there is one: where it does not
/// go too far, which the caller sees to, that is the same.
pub fn send_next_tsn_unbounded(sender: &mut Sender, now: u64) -> Result<Option<u32>, SenderRefusal>
    ensures step { OnOk result (send_refusal sender.old.flight ≡ None
        → SenderMakes (sends now) sender.old sender.new) }
    ensures err { OnErr result (sender.new ≡ sender.old) }
{
    replay::send_next_tsn_unbounded(sender, now)
}

/// Sends a chunk again.
pub fn resend(sender: &mut Sender, tsn: u32, now: u64) -> Result<ChunkPayloadData, SenderRefusal>
    ensures step { OnOk result ((c : ChunkPayloadData)
        → find (has_tsn tsn) sender.old.flight.queue.inflight.chunks ≡ Some c
        → SenderMakes (resends tsn now c) sender.old sender.new) }
    ensures err { OnErr result (sender.new ≡ sender.old) }
{
    sender.resend(tsn, now)
}

/// Sends the first chunk again that is marked for that, if there is one and it takes at most `room` bytes of a packet.
pub fn resend_next(
    sender: &mut Sender,
    now: u64,
    room: usize,
) -> Result<Option<ChunkPayloadData>, SenderRefusal>
    ensures step { OnOk result ((c : ChunkPayloadData)
        → next_within room sender.old.flight ≡ Some c
        → SenderMakes (resends c.tsn now c) sender.old sender.new) }
    ensures none { OnOk result (next_within room sender.old.flight ≡ None
        → sender.new ≡ sender.old) }
    ensures err { OnErr result (sender.new ≡ sender.old) }
{
    sender.resend_next(now, room)
}

/// Abandons the message of a chunk.
pub fn abandon(sender: &mut Sender, tsn: u32) -> Result<AbandonedMessage, SenderRefusal>
    ensures step { IfOk result (λ a. SenderMakes (abandons tsn a) sender.old sender.new) }
    ensures err { OnErr result (sender.new ≡ sender.old) }
{
    sender.abandon(tsn)
}

/// Removes the message in front, where it is past its deadline and unsent.
pub fn expire(sender: &mut Sender, now: u64) -> Option<ExpiredMessage>
    ensures { SenderMakes (expires now result) sender.old sender.new }
{
    replay::expire(sender, now)
}

/// Abandons the rest of the message in front, where it is past its deadline and partially sent.
pub fn expire_tail(sender: &mut Sender, now: u64) -> Result<Option<AbandonedMessage>, SenderRefusal>
    ensures step { IfOk result (λ gone. SenderMakes (expires_tail now gone) sender.old sender.new) }
    ensures err { OnErr result (sender.new ≡ sender.old) }
{
    replay::expire_tail(sender, now)
}

/// Abandons each late message in flight.
pub fn expire_late(sender: &mut Sender, now: u64) -> Result<Vec<AbandonedMessage>, SenderRefusal>
    ensures step { IfOk result
        (λ gone. SenderMakes (expires_late now gone.items) sender.old sender.new) }
    ensures err { OnErr result (sender.new ≡ sender.old) }
{
    replay::expire_late(sender, now)
}

/// Abandons each message in flight that was sent again as often as it may be.
pub fn expire_rexmit(sender: &mut Sender) -> Result<Vec<AbandonedMessage>, SenderRefusal>
    ensures step { IfOk result
        (λ gone. SenderMakes (expires_rexmit gone.items) sender.old sender.new) }
    ensures err { OnErr result (sender.new ≡ sender.old) }
{
    replay::expire_rexmit(sender)
}

/// Drops the next group of messages that have expired: the calls of a session by which each of them goes at this moment, and no other;
/// where none has, lifetimes start. Their answers tell the bytes of each stream that its answer tells.
pub fn drop_expired(sender: &mut Sender, now: u64) -> Result<Option<Dropped>, SenderRefusal>
    ensures step { IfOk result (λ dropped. Drops dropped now sender.old sender.new) }
    ensures err { OnErr result (sender.new ≡ sender.old) }
{
    sender.drop_expired(now)
}

/// Makes the FORWARD-TSN up to a TSN.
pub fn forward_tsn_to(sender: &Sender, tsn: u32) -> Result<Option<ChunkForwardTsn>, SenderRefusal>
    ensures { IfOk result (λ r. IfSome r
        (λ c. SenderMakes (forwards tsn (forward_tsn_of c)) sender.now sender.now)) }
{
    replay::forward_tsn_to(sender, tsn)
}

/// Takes a SACK: by itself where the sender keeps nothing of what is reported; else what it no longer reports comes back first.
pub fn acked(sender: &mut Sender, sack: &ChunkSelectiveAck) -> Result<Acked, SenderRefusal>
    ensures step { IfOk result (λ r. TakesBackAndSack (sack_of sack.now) r.taken_back.items
        r.released.items sender.old sender.new) }
    ensures err { OnErr result (sender.new ≡ sender.old) }
{
    sender.acked(sack)
}

/// Makes the FORWARD-TSN that fits `room` bytes.
pub fn forward_tsn(sender: &Sender, room: usize) -> Result<Option<ChunkForwardTsn>, SenderRefusal>
    ensures { IfOk result (λ r. IfSome r
        (λ c. SenderMakes (forwards_within room (forward_tsn_of c)) sender.now sender.now)) }
{
    sender.forward_tsn(room)
}

/// Marks all that is outstanding for retransmission.
pub fn retransmit_all(sender: &mut Sender)
    ensures { SenderMakes marks sender.old sender.new }
{
    sender.retransmit_all();
}

/// Counts what is outstanding before a TSN as missing once more.
pub fn add_miss_indications(sender: &mut Sender, before: u32) -> usize
    ensures { SenderMakes (misses (count_before before sender.old.flight)) sender.old sender.new }
{
    sender.add_miss_indications(before)
}

/// Sets how many bytes of a message a chunk has at most, of later writes.
/// Precondition: that is 1 to 65,519.
pub fn set_fragment_size(sender: &mut Sender, size: u32)
    requires { (0 < size) × (size ≤ 65519) }
    ensures { SenderMakes (sets_size size) sender.old sender.new }
{
    sender.set_fragment_size(size);
}

/// Sets the amount of a stream, in bytes, down to which a fall is told.
pub fn set_buffered_amount_low_threshold(
    sender: &mut Sender,
    stream: u16,
    bytes: usize,
) -> Result<(), SenderRefusal>
    ensures step { OnOk result (SenderMakes (sets_low stream bytes) sender.old sender.new) }
    ensures err { OnErr result (sender.new ≡ sender.old) }
{
    sender.set_buffered_amount_low_threshold(stream, bytes)
}

/// Makes room for so many sends.
pub fn reserve(sender: &mut Sender, sends: usize) -> Result<(), SenderRefusal>
    ensures step { OnOk result (SenderMakes (reserves sends) sender.old sender.new) }
    ensures err { OnErr result (sender.new ≡ sender.old) }
{
    sender.reserve(sends)
}

// ## The same, with turns that are counted

/// Takes a SACK.
pub fn acked_counted(
    sender: &mut Sender,
    sack: &ChunkSelectiveAck,
    turns: &mut Turns,
) -> Result<Acked, SenderRefusal>
    ensures step { IfOk result (λ r. TakesBackAndSack (sack_of sack.now) r.taken_back.items
        r.released.items sender.old sender.new) }
    ensures err { OnErr result (sender.new ≡ sender.old) }
{
    costs::acked(sender, sack, turns)
}

/// Counts what is outstanding before a TSN as missing once more.
pub fn add_miss_indications_counted(sender: &mut Sender, before: u32, turns: &mut Turns) -> usize
    ensures { SenderMakes (misses (count_before before sender.old.flight)) sender.old sender.new }
{
    costs::add_miss_indications(sender, before, turns)
}
