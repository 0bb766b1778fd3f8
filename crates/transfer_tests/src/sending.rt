//! A caller of a sender.

ghost use Rattle.std.specs.Prelude.{◌≡◌, ◌-◌, ◌⊎◌, None, Some, OnErr, OnOk, IfErr, IfOk, IfSome, IsOk, find, length, option_map, slice_get};
ghost use Rattle.sctp_data.specs.SelectiveAck.{sack_of};
ghost use Rattle.sctp_data.specs.declared.chunk.chunk_payload_data.ChunkPayloadData.{ChunkPayloadData};
ghost use Rattle.sctp_sender.specs.declared.sender.refusal.SenderRefusal.{SenderRefusal};
ghost use Rattle.sctp_sender.specs.declared.sender.refusal.SenderRefusal.TheVariants.{OutOfMemory};
ghost use Rattle.sctp_sender.specs.Flight.{released_by, sack_refusal};
ghost use Rattle.sctp_sender.specs.Abandonment.{advanced_ack_point, skip_end};
ghost use Rattle.sctp_sender.specs.Late.{after_late};
ghost use Rattle.sctp_sender.specs.Resending.{is_to_resend};
ghost use Rattle.sctp_sender.specs.Sender.{after_acked, after_take_back, take_back_refusal, taken_back_by};
ghost use Rattle.sctp_sender.specs.Thresholds.{fell, tells_low};
ghost use Rattle.std.specs.List.{list_any};
ghost use Rattle.sctp_serial.specs.DataChunks.{has_tsn};

use sctp_chunks::chunk::chunk_forward_tsn::ChunkForwardTsn;
use sctp_chunks::chunk::chunk_payload_data::ChunkPayloadData;
use sctp_chunks::chunk::chunk_selective_ack::ChunkSelectiveAck;
use sctp_sender::replay;
use sctp_sender::sender::Sender;
use sctp_sender::sender::flight::Released;
use sctp_sender::sender::flight::kept::TakenBack;
use sctp_sender::sender::refusal::SenderRefusal;

/// Gives a SACK to a sender. One that claims what can't be is dropped, and nothing changes. Fails only where memory ran out.
pub fn take_sack(sender: &mut Sender, sack: &ChunkSelectiveAck) -> Result<(), SenderRefusal>
    ensures taken { sack_refusal (sack_of sack.now) sender.old.flight ≡ None
        → take_back_refusal (sack_of sack.now) sender.old ≡ None → OnOk result (sender.new
        ≡ after_acked (sack_of sack.now) (after_take_back (sack_of sack.now) sender.old)) }
    ensures forged { (e : SenderRefusal)
        → sack_refusal (sack_of sack.now) sender.old.flight ≡ Some e → sender.new ≡ sender.old }
    ensures err { OnErr result (sender.new ≡ sender.old) }
    ensures memory { IfErr result (λ e. e ≡ OutOfMemory) }
{
    match sender.acked(sack) {
        Ok(_) => Ok(()),
        Err(SenderRefusal::OutOfMemory) => Err(SenderRefusal::OutOfMemory),
        Err(_) => Ok(()),
    }
}

/// Gives a SACK to a sender that keeps what was reported (RFC 4960 6.2.1 D iv): what it no longer reports is outstanding again, and
/// answered; then what it reports is acknowledged. Where that is refused, all is as it was.
pub fn take_back_and_acknowledge(
    sender: &mut Sender,
    sack: &ChunkSelectiveAck,
) -> Result<Vec<TakenBack>, SenderRefusal>
    ensures back { IfOk result (λ back. back.items ≡ taken_back_by (sack_of sack.now) sender.old) }
    ensures taken { OnOk result (sender.new
        ≡ after_acked (sack_of sack.now) (after_take_back (sack_of sack.now) sender.old)) }
    ensures err { OnErr result (sender.new ≡ sender.old) }
{
    let acked = sender.acked(sack)?;
    Ok(acked.taken_back)
}

/// Abandons what is late, and answers the FORWARD-TSN that the peer is to be sent then, if there is one, whatever its length is.
pub fn abandon_late(sender: &mut Sender, now: u64) -> Result<Option<ChunkForwardTsn>, SenderRefusal>
    ensures late { OnOk result (sender.new ≡ after_late now sender.old) }
    ensures tsn { IfOk result (λ r. option_map (λ c. c.new_cumulative_tsn) r
        ≡ skip_end (advanced_ack_point sender.new.flight) sender.new.flight) }
{
    replay::expire_late(sender, now)?;
    let furthest = replay::advanced_ack_point(sender);
    replay::forward_tsn_to(sender, furthest)
}

/// Gives a SACK to a sender, and answers the highest TSN that it acknowledges anew: before it `add_miss_indications` counts what
/// is missing (RFC 4960 7.2.4).
pub fn highest_acked(
    sender: &mut Sender,
    sack: &ChunkSelectiveAck,
) -> Result<Option<u32>, SenderRefusal>
    ensures taken { OnOk result (sender.new ≡ after_acked (sack_of sack.now) sender.old) }
    ensures highest { IfOk result (λ tsn. tsn ≡ option_map (λ r. r.tsn)
        (slice_get (released_by (sack_of sack.now) sender.old.flight)
        (length (released_by (sack_of sack.now) sender.old.flight) - 1))) }
    ensures err { OnErr result (sender.new ≡ sender.old) }
{
    let released = replay::acked(sender, sack)?;
    match released.last() {
        Some(one) => Ok(Some(one.tsn)),
        None => Ok(None),
    }
}

/// Gives a SACK to a sender, and answers whether the buffered amount of a stream fell with it from above its low threshold to at most
/// it: WebRTC tells that by the event bufferedamountlow.
pub fn is_low_after(
    sender: &mut Sender,
    sack: &ChunkSelectiveAck,
    stream: u16,
) -> Result<bool, SenderRefusal>
    ensures taken { OnOk result (sender.new ≡ after_acked (sack_of sack.now) sender.old) }
    ensures low { IfOk result (λ low. low ≡ fell stream sender.old sender.new) }
    ensures err { OnErr result (sender.new ≡ sender.old) }
{
    let released = replay::acked(sender, sack)?;
    Ok(tell_low(&released, stream))
}

// Whether one of the chunks is of the stream and says that the amount fell with it.
fn tell_low(released: &[Released], stream: u16) -> bool
    ensures { result ≡ list_any (tells_low stream) released.now }
{
    released
        .iter()
        .any(|one| one.stream == stream && one.is_low)
}
