//! What the laws of what comes back tell a caller.

ghost use Rattle.std.specs.Prelude.{◌≡◌, IfErr, IfOk, OnErr, Contains};
ghost use Rattle.sctp_data.specs.SelectiveAck.{sack_of};
ghost use Rattle.sctp_sender.specs.declared.sender.refusal.SenderRefusal.TheVariants.{OutOfMemory};
ghost use Rattle.sctp_delivery.specs.Returns.{AfterEachWithReturnsOfFewTsns, AreTwoCalls};

use crate::laws::returns::{each_acked_is_two_calls, whatever_comes_back_sacks_tell_what_came};
use sctp_data::chunk::chunk_selective_ack::ChunkSelectiveAck;
use sctp_sender::sender::refusal::SenderRefusal;
use sctp_sender::sender::{Acked, Sender};

/// Takes a SACK of the other host, as a sender does that keeps what is reported. In whatever session of such a sender it stands, one that
/// the receiver made is refused for want of memory alone; and it is two calls of that session, which lead to where the sender stands then.
pub fn take_sack(sender: &mut Sender, sack: &ChunkSelectiveAck) -> Result<Acked, SenderRefusal>
    ensures err { OnErr result (sender.new ≡ sender.old) }
    ensures refused { IfErr result (λ e. AfterEachWithReturnsOfFewTsns (λ first given gone calls s.
        s.sending.sender ≡ sender.old → Contains s.sacks (sack_of sack.now) → e ≡ OutOfMemory)) }
    ensures calls { IfOk result (λ r. AfterEachWithReturnsOfFewTsns (λ first given gone calls s.
        s.sending.sender ≡ sender.old → Contains s.sacks (sack_of sack.now)
        → AreTwoCalls (sack_of sack.now) r.taken_back.items r.released.items s sender.new)) }
{
    each_acked_is_two_calls();
    whatever_comes_back_sacks_tell_what_came();
    sender.acked(sack)
}
