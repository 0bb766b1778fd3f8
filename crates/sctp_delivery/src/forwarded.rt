//! What the law of abandoned messages tells a caller.

ghost use Rattle.std.specs.Prelude.{◌≡◌, true, Some, IfOk, IfSome, option_map};
ghost use Rattle.sctp_data.specs.ForwardTsn.{forward_tsn_of};
ghost use Rattle.sctp_sender.specs.Abandonment.{advanced_ack_point};
ghost use Rattle.sctp_delivery.specs.Modes.{WhileFewInFlight};
ghost use Rattle.sctp_delivery.specs.Rounds.{in_flight, is_first_abandoned};
ghost use Rattle.sctp_delivery.specs.SenderCalls.{SenderMakes, forwards};

use crate::laws::rounds::what_is_abandoned_can_be_passed;
use sctp_data::chunk::chunk_forward_tsn::ChunkForwardTsn;
use sctp_sender::replay;
use sctp_sender::sender::Sender;
use sctp_sender::sender::refusal::SenderRefusal;

/// Makes the FORWARD-TSN that is to be sent, whatever its length is. In whatever session the sender stands, while fewer than 2^31 chunks are in
/// flight: where the message of the first chunk in flight is abandoned, there is one, and it goes to the Advanced.Peer.Ack.Point.
pub fn forward(sender: &Sender) -> Result<Option<ChunkForwardTsn>, SenderRefusal>
    ensures step { IfOk result (λ r. IfSome r
        (λ c. SenderMakes (forwards (advanced_ack_point sender.now.flight) (forward_tsn_of c))
        sender.now sender.now)) }
    ensures made { IfOk result (λ r. WhileFewInFlight (λ s.
        s.sending.sender ≡ sender.now → is_first_abandoned (in_flight s) ≡ true
        → option_map (λ c. c.new_cumulative_tsn) r
        ≡ Some (advanced_ack_point sender.now.flight))) }
{
    what_is_abandoned_can_be_passed();
    let furthest = replay::advanced_ack_point(sender);
    replay::forward_tsn_to(sender, furthest)
}
