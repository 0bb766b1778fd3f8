//! In which session two hosts stand, and to which one each call leads: what a caller composes the other laws with.

ghost use Rattle.sctp_delivery.specs.Stand.{EachAckedStepsSo, EachKeepsNothing, EachReceiverCallSteps, EachReceiverCallStepsSo, EachSenderCallSteps, EachSenderCallStepsSo, EachTwoBegin, EachTwoBeginSo};
ghost use Rattle.sctp_delivery.specs.StandAny.{EachAckedStepsAny, EachReceiverCallStepsAny, EachReceiverOtherStepsAny, EachSenderCallStepsAny, EachSenderOtherStepsAny, EachTwoBeginAny};

/// A new sender and a new receiver that begin with the same TSN stand in a session.
pub fn two_hosts_begin_a_session()
    ensures { EachTwoBegin }
{}

/// From a session in which two hosts stand, what a call of `sender_steps` or `receiver_steps` makes leads to one in which they stand then.
/// A call of the sender gives out one TSN at most. A SACK or a chunk is one that the other host made; what was made can be handed over
/// ever after. A call that is refused changes nothing, so the hosts stand where they stood.
pub fn each_call_leads_to_a_session()
    ensures sender { EachSenderCallSteps }
    ensures receiver { EachReceiverCallSteps }
{}

/// The sender of a session keeps nothing of what is reported: so each SACK that it takes is a step.
pub fn a_sender_keeps_nothing()
    ensures { EachKeepsNothing }
{}

/// A new sender that keeps what gap ack blocks report and a new receiver that begin with the same TSN stand in a session of such a sender.
pub fn two_hosts_begin_a_session_whatever_comes_back()
    ensures { EachTwoBeginSo }
{}

/// From a session of a sender that keeps what gap ack blocks report, what each call makes leads to one in which the hosts stand then, as
/// `each_call_leads_to_a_session` says; and what `acked` makes is two steps. There fewer than 2^64 bytes are written.
pub fn each_call_leads_to_a_session_whatever_comes_back()
    ensures sender { EachSenderCallStepsSo }
    ensures receiver { EachReceiverCallStepsSo }
    ensures acked { EachAckedStepsSo }
{}

/// A new sender, which keeps what gap ack blocks report or not, and a new receiver that begin with the same TSN stand in a session of every
/// call.
pub fn two_hosts_begin_a_session_of_every_call()
    ensures { EachTwoBeginAny }
{}

/// From a session of every call, what each call makes leads to one in which the hosts stand then: the calls of other sessions, those by which
/// streams are closed or reset, chunks dropped, and names passed over; and what `acked` makes is two steps.
pub fn each_call_leads_to_a_session_of_every_call()
    ensures sender { EachSenderCallStepsAny }
    ensures receiver { EachReceiverCallStepsAny }
    ensures sender_other { EachSenderOtherStepsAny }
    ensures receiver_other { EachReceiverOtherStepsAny }
    ensures acked { EachAckedStepsAny }
{}
