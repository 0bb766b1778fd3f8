//! What is asked of the association for a channel.

ghost use Rattle.std.specs.Prelude.{◌≡◌, false, IfErr, IfOk, OnErr, OnOk, Some};
ghost use Rattle.sctp_association.specs.Calls.{is_resettable, use_fault, write_fault};
ghost use Rattle.sctp_channels.specs.Refusals.{FollowRefused};
ghost use Rattle.sctp_channels.specs.declared.channels.Refusal.TheVariants.{OutOfMemory};
ghost use Rattle.sctp_channels.specs.Sends.{AnswersIf, AsksIf, IsModedAtMost, ModesIf, passes};

use crate::channels::Refusal;
use sctp_association::{Association, Fault, PayloadProtocolIdentifier, ReliabilityType};
use sctp_dcep::{Message, Open};
use std::alloc::Global;

/// Asks for a reset of our direction of a stream, and answers whether the association takes that.
pub(crate) fn ask(association: &mut Association, stream: u16) -> Result<bool, Refusal>
    ensures takes { IfOk result (λ b. b ≡ is_resettable stream association.old) }
    ensures ok { IfOk result (λ b. AsksIf b stream association.old association.new) }
    ensures err { OnErr result (association.new ≡ association.old) }
    ensures memory { IfErr result (λ e. e ≡ OutOfMemory) }
{
    match association.reset_stream(stream) {
        Ok(()) => Ok(true),
        Err(Fault::OutOfMemory) => Err(Refusal::OutOfMemory),
        Err(_) => Ok(false),
    }
}

/// Sets the mode of a stream, where the association takes it.
pub(crate) fn set_mode_of(
    association: &mut Association,
    stream: u16,
    unordered: bool,
    reliability: ReliabilityType,
    value: u32,
) -> Result<(), Refusal>
    ensures ok { OnOk result (ModesIf (use_fault stream association.old) stream unordered
        reliability value association.old association.new) }
    ensures err { OnErr result (association.new ≡ association.old) }
    ensures memory { IfErr result (λ e. e ≡ OutOfMemory) }
{
    match association.set_mode(stream, unordered, reliability, value) {
        Ok(()) => Ok(()),
        Err(Fault::OutOfMemory) => Err(Refusal::OutOfMemory),
        Err(_) => Ok(()),
    }
}

/// Sets the mode of a stream as the peer asks, and writes DATA_CHANNEL_ACK on it; answers whether the association takes that. Where it refuses for
/// memory, or because too much waits, the mode may be set.
#[tactic(auto, using(crate::proofs::Refusing::follow_refused, crate::proofs::Refusing::follow_memory))]
pub(crate) fn answer(
    alloc: Global,
    association: &mut Association,
    stream: u16,
    request: &Open,
) -> Result<bool, Refusal>
    ensures ok { IfOk result
        (λ b. AnswersIf b stream request.now association.old association.new) }
    ensures err { OnErr result (IsModedAtMost stream request.now.unordered
        request.now.reliability request.now.value association.old association.new) }
    ensures refused { IfErr result (FollowRefused (write_fault stream 1 association.new)) }
{
    let ack = Message::Ack.write(alloc)?;
    let (unordered, reliability) = (request.unordered, request.reliability);
    match association.set_mode(stream, unordered, reliability, request.value) {
        Ok(()) => {}
        Err(fault) => return not_taken(fault),
    }
    match association.write(stream, PayloadProtocolIdentifier::Dcep, &ack) {
        Ok(()) => Ok(true),
        Err(fault) => not_taken(fault),
    }
}

// A fault that a later call may not meet is a refusal. Else the stream takes no message any more.
fn not_taken(fault: Fault) -> Result<bool, Refusal>
    ensures stays { IfOk result (λ b. (b ≡ false) × (passes fault ≡ false)) }
    ensures passes { IfErr result (FollowRefused (Some fault)) }
{
    match fault {
        Fault::OutOfMemory => Err(Refusal::OutOfMemory),
        Fault::Full => Err(Refusal::Association(Fault::Full)),
        Fault::WrongState
        | Fault::NoSuchStream
        | Fault::MessageTooLarge
        | Fault::Resetting
        | Fault::BadConfig => Ok(false),
    }
}
