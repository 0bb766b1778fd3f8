//! What holds of every datagram: a law, the contract of a function that does nothing.

ghost use Rattle.sctp_datagram.specs.Carried.{AddsNoPlain, AddsNone, CarriesEach, KeepsOrder, OfEachWritten};

/// A packet that is written carries the chunks that were put into it, in order, and no others. Their types are known, so none stops the
/// reading. Of INIT, HEARTBEAT, HEARTBEAT-ACK and RE-CONFIG this holds where all chunks of the packet read back. Where a HEARTBEAT or a
/// HEARTBEAT-ACK does not, the packet may be refused, and then carries nothing (`each`).
pub fn what_is_carried_was_put()
    ensures plain { OfEachWritten AddsNoPlain }
    ensures all { OfEachWritten AddsNone }
    ensures each { OfEachWritten CarriesEach }
    ensures order { OfEachWritten KeepsOrder }
{}
