//! What reading a stream until nothing is left gives (RFC 9260 6.5, 6.6): a law.

ghost use Rattle.sctp_receiver.specs.Drains.{DrainsGiveWhatIsDue, WhatIsDueDrains};

/// At every moment, reading a stream until `read` answers None gives exactly what is complete and due then: the complete unordered
/// messages in the order in which they became complete, and then the ordered ones up to the first that is not complete, or past a gap.
pub fn a_drain_gives_what_is_due()
    ensures only { DrainsGiveWhatIsDue }
    ensures all { WhatIsDueDrains }
{}
