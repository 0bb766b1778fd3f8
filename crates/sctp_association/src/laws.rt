//! What holds of every association: laws, each the contract of a function that does nothing.

ghost use Rattle.sctp_association.specs.Delivered.{EachBringsOnly, EachCarriesOnly, EachComes, EachSeldomIsCarried};
ghost use Rattle.sctp_association.specs.Held.{CostsLittle, HoldsFewChunks, KeepsFewTsns, NotesFewDuplicates, OfEach, OpensFewStreams};
ghost use Rattle.sctp_association.specs.HostCalls.{EachAskActs, EachBegins, EachDatagramActs, EachOtherIsQuiet, EachPollActs, EachReadActs, EachSizeActs, EachTimeoutActs};
ghost use Rattle.sctp_association.specs.Hosts.{EachDelivers, EachIsCut};
ghost use Rattle.sctp_association.specs.Lasting.{EachEnds, EachExpiryCounts, EachLaterCallLasts, EachQuietCallLasts, FewAreLeft};
ghost use Rattle.sctp_association.specs.Limited.{EachBeginsLimited, EachDeedKeepsLimits, EachQuietKeepsLimits, FewAreLeftBy};
ghost use Rattle.sctp_association.specs.Links.{EachLinkDelivers, EachLinkGoesOn, EachLinkIsCut, EachLinkTurns, EachTwoBegin};
ghost use Rattle.sctp_association.specs.Lives.{EachBeginningCame, EachDeedIsKnown, EachLifeBegins, EachOfferIsRead, EachUnforgedCame};
ghost use Rattle.sctp_association.specs.OneLife.{EachDatagramBrings, EachDeliversAny, EachLinkDeliversAny, EachOneLifeBegins, EachOneLifeGoesOn, EachOneLifeTurns, EachOfferedIsBrought, EachPlainIsOneLife};
ghost use Rattle.sctp_association.specs.Sessions.{EachIsSent};
ghost use Rattle.sctp_association.specs.Setups.{EachDatagramKeeps, EachQuietCallKeeps, EachSetUpDelivers, EachSetUpDeliversYoung, EachSetUpTurns, EachTwoAreSetUp, EachWrittenKeeps};
ghost use Rattle.sctp_association.specs.Sized.{EachAskIsCut, EachChunkFits, EachDatagramIsCut, EachIsCutFirst, EachOtherIsCut, EachPollIsCut, EachSizeIsCut, EachTimeoutIsCut};
ghost use Rattle.sctp_association.specs.Told.{EachLosesNone};
ghost use Rattle.sctp_association.specs.Young.{EachDeliversYoung, EachFewIsYoung, EachLinkDeliversYoung, EachPlainDeliversYoung, EachPlainLinkDeliversYoung};

/// Whatever a peer sends, and whatever calls an association had, what it holds of the peer's messages is within its `Config`. By 400 a
/// chunk, the chunks count for no more than `window` and one chunk for each TSN within `reach`; with their bytes, for no more than
/// `window` and one longest chunk for each. No more TSNs stand beyond the cumulative one than within `reach`, no more duplicates are
/// noted than one SACK can report, and no more streams are open than `inbound_streams`.
pub fn what_is_held_is_bounded()
    ensures chunks { OfEach HoldsFewChunks }
    ensures bytes { OfEach CostsLittle }
    ensures beyond { OfEach KeepsFewTsns }
    ensures duplicates { OfEach NotesFewDuplicates }
    ensures streams { OfEach OpensFewStreams }
{}

/// What `poll_transmit` makes is calls of a session of its sender (`sctp_delivery`), in whatever session the sender stands: so a datagram is a
/// packet of which each DATA chunk and FORWARD-TSN was made in that session.
pub fn what_is_sent_was_made()
    ensures { EachIsSent }
{}

/// Whatever bytes a datagram of `poll_transmit` has: each DATA chunk and FORWARD-TSN that it carries was made by the sender that wrote it, each
/// SACK by the receiver, and a SHUTDOWN acknowledges as such a SACK. So each call that it brings (`Arrives`) is for one of these, in whatever
/// sessions of `sctp_delivery` these halves stand.
pub fn what_comes_was_made()
    ensures carried { EachCarriesOnly }
    ensures brought { EachBringsOnly }
    ensures seldom { EachSeldomIsCarried }
    ensures sessions { EachComes }
{}

/// Two associations, from `new` on: whatever their applications call, and whichever datagrams of the peer come, late, again, in another order or
/// never. What one reads the other wrote, on that stream, with that payload type and those bytes, no write twice, and ordered ones in order.
/// In the end each other write was read. It holds while they write fewer than 2^31 - 1 fragments: no more than bytes. Without the end it holds in a
/// whole life, while nothing that comes or is held is 2^31 TSNs old.
pub fn what_is_read_was_written()
    ensures hosts { EachDelivers }
    ensures cut { EachIsCut }
    ensures linked { EachLinkDelivers }
    ensures few { EachLinkIsCut }
    ensures hosts_recent { EachPlainDeliversYoung }
    ensures linked_recent { EachPlainLinkDeliversYoung }
{}

/// Two associations as above, whatever datagrams bring: streams are reset or closed, TSNs come without their chunks, names of streams that are
/// not open are passed over. Each receiver begins once. What is read on a stream that its sender did not begin again was written, no write twice;
/// and in order, and in the end, on an untouched stream. In a whole life, too, but for the end, while nothing that comes is 2^31 TSNs old.
pub fn whatever_is_reset_what_is_read_was_written()
    ensures hosts { EachDeliversAny }
    ensures linked { EachLinkDeliversAny }
    ensures weaker { EachPlainIsOneLife }
    ensures hosts_recent { EachDeliversYoung }
    ensures linked_recent { EachLinkDeliversYoung }
    ensures few { EachFewIsYoung }
{}

/// What the clauses of a call ensure of an association is what these acts of a `Host` do: of such acts `what_is_read_was_written` speaks, and
/// `two_associations_go_on` leads on by them.
pub fn each_call_is_what_a_host_does()
    ensures begun { EachBegins }
    ensures asked { EachAskActs }
    ensures sized { EachSizeActs }
    ensures timed { EachTimeoutActs }
    ensures read { EachReadActs }
    ensures polled { EachPollActs }
    ensures handled { EachDatagramActs }
    ensures quiet { EachOtherIsQuiet }
{}

/// Two associations that were made by `new` are linked, and stay so by acts of either: so a caller has `what_is_read_was_written` of them.
pub fn two_associations_go_on()
    ensures begun { EachTwoBegin }
    ensures acts { EachLinkGoesOn }
    ensures turned { EachLinkTurns }
{}

/// As `two_associations_go_on`, for `whatever_is_reset_what_is_read_was_written`: it says too what datagrams brought to each meanwhile, what each
/// made, and when nothing old came; and by whose offers halves began, where `offered` of `handle_datagram` says that.
pub fn two_associations_of_one_life_go_on()
    ensures begun { EachOneLifeBegins }
    ensures acts { EachOneLifeGoesOn }
    ensures turned { EachOneLifeTurns }
    ensures handled { EachDatagramBrings }
    ensures offered { EachOfferedIsBrought }
{}

/// By which datagrams an association knows its peer, from `new` on, whatever calls it has. Each receiver begins with the first TSN of an INIT ACK
/// that came, or of a ticket that a COOKIE-ECHO brought back. Each ticket that this side seals has the offer of an INIT that came. So where no
/// cookie is forged, each receiver begins by the offer of an INIT or INIT ACK that came. One that an association wrote offers its TSN.
pub fn each_receiver_begins_by_what_came()
    ensures begun { EachLifeBegins }
    ensures deeds { EachDeedIsKnown }
    ensures came { EachBeginningCame }
    ensures unforged { EachUnforgedCame }
    ensures read { EachOfferIsRead }
{}

/// Two associations, from `new` on, whatever calls they have and whichever datagrams of the peer come: each receiver begins once, with the
/// peer's first TSN, while no cookie is forged and no datagram brings a restart of the peer (RFC 9260 5.2.4 A). So
/// `whatever_is_reset_what_is_read_was_written` holds of them. It says too what each made, and when nothing old came.
pub fn two_associations_begin_once()
    ensures begun { EachTwoAreSetUp }
    ensures quiet { EachQuietCallKeeps }
    ensures written { EachWrittenKeeps }
    ensures handled { EachDatagramKeeps }
    ensures turned { EachSetUpTurns }
    ensures delivered { EachSetUpDelivers }
    ensures delivered_recent { EachSetUpDeliversYoung }
{}

/// No event is lost, along any calls that ensure `tells`, with `poll` between them. Each event that waited is given or waits. So it is where the
/// association begins, begins anew or ends, and where a message can be read on a stream on which none could be read before.
pub fn no_event_is_lost()
    ensures { EachLosesNone }
{}

/// Each chunk fits a packet, from `new` on, whatever calls an association has and whatever datagrams come: no chunk that waits or is in flight
/// has more user data than a DATA chunk that fills one. Packets have as many bytes as `new` or the last `set_mtu` took.
pub fn each_chunk_fits_a_packet()
    ensures begun { EachIsCutFirst }
    ensures asked { EachAskIsCut }
    ensures sized { EachSizeIsCut }
    ensures timed { EachTimeoutIsCut }
    ensures polled { EachPollIsCut }
    ensures handled { EachDatagramIsCut }
    ensures quiet { EachOtherIsCut }
    ensures fits { EachChunkFits }
{}

/// An association that hears nothing of its peer ends. Along any calls that bring nothing of it (`left`), each expiry of T3-rtx, T1-init, T1-cookie or
/// T2-shutdown leaves fewer expiries (`expiries_left`), and with as many as were left the association is over. At most one is left, and
/// Association.Max.Retrans, and once more that or Max.Init.Retransmits.
pub fn an_unanswered_association_ends()
    ensures quiet { EachQuietCallLasts }
    ensures between { EachLaterCallLasts }
    ensures counted { EachExpiryCounts }
    ensures ends { EachEnds }
    ensures few { FewAreLeft }
{}

/// From `new` on, whatever calls an association has and whatever datagrams come, it goes by the limits of its `Config`: Association.Max.Retrans,
/// Max.Init.Retransmits, RTO.Min and RTO.Max. So does one that begins anew. And `an_unanswered_association_ends` counts by the `Config`.
pub fn an_association_keeps_its_limits()
    ensures begun { EachBeginsLimited }
    ensures deeds { EachDeedKeepsLimits }
    ensures quiet { EachQuietKeepsLimits }
    ensures few { FewAreLeftBy }
{}
