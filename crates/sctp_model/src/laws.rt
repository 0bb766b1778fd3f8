//! What holds of every history of a link: laws, each the contract of a function that does nothing.

ghost use Rattle.sctp_model.specs.Laws.{OnEveryRun, EmitsWherePending, TakesPending, IdleIsAnswered, WithinLimit, FilledToLimit, SlotsInOrder, SlotsFollow, OnePartiallySent, SentInTurn, IndexesLeaveNoGap, NoTerminalChunkIsSent, DatagramsStay, Balances, SumsAgree, AcknowledgedArrived, AcknowledgedIsReported, SacksSay, NetworkIsMade, ArrivedIsNew, CumulativeIsSeen, ArrivalsAnswered, CompletenessAgrees, NamedIsNamed, SpansFit, MessagesAreWrites, ModesAreKept, ReadsShowMessages, ReadsBeginRun, ReadsBeginCompleteRun, ReadsBeginComplete, ReadsDiffer, UnorderedFirst, NothingWhereRead, StartsOnce, DeadlinesByEvents, ExpiresPastDeadline, TailAbandonsPastDeadline, LateListsPastDeadline, LateAbandonsListed, ReadsAreSettled, ReadsByArrivals, NoneIsLost, CountersAreSums, Headline, Beside, ReliableDelivery, PartialDelivery};
ghost use Rattle.sctp_model.specs.Exchanges.{BeginAndEnd, ChunksSayMessages, ChunksJoin, OutstandingGoAgain, AcknowledgesSeen, AcknowledgesArrived, UnorderedGoFirst, WriteIsAnswered, SendIsAnswered, ResendIsAnswered, MessagesAreBounded, NamesAreBounded};
ghost use Rattle.sctp_model.specs.Valid.{RecordIsValid, SlotsComeValid, SkipsComeValid};

/// A Send answers Idle exactly where no fragment is pending, be memory refused or not; else its
/// new datagram carries the pending fragments that it takes.
pub fn each_send_emits()
    ensures idle { OnEveryRun EmitsWherePending }
    ensures takes { OnEveryRun TakesPending }
    ensures answered { OnEveryRun IdleIsAnswered }
{}

/// A Send takes one fragment, however small the limit is, and then each that still fits: a
/// datagram of several is no longer than the limit, and with the next fragment, where one waits,
/// it would be longer. Lengths are in bytes, padding included (RFC 4960 3.1, 3.3.1).
pub fn datagrams_keep_the_limit()
    ensures within { OnEveryRun WithinLimit }
    ensures filled { OnEveryRun FilledToLimit }
{}

/// The slots of a message have its fragments in order, side by side; the messages of a stream are sent in turn; one that is
/// abandoned while partially sent takes one terminal chunk, which no datagram carries; what a datagram says never changes.
pub fn slots_are_valid()
    ensures in_order { OnEveryRun SlotsInOrder }
    ensures follow { OnEveryRun SlotsFollow }
    ensures one_partially_sent { OnEveryRun OnePartiallySent }
    ensures in_turn { OnEveryRun SentInTurn }
    ensures no_gap { OnEveryRun IndexesLeaveNoGap }
    ensures no_terminal_chunk { OnEveryRun NoTerminalChunkIsSent }
    ensures stay { OnEveryRun DatagramsStay }
{}

/// Each written byte is pending, in flight or released, in all and on each stream; what was written is the sum over the writes,
/// what was released the sum over the replies that tell of a release.
pub fn bytes_balance()
    ensures balance { OnEveryRun Balances }
    ensures sums { OnEveryRun SumsAgree }
{}

/// What a taken SACK acknowledges arrived new or was skipped, the record has just what the taken SACKs report, and each SACK
/// says what the order of arrivals gives.
pub fn only_arrived_is_acknowledged()
    ensures arrived { OnEveryRun AcknowledgedArrived }
    ensures reported { OnEveryRun AcknowledgedIsReported }
    ensures say { OnEveryRun SacksSay }
{}

/// What the record has of arrivals is what the order of arrivals in the history says.
pub fn arrivals_agree()
    ensures network { OnEveryRun NetworkIsMade }
    ensures arrived { OnEveryRun ArrivedIsNew }
    ensures cumulative { OnEveryRun CumulativeIsSeen }
    ensures answered { OnEveryRun ArrivalsAnswered }
    ensures complete { OnEveryRun CompletenessAgrees }
    ensures named { OnEveryRun NamedIsNamed }
    ensures spans { OnEveryRun SpansFit }
{}

/// The ordered messages of a stream are read in order, each as it was written, as far as they are complete.
pub fn ordered_reads()
    ensures writes { OnEveryRun MessagesAreWrites }
    ensures modes { OnEveryRun ModesAreKept }
    ensures show { OnEveryRun ReadsShowMessages }
    ensures run { OnEveryRun ReadsBeginRun }
    ensures complete_run { OnEveryRun ReadsBeginCompleteRun }
{}

/// The unordered messages of a stream are read at most once each, in the order in which they became complete; while a complete one
/// is unread, no ordered one is read.
pub fn unordered_reads()
    ensures complete { OnEveryRun ReadsBeginComplete }
    ensures differ { OnEveryRun ReadsDiffer }
    ensures first { OnEveryRun UnorderedFirst }
{}

/// A Read answers Nothing exactly where the run is exhausted and each complete unordered message was read.
pub fn nothing_when_exhausted()
    ensures nothing { OnEveryRun NothingWhereRead }
{}

/// A lifetime starts at the first Start or Send after the write. A message is past its deadline exactly
/// where it was written in timed mode, is not DCEP, and now, in nanoseconds, is at least its start
/// plus its lifetime in milliseconds, a moment that 64 bits hold (RFC 3758 4.1, RFC 8832 6).
/// Expire, Tail and Late answer, remove and abandon exactly by that; Late abandons the messages of
/// the slots that it lists and no others.
pub fn lifetimes_end()
    ensures once { OnEveryRun StartsOnce }
    ensures deadlines { OnEveryRun DeadlinesByEvents }
    ensures expire { OnEveryRun ExpiresPastDeadline }
    ensures tail { OnEveryRun TailAbandonsPastDeadline }
    ensures listed { OnEveryRun LateListsPastDeadline }
    ensures late { OnEveryRun LateAbandonsListed }
{}

/// Where no message of a stream was lost, what is read of it in the end is settled by the writes on
/// it (each message, and whether it is ordered) and by which of its messages arrived wholly. Two
/// histories, even of links with other first TSNs, fragment sizes and limits, that agree in these
/// read the same ordered messages in the same order, and the same set of unordered ones. All else
/// may differ: lifetimes and when they start, what is written, arrives, expires, is abandoned or
/// skipped on other streams, fragments that arrived of messages that did not arrive wholly, in which
/// datagrams and in which order, SACKs, and what the sender abandoned of the stream itself.
/// Lost is an ordered message that expired, or that a skip passed over before it arrived wholly, and
/// an unordered one that arrived wholly, but only after a skip covered a part of it (RFC 3758 3.6);
/// without an Expire, Tail, Late, Abandon and Skip no message is lost.
pub fn reads_are_settled()
    ensures settled { ReadsAreSettled }
    ensures by_arrivals { OnEveryRun ReadsByArrivals }
    ensures none_lost { OnEveryRun NoneIsLost }
{}

/// The counters of a stream are the sums over its writes and its reads, at most the greatest u64: of messages, text and binary ones,
/// the two empty kinds too; of bytes, those of text and binary ones. DCEP and any other payload type count nothing (RFC 8831 6.6).
pub fn counters_count()
    ensures sums { OnEveryRun CountersAreSums }
{}

/// The record of every history is what a receiver's queues need: fragments side by side, indexes near one another, nothing new
/// below what was skipped; so is each state between the slots of a datagram.
pub fn records_are_valid()
    ensures valid { OnEveryRun RecordIsValid }
    ensures slots { OnEveryRun SlotsComeValid }
    ensures skips { OnEveryRun SkipsComeValid }
{}

/// The laws above at once, for every history of a link, every first TSN, fragment size, greatest
/// message and limit; the six laws below are not among them. Each Send emits a pending fragment
/// while one exists; reading until nothing is left gives exactly each complete unordered message
/// once and, per stream in writing order, the complete ordered messages up to the last named, then
/// the unbroken complete run; only what arrived or was skipped is acknowledged; written bytes equal
/// pending plus in flight plus released. Beside it: slots, limits of datagrams, arrivals, lifetimes,
/// counters, reads without loss, and valid records.
pub fn every_history()
    ensures headline { Headline }
    ensures beside { Beside }
    ensures reliable { ReliableDelivery }
    ensures all { PartialDelivery }
{}

/// Of the DATA chunks of a message the first one alone begins it, and the one of its last fragment alone ends it; each says the
/// message's stream, payload type, whether it is ordered, and its stream sequence number; and where all were sent, their user
/// data join to what was written (RFC 4960 3.3.1, 6.9).
pub fn chunks_say_their_message()
    ensures ends { OnEveryRun BeginAndEnd }
    ensures says { OnEveryRun ChunksSayMessages }
    ensures joins { OnEveryRun ChunksJoin }
{}

/// What is sent again was sent and is outstanding: no SACK that was taken reports it, and its message was not abandoned (RFC 4960
/// 6.3.3; RFC 3758 3.5).
pub fn only_outstanding_goes_again()
    ensures { OnEveryRun OutstandingGoAgain }
{}

/// A SACK that comes at once acknowledges all that was seen from the first TSN on without a break, and what came beyond that within
/// 65,535 TSNs, unless there are more gaps than it has room for (RFC 4960 3.3.4, 6.2.1).
pub fn sacks_acknowledge_what_came()
    ensures seen { OnEveryRun AcknowledgesSeen }
    ensures arrived { OnEveryRun AcknowledgesArrived }
{}

/// An ordered message is begun only where no unordered one waits.
pub fn unordered_go_first()
    ensures { OnEveryRun UnorderedGoFirst }
{}

/// A Write tells the number of its message, by which a Skip names it, and how many fragments it has; a Send the TSN and the stream
/// sequence number of its first chunk; a Resend the datagram that has the chunk.
pub fn replies_tell()
    ensures write { OnEveryRun WriteIsAnswered }
    ensures send { OnEveryRun SendIsAnswered }
    ensures resend { OnEveryRun ResendIsAnswered }
{}

/// A message has a byte, and no more than the greatest; a FORWARD-TSN is no longer than a chunk may be (RFC 4960 3.2).
pub fn lengths_are_bounded()
    ensures messages { OnEveryRun MessagesAreBounded }
    ensures names { OnEveryRun NamesAreBounded }
{}
