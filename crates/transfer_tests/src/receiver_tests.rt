//! A receiver, by the examples of the RFCs and by what a peer may forge.

use crate::log::check;
use crate::receivers::Step::{
    Advised, Close, Cumulative, Data, Discard, Forward, HasStats, Held, IsReadable, MakeSack,
    NothingBeyond, Open, OpenAgain, Read, ReadOf, Readable, Reset, Sack, SackSent, SackWithin,
    Streams, Take, TakeOrDiscard,
};
use crate::receivers::Way::{ByNames, Known, PastClosed};
use crate::receivers::{Step, all_go};
use sctp_receiver::advice::AbortCause;
use sctp_receiver::receiver::Receiver;
use sctp_receiver::receiver::arrival::{Arrival, Forwarded};
use sctp_receiver::receiver::limits::Limits;
use sctp_receiver::receiver::refusal::ReceiverRefusal;
use std::alloc::Global;

type Flags = (bool, bool, bool);

const FIRST: Flags = (false, true, false);

const MIDDLE: Flags = (false, false, false);

const LAST: Flags = (false, false, true);

const ALONE: Flags = (false, true, true);

const UNORDERED: Flags = (true, true, true);

type Taken = Result<Arrival, ReceiverRefusal>;

const PART: Taken = Ok(Arrival::New { complete: false });

const WHOLE: Taken = Ok(Arrival::New { complete: true });

const REPEAT: Taken = Ok(Arrival::Repeat);

const FAR: Taken = Err(ReceiverRefusal::SsnTooFar);

const UNKNOWN: Taken = Err(ReceiverRefusal::StreamUnknown);

const OPPOSITE: Taken = Err(ReceiverRefusal::TsnOpposite);

const TOO_FAR: Taken = Err(ReceiverRefusal::TsnTooFar);

const FULL: Taken = Err(ReceiverRefusal::WindowFull);

const TOO_LARGE: Taken = Err(ReceiverRefusal::MessageTooLarge);

type Followed = Result<Forwarded, ReceiverRefusal>;

const SKIPPED: Followed = Ok(Forwarded::Skipped);

const STALE: Followed = Ok(Forwarded::Stale);

const NAMED_FAR: Followed = Err(ReceiverRefusal::NamedSsnTooFar);

const NAMED_UNKNOWN: Followed = Err(ReceiverRefusal::NamedStreamUnknown);

// Two chunks of a byte each fill the window; each counts for 401.
const TWO: Option<Limits> = Some(Limits {
    window: 802,
    reach: 5,
});

// Each case: what it shows, the first TSN, the maximum message size, the limits, and the steps.
const CASES: [(&str, u32, u32, Option<Limits>, &[Step]); 27] = [
    (
        // The example of RFC 4960 3.3.4: 13 and 16 are missing among 10 to 17.
        "the SACK of the RFC",
        10,
        100,
        None,
        &[
            Open(&[1]),
            Data(1, 10, 0, MIDDLE, b"a", PART),
            Data(1, 11, 0, MIDDLE, b"a", PART),
            Data(1, 12, 0, MIDDLE, b"a", PART),
            Data(1, 14, 0, MIDDLE, b"a", PART),
            Data(1, 15, 0, MIDDLE, b"a", PART),
            Data(1, 17, 0, MIDDLE, b"a", PART),
            Sack(12, &[(2, 3), (5, 5)], &[]),
            Data(1, 15, 0, ALONE, b"a", REPEAT),
            Data(1, 9, 0, ALONE, b"a", REPEAT),
            Sack(12, &[(2, 3), (5, 5)], &[15, 9]),
            Sack(12, &[(2, 3), (5, 5)], &[]),
            Data(1, 13, 0, MIDDLE, b"a", PART),
            Data(1, 16, 0, MIDDLE, b"a", PART),
            Sack(17, &[], &[]),
        ],
    ),
    (
        "a message of three fragments over the wrap of TSNs, the last one first",
        u32::MAX,
        100,
        None,
        &[
            Open(&[1]),
            Data(1, 1, 0, LAST, b"c", PART),
            Data(1, 0, 0, MIDDLE, b"b", PART),
            IsReadable(1, false),
            Sack(u32::MAX - 1, &[(2, 3)], &[]),
            Data(1, u32::MAX, 0, FIRST, b"a", WHOLE),
            IsReadable(1, true),
            Read(b"abc"),
            IsReadable(1, false),
            Cumulative(1),
        ],
    ),
    (
        "what a peer may forge is refused by its name, and nothing changes",
        1,
        2,
        None,
        &[
            Data(1, 1, 0, ALONE, b"a", UNKNOWN),
            Open(&[1]),
            OpenAgain(1),
            Data(1, 1, 0, ALONE, b"abc", TOO_LARGE),
            Data(1, 2, 0, ALONE, b"abc", TOO_LARGE),
            Data(1, 1 << 31, 0, ALONE, b"a", OPPOSITE),
            Sack(0, &[], &[]),
            Data(1, (1 << 31) + 1, 0, ALONE, b"a", REPEAT),
            Data(1, (1 << 31) - 1, 0, ALONE, b"a", WHOLE),
            Sack(0, &[], &[(1 << 31) + 1]),
            Read(b"a"),
            ReadOf(2, false),
        ],
    ),
    (
        "a skip goes over what came beyond it, and the message that it names is discarded",
        1,
        100,
        None,
        &[
            Open(&[1]),
            Data(1, 1, 0, FIRST, b"a", PART),
            Data(1, 4, 0, MIDDLE, b"a", PART),
            Forward(
                PastClosed,
                (1 << 31) + 1,
                &[(9, 0), (1, 0)],
                Err(ReceiverRefusal::TsnOpposite),
            ),
            Forward(PastClosed, 3, &[(9, 0), (1, 0)], SKIPPED),
            Cumulative(4),
            Forward(PastClosed, 3, &[(9, 0), (1, 0)], STALE),
            Data(1, 2, 0, ALONE, b"a", REPEAT),
            Streams(&[(1, 0)]),
        ],
    ),
    (
        "the caller drops a chunk that is refused",
        1,
        100,
        None,
        &[
            Open(&[1]),
            Take(1 << 31, false),
            Take(1, true),
            Take(1, false),
        ],
    ),
    (
        // An ordered message of two fragments on stream 1, an unordered one on stream 2, the last fragments first.
        "with which chunk a message is complete, and which streams have one",
        1,
        100,
        None,
        &[
            Open(&[1, 2, 3]),
            Data(1, 2, 0, LAST, b"a", PART),
            Data(2, 4, 0, (true, false, true), b"a", PART),
            Data(2, 3, 0, (true, true, false), b"a", WHOLE),
            Readable(&[2]),
            Data(1, 1, 0, FIRST, b"a", WHOLE),
            Data(1, 1, 0, FIRST, b"a", REPEAT),
            Readable(&[1, 2]),
            Streams(&[(1, 2), (2, 2), (3, 0)]),
            Read(b"aa"),
            Readable(&[2]),
        ],
    ),
    (
        // A chunk of a stream that is not open is dropped, and the cumulative TSN goes on; so is one by its TSN alone.
        "chunks that are dropped are acknowledged (RFC 4960 6.5)",
        1,
        100,
        None,
        &[
            TakeOrDiscard(1, false),
            Cumulative(1),
            Data(1, 1, 0, ALONE, b"a", REPEAT),
            Discard(3, PART),
            Discard(3, REPEAT),
            Discard((1 << 31) + 1, OPPOSITE),
            Open(&[1]),
            TakeOrDiscard(2, true),
            Cumulative(3),
            Read(b"a"),
            IsReadable(1, false),
        ],
    ),
    (
        // Blocks come first, and duplicates that do not fit are told next time.
        "a SACK is no longer than its packet",
        1,
        100,
        None,
        &[
            Open(&[1]),
            Data(1, 2, 0, MIDDLE, b"a", PART),
            Data(1, 4, 0, MIDDLE, b"a", PART),
            Data(1, 6, 0, MIDDLE, b"a", PART),
            Data(1, 2, 0, ALONE, b"a", REPEAT),
            Data(1, 4, 0, ALONE, b"a", REPEAT),
            SackWithin(28, 0, 0),
            SackWithin(36, 2, 0),
            SackWithin(44, 3, 1),
            SackWithin(1200, 3, 1),
            SackWithin(1200, 3, 0),
        ],
    ),
    (
        // What is made and not sent is made again; what was sent forgets the duplicates, also those that did not fit.
        "a SACK is made, and then it is sent or not",
        1,
        100,
        None,
        &[
            Open(&[1]),
            Data(1, 2, 0, MIDDLE, b"a", PART),
            Data(1, 2, 0, ALONE, b"a", REPEAT),
            Data(1, 2, 0, ALONE, b"a", REPEAT),
            MakeSack(15, 0, 0),
            MakeSack(23, 1, 0),
            MakeSack(24, 1, 1),
            MakeSack(28, 1, 2),
            MakeSack(24, 1, 1),
            SackSent,
            MakeSack(usize::MAX, 1, 0),
        ],
    ),
    (
        // Past the highest TSN nothing is taken and none dropped once the window is full; a gap is filled, and what came is a repeat.
        "a window of two chunks (RFC 4960 6.2)",
        1,
        100,
        TWO,
        &[
            Open(&[1]),
            Held(0, 802),
            Data(1, 6, 0, ALONE, b"a", TOO_FAR),
            Discard(6, TOO_FAR),
            Data(1, 3, 0, ALONE, b"a", WHOLE),
            Held(401, 401),
            Data(1, 5, 0, ALONE, b"a", PART),
            Held(802, 0),
            Data(1, 1, 0, ALONE, b"a", PART),
            Data(1, 6, 0, ALONE, b"a", FULL),
            Discard(6, FULL),
            Discard(2, PART),
            Data(1, 5, 0, ALONE, b"a", REPEAT),
            Held(1203, 0),
            // what is read, or dropped with its stream, is held no more
            Close(1),
            Held(0, 802),
            Open(&[1]),
            Data(1, 4, 0, ALONE, b"ab", WHOLE),
            Held(402, 400),
            Read(b"ab"),
            Held(0, 802),
            Data(1, 6, 1, ALONE, b"a", WHOLE),
        ],
    ),
    (
        // The stream of a message that is too long is closed, and holds nothing; its later chunks are dropped, and others are taken.
        "a message that is too long leaves (RFC 9260 6.5)",
        1,
        3,
        TWO,
        &[
            Open(&[1, 2]),
            Advised(1, 1, 0, FIRST, b"ab", None),
            Held(402, 400),
            Advised(1, 2, 0, LAST, b"ab", None),
            Held(0, 802),
            Advised(1, 3, 1, ALONE, b"a", None),
            Cumulative(3),
            Advised(2, 4, 0, ALONE, b"a", None),
            Held(401, 401),
        ],
    ),
    (
        // Fragments fill the window, and their message can't become complete: the next chunk ends the association, one past it does not.
        "a window that can't open (RFC 9260 3.3.10.4)",
        1,
        100,
        TWO,
        &[
            Open(&[1]),
            Advised(1, 1, 0, FIRST, b"a", None),
            Advised(1, 2, 0, MIDDLE, b"a", None),
            Held(802, 0),
            Advised(1, 4, 0, LAST, b"a", None),
            Cumulative(2),
            Advised(1, 3, 0, MIDDLE, b"a", Some(AbortCause::OutOfResource)),
        ],
    ),
    (
        // The window is full, but something can be read: the chunk is dropped, and taken once it was.
        "a window that opens by reading (RFC 9260 6.2)",
        1,
        100,
        TWO,
        &[
            Open(&[1, 2]),
            Advised(2, 1, 0, ALONE, b"a", None),
            Advised(1, 2, 0, FIRST, b"a", None),
            Held(802, 0),
            Advised(1, 3, 0, LAST, b"a", None),
            Cumulative(2),
            ReadOf(2, true),
            Advised(1, 3, 0, LAST, b"a", None),
            Cumulative(3),
            Read(b"aa"),
        ],
    ),
    (
        // No message is acknowledged and lost, however far ahead it is (RFC 1982 3.2; RFC 4960 6.5, 6.6).
        "of 32,770 messages of one fragment the last one comes first",
        1,
        100,
        None,
        &[
            Open(&[1]),
            Data(1, 32_770, 32_769, ALONE, b"a", FAR),
            Data(1, 32_769, 32_768, ALONE, b"a", FAR),
            Cumulative(0),
            NothingBeyond,
            Data(1, 32_768, 32_767, ALONE, b"a", WHOLE),
            // once the first two are read it is taken, and what came again is told so, whatever its number is
            Data(1, 1, 0, ALONE, b"a", WHOLE),
            Read(b"a"),
            Data(1, 2, 1, ALONE, b"a", WHOLE),
            Read(b"a"),
            Data(1, 32_770, 32_769, ALONE, b"a", WHOLE),
            Data(1, 1, 0, ALONE, b"a", REPEAT),
            Data(1, 32_770, 1, ALONE, b"a", REPEAT),
            Data(1, 9, 0, ALONE, b"a", FAR),
            // an unordered chunk may carry any number
            Data(1, 9, 0, (true, true, true), b"u", WHOLE),
        ],
    ),
    (
        // The complete message 0 waits below the name 9: what is half the circle past it is refused until it is read.
        "what lies ahead is measured from the message that is read first",
        1,
        100,
        None,
        &[
            Open(&[1]),
            Data(1, 1, 0, ALONE, b"a", WHOLE),
            Forward(Known, 10, &[(1, 9)], SKIPPED),
            Data(1, 11, 32_768, ALONE, b"a", FAR),
            Forward(Known, 11, &[(1, 32_767)], NAMED_FAR),
            Cumulative(10),
            Read(b"a"),
            Data(1, 11, 32_768, ALONE, b"a", WHOLE),
        ],
    ),
    (
        // RFC 3758 3.6
        "a FORWARD-TSN whose number may be ahead or behind is refused, and nothing is skipped",
        1,
        100,
        None,
        &[
            Open(&[1]),
            Data(1, 1, 0, ALONE, b"a", WHOLE),
            Forward(Known, 5, &[(1, 32_767)], NAMED_FAR),
            Forward(Known, 5, &[(1, 32_768)], NAMED_FAR),
            Forward(Known, 1, &[(1, 32_768)], STALE),
            Cumulative(1),
            Read(b"a"),
            Forward(Known, 5, &[(1, 32_767)], SKIPPED),
            Data(1, 6, 32_768, ALONE, b"a", WHOLE),
            Read(b"a"),
            // the number 32,769 is next: names of 2^14 numbers before it are old ones
            Forward(Known, 7, &[(1, 16_384)], NAMED_FAR),
            Forward(Known, 7, &[(1, 16_385)], SKIPPED),
            Data(1, 8, 32_769, ALONE, b"a", WHOLE),
            Read(b"a"),
        ],
    ),
    (
        // A stream that is opened after message 0 of it was skipped waits for nothing: the FORWARD-TSN comes again.
        "a FORWARD-TSN that names a stream that is not open",
        1,
        100,
        None,
        &[
            Forward(Known, 1, &[(1, 0)], NAMED_UNKNOWN),
            Cumulative(0),
            Open(&[1]),
            Forward(Known, 1, &[(1, 0)], SKIPPED),
            Data(1, 2, 1, ALONE, b"a", WHOLE),
            Read(b"a"),
            // where streams are closed on purpose a name of one is passed over; the others are looked at
            Forward(PastClosed, 3, &[(9, 0)], SKIPPED),
            Forward(PastClosed, 4, &[(1, 32_770)], NAMED_FAR),
            Cumulative(3),
        ],
    ),
    (
        // The second fragment is skipped; the third one can't be told from one of a later message (RFC 3758 3.6).
        "a message of which a fragment is skipped does not block its stream, though no name covers it",
        1,
        100,
        None,
        &[
            Open(&[1]),
            Data(1, 1, 0, FIRST, b"b", PART),
            Forward(Known, 2, &[], SKIPPED),
            Data(1, 3, 0, ALONE, b"b", FAR),
            Data(1, 4, 1, ALONE, b"a", WHOLE),
            Read(b"a"),
        ],
    ),
    (
        // Both messages have the stream sequence number 0.
        "what came before a reset is read before what comes after it (RFC 6525 5.2.2)",
        1,
        100,
        None,
        &[
            Open(&[1]),
            Data(1, 1, 0, ALONE, b"a", WHOLE),
            Reset(9, 1, Err(ReceiverRefusal::StreamUnknown)),
            Reset(1, 2, Err(ReceiverRefusal::ResetInProgress)),
            Reset(1, 1, Ok(())),
            Data(1, 2, 0, ALONE, b"b", WHOLE),
            Read(b"a"),
            Read(b"b"),
        ],
    ),
    (
        // Those up to the cumulative TSN, the one before it, and the farthest before it; the stream 9 is not open.
        "a FORWARD-TSN that is not past the cumulative TSN changes nothing (RFC 3758 3.6)",
        1,
        100,
        None,
        &[
            Open(&[1]),
            Data(1, 1, 0, FIRST, b"a", PART),
            Forward(Known, 1, &[(1, 0)], STALE),
            Forward(Known, 1, &[(9, 0)], STALE),
            Forward(Known, 0, &[(1, 0)], STALE),
            Forward(Known, 0, &[(9, 0)], STALE),
            Forward(Known, (1 << 31) + 2, &[(1, 0)], STALE),
            Forward(Known, (1 << 31) + 2, &[(9, 0)], STALE),
            Sack(1, &[], &[]),
            Data(1, 2, 0, LAST, b"b", WHOLE),
            Read(b"ab"),
        ],
    ),
    (
        // Half a message comes on stream 1, and a whole one on each of 2 and 3; TSN 2 is missing.
        "the one in the middle of three streams is closed",
        1,
        100,
        None,
        &[
            Open(&[1, 2, 3]),
            Data(1, 1, 0, FIRST, b"a", PART),
            Data(2, 3, 0, ALONE, b"a", WHOLE),
            Data(3, 4, 0, ALONE, b"a", WHOLE),
            Close(2),
            Close(7),
            // what came on the closed stream stays acknowledged, and what comes on it later is refused
            ReadOf(2, false),
            HasStats(2, false),
            Data(2, 5, 0, ALONE, b"a", UNKNOWN),
            Sack(1, &[(2, 3)], &[]),
            Data(1, 2, 0, LAST, b"b", WHOLE),
            Read(b"ab"),
            ReadOf(3, true),
            Cumulative(4),
            // it is opened again, and waits for its first message
            Open(&[2]),
            IsReadable(2, false),
            Data(2, 5, 0, ALONE, b"a", WHOLE),
            IsReadable(2, true),
        ],
    ),
    (
        "a chunk that is new, one that came, and one half a circle ahead",
        1,
        100,
        None,
        &[
            Open(&[1]),
            Data(1, 1, 0, ALONE, b"a", WHOLE),
            Data(1, 1, 0, ALONE, b"a", REPEAT),
            Data(1, (1 << 31) + 1, 0, ALONE, b"a", OPPOSITE),
            Cumulative(1),
            Read(b"a"),
        ],
    ),
    (
        // RFC 1982 3.2: what is 2^31 - 1 TSNs old is before the cumulative TSN, and what is 2^31 + 1 old is after it, so it is read twice.
        "a chunk that comes again is a repeat while fewer than 2^31 TSNs old, and new where 2^31 + 1 old",
        1,
        100,
        None,
        &[
            Open(&[1]),
            Data(1, 1, 0, UNORDERED, b"a", WHOLE),
            Read(b"a"),
            Forward(Known, 1 << 31, &[], SKIPPED),
            Data(1, 1, 0, UNORDERED, b"a", REPEAT),
            Forward(Known, (1 << 31) + 1, &[], SKIPPED),
            Data(1, 1, 0, UNORDERED, b"a", OPPOSITE),
            Forward(Known, (1 << 31) + 2, &[], SKIPPED),
            Data(1, 1, 0, UNORDERED, b"a", WHOLE),
            Read(b"a"),
        ],
    ),
    (
        "a SACK reports a duplicate once",
        1,
        100,
        None,
        &[
            Open(&[1]),
            Data(1, 1, 0, FIRST, b"a", PART),
            Data(1, 3, 0, LAST, b"c", PART),
            Data(1, 1, 0, ALONE, b"a", REPEAT),
            Sack(1, &[(2, 2)], &[1]),
            Sack(1, &[(2, 2)], &[]),
        ],
    ),
    (
        // Of the message with the number 0 one of two fragments came, and it is skipped; the message 1 is read then.
        "a message is skipped by its name",
        1,
        100,
        None,
        &[
            Open(&[1]),
            Data(1, 1, 0, FIRST, b"b", PART),
            Forward(Known, 2, &[(9, 0)], NAMED_UNKNOWN),
            Forward(Known, 2, &[(1, 0)], SKIPPED),
            Forward(Known, 2, &[(1, 0)], STALE),
            Cumulative(2),
            Data(1, 3, 1, ALONE, b"a", WHOLE),
            Read(b"a"),
        ],
    ),
    (
        "so it is where names of closed streams are passed over",
        1,
        100,
        None,
        &[
            Open(&[1]),
            Data(1, 1, 0, FIRST, b"b", PART),
            Forward(PastClosed, 2, &[(1, 0)], SKIPPED),
            Cumulative(2),
            Data(1, 3, 1, ALONE, b"a", WHOLE),
            Read(b"a"),
        ],
    ),
    (
        "so it is where messages are discarded by names alone",
        1,
        100,
        None,
        &[
            Open(&[1]),
            Data(1, 1, 0, FIRST, b"b", PART),
            Forward(ByNames, 2, &[(1, 0)], SKIPPED),
            Cumulative(2),
            Data(1, 3, 1, ALONE, b"a", WHOLE),
            Read(b"a"),
        ],
    ),
];

// Whether all steps go so with a new receiver.
fn goes_well(
    alloc: Global,
    first_tsn: u32,
    most: u32,
    limits: Option<Limits>,
    steps: &[Step],
    counted: bool,
) -> bool {
    let mut receiver = Receiver::new(alloc, first_tsn, most, limits);
    let well = all_go(alloc, &mut receiver, steps, counted);
    drop(receiver);
    well
}

/// Each case goes by the calls that count their turns as by those that do not.
pub(crate) fn receiver_cases(alloc: Global, log: &mut Vec<u8>) {
    for (name, first_tsn, most, limits, steps) in CASES {
        let plain = goes_well(alloc, first_tsn, most, limits, steps, false);
        check(log, plain, name);
        let counted = goes_well(alloc, first_tsn, most, limits, steps, true);
        check(log, counted, name);
    }
}
