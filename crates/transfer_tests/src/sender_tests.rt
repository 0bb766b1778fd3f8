//! A sender: two hosts against one another, and SACKs that a peer may forge.

use crate::host::Host;
use crate::hosts::Step::{
    Abandon, Ack, AckPoint, Acked, At, Buffered, BytesOf, Close, Contains, CountResend, Drained,
    DropExpired, Expire, Flight, Fragments, Idle, IsOpen, Keep, Late, MarkAll, Marked, Miss,
    MissBlock, Mode, NextTsn, Open, PeerAt, Read, Readable, Reopen, Resend, Reset, Send,
    SendFirstAgain, SendMarked, SendNumbered, SendWithin, Sendings, Sequence, Sizes, Skip, Start,
    Swap, TakeBack, Threshold, Unused, UpTo, Within, Worn, Write,
};
use crate::hosts::{Step, all_go};
use crate::log::check;
use sctp_chunks::chunk::chunk_payload_data::ReliabilityType;
use sctp_sender::sender::flight::Released;
use sctp_sender::sender::flight::kept::TakenBack;
use sctp_sender::sender::flight::late::AbandonedMessage;
use sctp_sender::sender::refusal::SenderRefusal;
use sctp_sender::sender::{ExpiredMessage, ExpiredMessages};
use std::alloc::Global;

// The TSNs 4294967295, 0, 1, 2 are in flight: three bytes, three, two, one.
const FOUR: &[Step] = &[
    Open,
    Write(b"abcdefgh", true),
    Write(b"i", true),
    Send(true),
    Send(true),
    Send(true),
    Send(true),
];

// The same, of a sender that keeps what is reported.
const KEPT: &[Step] = &[
    Keep(u32::MAX),
    Open,
    Write(b"abcdefgh", true),
    Write(b"i", true),
    Send(true),
    Send(true),
    Send(true),
    Send(true),
];

// A fragment of the first message, three bytes at TSN 0, which was sent once.
const ANEW: Released = Released {
    tsn: 0,
    stream: 1,
    bytes: 3,
    nsent: 1,
    since: Some(0),
    message: 0,
    is_message_acked: false,
    is_low: false,
};

// Of four in flight the third.
const THIRD: Released = Released {
    tsn: 1,
    bytes: 2,
    ..ANEW
};

const ABANDONED: AbandonedMessage = AbandonedMessage {
    stream: 1,
    number: 0,
    bytes: 8,
    is_low: true,
};

const BACK: TakenBack = TakenBack {
    tsn: 0,
    stream: 1,
    bytes: 3,
    message: 0,
};

const UNSENT: ExpiredMessage = ExpiredMessage {
    stream: 1,
    bytes: 2,
    is_low: true,
};

const UNSENT_TOGETHER: ExpiredMessages = ExpiredMessages {
    stream: 1,
    unordered: false,
    messages: 3,
    bytes: 6,
    is_low: false,
};

const UNKNOWN: Result<(), SenderRefusal> = Err(SenderRefusal::StreamUnknown);

const NOT_IN_FLIGHT: Result<&[u8], SenderRefusal> = Err(SenderRefusal::NotInFlight);

const NO_SUCH_TSN: Result<&[Released], SenderRefusal> = Err(SenderRefusal::TsnRequestNotExist);

const NOT_SENT: Result<&[Released], SenderRefusal> = Err(SenderRefusal::InflightQueueTsnPop);

const NONE: &[Step] = &[];

// Each case: what it shows, the first TSNs of both hosts, and the steps in two parts.
const CASES: [(&str, u32, u32, &[Step], &[Step]); 27] = [
    (
        "what is in flight is walked by places",
        u32::MAX,
        7,
        FOUR,
        &[
            Flight(u32::MAX - 1, 4, 9),
            At(0, Some((u32::MAX, 1, Some(0), false))),
            At(3, Some((2, 1, Some(0), false))),
            At(4, None),
            BytesOf(1, Some(2)),
            BytesOf(3, None),
        ],
    ),
    (
        "a SACK's answer says of each chunk that it reports anew what an association asks",
        u32::MAX,
        7,
        FOUR,
        &[
            Acked(u32::MAX - 1, (2, 3), Ok(&[ANEW, THIRD])),
            Flight(u32::MAX - 1, 4, 4),
            BytesOf(0, Some(0)),
        ],
    ),
    (
        "the timer runs out: what is outstanding is marked, lent one after another, and sent again",
        u32::MAX,
        7,
        FOUR,
        &[
            Marked(None),
            SendMarked(1, None),
            Acked(u32::MAX - 1, (2, 3), Ok(&[ANEW, THIRD])),
            MarkAll,
            At(0, Some((u32::MAX, 1, Some(0), true))),
            At(1, Some((0, 1, Some(0), false))),
            SendMarked(5, Some(u32::MAX)),
            SendMarked(6, Some(2)),
            Marked(None),
            SendMarked(1, None),
            At(3, Some((2, 2, Some(6), false))),
            Resend(0, 7, NOT_IN_FLIGHT),
            Resend(3, 7, NOT_IN_FLIGHT),
        ],
    ),
    (
        // RFC 4960 7.2.4
        "three SACKs report later chunks: the first is sent again at once, and once only",
        u32::MAX,
        7,
        FOUR,
        &[
            MissBlock(2, 0),
            MissBlock(3, 0),
            Marked(None),
            SendMarked(1, None),
            MissBlock(4, 1),
            SendMarked(9, Some(u32::MAX)),
            Miss(2, 0),
            Miss(u32::MAX - 5, 0),
            Marked(None),
            SendMarked(1, None),
        ],
    ),
    (
        // RFC 9260 7.2.4: fast recovery begins where the third miss indication marks a chunk
        "a chunk that the timer marked is not marked by its third miss",
        u32::MAX,
        7,
        FOUR,
        &[
            MissBlock(2, 0),
            MissBlock(3, 0),
            MarkAll,
            MissBlock(4, 0),
            Marked(Some(u32::MAX)),
            SendMarked(9, Some(u32::MAX)),
            Marked(None),
        ],
    ),
    (
        // RFC 9260 3.3.1: three bytes of user data take a DATA chunk of 20 with padding
        "a marked chunk is sent again where it fits",
        u32::MAX,
        7,
        FOUR,
        &[
            MarkAll,
            SendWithin(0, None),
            SendWithin(19, None),
            SendWithin(20, Some(u32::MAX)),
            SendWithin(19, None),
            SendWithin(usize::MAX, Some(0)),
            SendWithin(usize::MAX, Some(1)),
            SendWithin(usize::MAX, Some(2)),
            SendWithin(usize::MAX, None),
        ],
    ),
    (
        // RFC 7496 3.1; the FORWARD-TSN has 12 bytes with its name
        "a message that may be sent again once is abandoned where it is marked a second time",
        0,
        7,
        NONE,
        &[
            Open,
            Mode(false, ReliabilityType::Rexmit, 1),
            Within(1000, None),
            Write(b"ab", true),
            Send(true),
            MarkAll,
            Worn(&[]),
            SendMarked(5, Some(0)),
            Worn(&[]),
            MarkAll,
            Worn(&[AbandonedMessage {
                bytes: 2,
                ..ABANDONED
            }]),
            Marked(None),
            SendMarked(1, None),
            Within(12, Some((0, 1))),
            Within(11, None),
            // so is the next one, by the call that drops whatever is due
            Write(b"c", true),
            Send(true),
            MarkAll,
            SendMarked(6, Some(1)),
            DropExpired(6, None, &[]),
            MarkAll,
            DropExpired(
                6,
                None,
                &[AbandonedMessage {
                    number: 1,
                    bytes: 1,
                    ..ABANDONED
                }],
            ),
            DropExpired(6, None, &[]),
        ],
    ),
    (
        // RFC 3758 3.5, 4.1: the rest of a partially sent message, one that waits, and then one in flight.
        "what is past its lifetime is dropped group by group, until none is left",
        0,
        7,
        NONE,
        &[
            Open,
            Mode(false, ReliabilityType::Timed, 1),
            Write(b"abcdefgh", true),
            Send(true),
            Write(b"jk", true),
            Start(0),
            DropExpired(999_999, None, &[]),
            DropExpired(
                1_000_000,
                None,
                &[AbandonedMessage {
                    is_low: false,
                    ..ABANDONED
                }],
            ),
            DropExpired(
                1_000_000,
                Some(ExpiredMessages {
                    messages: 1,
                    bytes: 2,
                    is_low: true,
                    ..UNSENT_TOGETHER
                }),
                &[],
            ),
            DropExpired(1_000_000, None, &[]),
            Write(b"l", true),
            Send(true),
            DropExpired(
                1_000_000,
                None,
                &[AbandonedMessage {
                    number: 2,
                    bytes: 1,
                    ..ABANDONED
                }],
            ),
            DropExpired(1_000_000, None, &[]),
        ],
    ),
    (
        "an outgoing stream is reset once nothing of it is left (RFC 6525 5.1.2)",
        0,
        7,
        NONE,
        &[
            Reset(UNKNOWN),
            Open,
            Drained(true),
            Write(b"abc", true),
            Drained(false),
            Reset(Err(SenderRefusal::StreamBusy)),
            Send(true),
            Acked(
                0,
                (1, 0),
                Ok(&[Released {
                    is_message_acked: true,
                    is_low: true,
                    ..ANEW
                }]),
            ),
            Sequence(1),
            Drained(true),
            Reset(Ok(())),
            Sequence(0),
        ],
    ),
    (
        "the fragment size of later writes and a low threshold are set",
        0,
        7,
        NONE,
        &[
            Open,
            Write(b"abcd", true),
            Fragments(2),
            Write(b"efgh", true),
            Sizes(2, 100, 4),
            Threshold(2, 5, UNKNOWN),
            Threshold(1, 5, Ok(())),
        ],
    ),
    (
        "with one chunk the buffered amount falls to its low threshold, and the ones behind it say no more",
        u32::MAX,
        7,
        FOUR,
        &[
            Threshold(1, 4, Ok(())),
            Acked(
                u32::MAX - 1,
                (2, 3),
                Ok(&[
                    ANEW,
                    Released {
                        is_low: true,
                        ..THIRD
                    },
                ]),
            ),
            Acked(
                2,
                (1, 0),
                Ok(&[
                    Released {
                        tsn: u32::MAX,
                        is_message_acked: true,
                        ..ANEW
                    },
                    Released {
                        tsn: 2,
                        bytes: 1,
                        message: 1,
                        is_message_acked: true,
                        ..ANEW
                    },
                ]),
            ),
            Buffered(Some(0)),
        ],
    ),
    (
        // A message of two bytes expires unsent behind the byte that is left.
        "the buffered amount falls to its low threshold with a message that is abandoned, and with one that expires",
        u32::MAX,
        7,
        FOUR,
        &[
            Threshold(1, 1, Ok(())),
            Abandon(0, ABANDONED),
            Abandon(
                1,
                AbandonedMessage {
                    bytes: 0,
                    is_low: false,
                    ..ABANDONED
                },
            ),
            Mode(false, ReliabilityType::Timed, 1),
            Write(b"jk", true),
            Start(0),
            Expire(1_000_000, Some(UNSENT)),
            Buffered(Some(1)),
        ],
    ),
    (
        // The next one that is written is sent with the number of the first of them.
        "messages of one stream that expire one after another leave by one call",
        u32::MAX,
        7,
        FOUR,
        &[
            Mode(false, ReliabilityType::Timed, 1),
            Write(b"jk", true),
            Write(b"l", true),
            Write(b"mno", true),
            Start(0),
            DropExpired(1_000_000, Some(UNSENT_TOGETHER), &[]),
            DropExpired(1_000_000, None, &[]),
            Write(b"p", true),
            SendNumbered(2),
        ],
    ),
    (
        // Of three fragments and one, the message of three is abandoned, then the other.
        "a FORWARD-TSN goes to the end of a message, never inside one (RFC 3758 3.5)",
        u32::MAX,
        7,
        FOUR,
        &[
            UpTo(1, None),
            Abandon(
                0,
                AbandonedMessage {
                    is_low: false,
                    ..ABANDONED
                },
            ),
            UpTo(u32::MAX, None),
            UpTo(0, None),
            UpTo(1, Some(1)),
            UpTo(2, None),
            Abandon(
                2,
                AbandonedMessage {
                    number: 1,
                    bytes: 1,
                    ..ABANDONED
                },
            ),
            UpTo(0, None),
            UpTo(1, Some(1)),
            UpTo(2, Some(2)),
        ],
    ),
    (
        // RFC 4960 6.2.1 D iv: the second chunk and the third are reported, then the third alone, then the fourth alone.
        "what a SACK no longer reports is outstanding again with its bytes, and can be sent again",
        u32::MAX,
        7,
        KEPT,
        &[
            TakeBack(u32::MAX - 1, (2, 3), &[], 9, 4),
            TakeBack(u32::MAX - 1, (3, 3), &[BACK], 7, 7),
            TakeBack(u32::MAX - 1, (4, 4), &[BACK_THIRD], 9, 8),
            Resend(0, 5, Ok(b"def")),
            Resend(1, 5, Ok(b"gh")),
        ],
    ),
    (
        "one comes back",
        u32::MAX,
        7,
        KEPT,
        &[
            TakeBack(u32::MAX - 1, (2, 2), &[], 9, 6),
            TakeBack(u32::MAX - 1, (3, 3), &[BACK], 9, 7),
        ],
    ),
    (
        // RFC 4960 6.3.3, 7.2.4: the first two are marked, and the third one, which was taken back; then all but the last one.
        "what was taken back counts as missing like any chunk, and the timer marks it",
        u32::MAX,
        7,
        KEPT,
        &[
            TakeBack(u32::MAX - 1, (2, 3), &[], 9, 4),
            TakeBack(u32::MAX - 1, (3, 3), &[BACK], 7, 7),
            TakeBack(u32::MAX - 1, (4, 4), &[BACK_THIRD], 9, 8),
            Miss(2, 0),
            Miss(2, 0),
            Miss(2, 3),
            Resend(u32::MAX, 5, Ok(b"abc")),
            Marked(Some(0)),
            MarkAll,
            Marked(Some(u32::MAX)),
            Resend(u32::MAX, 5, Ok(b"abc")),
            Marked(Some(0)),
        ],
    ),
    (
        // What the cumulative TSN passes is gone.
        "what is abandoned does not come back",
        u32::MAX,
        7,
        KEPT,
        &[
            TakeBack(u32::MAX - 1, (2, 4), &[], 9, 3),
            Abandon(
                0,
                AbandonedMessage {
                    bytes: 3,
                    ..ABANDONED
                },
            ),
            TakeBack(
                u32::MAX,
                (1, 0),
                &[TakenBack {
                    tsn: 2,
                    stream: 1,
                    bytes: 1,
                    message: 1,
                }],
                1,
                1,
            ),
            TakeBack(2, (1, 0), &[], 1, 0),
        ],
    ),
    (
        // What was reported can't be sent again.
        "a sender keeps nothing unless it is made so",
        u32::MAX,
        7,
        FOUR,
        &[
            TakeBack(u32::MAX - 1, (2, 3), &[], 9, 4),
            TakeBack(u32::MAX - 1, (4, 4), &[], 4, 3),
            Resend(0, 5, NOT_IN_FLIGHT),
        ],
    ),
    (
        // Of three fragments the first is lost, the second comes, and the third waits. Both sides then use the stream again.
        "what waits and is in flight of a closed stream is sent, resent and acknowledged",
        u32::MAX,
        7,
        NONE,
        &[
            Open,
            Write(b"abcdefgh", true),
            Send(true),
            Send(false),
            Close,
            IsOpen(false),
            Buffered(None),
            Contains(true),
            Write(b"i", false),
            Send(false),
            SendFirstAgain,
            Ack,
            Read(b"abcdefgh"),
            Contains(false),
            Reopen,
            Unused,
            Write(b"xyz", true),
            Send(false),
            Read(b"xyz"),
        ],
    ),
    (
        // A sending that the caller counts is one as `resend` counts it; the next TSN stays.
        "what a sender tells of itself, while it sends and sends again",
        u32::MAX,
        7,
        NONE,
        &[
            Open,
            Write(b"abcdefgh", true),
            NextTsn(u32::MAX),
            Send(true),
            Sendings(u32::MAX, 1),
            NextTsn(0),
            Send(true),
            Sendings(0, 1),
            NextTsn(1),
            Send(true),
            Sendings(1, 1),
            NextTsn(2),
            CountResend(0),
            CountResend(2),
            Sendings(0, 2),
            Sendings(1, 1),
            Resend(0, 7, Ok(b"def")),
            Sendings(0, 3),
            NextTsn(2),
            Sizes(3, 100, 0),
        ],
    ),
    (
        "both hosts write, and send in turn; of each message the second fragment is lost, then sent again",
        u32::MAX,
        7,
        &[
            Open,
            Write(b"abcdefgh", true),
            Swap,
            Write(b"12345678", true),
            Swap,
            Send(false),
            Swap,
            Send(false),
            Swap,
            Send(true),
            Swap,
            Send(true),
            Swap,
            Send(false),
            Swap,
            Send(false),
            Swap,
            Ack,
            Swap,
            Ack,
            Readable(false),
            Swap,
            Readable(false),
            Buffered(Some(3)),
        ],
        &[
            SendFirstAgain,
            Swap,
            SendFirstAgain,
            Swap,
            Ack,
            Swap,
            Ack,
            Read(b"12345678"),
            Swap,
            Read(b"abcdefgh"),
            Buffered(Some(0)),
            Flight(1, 0, 0),
        ],
    ),
    (
        "what a peer may claim beside what is in flight is refused by its name, and nothing changes",
        0,
        0,
        &[
            Open,
            Write(b"abcdefgh", true),
            Send(true),
            Send(true),
            Send(true),
        ],
        &[
            Acked(3, (1, 0), NOT_SENT),
            Buffered(Some(8)),
            Acked((1 << 31) - 1, (1, 0), NOT_SENT),
            Buffered(Some(8)),
            Acked(0, (2, 3), NO_SUCH_TSN),
            Buffered(Some(8)),
            Acked(0, (0, 1), NO_SUCH_TSN),
            Buffered(Some(8)),
            Acked(
                0,
                (2, 2),
                Ok(&[
                    ANEW,
                    Released {
                        tsn: 2,
                        bytes: 2,
                        ..ANEW
                    },
                ]),
            ),
            Buffered(Some(3)),
            Acked(u32::MAX, (1, 3), Ok(&[])),
            Buffered(Some(3)),
        ],
    ),
    (
        // A message with a lifetime of a millisecond is partially sent, and its first fragment lost; one with no lifetime waits behind
        // it. The first is abandoned with its tail, the peer is told, and the message behind it is read.
        "the lifetime of a partially sent message ends",
        u32::MAX,
        7,
        &[
            Open,
            Mode(false, ReliabilityType::Timed, 1),
            Write(b"abcdefgh", true),
            Send(true),
            Mode(false, ReliabilityType::Reliable, 0),
            Write(b"later", true),
        ],
        &[
            Late(999_999, &[]),
            Late(
                1_000_000,
                &[AbandonedMessage {
                    is_low: false,
                    ..ABANDONED
                }],
            ),
            Buffered(Some(5)),
            AckPoint(0),
            Skip(true),
            Send(false),
            Send(false),
            Read(b"later"),
            Ack,
            Buffered(Some(0)),
            Flight(2, 0, 0),
            Skip(false),
        ],
    ),
    (
        // RFC 3758 3.5: the two that waited have the TSN 0 together, which is neither sent nor sent again. The peer skips both TSNs, and
        // the next message has the one behind them.
        "of a message that is abandoned when partially sent the rest takes one TSN, which is never sent",
        u32::MAX,
        7,
        &[
            Open,
            Write(b"abcdefgh", true),
            Send(true),
            Abandon(u32::MAX, ABANDONED),
            MarkAll,
            NextTsn(1),
            Flight(u32::MAX - 1, 2, 0),
            Idle,
            Marked(None),
            Resend(0, 0, NOT_IN_FLIGHT),
        ],
        &[
            Skip(true),
            PeerAt(0),
            Ack,
            Flight(0, 0, 0),
            Write(b"xyz", true),
            Send(false),
            PeerAt(1),
            Read(b"xyz"),
        ],
    ),
    (
        "a SACK of a TSN that was not given out is refused, and the next one is taken, once",
        1,
        7,
        &[Open, Write(b"a", true), Send(true)],
        &[
            Acked(2, (0, 0), NOT_SENT),
            Acked(
                1,
                (0, 0),
                Ok(&[Released {
                    tsn: 1,
                    bytes: 1,
                    is_message_acked: true,
                    is_low: true,
                    ..ANEW
                }]),
            ),
            Acked(1, (0, 0), Ok(&[])),
            Flight(1, 0, 0),
        ],
    ),
    (
        "the TSN before the first counts as acknowledged",
        5,
        7,
        NONE,
        &[Flight(4, 0, 0), NextTsn(5)],
    ),
];

const BACK_THIRD: TakenBack = TakenBack {
    tsn: 1,
    bytes: 2,
    ..BACK
};

// Whether all steps go so with two new hosts, of which the first begins with the first TSN and the other with the second.
fn goes_well(alloc: Global, tsns: (u32, u32), parts: [&[Step]; 2], counted: bool) -> bool {
    let mut a = Host::new(alloc, tsns.0, tsns.1);
    let mut b = Host::new(alloc, tsns.1, tsns.0);
    let mut well = true;
    for steps in parts {
        well = well && all_go(alloc, &mut a, &mut b, steps, counted);
    }
    drop(a);
    drop(b);
    well
}

/// Each case goes by the calls that count their turns as by those that do not.
pub(crate) fn sender_cases(alloc: Global, log: &mut Vec<u8>) {
    for (name, first_tsn, second_tsn, first, steps) in CASES {
        let tsns = (first_tsn, second_tsn);
        let holds = goes_well(alloc, tsns, [first, steps], false)
            && goes_well(alloc, tsns, [first, steps], true);
        check(log, holds, name);
    }
}
