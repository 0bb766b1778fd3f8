//! Worked examples of messages: taken whole and in pieces, and their fragments in any order. Where those stand is worked out
//! from the order of serial numbers by hand.

use crate::queues::part::{FIRST, LAST, MIDDLE, WHOLE, ordered, unordered};
use sctp_data::chunk::chunk_payload_data::PayloadProtocolIdentifier;
use sctp_queues::chunks::{Chunks, Fragments};
use sctp_queues::fragment::Fragment;
use sctp_queues::turns::Turns;
use sctp_queues::unassembled::{Loose, run_around};
use sctp_util::error::Error;
use std::alloc::Global;
use std::io::Write;

// Whether this fragment makes the message whole, or does not.
fn pushes(
    alloc: Global,
    message: &mut Chunks,
    tsn: u32,
    arrival: ((bool, bool), &[u8], bool),
) -> bool {
    let (flags, bytes, whole) = arrival;
    match ordered(alloc, tsn, 0, flags, bytes) {
        Ok(fragment) => message.push(fragment) == Ok(whole),
        Err(_) => false,
    }
}

// A message of two fragments, `ab` and `cd`, whole with the second push; the third one is a repeat.
fn letters(alloc: Global, message: &mut Chunks) -> bool {
    pushes(alloc, message, 10, (FIRST, b"ab", false))
        && pushes(alloc, message, 11, (LAST, b"cd", true))
        && pushes(alloc, message, 11, (LAST, b"xx", false))
}

// Read into three bytes and into five.
fn is_whole(message: &Chunks) -> bool {
    let mut short = [0; 3];
    let mut long = [9; 5];
    message.len() == 4
        && !message.is_empty()
        && message.is_complete()
        && message.read(&mut short) == Err(Error::ErrShortBuffer)
        && short.as_slice() == b"abc".as_slice()
        && message.read(&mut long) == Ok(4)
        && long.as_slice() == [97, 98, 99, 100, 9].as_slice()
}

// Whether the next piece of so many bytes has these bytes, or there is none.
fn piece_is(alloc: Global, message: &mut Chunks, len: usize, bytes: Option<&[u8]>) -> bool {
    match message.next(alloc, len) {
        Ok(Some(piece)) => {
            let well = bytes == Some(piece.bytes.as_slice());
            drop(piece);
            well
        }
        Ok(None) => bytes.is_none(),
        Err(_) => false,
    }
}

fn copy_gives_the_rest(alloc: Global, message: &Chunks) -> bool {
    match message.try_clone(alloc) {
        Ok(mut rest) => {
            let well = piece_is(alloc, &mut rest, 0, Some(b""))
                && piece_is(alloc, &mut rest, 9, Some(b"d"));
            drop(rest);
            well
        }
        Err(_) => false,
    }
}

fn is_taken(alloc: Global, message: &mut Chunks) -> bool {
    piece_is(alloc, message, 3, Some(b"abc"))
        && copy_gives_the_rest(alloc, message)
        && piece_is(alloc, message, 3, Some(b"d"))
        && piece_is(alloc, message, 3, None)
}

fn empty_is_a_piece(alloc: Global, message: &mut Chunks) -> bool {
    piece_is(alloc, message, 3, None)
        && pushes(alloc, message, 10, (WHOLE, b"", true))
        && message.is_empty()
        && piece_is(alloc, message, 3, Some(b""))
        && piece_is(alloc, message, 3, None)
}

pub(crate) fn messages(alloc: Global) -> bool {
    let mut message = Chunks::new(0, PayloadProtocolIdentifier::String, Vec::new(alloc));
    let well = letters(alloc, &mut message) && is_whole(&message) && is_taken(alloc, &mut message);
    drop(message);
    well
}

pub(crate) fn empty_message(alloc: Global) -> bool {
    let mut message = Chunks::new(0, PayloadProtocolIdentifier::String, Vec::new(alloc));
    let well = empty_is_a_piece(alloc, &mut message);
    drop(message);
    well
}

// Fragments of these TSNs.
fn given(alloc: Global, tsns: &[u32]) -> Result<Vec<Fragment>, Error> {
    let mut chunks = Vec::new(alloc);
    for tsn in tsns {
        let chunk = ordered(alloc, *tsn, 0, MIDDLE, b"x")?;
        chunks.push(Fragment::new(alloc, chunk)?)?;
    }
    Ok(chunks)
}

// Whether a fragment of this TSN is put in.
fn puts(alloc: Global, set: &mut Fragments, tsn: u32) -> bool {
    match ordered(alloc, tsn, 0, MIDDLE, b"x") {
        Ok(fragment) => set.put(fragment).is_ok(),
        Err(_) => false,
    }
}

fn puts_all(alloc: Global, set: &mut Fragments, tsns: &[u32]) -> bool {
    let mut well = true;
    for tsn in tsns {
        well = well && puts(alloc, set, *tsn);
    }
    well
}

// Whether the fragments have these TSNs.
fn tsns_are(set: &Fragments, want: &[u32]) -> bool {
    let mut well = set.fragments().len() == want.len();
    for (chunk, tsn) in set.fragments().iter().zip(want.iter()) {
        well = well && chunk.tsn == *tsn;
    }
    well
}

fn copy_stands_so(alloc: Global, set: &Fragments, want: &[u32]) -> bool {
    match set.try_clone(alloc) {
        Ok(copy) => {
            let well = tsns_are(&copy, want);
            drop(copy);
            well
        }
        Err(_) => false,
    }
}

// Whether fragments of these TSNs, put in one after another behind those that are given at once, stand in this order,
// and so do their copies.
fn stand(alloc: Global, first: &[u32], tsns: &[u32], want: &[u32]) -> bool {
    let Ok(chunks) = given(alloc, first) else {
        return false;
    };
    let mut set = Fragments::new(0, PayloadProtocolIdentifier::Binary, chunks);
    let well = puts_all(alloc, &mut set, tsns)
        && tsns_are(&set, want)
        && copy_stands_so(alloc, &set, want);
    drop(set);
    well
}

// Each case: fragments that are given at once, those that are put in one after another, and the order in which they stand.
const CASES: [(&[u32], &[u32], &[u32]); 9] = [
    // in any order
    (&[], &[14, 13, 12, 11, 10, 14, 10], &[10, 11, 12, 13, 14]),
    (&[], &[12, 10, 14, 11, 13, 12, 10], &[10, 11, 12, 13, 14]),
    (&[], &[10, 11, 12, 13, 14, 12, 13], &[10, 11, 12, 13, 14]),
    // where numbers wrap
    (
        &[],
        &[1, 4294967294, 0, 4294967295, 2],
        &[4294967294, 4294967295, 0, 1, 2],
    ),
    (
        &[],
        &[2, 1, 0, 4294967295, 4294967294],
        &[4294967294, 4294967295, 0, 1, 2],
    ),
    // 2147483658 lies half a circle from 10 and does not come before it; 11 comes before it
    (
        &[],
        &[10, 2147483658, 11, 9, 2147483657, 11],
        &[9, 10, 11, 2147483657, 2147483658],
    ),
    // 0 comes before 10, but not before 2147483650; 2147483649 comes before 4294967290
    (
        &[],
        &[10, 2147483650, 0, 4294967290, 2147483649, 10],
        &[2147483649, 4294967290, 0, 10, 2147483650],
    ),
    // given in any order
    (&[10, 12, 14], &[13, 12, 9], &[9, 10, 12, 13, 14]),
    (&[10, 2147483658, 9], &[11, 9], &[10, 11, 2147483658, 9]),
];

pub(crate) fn fragments_stand_in_order(alloc: Global, log: &mut Vec<u8>) {
    for (given, tsns, want) in CASES {
        if !stand(alloc, given, tsns, want) {
            let _ = write!(log, "fragments stand in the order of {want:?}\n");
        }
    }
}

// A fragment that ends a message of which nothing else came.
fn is_not_begun(alloc: Global, unassembled: &mut Loose) -> bool {
    let Ok(last) = unordered(alloc, 1, LAST, b"x") else {
        return false;
    };
    unassembled.insert(alloc, 0, last).is_ok()
        && unassembled.len() == 1
        && run_around(unassembled, 0, &mut Turns::new()).is_none()
}

// Whether a complete message of number 3 makes the set whole, or is a repeat.
fn is_put(alloc: Global, set: &mut Fragments, want: Option<bool>) -> bool {
    match ordered(alloc, 1, 3, WHOLE, b"x") {
        Ok(message) => set.put(message) == Ok(want),
        Err(_) => false,
    }
}

pub(crate) fn a_run_is_found_round_its_place(alloc: Global) -> bool {
    let mut unassembled = Loose::new(alloc);
    let well = is_not_begun(alloc, &mut unassembled);
    drop(unassembled);
    well
}

pub(crate) fn a_message_is_put_once(alloc: Global) -> bool {
    let mut set = Fragments::new(3, PayloadProtocolIdentifier::Binary, Vec::new(alloc));
    let well = is_put(alloc, &mut set, Some(true))
        && is_put(alloc, &mut set, None)
        && set.ssn() == 3;
    drop(set);
    well
}
