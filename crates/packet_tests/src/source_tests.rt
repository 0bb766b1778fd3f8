use crate::log::check;
use bytes::Bytes;
use sctp_util::util::bytes_source::{ByteSlice, BytesArray, BytesSource, constant_time_eq};
use std::alloc::Global;

/// Whether the next piece of at most so many bytes is this one, and uses up so many buffers.
fn pops<S: BytesSource>(
    source: &mut S,
    alloc: Global,
    most: usize,
    piece: &[u8],
    buffers: usize,
) -> bool {
    match source.pop_chunk(alloc, most) {
        Ok((popped, used)) => popped.as_slice() == piece && used == buffers,
        Err(_) => false,
    }
}

// A slice is copied in pieces; byte strings are compared.
fn slices(alloc: Global) -> bool {
    let mut source = ByteSlice::from_slice(&[1, 2, 3]);
    source.remaining() == 3
        && pops(&mut source, alloc, 2, &[1, 2], 0)
        && source.has_remaining()
        && pops(&mut source, alloc, 2, &[3], 1)
        && !source.has_remaining()
        && constant_time_eq(&[1, 2], &[1, 2])
        && !constant_time_eq(&[1, 2], &[1, 3])
        && !constant_time_eq(&[1, 2], &[1])
}

// Three buffers leave one by one, and an empty one is used up.
fn three_leave(alloc: Global, source: &mut BytesArray) -> bool {
    source.remaining() == 3
        && pops(source, alloc, 1, &[1], 1)
        && pops(source, alloc, 5, &[2], 1)
        && pops(source, alloc, 5, &[3], 1)
        && pops(source, alloc, 5, &[], 0)
        && !source.has_remaining()
}

fn buffers(alloc: Global) -> bool {
    let mut chunks = [
        Bytes::new(),
        Bytes::from_static(&[1, 2]),
        Bytes::from_static(&[3]),
    ];
    three_leave(alloc, &mut BytesArray::from_chunks(&mut chunks))
}

// None of the bytes is taken, and the empty buffer is used up.
fn empty_leaves(alloc: Global) -> bool {
    let mut chunks = [Bytes::new(), Bytes::from_static(&[1])];
    let mut source = BytesArray::from_chunks(&mut chunks);
    pops(&mut source, alloc, 0, &[], 1) && source.remaining() == 1
}

pub(crate) fn all(alloc: Global, log: &mut Vec<u8>) {
    check(log, slices(alloc), "slices");
    check(log, buffers(alloc), "buffers");
    check(log, empty_leaves(alloc), "an empty buffer");
}
