//! Datagrams that real stacks wrote, read and written back.

use crate::log::check;
use bytes::Bytes;
use sctp_packets::checksum::Crc32c;
use sctp_packets::packet::Packet;
use sctp_util::error::Error;
use std::alloc::Global;

/// What becomes of a datagram.
#[derive(Clone, Copy)]
enum Want {
    /// It is written as it was read.
    Same,
    /// It is refused with this error.
    Refused(Error),
    /// It is read, and written otherwise, for this reason.
    Otherwise(&'static str),
}

use Want::{Otherwise, Refused, Same};

// Written by usrsctp 0.9.5.0 (Debian 12), by aiortc 1.4.0, and by pion/sctp 1.8.6, each with both
// ends in one process, and recorded with the checksum that the stack wrote; one of each form.
const DATAGRAMS: [(&str, Want); 38] = [
    // usrsctp: an association is ended by ABORT
    (
        "1389138800000000354ad32a0100001e009a55990002000000100020c1c11a81c000000480080006c0820000",
        Same,
    ),
    ("13881389009a5599de8f77f30b000004", Same),
    (
        "13891388597c4aaef1d00c6d00030074c1c11a81000100000000003501080f161d242b323940474e555c636a71787f868d949ba2a9b0b7bec5ccd3dae1e8eff6fd040b121920272e353c434a51585f666d747b828990979ea5acb3bac1c8cfd6dde4ebf2f900070e151c232a31383f464d545b626970777e858c939aa1a8afb6",
        Same,
    ),
    (
        "13881389009a5599eabd481d03000010c1c11a810001fe9c00000000",
        Same,
    ),
    (
        "13891388597c4aae3d1467aa06000020000c001c00070e151c232a31383f464d545b626970777e858c939aa1",
        Same,
    ),
    (
        "13891388009a55996920495106010004",
        Otherwise("flags of ABORT are written as 0"),
    ),
    // usrsctp: streams are reset and added
    (
        "13891388cde0c898678af3aa82000016000d0012cb3386a65ccfc8bdcb3386a700010000",
        Same,
    ),
    (
        "13881389debc1043eed100718200000e000e000a5ccfc8be00020000",
        Refused(Error::ErrParamTypeUnhandled { typ: 14 }),
    ),
    (
        "13891388cde0c89859433b3882000016000d0012cb3386a75ccfc8becb3386a700020000820000100010000c5ccfc8be00000001",
        Same,
    ),
    (
        "13891388cde0c898dcd08ef78200001c0011000ccb3386aa000400000012000ccb3386ab00040000",
        Refused(Error::ErrParamTypeUnhandled { typ: 17 }),
    ),
    (
        "13881389debc1043ce410873820000100011000c5ccfc8c0000400008200001c0010000ccb3386aa000000010010000ccb3386ab00000001",
        Refused(Error::ErrParamTypeUnhandled { typ: 17 }),
    ),
    (
        "13881389debc1043bfb5093d8200000c000f00085ccfc8c1",
        Refused(Error::ErrParamTypeUnhandled { typ: 15 }),
    ),
    ("13891388cde0c89848c03b8d070000085ccfd8bd", Same),
    ("13881389debc104349bc954808000004", Same),
    ("13891388cde0c898a9142a6a0e000004", Same),
    // usrsctp: messages are interleaved, and abandoned
    (
        "138913880a810935e05fa9104003001e45b80f9800000000000000000000003300070e151c232a31383f0000",
        Refused(Error::ErrUnmarshalUnknownChunkType),
    ),
    (
        "138913880a8109356505997bc200001845b80f9a00010000000000000002000100000000",
        Otherwise("flags of an entry are written in its third byte"),
    ),
    (
        "138913880a810935af2051bfc200001845b80fa000050000000000000005000000000000",
        Same,
    ),
    // usrsctp: messages are abandoned
    ("138913889b9bf949518717dfc000000c0ebe064400010000", Same),
    // aiortc: data channels
    (
        "13881388000000003a1f4a8f0100001ef17e2ba600100000ffffffff69d30de6c000000480080006c0820000",
        Same,
    ),
    (
        "13881388f17e2ba62abaf2d50200003cbeb7923000100000ffffffffb2bc82d3c000000480080006c08200000007001c6b03ba5520db92ed3abb8e8b7344c848a1f96d6487e99be8",
        Same,
    ),
    (
        "13881388beb792306cbd9a130a00001c6b03ba5520db92ed3abb8e8b7344c848a1f96d6487e99be8",
        Same,
    ),
    ("13881388f17e2ba638484fb50b000004", Same),
    (
        "13881388beb79230f7353c2c0003002369d30de6000100000000003203000000000000000004000363686174626f6200",
        Same,
    ),
    (
        "13881388f17e2ba68bd2da0b0300001069d30de60010000000000000",
        Same,
    ),
    (
        "13881388beb7923073f2b22d82000016000d001269d30de6b2bc82d269d30df000010000",
        Same,
    ),
    ("13881388beb79230f645dcb206000004", Same),
    // aiortc: messages are abandoned
    ("138813882591778837b8b670c000000c126c7fda00010003", Same),
    // pion: messages both ways, and the end
    (
        "1388138800000000d08d970a0100001af3f1222800100000ffffffffedbc21928008000682c00000",
        Same,
    ),
    (
        "13881388f3f12228e71e23fe0200003e65082d7600100000ffffffff735ed05600070024594da1c3ef5aeb1cd223bb7458b2ca3089eb30dda53022ebbc646952711121a18008000682c00000",
        Same,
    ),
    (
        "1388138865082d765eb4a6f20a000024594da1c3ef5aeb1cd223bb7458b2ca3089eb30dda53022ebbc646952711121a1",
        Same,
    ),
    ("13881388f3f12228efa067d60b000004", Same),
    (
        "1388138865082d760113f0c100030015edbc2192000100000000003368656c6c6f000000",
        Same,
    ),
    (
        "13881388f3f12228090dc4c603000010edbc2195000ff1eb00000000",
        Same,
    ),
    (
        "1388138865082d76d09bf00d82000016000d0012edbc219200000000edbc219e00010000",
        Same,
    ),
    ("1388138865082d7692f5c6d307000008edbc219e", Same),
    ("13881388f3f12228d62945b408000004", Same),
    ("1388138865082d76c62f0b5c0e000004", Same),
];

/// Whether the packet is written as these bytes.
fn is_written_as(alloc: Global, packet: &Packet, bytes: &Bytes) -> bool {
    match packet.marshal(alloc, &Crc32c) {
        Ok(written) => {
            let same = written.as_slice() == bytes.as_slice();
            drop(written);
            same
        }
        Err(_) => false,
    }
}

/// Whether that becomes of a packet, read from these bytes, which is wanted.
fn is_kept(alloc: Global, packet: &Packet, bytes: &Bytes, want: Want) -> bool {
    match want {
        Same => is_written_as(alloc, packet, bytes),
        Otherwise(_) => !is_written_as(alloc, packet, bytes),
        Refused(_) => false,
    }
}

/// Whether that becomes of these bytes which is wanted.
fn comes_out(alloc: Global, bytes: &Bytes, want: Want) -> bool {
    match Packet::unmarshal(alloc, bytes, &Crc32c) {
        Ok(packet) => {
            let well = is_kept(alloc, &packet, bytes, want);
            drop(packet);
            well
        }
        Err(e) => matches!(want, Refused(wanted) if e == wanted),
    }
}

fn bytes_of(alloc: Global, text: &str) -> Option<Bytes> {
    match hex::decode(alloc, text) {
        Ok(bytes) => Bytes::from_vec(bytes).ok(),
        Err(_) => None,
    }
}

/// Whether that becomes of the datagram which is wanted.
fn is_as_wanted(alloc: Global, text: &str, want: Want) -> bool {
    match bytes_of(alloc, text) {
        Some(bytes) => {
            let well = comes_out(alloc, &bytes, want);
            drop(bytes);
            well
        }
        None => false,
    }
}

/// The checksum that each stack wrote was taken with 0 in its field (RFC 4960 6.8).
pub(crate) fn recorded_datagrams_are_written_back(alloc: Global, log: &mut Vec<u8>) {
    for (text, want) in DATAGRAMS {
        check(log, is_as_wanted(alloc, text, want), text);
    }
}
