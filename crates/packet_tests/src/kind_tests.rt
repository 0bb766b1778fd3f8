use crate::log::{check, check_bytes, check_number};
use crate::tests::{ZERO, data, is_encoding, packet_of, read_chunks, refusal, written_behind};
use bytes::{Bytes, BytesMut};
use sctp_chunks::chunk::chunk_abort::ChunkAbort;
use sctp_chunks::chunk::chunk_forward_tsn::{ChunkForwardTsn, ChunkForwardTsnStream};
use sctp_chunks::chunk::chunk_header::ChunkHeader;
use sctp_chunks::chunk::chunk_heartbeat_ack::ChunkHeartbeatAck;
use sctp_chunks::chunk::chunk_i_forward_tsn::{ChunkIForwardTsn, ChunkIForwardTsnStream};
use sctp_chunks::chunk::chunk_init::ChunkInit;
use sctp_chunks::chunk::chunk_kind::ChunkKind;
use sctp_chunks::chunk::chunk_reconfig::ChunkReconfig;
use sctp_chunks::chunk::chunk_selective_ack::{ChunkSelectiveAck, GapAckBlock};
use sctp_chunks::chunk::error_cause::{ErrorCause, USER_INITIATED_ABORT};
use sctp_chunks::chunk::{Chunk, ChunkType};
use sctp_packets::Packet;
use sctp_params::param::param_forward_tsn_supported::ParamForwardTsnSupported;
use sctp_params::param::param_heartbeat_info::ParamHeartbeatInfo;
use sctp_params::param::param_kind::ParamKind;
use sctp_util::error::Error;
use sctp_util::util::{CT_ABORT, CT_FORWARD_TSN, CT_I_FORWARD_TSN, CT_PAYLOAD_DATA, CT_SACK};
use std::alloc::Global;

// The packet's chunks as they print.
fn joined(alloc: Global, packet: &Packet) -> Result<String, Error> {
    let mut text = String::new(alloc);
    for chunk in &packet.chunks {
        text.push_str(&format!(in alloc; "{chunk};")?)?;
    }
    Ok(text)
}

/// Whether the packet's chunks print so.
pub fn is_printed(alloc: Global, packet: &Packet, expected: &str) -> bool {
    match joined(alloc, packet) {
        Ok(text) => {
            let same = text.as_str() == expected;
            drop(text);
            same
        }
        Err(_) => false,
    }
}

// Whether the packet's chunks are written so, behind the common header.
fn is_written_as(alloc: Global, packet: &Packet, want: &[u8]) -> bool {
    match packet.marshal(alloc, &ZERO) {
        Ok(written) => {
            let same = written.as_slice().get(12..) == Some(want);
            drop(written);
            same
        }
        Err(_) => false,
    }
}

// Whether a packet of these chunks prints so, and is written so.
fn is_read_so(alloc: Global, chunks: &[u8], printed: &str, written: &[u8]) -> bool {
    match read_chunks(alloc, chunks) {
        Ok(packet) => {
            let well = is_printed(alloc, &packet, printed)
                && is_written_as(alloc, &packet, written);
            drop(packet);
            well
        }
        Err(_) => false,
    }
}

// Each row: chunks, how they print, and how they are written where that differs.
const ROWS: [(&[u8], &str, Option<&[u8]>); 20] = [
    (
        b"\0\x03\0\x13\0\0\0\x0a\0\x01\0\0\0\0\0\x35abc\0",
        "DATA\n10;",
        None,
    ),
    (
        b"\0\x02\0\x13\xff\xff\xff\xfe\0\x01\0\0\0\0\0\x35abc\0",
        "DATA\n4294967294;",
        None,
    ),
    (
        b"\0\0\0\x13\xff\xff\xff\xfe\0\x01\0\0\0\0\0\x35abc\0",
        "DATA\n4294967294;",
        None,
    ),
    (
        b"\0\x01\0\x13\xff\xff\xff\xfe\0\x01\0\0\0\0\0\x35abc\0",
        "DATA\n4294967294;",
        None,
    ),
    (
        b"\x82\0\0\x18\0\x10\0\x14\0\0\0\x01\0\0\0\x01\0\0\0\x07\0\0\0\x08",
        "Param A:\n Re-configuration Response Parameter 1 1: Success - Performed;",
        None,
    ),
    (
        b"\x82\0\0\x26\0\x10\0\x0c\0\0\0\x01\0\0\0\x01\0\x0d\0\x16\0\0\0\x01\0\0\0\x02\0\0\0\x03\0\x04\0\x05\0\x06\0\0",
        "Param A:\n Re-configuration Response Parameter 1 1: Success - PerformedParam B:\n Outgoing SSN Reset Request Parameter 1 2 3 [4, 5, 6];",
        None,
    ),
    (b"\x04\0\0\x0a\0\x01\0\x06\x61\x62\0\0", "HEARTBEAT;", None),
    (
        b"\x05\0\0\x0a\0\x01\0\x06\x61\x62\0\0",
        "HEARTBEAT-ACK;",
        None,
    ),
    (
        b"\x03\0\0\x18\0\0\0\x09\0\0\0\0\0\x01\0\x01\0\x02\0\x03\0\0\0\x0a",
        "SACK cumTsnAck=9 arwnd=0 dupTsn=[10]\n gap ack: 2 - 3;",
        None,
    ),
    (b"\x0a\0\0\x05\xff\0\0\0", "COOKIE-ECHO;", None),
    (
        b"\x0b\0\0\x08\x0b\0\0\x04",
        "COOKIE-ACK;",
        Some(b"\x0b\0\0\x04"),
    ),
    (
        b"\x0b\0\0\x05\xaa\x01\x02\x03\x0b\0\0\x04",
        "COOKIE-ACK;COOKIE-ACK;",
        Some(b"\x0b\0\0\x04\x0b\0\0\x04"),
    ),
    (
        b"\xc2\0\0\x0a\0\0\0\x0a\0\x01\0\0",
        "I-FORWARD-TSN\nNew Cumulative TSN: 10;",
        Some(b"\xc2\0\0\x08\0\0\0\x0a"),
    ),
    (
        b"\xc2\0\0\x10\0\0\0\x0a\0\x01\x01\0\0\0\0\x02",
        "I-FORWARD-TSN\nNew Cumulative TSN: 10\n - si=1, unordered=true, mid=2;",
        None,
    ),
    (
        b"\xc0\0\0\x0c\0\0\0\x0b\0\x01\0\x01",
        "FORWARD-TSN\nNew Cumulative TSN: 11\n - si=1, ssn=1;",
        None,
    ),
    (
        b"\x06\0\0\x08\0\x0c\0\x04",
        "ABORT\n - User Initiated Abort;",
        None,
    ),
    (
        b"\x09\0\0\x09\0\x0d\0\x05\x2a\0\0\0",
        "ERROR\n - Protocol Violation;",
        None,
    ),
    (
        b"\x09\0\0\x08\0\x0e\0\x04",
        "ERROR\n - Unknown CauseCode: 14;",
        None,
    ),
    (b"\x07\0\0\x08\0\0\0\x0a", "SHUTDOWN;", None),
    (
        b"\x08\0\0\x04\x0e\0\0\x04",
        "SHUTDOWN-ACK;SHUTDOWN-COMPLETE;",
        None,
    ),
];

fn kinds(alloc: Global, log: &mut Vec<u8>) {
    for (chunks, printed, written) in ROWS {
        let holds = is_read_so(alloc, chunks, printed, written.unwrap_or(chunks));
        check_bytes(log, holds, "chunks", chunks);
    }
}

const REFUSED: [(&[u8], Error); 20] = [
    (b"\0\x03\0", Error::ErrParseSctpChunkNotEnoughData),
    (b"\0\x03\0\x03", Error::ErrChunkHeaderInvalidLength),
    (
        b"\0\x03\0\x0f\0\0\0\x0a\0\x01\0\0\0\0\0\0",
        Error::ErrChunkPayloadSmall,
    ),
    (
        b"\0\x03\0\x14\0\0\0\x0a",
        Error::ErrChunkHeaderNotEnoughSpace,
    ),
    (
        b"\0\x03\0\x13\0\0\0\x0a\0\x01\0\0\0\0\0\x35abc\x01",
        Error::ErrChunkHeaderPaddingNonZero,
    ),
    (
        b"\0\x03\0\x13\0\0\0\x0a\0\x01\0\0\0\0\0\x35abc",
        Error::ErrParseSctpChunkNotEnoughData,
    ),
    (
        b"\x03\0\0\x10\0\0\0\x09\0\0\0\0\xff\xff\xff\xff",
        Error::ErrSackSizeNotLargeEnoughInfo,
    ),
    (
        b"\x03\0\0\x10\0\0\0\x09\0\0\0\0\0\0\xff\xff",
        Error::ErrSackSizeNotLargeEnoughInfo,
    ),
    (
        b"\x03\0\0\x10\0\0\0\x09\0\0\0\0\0\x01\0\0",
        Error::ErrSackSizeNotLargeEnoughInfo,
    ),
    (b"\xc0\0\0\x0a\0\0\0\x0a\0\x01\0\0", Error::ErrChunkTooShort),
    (b"\x04\0\0\x08\0\x07\0\x04", Error::ErrHeartbeatParam),
    (b"\x04\0\0\x08\0\x01\0\x05", Error::ErrParamHeaderTooShort),
    (b"\x05\0\0\x04", Error::ErrHeartbeatNotLongEnoughInfo),
    (b"\x06\0\0\x08\0\x0c\0\x03", Error::ErrErrorCauseTooSmall),
    (b"\x06\0\0\x08\0\x0c\0\x05", Error::ErrErrorCauseTooSmall),
    (
        b"\x07\0\0\x09\0\0\0\x0a\0\0\0\0",
        Error::ErrInvalidChunkSize,
    ),
    (b"\x0a\0\0\x05\xff", Error::ErrParseSctpChunkNotEnoughData),
    (
        b"\x0a\0\0\x05\xff\0\0\x01",
        Error::ErrChunkHeaderPaddingNonZero,
    ),
    (b"\x82\0\0\x04", Error::ErrChunkTooShort),
    (b"\x01\0\0\x04", Error::ErrChunkValueNotLongEnough),
];

fn kinds_refuse(alloc: Global, log: &mut Vec<u8>) {
    for (chunks, expected) in REFUSED {
        let holds = refusal(alloc, chunks) == Ok(Some(expected));
        check_bytes(log, holds, "chunks that are refused", chunks);
    }
}

// Whether this number has no kind.
fn is_unknown(alloc: Global, number: u8) -> Result<bool, Error> {
    let refused = refusal(alloc, &[number, 0, 0, 4])?;
    Ok(refused == Some(Error::ErrUnmarshalUnknownChunkType))
}

// Each other number has no kind.
fn numbers_of_kinds(alloc: Global, log: &mut Vec<u8>) {
    for number in 0..=255 {
        let has_kind = matches!(number, 0..=11 | 14 | 130 | 192 | 194);
        let holds = is_unknown(alloc, number) == Ok(!has_kind);
        check_number(log, holds, "the number of a kind", number as usize);
    }
}

// Whether the packet of this chunk is written; nothing where it is neither written nor refused for its length.
fn is_written(alloc: Global, chunk: ChunkKind) -> Result<Option<bool>, Error> {
    let packet = packet_of(alloc, chunk)?;
    let written = written_behind(alloc, &packet);
    drop(packet);
    let (answer, buf) = written?;
    let outcome = outcome(answer, buf.as_slice());
    drop(buf);
    Ok(outcome)
}

fn outcome(answer: Result<usize, Error>, buf: &[u8]) -> Option<bool> {
    match answer {
        Ok(length) if length == buf.len() => Some(true),
        Err(Error::ErrLengthTooLarge) if buf == b"abc".as_slice() => Some(false),
        _ => None,
    }
}

fn sack(alloc: Global, blocks: usize) -> Result<ChunkKind, Error> {
    let mut gap_ack_blocks = Vec::new(alloc);
    for _ in 0..blocks {
        gap_ack_blocks.push(GapAckBlock { start: 2, end: 3 })?;
    }
    Ok(ChunkKind::SelectiveAck(ChunkSelectiveAck {
        cumulative_tsn_ack: 9,
        advertised_receiver_window_credit: 0,
        gap_ack_blocks,
        duplicate_tsn: Vec::new(alloc),
    }))
}

fn forward_tsn(alloc: Global, pairs: usize) -> Result<ChunkKind, Error> {
    let mut streams = Vec::new(alloc);
    for _ in 0..pairs {
        streams.push(ChunkForwardTsnStream {
            identifier: 1,
            sequence: 2,
        })?;
    }
    Ok(ChunkKind::ForwardTsn(ChunkForwardTsn {
        new_cumulative_tsn: 9,
        streams,
    }))
}

fn i_forward_tsn(alloc: Global, entries: usize) -> Result<ChunkKind, Error> {
    let mut streams = Vec::new(alloc);
    for _ in 0..entries {
        streams.push(ChunkIForwardTsnStream {
            identifier: 1,
            unordered: false,
            mid: 2,
        })?;
    }
    Ok(ChunkKind::IForwardTsn(ChunkIForwardTsn {
        new_cumulative_tsn: 9,
        streams,
    }))
}

fn cause(alloc: Global, length: usize) -> Result<ErrorCause, Error> {
    let mut raw = BytesMut::new(alloc);
    raw.resize(length, 7)?;
    Ok(ErrorCause {
        code: USER_INITIATED_ABORT,
        raw: raw.freeze()?,
    })
}

fn abort(alloc: Global, length: usize) -> Result<ChunkKind, Error> {
    let mut error_causes = Vec::new(alloc);
    error_causes.push(cause(alloc, length)?)?;
    Ok(ChunkKind::Abort(ChunkAbort { error_causes }))
}

// A chunk of this type with so many entries, or for ABORT bytes in its cause, or for DATA bytes.
fn filled(alloc: Global, typ: ChunkType, count: usize) -> Result<ChunkKind, Error> {
    match typ {
        CT_SACK => sack(alloc, count),
        CT_FORWARD_TSN => forward_tsn(alloc, count),
        CT_I_FORWARD_TSN => i_forward_tsn(alloc, count),
        CT_PAYLOAD_DATA => Ok(ChunkKind::PayloadData(data(alloc, count)?)),
        _ => abort(alloc, count),
    }
}

fn is_filled_written(alloc: Global, typ: ChunkType, count: usize) -> Result<Option<bool>, Error> {
    is_written(alloc, filled(alloc, typ, count)?)
}

// Each type with the most entries that fit.
const LONGEST: [(ChunkType, usize); 5] = [
    (CT_PAYLOAD_DATA, 65_519),
    (CT_SACK, 16_379),
    (CT_FORWARD_TSN, 16_381),
    (CT_I_FORWARD_TSN, 8_190),
    (CT_ABORT, 65_527),
];

fn longest_lists(alloc: Global, log: &mut Vec<u8>) {
    for (typ, count) in LONGEST {
        let holds = is_filled_written(alloc, typ, count) == Ok(Some(true))
            && is_filled_written(alloc, typ, count.saturating_add(1)) == Ok(Some(false));
        check_number(log, holds, "the longest list", count);
    }
}

// The length of the text of a cause with so many bytes.
fn length_of(alloc: Global, length: usize) -> Result<Result<usize, Error>, Error> {
    Ok(cause(alloc, length)?.marshal(alloc).map(|raw| raw.len()))
}

fn is_cause(alloc: Global, raw: &Bytes) -> bool {
    match ErrorCause::unmarshal(raw) {
        Ok(small) => {
            let well = small.length() == 5
                && small.error_cause_code() == USER_INITIATED_ABORT
                && small.raw.as_slice() == [7].as_slice()
                && is_encoding(small.marshal(alloc), raw.as_slice());
            drop(small);
            well
        }
        Err(_) => false,
    }
}

fn is_pair(alloc: Global, raw: &Bytes) -> bool {
    match ChunkForwardTsnStream::unmarshal(raw) {
        Ok(pair) => pair.value_length() == 4 && is_encoding(pair.marshal(alloc), b"\0\x01\0\x02"),
        Err(_) => false,
    }
}

fn is_short_pair(raw: &Bytes) -> bool {
    ChunkForwardTsnStream::unmarshal(raw).err() == Some(Error::ErrChunkTooShort)
}

// A header prints the name of its type, a pair its two numbers, a refusal its name.
fn parts_print(alloc: Global) -> bool {
    let header = ChunkHeader {
        typ: CT_SACK,
        flags: 0,
        value_length: 4,
    };
    let pair = ChunkForwardTsnStream {
        identifier: 1,
        sequence: 2,
    };
    match format!(in alloc; "{header}: {pair}: {}", Error::ErrShortBuffer) {
        Ok(text) => {
            let same = text.as_str() == "SACK: 1, 2: ErrShortBuffer";
            drop(text);
            same
        }
        Err(_) => false,
    }
}

fn parts_alone(alloc: Global) -> bool {
    length_of(alloc, 65_531) == Ok(Ok(65_535))
        && length_of(alloc, 65_532) == Ok(Err(Error::ErrLengthTooLarge))
        && is_cause(alloc, &Bytes::from_static(b"\0\x0c\0\x05\x07"))
        && is_pair(alloc, &Bytes::from_static(b"\0\x01\0\x02\x03"))
        && is_short_pair(&Bytes::from_static(b"\0\x01\0"))
        && parts_print(alloc)
}

fn refusal_of_ack(alloc: Global, ack: &ChunkHeartbeatAck) -> Result<Option<Error>, Error> {
    let mut buf = BytesMut::copy_from_slice(alloc, b"abc")?;
    let refused = ack.marshal_to(&mut buf).err();
    let is_kept = buf.as_slice() == b"abc".as_slice();
    drop(buf);
    Ok(if is_kept { refused } else { None })
}

// How a HEARTBEAT-ACK of these is refused; nothing also where the buffer was not left as it was.
fn heartbeat_ack(alloc: Global, params: Vec<ParamKind>) -> Result<Option<Error>, Error> {
    let ack = ChunkHeartbeatAck { params };
    let refused = refusal_of_ack(alloc, &ack);
    drop(ack);
    refused
}

fn info(alloc: Global, length: usize) -> Result<ParamKind, Error> {
    Ok(ParamKind::HeartbeatInfo(ParamHeartbeatInfo {
        heartbeat_information: cause(alloc, length)?.raw,
    }))
}

fn infos(alloc: Global, count: usize, length: usize) -> Result<Vec<ParamKind>, Error> {
    let mut params = Vec::new(alloc);
    for _ in 0..count {
        params.push(info(alloc, length)?)?;
    }
    Ok(params)
}

// How a HEARTBEAT-ACK of so many infos of this length is refused.
fn refusal_of_infos(alloc: Global, count: usize, length: usize) -> Result<Option<Error>, Error> {
    heartbeat_ack(alloc, infos(alloc, count, length)?)
}

// How a HEARTBEAT-ACK of another parameter is refused.
fn refusal_of_other(alloc: Global) -> Result<Option<Error>, Error> {
    let mut other = Vec::new(alloc);
    other.push(ParamKind::ForwardTsnSupported(ParamForwardTsnSupported))?;
    heartbeat_ack(alloc, other)
}

const INFOS: [(usize, usize, Option<Error>); 5] = [
    (0, 1, Some(Error::ErrHeartbeatAckParams)),
    (2, 1, Some(Error::ErrHeartbeatAckParams)),
    (1, 1, None),
    (1, 65_527, None),
    (1, 65_528, Some(Error::ErrLengthTooLarge)),
];

fn heartbeat_acks(alloc: Global) -> bool {
    let expected = Ok(Some(Error::ErrHeartbeatAckNotHeartbeatInfo));
    let mut well = refusal_of_other(alloc) == expected;
    for (count, length, expected) in INFOS {
        well = well && refusal_of_infos(alloc, count, length) == Ok(expected);
    }
    well
}

fn init(alloc: Global) -> ChunkInit {
    ChunkInit {
        is_ack: false,
        initiate_tag: 1,
        advertised_receiver_window_credit: 1500,
        num_outbound_streams: 1,
        num_inbound_streams: 1,
        initial_tsn: 0,
        params: Vec::new(alloc),
    }
}

fn prints_extensions(alloc: Global, chunk: &ChunkInit) -> Result<bool, Error> {
    let printed = format!(in alloc; "{chunk}")?;
    let end = "initial_tsn: 0Param 0:\n Supported Extensions RECONFIG FORWARD-TSN";
    let well = printed.as_str().ends_with(end);
    drop(printed);
    Ok(well)
}

fn has_extensions(alloc: Global, chunk: &mut ChunkInit) -> bool {
    chunk.check().is_ok()
        && chunk.set_supported_extensions(alloc).is_ok()
        && prints_extensions(alloc, chunk) == Ok(true)
}

// How the INIT is refused with too small a credit, then also with no stream out, no stream in, and no tag.
fn refusals_of_init(chunk: &mut ChunkInit) -> [Option<Error>; 4] {
    chunk.advertised_receiver_window_credit = 1499;
    let credit = chunk.check().err();
    chunk.num_outbound_streams = 0;
    let outbound = chunk.check().err();
    chunk.num_inbound_streams = 0;
    let inbound = chunk.check().err();
    chunk.initiate_tag = 0;
    [credit, outbound, inbound, chunk.check().err()]
}

const INIT_REFUSED: [Option<Error>; 4] = [
    Some(Error::ErrInitAdvertisedReceiver1500),
    Some(Error::ErrInitOutboundStreamRequestZero),
    Some(Error::ErrInitInboundStreamRequestZero),
    Some(Error::ErrChunkTypeInitInitiateTagZero),
];

fn inits_checked(alloc: Global) -> bool {
    let mut chunk = init(alloc);
    let well = has_extensions(alloc, &mut chunk) && refusals_of_init(&mut chunk) == INIT_REFUSED;
    drop(chunk);
    well
}

// How the chunk is checked, and how it is refused to be written.
fn refusals_of(alloc: Global, chunk: &ChunkReconfig) -> (Option<Error>, Option<Error>) {
    (chunk.check().err(), chunk.marshal(alloc).err())
}

fn of_two_infos(alloc: Global) -> Result<ChunkReconfig, Error> {
    let first = info(alloc, 1)?;
    let second = info(alloc, 2)?;
    Ok(ChunkReconfig {
        param_a: Some(first),
        param_b: Some(second),
    })
}

fn clone_written(alloc: Global, chunk: &ChunkReconfig) -> Result<Bytes, Error> {
    let copy = chunk.try_clone(alloc)?;
    let written = copy.marshal(alloc);
    drop(copy);
    written
}

// The first parameter is padded where a second one follows.
fn is_padded(alloc: Global, chunk: &ChunkReconfig) -> bool {
    let expected = Some(Error::ErrChunkReconfigInvalidParamCombination);
    let encoding = b"\x82\0\0\x12\0\x01\0\x05\x07\0\0\0\0\x01\0\x06\x07\x07";
    refusals_of(alloc, chunk) == (expected, None)
        && is_encoding(clone_written(alloc, chunk), encoding)
}

fn empty_is_refused(alloc: Global) -> bool {
    let chunk = ChunkReconfig {
        param_a: None,
        param_b: None,
    };
    let expected = Some(Error::ErrChunkReconfigInvalidParamA);
    let refused = refusals_of(alloc, &chunk);
    drop(chunk);
    refused == (expected, expected)
}

fn reconfigs(alloc: Global) -> bool {
    match of_two_infos(alloc) {
        Ok(chunk) => {
            let well = is_padded(alloc, &chunk);
            drop(chunk);
            well && empty_is_refused(alloc)
        }
        Err(_) => false,
    }
}

/// What does not hold of chunks.
pub fn all(alloc: Global, log: &mut Vec<u8>) {
    kinds(alloc, log);
    kinds_refuse(alloc, log);
    numbers_of_kinds(alloc, log);
    longest_lists(alloc, log);
    check(log, parts_alone(alloc), "parts of chunks alone");
    check(log, heartbeat_acks(alloc), "HEARTBEAT ACKs");
    check(log, inits_checked(alloc), "INITs are checked");
    check(log, reconfigs(alloc), "RE-CONFIGs");
}
