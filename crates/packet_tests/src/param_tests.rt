use crate::log::{check, check_bytes, check_number};
use crate::tests::is_encoding;
use bytes::{Bytes, BytesMut};
use sctp_params::param::Param;
use sctp_params::param::param_chunk_list::ParamChunkList;
use sctp_params::param::param_forward_tsn_supported::ParamForwardTsnSupported;
use sctp_params::param::param_header::ParamHeader;
use sctp_params::param::param_heartbeat_info::ParamHeartbeatInfo;
use sctp_params::param::param_kind::{ParamKind, build_param};
use sctp_params::param::param_outgoing_reset_request::ParamOutgoingResetRequest;
use sctp_params::param::param_random::ParamRandom;
use sctp_params::param::param_reconfig_response::{ParamReconfigResponse, ReconfigResult};
use sctp_params::param::param_requested_hmac_algorithm::{
    HmacAlgorithm, ParamRequestedHmacAlgorithm,
};
use sctp_params::param::param_state_cookie::ParamStateCookie;
use sctp_params::param::param_supported_address_types::ParamSupportedAddressTypes;
use sctp_params::param::param_supported_extensions::ParamSupportedExtensions;
use sctp_params::param::param_type::ParamType;
use sctp_params::param::param_unknown::ParamUnknown;
use sctp_util::error::Error;
use sctp_util::util::{CT_FORWARD_TSN, CT_RECONFIG};
use std::alloc::Global;
use std::fmt::Display;

const HEARTBEAT_INFO: &[u8] = &[0, 1, 0, 6, 0x61, 0x62];

const STATE_COOKIE: &[u8] = &[0, 7, 0, 8, 0x94, 6, 0x2f, 0x93];

const ADDRESS_TYPES: &[u8] = &[0, 0x0c, 0, 8, 0, 5, 0, 6];

const RESET_REQUEST: &[u8] = &[
    0, 0x0d, 0, 0x16, 0, 0, 0, 1, 0, 0, 0, 2, 0, 0, 0, 3, 0, 4, 0, 5, 0, 6,
];

const RESPONSE: &[u8] = &[
    0, 0x10, 0, 0x14, 0, 0, 0, 1, 0, 0, 0, 1, 0, 0, 0, 7, 0, 0, 0, 8,
];

const RANDOM: &[u8] = &[
    0x80, 2, 0, 0x24, 0x9f, 0xeb, 0xbb, 0x5c, 0x50, 0xc9, 0xbf, 0x75, 0x9c, 0xb1, 0x2c, 0x57, 0x4f,
    0xa4, 0x5a, 0x51, 0xba, 0x60, 0x17, 0x78, 0x27, 0x94, 0x5c, 0x31, 0xe6, 0x5d, 0x5b, 9, 0x47,
    0xe2, 0x22, 6,
];

const CHUNK_LIST: &[u8] = &[0x80, 3, 0, 6, 0x80, 0xc1];

const ALGORITHMS: &[u8] = &[0x80, 4, 0, 6, 0, 1];

const EXTENSIONS: &[u8] = &[0x80, 8, 0, 9, 0xc0, 0x0f, 0xc1, 0x80, 0x82];

const FORWARD_TSN: &[u8] = &[0xc0, 0, 0, 4];

const UNKNOWN: &[u8] = &[0xc0, 6, 0, 8, 1, 2, 3, 4];

fn bytes(alloc: Global, raw: &[u8]) -> Result<Bytes, Error> {
    Ok(Bytes::copy_from_slice(alloc, raw)?)
}

fn read(alloc: Global, raw: &[u8]) -> Result<ParamKind, Error> {
    let raw = bytes(alloc, raw)?;
    let param = build_param(alloc, &raw);
    drop(raw);
    param
}

fn filled(alloc: Global, length: usize) -> Result<Bytes, Error> {
    let mut buf = BytesMut::new(alloc);
    buf.resize(length, 7)?;
    Ok(buf.freeze()?)
}

fn repeated<T: Copy>(alloc: Global, item: T, count: usize) -> Result<Vec<T>, Error> {
    let mut items = Vec::new(alloc);
    for _ in 0..count {
        items.push(item)?;
    }
    Ok(items)
}

// Whether the item prints so.
fn prints<T: Display>(alloc: Global, item: &T, want: &str) -> bool {
    match format!(in alloc; "{item}") {
        Ok(text) => {
            let same = text.as_str() == want;
            drop(text);
            same
        }
        Err(_) => false,
    }
}

// These bytes and three more.
fn longer(alloc: Global, raw: &[u8]) -> Result<Bytes, Error> {
    let mut longer = BytesMut::copy_from_slice(alloc, raw)?;
    longer.extend_from_slice(&[1, 2, 3])?;
    Ok(longer.freeze()?)
}

// Whether the parameter has a header of its type and length.
fn has_its_header<P: Param>(param: &P) -> bool {
    match param.header() {
        Ok(header) => {
            header.typ == param.param_type() && header.value_length() == param.value_length()
        }
        Err(_) => false,
    }
}

fn is_cloned<P: Param + PartialEq + Drop>(alloc: Global, param: &P) -> bool {
    match param.try_clone(alloc) {
        Ok(copy) => {
            let same = copy == *param;
            drop(copy);
            same
        }
        Err(_) => false,
    }
}

// Whether a parameter of this kind is read from the bytes that these begin, and written as these.
fn is_read<P: Param + PartialEq + Drop>(alloc: Global, longer: &Bytes, raw: &[u8]) -> bool {
    match P::unmarshal(alloc, longer) {
        Ok(param) => {
            let well = is_encoding(param.marshal(alloc), raw)
                && has_its_header(&param)
                && is_cloned(alloc, &param);
            drop(param);
            well
        }
        Err(_) => false,
    }
}

// Whether these bytes are refused as too short for a parameter of this kind.
fn is_too_short<P: Param + Drop>(alloc: Global, raw: &[u8]) -> bool {
    match bytes(alloc, raw) {
        Ok(front) => {
            let refused = P::unmarshal(alloc, &front).err();
            drop(front);
            refused == Some(Error::ErrParamHeaderTooShort)
        }
        Err(_) => false,
    }
}

// Whether no front of these bytes is read as a parameter of this kind.
fn refuses_fronts<P: Param + Drop>(alloc: Global, raw: &[u8]) -> bool {
    let mut well = true;
    for end in 0..raw.len() {
        well = well && is_too_short::<P>(alloc, &raw[..end]);
    }
    well
}

// Whether a parameter of this kind is read from these bytes with bytes behind it, written the same, and read from no front of them.
fn is_kept<P: Param + PartialEq + Drop>(alloc: Global, raw: &[u8]) -> bool {
    match longer(alloc, raw) {
        Ok(longer) => {
            let well = is_read::<P>(alloc, &longer, raw);
            drop(longer);
            well && refuses_fronts::<P>(alloc, raw)
        }
        Err(_) => false,
    }
}

// Each kind of parameter by itself.
fn each_kind(alloc: Global) -> bool {
    is_kept::<ParamHeartbeatInfo>(alloc, HEARTBEAT_INFO)
        && is_kept::<ParamStateCookie>(alloc, STATE_COOKIE)
        && is_kept::<ParamSupportedAddressTypes>(alloc, ADDRESS_TYPES)
        && is_kept::<ParamOutgoingResetRequest>(alloc, RESET_REQUEST)
        && is_kept::<ParamReconfigResponse>(alloc, RESPONSE)
        && is_kept::<ParamRandom>(alloc, RANDOM)
        && is_kept::<ParamChunkList>(alloc, CHUNK_LIST)
        && is_kept::<ParamRequestedHmacAlgorithm>(alloc, ALGORITHMS)
        && is_kept::<ParamSupportedExtensions>(alloc, EXTENSIONS)
        && is_kept::<ParamForwardTsnSupported>(alloc, FORWARD_TSN)
        && is_kept::<ParamUnknown>(alloc, UNKNOWN)
}

const KINDS: [&[u8]; 11] = [
    HEARTBEAT_INFO,
    STATE_COOKIE,
    ADDRESS_TYPES,
    RESET_REQUEST,
    RESPONSE,
    RANDOM,
    CHUNK_LIST,
    ALGORITHMS,
    EXTENSIONS,
    FORWARD_TSN,
    UNKNOWN,
];

// How these bytes are refused.
fn refusal(alloc: Global, raw: &[u8]) -> Result<Option<Error>, Error> {
    let raw = bytes(alloc, raw)?;
    let refused = build_param(alloc, &raw).err();
    drop(raw);
    Ok(refused)
}

// Each row: a parameter, how it prints, its fields, and how it is written where that differs.
const READ: [(&[u8], &str, &str, Option<&[u8]>); 15] = [
    (
        b"\x00\x01\x00\x06ab",
        "Heartbeat Info b\"ab\"",
        "HeartbeatInfo(ParamHeartbeatInfo { heartbeat_information: b\"ab\" })",
        None,
    ),
    (
        b"\x00\x07\x00\x06ab",
        "State Cookie: b\"ab\"",
        "StateCookie(ParamStateCookie { cookie: b\"ab\" })",
        None,
    ),
    (
        b"\x00\x0c\x00\x08\x00\x05\x00\x0a",
        "Supported IP Types IPv4 IP Unknown ParamType",
        "SupportedAddressTypes(ParamSupportedAddressTypes { address_types: [Ipv4Addr, Unknown { param_type: 10 }] })",
        None,
    ),
    (
        RESET_REQUEST,
        "Outgoing SSN Reset Request Parameter 1 2 3 [4, 5, 6]",
        "OutgoingResetRequest(ParamOutgoingResetRequest { reconfig_request_sequence_number: 1, reconfig_response_sequence_number: 2, sender_last_tsn: 3, stream_identifiers: [4, 5, 6] })",
        None,
    ),
    (
        RESPONSE,
        "Re-configuration Response Parameter 1 1: Success - Performed",
        "ReconfigResponse(ParamReconfigResponse { reconfig_response_sequence_number: 1, result: SuccessPerformed, next_tsns: Some((7, 8)) })",
        None,
    ),
    // of a response with one of the two TSNs neither is kept
    (
        b"\x00\x10\x00\x10\0\0\0\x01\0\0\0\x01\0\0\0\x07",
        "Re-configuration Response Parameter 1 1: Success - Performed",
        "ReconfigResponse(ParamReconfigResponse { reconfig_response_sequence_number: 1, result: SuccessPerformed, next_tsns: None })",
        Some(b"\x00\x10\x00\x0c\0\0\0\x01\0\0\0\x01"),
    ),
    (
        b"\x80\x02\x00\x05a",
        "Random b\"a\"",
        "Random(ParamRandom { random_data: b\"a\" })",
        None,
    ),
    (
        b"\x80\x03\x00\x06\x80\x03",
        "Chunk List Unknown ChunkType: 128 SACK",
        "ChunkList(ParamChunkList { chunk_types: [ChunkType(128), ChunkType(3)] })",
        None,
    ),
    (
        b"\x80\x04\x00\x08\x00\x01\x00\x03",
        "Requested HMAC Algorithm Parameter HMAC SHA-128 HMAC SHA-256",
        "RequestedHmacAlgorithm(ParamRequestedHmacAlgorithm { available_algorithms: [HmacSha128, HmacSha256] })",
        None,
    ),
    // a last odd byte is ignored
    (
        b"\x80\x04\x00\x07\x00\x03\xff",
        "Requested HMAC Algorithm Parameter HMAC SHA-256",
        "RequestedHmacAlgorithm(ParamRequestedHmacAlgorithm { available_algorithms: [HmacSha256] })",
        Some(b"\x80\x04\x00\x06\x00\x03"),
    ),
    (
        b"\x80\x08\x00\x06\x82\xc0",
        "Supported Extensions RECONFIG FORWARD-TSN",
        "SupportedExtensions(ParamSupportedExtensions { chunk_types: [ChunkType(130), ChunkType(192)] })",
        None,
    ),
    (
        b"\xc0\x00\x00\x04",
        "Forward TSN supported",
        "ForwardTsnSupported(ParamForwardTsnSupported)",
        None,
    ),
    // a value is ignored
    (
        b"\xc0\x00\x00\x06\x01\x02",
        "Forward TSN supported",
        "ForwardTsnSupported(ParamForwardTsnSupported)",
        Some(b"\xc0\x00\x00\x04"),
    ),
    (
        b"\xc0\x06\x00\x05a",
        "ParamUnknown( Unknown ParamType b\"a\" )",
        "Unknown(ParamUnknown { typ: 49158, value: b\"a\" })",
        None,
    ),
    (
        UNKNOWN,
        "ParamUnknown( Unknown ParamType b\"\\x01\\x02\\x03\\x04\" )",
        "Unknown(ParamUnknown { typ: 49158, value: b\"\\x01\\x02\\x03\\x04\" })",
        None,
    ),
];

// Whether the parameter has these fields.
fn has_fields(alloc: Global, param: &ParamKind, want: &str) -> bool {
    match format!(in alloc; "{param:?}") {
        Ok(text) => {
            let same = text.as_str() == want;
            drop(text);
            same
        }
        Err(_) => false,
    }
}

// Whether the parameter that the bytes begin with prints so, has these fields, and is written so.
fn is_read_so(alloc: Global, raw: &[u8], printed: &str, fields: &str, written: &[u8]) -> bool {
    match read(alloc, raw) {
        Ok(param) => {
            let well = prints(alloc, &param, printed)
                && has_fields(alloc, &param, fields)
                && is_encoding(param.marshal(alloc), written);
            drop(param);
            well
        }
        Err(_) => false,
    }
}

fn kinds(alloc: Global, log: &mut Vec<u8>) {
    for raw in KINDS {
        let holds = is_kept::<ParamKind>(alloc, raw);
        check_bytes(log, holds, "a kind of parameter", raw);
    }
    for (raw, printed, fields, written) in READ {
        let holds = is_read_so(alloc, raw, printed, fields, written.unwrap_or(raw));
        check_bytes(log, holds, "a parameter", raw);
    }
}

fn is_cookie(cookie: Result<ParamStateCookie, Error>, want: &[u8]) -> bool {
    match cookie {
        Ok(param) => {
            let same = param.cookie.as_slice() == want;
            drop(param);
            same
        }
        Err(_) => false,
    }
}

fn cookie(alloc: Global, raw: &[u8]) -> Result<ParamStateCookie, Error> {
    ParamStateCookie::unmarshal(alloc, &bytes(alloc, raw)?)
}

// A single kind is read under any type number.
fn cookies(alloc: Global) -> bool {
    is_cookie(cookie(alloc, b"\x00\x01\x00\x06ab"), b"ab")
        && is_cookie(ParamStateCookie::new(alloc, [9; 32]), &[9; 32])
}

const REFUSED: [(&[u8], Error); 8] = [
    (b"\x00\x0d\x00\x03", Error::ErrParamHeaderTooShort),
    (b"\x00\x01\x00\x05", Error::ErrParamHeaderTooShort),
    (
        b"\x00\x0c\x00\x05\x00",
        Error::ErrSupportedAddressTypesParamInvalidLength,
    ),
    (
        b"\x00\x0d\x00\x0f\0\0\0\x01\0\0\0\x02\0\0\0",
        Error::ErrSsnResetRequestParamTooShort,
    ),
    (
        b"\x00\x0d\x00\x11\0\0\0\x01\0\0\0\x02\0\0\0\x03\0",
        Error::ErrSsnResetRequestParamInvalidLength,
    ),
    (
        b"\x00\x10\x00\x0b\0\0\0\x01\0\0\0",
        Error::ErrReconfigRespParamTooShort,
    ),
    (b"\x80\x04\x00\x06\x00\x00", Error::ErrInvalidAlgorithmType),
    (
        b"\x80\x04\x00\x08\x00\x01\x00\x02",
        Error::ErrInvalidAlgorithmType,
    ),
];

// How these bytes are refused as a chunk list.
fn refusal_of_list(alloc: Global, raw: &[u8]) -> Result<Option<Error>, Error> {
    let raw = bytes(alloc, raw)?;
    let refused = ParamChunkList::unmarshal(alloc, &raw).err();
    drop(raw);
    Ok(refused)
}

fn refusals(alloc: Global, log: &mut Vec<u8>) {
    for (raw, expected) in REFUSED {
        let holds = refusal(alloc, raw) == Ok(Some(expected));
        check_bytes(log, holds, "a parameter that is refused", raw);
    }
    let list = refusal_of_list(alloc, b"\x80\x08\x00\x05\x01");
    let holds = list == Ok(Some(Error::ErrParamTypeUnexpected));
    check(log, holds, "a chunk list that is refused");
}

// Types that are read as no kind, and as one that is unknown.
const NO_KIND: [u16; 15] = [0, 2, 3, 4, 5, 6, 8, 9, 10, 11, 14, 15, 17, 18, 0x7fff];

const KEPT: [u16; 10] = [
    0x8000, 32773, 32774, 49153, 49154, 49155, 49156, 49157, 49158, 0xffff,
];

// The type of the parameter that the bytes begin with.
fn type_of(alloc: Global, raw: &[u8]) -> Result<ParamType, Error> {
    let param = read(alloc, raw)?;
    let typ = param.param_type();
    drop(param);
    Ok(typ)
}

// The type is looked at before the length.
fn is_no_kind(alloc: Global, typ: u16) -> bool {
    let [high, low] = u16::to_be_bytes(typ);
    let expected = Ok(Some(Error::ErrParamTypeUnhandled { typ }));
    refusal(alloc, &[high, low, 0, 4]) == expected && refusal(alloc, &[high, low, 0, 3]) == expected
}

fn is_unknown(alloc: Global, typ: u16) -> bool {
    let [high, low] = u16::to_be_bytes(typ);
    type_of(alloc, &[high, low, 0, 5, 9]) == Ok(ParamType::Unknown { param_type: typ })
}

fn types(alloc: Global, log: &mut Vec<u8>) {
    for typ in NO_KIND {
        check_number(
            log,
            is_no_kind(alloc, typ),
            "a type of no kind",
            typ as usize,
        );
    }
    for typ in KEPT {
        check_number(
            log,
            is_unknown(alloc, typ),
            "a type that is unknown",
            typ as usize,
        );
    }
}

// A parameter of this type whose value is this long, or is a list of so many elements.
fn param_of(alloc: Global, typ: ParamType, count: usize) -> Result<ParamKind, Error> {
    Ok(match typ {
        ParamType::HeartbeatInfo => ParamKind::HeartbeatInfo(ParamHeartbeatInfo {
            heartbeat_information: filled(alloc, count)?,
        }),
        ParamType::StateCookie => ParamKind::StateCookie(ParamStateCookie {
            cookie: filled(alloc, count)?,
        }),
        ParamType::Random => ParamKind::Random(ParamRandom {
            random_data: filled(alloc, count)?,
        }),
        ParamType::ChunkList => ParamKind::ChunkList(ParamChunkList {
            chunk_types: repeated(alloc, CT_RECONFIG, count)?,
        }),
        ParamType::SupportedExt => ParamKind::SupportedExtensions(ParamSupportedExtensions {
            chunk_types: repeated(alloc, CT_FORWARD_TSN, count)?,
        }),
        ParamType::SupportedAddrTypes => {
            ParamKind::SupportedAddressTypes(ParamSupportedAddressTypes {
                address_types: repeated(alloc, ParamType::Ipv4Addr, count)?,
            })
        }
        ParamType::ReqHmacAlgo => {
            ParamKind::RequestedHmacAlgorithm(ParamRequestedHmacAlgorithm {
                available_algorithms: repeated(alloc, HmacAlgorithm::HmacSha128, count)?,
            })
        }
        ParamType::OutSsnResetReq => ParamKind::OutgoingResetRequest(ParamOutgoingResetRequest {
            reconfig_request_sequence_number: 1,
            reconfig_response_sequence_number: 2,
            sender_last_tsn: 3,
            stream_identifiers: repeated(alloc, 4, count)?,
        }),
        _ => ParamKind::Unknown(ParamUnknown {
            typ: 0x8000,
            value: filled(alloc, count)?,
        }),
    })
}

// Writes the parameter behind "abc". Gives the answer, and the buffer after it.
fn written_behind(
    alloc: Global,
    param: &ParamKind,
) -> Result<(Result<usize, Error>, BytesMut), Error> {
    let mut buf = BytesMut::copy_from_slice(alloc, b"abc")?;
    let answer = param.marshal_to(&mut buf);
    Ok((answer, buf))
}

// Each type with the most elements that fit, and the length that is then declared.
const LONGEST: [(ParamType, usize, u16); 9] = [
    (ParamType::HeartbeatInfo, 65_531, 65_535),
    (ParamType::StateCookie, 65_531, 65_535),
    (ParamType::Random, 65_531, 65_535),
    (ParamType::ChunkList, 65_531, 65_535),
    (ParamType::SupportedExt, 65_531, 65_535),
    (ParamType::SupportedAddrTypes, 32_765, 65_534),
    (ParamType::ReqHmacAlgo, 32_765, 65_534),
    (ParamType::OutSsnResetReq, 32_759, 65_534),
    (ParamType::Unknown { param_type: 0x8000 }, 65_531, 65_535),
];

// Whether the parameter is written behind "abc" with this length.
fn is_written(alloc: Global, param: &ParamKind, length: u16) -> bool {
    let [high, low] = u16::to_be_bytes(length);
    match written_behind(alloc, param) {
        Ok((answer, buf)) => {
            let well = answer == Ok(3 + length as usize)
                && buf.as_slice().get(5..7) == Some([high, low].as_slice())
                && buf.as_slice().starts_with(b"abc");
            drop(buf);
            well
        }
        Err(_) => false,
    }
}

// Whether the parameter is refused as too long, and the buffer stays as it was.
fn is_too_long(alloc: Global, param: &ParamKind) -> bool {
    match written_behind(alloc, param) {
        Ok((answer, buf)) => {
            let well = answer == Err(Error::ErrLengthTooLarge)
                && buf.as_slice() == b"abc".as_slice()
                && param.header().err() == Some(Error::ErrLengthTooLarge);
            drop(buf);
            well
        }
        Err(_) => false,
    }
}

// Whether the parameter is written with this length, or is refused as too long where none is due.
fn goes(alloc: Global, param: &ParamKind, length: Option<u16>) -> bool {
    match length {
        Some(length) => is_written(alloc, param, length),
        None => is_too_long(alloc, param),
    }
}

// Whether so many elements are written with this length, or are refused as too many.
fn is_bounded(alloc: Global, typ: ParamType, count: usize, length: Option<u16>) -> bool {
    match param_of(alloc, typ, count) {
        Ok(param) => {
            let well = goes(alloc, &param, length);
            drop(param);
            well
        }
        Err(_) => false,
    }
}

fn longest_values(alloc: Global, log: &mut Vec<u8>) {
    for (typ, count, length) in LONGEST {
        let holds = is_bounded(alloc, typ, count, Some(length))
            && is_bounded(alloc, typ, count.saturating_add(1), None);
        check_number(log, holds, "the longest value", count);
    }
}

const ADAPTATION: ParamHeader = ParamHeader {
    typ: ParamType::AdaptLayerInd,
    value_length: 2,
};

fn header(alloc: Global, raw: &[u8]) -> Result<ParamHeader, Error> {
    ParamHeader::unmarshal(&bytes(alloc, raw)?)
}

// Whether a header stands behind "a", and one that is too long leaves it so.
fn one_header_fits(alloc: Global) -> bool {
    let long = ParamHeader {
        typ: ParamType::Random,
        value_length: 65_532,
    };
    match BytesMut::copy_from_slice(alloc, b"a") {
        Ok(mut buf) => {
            let well = ADAPTATION.marshal_to(&mut buf) == Ok(5)
                && long.marshal_to(&mut buf) == Err(Error::ErrLengthTooLarge)
                && buf.as_slice() == b"a\xc0\x06\x00\x06".as_slice();
            drop(buf);
            well
        }
        Err(_) => false,
    }
}

fn headers(alloc: Global) -> bool {
    header(alloc, &[0xc0, 6, 0, 6, 1, 2, 3]) == Ok(ADAPTATION)
        && ADAPTATION.value_length() == 2
        && ParamHeader::of(ParamType::AdaptLayerInd, 2) == Ok(ADAPTATION)
        && is_encoding(ADAPTATION.marshal(alloc), &[0xc0, 6, 0, 6])
        && prints(alloc, &ADAPTATION, "Adaptation Layer Indication")
        && one_header_fits(alloc)
}

// Whether each number is the number of what is read from it, or of the last one that is known.
fn numbers() -> bool {
    let mut well = true;
    for number in 0..=u16::MAX {
        well = well && u16::from(ParamType::from(number)) == number;
    }
    for number in 0..9 {
        well = well && u32::from(ReconfigResult::from(number)) == number.min(7);
    }
    for number in 0..6 {
        well = well && u16::from(HmacAlgorithm::from(number)) == number.min(4);
    }
    well
}

fn unknown_numbers(alloc: Global) -> bool {
    prints(alloc, &ReconfigResult::from(9), "Unknown ReconfigResult")
        && prints(alloc, &HmacAlgorithm::from(0), "HMAC Reserved (0x00)")
}

/// What does not hold of parameters.
pub fn all(alloc: Global, log: &mut Vec<u8>) {
    check(log, each_kind(alloc), "each kind of parameter");
    kinds(alloc, log);
    check(log, cookies(alloc), "cookies");
    refusals(alloc, log);
    types(alloc, log);
    longest_values(alloc, log);
    check(log, headers(alloc), "headers of parameters");
    check(log, numbers(), "numbers of parameters");
    check(log, unknown_numbers(alloc), "unknown numbers print");
}
