//! The names of codes.

ghost use Rattle.std.specs.Prelude.{◌≡◌, ◌≢◌, ◌+◌, ◌<◌, ◌∷◌, [], ◌++◌, length};
ghost use Rattle.sctp_c.specs.Names.{name_among, call_names, chunk_error_names, value_error_names, name_of};
ghost use Rattle.sctp_c.specs.Out.{at_front};

use crate::code::{SCTPR_OK, SCTPR_SHORT_BUFFER};

/// Writes the name of a code at the front of the buffer, as the header has it, and a zero byte behind it; `SCTPR_UNKNOWN` of a number that
/// is none. `written` becomes how many bytes that is, at most 64. Refuses with `SCTPR_SHORT_BUFFER` where the buffer is shorter, and writes
/// nothing into it.
#[unsafe(no_mangle)]
pub extern "C" fn sctpr_code_name(code: u32, out: &mut [u8], written: &mut usize) -> u32
    ensures written { written.new ≡ length (name_of code) + 1 }
    ensures done { result ≡ 0 → out.new ≡ at_front (name_of code ++ 0 ∷ []) out.old }
    ensures short { result ≢ 0
        → (result ≡ 17) × (length out.old < length (name_of code) + 1) × (out.new ≡ out.old) }
{
    let name = name(code).as_bytes();
    let length = name.len();
    *written = length + 1;
    if out.len() < length + 1 {
        return SCTPR_SHORT_BUFFER;
    }
    out[..length].copy_from_slice(name);
    out[length] = 0;
    SCTPR_OK
}

// `SCTPR_UNKNOWN` of a number that is none.
#[tactic(auto, unfolding(crate::specs::Names::name_of))]
fn name(code: u32) -> &'static str
    ensures { result.now ≡ name_of code }
{
    if code < 40 {
        call_name(code)
    } else if code < 64 {
        chunk_error_name(code)
    } else {
        value_error_name(code)
    }
}

fn call_name(code: u32) -> &'static str
    ensures { result.now ≡ name_among call_names code }
{
    match code {
        0 => "SCTPR_OK",
        1 => "SCTPR_REPEAT",
        2 => "SCTPR_STALE",
        3 => "SCTPR_NOTHING",
        16 => "SCTPR_NO_MEMORY",
        17 => "SCTPR_SHORT_BUFFER",
        18 => "SCTPR_INVALID",
        19 => "SCTPR_LENGTH_TOO_LARGE",
        20 => "SCTPR_BAD_CHECKSUM",
        21 => "SCTPR_UNKNOWN_CHUNK",
        22 => "SCTPR_STREAM_OPEN",
        23 => "SCTPR_STREAM_UNKNOWN",
        24 => "SCTPR_MESSAGE_TOO_LARGE",
        25 => "SCTPR_QUEUE_FULL",
        26 => "SCTPR_TSNS_USED_UP",
        27 => "SCTPR_NOT_IN_FLIGHT",
        28 => "SCTPR_SACK_BEYOND_SENT",
        29 => "SCTPR_SACK_BAD_GAP",
        30 => "SCTPR_TSN_OPPOSITE",
        31 => "SCTPR_STREAM_BUSY",
        32 => "SCTPR_SSNS_USED_UP",
        34 => "SCTPR_TSN_TOO_FAR",
        35 => "SCTPR_WINDOW_FULL",
        36 => "SCTPR_SSN_TOO_FAR",
        37 => "SCTPR_NAMED_STREAM_UNKNOWN",
        38 => "SCTPR_NAMED_SSN_TOO_FAR",
        39 => "SCTPR_RESET_IN_PROGRESS",
        _ => "SCTPR_UNKNOWN",
    }
}

fn chunk_error_name(code: u32) -> &'static str
    ensures { result.now ≡ name_among chunk_error_names code }
{
    match code {
        40 => "SCTPR_ERR_PACKET_RAW_TOO_SMALL",
        41 => "SCTPR_ERR_PARSE_SCTP_CHUNK_NOT_ENOUGH_DATA",
        42 => "SCTPR_ERR_SCTP_PACKET_SOURCE_PORT_ZERO",
        43 => "SCTPR_ERR_SCTP_PACKET_DESTINATION_PORT_ZERO",
        44 => "SCTPR_ERR_INIT_CHUNK_BUNDLED",
        45 => "SCTPR_ERR_INIT_CHUNK_VERIFY_TAG_NOT_ZERO",
        46 => "SCTPR_ERR_CHUNK_HEADER_TOO_SMALL",
        47 => "SCTPR_ERR_CHUNK_HEADER_INVALID_LENGTH",
        48 => "SCTPR_ERR_CHUNK_HEADER_NOT_ENOUGH_SPACE",
        49 => "SCTPR_ERR_CHUNK_HEADER_PADDING_NON_ZERO",
        50 => "SCTPR_ERR_CHUNK_TYPE_NOT_ABORT",
        51 => "SCTPR_ERR_CHUNK_TYPE_NOT_COOKIE_ACK",
        52 => "SCTPR_ERR_CHUNK_TYPE_NOT_COOKIE_ECHO",
        53 => "SCTPR_ERR_CHUNK_TYPE_NOT_CT",
        54 => "SCTPR_ERR_CHUNK_TYPE_NOT_FORWARD_TSN",
        55 => "SCTPR_ERR_CHUNK_TYPE_NOT_HEARTBEAT",
        56 => "SCTPR_ERR_CHUNK_TYPE_NOT_HEARTBEAT_ACK",
        57 => "SCTPR_ERR_CHUNK_TYPE_NOT_TYPE_INIT",
        58 => "SCTPR_ERR_CHUNK_TYPE_NOT_PAYLOAD_DATA",
        59 => "SCTPR_ERR_CHUNK_TYPE_NOT_RECONFIG",
        60 => "SCTPR_ERR_CHUNK_TYPE_NOT_SACK",
        61 => "SCTPR_ERR_CHUNK_TYPE_NOT_SHUTDOWN",
        62 => "SCTPR_ERR_CHUNK_TYPE_NOT_SHUTDOWN_ACK",
        63 => "SCTPR_ERR_CHUNK_TYPE_NOT_SHUTDOWN_COMPLETE",
        _ => "SCTPR_UNKNOWN",
    }
}

fn value_error_name(code: u32) -> &'static str
    ensures { result.now ≡ name_among value_error_names code }
{
    match code {
        64 => "SCTPR_ERR_CHUNK_TOO_SHORT",
        65 => "SCTPR_ERR_CHUNK_PAYLOAD_SMALL",
        66 => "SCTPR_ERR_CHUNK_VALUE_NOT_LONG_ENOUGH",
        67 => "SCTPR_ERR_CHUNK_TYPE_INIT_FLAG_ZERO",
        68 => "SCTPR_ERR_CHUNK_TYPE_INIT_INITIATE_TAG_ZERO",
        69 => "SCTPR_ERR_INIT_INBOUND_STREAM_REQUEST_ZERO",
        70 => "SCTPR_ERR_INIT_OUTBOUND_STREAM_REQUEST_ZERO",
        71 => "SCTPR_ERR_INIT_ADVERTISED_RECEIVER_1500",
        72 => "SCTPR_ERR_HEARTBEAT_NOT_LONG_ENOUGH_INFO",
        73 => "SCTPR_ERR_HEARTBEAT_PARAM",
        74 => "SCTPR_ERR_HEARTBEAT_ACK_PARAMS",
        75 => "SCTPR_ERR_HEARTBEAT_ACK_NOT_HEARTBEAT_INFO",
        76 => "SCTPR_ERR_CHUNK_RECONFIG_INVALID_PARAM_A",
        77 => "SCTPR_ERR_CHUNK_RECONFIG_INVALID_PARAM_COMBINATION",
        78 => "SCTPR_ERR_SACK_SIZE_NOT_LARGE_ENOUGH_INFO",
        79 => "SCTPR_ERR_INVALID_CHUNK_SIZE",
        80 => "SCTPR_ERR_ERROR_CAUSE_TOO_SMALL",
        81 => "SCTPR_ERR_PARAM_HEADER_TOO_SHORT",
        82 => "SCTPR_ERR_PARAM_TYPE_UNHANDLED",
        83 => "SCTPR_ERR_PARAM_TYPE_UNEXPECTED",
        84 => "SCTPR_ERR_SSN_RESET_REQUEST_PARAM_TOO_SHORT",
        85 => "SCTPR_ERR_SSN_RESET_REQUEST_PARAM_INVALID_LENGTH",
        86 => "SCTPR_ERR_RECONFIG_RESP_PARAM_TOO_SHORT",
        87 => "SCTPR_ERR_INVALID_ALGORITHM_TYPE",
        88 => "SCTPR_ERR_SUPPORTED_ADDRESS_TYPES_PARAM_INVALID_LENGTH",
        89 => "SCTPR_ERR_SHORT_BUFFER",
        90 => "SCTPR_NOT_AS_GIVEN",
        _ => "SCTPR_UNKNOWN",
    }
}
