//! DATA chunks that go out into a caller's buffer (RFC 4960 3.3.1), each byte of user data copied once.

ghost use Rattle.std.specs.Prelude.{ℕ, ◌≡◌, ◌+◌, ◌≤◌, ◌<◌, ◌++◌, ◌∷◌, [], length, replicate, None, IfSome};
ghost use Rattle.sctp_util.specs.Field.{be16, be32};
ghost use Rattle.sctp_c.specs.Out.{padded, at_front};
ghost use Rattle.sctp_c.specs.PayloadTypes.{encoding_with};
ghost use Rattle.sctp_c.specs.Types.{type_sent};
ghost use Rattle.sctp_data.specs.PayloadData.{data_flags, data_of};

use crate::sender::types::Types;
use sctp_chunks::chunk::Chunk;
use sctp_data::chunk::chunk_payload_data::ChunkPayloadData;
use sctp_util::util::get_padding_size;

// The header of a DATA chunk and the numbers before its user data.
const HEAD: usize = 16;

/// The payload type that a chunk is sent with: one without a name is that which is noted of its message (RFC 9260 3.3.1).
pub fn type_sent(chunk: &ChunkPayloadData, types: &Types) -> u32
    ensures { result ≡ type_sent types.now chunk.now }
{
    let number = chunk.payload_type.number();
    if number == 58 {
        return types.get(chunk.message_id);
    }
    number
}

/// How many bytes a DATA chunk takes with its padding; None where its length is past 65,535.
#[tactic(auto, unfolding(crate::specs::Out::padded, sctp_util::specs::Field::be16, sctp_util::specs::Field::be32))]
pub fn data_size(chunk: &ChunkPayloadData) -> Option<usize>
    ensures some { IfSome result (λ n. (payload_type : ℕ)
        → n ≡ length (padded (encoding_with payload_type (data_of chunk.now)))) }
    ensures short { IfSome result (λ _. length chunk.now.user_data ≤ 65519) }
    ensures none { result ≡ None → 65519 < length chunk.now.user_data }
{
    if chunk.user_data.len() > 65_519 {
        return None;
    }
    let length = HEAD + chunk.user_data.len();
    Some(length + get_padding_size(length))
}

// What stands before the user data.
#[tactic(auto, unfolding(sctp_util::specs::Field::be16, sctp_util::specs::Field::be32))]
fn put_head(place: &mut [u8], chunk: &ChunkPayloadData, payload_type: u32)
    requires place { length place.old ≡ 16 }
    requires short { length chunk.now.user_data ≤ 65519 }
    ensures { place.new ≡ (0 ∷ data_flags (data_of chunk.now) ∷ []) ++ be16 (16 + length chunk.now.user_data)
        ++ be32 chunk.now.tsn ++ be16 chunk.now.stream_identifier
        ++ be16 chunk.now.stream_sequence_number ++ be32 payload_type }
{
    let length = (HEAD + chunk.user_data.len()) as u16;
    let (kind, rest) = place.split_at_mut(2);
    let (size, rest) = rest.split_at_mut(2);
    let (tsn, rest) = rest.split_at_mut(4);
    let (stream, rest) = rest.split_at_mut(2);
    let (number, kept_type) = rest.split_at_mut(2);
    kind.copy_from_slice(&[0, chunk.flags()]);
    size.copy_from_slice(&u16::to_be_bytes(length));
    tsn.copy_from_slice(&u32::to_be_bytes(chunk.tsn));
    stream.copy_from_slice(&u16::to_be_bytes(chunk.stream_identifier));
    number.copy_from_slice(&u16::to_be_bytes(chunk.stream_sequence_number));
    kept_type.copy_from_slice(&u32::to_be_bytes(payload_type));
}

// Writes bytes at the front of the place, and so many zeros behind them.
fn put_behind(place: &mut [u8], bytes: &[u8], zeros: usize)
    requires { length bytes.now + zeros ≤ length place.old }
    ensures { place.new ≡ at_front (bytes.now ++ replicate zeros 0) place.old }
{
    let end = bytes.len() + zeros;
    place[..bytes.len()].copy_from_slice(bytes);
    place[bytes.len()..end].fill(0);
}

/// Writes a DATA chunk with a payload type at the front of the buffer, and zeros behind it up to a multiple of four. It takes no memory.
/// Precondition: its length has 16 bits, and the buffer has room; `data_size` tells.
pub fn put_data(out: &mut [u8], chunk: &ChunkPayloadData, payload_type: u32)
    requires short { length chunk.now.user_data ≤ 65519 }
    requires room { length (padded (encoding_with payload_type (data_of chunk.now)))
        ≤ length out.old }
    ensures { out.new ≡ at_front (padded (encoding_with payload_type (data_of chunk.now))) out.old }
{
    let padding = get_padding_size(HEAD + chunk.user_data.len());
    let (head, rest) = out.split_at_mut(HEAD);
    put_head(head, chunk, payload_type);
    put_behind(rest, &chunk.user_data, padding);
}
