//! What the bytes of packets are: user data, control chunks and headers.

ghost use Rattle.std.specs.Prelude.{◌≡◌, ◌-◌, min, true};
ghost use Rattle.sctp_follow.specs.Load as loads;

use crate::flow::{counted, payload_length};
use sctp_show::filter::is_data;
use sctp_util::field::read_u16;

/// The types of chunks with user data.
const DATA: u8 = 0;

const I_DATA: u8 = 64;

/// What a byte of a packet is of.
#[derive(Clone, Copy, Debug, PartialEq, Eq)]
pub enum Kind {
    /// User data whose TSN did not come before.
    First,
    /// User data whose TSN came before.
    Again,
    /// A chunk other than DATA and I-DATA, with its header.
    Control,
    /// All else.
    Headers,
}

/// How many bytes of packets are of each kind. Each count stops at the greatest `u64`.
#[derive(Clone, Copy, Debug, PartialEq, Eq)]
pub struct Load {
    pub first: u64,
    pub again: u64,
    pub control: u64,
    pub headers: u64,
}

/// What the bytes of a chunk are, if its TSN came before or not.
fn kind_of(is_again: bool, bytes: &[u8]) -> Kind
    ensures { result ≡ loads.kind_of is_again bytes.now }
{
    match (is_data(bytes), is_again) {
        (true, false) => Kind::First,
        (true, true) => Kind::Again,
        (false, _) => Kind::Control,
    }
}

/// How many these are: user data, or a control chunk with its header, without padding.
fn size_of(bytes: &[u8]) -> u64
    ensures { result ≡ loads.size_of bytes.now }
{
    if is_data(bytes) {
        return payload_length(bytes);
    }
    if bytes.len() < 4 || bytes[0] == DATA || bytes[0] == I_DATA {
        return 0;
    }
    read_u16(bytes, 2) as u64
}

impl Load {
    /// No bytes.
    pub fn new() -> Self
        ensures { result ≡ loads.nothing }
    {
        Load {
            first: 0,
            again: 0,
            control: 0,
            headers: 0,
        }
    }

    /// All bytes.
    pub fn total(&self) -> u64
        ensures { result ≡ loads.total self.now }
    {
        let data = counted(self.first, self.again);
        counted(counted(data, self.control), self.headers)
    }

    /// Counts so many bytes of a kind.
    pub(crate) fn note(&mut self, kind: Kind, bytes: u64)
        ensures { self.new ≡ loads.with_bytes kind bytes self.old }
    {
        match kind {
            Kind::First => self.first = counted(self.first, bytes),
            Kind::Again => self.again = counted(self.again, bytes),
            Kind::Control => self.control = counted(self.control, bytes),
            Kind::Headers => self.headers = counted(self.headers, bytes),
        }
    }

    /// Counts a chunk of a packet that has so many bytes left, and whose TSN came before or not. Answers how many are left behind it.
    pub(crate) fn note_chunk(&mut self, bytes: &[u8], is_again: bool, left: u64) -> u64
        ensures left { result ≡ left - loads.size_of bytes.now }
        ensures load { self.new ≡ loads.with_bytes (loads.kind_of is_again bytes.now)
            (min left (loads.size_of bytes.now)) self.old }
    {
        let size = size_of(bytes).min(left);
        self.note(kind_of(is_again, bytes), size);
        left - size
    }
}
