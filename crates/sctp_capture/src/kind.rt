//! Kinds of files that are known by their first bytes, but not read.

ghost use Rattle.std.specs.Prelude.{◌≡◌, ◌<◌, ◌≤◌, Option, None, length};
ghost use Rattle.sctp_util.specs.Field.{u32_at};
ghost use Rattle.sctp_capture.specs.Kind as kinds;

use sctp_util::field::read_u32;
use std::fmt;

/// A kind of file that a capture may come as, but which is not read.
#[derive(Clone, Copy, Debug, PartialEq, Eq)]
pub enum Kind {
    Gzip,
    Zstandard,
    Lz4,
    Zip,
    Xz,
    Bzip2,
    Png,
    Elf,
    Utf16,
    ByteOrderMark,
    Snoop,
    Btsnoop,
    NetworkMonitor,
    ModifiedPcap,
    CutPcap,
    K12,
    K12Text,
    Sniffer,
    NetXray,
    Iptrace,
}

impl fmt::Display for Kind {
    fn fmt<W: fmt::Write>(&self, f: &mut fmt::Formatter<W>) -> fmt::Result {
        match self {
            Kind::Gzip => f.write_str("gzip data, to be unpacked first"),
            Kind::Zstandard => f.write_str("Zstandard data, to be unpacked first"),
            Kind::Lz4 => f.write_str("LZ4 data, to be unpacked first"),
            Kind::Zip => f.write_str("a zip archive, to be unpacked first"),
            Kind::Xz => f.write_str("xz data, to be unpacked first"),
            Kind::Bzip2 => f.write_str("bzip2 data, to be unpacked first"),
            Kind::Png => f.write_str("a PNG picture, and no capture"),
            Kind::Elf => f.write_str("an ELF program or library, and no capture"),
            Kind::Utf16 => f.write_str("text in UTF-16, which is not read"),
            Kind::ByteOrderMark => f.write_str("text with a byte order mark, to be removed first"),
            Kind::Snoop => f.write_str("a snoop capture, which is not read"),
            Kind::Btsnoop => f.write_str("a Bluetooth snoop capture, which is not read"),
            Kind::NetworkMonitor => f.write_str("a Network Monitor capture, which is not read"),
            Kind::ModifiedPcap => f.write_str(
                "a modified pcap capture (a1b2cd34), which is not read",
            ),
            Kind::CutPcap => f.write_str("a pcap capture that ends within its header"),
            Kind::K12 => f.write_str("a K12 capture, which is not read"),
            Kind::K12Text => f.write_str("a K12 text capture, which is not read"),
            Kind::Sniffer => f.write_str("a Sniffer capture, which is not read"),
            Kind::NetXray => f.write_str("a NetXRay capture, which is not read"),
            Kind::Iptrace => f.write_str("an iptrace capture, which is not read"),
        }
    }
}

/// Text with a byte order mark, which is U+FEFF: in UTF-16, in either byte order, or in UTF-8 (RFC 3629 6).
fn kind_of_text(first: u32) -> Option<Kind>
    ensures { result ≡ kinds.kind_of_text first }
{
    let half = first / 65_536;
    if half == 0xfeff || half == 0xfffe {
        return Some(Kind::Utf16);
    }
    if first / 256 == 0x00ef_bbbf {
        return Some(Kind::ByteOrderMark);
    }
    None
}

/// The kind of file that begins with these four bytes, as one number.
fn kind_by(first: u32) -> Option<Kind>
    ensures { result ≡ kinds.kind_by first }
{
    if first / 65_536 == 0x1f8b {
        return Some(Kind::Gzip);
    }
    if let Some(kind) = kind_of_text(first) {
        return Some(kind);
    }
    match first {
        0x28b5_2ffd => Some(Kind::Zstandard),
        0x0422_4d18 => Some(Kind::Lz4),
        0x504b_0304 => Some(Kind::Zip),
        0xfd37_7a58 => Some(Kind::Xz),
        0x425a_6831..=0x425a_6839 => Some(Kind::Bzip2),
        0x8950_4e47 => Some(Kind::Png),
        0x7f45_4c46 => Some(Kind::Elf),
        0x736e_6f6f => Some(Kind::Snoop),
        0x6274_736e => Some(Kind::Btsnoop),
        0x5254_5353 | 0x474d_4255 => Some(Kind::NetworkMonitor),
        0xa1b2_cd34 | 0x34cd_b2a1 => Some(Kind::ModifiedPcap),
        0xa1b2_c3d4 | 0xd4c3_b2a1 | 0xa1b2_3c4d | 0x4d3c_b2a1 => Some(Kind::CutPcap),
        0x0000_0200 => Some(Kind::K12),
        0x2b2d_2d2d => Some(Kind::K12Text),
        0x5452_534e => Some(Kind::Sniffer),
        0x5643_5000 | 0x5843_5000 => Some(Kind::NetXray),
        0x6970_7472 => Some(Kind::Iptrace),
        _ => None,
    }
}

/// The kind of file that begins so, if it is one that is known but not read.
pub fn other_kind(held: &[u8]) -> Option<Kind>
    ensures short { length held.now < 4 → result ≡ None }
    ensures long { 4 ≤ length held.now → result ≡ kinds.kind_by (u32_at held.now 0) }
{
    if held.len() < 4 {
        return None;
    }
    kind_by(read_u32(held, 0))
}
