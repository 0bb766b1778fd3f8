//! The SCTP datagram inside a frame.

ghost use Rattle.std.specs.Prelude.{◌≡◌, ◌≢◌, ◌↔◌, ◌+◌, ◌≤◌, ◌<◌, ◌^◌, ◌⊎◌, ℕ, List, length, IsTrue, IfOk, IfErr, IfSome, IfNone, IsOkAnd, IsSomeAnd, None};
ghost use Rattle.sctp_capture.specs.Frame.{InUdp, IsCarried, end_of, held_to, cut_to, IsIpv4Payload, IsAtomic, IsPassed, passed_bytes, IsUpper, IsIpv6Payload, IsIpPayload, InIp, IsTag, IsTypePlace, IsPppoePlace, IsMplsPlace, IsNetworkPlace, IsEthernetPlace, IsVersion0, gre_header, IsGrePlace, IsGre, IsTunnelled, IsInner, IsPlace, InFrame, IsIpv4At, IsIpv6At, AreEnds, HasEnds};
ghost use Rattle.sctp_capture.specs.Exported.{IsExported, AreExportedEnds, IsHeld, AreHeldEnds};
ghost use Rattle.sctp_util.specs.Field;

use crate::exported::{exported_ends, exported_pdu};
use crate::record::Fault;
use sctp_util::field::read_u16;
use std::net::IpAddr;

/// The protocol numbers of UDP, GRE and SCTP.
const UDP: u8 = 17;

const GRE: u8 = 47;

const SCTP: u8 = 132;

/// How many headers are looked at behind that of IPv6, what they carry among them.
const MAX_HEADERS: usize = 16;

/// How many tunnels one in the other are looked into.
const MAX_TUNNELS: usize = 4;

/// The bytes of a PPPoE header with the protocol number of PPP behind it, and those of an MPLS label.
const PPPOE_HEADER: usize = 8;

const MPLS_LABEL: usize = 4;

/// The bytes of the shortest IP packet.
const IP_HEADER: usize = 20;

/// A datagram, and the addresses between which it went, where the frame names them.
#[derive(Drop)]
pub struct Datagram<'a> {
    pub ends: Option<(IpAddr, IpAddr)>,
    pub bytes: &'a [u8],
    /// How many of its bytes are missing at the end, as in a capture that cuts frames.
    pub missing: usize,
}

/// What an IP packet carries, its protocol number, and the addresses between which it went.
#[derive(Drop)]
struct Upper<'a> {
    ends: (IpAddr, IpAddr),
    protocol: u8,
    bytes: &'a [u8],
    /// How many of its bytes are cut off at the end.
    cut: usize,
}

/// Where an IP packet or a UDP datagram ends that has its length at this place: there, or, if it is 0, with the bytes that it is in, as
/// where a network card cuts a large packet into segments.
/// Precondition: the length is there.
fn end_of(bytes: &[u8], at: usize, whole: usize) -> usize
    requires { at + 2 ≤ length bytes.now }
    ensures is { result ≡ end_of bytes.now at whole }
    ensures few { (result < 65536) ⊎ (result ≡ whole) }
{
    let length = read_u16(bytes, at) as usize;
    if length == 0 {
        return whole;
    }
    length
}

/// What a frame holds of the bytes up to this end.
fn held_to(end: usize, bytes: &[u8]) -> usize
    ensures { result ≡ held_to end bytes.now }
{
    end.min(bytes.len())
}

/// How many of the bytes up to this end a frame does not hold.
fn cut_to(end: usize, bytes: &[u8]) -> usize
    ensures { result ≡ cut_to end bytes.now }
{
    end.saturating_sub(bytes.len())
}

/// The SCTP datagram in UDP to or from the port (RFC 6951), and how many of its bytes are missing. So many are cut off behind the payload.
fn inside_udp(payload: &[u8], cut: usize, port: u16) -> Result<(&[u8], usize), Fault>
    requires { cut < 2 ^ 32 }
    ensures found { IfOk result (λ x. InUdp port payload.now cut x.0.now x.1) }
    ensures refused { IfErr result
        (λ _. (bytes : List ℕ) → (missing : ℕ) → InUdp port payload.now cut bytes missing → ⊥) }
{
    if payload.len() < 8 {
        return Err(Fault::Short);
    }
    if read_u16(payload, 0) != port && read_u16(payload, 2) != port {
        return Err(Fault::OtherProtocol);
    }
    let whole = payload.len() + cut;
    let end = end_of(payload, 4, whole);
    if end < 8 || end > whole {
        return Err(Fault::Short);
    }
    Ok((&payload[8..held_to(end, payload)], cut_to(end, payload)))
}

/// The SCTP datagram in what IP carries, and how many of its bytes are missing: all of it, or what UDP carries. So many bytes are cut off
/// behind the payload.
fn inside_transport(
    protocol: u8,
    payload: &[u8],
    cut: usize,
    port: u16,
) -> Result<(&[u8], usize), Fault>
    requires { cut < 2 ^ 32 }
    ensures found { IfOk result (λ x. IsCarried port protocol payload.now cut x.0.now x.1) }
    ensures refused { IfErr result
        (λ _. (bytes : List ℕ) → (missing : ℕ)
        → IsCarried port protocol payload.now cut bytes missing → ⊥) }
{
    if protocol == SCTP {
        return Ok((payload, cut));
    }
    if protocol == UDP {
        return inside_udp(payload, cut, port);
    }
    Err(Fault::OtherProtocol)
}

/// The address in four bytes.
pub fn ipv4_at(packet: &[u8], at: usize) -> IpAddr
    requires { at + 4 ≤ length packet.now }
    ensures { IsIpv4At packet.now at result }
{
    let mut octets = [0u8; 4];
    octets.copy_from_slice(&packet[at..at + 4]);
    IpAddr::from(octets)
}

/// What an IPv4 packet carries, if it is no fragment. So many bytes are lost behind it.
fn ipv4_payload(packet: &[u8], lost: usize) -> Result<Upper<'_>, Fault>
    requires { lost < 2 ^ 32 }
    ensures found { IfOk result
        (λ u. IsIpv4Payload packet.now lost u.protocol u.bytes.now u.cut) }
    ensures refused { IfErr result (λ _. (protocol : ℕ) → (payload : List ℕ) → (cut : ℕ)
        → IsIpv4Payload packet.now lost protocol payload cut → ⊥) }
    ensures ends { IfOk result
        (λ u. IsIpv4At packet.now 12 u.ends.0 × IsIpv4At packet.now 16 u.ends.1) }
    ensures few { IfOk result (λ u. u.cut < 2 ^ 32) }
{
    if packet.len() < IP_HEADER {
        return Err(Fault::Short);
    }
    if read_u16(packet, 6) % 0x4000 != 0 {
        return Err(Fault::Fragment);
    }
    let header = ((packet[0] % 16) as usize) * 4;
    let end = end_of(packet, 2, packet.len() + lost);
    let held = held_to(end, packet);
    if header < IP_HEADER || held < header {
        return Err(Fault::Short);
    }
    Ok(Upper {
        ends: (ipv4_at(packet, 12), ipv4_at(packet, 16)),
        protocol: packet[9],
        bytes: &packet[header..held],
        cut: cut_to(end, packet),
    })
}

/// The address in sixteen bytes.
pub fn ipv6_at(packet: &[u8], at: usize) -> IpAddr
    requires { at + 16 ≤ length packet.now }
    ensures { IsIpv6At packet.now at result }
{
    let mut octets = [0u8; 16];
    octets.copy_from_slice(&packet[at..at + 16]);
    IpAddr::from(octets)
}

/// Whether a fragment header of IPv6 says that the packet is whole: no offset, and no more fragments (RFC 6946).
fn is_atomic(payload: &[u8]) -> bool
    ensures { IsTrue result ↔ IsAtomic payload.now }
{
    payload.len() >= 8 && read_u16(payload, 2) / 8 == 0 && read_u16(payload, 2) % 2 == 0
}

/// Whether the packet is a fragment by such a header of IPv6.
fn is_fragment(protocol: u8, payload: &[u8]) -> bool
    ensures { IsTrue result ↔ ((protocol ≡ 44) × (IsAtomic payload.now → ⊥)) }
{
    protocol == 44 && !is_atomic(payload)
}

/// Whether such a header of IPv6 is followed by another one.
fn is_passed(protocol: u8, payload: &[u8]) -> bool
    ensures { IsTrue result ↔ IsPassed protocol payload.now }
{
    protocol == 0 || protocol == 43 || protocol == 60 || (protocol == 44 && is_atomic(payload))
}

/// How many bytes such a header of IPv6 takes.
fn passed_bytes(protocol: u8, payload: &[u8]) -> usize
    requires { 2 ≤ length payload.now }
    ensures { result ≡ passed_bytes protocol payload.now }
{
    if protocol == 44 {
        return 8;
    }
    8 + 8 * (payload[1] as usize)
}

/// What the last of the headers that follow the one of IPv6 carries, and its protocol number. At most fifteen follow.
fn inside_extensions(first: u8, payload: &[u8]) -> Result<(u8, &[u8]), Fault>
    ensures found { IfOk result (λ x. IsUpper 16 first payload.now x.0 x.1.now) }
    ensures refused { IfErr result (λ _. (protocol : ℕ) → (upper : List ℕ)
        → IsUpper 16 first payload.now protocol upper → ⊥) }
{
    let mut protocol = first;
    let mut rest = payload;
    for _passed in 0..MAX_HEADERS {
        if is_fragment(protocol, rest) {
            return Err(Fault::Fragment);
        }
        if !is_passed(protocol, rest) {
            return Ok((protocol, rest));
        }
        if rest.len() < 2 {
            return Err(Fault::Short);
        }
        let after = passed_bytes(protocol, rest);
        if rest.len() < after {
            return Err(Fault::Short);
        }
        protocol = rest[0];
        rest = &rest[after..];
    }
    Err(Fault::OtherProtocol)
}

/// What an IPv6 packet carries behind its headers.
fn ipv6_payload(packet: &[u8]) -> Result<Upper<'_>, Fault>
    ensures found { IfOk result (λ u. IsIpv6Payload packet.now u.protocol u.bytes.now u.cut) }
    ensures refused { IfErr result (λ _. (protocol : ℕ) → (payload : List ℕ) → (cut : ℕ)
        → IsIpv6Payload packet.now protocol payload cut → ⊥) }
    ensures ends { IfOk result
        (λ u. IsIpv6At packet.now 8 u.ends.0 × IsIpv6At packet.now 24 u.ends.1) }
    ensures few { IfOk result (λ u. u.cut < 2 ^ 32) }
{
    if packet.len() < 40 {
        return Err(Fault::Short);
    }
    let end = 40 + read_u16(packet, 4) as usize;
    let held = &packet[40..held_to(end, packet)];
    let (protocol, bytes) = inside_extensions(packet[6], held)?;
    Ok(Upper {
        ends: (ipv6_at(packet, 8), ipv6_at(packet, 24)),
        protocol,
        bytes,
        cut: cut_to(end, packet),
    })
}

/// What an IP packet carries, by its version. So many bytes are lost behind it.
fn ip_payload(packet: &[u8], lost: usize) -> Result<Upper<'_>, Fault>
    requires { lost < 2 ^ 32 }
    ensures found { IfOk result
        (λ u. IsIpPayload packet.now lost u.protocol u.bytes.now u.cut) }
    ensures refused { IfErr result (λ _. (protocol : ℕ) → (payload : List ℕ) → (cut : ℕ)
        → IsIpPayload packet.now lost protocol payload cut → ⊥) }
    ensures ends { IfOk result (λ u. AreEnds packet.now u.ends) }
    ensures few { IfOk result (λ u. u.cut < 2 ^ 32) }
{
    if packet.is_empty() {
        return Err(Fault::Short);
    }
    match packet[0] / 16 {
        4 => ipv4_payload(packet, lost),
        6 => ipv6_payload(packet),
        _ => Err(Fault::OtherProtocol),
    }
}

/// The datagram of an IP packet. So many bytes are lost behind it.
fn inside_ip(packet: &[u8], lost: usize, port: u16) -> Result<Datagram<'_>, Fault>
    requires { lost < 2 ^ 32 }
    ensures found { IfOk result (λ d. InIp port packet.now lost d.bytes.now d.missing) }
    ensures refused { IfErr result (λ _. (bytes : List ℕ) → (missing : ℕ)
        → InIp port packet.now lost bytes missing → ⊥) }
    ensures ends { IfOk result (λ d. IsSomeAnd d.ends (AreEnds packet.now)) }
{
    let upper = ip_payload(packet, lost)?;
    let (bytes, missing) = inside_transport(upper.protocol, upper.bytes, upper.cut, port)?;
    Ok(Datagram {
        ends: Some(upper.ends),
        bytes,
        missing,
    })
}

/// Whether this is the protocol number of a VLAN tag: of the inner or the outer one (IEEE 802.1Q), or of an outer one by its older number.
fn is_tag(typ: u16) -> bool
    ensures { IsTrue result ↔ IsTag typ }
{
    typ == 0x8100 || typ == 0x88a8 || typ == 0x9100
}

/// The number of an Ethernet frame's protocol, behind up to three VLAN tags, and where it stands.
fn ethertype_in(frame: &[u8]) -> (u16, usize)
    requires { 26 ≤ length frame.now }
    ensures place { IsTypePlace frame.now result.1 }
    ensures is { result.0 ≡ Field.u16_at frame.now result.1 }
{
    let first = read_u16(frame, 12);
    if !is_tag(first) {
        return (first, 12);
    }
    let second = read_u16(frame, 16);
    if !is_tag(second) {
        return (second, 16);
    }
    let third = read_u16(frame, 20);
    if !is_tag(third) {
        return (third, 20);
    }
    (read_u16(frame, 24), 24)
}

/// Where the IP packet of a PPPoE session begins whose header begins here (RFC 2516). Refuses where there is none, or no room for its header.
fn pppoe_place(frame: &[u8], from: usize) -> Result<usize, Fault>
    requires { from ≤ length frame.now }
    ensures found { IfOk result (λ at. IsPppoePlace frame.now from at) }
    ensures refused { IfErr result (λ _. (at : ℕ)
        → IsPppoePlace frame.now from at → length frame.now < at + 20) }
{
    if frame.len() < from + PPPOE_HEADER {
        return Err(Fault::Short);
    }
    let protocol = read_u16(frame, from + 6);
    if read_u16(frame, from) != 0x1100 || (protocol != 0x0021 && protocol != 0x0057) {
        return Err(Fault::OtherProtocol);
    }
    Ok(from + PPPOE_HEADER)
}

/// Where the IP packet below the MPLS labels begins of which the first one begins here (RFC 3032). Refuses where there is none, or no room
/// for its header.
fn mpls_place(frame: &[u8], from: usize) -> Result<usize, Fault>
    requires { from ≤ length frame.now }
    ensures found { IfOk result (λ at. IsMplsPlace frame.now from at) }
    ensures refused { IfErr result (λ _. (at : ℕ)
        → IsMplsPlace frame.now from at → length frame.now < at + 20) }
{
    for k in 0..frame.len() {
        let label = from + MPLS_LABEL * k;
        if frame.len() < label + MPLS_LABEL {
            return Err(Fault::Short);
        }
        if frame[label + 2] % 2 == 1 {
            return Ok(label + MPLS_LABEL);
        }
    }
    Err(Fault::Short)
}

/// Where the IP packet begins behind this protocol number of Ethernet, which ends here. Refuses where there is none, or no room for its
/// header.
fn network_place(typ: u16, frame: &[u8], from: usize) -> Result<usize, Fault>
    requires { from ≤ length frame.now }
    ensures found { IfOk result (λ at. IsNetworkPlace typ frame.now from at) }
    ensures refused { IfErr result (λ _. (at : ℕ)
        → IsNetworkPlace typ frame.now from at → length frame.now < at + 20) }
{
    match typ {
        0x0800 | 0x86dd => Ok(from),
        0x8864 => pppoe_place(frame, from),
        0x8847 | 0x8848 => mpls_place(frame, from),
        _ => Err(Fault::OtherProtocol),
    }
}

/// Where the IP packet of an Ethernet frame begins. Refuses where there is none, or no room for its header.
fn ethernet_place(frame: &[u8]) -> Result<usize, Fault>
    ensures found { IfOk result (λ at. IsEthernetPlace frame.now at) }
    ensures refused { IfErr result (λ _. (at : ℕ)
        → IsEthernetPlace frame.now at → length frame.now < at + 20) }
{
    if frame.len() < 26 {
        return Err(Fault::Short);
    }
    let (typ, at) = ethertype_in(frame);
    network_place(typ, frame, at + 2)
}

/// Whether a header of GRE is of version 0, and has no bits set but those of checksum, key and sequence number, and bits to be ignored.
fn is_version_0(gre: &[u8]) -> bool
    requires { 4 ≤ length gre.now }
    ensures { IsTrue result ↔ IsVersion0 gre.now }
{
    gre[0] / 64 % 2 == 0 && gre[0] / 4 % 4 == 0 && gre[1] % 8 == 0
}

/// How many bytes the header of GRE takes.
fn gre_header(gre: &[u8]) -> usize
    requires { 4 ≤ length gre.now }
    ensures { result ≡ gre_header gre.now }
{
    let flags = gre[0] as usize;
    4 + 4 * (flags / 128) + 4 * (flags / 32 % 2) + 4 * (flags / 16 % 2)
}

/// Where the IP packet begins in what GRE carries under this protocol number. Refuses where there is none, or no room for its header.
fn gre_place(typ: u16, rest: &[u8]) -> Result<usize, Fault>
    ensures found { IfOk result (λ at. IsGrePlace typ rest.now at) }
    ensures refused { IfErr result (λ _. (at : ℕ)
        → IsGrePlace typ rest.now at → length rest.now < at + 20) }
{
    if typ == 0x6558 {
        return ethernet_place(rest);
    }
    network_place(typ, rest, 0)
}

/// The IP packet in what begins with a header of GRE (RFC 2784, RFC 2890), if there is one.
fn inside_gre(gre: &[u8]) -> Option<&[u8]>
    ensures some { IfSome result (λ packet. IsGre gre.now packet.now) }
    ensures none { IfNone result ((packet : List ℕ) → IsGre gre.now packet → ⊥) }
{
    if gre.len() < 4 || !is_version_0(gre) {
        return None;
    }
    let header = gre_header(gre);
    if gre.len() < header {
        return None;
    }
    let rest = &gre[header..];
    let at = match gre_place(read_u16(gre, 2), rest) {
        Ok(at) => at,
        Err(_) => return None,
    };
    if rest.len().saturating_sub(at) < IP_HEADER {
        return None;
    }
    Some(&rest[at..])
}

/// The IP packet that an IP packet carries in GRE, if there is one, and how many bytes of it are cut off. So many are lost behind the outer
/// one.
fn tunnelled(packet: &[u8], lost: usize) -> Option<(&[u8], usize)>
    requires { lost < 2 ^ 32 }
    ensures some { IfSome result (λ x. IsTunnelled packet.now lost x.0.now x.1) }
    ensures none { IfNone result ((inner : List ℕ) → (cut : ℕ)
        → IsTunnelled packet.now lost inner cut → ⊥) }
    ensures few { IfSome result (λ x. x.1 < 2 ^ 32) }
{
    let upper = match ip_payload(packet, lost) {
        Ok(upper) => upper,
        Err(_) => return None,
    };
    if upper.protocol != GRE {
        return None;
    }
    match inside_gre(upper.bytes) {
        Some(inner) => Some((inner, upper.cut)),
        None => None,
    }
}

/// The IP packet behind up to four tunnels, one in the other, and how many bytes of it are cut off. So many are lost behind the outermost
/// one.
fn innermost(packet: &[u8], lost: usize) -> (&[u8], usize)
    requires { lost < 2 ^ 32 }
    ensures is { IsInner 4 packet.now lost result.0.now result.1 }
    ensures few { result.1 < 2 ^ 32 }
{
    let mut inner = packet;
    let mut cut = lost;
    for _passed in 0..MAX_TUNNELS {
        match tunnelled(inner, cut) {
            Some((next, less)) => {
                inner = next;
                cut = less;
            }
            None => return (inner, cut),
        }
    }
    (inner, cut)
}

/// Where the IP packet of a frame of this link type begins: loopback, Ethernet, raw IP, or Linux
/// cooked of both versions. Refuses where there is none, or no room for its header.
fn place_in(link_type: u32, frame: &[u8]) -> Result<usize, Fault>
    ensures found { IfOk result (λ at. IsPlace link_type frame.now at) }
    ensures refused { IfErr result (λ _. (at : ℕ)
        → IsPlace link_type frame.now at → length frame.now < at + 20) }
{
    match link_type {
        0 | 108 => Ok(4),
        1 => ethernet_place(frame),
        12 | 14 | 101 | 228 | 229 => Ok(0),
        113 => Ok(16),
        276 => Ok(20),
        _ => Err(Fault::OtherLink(link_type)),
    }
}

/// The datagram of a frame that holds an IP packet. So many bytes are lost behind it.
fn inside_frame(link_type: u32, frame: &[u8], lost: u32, port: u16) -> Result<Datagram<'_>, Fault>
    ensures carried { IfOk result
        (λ d. InFrame link_type port frame.now lost d.bytes.now d.missing) }
    ensures refused { IfErr result
        (λ _. (bytes : List ℕ) → (missing : ℕ)
        → InFrame link_type port frame.now lost bytes missing → ⊥) }
    ensures ends { IfOk result (λ d. HasEnds link_type frame.now lost d.ends) }
{
    let at = place_in(link_type, frame)?;
    if frame.len() <= at {
        return Err(Fault::Short);
    }
    let (packet, cut) = innermost(&frame[at..], lost as usize);
    inside_ip(packet, cut, port)
}

/// The datagram of a PDU that Wireshark exported. So many bytes are lost behind it.
fn inside_exported(frame: &[u8], lost: u32) -> Result<Datagram<'_>, Fault>
    ensures found { IfOk result (λ d. IsExported frame.now d.bytes.now × (d.missing ≡ lost)) }
    ensures refused { IfErr result (λ _. (bytes : List ℕ) → IsExported frame.now bytes → ⊥) }
    ensures ends { IfOk result (λ d. AreExportedEnds frame.now d.ends) }
{
    let bytes = exported_pdu(frame)?;
    Ok(Datagram {
        ends: exported_ends(frame),
        bytes,
        missing: lost as usize,
    })
}

/// The datagram of a frame of this link type, and its ends: what IP carries, alone or in UDP to or from `port` (RFC 6951), in up to four
/// tunnels of GRE; an exported PDU (252); or the frame itself (248). The capture lost the last `lost` bytes. Of a datagram that is cut off
/// it has what is there. Refuses with `OtherLink`, `Short`, `Fragment` or `OtherProtocol`. It takes no memory.
pub fn datagram_in(
    link_type: u32,
    frame: &[u8],
    lost: u32,
    port: u16,
) -> Result<Datagram<'_>, Fault>
    ensures alone { link_type ≡ 248 → IsOkAnd result
        (λ d. (d.ends ≡ None) × (d.bytes.now ≡ frame.now) × (d.missing ≡ lost)) }
    ensures carried { link_type ≢ 248
        → IfOk result (λ d. IsHeld link_type port frame.now lost d.bytes.now d.missing) }
    ensures refused { IfErr result
        (λ _. (bytes : List ℕ) → (missing : ℕ)
        → IsHeld link_type port frame.now lost bytes missing → ⊥) }
    ensures ends { link_type ≢ 248
        → IfOk result (λ d. AreHeldEnds link_type frame.now lost d.ends) }
{
    match link_type {
        248 => Ok(Datagram {
            ends: None,
            bytes: frame,
            missing: lost as usize,
        }),
        252 => inside_exported(frame, lost),
        _ => inside_frame(link_type, frame, lost, port),
    }
}
