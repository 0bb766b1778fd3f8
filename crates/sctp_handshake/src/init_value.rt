//! The value of an INIT and of an INIT ACK, read where it lies and written (RFC 9260 3.3.2, 3.3.3).

ghost use Rattle.std.specs.Prelude.{◌≡◌, ◌+◌, ◌≤◌, ◌++◌, false, IfOk, IfSome, length, MatchResult, true};
ghost use Rattle.sctp_handshake.specs.InitValues as values;
ghost use Rattle.sctp_handshake.specs.ParamTypes as init;

use crate::offer::Offer;
use bytes::BytesMut;
use sctp_datagram::params::{ParamPlace, is_reported, is_stopping, param_at};
use sctp_util::field::{put_u16, put_u32, read_u16, read_u32};

/// How many bytes of the value stand before its parameters.
pub const INIT_LENGTH: usize = 16;

/// How many bytes `put_params` writes at most.
pub const MOST_PARAMS_LENGTH: usize = 18;

/// How many bytes `put_init` writes at most.
pub const MOST_INIT_LENGTH: usize = 34;

/// State Cookie (RFC 9260 3.3.3.1).
const STATE_COOKIE: u16 = 7;

/// Host Name Address, which no sender may use (RFC 9260 3.3.2.1.4).
const HOST_NAME_ADDRESS: u16 = 11;

/// Zero Checksum Acceptable (RFC 9653 4.1).
const ZERO_CHECKSUM: u16 = 0x8001;

/// DTLS, the one method of RFC 9653 4.1.
const DTLS: [u8; 4] = [0, 0, 0, 1];

/// Supported Extensions (RFC 5061 4.2.7).
const SUPPORTED_EXTENSIONS: u16 = 0x8008;

/// Forward-TSN-Supported (RFC 3758 3.1).
const FORWARD_TSN_SUPPORTED: u16 = 0xC000;

const RE_CONFIG: u8 = 130;

const FORWARD_TSN: u8 = 192;

/// What an INIT or an INIT ACK says.
#[derive(Clone, Copy, Debug, PartialEq, Eq)]
pub struct Said {
    /// What its sender offers.
    pub offer: Offer,
    /// Where the first State Cookie lies in the value, if there is one.
    pub cookie: Option<ParamPlace>,
}

/// Why bytes are not the value of an INIT or of an INIT ACK.
#[derive(Clone, Copy, Debug, PartialEq, Eq)]
pub enum InitFault {
    /// There are under 16 bytes.
    ShortValue,
    /// Four bytes or more are left, and no parameter begins with them.
    BrokenParameter,
    /// An INIT ACK has no State Cookie.
    MissingCookie,
}

/// A parameter that its sender is told of (RFC 9260 3.2.2).
#[derive(Clone, Copy, Debug, PartialEq, Eq)]
pub struct Reported {
    /// Where its header begins in the value.
    pub from: usize,
    /// Where it ends, before its padding.
    pub to: usize,
    /// Where to look for the next one.
    pub next: usize,
}

impl Said {
    ghost use Rattle.sctp_handshake.specs.InitValues.{has_extension, noted, numbers_in, init_in, cookie_in, is_param, place};
    ghost use Rattle.sctp_handshake.specs.declared.init_value.InitFault.TheVariants as fault;

    /// What the value of an INIT says. Parameters are read by RFC 9260 3.2.1: of unknown ones those with the highest bit are passed
    /// over, and nothing is read behind another. Addresses are passed over. Up to three bytes behind the last parameter are ignored.
    pub fn read_init(value: &[u8]) -> Result<Said, InitFault>
        ensures { result ≡ init_in value.now }
    {
        if value.len() < INIT_LENGTH {
            return Err(InitFault::ShortValue);
        }
        let mut said = Self::numbers(value);
        let mut at = INIT_LENGTH;
        for _seen in 0..value.len() {
            if value.len() - at < 4 {
                break;
            }
            let param = Self::param(value, at)?;
            if ends_at(param.typ) {
                break;
            }
            said.note(value, param);
            at = param.next;
        }
        Ok(said)
    }

    /// What the value of an INIT ACK says, and where its cookie lies.
    pub fn read_init_ack(value: &[u8]) -> Result<(Offer, ParamPlace), InitFault>
        ensures { result ≡ cookie_in (init_in value.now) }
    {
        let said = Self::read_init(value)?;
        match said.cookie {
            Some(cookie) => Ok((said.offer, cookie)),
            None => Err(InitFault::MissingCookie),
        }
    }

    // The parameter that begins at a place.
    fn param(value: &[u8], at: usize) -> Result<ParamPlace, InitFault>
        ensures param { MatchResult result
            (λ p. (is_param value.now at ≡ true) × (p ≡ place value.now at))
            (λ e. (is_param value.now at ≡ false) × (e ≡ fault.BrokenParameter)) }
        ensures within { IfOk result
            (λ p. (p.at + p.length ≤ length value.now) × (p.next ≤ length value.now)) }
    {
        match param_at(value, at) {
            Ok(param) => Ok(param),
            Err(_) => Err(InitFault::BrokenParameter),
        }
    }

    // What the numbers before the parameters say.
    fn numbers(value: &[u8]) -> Said
        requires { INIT_LENGTH ≤ length value.now }
        ensures { result ≡ numbers_in value.now }
    {
        let offer = Offer {
            tag: read_u32(value, 0),
            window: read_u32(value, 4),
            outbound_streams: read_u16(value, 8),
            inbound_streams: read_u16(value, 10),
            first_tsn: read_u32(value, 12),
            forward_tsn: false,
            reconfig: false,
            zero_checksum: false,
        };
        Said {
            offer,
            cookie: None,
        }
    }

    // What a parameter adds.
    fn note(&mut self, value: &[u8], param: ParamPlace)
        requires { param.at + param.length ≤ length value.now }
        ensures { self.new ≡ noted value.now param self.old }
    {
        let bytes = &value[param.at..param.at + param.length];
        match param.typ {
            FORWARD_TSN_SUPPORTED => self.offer.forward_tsn = true,
            SUPPORTED_EXTENSIONS => {
                let forward_tsn = bytes.contains(&FORWARD_TSN);
                let reconfig = bytes.contains(&RE_CONFIG);
                self.offer.forward_tsn = self.offer.forward_tsn || forward_tsn;
                self.offer.reconfig = self.offer.reconfig || reconfig;
            }
            ZERO_CHECKSUM => {
                let is_dtls = bytes.len() == 4 && read_u32(bytes, 0) == 1;
                self.offer.zero_checksum = self.offer.zero_checksum || is_dtls;
            }
            STATE_COOKIE => self.cookie = self.cookie.or(Some(param)),
            _ => {}
        }
    }
}

impl Reported {
    ghost use Rattle.sctp_handshake.specs.InitValues.{report, told_from};

    /// The first parameter from a place on that its sender is told of, in an ERROR or an INIT ACK, with cause or type 8 (RFC 9260
    /// 3.2.1, 3.2.2). Begin at `INIT_LENGTH`, and go on at `next`. A walk costs as much as `read_init`.
    pub fn first_from(value: &[u8], from: usize) -> Option<Reported>
        ensures { result ≡ told_from (length value.now) value.now from }
    {
        let mut at = from;
        for _seen in 0..value.len() {
            let Ok(param) = Said::param(value, at) else {
                return None;
            };
            if is_told(param.typ) {
                return Some(Self::report(value, at, param));
            }
            if ends_at(param.typ) {
                return None;
            }
            at = param.next;
        }
        None
    }

    // What is told of the parameter that begins at a place.
    fn report(value: &[u8], at: usize, param: ParamPlace) -> Reported
        requires { param.at + param.length ≤ length value.now }
        ensures { result ≡ report value.now at param }
    {
        Reported {
            from: at,
            to: param.at + param.length,
            next: if is_stopping(param.typ) {
                value.len()
            } else {
                param.next
            },
        }
    }
}

/// Where the first Host Name Address lies in the value of an INIT or of an INIT ACK, among the parameters that are read (RFC 9260 5.1.2). A walk
/// costs as much as `Said::read_init`.
pub fn host_name_in(value: &[u8]) -> Option<ParamPlace>
    ensures place { result ≡ values.host_name_of value.now }
    ensures within { IfSome result
        (λ p. (4 ≤ p.at) × (p.at + p.length ≤ length value.now)) }
{
    let mut at = INIT_LENGTH;
    for _seen in 0..value.len() {
        let Ok(param) = Said::param(value, at) else {
            return None;
        };
        if param.typ == HOST_NAME_ADDRESS {
            return Some(param);
        }
        if ends_at(param.typ) {
            return None;
        }
        at = param.next;
    }
    None
}

impl Offer {
    ghost use Rattle.sctp_handshake.specs.InitValues.{init_bytes, number_bytes, offer_params};

    /// Appends the value of an INIT: the numbers, then Forward-TSN-Supported, Zero Checksum Acceptable and Supported Extensions, each
    /// where the offer has it. In an INIT ACK the other parameters go before these: call `put_numbers`, and `put_params` last. It takes
    /// no memory.
    /// Precondition: the buffer has room for 34 bytes.
    pub fn put_init(&self, buf: &mut BytesMut)
        requires { MOST_INIT_LENGTH ≤ buf.old.spare }
        ensures items { buf.new.items ≡ buf.old.items ++ init_bytes self.now }
        ensures spare { buf.new.spare + length (init_bytes self.now) ≡ buf.old.spare }
    {
        self.put_numbers(buf);
        self.put_params(buf);
    }

    /// Appends the numbers of an INIT or an INIT ACK. It takes no memory.
    /// Precondition: the buffer has room for 16 bytes.
    pub fn put_numbers(&self, buf: &mut BytesMut)
        requires { INIT_LENGTH ≤ buf.old.spare }
        ensures items { buf.new.items ≡ buf.old.items ++ number_bytes self.now }
        ensures spare { buf.new.spare + INIT_LENGTH ≡ buf.old.spare }
    {
        put_u32(buf, self.tag);
        put_u32(buf, self.window);
        put_u16(buf, self.outbound_streams);
        put_u16(buf, self.inbound_streams);
        put_u32(buf, self.first_tsn);
    }

    /// Appends the parameters of an offer. The last of them has no padding, so none may follow. It takes no memory.
    /// Precondition: the buffer has room for 18 bytes.
    pub fn put_params(&self, buf: &mut BytesMut)
        requires { MOST_PARAMS_LENGTH ≤ buf.old.spare }
        ensures items { buf.new.items ≡ buf.old.items ++ offer_params self.now }
        ensures spare { buf.new.spare + length (offer_params self.now) ≡ buf.old.spare }
    {
        let types = [RE_CONFIG, FORWARD_TSN];
        let from = usize::from(!self.reconfig);
        let to = if self.forward_tsn { 2 } else { 1 };
        put_param(buf, self.forward_tsn, FORWARD_TSN_SUPPORTED, &[]);
        put_param(buf, self.zero_checksum, ZERO_CHECKSUM, &DTLS);
        put_param(
            buf,
            self.reconfig || self.forward_tsn,
            SUPPORTED_EXTENSIONS,
            &types[from..to],
        );
    }
}

// Appends a parameter, where the offer has it.
fn put_param(buf: &mut BytesMut, is_offered: bool, typ: u16, value: &[u8])
    requires room { 4 + length value.now ≤ buf.old.spare }
    requires short { length value.now ≤ 4 }
    ensures items { buf.new.items ≡ buf.old.items ++ init.param_if is_offered typ value.now }
    ensures spare { buf.new.spare + length (init.param_if is_offered typ value.now)
        ≡ buf.old.spare }
    ensures most { buf.old.spare ≤ buf.new.spare + 4 + length value.now }
{
    if is_offered {
        put_u16(buf, typ);
        put_u16(buf, 4 + value.len() as u16);
        buf.extend_reserved(value);
    }
}

// Whether the sender of a parameter is told of it.
fn is_told(typ: u16) -> bool
    ensures { result ≡ init.is_told typ }
{
    !is_known(typ) && is_reported(typ)
}

// Whether a parameter is known: it is not reported, and reading goes on behind it.
fn is_known(typ: u16) -> bool
    ensures { result ≡ init.is_known typ }
{
    matches!(
        typ,
        5 | 6
            | STATE_COOKIE
            | 8
            | 9
            | HOST_NAME_ADDRESS
            | 12
            | ZERO_CHECKSUM
            | SUPPORTED_EXTENSIONS
            | FORWARD_TSN_SUPPORTED
    )
}

// Whether reading ends at a parameter.
fn ends_at(typ: u16) -> bool
    ensures { result ≡ init.ends_at typ }
{
    !is_known(typ) && is_stopping(typ)
}
