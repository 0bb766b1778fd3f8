//! The types of parameters.

ghost use Rattle.std.specs.Prelude.{◌≡◌, Some};
ghost use Rattle.sctp_params.specs.ParamType.{type_number, type_from, type_name};

use std::fmt;

/// What a parameter is, by the number in its first two bytes (RFC 4960 3.2.1). It
/// prints as its name. Most of them are names alone: `build_param` says which are read.
#[derive(Clone, Copy, Debug, PartialEq, Eq)]
pub enum ParamType {
    /// Heartbeat Info (RFC 4960 3.3.5)
    HeartbeatInfo,
    /// IPv4 Address, printed as `IPv4 IP` (RFC 4960 3.3.2.1)
    Ipv4Addr,
    /// IPv6 Address, printed as `IPv6 IP` (RFC 4960 3.3.2.1)
    Ipv6Addr,
    /// State Cookie (RFC 4960 3.3.3.1)
    StateCookie,
    /// Unrecognized Parameters (RFC 4960 3.3.3.1)
    UnrecognizedParam,
    /// Cookie Preservative (RFC 4960 3.3.2.1)
    CookiePreservative,
    /// Host Name Address, printed as `Host Name IP` (RFC 4960 3.3.2.1)
    HostNameAddr,
    /// Supported Address Types, printed as `Supported IP Types` (RFC 4960 3.3.2.1)
    SupportedAddrTypes,
    /// Outgoing SSN Reset Request Parameter (RFC 6525 4.1)
    OutSsnResetReq,
    /// Incoming SSN Reset Request Parameter (RFC 6525 4.2)
    IncSsnResetReq,
    /// SSN/TSN Reset Request Parameter (RFC 6525 4.3)
    SsnTsnResetReq,
    /// Re-configuration Response Parameter (RFC 6525 4.4)
    ReconfigResp,
    /// Add Outgoing Streams Request Parameter (RFC 6525 4.5)
    AddOutStreamsReq,
    /// Add Incoming Streams Request Parameter (RFC 6525 4.6)
    AddIncStreamsReq,
    /// Random (RFC 4895 3.1)
    Random,
    /// Chunk List (RFC 4895 3.2)
    ChunkList,
    /// Requested HMAC Algorithm Parameter (RFC 4895 3.3)
    ReqHmacAlgo,
    /// Padding (RFC 4820 4)
    Padding,
    /// Supported Extensions (RFC 5061 4.2.7)
    SupportedExt,
    /// Forward TSN supported (RFC 3758 3.1)
    ForwardTsnSupp,
    /// Add IP Address, printed as `Add IP IP` (RFC 5061 4.2.1)
    AddIpAddr,
    /// Delete IP Address, printed as `Delete IP IP` (RFC 5061 4.2.2)
    DelIpaddr,
    /// Error Cause Indication (RFC 5061 4.2.3)
    ErrClauseInd,
    /// Set Primary IP Address, printed as `Set Primary IP` (RFC 5061 4.2.4)
    SetPriAddr,
    /// Success Indication (RFC 5061 4.2.5)
    SuccessInd,
    /// Adaptation Layer Indication (RFC 5061 4.2.6)
    AdaptLayerInd,
    /// A number that has no name here; as the type of a `ParamUnknown`, any number.
    Unknown { param_type: u16 },
}

impl fmt::Display for ParamType {
    ghost output = { λ t. Some (type_name t) };

    fn fmt<W: fmt::Write>(&self, f: &mut fmt::Formatter<W>) -> fmt::Result {
        f.write_str(match self {
            ParamType::HeartbeatInfo => "Heartbeat Info",
            ParamType::Ipv4Addr => "IPv4 IP",
            ParamType::Ipv6Addr => "IPv6 IP",
            ParamType::StateCookie => "State Cookie",
            ParamType::UnrecognizedParam => "Unrecognized Parameters",
            ParamType::CookiePreservative => "Cookie Preservative",
            ParamType::HostNameAddr => "Host Name IP",
            ParamType::SupportedAddrTypes => "Supported IP Types",
            ParamType::OutSsnResetReq => "Outgoing SSN Reset Request Parameter",
            ParamType::IncSsnResetReq => "Incoming SSN Reset Request Parameter",
            ParamType::SsnTsnResetReq => "SSN/TSN Reset Request Parameter",
            ParamType::ReconfigResp => "Re-configuration Response Parameter",
            ParamType::AddOutStreamsReq => "Add Outgoing Streams Request Parameter",
            ParamType::AddIncStreamsReq => "Add Incoming Streams Request Parameter",
            ParamType::Random => "Random",
            ParamType::ChunkList => "Chunk List",
            ParamType::ReqHmacAlgo => "Requested HMAC Algorithm Parameter",
            ParamType::Padding => "Padding",
            ParamType::SupportedExt => "Supported Extensions",
            ParamType::ForwardTsnSupp => "Forward TSN supported",
            ParamType::AddIpAddr => "Add IP IP",
            ParamType::DelIpaddr => "Delete IP IP",
            ParamType::ErrClauseInd => "Error Cause Indication",
            ParamType::SetPriAddr => "Set Primary IP",
            ParamType::SuccessInd => "Success Indication",
            ParamType::AdaptLayerInd => "Adaptation Layer Indication",
            ParamType::Unknown { .. } => "Unknown ParamType",
        })
    }
}

/// Each number is a type, and that type has this number.
#[tactic(auto, using(crate::proofs::ParamTypes::number_of_type_from), unfolding(crate::specs::ParamType::type_from))]
impl From<u16> for ParamType {
    ghost from_gives = { λ n t. (t ≡ type_from n) × (type_number t ≡ n) };

    fn from(v: u16) -> ParamType {
        match v {
            1 => ParamType::HeartbeatInfo,
            5 => ParamType::Ipv4Addr,
            6 => ParamType::Ipv6Addr,
            7 => ParamType::StateCookie,
            8 => ParamType::UnrecognizedParam,
            9 => ParamType::CookiePreservative,
            11 => ParamType::HostNameAddr,
            12 => ParamType::SupportedAddrTypes,
            13 => ParamType::OutSsnResetReq,
            14 => ParamType::IncSsnResetReq,
            15 => ParamType::SsnTsnResetReq,
            16 => ParamType::ReconfigResp,
            17 => ParamType::AddOutStreamsReq,
            18 => ParamType::AddIncStreamsReq,
            32770 => ParamType::Random,
            32771 => ParamType::ChunkList,
            32772 => ParamType::ReqHmacAlgo,
            32773 => ParamType::Padding,
            32776 => ParamType::SupportedExt,
            49152 => ParamType::ForwardTsnSupp,
            49153 => ParamType::AddIpAddr,
            49154 => ParamType::DelIpaddr,
            49155 => ParamType::ErrClauseInd,
            49156 => ParamType::SetPriAddr,
            49157 => ParamType::SuccessInd,
            49158 => ParamType::AdaptLayerInd,
            _ => ParamType::Unknown { param_type: v },
        }
    }
}

/// The number of a type, of an `Unknown` one the number that it holds.
impl From<ParamType> for u16 {
    ghost from_gives = { λ t n. n ≡ type_number t };

    fn from(v: ParamType) -> u16 {
        match v {
            ParamType::HeartbeatInfo => 1,
            ParamType::Ipv4Addr => 5,
            ParamType::Ipv6Addr => 6,
            ParamType::StateCookie => 7,
            ParamType::UnrecognizedParam => 8,
            ParamType::CookiePreservative => 9,
            ParamType::HostNameAddr => 11,
            ParamType::SupportedAddrTypes => 12,
            ParamType::OutSsnResetReq => 13,
            ParamType::IncSsnResetReq => 14,
            ParamType::SsnTsnResetReq => 15,
            ParamType::ReconfigResp => 16,
            ParamType::AddOutStreamsReq => 17,
            ParamType::AddIncStreamsReq => 18,
            ParamType::Random => 32770,
            ParamType::ChunkList => 32771,
            ParamType::ReqHmacAlgo => 32772,
            ParamType::Padding => 32773,
            ParamType::SupportedExt => 32776,
            ParamType::ForwardTsnSupp => 49152,
            ParamType::AddIpAddr => 49153,
            ParamType::DelIpaddr => 49154,
            ParamType::ErrClauseInd => 49155,
            ParamType::SetPriAddr => 49156,
            ParamType::SuccessInd => 49157,
            ParamType::AdaptLayerInd => 49158,
            ParamType::Unknown { param_type } => param_type,
        }
    }
}
