//! What every layer shares, under one name: refusals (`error`), compares, byte sources, checksums (`util`), parameters (`param`).
#![tactic(auto)]

pub use sctp_params::{
    HmacAlgorithm, Param, ParamChunkList, ParamForwardTsnSupported, ParamHeader,
    ParamHeartbeatInfo, ParamKind, ParamOutgoingResetRequest, ParamRandom, ParamReconfigResponse,
    ParamRequestedHmacAlgorithm, ParamStateCookie, ParamSupportedAddressTypes,
    ParamSupportedExtensions, ParamType, ParamUnknown, ReconfigResult, build_param, param,
};
pub use sctp_util::{
    AssociationId, AssociationIdGenerator, ByteSlice, BytesArray, BytesSource, Checksum, ChunkType,
    Error, Result, error, field, util,
};
