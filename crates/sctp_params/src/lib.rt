//! The parameters of a chunk: kinds, how they are read and written (RFC 4960 3.2.1, 6525, 4895, 5061).
#![tactic(auto)]

pub mod param;

pub use param::Param;
pub use param::param_chunk_list::ParamChunkList;
pub use param::param_forward_tsn_supported::ParamForwardTsnSupported;
pub use param::param_header::ParamHeader;
pub use param::param_heartbeat_info::ParamHeartbeatInfo;
pub use param::param_kind::{ParamKind, build_param};
pub use param::param_outgoing_reset_request::ParamOutgoingResetRequest;
pub use param::param_random::ParamRandom;
pub use param::param_reconfig_response::{ParamReconfigResponse, ReconfigResult};
pub use param::param_requested_hmac_algorithm::{HmacAlgorithm, ParamRequestedHmacAlgorithm};
pub use param::param_state_cookie::ParamStateCookie;
pub use param::param_supported_address_types::ParamSupportedAddressTypes;
pub use param::param_supported_extensions::ParamSupportedExtensions;
pub use param::param_type::ParamType;
pub use param::param_unknown::ParamUnknown;
