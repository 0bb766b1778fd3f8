//! The kinds of chunk that data transfer speaks of (RFC 4960 3.3.1, 3.3.4; RFC 3758 3.2), and the codes of error causes.

pub mod chunk_forward_tsn;
pub mod chunk_payload_data;
pub mod chunk_selective_ack;
pub mod error_cause;
