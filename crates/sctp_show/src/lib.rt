//! Shows the SCTP packets of a capture, or of lines of hex text.
#![tactic(auto)]

pub mod brief;
mod cause_text;
pub mod checksum;
pub mod choice;
pub mod chunk_text;
pub mod columns;
pub mod cut;
pub mod dcep;
pub mod fields;
pub mod filter;
pub mod follow;
pub mod mark;
pub mod names;
pub mod page;
pub mod rules;
pub mod run;
pub mod scene;
pub mod summary;
pub mod text;
pub mod time;
pub mod zero;
