//! Two hosts: a sender, a receiver, and a network between them that loses, delays, repeats and reorders.
#![tactic(auto)]

pub mod amounts;
pub mod arrived;
pub mod delivering;
pub mod drained;
pub mod emptied;
pub mod ended;
pub mod forwarded;
pub mod in_order;
pub mod laws;
pub mod receiver_steps;
pub mod refusals;
pub mod resending;
pub mod returned;
pub mod room;
pub mod sacks;
pub mod sender_steps;
pub mod settled;
