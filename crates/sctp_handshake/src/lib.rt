//! How an association begins and ends, on plain values (RFC 9260 4, 5, 9): no queue, clock or packet.
#![tactic(auto)]

pub mod answer;
pub mod init_value;
pub mod laws;
pub mod machine;
pub mod offer;
pub mod state;
pub mod ticket;

pub use answer::{AbortCause, Answer, Reply, Told};
pub use init_value::{InitFault, Reported, Said};
pub use machine::{Agreed, ConnectError, Limits, Machine};
pub use offer::{Offer, OfferFault};
pub use state::{State, Timer};
pub use ticket::{TICKET_LENGTH, Ticket, TicketFault, TieTags};
