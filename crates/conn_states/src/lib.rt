//! Connections whose state is in their type, and the tokens that they hand out: leave for one send, a send, and the end
//! of a connection.
#![tactic(auto)]

mod closed;
mod conn;
mod made;
mod origin_set;
mod permit;
mod sending;
mod sent;
#[cfg(test)]
mod tests;
mod view;

pub use closed::{Closed, Requests};
pub use conn::Conn;
pub use made::{Made, is_at};
pub use origin_set::Origins;
pub use permit::Permit;
pub use route_events::Reach;
pub use sending::send_where_authoritative;
pub use sent::Sent;
pub use view::{Gated, Plain, View};
