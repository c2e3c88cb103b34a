//! What the client keeps of attempts, requests and connections, and what it does for a request that waits.
//!
//! Each table is one value to every contract: `specs/AttemptTable`, `specs/RequestTable` and `specs/ConnectionTable` say
//! which. `specs/Choices` says what is done for a waiting request, by what the tables and a `Look` say, and
//! `specs/StepStates` what settling makes of a step's state. How a table is kept is its own matter.
#![tactic(auto)]

mod attempts;
mod authority;
mod basis;
mod carriers;
mod choice;
mod connection_changes;
mod connection_state;
mod connections;
mod lent;
mod open_connection;
mod origin_addresses;
mod outstanding;
mod requests;
mod settling;
mod step_state;
mod tables;
#[cfg(test)]
mod tests;
mod waiting;

pub use attempts::Attempts;
pub use authority::{gives, is_secure, is_success, reach, succeeds};
pub use carriers::is_carrier;
pub use choice::{Choice, choose};
pub use connections::Connections;
pub use lent::Lent;
pub use open_connection::OpenConnection;
pub use origin_addresses::OriginAddresses;
pub use outstanding::Outstanding;
pub use requests::Requests;
pub use settling::settle;
pub use step_state::StepState;
pub use tables::Tables;
pub use waiting::Waiting;
