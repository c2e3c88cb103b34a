//! Hosts, addresses and origins: their values, when two are one, and their texts.
#![tactic(auto)]

mod address;
mod host;
mod laws;
mod name;
mod origin;
mod port;
mod proto;
mod protos;
mod refusal;
mod run;
mod scheme;
#[cfg(test)]
mod tests;

pub use address::{Addr, same_address};
pub use host::{Host, same_host};
pub use laws::{
    addresses_are_read, ascii_origins_are_read, hosts_are_read, longest_run_of_zeros_is_shortened,
    one_ascii_origin, one_host, one_origin, one_value_where_equal, origins_are_read,
    written_addresses_are_read_back, written_hosts_are_read_back, written_origins_are_read_back,
};
pub use origin::{Origin, ascii_origin, same_origin};
pub use port::{digits_before, read_port_digits};
pub use proto::{Proto, same_proto};
pub use protos::Protos;
pub use refusal::{AsciiFault, HostRefusal, OriginRefusal};
pub use run::bracket_end;
pub use scheme::{Scheme, default_port};
