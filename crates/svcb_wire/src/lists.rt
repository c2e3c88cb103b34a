use crate::Param;
use alt_base::{Bytes, ListOf};

/// Keys of parameters.
pub type Keys = ListOf<u16>;
/// Protocol ids (RFC 7301 6).
pub type Ids = ListOf<Bytes>;
/// IPv4 addresses.
pub type V4s = ListOf<[u8; 4]>;
/// IPv6 addresses.
pub type V6s = ListOf<[u8; 16]>;
/// Parameters of a record.
pub type Params = ListOf<Param>;
