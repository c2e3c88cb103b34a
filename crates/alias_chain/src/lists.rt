use crate::Endpoint;
use alt_base::ListOf;
use svcb_wire::Svcb;

/// The records of one name, in the order in which they were delivered.
pub type SvcbSet = ListOf<Svcb>;
/// Endpoints, the preferred ones first.
pub type Endpoints = ListOf<Endpoint>;
