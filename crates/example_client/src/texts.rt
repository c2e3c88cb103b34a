//! The texts of the scene.
ghost use Rattle.std.specs.Prelude.{IfOk};
ghost use Rattle.origin_values.specs.Valid.{IsOrigin};

use crate::fault::Fault;
use alt_base::{Bytes, ListOf};
use coalescing::{CertNames, parse_names};
use dns_names::Name;
use origin_values::{Host, Origin};
use std::alloc::Global;

/// The origin of a text of at most 300 bytes.
pub(crate) fn origin(alloc: Global, text: &[u8]) -> Result<Origin, Fault>
    ensures { IfOk result (λ origin. IsOrigin origin) }
{
    Ok(Origin::parse(alloc, &text[..text.len().min(300)])?)
}

/// The names of a certificate, by their text of at most 300 bytes.
pub(crate) fn names(alloc: Global, text: &[u8]) -> Result<CertNames, Fault> {
    Ok(parse_names(alloc, &text[..text.len().min(300)])?)
}

/// The name of DNS of a text of at most 300 bytes.
pub(crate) fn name(alloc: Global, text: &[u8]) -> Result<Name, Fault> {
    Ok(Name::from_text(alloc, &text[..text.len().min(300)])?)
}

/// The host that a name of DNS stands for: its text without the final dot.
pub(crate) fn host_of(alloc: Global, name: &Name) -> Result<Host, Fault> {
    let text = name.to_text(alloc)?;
    let length = text.len().saturating_sub(1);
    Ok(Host::parse(alloc, &text.as_slice()[..length])?)
}

/// The bytes of a text.
pub(crate) fn bytes(alloc: Global, text: &[u8]) -> Result<Bytes, Fault> {
    Ok(ListOf::from_vec(Vec::from_slice(alloc, text)?))
}
