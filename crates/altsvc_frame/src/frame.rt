use alt_base::{Duplicate, NoMemory};
use altsvc_grammar::AltSvc;
use origin_values::Origin;
use std::alloc::Global;

/// What an ALTSVC frame says (RFC 7838 4): the origin whose alternatives it brings, which is there exactly where the
/// frame's stream is 0, and the value of an Alt-Svc field. On another stream the origin is that of the stream's request.
#[derive(Debug, PartialEq, Eq, Hash, Drop)]
pub struct AltFrame {
    pub origin: Option<Origin>,
    pub value: AltSvc,
}

impl Duplicate for AltFrame {
    fn copy(&self, alloc: Global) -> Result<Self, NoMemory> {
        let origin = match &self.origin {
            Some(origin) => Some(origin.copy(alloc)?),
            None => None,
        };
        Ok(AltFrame {
            origin,
            value: self.value.copy(alloc)?,
        })
    }
}
