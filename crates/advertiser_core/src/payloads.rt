ghost use Rattle.std.specs.Prelude.{◌≡◌, ◌≤◌, length, IfOk};
ghost use Rattle.origin_values.specs.Valid.{IsOrigin};
ghost use Rattle.origin_frame.specs.PayloadWritten.{payload_of as origins_payload, frame_limit, IfOver};
ghost use Rattle.advertiser_core.specs.Messages.{value_payload};
ghost use Rattle.advertiser_core.specs.Refusals.{IsOver};

use alt_base::{Bytes, Duplicate, NoMemory};
use altsvc_frame::AltFrame;
use altsvc_grammar::AltSvc;
use origin_frame::{Origins, OverFault};
use origin_values::Origin;
use std::alloc::Global;

/// The most octets of a frame's payload (RFC 9113 4.2).
const FRAME_LIMIT: usize = 16_384;

// The payload of the ORIGIN frame that lists these origins.
pub(crate) fn origins_payload(alloc: Global, origins: &[Origin]) -> Result<Bytes, OverFault>
    ensures ok { IfOk result (λ octets. octets ≡ origins_payload origins.now) }
    ensures within { IfOk result (λ octets. length octets ≤ frame_limit) }
    ensures over { IfOver result (λ n. IsOver (origins_payload origins.now) n) }
{
    let origins = listed(alloc, origins)?;
    origin_frame::write(alloc, &origins)
}

// The payload of the ALTSVC frame on stream 0 that says an origin's value.
pub(crate) fn value_payload(
    alloc: Global,
    origin: &Origin,
    value: AltSvc,
) -> Result<Bytes, OverFault>
    requires { IsOrigin origin.now }
    ensures ok { IfOk result (λ octets. octets ≡ value_payload origin.now value) }
    ensures within { IfOk result (λ octets. length octets ≤ frame_limit) }
    ensures over { IfOver result (λ n. IsOver (value_payload origin.now value) n) }
{
    let frame = AltFrame {
        origin: Some(origin.copy(alloc)?),
        value,
    };
    let octets = altsvc_frame::write(alloc, &frame)?;
    if octets.len() > FRAME_LIMIT {
        return Err(OverFault::OverFrame {
            length: octets.len() as u64,
        });
    }
    Ok(octets)
}

// A twin of each origin, in order.
fn listed(alloc: Global, origins: &[Origin]) -> Result<Origins, NoMemory>
    ensures { IfOk result (λ twins. twins ≡ origins.now) }
{
    let mut twins = Vec::new(alloc);
    for origin in origins {
        twins.push(origin.copy(alloc)?)?;
    }
    Ok(Origins::from_vec(twins))
}
