ghost use Rattle.std.specs.Prelude.{◌≡◌, ◌<◌, ◌≤◌, ◌^◌, ◌++◌, length, IfOk, OnOk};
ghost use Rattle.origin_values.specs.Written.{origin_text};
ghost use Rattle.origin_frame.specs.PayloadWritten.{entry_octets, payload_of, IfOver, capped, frame_limit};

use crate::{Origins, OverFault};
use alt_base::{Bytes, NoMemory};
use origin_values::Origin;
use std::alloc::Global;

/// The most octets of a frame's payload (RFC 9113 4.2).
const FRAME_LIMIT: u64 = 16_384;

/// The payload of an ORIGIN frame that lists these origins, each as its ASCII text (RFC 8336 2.1, RFC 6454 6.2).
/// `OverFrame` comes where it would have more than 16,384 octets.
pub fn write(alloc: Global, origins: &Origins) -> Result<Bytes, OverFault>
    ensures ok { IfOk result (λ octets. octets ≡ payload_of origins.now) }
    ensures within { IfOk result (λ octets. length octets ≤ frame_limit) }
    ensures over { IfOver result (λ count. frame_limit < length (payload_of origins.now)) }
    ensures length { IfOver result (λ count. count ≡ capped (length (payload_of origins.now))) }
{
    let length = payload_length(alloc, origins.as_slice())?;
    if length > FRAME_LIMIT {
        return Err(OverFault::OverFrame { length });
    }
    Ok(Bytes::from_vec(payload(alloc, origins.as_slice())?))
}

// How many octets the payload has, up to the greatest number.
fn payload_length(alloc: Global, origins: &[Origin]) -> Result<u64, NoMemory>
    ensures { IfOk result (λ count. count ≡ capped (length (payload_of origins.now))) }
{
    let mut length = 0_u64;
    for origin in origins {
        let text = origin.write(alloc)?;
        length = length.saturating_add(2).saturating_add(text.len() as u64);
    }
    Ok(length)
}

fn payload(alloc: Global, origins: &[Origin]) -> Result<Vec<u8>, NoMemory>
    requires { length (payload_of origins.now) ≤ frame_limit }
    ensures { IfOk result (λ octets. octets.items ≡ payload_of origins.now) }
{
    let mut octets = Vec::new(alloc);
    for origin in origins {
        let text = origin.write(alloc)?;
        append_entry(&mut octets, text.as_slice())?;
    }
    Ok(octets)
}

fn append_entry(octets: &mut Vec<u8>, text: &[u8]) -> Result<(), NoMemory>
    requires { length text.now < 2 ^ 16 }
    ensures { OnOk result (octets.new.items ≡ octets.old.items ++ entry_octets text.now) }
{
    octets.push((text.len() / 256) as u8)?;
    octets.push((text.len() % 256) as u8)?;
    octets.extend_from_slice(text)?;
    Ok(())
}
