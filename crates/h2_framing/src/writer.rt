ghost use Rattle.std.specs.Prelude.{◌≡◌, ◌≤◌, ◌<◌, ◌^◌, length, IfOk};
ghost use Rattle.h2_framing.specs.Frames.{octets_of};

use crate::Head;
use alt_base::{Bytes, NoMemory};
use byteorder::{BigEndian, ByteOrder};
use std::alloc::Global;

/// The octets of a frame (RFC 9113 4.1): its head in nine octets with a reserved bit of 0, and its payload, which has
/// as many octets as the head says, at most 16,384.
pub fn write_frame(alloc: Global, head: &Head, payload: &[u8]) -> Result<Bytes, NoMemory>
    requires fits { length payload.now ≡ head.now.length }
    requires within { head.now.length ≤ 16384 }
    requires stream { head.now.stream < 2 ^ 31 }
    ensures { IfOk result (λ octets. octets ≡ octets_of head.now payload.now) }
{
    let mut front = [0_u8; 4];
    let mut octets = Vec::with_capacity(alloc, 9 + payload.len())?;
    BigEndian::write_u24(&mut front, head.length);
    octets.extend_from_slice(&front[..3])?;
    octets.push(head.kind)?;
    octets.push(head.flags)?;
    BigEndian::write_u32(&mut front, head.stream);
    octets.extend_from_slice(&front)?;
    octets.extend_from_slice(payload)?;
    Ok(Bytes::from_vec(octets))
}
