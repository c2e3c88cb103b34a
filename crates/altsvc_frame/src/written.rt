ghost use Rattle.std.specs.Prelude.{◌≡◌, ◌<◌, ◌^◌, length, IfOk};
ghost use Rattle.altsvc_frame.specs.FrameWritten.{IsOptionalOrigin, optional_origin_text, parts_payload, payload_of};

use crate::AltFrame;
use alt_base::{Bytes, NoMemory, Text};
use origin_values::Origin;
use std::alloc::Global;

/// The payload of an ALTSVC frame (RFC 7838 4): the length of the origin's ASCII text in two octets, the text (RFC 6454
/// 6.2), and the canonical text of the value. Without an origin the length is 0.
#[tactic(auto, using(crate::proofs::OriginLengths::optional_origin_length))]
pub fn write(alloc: Global, frame: &AltFrame) -> Result<Bytes, NoMemory>
    requires origin { IsOptionalOrigin frame.now.origin }
    ensures { IfOk result (λ octets. octets ≡ payload_of frame.now) }
{
    let text = origin_text(alloc, &frame.origin)?;
    let field = altsvc_grammar::write(alloc, &frame.value)?;
    payload(alloc, text.as_slice(), field.as_slice())
}

// The ASCII text of an origin, or nothing.
fn origin_text(alloc: Global, origin: &Option<Origin>) -> Result<Text, NoMemory>
    ensures { IfOk result (λ text. text ≡ optional_origin_text origin.now) }
{
    match origin {
        Some(origin) => origin.write(alloc),
        None => Ok(Text::new(alloc)),
    }
}

fn payload(alloc: Global, text: &[u8], field: &[u8]) -> Result<Bytes, NoMemory>
    requires { length text.now < 2 ^ 16 }
    ensures { IfOk result (λ octets. octets ≡ parts_payload text.now field.now) }
{
    let mut octets = Vec::new(alloc);
    octets.push((text.len() / 256) as u8)?;
    octets.push((text.len() % 256) as u8)?;
    octets.extend_from_slice(text)?;
    octets.extend_from_slice(field)?;
    Ok(Bytes::from_vec(octets))
}
