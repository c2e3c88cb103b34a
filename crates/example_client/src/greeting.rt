//! What a server says when a connection opens.
ghost use Rattle.std.specs.Prelude.{List, IfOk, OnOk};
ghost use Rattle.origin_values.specs.Valid.{IsOrigin};
ghost use Rattle.altsvc_grammar.specs.Valid.{AreListed};
ghost use Rattle.advertiser_core.specs.Acts.{Act};
ghost use Rattle.advertiser_core.specs.StandsFor.{StandsFor};

use crate::fault::Fault;
use crate::site::Site;
use crate::texts::origin;
use advertiser_core::Advertiser;
use alt_base::{Bytes, ListOf};
use altsvc_grammar::{AltSvc, Alts, parse, spelled_values_are_valid};
use h2_framing::write_frame;
use origin_values::Origin;
use std::alloc::Global;

/// An advertiser that serves the origins of these texts.
pub(crate) fn serving(alloc: Global, texts: &[&[u8]]) -> Result<Advertiser, Fault>
    ensures { IfOk result (λ made. (acts : List Act) × StandsFor made acts) }
{
    let mut advertiser = Advertiser::new(alloc);
    for text in texts {
        advertiser.serve(origin(alloc, *text)?)?;
    }
    Ok(advertiser)
}

/// It doesn't serve the origins of these texts any more.
pub(crate) fn give_up(
    alloc: Global,
    advertiser: &mut Advertiser,
    texts: &[&[u8]],
) -> Result<(), Fault> {
    for text in texts {
        advertiser.unserve(&origin(alloc, *text)?)?;
    }
    Ok(())
}

/// What a server sends first: the octets of its site, an ORIGIN frame (RFC 8336) and an ALTSVC frame (RFC 7838 4).
pub(crate) fn greeting(
    alloc: Global,
    advertiser: &mut Advertiser,
    site: &Site,
) -> Result<Bytes, Fault>
    requires { (acts : List Act) × StandsFor advertiser.old acts }
{
    let mut octets = Vec::from_slice(alloc, site.first)?;
    if site.announces {
        octets.extend_from_slice(announced(alloc, advertiser)?.as_slice())?;
    }
    if let (Some(text), false) = (site.serves.first(), site.offers.is_empty()) {
        let origin = origin(alloc, *text)?;
        let frame = offered(alloc, advertiser, &origin, site.offers)?;
        octets.extend_from_slice(frame.as_slice())?;
    }
    Ok(ListOf::from_vec(octets))
}

// The octets of an ORIGIN frame.
fn announced(alloc: Global, advertiser: &mut Advertiser) -> Result<Bytes, Fault>
    requires { (acts : List Act) × StandsFor advertiser.old acts }
    ensures { OnOk result ((acts : List Act) × StandsFor advertiser.new acts) }
{
    let number = advertiser.announce()?;
    octets(alloc, advertiser, number)
}

// The octets of an ALTSVC frame that brings the alternatives of a text for an origin.
fn offered(
    alloc: Global,
    advertiser: &mut Advertiser,
    origin: &Origin,
    text: &[u8],
) -> Result<Bytes, Fault>
    requires origin { IsOrigin origin.now }
    requires stands { (acts : List Act) × StandsFor advertiser.old acts }
{
    let number = advertiser.offer(origin, &alternatives(alloc, text)?)?;
    octets(alloc, advertiser, number)
}

// The octets of the message of a number.
fn octets(alloc: Global, advertiser: &Advertiser, number: u32) -> Result<Bytes, Fault>
    requires { (acts : List Act) × StandsFor advertiser.now acts }
{
    match advertiser.message(number) {
        None => Err(Fault::BadScene),
        Some((head, payload)) => Ok(write_frame(alloc, head, payload)?),
    }
}

// The alternatives of a text.
fn alternatives(alloc: Global, text: &[u8]) -> Result<Alts, Fault>
    ensures { IfOk result (λ alts. AreListed alts) }
{
    spelled_values_are_valid();
    match parse(alloc, text)? {
        AltSvc::List(alts) => Ok(alts),
        AltSvc::Clear => Err(Fault::BadScene),
    }
}
