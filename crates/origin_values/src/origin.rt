ghost use Rattle.std.specs.Prelude.{◌≡◌, ◌++◌, ◌+◌, ◌<◌, ◌≤◌, ◌^◌, length, IfOk, OnOk};
ghost use Rattle.std.specs.Bool.{OnTrue};
ghost use Rattle.origin_values.specs.Equality.{origin_eq};
ghost use Rattle.alt_base.specs.Answers.{Answers, IfRefused};
ghost use Rattle.origin_values.specs.AsciiOrigin.{SpellsAscii};
ghost use Rattle.origin_values.specs.AsciiReading.{ascii_origin};
ghost use Rattle.origin_values.specs.OriginGrammar.{SpellsOrigin, OriginRefusedAt};
ghost use Rattle.origin_values.specs.Valid.{IsOrigin};
ghost use Rattle.origin_values.specs.declared.refusal.AsciiFault.{AsciiFault};
ghost use Rattle.origin_values.specs.declared.origin.Origin.{Origin};
ghost use Rattle.origin_values.specs.OriginReading.{begins, at_end, digits_before, read_digits, read_port, read_rest, read_origin};
ghost use Rattle.alt_base.specs.declared.refusal.Refused.TheVariants.{At as RefusedThere};
ghost use Rattle.origin_values.specs.Written.{scheme_text, port_text, origin_text};

use crate::port::{digits_before, port_of};
use crate::run::{host_end, is_all_ascii, read_run};
use crate::{AsciiFault, Host, OriginRefusal, Scheme, default_port};
use alt_base::{Duplicate, ListOf, NoMemory, Refused, Text};
use std::alloc::Global;

/// An origin (RFC 6454 4): a scheme, a host and a port, from 1 to 65535.
#[derive(Debug, PartialEq, Eq, Hash, Drop)]
pub struct Origin {
    pub scheme: Scheme,
    pub host: Host,
    pub port: u16,
}

impl Duplicate for Origin {
    fn copy(&self, alloc: Global) -> Result<Self, NoMemory> {
        Ok(Origin {
            scheme: self.scheme,
            host: self.host.copy(alloc)?,
            port: self.port,
        })
    }
}

impl Origin {
    /// The origin that a text spells: `http://` or `https://` in any case of letters, a host, and maybe a colon and
    /// digits (RFC 6454 4, RFC 3986 3.2). Without digits the port is the scheme's default; leading zeros don't matter.
    /// A host with a byte above 7F is mapped first, by ToASCII of UTS 46 with the deny list of URLs, and what that gives
    /// may hold no `_`; a host of ASCII bytes isn't mapped.
    ///
    /// Refused, in this order: `BadScheme` at 0, `BadHost` at the first byte after `://`, `BadPort` at the first byte
    /// after the colon where the digits' value is 0 or above 65535, and `Trailing` at the first byte left.
    pub fn parse(alloc: Global, text: &[u8]) -> Result<Origin, Refused<OriginRefusal>>
        requires { length text.now < 2 ^ 32 }
        ensures reading { Answers result (read_origin text.now) }
        ensures ok { IfOk result (λ origin. SpellsOrigin text.now origin) }
        ensures valid { IfOk result (λ origin. IsOrigin origin) }
        ensures refused { IfRefused result (λ place reason. OriginRefusedAt text.now place reason) }
    {
        read_origin(alloc, text)
    }

    /// The origin whose ASCII text this is: the one text that it is written as (RFC 6454 6.2). `NotAscii` comes where
    /// no origin is written so.
    pub fn parse_ascii(alloc: Global, text: &[u8]) -> Result<Origin, AsciiFault>
        requires { length text.now < 2 ^ 32 }
        ensures ok { IfOk result (λ origin. SpellsAscii text.now origin) }
        ensures not_ascii { result ≡ Err AsciiFault.NotAscii → (origin : Origin) → ¬ (SpellsAscii text.now origin) }
    {
        if !is_all_ascii(text) {
            return Err(AsciiFault::NotAscii);
        }
        let origin = match read_origin(alloc, text) {
            Ok(origin) => origin,
            Err(Refused::NoMemory) => return Err(AsciiFault::NoMemory),
            Err(Refused::At { .. }) => return Err(AsciiFault::NotAscii),
        };
        if origin.write(alloc)?.as_slice() == text {
            Ok(origin)
        } else {
            Err(AsciiFault::NotAscii)
        }
    }

    /// The text of the origin (RFC 6454 6.2): the scheme, `://`, the host, and a colon and the port where it isn't the
    /// scheme's default.
    pub fn write(&self, alloc: Global) -> Result<Text, NoMemory>
        ensures { IfOk result (λ text. text ≡ origin_text self.now) }
    {
        let mut text = Vec::new(alloc);
        append_scheme(&mut text, self.scheme)?;
        text.extend_from_slice(self.host.write(alloc)?.as_slice())?;
        append_port(&mut text, alloc, self.scheme, self.port)?;
        Ok(ListOf::from_vec(text))
    }
}

/// The origin whose ASCII text this is, and None exactly where no origin is written so (RFC 6454 6.2): what an entry of a
/// frame's payload names, if it names one.
pub fn ascii_origin(alloc: Global, text: &[u8]) -> Result<Option<Origin>, NoMemory>
    requires { length text.now < 2 ^ 32 }
    ensures { IfOk result (λ origin. origin ≡ ascii_origin text.now) }
{
    match Origin::parse_ascii(alloc, text) {
        Ok(origin) => Ok(Some(origin)),
        Err(AsciiFault::NotAscii) => Ok(None),
        Err(AsciiFault::NoMemory) => Err(NoMemory),
    }
}

// The origin that a text spells.
#[tactic(auto, unfolding(crate::specs::OriginReading::read_origin))]
fn read_origin(alloc: Global, text: &[u8]) -> Result<Origin, Refused<OriginRefusal>>
    requires { length text.now < 2 ^ 32 }
    ensures { Answers result (read_origin text.now) }
{
    if begins(b"http://", text) {
        read_rest(alloc, Scheme::Http, 7, &text[7..])
    } else if begins(b"https://", text) {
        read_rest(alloc, Scheme::Https, 8, &text[8..])
    } else {
        Err(refused(0, OriginRefusal::BadScheme))
    }
}

fn refused(place: u32, reason: OriginRefusal) -> Refused<OriginRefusal>
    ensures { result ≡ RefusedThere place reason }
{
    Refused::At { place, reason }
}

// Whether a text begins with these letters, in any case.
fn begins(letters: &[u8], text: &[u8]) -> bool
    ensures value { result ≡ begins letters.now text.now }
    ensures within { OnTrue result (length letters.now ≤ length text.now) }
{
    match letters {
        [] => true,
        [letter, letters @ ..] => match text {
            [] => false,
            [b, text @ ..] => b.to_ascii_lowercase() == *letter && begins(letters, text),
        },
    }
}

// Reads what follows the scheme, which stands at this place.
fn read_rest(
    alloc: Global,
    scheme: Scheme,
    place: u32,
    rest: &[u8],
) -> Result<Origin, Refused<OriginRefusal>>
    requires { place + length rest.now < 2 ^ 32 }
    ensures { Answers result (read_rest scheme place rest.now) }
{
    let end = match host_end(rest) {
        Some(end) => end,
        None => return Err(refused(place, OriginRefusal::BadHost)),
    };
    match read_run(alloc, &rest[..end])? {
        Some(host) => read_port(scheme, host, place + end as u32, &rest[end..]),
        None => Err(refused(place, OriginRefusal::BadHost)),
    }
}

// Reads what follows the host, which stands at this place.
fn read_port(
    scheme: Scheme,
    host: Host,
    place: u32,
    rest: &[u8],
) -> Result<Origin, Refused<OriginRefusal>>
    requires { place + length rest.now < 2 ^ 32 }
    ensures { Answers result (read_port scheme host place rest.now) }
{
    match rest {
        [] => Ok(Origin {
            scheme,
            host,
            port: default_port(scheme),
        }),
        [b':', digits @ ..] => read_digits(scheme, host, place + 1, digits),
        _ => Err(refused(place, OriginRefusal::Trailing)),
    }
}

// Reads what follows the colon, which stands at this place.
fn read_digits(
    scheme: Scheme,
    host: Host,
    place: u32,
    rest: &[u8],
) -> Result<Origin, Refused<OriginRefusal>>
    requires { place + length rest.now < 2 ^ 32 }
    ensures { Answers result (read_digits scheme host place (digits_before rest.now) rest.now) }
{
    let count = digits_before(rest);
    if count == 0 {
        return at_end(scheme, host, default_port(scheme), place, rest);
    }
    match port_of(&rest[..count]) {
        Some(port) => at_end(scheme, host, port, place + count as u32, &rest[count..]),
        None => Err(refused(place, OriginRefusal::BadPort)),
    }
}

// The origin, where nothing is left at this place.
fn at_end(
    scheme: Scheme,
    host: Host,
    port: u16,
    place: u32,
    rest: &[u8],
) -> Result<Origin, Refused<OriginRefusal>>
    ensures { Answers result (at_end (record { scheme = scheme; host = host; port = port }) place rest.now) }
{
    if rest.is_empty() {
        Ok(Origin { scheme, host, port })
    } else {
        Err(refused(place, OriginRefusal::Trailing))
    }
}

fn append_scheme(text: &mut Vec<u8>, scheme: Scheme) -> Result<(), NoMemory>
    ensures { OnOk result (text.new.items ≡ text.old.items ++ scheme_text scheme) }
{
    match scheme {
        Scheme::Http => text.extend_from_slice(b"http://")?,
        Scheme::Https => text.extend_from_slice(b"https://")?,
    }
    Ok(())
}

fn append_port(text: &mut Vec<u8>, alloc: Global, scheme: Scheme, port: u16) -> Result<(), NoMemory>
    ensures { OnOk result (text.new.items ≡ text.old.items ++ port_text scheme port) }
{
    if port != default_port(scheme) {
        text.extend_from_slice(b":")?;
        text.extend_from_slice(port.to_string(alloc)?.as_bytes())?;
    }
    Ok(())
}

/// Whether two origins are one. It takes no memory.
pub fn same_origin(a: &Origin, b: &Origin) -> bool
    ensures { result ≡ origin_eq a.now b.now }
{
    a == b
}
