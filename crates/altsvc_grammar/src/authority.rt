ghost use Rattle.std.specs.Prelude.{◌≡◌, ◌≤◌, ◌<◌, ◌^◌, ◌+◌, length, IfOk, IfSome};
ghost use Rattle.altsvc_grammar.specs.AuthorityReading.{last_colon, read_port, read_optional_host, read_authority};

use alt_base::{NoMemory, Refused};
use origin_values::{Host, read_port_digits};
use std::alloc::Global;

// The host, if there is one, and the port of an authority; None where the text is none.
pub(crate) fn read_authority(
    alloc: Global,
    text: &[u8],
) -> Result<Option<(Option<Host>, u16)>, NoMemory>
    ensures { IfOk result (λ authority. authority ≡ read_authority text.now) }
{
    let colon = match last_colon(text) {
        Some(colon) => colon,
        None => return Ok(None),
    };
    let port = match read_port(&text[colon + 1..]) {
        Some(port) => port,
        None => return Ok(None),
    };
    match read_optional_host(alloc, &text[..colon])? {
        Some(host) => Ok(Some((host, port))),
        None => Ok(None),
    }
}

// Where the last colon of a text stands.
fn last_colon(text: &[u8]) -> Option<usize>
    ensures value { result ≡ last_colon 0 None text.now }
    ensures within { IfSome result (λ colon. colon < length text.now) }
{
    let mut found = None;
    for (i, byte) in text.iter().enumerate() {
        if *byte == b':' {
            found = Some(i);
        }
    }
    found
}

// The port that 1 to 5 digits write, from 1 to 65535.
pub(crate) fn read_port(digits: &[u8]) -> Option<u16>
    ensures { result ≡ read_port digits.now }
{
    match read_port_digits(digits) {
        Some(port) if port > 0 => Some(port),
        _ => None,
    }
}

// The host of a text: none of an empty one. None where the text is no host's.
fn read_optional_host(alloc: Global, text: &[u8]) -> Result<Option<Option<Host>>, NoMemory>
    ensures { IfOk result (λ host. host ≡ read_optional_host text.now) }
{
    if text.is_empty() {
        return Ok(Some(None));
    }
    match Host::parse(alloc, text) {
        Ok(host) => Ok(Some(Some(host))),
        Err(Refused::NoMemory) => Err(NoMemory),
        Err(Refused::At { .. }) => Ok(None),
    }
}
