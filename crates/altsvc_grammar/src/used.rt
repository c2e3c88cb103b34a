ghost use Rattle.std.specs.Prelude.{◌≡◌, ◌≤◌, ◌<◌, ◌^◌, ◌+◌, length, IfOk, IfSome, nat_eq};
ghost use Rattle.alt_base.specs.Answers.{Answers, IfRefused};
ghost use Rattle.origin_values.specs.HostReading.{read_host};
ghost use Rattle.origin_values.specs.OriginReading.{count_before, digits_before};
ghost use Rattle.altsvc_grammar.specs.UsedReading.{read_used, used_host_end, used_at_end, used_digits, after_used_host};
ghost use Rattle.altsvc_grammar.specs.UsedGrammar.{SpellsUsed, UsedRefusedAt};
ghost use Rattle.altsvc_grammar.specs.Written.{used_text};
ghost use Rattle.alt_base.specs.declared.refusal.Refused.TheVariants.{At as RefusedThere};

use crate::UsedRefusal;
use crate::authority::read_port;
use alt_base::{Bytes, ListOf, NoMemory, Refused};
use origin_values::{Host, bracket_end, digits_before};
use std::alloc::Global;

/// The port where none is written.
const DEFAULT_PORT: u16 = 443;

/// The host and the port of an Alt-Used field (RFC 7838 5), which is the whole input: a host, and maybe a colon and 1
/// to 5 digits of a value from 1 to 65535. Without them the port is 443. A host that begins with `[` goes up to the
/// first `]`, and any other up to the first colon.
///
/// The refusals, in the order in which they are tried: `BadHost` at 0; `BadPort` at the byte behind the colon where no
/// port stands there; `Trailing` at the first byte left.
pub fn parse_alt_used(alloc: Global, input: &[u8]) -> Result<(Host, u16), Refused<UsedRefusal>>
    requires { length input.now < 2 ^ 32 }
    ensures reading { Answers result (read_used input.now) }
    ensures ok { IfOk result (λ used. SpellsUsed input.now used) }
    ensures refused { IfRefused result (λ place reason. UsedRefusedAt input.now place reason) }
{
    read_used(alloc, input)
}

fn read_used(alloc: Global, input: &[u8]) -> Result<(Host, u16), Refused<UsedRefusal>>
    requires { length input.now < 2 ^ 32 }
    ensures { Answers result (read_used input.now) }
{
    let end = match host_end(input) {
        Some(end) => end,
        None => return Err(refused(0, UsedRefusal::BadHost)),
    };
    match read_host(alloc, &input[..end])? {
        Some(host) => after_host(host, end as u32, &input[end..]),
        None => Err(refused(0, UsedRefusal::BadHost)),
    }
}

fn refused(place: u32, reason: UsedRefusal) -> Refused<UsedRefusal>
    ensures { result ≡ RefusedThere place reason }
{
    Refused::At { place, reason }
}

// The host that a text spells, if it spells one.
fn read_host(alloc: Global, text: &[u8]) -> Result<Option<Host>, NoMemory>
    ensures { IfOk result (λ host. host ≡ read_host text.now) }
{
    match Host::parse(alloc, text) {
        Ok(host) => Ok(Some(host)),
        Err(Refused::NoMemory) => Err(NoMemory),
        Err(Refused::At { .. }) => Ok(None),
    }
}

// How many bytes of the host stand in front; None where its brackets aren't closed.
fn host_end(text: &[u8]) -> Option<usize>
    ensures value { result ≡ used_host_end text.now }
    ensures within { IfSome result (λ end. end ≤ length text.now) }
{
    match text {
        [b'[', rest @ ..] => match bracket_end(rest) {
            Some(end) => Some(end + 1),
            None => None,
        },
        _ => Some(plain_end(text)),
    }
}

// The number of bytes before the first colon.
fn plain_end(text: &[u8]) -> usize
    ensures value { result ≡ count_before (λ c. nat_eq c 58) text.now }
    ensures within { result ≤ length text.now }
{
    for (i, b) in text.iter().enumerate() {
        if *b == b':' {
            return i;
        }
    }
    text.len()
}

// What follows the host, which ends at this place.
fn after_host(host: Host, place: u32, rest: &[u8]) -> Result<(Host, u16), Refused<UsedRefusal>>
    requires { place + length rest.now < 2 ^ 32 }
    ensures { Answers result (after_used_host host place rest.now) }
{
    match rest {
        [] => Ok((host, DEFAULT_PORT)),
        [b':', text @ ..] => after_colon(host, place + 1, text),
        _ => Err(refused(place, UsedRefusal::Trailing)),
    }
}

// What follows the colon, which ends at this place.
fn after_colon(host: Host, place: u32, text: &[u8]) -> Result<(Host, u16), Refused<UsedRefusal>>
    requires { place + length text.now < 2 ^ 32 }
    ensures { Answers result (used_digits host place (digits_before text.now) text.now) }
{
    let count = digits_before(text);
    match read_port(&text[..count]) {
        Some(port) => at_end(host, port, place + count as u32, &text[count..]),
        None => Err(refused(place, UsedRefusal::BadPort)),
    }
}

// The host and the port, where nothing is left at this place.
fn at_end(
    host: Host,
    port: u16,
    place: u32,
    rest: &[u8],
) -> Result<(Host, u16), Refused<UsedRefusal>>
    ensures { Answers result (used_at_end host port place rest.now) }
{
    if rest.is_empty() {
        Ok((host, port))
    } else {
        Err(refused(place, UsedRefusal::Trailing))
    }
}

/// The text of an Alt-Used field (RFC 7838 5): the host, and a colon and the port where it isn't 443.
pub fn write_alt_used(alloc: Global, host: &Host, port: u16) -> Result<Bytes, NoMemory>
    ensures { IfOk result (λ text. text ≡ used_text host.now port) }
{
    let mut text = host.write(alloc)?.into_vec();
    if port != DEFAULT_PORT {
        text.extend_from_slice(b":")?;
        text.extend_from_slice(port.to_string(alloc)?.as_bytes())?;
    }
    Ok(ListOf::from_vec(text))
}
