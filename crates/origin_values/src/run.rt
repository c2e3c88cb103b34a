ghost use Rattle.std.specs.Prelude.{◌≡◌, ◌≤◌, length, nat_eq, IfOk, IfSome};
ghost use Rattle.std.specs.List.{list_all, list_any};
ghost use Rattle.std.specs.Char.{is_ascii};
ghost use Rattle.origin_values.specs.OriginGrammar.{ends_host};
ghost use Rattle.origin_values.specs.OriginReading.{count_before, bracket_end, host_end, read_mapped, read_run};

use crate::Host;
use crate::host::read_host;
use alt_base::NoMemory;
use idna::{AsciiDenyList, Errors, domain_to_ascii_cow};
use std::alloc::Global;

// Whether a byte ends a host without brackets.
fn ends_host(b: u8) -> bool
    ensures { result ≡ ends_host b }
{
    b == b':' || b == b'/' || b == b'?' || b == b'#'
}

// The number of bytes of a host at the front of a text; None where its brackets aren't closed.
pub(crate) fn host_end(text: &[u8]) -> Option<usize>
    ensures value { result ≡ host_end text.now }
    ensures within { IfSome result (λ end. end ≤ length text.now) }
{
    match text {
        [b'[', rest @ ..] => match bracket_end(rest) {
            Some(end) => Some(end + 1),
            None => None,
        },
        _ => Some(plain_end(text)),
    }
}

/// The number of bytes up to and with the first `]`, which closes the brackets of an address (RFC 3986 3.2.2); None where
/// there is none.
pub fn bracket_end(text: &[u8]) -> Option<usize>
    ensures value { result ≡ bracket_end text.now }
    ensures within { IfSome result (λ end. end ≤ length text.now) }
{
    for (i, b) in text.iter().enumerate() {
        if *b == b']' {
            return Some(i + 1);
        }
    }
    None
}

// The number of bytes before the first that ends a host.
fn plain_end(text: &[u8]) -> usize
    ensures value { result ≡ count_before ends_host text.now }
    ensures within { result ≤ length text.now }
{
    for (i, b) in text.iter().enumerate() {
        if ends_host(*b) {
            return i;
        }
    }
    text.len()
}

// The host of a run of bytes: of ASCII bytes the host that they spell, of others what they are mapped to.
pub(crate) fn read_run(alloc: Global, run: &[u8]) -> Result<Option<Host>, NoMemory>
    ensures { IfOk result (λ host. host ≡ read_run run.now) }
{
    if is_all_ascii(run) {
        return read_host(alloc, run);
    }
    match domain_to_ascii_cow(alloc, run, AsciiDenyList::URL) {
        Ok(mapped) => read_mapped(alloc, mapped.as_str().as_bytes()),
        Err(Errors::Invalid) => Ok(None),
        Err(Errors::OutOfMemory) => Err(NoMemory),
    }
}

// The host of what a run of bytes was mapped to.
fn read_mapped(alloc: Global, mapped: &[u8]) -> Result<Option<Host>, NoMemory>
    ensures { IfOk result (λ host. host ≡ read_mapped (Some mapped.now)) }
{
    if has_underscore(mapped) {
        return Ok(None);
    }
    read_host(alloc, mapped)
}

pub(crate) fn is_all_ascii(run: &[u8]) -> bool
    ensures { result ≡ list_all is_ascii run.now }
{
    run.iter().all(|b| *b < 128)
}

fn has_underscore(text: &[u8]) -> bool
    ensures { result ≡ list_any (λ b. nat_eq b 95) text.now }
{
    text.iter().any(|b| *b == b'_')
}
