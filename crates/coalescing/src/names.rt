ghost use Rattle.std.specs.Prelude.{◌≡◌, ◌<◌, ◌^◌, length, IfOk};
ghost use Rattle.alt_base.specs.Answers.{Answers, IfRefused};
ghost use Rattle.coalescing.specs.NamesGrammar.{SpellsNames, NamesRefusedAt};
ghost use Rattle.coalescing.specs.NamesWritten.{HaveText};
ghost use Rattle.coalescing.specs.NamesReading.{host_name, read_item, read_items, items_of, read_names};

use crate::{CertName, CertNames, CertRefusal};
use alt_base::{NoMemory, Refused, Text};
use origin_values::{Addr, Host};
use std::alloc::Global;

/// The names of a certificate that a text spells: `-` for none, or items joined by commas, each of which is a host's
/// name, `*.` and a host's name, or an address without brackets (RFC 9525 2). Letters are made lower case. `-` alone is
/// always none. `BadName` comes at the first byte of the first item that is none of these, which may be empty.
pub fn parse_names(alloc: Global, text: &[u8]) -> Result<CertNames, Refused<CertRefusal>>
    requires { length text.now < 2 ^ 32 }
    ensures reading { Answers result (read_names text.now) }
    ensures ok { IfOk result (λ names. SpellsNames text.now names) }
    ensures valid { IfOk result (λ names. HaveText names) }
    ensures refused { IfRefused result (λ place reason. NamesRefusedAt text.now place reason) }
{
    read_names(alloc, text)
}

// No names, or those of the items.
fn read_names(alloc: Global, text: &[u8]) -> Result<CertNames, Refused<CertRefusal>>
    requires { length text.now < 2 ^ 32 }
    ensures { Answers result (read_names text.now) }
{
    match text {
        [b'-'] => Ok(CertNames::new(alloc)),
        _ => read_items(alloc, text),
    }
}

// The names of the items between the commas.
fn read_items(alloc: Global, text: &[u8]) -> Result<CertNames, Refused<CertRefusal>>
    requires { length text.now < 2 ^ 32 }
    ensures { Answers result (read_items 0 (items_of text.now)) }
{
    let mut names = CertNames::new(alloc);
    let mut place = 0;
    for item in text.split(|b| *b == b',') {
        match read_item(alloc, item)? {
            Some(name) => names.push(name)?,
            None => {
                return Err(Refused::At {
                    place: place as u32,
                    reason: CertRefusal::BadName,
                });
            }
        }
        place += item.len() + 1;
    }
    Ok(names)
}

// The name that an item spells, if it spells one.
fn read_item(alloc: Global, item: &[u8]) -> Result<Option<CertName>, NoMemory>
    ensures { IfOk result (λ name. name ≡ read_item item.now) }
{
    match item {
        [b'*', b'.', behind @ ..] => Ok(host_name(alloc, behind)?.map(CertName::Wild)),
        _ => match Addr::parse(item) {
            Some(addr) => Ok(Some(CertName::Ip(addr))),
            None => Ok(host_name(alloc, item)?.map(CertName::Exact)),
        },
    }
}

// The name of a host, in lower case, if the text is one.
fn host_name(alloc: Global, text: &[u8]) -> Result<Option<Text>, NoMemory>
    ensures { IfOk result (λ name. name ≡ host_name text.now) }
{
    match Host::parse(alloc, text) {
        Ok(Host::Name(name)) => Ok(Some(name)),
        Ok(_) => Ok(None),
        Err(Refused::At { .. }) => Ok(None),
        Err(Refused::NoMemory) => Err(NoMemory),
    }
}
