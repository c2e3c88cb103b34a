ghost use Rattle.std.specs.Prelude.{◌≡◌, IfOk};
ghost use Rattle.std.specs.Result.{result_ok};
ghost use Rattle.dns_names.specs.TextReading.{read_text};
ghost use Rattle.alias_chain.specs.QueryName.{query_text};
ghost use Rattle.alias_chain.specs.Following.{query_for};

use alt_base::NoMemory;
use dns_names::Name;
use origin_values::{Host, Origin, Scheme};
use std::alloc::Global;

/// The name whose HTTPS records are asked for, where there is one (RFC 9460 2.3 and 9.1).
pub(crate) fn query_name(alloc: Global, origin: &Origin) -> Result<Option<Name>, NoMemory>
    ensures { IfOk result (λ name. name ≡ query_for origin.now.scheme origin.now.host origin.now.port) }
{
    match origin.scheme {
        Scheme::Http => Ok(None),
        Scheme::Https => match &origin.host {
            Host::Name(host) => name_of(alloc, host.as_slice(), origin.port),
            Host::V4(_) => Ok(None),
            Host::V6(_) => Ok(None),
        },
    }
}

// The name of a host's text and a port, where it isn't too long.
fn name_of(alloc: Global, host: &[u8], port: u16) -> Result<Option<Name>, NoMemory>
    ensures { IfOk result (λ name. name ≡ result_ok (read_text (query_text port host.now))) }
{
    let text = text_of(alloc, host, port)?;
    Name::spelled_by(alloc, text.as_slice())
}

fn text_of(alloc: Global, host: &[u8], port: u16) -> Result<Vec<u8>, NoMemory>
    ensures { IfOk result (λ text. text.items ≡ query_text port host.now) }
{
    let mut text = Vec::new(alloc);
    if port != 443 {
        text.extend_from_slice(b"_")?;
        text.extend_from_slice(port.to_string(alloc)?.as_bytes())?;
        text.extend_from_slice(b"._https.")?;
    }
    text.extend_from_slice(host)?;
    Ok(text)
}
