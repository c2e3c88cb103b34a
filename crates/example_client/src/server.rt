ghost use Rattle.std.specs.Prelude.{◌≡◌, List, if◌then◌else◌};
ghost use Rattle.advertiser_core.specs.Acts.{Act};
ghost use Rattle.advertiser_core.specs.ServedList.{is_served};
ghost use Rattle.advertiser_core.specs.StandsFor.{StandsFor};

use crate::fault::Fault;
use crate::greeting::{give_up, greeting, serving};
use crate::site::Site;
use crate::texts::{bytes, names};
use advertiser_core::{Advertiser, Answer};
use alt_base::{Bytes, Duplicate};
use coalescing::CertNames;
use origin_values::{Addr, Host, Origin, Proto, Protos};
use std::alloc::Global;

/// A server of the network: where it is found, what TLS says of it, and what it sends.
#[derive(Drop)]
pub(crate) struct Server {
    pub host: Host,
    pub addr: Addr,
    pub port: u16,
    pub proto: Proto,
    pub names: CertNames,
    /// It knows which origins are served.
    pub advertiser: Advertiser,
    /// What it sends when a connection opens.
    pub greeting: Bytes,
    /// The Alt-Svc of its responses.
    pub altsvc: Option<Bytes>,
    /// Whether it ends the connection in place of an answer.
    pub ends: bool,
}

impl Server {
    /// The server of a site.
    pub(crate) fn new(alloc: Global, site: &Site) -> Result<Server, Fault> {
        let mut advertiser = serving(alloc, site.serves)?;
        let greeting = greeting(alloc, &mut advertiser, site)?;
        give_up(alloc, &mut advertiser, site.moved)?;
        let altsvc = if site.altsvc.is_empty() {
            None
        } else {
            Some(bytes(alloc, site.altsvc)?)
        };
        Ok(Server {
            host: Host::parse(alloc, site.host)?,
            addr: Addr::V4(site.addr),
            port: site.port,
            proto: site.proto,
            names: names(alloc, site.names)?,
            advertiser,
            greeting,
            altsvc,
            ends: site.ends,
        })
    }

    /// Whether an attempt to a host and a port with one of the protocols reaches it.
    pub(crate) fn is_reached(&self, host: &Host, port: u16, protos: Protos) -> bool {
        let is_spoken = match self.proto {
            Proto::H2 => protos.h2,
            Proto::H3 => protos.h3,
            Proto::Http11 => protos.http11,
            Proto::Other => false,
        };
        is_spoken && self.port == port && self.host == *host
    }

    /// The status of its answer to a request of an origin: 421 where it doesn't serve that (RFC 9110 15.5.20).
    pub(crate) fn status_for(&self, origin: &Origin) -> u16
        ensures { (acts : List Act) → StandsFor self.now.advertiser acts → result ≡ (if is_served acts origin.now then 200 else 421) }
    {
        match self.advertiser.ask(origin) {
            Answer::Serve => 200,
            Answer::Misdirected => 421,
        }
    }

    /// A twin of the Alt-Svc of its responses.
    pub(crate) fn altsvc(&self, alloc: Global) -> Result<Option<Bytes>, Fault> {
        match &self.altsvc {
            None => Ok(None),
            Some(value) => Ok(Some(value.copy(alloc)?)),
        }
    }
}
