ghost use Rattle.std.specs.Prelude.{◌≡◌, ◌++◌, OnOk};
ghost use Rattle.event_lines.specs.EventTexts.{kind_of, answer_kind_text, item_text, items_text, answer_text};
ghost use Rattle.event_lines.specs.declared.answer_kind.AnswerKind.TheVariants.{Ipv4, Ipv6, Https};

use crate::pieces::{append, append_number};
use alt_base::{Bytes, NoMemory};
use dns_names::Name;
use origin_values::Addr;
use route_events::AnswerBody;
use std::alloc::Global;

// Appends an answer: its name, its kind, its TTL, and what it brings.
pub(crate) fn append_answer(
    line: &mut Vec<u8>,
    alloc: Global,
    name: &Name,
    ttl: u32,
    body: &AnswerBody,
) -> Result<(), NoMemory>
    ensures { OnOk result (line.new.items ≡ line.old.items ++ answer_text name.now ttl body.now) }
{
    append(line, b"answer ")?;
    append(line, name.to_text(alloc)?.as_slice())?;
    append(line, b" ")?;
    append(line, kind_text(body))?;
    append(line, b" ")?;
    append_number(line, alloc, u64::from(ttl))?;
    match body {
        AnswerBody::V4(addresses) => append_v4s(line, alloc, addresses.as_slice()),
        AnswerBody::V6(addresses) => append_v6s(line, alloc, addresses.as_slice()),
        AnswerBody::Https(rdatas) => append_rdatas(line, alloc, rdatas.as_slice()),
    }
}

// The name of an answer's kind.
fn kind_text(body: &AnswerBody) -> &'static [u8]
    ensures { result.now ≡ answer_kind_text (kind_of body.now) }
{
    match body {
        AnswerBody::V4(_) => b"a",
        AnswerBody::V6(_) => b"aaaa",
        AnswerBody::Https(_) => b"https",
    }
}

// Appends addresses of IPv4, each behind a space.
fn append_v4s(line: &mut Vec<u8>, alloc: Global, addresses: &[[u8; 4]]) -> Result<(), NoMemory>
    ensures { OnOk result (line.new.items ≡ line.old.items ++ items_text (item_text Ipv4) addresses.now) }
{
    for address in addresses {
        append(line, b" ")?;
        append(line, Addr::V4(*address).write(alloc)?.as_slice())?;
    }
    Ok(())
}

// Appends addresses of IPv6, each behind a space.
fn append_v6s(line: &mut Vec<u8>, alloc: Global, addresses: &[[u8; 16]]) -> Result<(), NoMemory>
    ensures { OnOk result (line.new.items ≡ line.old.items ++ items_text (item_text Ipv6) addresses.now) }
{
    for address in addresses {
        append(line, b" ")?;
        append(line, Addr::V6(*address).write(alloc)?.as_slice())?;
    }
    Ok(())
}

// Appends the octets of records in lower-case hex, each behind a space.
fn append_rdatas(line: &mut Vec<u8>, alloc: Global, rdatas: &[Bytes]) -> Result<(), NoMemory>
    ensures { OnOk result (line.new.items ≡ line.old.items ++ items_text (item_text Https) rdatas.now) }
{
    for rdata in rdatas {
        append(line, b" ")?;
        append(line, hex::encode(alloc, rdata.as_slice())?.as_bytes())?;
    }
    Ok(())
}
