ghost use Rattle.std.specs.Prelude.{◌≡◌, ◌≤◌, ◌<◌, ◌+◌, ◌^◌, length, drop, IfOk};
ghost use Rattle.alt_base.specs.Answers.{Answers, IfRefused};
ghost use Rattle.svcb_wire.specs.Records.{IsRecord};
ghost use Rattle.svcb_wire.specs.RecordGrammar.{SpellsRecord, RecordRefusedAt};
ghost use Rattle.svcb_wire.specs.RecordReading.{first_param, read_params, read_target, read_record};

use crate::values::read_value;
use crate::{Param, Params, Svcb, WireRefusal, param_key};
use alt_base::{ListOf, NoMemory, Refused};
use byteorder::{BigEndian, ByteOrder};
use dns_names::Name;
use std::alloc::Global;

// The parameter at the front of some octets, which begin at a place, and how many octets it takes. Its key isn't below
// the least one.
fn first_param(
    alloc: Global,
    rest: &[u8],
    place: u32,
    least: u32,
) -> Result<(Param, usize), Refused<WireRefusal>>
    requires { place + length rest.now < 2 ^ 32 }
    ensures reading { Answers result (first_param place least rest.now) }
    ensures within { IfOk result (λ found. found.1 ≤ length rest.now) }
    ensures some { IfOk result (λ found. 4 ≤ found.1) }
{
    if rest.len() < 4 {
        return Err(Refused::At {
            place: place + rest.len() as u32,
            reason: WireRefusal::Short,
        });
    }
    let key = BigEndian::read_u16(rest);
    let size = BigEndian::read_u16(&rest[2..]) as usize;
    let tail = &rest[4..];
    if (key as u32) < least {
        return Err(Refused::At {
            place,
            reason: WireRefusal::KeyOrder,
        });
    }
    if tail.len() < size {
        return Err(Refused::At {
            place,
            reason: WireRefusal::ParamPast,
        });
    }
    match read_value(alloc, key, &tail[..size])? {
        Some(param) => Ok((param, 4 + size)),
        None => Err(Refused::At {
            place: place + 4,
            reason: WireRefusal::BadValue { key },
        }),
    }
}

// The parameters from a place on, to the end of the octets.
fn read_params(alloc: Global, octets: &[u8], place: u32) -> Result<Params, Refused<WireRefusal>>
    requires { place + length octets.now < 2 ^ 32 }
    ensures { Answers result (read_params place octets.now) }
{
    let mut params = ListOf::new(alloc);
    let mut least = 0;
    let mut at = place;
    let mut rest = octets;
    while !rest.is_empty() {
        let (param, size) = first_param(alloc, rest, at, least)?;
        least = param_key(&param) as u32 + 1;
        params.push(param)?;
        at += size as u32;
        rest = &rest[size..];
    }
    Ok(params)
}

// The target behind the priority, and the place after it.
fn read_target(alloc: Global, rdata: &[u8]) -> Result<(Name, u32), Refused<WireRefusal>>
    requires headed { 2 ≤ length rdata.now }
    requires small { length rdata.now < 2 ^ 32 }
    ensures reading { Answers result (read_target rdata.now) }
    ensures within { IfOk result (λ found. found.1 ≤ length rdata.now) }
{
    match Name::from_wire(alloc, rdata, 2) {
        Ok(found) => Ok(found),
        Err(Refused::NoMemory) => Err(Refused::NoMemory),
        Err(Refused::At { place, .. }) => Err(Refused::At {
            place,
            reason: WireRefusal::BadTarget,
        }),
    }
}

// The record that the octets give.
fn read(alloc: Global, rdata: &[u8]) -> Result<Svcb, Refused<WireRefusal>>
    ensures { Answers result (read_record rdata.now) }
{
    if rdata.len() > 65_535 {
        return Err(Refused::At {
            place: 65_535,
            reason: WireRefusal::TooLong,
        });
    }
    if rdata.len() < 2 {
        return Err(Refused::At {
            place: rdata.len() as u32,
            reason: WireRefusal::Short,
        });
    }
    let priority = BigEndian::read_u16(rdata);
    let (target, end) = read_target(alloc, rdata)?;
    let params = read_params(alloc, &rdata[end as usize..], end)?;
    Ok(Svcb {
        priority,
        target,
        params,
    })
}

/// The record of which some octets are the wire form (RFC 9460 2.2): a priority of 16 bits, the target without
/// compression, and parameters in strictly increasing keys, to the end. Places of refusals count from the front.
///
/// `TooLong` at 65,535 comes first. Then from left to right: `Short` at the length where no priority is there;
/// `BadTarget` where the name is refused; for one parameter `Short` at the length, `KeyOrder` and `ParamPast` at its key,
/// and `BadValue` at its value's first place, in that order. A priority of 0 changes nothing.
pub fn parse(alloc: Global, rdata: &[u8]) -> Result<Svcb, Refused<WireRefusal>>
    ensures reading { Answers result (read_record rdata.now) }
    ensures spelled { IfOk result (SpellsRecord rdata.now) }
    ensures refused { IfRefused result (RecordRefusedAt rdata.now) }
    ensures is_record { IfOk result IsRecord }
{
    read(alloc, rdata)
}
