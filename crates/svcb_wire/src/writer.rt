ghost use Rattle.std.specs.Prelude.{◌≡◌, ◌≤◌, ◌<◌, ◌^◌, length, IfOk, ◌++◌};
ghost use Rattle.svcb_wire.specs.Octets.{param_octets, params_octets};
ghost use Rattle.svcb_wire.specs.Forms.{IsParam, AreParams};
ghost use Rattle.svcb_wire.specs.RecordReading.{read_record};
ghost use Rattle.svcb_wire.specs.Records.{IsRecord, record_octets};

use crate::value_writer::pair_of;
use crate::{Param, Svcb, param_key, param_value};
use alt_base::{Bytes, NoMemory};
use std::alloc::Global;

fn write_param(alloc: Global, param: &Param) -> Result<Vec<u8>, NoMemory>
    requires { IsParam param.now }
    ensures { IfOk result (λ octets. octets.items ≡ param_octets param.now) }
{
    let value = param_value(alloc, param)?;
    let mut octets = Vec::new(alloc);
    octets.extend_from_slice(&pair_of(param_key(param)))?;
    octets.extend_from_slice(&pair_of(value.len() as u16))?;
    octets.extend_from_slice(value.as_slice())?;
    Ok(octets)
}

fn write_params(alloc: Global, params: &[Param]) -> Result<Vec<u8>, NoMemory>
    requires { AreParams 0 params.now }
    ensures { IfOk result (λ octets. octets.items ≡ params_octets params.now) }
{
    let mut octets = Vec::new(alloc);
    for param in params {
        octets.extend_from_slice(&write_param(alloc, param)?)?;
    }
    Ok(octets)
}

/// The wire form of a record (RFC 9460 2.2): the priority, the target without compression, and the parameters, each a
/// key, a length and a value. The record's parameters stand in strictly increasing keys, each with a value of its key's
/// form. Where the octets are at most 65,535, [`parse`](crate::parse) gives the record back.
pub fn write(alloc: Global, value: &Svcb) -> Result<Bytes, NoMemory>
    requires { IsRecord value.now }
    ensures written { IfOk result (λ octets. octets ≡ record_octets value.now) }
    ensures read_back { IfOk result (λ octets. length octets ≤ 65535 → read_record octets ≡ Ok value.now) }
{
    let target = value.target.to_wire(alloc)?;
    let params = write_params(alloc, value.params.as_slice())?;
    let mut octets = Vec::new(alloc);
    octets.extend_from_slice(&pair_of(value.priority))?;
    octets.extend_from_slice(target.as_slice())?;
    octets.extend_from_slice(&params)?;
    Ok(Bytes::from_vec(octets))
}
