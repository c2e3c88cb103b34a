ghost use Rattle.std.specs.Prelude.{◌≡◌, IfOk, string_bytes};
ghost use Rattle.dns_names.specs.TextParts.{text_form};
ghost use Rattle.serde_json.specs.Data.{array};
ghost use Rattle.serde_json.specs.View.{view};
ghost use Rattle.svcb_wire.specs.Forms.{AreParams, HasForm};
ghost use Rattle.svcb_wire.specs.Records.{IsRecord};
ghost use Rattle.altroute_show.specs.RecordJson.{param_data, params_data, members_data, record_data, record_line};

use alt_base::{Bytes, ListOf, NoMemory};
use dns_names::Name;
use serde_json::{Value, json};
use std::alloc::Global;
use svcb_wire::{Param, Svcb, param_key, param_value};

// A parameter: its value in hex, and its key.
fn param_json(alloc: Global, param: &Param) -> Result<Value, NoMemory>
    requires { HasForm param.now }
    ensures { IfOk result (λ json. view json ≡ param_data param.now) }
{
    let octets = param_value(alloc, param)?;
    let text = hex::encode(alloc, octets.as_slice())?;
    Ok(json!(in alloc; {"hex": text, "key": param_key(param)})?)
}

// The parameters, in order.
fn params_json(alloc: Global, params: &[Param]) -> Result<Value, NoMemory>
    requires { AreParams 0 params.now }
    ensures { IfOk result (λ json. view json ≡ array (params_data params.now)) }
{
    let mut items = Vec::new(alloc);
    for param in params {
        items.push(param_json(alloc, param)?)?;
    }
    Ok(Value::from(items))
}

// The text of the target.
fn target_text(alloc: Global, name: &Name) -> Result<String, NoMemory>
    ensures { IfOk result (λ target. string_bytes target ≡ text_form name.now) }
{
    let text = name.to_text(alloc)?;
    let target = String::from_utf8_lossy(alloc, text.as_slice())?;
    Ok(target)
}

// The members, in the order of their keys.
fn members_json(
    alloc: Global,
    params: Value,
    priority: u16,
    target: String,
) -> Result<Value, NoMemory>
    ensures { IfOk result (λ json. view json ≡ members_data (view params) priority (string_bytes target)) }
{
    Ok(json!(in alloc; {"params": params, "priority": priority, "target": target})?)
}

// The whole record.
fn record_json(alloc: Global, value: &Svcb) -> Result<Value, NoMemory>
    requires { IsRecord value.now }
    ensures { IfOk result (λ json. view json ≡ record_data value.now) }
{
    let params = params_json(alloc, value.params.as_slice())?;
    let target = target_text(alloc, &value.target)?;
    members_json(alloc, params, value.priority, target)
}

/// A record as one line of JSON.
pub(crate) fn write_record(alloc: Global, value: &Svcb) -> Result<Bytes, NoMemory>
    requires { IsRecord value.now }
    ensures { IfOk result (λ line. line ≡ record_line value.now) }
{
    let text = record_json(alloc, value)?.to_string(alloc)?;
    let mut line = Vec::from_slice(alloc, text.as_bytes())?;
    line.push(b'\n')?;
    Ok(ListOf::from_vec(line))
}
