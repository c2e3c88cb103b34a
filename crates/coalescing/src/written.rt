ghost use Rattle.std.specs.Prelude.{◌≡◌, ◌++◌, IfOk, OnOk};
ghost use Rattle.coalescing.specs.NamesWritten.{name_text, further_text, names_text};

use crate::{CertName, CertNames};
use alt_base::{NoMemory, Text};
use std::alloc::Global;

/// The text of the names of a certificate: `-` for none, or each name in order, joined by commas, a wildcard with `*.`
/// before its base and an address without brackets.
pub fn write_names(alloc: Global, names: &CertNames) -> Result<Text, NoMemory>
    ensures { IfOk result (λ text. text ≡ names_text names.now) }
{
    let mut text = Vec::new(alloc);
    append_names(&mut text, alloc, names.as_slice())?;
    Ok(Text::from_vec(text))
}

fn append_names(text: &mut Vec<u8>, alloc: Global, names: &[CertName]) -> Result<(), NoMemory>
    ensures { OnOk result (text.new.items ≡ text.old.items ++ names_text names.now) }
{
    match names {
        [] => {
            text.push(b'-')?;
            Ok(())
        }
        [first, further @ ..] => {
            append_name(text, alloc, first)?;
            append_further(text, alloc, further)
        }
    }
}

fn append_further(text: &mut Vec<u8>, alloc: Global, names: &[CertName]) -> Result<(), NoMemory>
    ensures { OnOk result (text.new.items ≡ text.old.items ++ further_text names.now) }
{
    for name in names {
        text.push(b',')?;
        append_name(text, alloc, name)?;
    }
    Ok(())
}

fn append_name(text: &mut Vec<u8>, alloc: Global, name: &CertName) -> Result<(), NoMemory>
    ensures { OnOk result (text.new.items ≡ text.old.items ++ name_text name.now) }
{
    match name {
        CertName::Exact(name) => text.extend_from_slice(name.as_slice())?,
        CertName::Wild(base) => {
            text.extend_from_slice(b"*.")?;
            text.extend_from_slice(base.as_slice())?;
        }
        CertName::Ip(addr) => text.extend_from_slice(addr.write(alloc)?.as_slice())?,
    }
    Ok(())
}
