ghost use Rattle.std.specs.Prelude.{◌≡◌, IfOk};
ghost use Rattle.altroute_show.specs.Given.{altsvc_given};

use crate::give::{refused_given, trimmed};
use crate::given::Given;
use alt_base::{NoMemory, Refused};
use altsvc_grammar::{parse, show_text};
use std::alloc::Global;

/// What is written for an input.
pub(crate) fn altsvc_given(alloc: Global, input: &[u8]) -> Result<Given, NoMemory>
    ensures { IfOk result (λ given. given ≡ altsvc_given input.now) }
{
    match parse(alloc, trimmed(input)) {
        Ok(value) => Ok(Given::Shown(show_text(alloc, &value)?)),
        Err(Refused::NoMemory) => Err(NoMemory),
        Err(Refused::At { place, reason }) => {
            refused_given(alloc, u32::from(reason.number()), place)
        }
    }
}
