ghost use Rattle.std.specs.Prelude.{◌≡◌, IfOk};
ghost use Rattle.altroute_show.specs.Given.{without_newline, refused_at, given_text};
ghost use Rattle.altroute_show.specs.WholeInput.{GiveEnds};
ghost use Rattle.altroute_show.specs.declared.given.Given.TheVariants.{Refused};

use crate::Status;
use crate::given::Given;
use crate::texts::{put, put_number};
use alt_base::{Bytes, ListOf, NoMemory, Sink, write_all};
use std::alloc::Global;

/// The input without the one newline that may end it.
pub(crate) fn trimmed(input: &[u8]) -> &[u8]
    ensures { result.now ≡ without_newline input.now }
{
    if input.len() > 0 && input[input.len() - 1] == b'\n' {
        return &input[..input.len() - 1];
    }
    input
}

/// The line of a decoder's refusal.
pub(crate) fn write_refused_at(alloc: Global, number: u32, place: u32) -> Result<Bytes, NoMemory>
    ensures { IfOk result (λ text. text ≡ refused_at number place) }
{
    let mut text = Vec::new(alloc);
    put(&mut text, b"refused ")?;
    put_number(alloc, &mut text, number)?;
    put(&mut text, b" at ")?;
    put_number(alloc, &mut text, place)?;
    put(&mut text, b"\n")?;
    Ok(ListOf::from_vec(text))
}

/// What is given where a decoder refuses the input.
pub(crate) fn refused_given(alloc: Global, number: u32, place: u32) -> Result<Given, NoMemory>
    ensures { IfOk result (λ given. given ≡ Refused (refused_at number place)) }
{
    Ok(Given::Refused(write_refused_at(alloc, number, place)?))
}

/// Writes what is given.
pub(crate) fn give<K: Sink>(given: &Given, sink: &mut K) -> Status
    ensures { GiveEnds result given.now (K.written sink.old) (K.written sink.new) (K.faults sink.old) (K.faults sink.new) }
{
    match given {
        Given::Shown(text) => match write_all(sink, text.as_slice()) {
            Ok(()) => Status::Done,
            Err(_) => Status::WriteFault,
        },
        Given::Refused(text) => match write_all(sink, text.as_slice()) {
            Ok(()) => Status::Refused,
            Err(_) => Status::WriteFault,
        },
    }
}
