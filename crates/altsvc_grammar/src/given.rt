ghost use Rattle.std.specs.Prelude.{◌≡◌};
ghost use Rattle.altsvc_grammar.specs.ParameterReading.{is_named, nothing_given, note, terms_of, ma_value, is_one};

use crate::terms::Terms;
use field_text::delta_seconds;

/// The seconds where no parameter says (RFC 7838 3.1).
const DEFAULT_MA: u32 = 86_400;

/// What the parameters so far give: the first `ma`, and the first `persist`.
#[derive(Clone, Copy, Debug, PartialEq, Eq)]
pub(crate) struct Given {
    pub(crate) ma: Option<u32>,
    pub(crate) persist: Option<bool>,
}

// Before any parameter.
pub(crate) fn nothing_given() -> Given
    ensures { result ≡ nothing_given }
{
    Given {
        ma: None,
        persist: None,
    }
}

// With one parameter more.
pub(crate) fn note(given: Given, name: &[u8], value: &[u8]) -> Given
    ensures { result ≡ note given name.now value.now }
{
    Given {
        ma: noted_ma(given.ma, name, value),
        persist: noted_persist(given.persist, name, value),
    }
}

fn noted_ma(ma: Option<u32>, name: &[u8], value: &[u8]) -> Option<u32>
    ensures { result ≡ (note (record { ma = ma; persist = None }) name.now value.now).ma }
{
    if ma.is_none() && is_named(b"ma", name) {
        Some(ma_value(value))
    } else {
        ma
    }
}

fn noted_persist(persist: Option<bool>, name: &[u8], value: &[u8]) -> Option<bool>
    ensures { result ≡ (note (record { ma = None; persist = persist }) name.now value.now).persist }
{
    if persist.is_none() && is_named(b"persist", name) {
        Some(is_one(value))
    } else {
        persist
    }
}

// The seconds that the value of `ma` says.
fn ma_value(value: &[u8]) -> u32
    ensures { result ≡ ma_value value.now }
{
    delta_seconds(value).unwrap_or(DEFAULT_MA)
}

fn is_one(value: &[u8]) -> bool
    ensures { result ≡ is_one value.now }
{
    match value {
        [b'1'] => true,
        _ => false,
    }
}

// Whether a name has these letters, in any case.
fn is_named(letters: &[u8], name: &[u8]) -> bool
    ensures { result ≡ is_named letters.now name.now }
{
    match letters {
        [] => name.is_empty(),
        [letter, letters @ ..] => match name {
            [] => false,
            [b, name @ ..] => b.to_ascii_lowercase() == *letter && is_named(letters, name),
        },
    }
}

// What the parameters mean together.
pub(crate) fn terms_of(given: Given) -> Terms
    ensures { result ≡ terms_of given }
{
    Terms {
        ma: given.ma.unwrap_or(DEFAULT_MA),
        persist: given.persist.unwrap_or(false),
    }
}
