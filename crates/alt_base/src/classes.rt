ghost use Rattle.std.specs.Prelude.{◌≡◌};
ghost use Rattle.alt_base.specs.Classes.{token_class, quoted_text_class, after_backslash_class, host_name_class, record_key_class, contiguous_value_class, quoted_value_class};

use crate::ClassTable;

// A class by its ranges: `low..high` for the bytes from `low` to `high`, both of them.
macro_rules! class {
    ($($low:literal .. $high:literal),+) => {
        ClassTable::new([$(($low, $high)),+])
    };
}

/// The bytes of a token (RFC 9110 5.6.2).
#[inline]
pub fn token_table() -> ClassTable<9>
    ensures { result ≡ token_class }
{
    class!(
        0x21..0x21,
        0x23..0x27,
        0x2a..0x2b,
        0x2d..0x2e,
        0x30..0x39,
        0x41..0x5a,
        0x5e..0x7a,
        0x7c..0x7c,
        0x7e..0x7e
    )
}

/// The bytes that stand for themselves in a quoted string (RFC 9110 5.6.4, `qdtext`).
#[inline]
pub fn quoted_text_table() -> ClassTable<5>
    ensures { result ≡ quoted_text_class }
{
    class!(0x09..0x09, 0x20..0x21, 0x23..0x5b, 0x5d..0x7e, 0x80..0xff)
}

/// The bytes that may stand behind a backslash in a quoted string (RFC 9110 5.6.4, `quoted-pair`).
#[inline]
pub fn after_backslash_table() -> ClassTable<3>
    ensures { result ≡ after_backslash_class }
{
    class!(0x09..0x09, 0x20..0x7e, 0x80..0xff)
}

/// The bytes of the labels of a host's name: letters, digits, `-` and `_`.
#[inline]
pub fn host_name_table() -> ClassTable<5>
    ensures { result ≡ host_name_class }
{
    class!(0x2d..0x2d, 0x30..0x39, 0x41..0x5a, 0x5f..0x5f, 0x61..0x7a)
}

/// The bytes of a parameter's name in a record's text (RFC 9460 2.1, `SvcParamKey`).
#[inline]
pub fn record_key_table() -> ClassTable<3>
    ensures { result ≡ record_key_class }
{
    class!(0x2d..0x2d, 0x30..0x39, 0x61..0x7a)
}

/// The bytes that stand for themselves in a value without quotes in a record's text (RFC 9460 appendix A,
/// `non-special`).
#[inline]
pub fn contiguous_value_table() -> ClassTable<5>
    ensures { result ≡ contiguous_value_class }
{
    class!(0x21..0x21, 0x23..0x27, 0x2a..0x3a, 0x3c..0x5b, 0x5d..0x7e)
}

/// The bytes that stand for themselves in a quoted value in a record's text (RFC 9460 appendix A).
#[inline]
pub fn quoted_value_table() -> ClassTable<4>
    ensures { result ≡ quoted_value_class }
{
    class!(0x09..0x09, 0x20..0x21, 0x23..0x5b, 0x5d..0x7e)
}
