ghost use Rattle.std.specs.Prelude.{◌≡◌, ◌≤◌, ℕ, List, length, Ok, Err};
ghost use Rattle.dns_names.specs.Names.{AreBytes};
ghost use Rattle.svcb_values.specs.declared.unescaped.Unescaped.{Unescaped};
ghost use Rattle.svcb_values.specs.StringGrammar.{SpellsString, StringRefusedAt, OneString};
ghost use Rattle.svcb_values.specs.StringReading.{read_string};

use crate::Unescaped;

/// What the reading of a value's string says is what its grammar says (RFC 9460 appendix A).
pub fn strings_are_read()
    ensures ok { (x : List ℕ) (value : Unescaped) (count : ℕ) → read_string x ≡ Ok (value, count) → SpellsString x value count }
    ensures err { (x : List ℕ) (q : ℕ) → read_string x ≡ Err q → StringRefusedAt x q }
    ensures spelled { (x : List ℕ) (value : Unescaped) (count : ℕ) → SpellsString x value count → read_string x ≡ Ok (value, count) }
    ensures refused { (x : List ℕ) (q : ℕ) → StringRefusedAt x q → read_string x ≡ Err q }
{}

/// Any text begins with exactly one string, which ends before a blank or at its end, or is refused at exactly one
/// place, and never both (RFC 9460 appendix A).
pub fn one_string()
    ensures { (x : List ℕ) → OneString x }
{}

/// What a string of bytes stands for are bytes, and neither a string nor the place of a refusal goes past the text.
pub fn strings_hold_bytes()
    ensures bytes { (x : List ℕ) (value : Unescaped) (count : ℕ) → AreBytes x → read_string x ≡ Ok (value, count) → AreBytes value.bytes }
    ensures within { (x : List ℕ) (value : Unescaped) (count : ℕ) → read_string x ≡ Ok (value, count) → count ≤ length x }
    ensures place { (x : List ℕ) (q : ℕ) → read_string x ≡ Err q → q ≤ length x }
{}
