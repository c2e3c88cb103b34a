ghost use Rattle.std.specs.Prelude.{◌≡◌, ◌+◌, ◌++◌, ℕ, List, length, Ok};
ghost use Rattle.alt_base.specs.Answers.{refused};
ghost use Rattle.dns_names.specs.Names.{AreBytes, IsName, wire_form};
ghost use Rattle.dns_names.specs.TextGrammar.{SpellsText, TextRefusedAt, OneTextName};
ghost use Rattle.dns_names.specs.TextParts.{text_form};
ghost use Rattle.dns_names.specs.TextReading.{read_text};
ghost use Rattle.dns_names.specs.WireGrammar.{SpellsWire, SpellsUpTo, WireRefusedAt, OneWireName};
ghost use Rattle.dns_names.specs.WireReading.{read_wire};
ghost use Rattle.dns_names.specs.declared.refusal.NameRefusal.{NameRefusal};
ghost use Rattle.alt_base.specs.declared.refusal.At.{At};

use crate::NameRefusal;
use alt_base::At;

/// What the reading of a wire form says is what its grammar says (RFC 1035 3.1).
pub fn wire_means()
    ensures ok { (p q : ℕ) (x : List ℕ) (name : List (List ℕ)) → read_wire p x ≡ Ok (name, q) → SpellsUpTo p x name q }
    ensures err { (p q : ℕ) (reason : NameRefusal) (x : List ℕ) → read_wire p x ≡ refused q reason → WireRefusedAt p x q reason }
    ensures spelled { (p q : ℕ) (x : List ℕ) (name : List (List ℕ)) → SpellsUpTo p x name q → read_wire p x ≡ Ok (name, q) }
    ensures refused { (p q : ℕ) (reason : NameRefusal) (x : List ℕ) → WireRefusedAt p x q reason → read_wire p x ≡ refused q reason }
{}

/// Exactly one front of any octets spells a name, and then exactly one name, or they are refused at exactly one place,
/// and never both.
pub fn one_wire_name()
    ensures { (p : ℕ) (x : List ℕ) → OneWireName p x }
{}

/// What octets spell is a name.
pub fn wire_names()
    ensures { (octets : List ℕ) (name : List (List ℕ)) → AreBytes octets → SpellsWire octets name → IsName name }
{}

/// The wire form of a name spells it, and is read back, whatever follows.
pub fn wire_reads_back()
    ensures spelled { (name : List (List ℕ)) → IsName name → SpellsWire (wire_form name) name }
    ensures read { (p : ℕ) (name : List (List ℕ)) (rest : List ℕ) → IsName name
        → read_wire p (wire_form name ++ rest) ≡ Ok (name, p + length (wire_form name)) }
{}

/// What the reading of a text says is what its grammar says (RFC 1035 5.1).
pub fn text_means()
    ensures ok { (x : List ℕ) (name : List (List ℕ)) → read_text x ≡ Ok name → SpellsText x name }
    ensures err { (q : ℕ) (reason : NameRefusal) (x : List ℕ) → read_text x ≡ refused q reason → TextRefusedAt x q reason }
    ensures spelled { (x : List ℕ) (name : List (List ℕ)) → SpellsText x name → read_text x ≡ Ok name }
    ensures refused { (q : ℕ) (reason : NameRefusal) (x : List ℕ) → TextRefusedAt x q reason → read_text x ≡ refused q reason }
{}

/// Any text spells exactly one name, or is refused at exactly one place, and never both.
pub fn one_text_name()
    ensures { (x : List ℕ) → OneTextName x }
{}

/// What a text spells is a name.
pub fn text_names()
    ensures { (x : List ℕ) (name : List (List ℕ)) → SpellsText x name → IsName name }
{}

/// What is written for a name spells it, and is read back.
pub fn text_reads_back()
    ensures spelled { (name : List (List ℕ)) → IsName name → SpellsText (text_form name) name }
    ensures read { (name : List (List ℕ)) → IsName name → read_text (text_form name) ≡ Ok name }
{}
