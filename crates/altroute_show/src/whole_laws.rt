//! Laws of what the commands that read their whole input give for it, in the words of the grammars.
ghost use Rattle.std.specs.Prelude.{◌≡◌, ◌⊎◌, ◌++◌, ℕ, List, codes};
ghost use Rattle.dns_names.specs.Names.{AreBytes};
ghost use Rattle.altsvc_grammar.specs.declared.alt_svc.AltSvc.{AltSvc};
ghost use Rattle.altsvc_grammar.specs.declared.refusal.AltRefusal.{AltRefusal};
ghost use Rattle.altsvc_grammar.specs.RefusalNumbers.{refusal_number};
ghost use Rattle.altsvc_grammar.specs.ValueGrammar.{SpellsValue};
ghost use Rattle.altsvc_grammar.specs.ValueRefusals.{ValueRefusedAt};
ghost use Rattle.altsvc_grammar.specs.Shown.{show_lines};
ghost use Rattle.hex_text.specs.HexGrammar.{SpellsHex};
ghost use Rattle.svcb_wire.specs.declared.svcb.Svcb.{Svcb};
ghost use Rattle.svcb_wire.specs.declared.refusal.WireRefusal.{WireRefusal};
ghost use Rattle.svcb_wire.specs.RecordGrammar.{SpellsRecord, RecordRefusedAt};
ghost use Rattle.svcb_wire.specs.RefusalNumbers.{refusal_number as wire_refusal_number};
ghost use Rattle.svcb_text.specs.declared.refusal.RecordTextRefusal.{RecordTextRefusal};
ghost use Rattle.svcb_text.specs.RefusalNumbers.{text_refusal_number};
ghost use Rattle.svcb_text.specs.TextGrammar.{SpellsRecordText};
ghost use Rattle.svcb_text.specs.TextRefusals.{RecordTextRefusedAt};
ghost use Rattle.altroute_show.specs.declared.given.Given.TheVariants.{Shown, Refused};
ghost use Rattle.altroute_show.specs.declared.record_form.RecordForm.{RecordForm};
ghost use Rattle.altroute_show.specs.declared.whole_command.WholeCommand.TheVariants.{ShowAltSvc, WriteHttps};
ghost use Rattle.altroute_show.specs.Given.{form_line, octets_line, refused_at, given_for};
ghost use Rattle.altroute_show.specs.InputTexts.{IsInput};
ghost use Rattle.altroute_show.specs.Answers.{IsGivenBy, showing};

/// `show altsvc` writes the lines of the value that the input spells (RFC 7838 3), and the refusal of an input that
/// spells none, and nothing else.
pub fn values_are_shown()
    ensures spelled { (input text : List ℕ) (value : AltSvc) → IsInput input text → SpellsValue text value →
        given_for ShowAltSvc input ≡ Shown (show_lines value) }
    ensures refused { (input text : List ℕ) (q : ℕ) (reason : AltRefusal) → IsInput input text → ValueRefusedAt text q reason →
        given_for ShowAltSvc input ≡ Refused (refused_at (refusal_number reason) q) }
    ensures only { (input text : List ℕ) → IsInput input text →
        IsGivenBy (SpellsValue text) (ValueRefusedAt text) show_lines refusal_number (given_for ShowAltSvc input) }
{}

/// `show https`, in text and in JSON, writes the line of the record whose wire form the digits spell (RFC 9460 2.2), and
/// the refusal of octets that spell none, and nothing else; digits that spell no octets are refused without a place.
pub fn records_are_shown()
    ensures spelled { (form : RecordForm) (input digits octets : List ℕ) (value : Svcb) → IsInput input digits → SpellsHex digits octets → SpellsRecord octets value →
        given_for (showing form) input ≡ Shown (form_line form value) }
    ensures refused { (form : RecordForm) (input digits octets : List ℕ) (q : ℕ) (reason : WireRefusal) → IsInput input digits → SpellsHex digits octets → RecordRefusedAt octets q reason →
        given_for (showing form) input ≡ Refused (refused_at (wire_refusal_number reason) q) }
    ensures only { (form : RecordForm) (input digits octets : List ℕ) → IsInput input digits → SpellsHex digits octets →
        IsGivenBy (SpellsRecord octets) (RecordRefusedAt octets) (form_line form) wire_refusal_number (given_for (showing form) input) }
    ensures no_hex { (form : RecordForm) (input digits : List ℕ) → IsInput input digits → ((octets : List ℕ) → ¬ (SpellsHex digits octets)) →
        given_for (showing form) input ≡ Refused (codes "refused hex\n") }
{}

/// `write https` writes the octets of the record that the text spells (RFC 9460 2.1), in hex, and the refusal of a text
/// that spells none, and nothing else; what it writes shows as that record.
pub fn records_are_written()
    ensures spelled { (input text : List ℕ) (value : Svcb) → IsInput input text → SpellsRecordText text value →
        given_for WriteHttps input ≡ Shown (octets_line value) }
    ensures refused { (input text : List ℕ) (q : ℕ) (reason : RecordTextRefusal) → AreBytes text → IsInput input text → RecordTextRefusedAt text q reason →
        given_for WriteHttps input ≡ Refused (refused_at (text_refusal_number reason) q) }
    ensures only { (input text : List ℕ) → AreBytes text → IsInput input text →
        IsGivenBy (SpellsRecordText text) (RecordTextRefusedAt text) octets_line text_refusal_number (given_for WriteHttps input) }
    ensures shown { (form : RecordForm) (text : List ℕ) (value : Svcb) → AreBytes text → SpellsRecordText text value →
        given_for (showing form) (octets_line value) ≡ Shown (form_line form value) }
{}
