ghost use Rattle.std.specs.Prelude.{◌≡◌, ◌≤◌, ℕ, List, length, Ok};
ghost use Rattle.dns_names.specs.Names.{AreBytes};
ghost use Rattle.svcb_wire.specs.declared.svcb.Svcb.{Svcb};
ghost use Rattle.svcb_wire.specs.declared.refusal.WireRefusal.{WireRefusal};
ghost use Rattle.alt_base.specs.Answers.{refused};
ghost use Rattle.svcb_wire.specs.Records.{IsRecord, record_octets};
ghost use Rattle.svcb_wire.specs.RecordGrammar.{SpellsRecord, RecordRefusedAt, OneRecord};
ghost use Rattle.svcb_wire.specs.RecordReading.{read_record};

/// What the reading of a record's wire form says is what its grammar says (RFC 9460 2.2).
pub fn record_means()
    ensures ok { (x : List ℕ) (value : Svcb) → AreBytes x → read_record x ≡ Ok value → SpellsRecord x value }
    ensures err { (x : List ℕ) (q : ℕ) (reason : WireRefusal) → AreBytes x → read_record x ≡ refused q reason → RecordRefusedAt x q reason }
    ensures spelled { (x : List ℕ) (value : Svcb) → SpellsRecord x value → read_record x ≡ Ok value }
    ensures refused { (x : List ℕ) (q : ℕ) (reason : WireRefusal) → AreBytes x → RecordRefusedAt x q reason → read_record x ≡ refused q reason }
{}

/// Any octets spell exactly one record, or are refused at exactly one place, and never both.
pub fn one_record()
    ensures { (x : List ℕ) → AreBytes x → OneRecord x }
{}

/// What octets spell is a record.
pub fn spelled_records()
    ensures { (x : List ℕ) (value : Svcb) → AreBytes x → SpellsRecord x value → IsRecord value }
{}

/// The wire form of a record, where it has at most 65,535 octets, spells it and is read back.
pub fn record_reads_back()
    ensures spelled { (value : Svcb) → IsRecord value → length (record_octets value) ≤ 65535 → SpellsRecord (record_octets value) value }
    ensures read { (value : Svcb) → IsRecord value → length (record_octets value) ≤ 65535 → read_record (record_octets value) ≡ Ok value }
{}
