ghost use Rattle.std.specs.Prelude.{◌≡◌, ℕ, List, Ok, Err};
ghost use Rattle.alt_base.specs.declared.refusal.At.{At};
ghost use Rattle.origin_values.specs.declared.origin.Origin.{Origin};
ghost use Rattle.origin_frame.specs.PayloadGrammar.{SpellsListed, ListedRefusedAt, OneListed};
ghost use Rattle.origin_frame.specs.PayloadReading.{read_listed, refused};
ghost use Rattle.origin_frame.specs.PayloadWritten.{payload_of, AreOrigins};
ghost use Rattle.origin_frame.specs.declared.listed.Listed.{Listed};
ghost use Rattle.origin_frame.specs.declared.refusal.OriginFrameRefusal.{OriginFrameRefusal};

/// On each stream and with each flags: what is read is spelled so, what is spelled is read, and what is refused is
/// refused so.
pub fn payloads_are_read()
    ensures read { (stream flags : ℕ) (payload : List ℕ) (listed : Listed) →
        read_listed stream flags payload ≡ Ok listed → SpellsListed stream flags payload listed }
    ensures refusal { (stream flags : ℕ) (payload : List ℕ) (at : At OriginFrameRefusal) →
        read_listed stream flags payload ≡ Err at → ListedRefusedAt stream flags payload at.place at.reason }
    ensures spelled { (stream flags : ℕ) (payload : List ℕ) (listed : Listed) →
        SpellsListed stream flags payload listed → read_listed stream flags payload ≡ Ok listed }
    ensures refused { (stream flags : ℕ) (payload : List ℕ) (place : ℕ) (reason : OriginFrameRefusal) →
        ListedRefusedAt stream flags payload place reason → read_listed stream flags payload ≡ refused place reason }
    ensures valid { (stream flags : ℕ) (payload : List ℕ) (listed : Listed) →
        SpellsListed stream flags payload listed → AreOrigins listed.origins }
{}

/// On each stream and with each flags, each payload lists exactly one value or is refused at exactly one place, and
/// never both.
pub fn one_listed()
    ensures { (stream flags : ℕ) (payload : List ℕ) → OneListed stream flags payload }
{}

/// The payload that lists origins gives them back on stream 0 without flags, with nothing skipped.
pub fn written_origins_are_listed()
    ensures spelled { (origins : List Origin) → AreOrigins origins →
        SpellsListed 0 0 (payload_of origins) (record { origins = origins; skipped = 0 }) }
    ensures back { (origins : List Origin) → AreOrigins origins →
        read_listed 0 0 (payload_of origins) ≡ Ok (record { origins = origins; skipped = 0 }) }
{}
