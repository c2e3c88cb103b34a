ghost use Rattle.std.specs.Prelude.{◌≡◌, ◌≢◌, ◌≤◌, ℕ, ◌+◌, ◌-◌, List, [], ◌∷◌, ◌++◌, Ok, Err, Some, None, length, take, drop, false};
ghost use Rattle.std.specs.Fmt.{decimal};
ghost use Rattle.field_text.specs.declared.text_refusal.TextRefusal.{TextRefusal};
ghost use Rattle.alt_base.specs.declared.refusal.At.{At};
ghost use Rattle.field_text.specs.Refusals.{refused};
ghost use Rattle.field_text.specs.Runs.{AllIn, BeginsIn, run_of};
ghost use Rattle.field_text.specs.TokenGrammar.{is_token, SpellsToken, TokenRefusedAt, OneToken};
ghost use Rattle.field_text.specs.TokenReading.{read_token, token_of, after_token};
ghost use Rattle.field_text.specs.QuotedGrammar.{is_quoted_text, SpellsQuoted, QuotedRefusedAt, OneQuoted, Part, parts_text, parts_bytes};
ghost use Rattle.field_text.specs.QuotedReading.{read_quoted, unquoted, unquoted_body, after_quoted};
ghost use Rattle.field_text.specs.BlanksGrammar.{is_blank, SpellsBlanks, OneBlanks};
ghost use Rattle.field_text.specs.BlanksReading.{read_blanks, after_blanks};
ghost use Rattle.field_text.specs.DeltaGrammar.{SpellsDelta, IsNoDelta, OneDelta, greatest_delta_seconds};
ghost use Rattle.field_text.specs.DeltaReading.{read_delta_seconds};

/// What the reading of a token says is what the grammar says.
pub fn token_means()
    ensures ok { (p q : ℕ) (x : List ℕ) → read_token p x ≡ Ok q → SpellsToken p x q }
    ensures err { (p : ℕ) (at : At TextRefusal) (x : List ℕ) → read_token p x ≡ Err at
        → TokenRefusedAt p x at.place at.reason }
    ensures spelled { (p q : ℕ) (x : List ℕ) → SpellsToken p x q → read_token p x ≡ Ok q }
    ensures refused { (p q : ℕ) (r : TextRefusal) (x : List ℕ) → TokenRefusedAt p x q r
        → read_token p x ≡ refused q r }
{}

/// Each text spells exactly one token in front, or is refused at exactly one place, and never both.
pub fn one_token()
    ensures { (p : ℕ) (x : List ℕ) → OneToken p x }
{}

/// The parts of a text that begins with a token.
pub fn token_parts()
    ensures text { (p q : ℕ) (x : List ℕ) (s : SpellsToken p x q) → token_of x ≡ s.token }
    ensures after { (p q : ℕ) (x : List ℕ) (s : SpellsToken p x q) → after_token x ≡ s.rest }
    ensures taken { (p q : ℕ) (x : List ℕ) → SpellsToken p x q → take (q - p) x ≡ token_of x }
    ensures dropped { (p q : ℕ) (x : List ℕ) → SpellsToken p x q → drop (q - p) x ≡ after_token x }
    ensures end { (p q : ℕ) (x : List ℕ) → SpellsToken p x q → q ≡ p + length (token_of x) }
    ensures split { (x : List ℕ) → x ≡ token_of x ++ after_token x }
{}

/// Token bytes that no further one follows are read back.
pub fn plain_token_is_read()
    ensures read { (p : ℕ) (text rest : List ℕ) → AllIn is_token text → text ≢ []
        → (BeginsIn is_token rest → ⊥)
        → read_token p (text ++ rest) ≡ Ok (p + length text) }
    ensures text { (text rest : List ℕ) → AllIn is_token text → (BeginsIn is_token rest → ⊥)
        → token_of (text ++ rest) ≡ text }
{}

/// What the reading of a quoted string says is what the grammar says.
pub fn quoted_means()
    ensures ok { (p q : ℕ) (x : List ℕ) → read_quoted p x ≡ Ok q → SpellsQuoted p x q }
    ensures err { (p : ℕ) (at : At TextRefusal) (x : List ℕ) → read_quoted p x ≡ Err at
        → QuotedRefusedAt p x at.place at.reason }
    ensures spelled { (p q : ℕ) (x : List ℕ) → SpellsQuoted p x q → read_quoted p x ≡ Ok q }
    ensures refused { (p q : ℕ) (r : TextRefusal) (x : List ℕ) → QuotedRefusedAt p x q r
        → read_quoted p x ≡ refused q r }
{}

/// Each text spells exactly one quoted string in front, or is refused at exactly one place, and never both.
pub fn one_quoted()
    ensures { (p : ℕ) (x : List ℕ) → OneQuoted p x }
{}

/// The parts of a text that begins with a quoted string: its unquoted text, what stands between the quotes, which the
/// same function unquotes alone, and the bytes behind it.
pub fn quoted_parts()
    ensures unquoted { (p q : ℕ) (x : List ℕ) (s : SpellsQuoted p x q)
        → unquoted x ≡ parts_bytes s.parts }
    ensures between { (p q : ℕ) (x : List ℕ) (s : SpellsQuoted p x q)
        → take (q - p - 2) (drop 1 x) ≡ parts_text s.parts }
    ensures alone { (p q : ℕ) (x : List ℕ) (s : SpellsQuoted p x q)
        → unquoted_body false (parts_text s.parts) ≡ parts_bytes s.parts }
    ensures after { (p q : ℕ) (x : List ℕ) (s : SpellsQuoted p x q) → after_quoted x ≡ s.rest }
    ensures dropped { (p q : ℕ) (x : List ℕ) → SpellsQuoted p x q → drop (q - p) x ≡ after_quoted x }
{}

/// Quoted text between quotes is read back.
pub fn plain_quoted_is_read()
    ensures read { (p : ℕ) (text rest : List ℕ) → AllIn is_quoted_text text
        → read_quoted p (34 ∷ (text ++ 34 ∷ rest)) ≡ Ok (p + length text + 2) }
    ensures unquoted { (text rest : List ℕ) → AllIn is_quoted_text text
        → unquoted (34 ∷ (text ++ 34 ∷ rest)) ≡ text }
    ensures after { (text rest : List ℕ) → AllIn is_quoted_text text
        → after_quoted (34 ∷ (text ++ 34 ∷ rest)) ≡ rest }
{}

/// What the reading of blanks says is what the grammar says.
pub fn blanks_mean()
    ensures read { (p : ℕ) (x : List ℕ) → SpellsBlanks p x (read_blanks p x) }
    ensures spelled { (p q : ℕ) (x : List ℕ) → SpellsBlanks p x q → read_blanks p x ≡ q }
    ensures dropped { (p q : ℕ) (x : List ℕ) → SpellsBlanks p x q → drop (q - p) x ≡ after_blanks x }
    ensures split { (x : List ℕ) → x ≡ run_of is_blank x ++ after_blanks x }
{}

/// Each text begins with exactly one run of blanks.
pub fn one_blanks()
    ensures { (p : ℕ) (x : List ℕ) → OneBlanks p x }
{}

/// What the reading of a number of seconds says is what the grammar says.
pub fn delta_seconds_means()
    ensures some { (n : ℕ) (x : List ℕ) → read_delta_seconds x ≡ Some n → SpellsDelta x n }
    ensures none { (x : List ℕ) → read_delta_seconds x ≡ None → IsNoDelta x }
    ensures spelled { (n : ℕ) (x : List ℕ) → SpellsDelta x n → read_delta_seconds x ≡ Some n }
    ensures refused { (x : List ℕ) → IsNoDelta x → read_delta_seconds x ≡ None }
{}

/// A number of seconds that is written in decimal is read back.
pub fn written_delta_seconds_is_read()
    ensures { (n : ℕ) → n ≤ greatest_delta_seconds → read_delta_seconds (decimal n) ≡ Some n }
{}

/// Each text spells exactly one number of seconds, or none, and never both.
pub fn one_delta_seconds()
    ensures { (x : List ℕ) → OneDelta x }
{}
