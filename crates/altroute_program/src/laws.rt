//! Laws of what a replay writes, stated over its definitions alone.
ghost use Rattle.std.specs.Prelude.{◌≡◌, ◌++◌, ℕ, List, Bool, false};
ghost use Rattle.altroute_program.specs.Lines.{cut_lines, joined};
ghost use Rattle.altroute_program.specs.Outcome.{Stop, Stopped, outcome, text_of};

/// The lines, each with its newline, and the rest behind them are the bytes.
pub fn lines_are_bytes()
    ensures { (bytes : List ℕ) → joined (cut_lines bytes).whole ++ (cut_lines bytes).rest ≡ bytes }
{}

/// More bytes only add to the text.
pub fn text_grows()
    ensures { (bytes more : List ℕ) (ended : Bool) → (extra : List ℕ) × (text_of (outcome (bytes ++ more) ended) ≡ text_of (outcome bytes false) ++ extra) }
{}

/// What stops a run stops it there, whatever bytes follow.
pub fn stop_stays()
    ensures { (bytes more text : List ℕ) (ended : Bool) (why : Stop) → outcome bytes false ≡ Stopped text why → outcome (bytes ++ more) ended ≡ Stopped text why }
{}
