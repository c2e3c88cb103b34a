ghost use Rattle.std.specs.Prelude.{◌≡◌, ◌≤◌, ℕ, List, filter};
ghost use Rattle.origin_values.specs.declared.origin.Origin.{Origin};
ghost use Rattle.network_cache.specs.declared.kept.Kept.{Kept};
ghost use Rattle.network_cache.specs.declared.cache.Cache.{Cache};
ghost use Rattle.network_cache.specs.Freshness.{is_fresh};
ghost use Rattle.network_cache.specs.Contents.{live, IsTotal, HoldsFresh};

/// What isn't fresh at a moment isn't at a later one: to drop it changes no later answer.
pub fn purge_changes_no_answer()
    ensures fresh { (now t : ℕ) (ks : List Kept) → now ≤ t → filter (is_fresh t) (filter (is_fresh now) ks) ≡ filter (is_fresh t) ks }
    ensures live { (old new : Cache) (now t : ℕ) → now ≤ t → HoldsFresh old new now → (o : Origin) → live new o t ≡ live old o t }
    ensures total { (old new : Cache) (now t n : ℕ) → now ≤ t → HoldsFresh old new now → IsTotal old t n → IsTotal new t n }
{}

/// A cache has one total at a moment, whichever origins it is counted over.
pub fn one_total()
    ensures { (cache : Cache) (now m n : ℕ) → IsTotal cache now m → IsTotal cache now n → m ≡ n }
{}
