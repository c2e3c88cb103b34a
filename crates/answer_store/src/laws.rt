ghost use Rattle.std.specs.Prelude.{◌≡◌, ◌≤◌, ◌↔◌, ℕ, List};
ghost use Rattle.alias_chain.specs.Held.{body_at};
ghost use Rattle.answer_store.specs.declared.store.AnswerStore.{AnswerStore};
ghost use Rattle.answer_store.specs.Bodies.{Kind};
ghost use Rattle.answer_store.specs.Contents.{kept, https_held, IsCount, HoldsInForce};

/// What isn't in force at a moment isn't at a later one: to drop it changes no later answer, and no later count.
pub fn purge_changes_no_answer()
    ensures answer { (old new : AnswerStore) (now t : ℕ) → now ≤ t → HoldsInForce old new now
        → (name : List (List ℕ)) (kind : Kind) → body_at t (kept new name kind) ≡ body_at t (kept old name kind) }
    ensures https { (old new : AnswerStore) (now t : ℕ) → now ≤ t → HoldsInForce old new now
        → (name : List (List ℕ)) → body_at t (https_held new name) ≡ body_at t (https_held old name) }
    ensures count { (old new : AnswerStore) (now t n : ℕ) → now ≤ t → HoldsInForce old new now → (IsCount new t n ↔ IsCount old t n) }
{}

/// A store has one count at a moment.
pub fn one_count()
    ensures { (store : AnswerStore) (now m n : ℕ) → IsCount store now m → IsCount store now n → m ≡ n }
{}
