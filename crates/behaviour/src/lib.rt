//! What is seen of runs, the laws of a run, and when one run follows another. Each function below is a law that its contract states.
#![tactic(auto)]

ghost use Rattle.std.specs.Prelude.{ℕ, ◌*◌, ◌+◌, ◌≤◌, ◌≡◌, ◌≢◌};
ghost use Rattle.behaviour.specs.Behaviour.{Behaviour, Running};
ghost use Rattle.behaviour.specs.Run.{Extends, IsRun};
ghost use Rattle.behaviour.specs.Follows.{Follows, Forth, Progress, SteadyForth};

/// At a greater bound the output goes on from what it was, and no fewer bytes are taken.
pub fn a_greater_bound_extends()
    ensures { (a : Behaviour) → IsRun a → (m n : ℕ) → m ≤ n → Extends (a m) (a n) }
{}

/// After an end nothing changes.
pub fn an_end_stays()
    ensures { (a : Behaviour) → IsRun a → (m n : ℕ) → m ≤ n → (a m).ending ≢ Running → a n ≡ a m }
{}

/// A behaviour follows each behaviour that shows the same at every bound, itself first of all.
pub fn the_same_follows()
    ensures { (a b : Behaviour) → ((n : ℕ) → a n ≡ b n) → Follows 1 a b }
{}

/// What follows within a number follows within a greater one.
pub fn a_greater_number_allows()
    ensures { (k l : ℕ) (a b : Behaviour) → k ≤ l → Follows k a b → Follows l a b }
{}

/// Following composes.
pub fn following_composes()
    ensures { (k l : ℕ) (a b c : Behaviour) → Follows k a b → Follows l b c
        → Follows (k * (l + 1)) a c }
{}

/// Of two runs, the way back follows from the way forth and from progress.
pub fn back_is_free()
    ensures { (k : ℕ) (a b : Behaviour) → IsRun a → IsRun b → Progress a b → Forth k a b
        → Follows k a b }
{}

/// Of two runs, the way back follows from a way forth that takes a step for each unit.
pub fn back_is_free_at_a_step_a_unit()
    ensures { (k : ℕ) (a b : Behaviour) → IsRun a → IsRun b → SteadyForth k a b → Follows k a b }
{}
