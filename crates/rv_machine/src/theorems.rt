//! Laws of steps and of runs: each function does nothing, and its contract is a theorem.
ghost use Rattle.std.specs.Prelude.{◌≡◌, ◌≤◌, ◌+◌, ℕ, Option, None};
ghost use Rattle.rv_machine.specs.declared.event.Event.{Event};
ghost use Rattle.rv_machine.specs.declared.event.Mode.TheVariants as mode;
ghost use Rattle.rv_machine.specs.State.{State};
ghost use Rattle.rv_machine.specs.Step.{one};
ghost use Rattle.rv_machine.specs.Keeps.{Keeps};
ghost use Rattle.rv_machine.specs.Exec.{Run, exec};

/// A step writes nothing outside the memory, nothing in the code and not x0, whatever the image. A byte that isn't asked for is ignored,
/// and behind an end each step gives the same event and changes nothing.
pub fn step_laws()
    ensures keeps { (s : State) (given : Option ℕ) → Keeps s (one s given).0 }
    ensures ignores { (s : State) (given : Option ℕ) → s.mode ≡ mode.Ready → one s given ≡ one s None }
    ensures ended { (s : State) (e : Event) (given : Option ℕ) → s.mode ≡ mode.Ended e → one s given ≡ (s, e) }
{}

/// Instructions add up, and behind an end nothing changes.
pub fn run_laws()
    ensures added { (r : Run) (m n : ℕ) → exec r (m + n) ≡ exec (exec r m) n }
    ensures ended { (r : Run) (m n : ℕ) (e : Event) → (exec r m).state.mode ≡ mode.Ended e → m ≤ n → exec r n ≡ exec r m }
{}
