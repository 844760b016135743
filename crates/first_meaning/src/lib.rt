//! What a program of the first form means: its joint meaning, by units. Each function below is a law that its contract states.
#![tactic(auto)]

ghost use Rattle.std.specs.Prelude.{ℕ, pos, ◌+◌, ◌*◌, ◌%◌, ◌≡◌, ◌≢◌, ◌≤◌, List, [], ◌∷◌, length, Some, None};
ghost use Rattle.behaviour.specs.Behaviour.{Limit, Limited, Running, Stopped};
ghost use Rattle.behaviour.specs.Run.{Extends, IsRun};
ghost use Rattle.jf_base.specs.declared.place.Limits.{Limits};
ghost use Rattle.jf_base.specs.Limits.{AreLimits};
ghost use Rattle.first_form.specs.declared.program.FirstProgram.{FirstProgram};
ghost use Rattle.first_form.specs.declared.program.PutcharArgument.TheVariants.{Parameter};
ghost use Rattle.first_meaning.specs.Joint.{joint};
ghost use Rattle.first_meaning.specs.Units.{course_of, units_of, seen_of_units, seen_until, FitsIn};

/// The joint meaning keeps the laws of a run.
pub fn joint_is_a_run()
    ensures { (p : FirstProgram) (limits : Limits) (input : List ℕ) → IsRun (joint p limits input) }
{}

/// With more units the output goes on from what it was.
pub fn more_units_extend()
    ensures { (p : FirstProgram) (limits : Limits) (input : List ℕ) (m n : ℕ) → m ≤ n
        → Extends (joint p limits input m) (joint p limits input n) }
{}

/// Where no limit is met, the units come one by one, and behind them the end with code 0.
pub fn joint_does_its_units()
    ensures { (p : FirstProgram) (limits : Limits) → FitsIn p limits → (input : List ℕ) (n : ℕ)
        → joint p limits input n ≡ seen_of_units (units_of p) n }
{}

/// Under any limits it comes to the units and the end of its course: a limit ends it exactly in the unit whose charge passes it.
pub fn limits_are_exact()
    ensures { (p : FirstProgram) (limits : Limits) (input : List ℕ) (n : ℕ)
        → joint p limits input n ≡ seen_until (course_of p limits).end [] (course_of p limits).units n }
{}

/// A program of at most 100 calls and 100 putchars fits in the limits of a run whose words name none, and in all that have 68,544 bytes of frames.
pub fn standard_limits_suffice()
    ensures { (p : FirstProgram) (limits : Limits) → AreLimits limits → 68544 ≤ limits.frames
        → length p.calls ≤ 100 → length p.puts ≤ 100 → FitsIn p limits }
{}

/// Where a program fits in the limits, none of them ends it.
pub fn no_limit_is_met()
    ensures { (p : FirstProgram) (limits : Limits) → FitsIn p limits → (input : List ℕ) (n : ℕ) (limit : Limit)
        → (joint p limits input n).ending ≢ Limited limit }
{}

/// No byte of the input is taken.
pub fn no_byte_is_taken()
    ensures { (p : FirstProgram) (limits : Limits) (input : List ℕ) (n : ℕ) → (joint p limits input n).taken ≡ 0 }
{}

/// A call has three units beside those of its putchars, which have two each.
pub fn units_are_counted()
    ensures { (p : FirstProgram) → length (units_of p) ≡ length p.calls * (3 + 2 * length p.puts) }
{}

/// The smallest program has six units: the call, its parameter made, the call of putchar, the byte, the parameter ended, and the end.
pub fn the_smallest_has_six_units()
    ensures units { (label : List ℕ) (c : ℕ) → units_of (record { label = label; calls = c ∷ []; puts = Parameter ∷ [] })
        ≡ None ∷ None ∷ None ∷ Some (c % 256) ∷ None ∷ [] }
    ensures ends { (p : FirstProgram) (limits : Limits) → FitsIn p limits
        → length p.calls ≡ 1 → length p.puts ≡ 1 → (input : List ℕ)
        → ((joint p limits input 5).ending ≡ Running) × ((joint p limits input 6).ending ≡ Stopped (pos 0)) }
{}
