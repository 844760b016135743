ghost use Rattle.std.specs.Prelude.{ℕ, List, ◌≡◌, ◌≤◌};
ghost use Rattle.behaviour.specs.Run.{IsRun};
ghost use Rattle.flat_ir.specs.declared.program.FlatProgram.{FlatProgram};
ghost use Rattle.flat_ir.specs.Placement.{Placement};
ghost use Rattle.flat_ir.specs.Flat.{flat, flat_within};

/// A run of n units is the same at all bounds of n or more on the depth of calls and on how often loops go back.
pub fn depth_is_free()
    ensures { (p : FlatProgram) (g : Placement) (n d : ℕ) (input : List ℕ) → n ≤ d
        → flat_within p g d input n ≡ flat p g input n }
{}

/// What is seen of a program keeps the laws of a run: a unit shows at most one event, and after an end nothing changes.
pub fn flat_is_a_run()
    ensures { (p : FlatProgram) (g : Placement) (input : List ℕ) → IsRun (flat p g input) }
{}
