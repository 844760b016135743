ghost use Rattle.std.specs.Prelude.{ℕ, List, [], ◌≡◌};
ghost use Rattle.behaviour.specs.Follows.{Follows};
ghost use Rattle.jf_base.specs.Limits.{AreLimits};
ghost use Rattle.first_form.specs.declared.program.FirstProgram.{FirstProgram};
ghost use Rattle.first_meaning.specs.Joint.{joint};
ghost use Rattle.first_meaning.specs.Units.{seen_until};
ghost use Rattle.flat_ir.specs.Placement.{Placement};
ghost use Rattle.flat_ir.specs.Flat.{flat};
ghost use Rattle.first_flat.specs.Lowered.{lowered};
ghost use Rattle.first_flat.specs.Course.{flat_course};

/// Wherever the code of a program is placed, under any limits and over any input, it comes to the units and the end of its course.
pub fn structured_code_does_its_units()
    ensures { (p : FirstProgram) (g : Placement) (input : List ℕ) (n : ℕ)
        → flat (lowered p) g input n ≡ seen_until (flat_course p g.limits).end [] (flat_course p g.limits).units n }
{}

/// Wherever the code of a program is placed, under all limits in range and over any input, it shows what the joint meaning shows:
/// the same bytes and the same end, the stop code or the limit, by at most one unit more.
pub fn structured_code_follows_the_joint_meaning()
    ensures { (p : FirstProgram) (g : Placement) → AreLimits g.limits → (input : List ℕ)
        → Follows 1 (flat (lowered p) g input) (joint p g.limits input) }
{}
