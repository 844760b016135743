ghost use Rattle.std.specs.Prelude.{◌≡◌, ℕ, List, All};
ghost use Rattle.flat_ir.specs.Placement.{Placement};
ghost use Rattle.flatten.specs.declared.blocks.BlockProgram.{BlockProgram};
ghost use Rattle.flatten.specs.declared.blocks.BlockProc.{BlockProc};
ghost use Rattle.flatten.specs.Blocks.{blocks};
ghost use Rattle.flatten.specs.Named.{ProcsNamed};
ghost use Rattle.flatten.specs.Paths.{UsesAreSet, AllUsesAreSet};
ghost use Rattle.block_homes.specs.declared.homes.Assignment.{Assignment};
ghost use Rattle.block_homes.specs.Homed.{Cells, homed};
ghost use Rattle.block_homes.specs.Valid.{IsNamed, AllValid};

/// A valid assignment keeps each value until its last use: a program with each value at its home does at each step what it does with each value in a place of its own, wherever it is placed, whatever its input, and whatever lies in the homes of a procedure that is entered.
pub fn valid_homes_keep_values()
    ensures { (q : BlockProgram) (assignments : List Assignment) → AllValid q.procs assignments
        → (entered : ℕ → Cells) (g : Placement) (input : List ℕ) (m : ℕ) → homed q assignments entered g input m ≡ blocks q g input m }
{}

/// What `flatten` says of its procedures is what homes ask of each: it names what is there, and each use has a definition before it on every path.
pub fn flattened_procedures_are_named()
    ensures named { (procs bytes : ℕ) (qs : List BlockProc) → ProcsNamed procs bytes qs → All IsNamed qs }
    ensures set_first { (qs : List BlockProc) → AllUsesAreSet qs → All UsesAreSet qs }
{}
