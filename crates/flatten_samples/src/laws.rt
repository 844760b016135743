ghost use Rattle.std.specs.Prelude.{◌≡◌, [], ◌∷◌, pos};
ghost use Rattle.behaviour.specs.Behaviour.{Running, Stopped, Limited, Frames, Objects};
ghost use Rattle.flat_ir.specs.Flat.{flat};
ghost use Rattle.flatten.specs.Blocks.{blocks};
ghost use Rattle.flatten.specs.Code.{program_code};
ghost use Rattle.flatten.specs.Paths.{UsesAreSet};
ghost use Rattle.flatten_samples.specs.Samples.{placed, kinds, calls_itself, leaves_two, sets_on_one_path};

/// Each kind of statement does its work: the run ends with its eleventh unit, and its blocks with their fortieth step.
pub fn each_kind_of_statement_does_its_work()
    ensures first { flat kinds placed (65 ∷ []) 3 ≡ record { output = 66 ∷ []; taken = 1; ending = Running } }
    ensures before { flat kinds placed (65 ∷ []) 10 ≡ record { output = 66 ∷ 67 ∷ 68 ∷ 69 ∷ []; taken = 1; ending = Running } }
    ensures last { flat kinds placed (65 ∷ []) 11 ≡ record { output = 66 ∷ 67 ∷ 68 ∷ 69 ∷ []; taken = 1; ending = Stopped (pos 67) } }
    ensures blocks_none { blocks (program_code kinds) placed (65 ∷ []) 4 ≡ record { output = []; taken = 1; ending = Running } }
    ensures blocks_first { blocks (program_code kinds) placed (65 ∷ []) 5 ≡ record { output = 66 ∷ []; taken = 1; ending = Running } }
    ensures blocks_before { blocks (program_code kinds) placed (65 ∷ []) 39 ≡ record { output = 66 ∷ 67 ∷ 68 ∷ 69 ∷ []; taken = 1; ending = Running } }
    ensures blocks_last { blocks (program_code kinds) placed (65 ∷ []) 40 ≡ record { output = 66 ∷ 67 ∷ 68 ∷ 69 ∷ []; taken = 1; ending = Stopped (pos 67) } }
    ensures no_input { flat kinds placed [] 11 ≡ record { output = 0 ∷ 67 ∷ 68 ∷ 69 ∷ []; taken = 0; ending = Stopped (pos 67) } }
    ensures blocks_no_input { blocks (program_code kinds) placed [] 40 ≡ record { output = 0 ∷ 67 ∷ 68 ∷ 69 ∷ []; taken = 0; ending = Stopped (pos 67) } }
{}

/// A procedure that calls itself is ended by the limit of frames when the next frame doesn't fit, and not before.
pub fn a_call_of_itself_ends_at_the_limit_of_frames()
    ensures fits { flat calls_itself placed [] 8 ≡ record { output = 120 ∷ 120 ∷ 120 ∷ 120 ∷ []; taken = 0; ending = Running } }
    ensures ends { flat calls_itself placed [] 9 ≡ record { output = 120 ∷ 120 ∷ 120 ∷ 120 ∷ []; taken = 0; ending = Limited Frames } }
    ensures blocks_fit { blocks (program_code calls_itself) placed [] 12 ≡ record { output = 120 ∷ 120 ∷ 120 ∷ 120 ∷ []; taken = 0; ending = Running } }
    ensures blocks_end { blocks (program_code calls_itself) placed [] 13 ≡ record { output = 120 ∷ 120 ∷ 120 ∷ 120 ∷ []; taken = 0; ending = Limited Frames } }
{}

/// A break leaves the loop that it names.
pub fn two_loops_are_left_at_once()
    ensures goes { flat leaves_two placed [] 2 ≡ record { output = 97 ∷ []; taken = 0; ending = Running } }
    ensures ends { flat leaves_two placed [] 3 ≡ record { output = 97 ∷ []; taken = 0; ending = Limited Objects } }
    ensures blocks_go { blocks (program_code leaves_two) placed [] 6 ≡ record { output = 97 ∷ []; taken = 0; ending = Running } }
    ensures blocks_end { blocks (program_code leaves_two) placed [] 7 ≡ record { output = 97 ∷ []; taken = 0; ending = Limited Objects } }
{}

/// A use that is reached on one path without a definition is no use that is set on every path.
pub fn a_value_set_on_one_path_alone_is_not_set()
    ensures { ¬ UsesAreSet sets_on_one_path }
{}
