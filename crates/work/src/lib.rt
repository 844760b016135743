//! Work as trees of acts, calls and loops; what is told of it at each number of units; and how one work does what another does.
//! Each function below is a law that its contract states, of all acts A, values V, memories M and places P.
#![tactic(auto)]

ghost use Rattle.std.specs.Prelude.{Bool, IsTrue, ℕ, List, ◌+◌, ◌≡◌, ◌≤◌};
ghost use Rattle.behaviour.specs.Behaviour.{Behaviour};
ghost use Rattle.behaviour.specs.Run.{IsRun};
ghost use Rattle.behaviour.specs.Follows.{Follows};
ghost use Rattle.work.specs.Work.{Outcome, Work, Over, Do, Call, Loop, Procedure, Rules};
ghost use Rattle.work.specs.Run.{World, Back, does, starting, behaviour_of, within, whole};
ghost use Rattle.work.specs.Whole.{free, around, through, from};
ghost use Rattle.work.specs.Steps.{Waiting, back_of, run_after, step_work};
ghost use Rattle.work.specs.Like.{LikeMain, LikeProcedures};
ghost use Rattle.work.specs.Same.{Same, Sheds};

/// What is seen of a program keeps the laws of a run.
pub fn work_is_a_run<A, V, M, P>()
    ensures { (r : Rules A V M P) (ps : ℕ → Procedure A V P) (main : Procedure A V P)
        (m : M) (input : List ℕ) → IsRun (behaviour_of r ps main m input) }
{}

/// A run of n units is the same at all bounds of n or more on the depth of calls and the turns of loops.
pub fn depth_is_free<A, V, M, P>()
    ensures { (r : Rules A V M P) (ps : ℕ → Procedure A V P) (main : Procedure A V P)
        (m : M) (input : List ℕ) (n d : ℕ) → n ≤ d
        → within r ps main m input d n ≡ whole r ps main m input n }
{}

/// A run that is cut off at some depth tells nothing that the whole run doesn't tell.
pub fn a_cut_run_settles<A, V, M, P>()
    ensures { (r : Rules A V M P) (ps : ℕ → Procedure A V P) (main : Procedure A V P)
        (m : M) (input : List ℕ) (d i : ℕ)
        → (n : ℕ) × (within r ps main m input d i ≡ whole r ps main m input n) }
{}

/// With no bound but its units, work goes form by form: a loop's turn is a unit where the loop goes back, and a call is a unit in which its frame is charged.
pub fn work_goes_form_by_form<A, V, M, P>()
    ensures outcome { (r : Rules A V M P) (ps : ℕ → Procedure A V P) (o : Outcome V)
        (back : Back V M P) (w : World M) (n : ℕ) → free r ps (Over o) back w n ≡ back o w n }
    ensures act { (r : Rules A V M P) (ps : ℕ → Procedure A V P) (at : P) (a : A)
        (k : V → Work A V P) (back : Back V M P) (w : World M) (n : ℕ)
        → free r ps (Do at a k) back w n ≡ does (r.deed at a w.memory) w (λ v. free r ps (k v) back) n }
    ensures call { (r : Rules A V M P) (ps : ℕ → Procedure A V P) (p : ℕ) (vs : List V)
        (k : List V → Work A V P) (back : Back V M P) (w : World M) (n : ℕ)
        → free r ps (Call p vs k) back w n
        ≡ through r ps (ps p) vs w (λ v. free r ps (k v) back) (r.enter (ps p).frame w.memory) n }
    ensures turn { (r : Rules A V M P) (ps : ℕ → Procedure A V P) (s : List V)
        (body : List V → Work A V P) (k : Outcome V → Work A V P) (back : Back V M P) (w : World M) (n : ℕ)
        → free r ps (Loop s body k) back w n ≡ free r ps (body s) (around r ps body k back) w n }
    ensures program { (r : Rules A V M P) (ps : ℕ → Procedure A V P) (main : Procedure A V P)
        (m : M) (input : List ℕ) (n : ℕ) → whole r ps main m input n
        ≡ from r ps main (starting m input) (r.enter main.frame m) n }
{}

/// A machine with a stack does work step by step: what is told of a state is told behind its step.
pub fn a_stack_does_the_work<A, V, M, P>()
    ensures { (r : Rules A V M P) (ps : ℕ → Procedure A V P) (c : Work A V P)
        (stack : List (Waiting A V P)) (w : World M) (n : ℕ)
        → free r ps c (back_of r ps stack) w n ≡ run_after r ps w (step_work r ps c stack w) n }
{}

/// Where each procedure of a second program does what that of a first program does, unit for unit and up to a violation of the first, and the main procedures do so too, the second program follows the first.
/// Memories and values correspond by tests here, since no contract speaks of all relations on a type; `proofs/Like.antt` has the same for each relation.
pub fn like_work_follows<A, V, M, P, B, W, N, Q>()
    ensures { (r : Rules A V M P) (q : Rules B W N Q)
        (mem : M → N → Bool) (vals : List V → List W → Bool)
        (ps : ℕ → Procedure A V P) (qs : ℕ → Procedure B W Q)
        → LikeProcedures r q (λ m n. IsTrue (mem m n)) (λ vs ws. IsTrue (vals vs ws)) ps qs
        → (main : Procedure A V P) (main' : Procedure B W Q) (m : M) (n : N)
        → LikeMain r q (λ m n. IsTrue (mem m n)) (λ vs ws. IsTrue (vals vs ws)) main main' m n
        → (input : List ℕ) → Follows 1 (behaviour_of q qs main' n input) (behaviour_of r ps main m input) }
{}

/// What does the same as a behaviour that is cut off at a depth, at each depth, follows that behaviour.
pub fn the_same_at_each_depth_follows()
    ensures { (price paid : ℕ) (a : ℕ → Behaviour) (b : Behaviour)
        → ((n d : ℕ) → n ≤ d → a d n ≡ a n n) → ((n : ℕ) → Same price paid n (a n) b)
        → Follows (paid + price) b (λ n. a n n) }
{}

/// So does what leaves out units that show nothing, where the cut behaviour shows nothing that the whole behaviour doesn't show.
pub fn shedding_at_each_depth_follows()
    ensures { (price paid : ℕ) (a : ℕ → Behaviour) (b : Behaviour)
        → ((d i : ℕ) → (n : ℕ) × (a d i ≡ a n n)) → ((n : ℕ) → Sheds price paid n (a n) b)
        → Follows (paid + price) b (λ n. a n n) }
{}
