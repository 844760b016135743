//! How flat memory stands for storage with loans, and that every kind of step keeps it: whether a loan's bytes lie where its places are, or were copied to
//! a region of their own, can't be seen.
#![tactic(auto)]

ghost use Rattle.std.specs.Prelude.{◌≡◌, ◌≢◌, ℕ, ◌+◌, ◌<◌, ◌≤◌, Some, List, [], ◌∷◌, length, map, Bool, false, None, pos};
ghost use Rattle.storage_model.specs.declared.cell.Place.{Place};
ghost use Rattle.storage_model.specs.declared.cell.View.{View};
ghost use Rattle.storage_model.specs.declared.cell.Cell.{Cell};
ghost use Rattle.storage_model.specs.declared.cell.Spot.{Spot};
ghost use Rattle.storage_model.specs.declared.cell.Kind.{Kind};
ghost use Rattle.storage_model.specs.declared.cell.Pointer.TheVariants.{At};
ghost use Rattle.storage_model.specs.Storage.{Storage, at, places, On, IsHome, cell_at, has_cells, size_of, Good};
ghost use Rattle.storage_model.specs.Chain.{cell_under};
ghost use Rattle.storage_model.specs.Access.{check_read, check_write, write_all, read_all};
ghost use Rattle.storage_model.specs.Ends.{check_end, end_one, make_one, new_object};
ghost use Rattle.storage_model.specs.Loans.{check_open, place_of, new_loan, open_one, close_one};
ghost use Rattle.storage_relation.specs.Relation.{Readable, IsLast};
ghost use Rattle.storage_relation.specs.Flat.{Shows, Stands, Placement, address, closing, gather, AllKnown, AllStand, store_all, StartsLoan, Passes, Copies, StartsObject, Fills, OneView, IsViewOf};
ghost use Rattle.storage_relation.specs.Scenes.{twice_lent, nested, nested_memory};
ghost use Rattle.storage_model.specs.Tags.{V07};
ghost use Rattle.storage_model.specs.declared.cell.View.TheVariants.{Loan};
ghost use Rattle.storage_relation.specs.Run.{State, Step, Steps, IsEmpty};

/// Every kind of step keeps the relation: a read and a write of a byte, the opening of a loan that is passed or copied, the closing of the last loan,
/// the making and the end of an object, and a change of a descriptor.
pub fn steps_keep_it()
    ensures { (a b : State) → Step a b → Shows a.storage a.placement a.memory → Shows b.storage b.placement b.memory }
{}

/// Copying can't be seen: over any run without a violation, the flat byte at the address of each byte that can be read stands for its home cell,
/// whichever loans were passed and whichever were copied.
pub fn copying_is_unseen()
    ensures { (a b : State) → IsEmpty a.storage → Steps a b
        → (p h : Place) → Good b.storage p → Readable b.storage p → IsHome h.view → On (places b.storage) p h
        → Stands b.placement (cell_at b.storage h) (b.memory (address b.placement p)) }
{}

/// A write that is allowed is the stores of its bytes.
pub fn allowed_write_is_stores()
    ensures { (s : Storage) (f : Placement) (memory : ℕ → ℕ) → Shows s f memory
        → (v : View) (k a : ℕ) (cs : List Cell) (bs : List ℕ) → check_write s (At v (pos k)) (length cs) a ≡ None
        → AllKnown s.made s.opened cs → AllStand f cs bs
        → Shows (write_all s v k cs) f (store_all memory (f.start v + k) bs) }
{}

/// A read that is allowed is the loads of its bytes.
pub fn allowed_read_is_loads()
    ensures { (s : Storage) (f : Placement) (memory : ℕ → ℕ) → Shows s f memory
        → (v : View) (k n a : ℕ) → check_read s (At v (pos k)) n a ≡ None
        → ((x : ℕ) → x < n → Stands f (cell_under s (at v (k + x))) (memory (f.start v + (k + x)))) × Shows (read_all s v k n) f memory }
{}

/// The end of an object that may end asks nothing of the flat side.
pub fn allowed_end_is_nothing()
    ensures { (s : Storage) (f : Placement) (memory : ℕ → ℕ) → Shows s f memory → (n : ℕ) → check_end s n ≡ None → Shows (end_one s n) f memory }
{}

/// Closing the last loan is a scatter of all its bytes where it was copied and is writable, and else nothing.
pub fn closing_is_a_scatter()
    ensures { (s : Storage) (f : Placement) (memory : ℕ → ℕ) → Shows s f memory → (n : ℕ) → IsLast s n → Shows (close_one s n) f (closing s f n memory) }
{}

/// Opening a loan is nothing where its bytes lie in a row already and it is passed, and a gather where it is copied.
pub fn allowed_open_is_a_gather()
    ensures passed { (s : Storage) (f g : Placement) (memory : ℕ → ℕ) → Shows s f memory → (spots : List Spot) (w : Bool) → check_open s spots ≡ None
        → StartsLoan s f g → Passes s (new_loan (map place_of spots) w) f g → Shows (open_one s (new_loan (map place_of spots) w)) g memory }
    ensures copied { (s : Storage) (f g : Placement) (memory : ℕ → ℕ) → Shows s f memory → (spots : List Spot) (w : Bool) → check_open s spots ≡ None
        → StartsLoan s f g → Copies s (new_loan (map place_of spots) w) f g
        → Shows (open_one s (new_loan (map place_of spots) w)) g (gather s (new_loan (map place_of spots) w) f g memory) }
{}

/// Making an object fills its region.
pub fn making_fills_a_region()
    ensures { (s : Storage) (f g : Placement) (memory after : ℕ → ℕ) → Shows s f memory → (size : ℕ) (kind : Kind) (cells : List Cell)
        → (has_cells kind ≡ false → cells ≡ []) → AllKnown s.made s.opened cells
        → StartsObject s (new_object size kind cells) f g → Fills s (new_object size kind cells) g memory after
        → Shows (make_one s (new_object size kind cells)) g after }
{}

/// Pointers into different live objects have different addresses, where all places of each loan are in one view.
pub fn pointers_stay_apart()
    ensures { (s : Storage) (f : Placement) (memory : ℕ → ℕ) → Shows s f memory → OneView s
        → (v w : View) (o m k j : ℕ) → IsViewOf s v o → IsViewOf s w m → o ≢ m → k ≤ size_of s v → j ≤ size_of s w
        → f.start v + k ≢ f.start w + j }
{}

/// Where a loan ends twice at one home byte, a write through it is V07.
pub fn twice_is_refused()
    ensures { check_write twice_lent (At (Loan 1) (pos 0)) 1 1 ≡ Some V07 }
{}

/// Every second of nine bytes is lent, and every second of those; zeros through the inner loan arrive at bytes 0, 4 and 8.
pub fn nested_copies_arrive()
    ensures allowed { check_write nested (At (Loan 1) (pos 0)) 3 1 ≡ None }
    ensures arrived { map nested_memory (16 ∷ 17 ∷ 18 ∷ 19 ∷ 20 ∷ 21 ∷ 22 ∷ 23 ∷ 24 ∷ []) ≡ 0 ∷ 2 ∷ 3 ∷ 4 ∷ 0 ∷ 6 ∷ 7 ∷ 8 ∷ 0 ∷ [] }
{}
