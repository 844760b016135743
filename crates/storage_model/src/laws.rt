ghost use Rattle.std.specs.Prelude.{◌≡◌, ◌≢◌, ℕ, ℤ, pos, true, Some, None};
ghost use Rattle.std.specs.List.{list_all};
ghost use Rattle.storage_model.specs.declared.cell.Place.{Place as PlaceOf};
ghost use Rattle.storage_model.specs.declared.cell.Cell.{Cell as CellOf};
ghost use Rattle.storage_model.specs.declared.cell.View.TheVariants.{Home, Loan};
ghost use Rattle.storage_model.specs.declared.cell.Pointer.TheVariants.{At};
ghost use Rattle.storage_model.specs.Tags.{V02, V07};
ghost use Rattle.storage_model.specs.Storage.{Storage as StorageOf, at, places, is_memory, Good, On};
ghost use Rattle.storage_model.specs.Laws.{IsSound};
ghost use Rattle.storage_model.specs.Chain.{chain_of, home_of, cell_under, aligned_to, may_write};
ghost use Rattle.storage_model.specs.Access.{check_read, check_write, write_one, read_one};
ghost use Rattle.storage_model.specs.Ends.{check_end, end_one};
ghost use Rattle.storage_model.specs.Loans.{close_one};

/// A read gives what the last write put there, by whichever way each goes, and a write changes no other byte.
pub fn read_gives_the_last_write()
    ensures here { (s : StorageOf) → IsSound s → (p q : PlaceOf) → Good s q → home_of s p ≡ home_of s q → (c : CellOf)
        → cell_under (write_one s p c) q ≡ c }
    ensures elsewhere { (s : StorageOf) → IsSound s → (p q : PlaceOf) → Good s q → home_of s p ≢ home_of s q → (c : CellOf)
        → cell_under (write_one s p c) q ≡ cell_under s q }
{}

/// What is written through a loan is at the home byte after the loan is closed, and closing changes nothing that wasn't written.
pub fn writes_through_a_loan_arrive()
    ensures written { (s : StorageOf) → IsSound s → (l k : ℕ) → Good s (at (Loan l) k) → (c : CellOf)
        → cell_under (close_one (write_one s (at (Loan l) k) c) l) (home_of s (at (Loan l) k)) ≡ c }
    ensures unwritten { (s : StorageOf) (l : ℕ) (q : PlaceOf) → cell_under (close_one s l) q ≡ cell_under s q }
{}

/// Where one way to a byte goes through a loan and another doesn't, a write by the first and then a read by the second is V07, and so is a read by
/// the second and then a write by the first (ISO/IEC 1539-1:2018 15.5.2.13).
pub fn ways_exclude_one_another()
    ensures write_first { (s : StorageOf) → IsSound s → (p q : PlaceOf) → Good s p → Good s q → home_of s p ≡ home_of s q
        → (l k : ℕ) → On (places s) p (at (Loan l) k) → (On (places s) q (at (Loan l) k) → ⊥)
        → (c : CellOf) (a : ℕ) → list_all (aligned_to a) (chain_of s q) ≡ true → is_memory s q ≡ true
        → check_read (write_one s p c) (At q.view (pos q.offset)) 1 a ≡ Some V07 }
    ensures read_first { (s : StorageOf) → IsSound s → (p q : PlaceOf) → Good s p → Good s q → home_of s p ≡ home_of s q
        → (l k : ℕ) → On (places s) p (at (Loan l) k) → (On (places s) q (at (Loan l) k) → ⊥)
        → (a : ℕ) → list_all (aligned_to a) (chain_of s p) ≡ true → list_all (may_write s) (chain_of s p) ≡ true → is_memory s p ≡ true
        → check_write (read_one s q) (At p.view (pos p.offset)) 1 a ≡ Some V07 }
{}

/// After an object's end each access through a pointer into it is V02 (ISO/IEC 9899:2011 6.2.4 paragraph 2).
pub fn ended_objects_are_gone()
    ensures read { (s : StorageOf) → IsSound s → (o : ℕ) → check_end s o ≡ None → (z : ℤ) (n a : ℕ)
        → check_read (end_one s o) (At (Home o) z) n a ≡ Some V02 }
    ensures write { (s : StorageOf) → IsSound s → (o : ℕ) → check_end s o ≡ None → (z : ℤ) (n a : ℕ)
        → check_write (end_one s o) (At (Home o) z) n a ≡ Some V02 }
{}
