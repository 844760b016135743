ghost use Rattle.std.specs.Prelude.{◌≡◌, ◌<◌, ◌↔◌, IsTrue, ℕ, true, false, length, map, IfOk, OnOk, OnErr};
ghost use Rattle.std.specs.List.{list_all};
ghost use Rattle.storage_model.specs.Storage.{is_live, is_memory};
ghost use Rattle.storage_model.specs.Loans.{check_open, spot_in_range, place_of, new_loan, open_one, close_one, check_close};
ghost use Rattle.storage_model.specs.Listings.{PlacesGood, PlacesListed, fresh_byte, lent, IsLast, StandsGood};
ghost use Rattle.storage_model.specs.Held.{loan_of};
ghost use Rattle.storage_model.specs.Answers.{Answers, IfDone, UnlessDone, WantsNothing};
ghost use Rattle.storage_model.specs.Model.{model};

use crate::access::{V21, start_of};
use crate::cell::{Did, Place, Spot, View};
use crate::held::{Cover, HeldLoan, LoanByte};
use crate::pointer::{V01, V02};
use crate::storage::Storage;
use std::alloc::{AllocError, Global};

/// A byte of a new loan at a place.
fn fresh(place: Spot) -> LoanByte
    ensures { result ≡ fresh_byte place }
{
    fresh_at(place.view, place.offset)
}

fn fresh_at(view: View, offset: i64) -> LoanByte
    ensures { result ≡ fresh_byte (record { view = view; offset = offset }) }
{
    LoanByte {
        place: Place {
            view,
            offset: start_of(offset).unwrap_or(0),
        },
        written: false,
        read: false,
    }
}

fn fresh_bytes(alloc: Global, places: &[Spot]) -> Result<Vec<LoanByte>, AllocError>
    ensures { IfOk result (λ v. v.items ≡ map fresh_byte places.now) }
{
    places.iter().map(|place| fresh(*place)).collect(alloc)
}

impl Storage {
    fn all_live(&self, places: &[Spot]) -> bool
        ensures { result ≡ list_all (λ p. is_live (model self.now) p.view) places.now }
    {
        places.iter().all(|place| self.is_live(place.view))
    }

    fn in_range(&self, view: View, offset: i64) -> bool
        ensures { result ≡ spot_in_range (model self.now) (record { view = view; offset = offset }) }
    {
        match start_of(offset) {
            None => false,
            Some(start) => start < self.size_of(view),
        }
    }

    fn all_in_range(&self, places: &[Spot]) -> bool
        ensures { result ≡ list_all (spot_in_range (model self.now)) places.now }
    {
        places
            .iter()
            .all(|place| self.in_range(place.view, place.offset))
    }

    fn all_memory(&self, places: &[Spot]) -> bool
        ensures { result ≡ list_all (λ p. is_memory (model self.now) (place_of p)) places.now }
    {
        places.iter().all(|place| self.is_memory(place.view))
    }

    /// Lists the bytes of a new loan.
    fn list_loan(&mut self, loan: u32, bytes: &[LoanByte]) -> Result<(), AllocError>
        requires { PlacesGood (model self.old) bytes.now }
        ensures model { model self.new ≡ model self.old }
        ensures listed { OnOk result (PlacesListed (model self.old) self.new.covers.items loan bytes.now (length bytes.now)) }
    {
        for k in 0..bytes.len() {
            let home = self.walk(bytes[k].place, 1).home;
            self.list_cover(
                home,
                Cover {
                    loan,
                    byte: k as u64,
                },
            )?;
        }
        Ok(())
    }

    /// One more loan.
    fn add_loan(&mut self, loan: HeldLoan) -> Result<(), AllocError>
        requires is_open { loan.is_open ≡ true }
        requires places { PlacesGood (model self.old) loan.bytes.items }
        requires listed { PlacesListed (model self.old) self.old.covers.items (model self.old).opened loan.bytes.items (length loan.bytes.items) }
        ensures opened { OnOk result (model self.new ≡ open_one (model self.old) (loan_of loan)) }
        ensures unchanged { OnErr result (model self.new ≡ model self.old) }
    {
        self.loans.push(loan)?;
        Ok(())
    }

    /// Opens a loan of these bytes.
    fn open_bytes(&mut self, bytes: Vec<LoanByte>, writable: bool) -> Did<u32>
        requires { PlacesGood (model self.old) bytes.items }
        ensures no_violation { Answers result None }
        ensures number { IfDone result (λ l. l ≡ (model self.old).opened) }
        ensures opened { IfDone result (λ _. model self.new ≡ open_one (model self.old) (lent bytes.items writable)) }
        ensures unchanged { UnlessDone result (model self.new ≡ model self.old) }
    {
        let number = self.loans.len();
        if number > u32::MAX as usize {
            return Did::Memory;
        }
        let number = number as u32;
        if self.list_loan(number, bytes.as_slice()).is_err() {
            return Did::Memory;
        }
        let loan = HeldLoan {
            bytes,
            is_open: true,
            writable,
        };
        if self.add_loan(loan).is_err() {
            return Did::Memory;
        }
        Did::Done(number)
    }

    /// Opens a loan over these places, one for each of its bytes in order. A place in no live view is V02, one out of range V01, and one in a
    /// descriptor object V21, each asked of all places before the next (ISO/IEC 1539-1:2018 15.5.2.13). A violation, and want of memory, change
    /// nothing; numbers from 2^32 on are never to be had.
    pub fn open_loan(&mut self, places: Vec<Spot>, writable: bool) -> Did<u32>
        ensures answer { Answers result (check_open (model self.old) places.items) }
        ensures number { IfDone result (λ l. l ≡ (model self.old).opened) }
        ensures done { IfDone result (λ _. model self.new ≡ open_one (model self.old) (new_loan (map place_of places.items) writable)) }
        ensures unchanged { UnlessDone result (model self.new ≡ model self.old) }
    {
        if !self.all_live(places.as_slice()) {
            return Did::Violation(V02);
        }
        if !self.all_in_range(places.as_slice()) {
            return Did::Violation(V01);
        }
        if !self.all_memory(places.as_slice()) {
            return Did::Violation(V21);
        }
        match fresh_bytes(self.alloc, places.as_slice()) {
            Ok(bytes) => self.open_bytes(bytes, writable),
            Err(_) => Did::Memory,
        }
    }

    fn set_closed(&mut self, loan: u32)
        requires live { is_live (model self.old) (View.Loan loan) ≡ true }
        requires last { IsLast (model self.old) loan }
        ensures { model self.new ≡ close_one (model self.old) loan }
    {
        let held = &mut self.loans[loan as usize];
        held.is_open = false;
    }

    /// Takes the bytes of a closed loan from the lists.
    fn unlist_loan(&mut self, loan: u32)
        requires made { loan < (model self.old).opened }
        requires closed { ((model self.old).loan loan).is_open ≡ false }
        requires places { StandsGood (model self.old) loan }
        ensures { model self.new ≡ model self.old }
    {
        let count = self.loans[loan as usize].bytes.len();
        for k in 0..count {
            let place = self.loans[loan as usize].bytes[k].place;
            let home = self.walk(place, 1).home;
            self.unlist(home, loan);
        }
    }

    /// Closes a loan, of which none that was opened later is open. One that isn't open is V02. A violation changes nothing.
    pub fn close_loan(&mut self, loan: u32) -> Did<()>
        requires { IsLast (model self.old) loan }
        ensures answer { Answers result (check_close (model self.old) loan) }
        ensures memory { WantsNothing result }
        ensures done { IfDone result (λ _. model self.new ≡ close_one (model self.old) loan) }
        ensures unchanged { UnlessDone result (model self.new ≡ model self.old) }
    {
        if !self.is_live(View::Loan(loan)) {
            return Did::Violation(V02);
        }
        self.set_closed(loan);
        self.unlist_loan(loan);
        Did::Done(())
    }

    /// Whether no loan that was opened later is open, as closing it asks.
    pub fn is_last(&self, loan: u32) -> bool
        ensures { IsTrue result ↔ IsLast (model self.now) loan }
    {
        for l in loan as usize..self.loans.len() {
            if l > loan as usize && self.loans[l].is_open {
                return false;
            }
        }
        true
    }
}
