ghost use Rattle.std.specs.Prelude.{◌<◌};

use crate::{Cell, Did, Kind, Pointer, Spot, Storage, View};
use jf_base::Tag;
use std::alloc::{AllocError, Global};
use std::process::Abort;
use std::test::Fail;

fn at(view: View, offset: i64) -> Pointer {
    Pointer::At { view, offset }
}

fn done<T: Drop>(rt: &impl Abort, answer: Did<T>) -> T {
    match answer {
        Did::Done(x) => x,
        Did::Violation(_) => panic!(rt; "a violation"),
        Did::Memory => panic!(rt; "no memory"),
    }
}

// The number of the rule that is broken, and 0 where none is.
fn broken<T: Drop>(answer: Did<T>) -> u16 {
    match answer {
        Did::Done(_) => 0,
        Did::Violation(Tag(number)) => number,
        Did::Memory => 1,
    }
}

fn wants(rt: &impl Abort, found: u16, wanted: u16) {
    assert_eq!(rt; found, wanted);
}

fn has(rt: &impl Abort, found: &[Cell], wanted: &[Cell]) {
    assert!(rt; found == wanted);
}

// The places of `count` bytes of a view from the start on.
fn first_bytes(alloc: Global, view: View, count: i64) -> Result<Vec<Spot>, AllocError> {
    let mut places = Vec::new(alloc);
    for offset in 0..count {
        places.push(Spot { view, offset })?;
    }
    Ok(places)
}

// An object of eight bytes 1.
fn eight(rt: &impl Abort, s: &mut Storage) -> u32 {
    match s.make(8, Kind::Plain, &[Cell::Byte(1); 8]) {
        Ok(o) => o,
        Err(_) => panic!(rt; "no memory"),
    }
}

#[test]
fn a_write_through_a_loan_then_a_read_beside_it(rt: HostRuntime) -> Result<(), Fail> {
    let mut s = Storage::new(rt.alloc())?;
    let o = eight(&rt, &mut s);
    let l = done(
        &rt,
        s.open_loan(first_bytes(rt.alloc(), View::Home(o), 4)?, true),
    );
    wants(
        &rt,
        broken(s.write(at(View::Loan(l), 0), 1, &[Cell::Byte(7)])),
        0,
    );
    wants(&rt, broken(s.read(at(View::Home(o), 0), 1, 1)), 907);
    wants(&rt, broken(s.read(at(View::Home(o), 1), 1, 1)), 0);
    wants(&rt, broken(s.read(at(View::Home(o), 4), 4, 1)), 0);
    wants(
        &rt,
        broken(s.write(at(View::Home(o), 4), 1, &[Cell::Byte(2)])),
        0,
    );
    wants(
        &rt,
        broken(s.write(at(View::Home(o), 3), 1, &[Cell::Byte(2)])),
        907,
    );
    wants(&rt, broken(s.end(o)), 907);
    Ok(())
}

#[test]
fn a_read_beside_a_loan_then_a_write_through_it(rt: HostRuntime) -> Result<(), Fail> {
    let mut s = Storage::new(rt.alloc())?;
    let o = eight(&rt, &mut s);
    let l = done(
        &rt,
        s.open_loan(first_bytes(rt.alloc(), View::Home(o), 4)?, true),
    );
    let cells = done(&rt, s.read(at(View::Home(o), 0), 1, 1));
    has(&rt, &cells, &[Cell::Byte(1)]);
    wants(
        &rt,
        broken(s.write(at(View::Loan(l), 0), 1, &[Cell::Byte(7)])),
        907,
    );
    wants(
        &rt,
        broken(s.write(at(View::Loan(l), 1), 1, &[Cell::Byte(7)])),
        0,
    );
    Ok(())
}

#[test]
fn an_ended_object_is_used_no_more(rt: HostRuntime) -> Result<(), Fail> {
    let mut s = Storage::new(rt.alloc())?;
    let gone = eight(&rt, &mut s);
    wants(&rt, broken(s.end(gone)), 0);
    wants(&rt, broken(s.end(gone)), 902);
    wants(&rt, broken(s.read(at(View::Home(gone), 0), 1, 1)), 902);
    wants(&rt, broken(s.read(at(View::Home(gone), 0), 0, 1)), 902);
    wants(
        &rt,
        broken(s.equal(at(View::Home(gone), 0), Pointer::Null)),
        902,
    );
    Ok(())
}

#[test]
fn points_of_an_access_come_in_order(rt: HostRuntime) -> Result<(), Fail> {
    let mut s = Storage::new(rt.alloc())?;
    let o = eight(&rt, &mut s);
    wants(&rt, broken(s.read(Pointer::Null, 1, 1)), 904);
    wants(
        &rt,
        broken(s.read(
            Pointer::Proc {
                number: 0,
                proto: 0,
            },
            1,
            1,
        )),
        901,
    );
    wants(&rt, broken(s.read(at(View::Home(o), 5), 4, 4)), 901);
    wants(&rt, broken(s.read(at(View::Home(o), -1), 1, 1)), 901);
    wants(&rt, broken(s.read(at(View::Home(o), 2), 4, 4)), 905);
    wants(&rt, broken(s.read(at(View::Home(o), 9), 0, 4)), 0);
    Ok(())
}

#[test]
fn kinds_of_objects_are_kept_apart(rt: HostRuntime) -> Result<(), Fail> {
    let mut s = Storage::new(rt.alloc())?;
    let text = s.make(1, Kind::ReadOnly, &[Cell::Byte(65)])?;
    wants(
        &rt,
        broken(s.write(at(View::Home(text), 0), 1, &[Cell::Byte(66)])),
        906,
    );
    let described = s.make(24, Kind::Descriptor(0), &[])?;
    let whole = View::Home(described);
    wants(&rt, broken(s.read(at(whole, 0), 1, 1)), 921);
    wants(
        &rt,
        broken(s.open_loan(first_bytes(rt.alloc(), whole, 1)?, true)),
        921,
    );
    wants(&rt, broken(s.end(described)), 0);
    let fresh = s.make(1, Kind::Plain, &[])?;
    let cells = done(&rt, s.read(at(View::Home(fresh), 0), 1, 1));
    has(&rt, &cells, &[Cell::Undefined]);
    Ok(())
}

// Whether the answer is that the pointers are equal.
fn are_equal(rt: &impl Abort, s: &Storage, a: Pointer, b: Pointer) -> bool {
    done(rt, s.equal(a, b))
}

#[test]
fn pointers_are_moved_and_compared(rt: HostRuntime) -> Result<(), Fail> {
    let mut s = Storage::new(rt.alloc())?;
    let a = eight(&rt, &mut s);
    let b = eight(&rt, &mut s);
    let end = at(View::Home(a), 8);
    let moved = done(&rt, s.moved(at(View::Home(a), 0), 8));
    assert!(rt; are_equal(&rt, &s, moved, end));
    wants(&rt, broken(s.moved(end, 1)), 901);
    wants(&rt, broken(s.moved(Pointer::Null, 0)), 904);
    assert!(rt; done(&rt, s.distance(end, at(View::Home(a), 2))) == 6);
    wants(&rt, broken(s.distance(end, at(View::Home(b), 0))), 911);
    assert!(rt; !are_equal(&rt, &s, end, at(View::Home(b), 0)));
    Ok(())
}

#[test]
fn views_of_one_object_are_not_compared(rt: HostRuntime) -> Result<(), Fail> {
    let mut s = Storage::new(rt.alloc())?;
    let a = eight(&rt, &mut s);
    let b = eight(&rt, &mut s);
    let l = done(
        &rt,
        s.open_loan(first_bytes(rt.alloc(), View::Home(a), 2)?, false),
    );
    wants(
        &rt,
        broken(s.equal(at(View::Loan(l), 0), at(View::Home(a), 0))),
        911,
    );
    assert!(rt; !are_equal(&rt, &s, at(View::Loan(l), 0), at(View::Home(b), 0)));
    wants(
        &rt,
        broken(s.write(at(View::Loan(l), 0), 1, &[Cell::Byte(3)])),
        906,
    );
    Ok(())
}

// The ways to the first byte of an object: its home, a loan over it, a loan over that, and one over that.
fn ways(rt: &impl Abort, alloc: Global, s: &mut Storage) -> Result<[View; 4], Fail> {
    let home = View::Home(eight(rt, s));
    let one = View::Loan(done(rt, s.open_loan(first_bytes(alloc, home, 4)?, true)));
    let two = View::Loan(done(rt, s.open_loan(first_bytes(alloc, one, 4)?, true)));
    let three = View::Loan(done(rt, s.open_loan(first_bytes(alloc, two, 4)?, true)));
    Ok([home, one, two, three])
}

// One pair of ways: a write by one, a read by the other, and a write through the last loan.
fn pair(rt: &impl Abort, alloc: Global, i: usize, j: usize) -> Result<(), Fail>
    requires i_in { i < 4 }
    requires j_in { j < 4 }
{
    let mut s = Storage::new(alloc)?;
    let way = ways(rt, alloc, &mut s)?;
    // only the last loan has no other beside it
    let wrote = broken(s.write(at(way[i], 0), 1, &[Cell::Byte(9)]));
    wants(rt, wrote, if i == 3 { 0 } else { 907 });
    let read = broken(s.read(at(way[j], 0), 1, 1));
    wants(rt, read, if i == 3 && j != 3 { 907 } else { 0 });
    // a byte that was read beside a loan isn't written through it
    let again = broken(s.write(at(way[3], 0), 1, &[Cell::Byte(8)]));
    wants(rt, again, if i != 3 && j != 3 { 907 } else { 0 });
    Ok(())
}

#[test]
fn every_pair_of_ways_through_nested_loans(rt: HostRuntime) -> Result<(), Fail> {
    for i in 0..4usize {
        for j in 0..4usize {
            pair(&rt, rt.alloc(), i, j)?;
        }
    }
    Ok(())
}

// Closes the last loan that is open.
fn close(rt: &impl Abort, s: &mut Storage, loan: u32) -> u16 {
    assert!(rt; s.is_last(loan));
    broken(s.close_loan(loan))
}

// The cell that a read of one byte gives.
fn cell(rt: &impl Abort, s: &mut Storage, view: View, offset: i64) -> Vec<Cell> {
    done(rt, s.read(at(view, offset), 1, 1))
}

#[test]
fn what_was_written_through_a_loan_is_there_after_it_closes(rt: HostRuntime) -> Result<(), Fail> {
    let mut s = Storage::new(rt.alloc())?;
    let way = ways(&rt, rt.alloc(), &mut s)?;
    wants(&rt, broken(s.write(at(way[3], 0), 1, &[Cell::Byte(9)])), 0);
    wants(&rt, close(&rt, &mut s, 2), 0);
    wants(&rt, broken(s.read(at(way[3], 0), 1, 1)), 902);
    has(&rt, &cell(&rt, &mut s, way[2], 0), &[Cell::Byte(9)]);
    has(&rt, &cell(&rt, &mut s, way[2], 1), &[Cell::Byte(1)]);
    wants(&rt, broken(s.read(at(way[0], 0), 1, 1)), 907);
    wants(&rt, close(&rt, &mut s, 1), 0);
    wants(&rt, close(&rt, &mut s, 0), 0);
    has(&rt, &cell(&rt, &mut s, way[0], 0), &[Cell::Byte(9)]);
    wants(&rt, close(&rt, &mut s, 0), 902);
    Ok(())
}

#[test]
fn a_look_sets_no_mark(rt: HostRuntime) -> Result<(), Fail> {
    let mut s = Storage::new(rt.alloc())?;
    let way = ways(&rt, rt.alloc(), &mut s)?;
    assert!(rt;
        s.peek(Spot {
            view: way[0],
            offset: 1
        }) == Some(Cell::Byte(1))
    );
    assert!(rt;
        s.peek(Spot {
            view: way[3],
            offset: 4
        }) == None
    );
    wants(&rt, broken(s.write(at(way[3], 1), 1, &[Cell::Byte(9)])), 0);
    Ok(())
}
