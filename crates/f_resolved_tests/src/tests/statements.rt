//! Forms of statements.

use super::{in_module, in_program, none, number, whole};
use f_resolved::{
    Allocate, Allocation, AllocationRange, Assignment, Call, Callee, Count, Do, Executable,
    Intrinsic, LoopControl, Named,
};
use jf_base::{Boxed, Memory};
use std::alloc::Global;

fn assigns(alloc: Global, root: Named) -> Result<bool, Memory> {
    let assignment = Assignment {
        target: whole(alloc, root),
        value: number(alloc)?,
    };
    super::holds(alloc, Executable::Assign(Boxed::new(alloc, assignment)?))
}

#[test]
fn variables_are_assigned(rt: HostRuntime) {
    let alloc = rt.alloc();
    assert!(rt; assigns(alloc, Named::Variable(in_program(0))) == Ok(true));
    assert!(rt; assigns(alloc, Named::Constant(in_module(1))) == Ok(false));
}

fn calls(alloc: Global, callee: Callee) -> Result<bool, Memory> {
    let call = Call {
        callee,
        arguments: none(alloc),
    };
    super::holds(alloc, Executable::Call(Boxed::new(alloc, call)?))
}

#[test]
fn subroutines_are_called(rt: HostRuntime) {
    let alloc = rt.alloc();
    assert!(rt; calls(alloc, Callee::Intrinsic(Intrinsic::CFPointer)) == Ok(true));
    assert!(rt; calls(alloc, Callee::Intrinsic(Intrinsic::CLoc)) == Ok(false));
    assert!(rt; calls(alloc, Callee::Procedure(0)) == Ok(false));
}

fn repeats(alloc: Global, variable: Named) -> Result<bool, Memory> {
    let count = Count {
        variable,
        first: number(alloc)?,
        last: number(alloc)?,
        step: None,
    };
    let turns = Do {
        control: LoopControl::Count(Boxed::new(alloc, count)?),
        body: none(alloc),
    };
    super::holds(alloc, Executable::Do(Boxed::new(alloc, turns)?))
}

#[test]
fn loops_count_in_scalar_integer_variables(rt: HostRuntime) {
    let alloc = rt.alloc();
    assert!(rt; repeats(alloc, Named::Variable(in_program(0))) == Ok(true));
    assert!(rt; repeats(alloc, Named::Variable(in_module(0))) == Ok(false));
    assert!(rt; repeats(alloc, Named::Constant(in_module(1))) == Ok(false));
    assert!(rt; repeats(alloc, Named::Variable(in_module(2))) == Ok(false));
}

fn allocates(alloc: Global, count: u8) -> Result<bool, Memory> {
    let mut ranges = none(alloc);
    for _ in 0..count {
        let upper = number(alloc)?;
        ranges.push(AllocationRange { lower: None, upper })?;
    }
    let mut objects = none(alloc);
    let object = Named::Variable(in_module(2));
    objects.push(Allocation { object, ranges })?;
    let allocate = Allocate {
        objects,
        status: None,
    };
    super::holds(alloc, Executable::Allocate(Boxed::new(alloc, allocate)?))
}

#[test]
fn allocation_gives_each_dimension_a_range(rt: HostRuntime) {
    let alloc = rt.alloc();
    assert!(rt; allocates(alloc, 2) == Ok(true));
    assert!(rt; allocates(alloc, 1) == Ok(false));
    assert!(rt; allocates(alloc, 0) == Ok(false));
}
