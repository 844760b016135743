//! Programs of two units as trees: a name that two modules have, a module that isn't there, and what the names of a program denote that keeps the rules.

use crate::{Scopes, scopes};
use f_items::ScopeKind;
use f_tree::{
    Action, Declaration, Ending, EndingForm, Entity, Expression, Module, Name, Part, Program,
    Reference, Specification, Statement, TypeSpec, Unit, Use, UseList, Variables,
};
use f_use::Origins;
use jf_base::{List, Place, Refusal};
use std::alloc::{AllocError, Global};
use std::process::Abort;
use std::test::Fail;

fn place(line: u32) -> Place {
    Place {
        file: 0,
        line,
        column: 1,
    }
}

fn one<T: Drop>(alloc: Global, item: T) -> Result<List<T>, AllocError> {
    let mut all = List::from_vec(Vec::new(alloc));
    all.push(item)?;
    Ok(all)
}

fn none<T>(alloc: Global) -> List<T> {
    List::from_vec(Vec::new(alloc))
}

fn name(alloc: Global, text: &str, line: u32) -> Result<Name, AllocError> {
    Ok(Name {
        bytes: List::from_vec(text.as_bytes().to_vec(alloc)?),
        place: place(line),
    })
}

fn ending(line: u32) -> Ending {
    Ending {
        place: place(line),
        form: EndingForm::Bare,
        name: None,
    }
}

fn reference(alloc: Global, text: &str, line: u32) -> Result<Reference, AllocError> {
    Ok(Reference {
        first: Part {
            name: name(alloc, text, line)?,
            arguments: None,
            substring: None,
        },
        others: none(alloc),
    })
}

// `integer :: k`
fn variable(alloc: Global, line: u32) -> Result<Declaration, AllocError> {
    let entity = Entity {
        name: name(alloc, "k", line)?,
        dimensions: None,
        initial: None,
    };
    Ok(Declaration::Variables(Variables {
        declared: TypeSpec::Integer {
            place: place(line),
            kind: None,
        },
        attributes: none(alloc),
        has_colons: true,
        entities: one(alloc, entity)?,
    }))
}

// A module of this name with a variable `k`.
fn module(alloc: Global, text: &str, line: u32) -> Result<Unit, AllocError> {
    Ok(Unit::Module(Module {
        place: place(line),
        name: name(alloc, text, line)?,
        specification: Specification {
            uses: none(alloc),
            import: None,
            implicit_none: Some(place(line)),
            declarations: one(alloc, variable(alloc, line)?)?,
        },
        procedures: None,
        ending: ending(line),
    }))
}

// `use m`
fn used(alloc: Global, line: u32) -> Result<Specification, AllocError> {
    let statement = Use {
        place: place(line),
        is_intrinsic: false,
        has_colons: false,
        module: name(alloc, "m", line)?,
        list: UseList::All,
    };
    Ok(Specification {
        uses: one(alloc, statement)?,
        import: None,
        implicit_none: Some(place(line)),
        declarations: none(alloc),
    })
}

// `k = k`
fn assignment(alloc: Global, line: u32) -> Result<Statement, AllocError> {
    let value = Expression::Reference(reference(alloc, "k", line)?);
    Ok(Statement::Action(Action::Assign {
        target: reference(alloc, "k", line)?,
        value,
    }))
}

// A program that uses the module `m` and names `k`.
fn program(alloc: Global, line: u32) -> Result<Unit, AllocError> {
    let specification = used(alloc, line)?;
    Ok(Unit::Program(Program {
        place: place(line),
        name: name(alloc, "p", line)?,
        specification,
        body: one(alloc, assignment(alloc, line)?)?,
        ending: ending(line),
        tokens: 0,
    }))
}

// A module of this name at line 1, and another unit.
fn units(alloc: Global, text: &str, other: Unit) -> Result<Vec<Unit>, AllocError> {
    let mut all = Vec::new(alloc);
    all.push(module(alloc, text, 1)?)?;
    all.push(other)?;
    Ok(all)
}

// The tag and the line of the first broken rule, if one is broken.
fn broken(alloc: Global, units: &[Unit]) -> Result<Option<(u16, u32)>, AllocError> {
    match scopes(alloc, units) {
        Ok(_) => Ok(None),
        Err(Refusal::Memory) => Err(AllocError),
        Err(Refusal::At { place, tag }) => Ok(Some((tag.0, place.line))),
    }
}

#[test]
fn two_modules_of_one_name(rt: HostRuntime) -> Result<(), Fail> {
    let alloc = rt.alloc();
    let units = units(alloc, "m", module(alloc, "m", 2)?)?;
    assert_eq!(rt; broken(alloc, &units)?, Some((301, 2)));
    Ok(())
}

#[test]
fn a_module_that_is_not_there(rt: HostRuntime) -> Result<(), Fail> {
    let alloc = rt.alloc();
    let units = units(alloc, "n", program(alloc, 3)?)?;
    assert_eq!(rt; broken(alloc, &units)?, Some((304, 3)));
    Ok(())
}

// The names of the module are 75 to 78 behind 75 names that are there before a program, those of the program 79 to 84; `k` is 77.
fn look_at_names(rt: &impl Abort, scopes: &Scopes) {
    let found = Some(Origins {
        first: 77,
        other: None,
    });
    assert_eq!(rt; scopes.find(3, b"k"), found);
    assert_eq!(rt; scopes.find(2, b"k"), found);
    assert!(rt; scopes.find(3, b"n").is_none());
    assert!(rt; scopes.find(1, b"k").is_none());
    assert!(rt; scopes.find(4, b"k").is_none());
    assert!(rt; scopes.find(3, b"abs").is_some());
    assert_eq!(rt; scopes.references().get(83), Some(&Some(77)));
}

fn look_at_scopes(rt: &impl Abort, scopes: &Scopes) {
    assert_eq!(rt; scopes.count(), 4);
    assert_eq!(rt; scopes.kind(2), Some(ScopeKind::Module));
    assert_eq!(rt; scopes.kind(3), Some(ScopeKind::Program));
    assert_eq!(rt; scopes.host(3), Some(0));
    assert!(rt; scopes.host(0).is_none());
    assert_eq!(rt; scopes.scope_of(83), Some(3));
    assert!(rt; scopes.item(84).is_some());
    assert!(rt; scopes.item(85).is_none());
}

#[test]
fn names_of_a_module(rt: HostRuntime) -> Result<(), Fail> {
    let alloc = rt.alloc();
    let units = units(alloc, "m", program(alloc, 3)?)?;
    match scopes(alloc, &units) {
        Err(_) => assert!(rt; false),
        Ok(scopes) => {
            look_at_names(&rt, &scopes);
            look_at_scopes(&rt, &scopes);
        }
    }
    Ok(())
}
