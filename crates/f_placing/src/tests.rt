//! What single statements do where something is open.

use crate::{Part, Role, Scope, State, name_begun, role};
use f_lex::{Spanned, lex};
use f_statement_read::{Statement, read_statement};
use jf_base::{List, Refusal};
use std::alloc::{AllocError, Global};
use std::test::Fail;

// The tokens of a line without the end of its statement, or none.
fn tokens(alloc: Global, text: &str) -> Result<Vec<Spanned>, AllocError> {
    match lex(alloc, 0, 0, text.as_bytes()) {
        Ok(mut tokens) => {
            tokens.pop();
            Ok(tokens)
        }
        Err(Refusal::Memory) => Err(AllocError),
        Err(Refusal::At { .. }) => Ok(Vec::new(alloc)),
    }
}

fn read(alloc: Global, text: &str) -> Result<Option<Statement>, AllocError> {
    let tokens = tokens(alloc, text)?;
    Ok(read_statement(alloc, &tokens).ok())
}

// What a statement does in a unit or a type of the name `p`, where it is one.
fn does(alloc: Global, state: State, text: &str) -> Result<Option<Role>, AllocError> {
    let mut name = List::from_vec(Vec::new(alloc));
    name.push(b'p')?;
    Ok(match &read(alloc, text)? {
        None => None,
        Some(statement) => Some(role(state, &name, statement)),
    })
}

#[test]
fn an_if_construct_has_one_else(rt: HostRuntime) -> Result<(), Fail> {
    assert!(rt;
        matches!(
            does(rt.alloc(), State::If, "else")?,
            Some(Role::Stays(State::Else))
        )
    );
    assert!(rt; matches!(does(rt.alloc(), State::Else, "else")?, Some(Role::NoPlace)));
    assert!(rt;
        matches!(
            does(rt.alloc(), State::If, "else if (a) then")?,
            Some(Role::Stays(State::If))
        )
    );
    assert!(rt; matches!(does(rt.alloc(), State::Else, "end if")?, Some(Role::Leaves)));
    assert!(rt; matches!(does(rt.alloc(), State::Do, "end if")?, Some(Role::NoPlace)));
    Ok(())
}

#[test]
fn a_block_stands_behind_its_case(rt: HostRuntime) -> Result<(), Fail> {
    assert!(rt;
        matches!(
            does(rt.alloc(), State::SelectCase, "i = 1")?,
            Some(Role::NoPlace)
        )
    );
    assert!(rt;
        matches!(
            does(rt.alloc(), State::SelectCase, "case (1)")?,
            Some(Role::Stays(State::Case))
        )
    );
    assert!(rt;
        matches!(
            does(rt.alloc(), State::Case, "i = 1")?,
            Some(Role::Stays(State::Case))
        )
    );
    Ok(())
}

#[test]
fn an_end_names_its_unit(rt: HostRuntime) -> Result<(), Fail> {
    let program = State::Unit(Scope::Program, Part::Executing);
    assert!(rt; matches!(does(rt.alloc(), program, "end")?, Some(Role::Leaves)));
    assert!(rt;
        matches!(
            does(rt.alloc(), program, "end program p")?,
            Some(Role::Leaves)
        )
    );
    assert!(rt;
        matches!(
            does(rt.alloc(), program, "end program q")?,
            Some(Role::NoPlace)
        )
    );
    assert!(rt;
        matches!(
            does(rt.alloc(), program, "end module p")?,
            Some(Role::NoPlace)
        )
    );
    Ok(())
}

#[test]
fn a_specification_part_has_an_order(rt: HostRuntime) -> Result<(), Fail> {
    let begun = State::Unit(Scope::Program, Part::Beginning);
    assert!(rt; matches!(does(rt.alloc(), begun, "use m")?, Some(Role::Stays(_))));
    assert!(rt; matches!(does(rt.alloc(), begun, "import")?, Some(Role::NoPlace)));
    let declared = State::Unit(Scope::Program, Part::BehindImplicit);
    assert!(rt; matches!(does(rt.alloc(), declared, "use m")?, Some(Role::NoPlace)));
    assert!(rt;
        matches!(
            does(rt.alloc(), declared, "integer i")?,
            Some(Role::Stays(_))
        )
    );
    let executing = State::Unit(Scope::Program, Part::Executing);
    assert!(rt;
        matches!(
            does(rt.alloc(), executing, "integer i")?,
            Some(Role::NoPlace)
        )
    );
    Ok(())
}

#[test]
fn a_component_has_no_value(rt: HostRuntime) -> Result<(), Fail> {
    assert!(rt;
        matches!(
            does(rt.alloc(), State::Type, "integer, dimension(3) :: a, b")?,
            Some(Role::Stays(State::Type))
        )
    );
    assert!(rt;
        matches!(
            does(rt.alloc(), State::Type, "integer :: a, b = 1")?,
            Some(Role::NoPlace)
        )
    );
    assert!(rt;
        matches!(
            does(rt.alloc(), State::Type, "integer, save :: a")?,
            Some(Role::NoPlace)
        )
    );
    Ok(())
}

#[test]
fn what_begins_has_its_name(rt: HostRuntime) -> Result<(), Fail> {
    let name = match &read(rt.alloc(), "module shapes")? {
        Some(statement) => name_begun(rt.alloc(), statement)?,
        None => List::from_vec(Vec::new(rt.alloc())),
    };
    assert!(rt; name.as_slice() == b"shapes".as_slice());
    Ok(())
}
