//! Declarators, with a name and without, and what they tell of it.

use super::words::tokens_of;
use super::{DEPTH, Form, Reading, check, end_of, types};
use c_expression_read::{is_typedef, name_of, read_typed};
use c_grammar::Allowed;
use std::alloc::{AllocError, Global};
use std::test::Fail;

const NAMED: &str = "int a => { int a }
int * a => { int * a }
int * const * restrict a => { int * const * restrict a }
int a [ ] => { int a [ ] }
int a [ 2 ] [ 3 ] => { int a [ 2 ] [ 3 ] }
int a [ b + 1 ] => { int a [ < b + 1 > ] }
int f ( ) => { int f ( ) }
int f ( void ) => { int f ( void ) }
int f ( int a , char * ) => { int f ( { int a } , { char * _ } ) }
int * f ( int ) => { int * f ( { int _ } ) }
int ( * f ) ( int ) => { int ( * f ) ( { int _ } ) }
int ( * f ( int ) ) ( char ) => { int ( * f ( { int _ } ) ) ( { char _ } ) }
int ( * a [ 3 ] ) ( void ) => { int ( * a [ 3 ] ) ( void ) }
int * ( * ( * a ) [ 2 ] ) ( int ) => { int * ( * ( * a ) [ 2 ] ) ( { int _ } ) }
int ( ( a ) ) => { int ( ( a ) ) }
int ( a ) [ 3 ] => { int ( a ) [ 3 ] }
int ( * a ) [ 3 ] => { int ( * a ) [ 3 ] }
int f ( int ( * ) ( char ) , int ( * g ) ( char ) ) => { int f ( { int ( * _ ) ( { char _ } ) } , { int ( * g ) ( { char _ } ) } ) }
unsigned T => { unsigned T }
const * a => { const * a }
int f ( const ) => { int f ( { const _ } ) }
T T => { T T }
T ( T ) => { T ( T ) }";

const ABSTRACT: &str = "int => { int _ }
int * => { int * _ }
int * const => { int * const _ }
int [ 3 ] => { int _ [ 3 ] }
int [ ] [ 3 ] => { int _ [ ] [ 3 ] }
int ( ) => { int _ ( ) }
int ( void ) => { int _ ( void ) }
int ( T ) => { int _ ( { T _ } ) }
int ( * ) [ 3 ] => { int ( * _ ) [ 3 ] }
int ( * ) ( void ) => { int ( * _ ) ( void ) }
int ( * [ 3 ] ) ( ) => { int ( * _ [ 3 ] ) ( ) }
int * ( * ( * ) ( int ) ) [ 2 ] => { int * ( * ( * _ ) ( { int _ } ) ) [ 2 ] }
int ( ( * ) ) => { int ( ( * _ ) ) }
int ( [ 3 ] ) => { int ( _ [ 3 ] ) }
int ( ( ) ) => { int ( _ ( ) ) }
int a => { int _ } .. 1";

const PARAMETERS: &str = "int a => { int a }
int => { int _ }
int ( a ) => { int ( a ) }
int ( T ) => { int _ ( { T _ } ) }
int ( ( T ) ) => { int ( _ ( { T _ } ) ) }
int ( * a ) ( T ) => { int ( * a ) ( { T _ } ) }
int T => { int T }
int ( ) => { int _ ( ) }
void => { void _ }
void * => { void * _ }";

const LISTS: &str = "f ( void * ) => f ( { void * _ } )
f ( void a ) => f ( { void a } )
f ( void , int ) => f ( { void _ } , { int _ } )
f ( const void ) => f ( { const void _ } )
f ( T ) => f ( { T _ } )
f ( int ( T ) ) => f ( { int _ ( { T _ } ) } )
f ( int ( t ) ) => f ( { int ( t ) } )
f ( int a [ 2 ] [ 3 ] ) => f ( { int a [ 2 ] [ 3 ] } )
a = 1 => a .. 2
a : => a .. 1";

#[test]
fn declarators_with_a_name(rt: HostRuntime) -> Result<(), Fail> {
    check(
        &rt,
        rt.alloc(),
        Reading::of(Form::Typed(Allowed::Named)),
        NAMED,
    )
}

#[test]
fn names_of_types(rt: HostRuntime) -> Result<(), Fail> {
    check(
        &rt,
        rt.alloc(),
        Reading::of(Form::Typed(Allowed::Abstract)),
        ABSTRACT,
    )
}

#[test]
fn parameters_with_a_name_and_without(rt: HostRuntime) -> Result<(), Fail> {
    check(
        &rt,
        rt.alloc(),
        Reading::of(Form::Typed(Allowed::Either)),
        PARAMETERS,
    )
}

#[test]
fn lists_of_parameters(rt: HostRuntime) -> Result<(), Fail> {
    check(
        &rt,
        rt.alloc(),
        Reading::of(Form::Declarator(Allowed::Named)),
        LISTS,
    )
}

// The name that is declared, and whether it is one of a type; none for a text that isn't read.
fn declared(alloc: Global, text: &str) -> Result<Option<(Option<u32>, bool)>, AllocError> {
    let tokens = tokens_of(alloc, text)?;
    let mut scope = types(alloc)?;
    let end = end_of(&tokens);
    match read_typed(alloc, end, DEPTH, Allowed::Either, &mut scope, &tokens) {
        Err(_) => Ok(None),
        Ok((typed, _)) => Ok(Some((
            name_of(&typed.declarator),
            is_typedef(typed.specifiers.as_slice()),
        ))),
    }
}

#[test]
fn a_declarator_tells_its_name(rt: HostRuntime) -> Result<(), Fail> {
    let alloc = rt.alloc();
    let a = Some(u32::from(b'a'));
    for text in [
        "int a",
        "int ( * ( a ) ( int b ) ) [ 3 ]",
        "T const * a [ 2 ]",
    ] {
        assert!(rt; declared(alloc, text)? == Some((a, false)), "of {text}");
    }
    for text in ["int", "int ( * ) ( int a )", "struct { int a ; } *"] {
        assert!(rt; declared(alloc, text)? == Some((None, false)), "of {text}");
    }
    for text in ["typedef int a", "int const typedef * a [ 3 ]"] {
        assert!(rt; declared(alloc, text)? == Some((a, true)), "of {text}");
    }
    Ok(())
}
