//! Names of types that are shadowed and seen again.

use super::{Form, Reading, check, told, types};
use c_grammar::Allowed;
use std::test::Fail;

const ENUMERATORS: &str = "sizeof ( enum { T } ) + T => < < sizeof { enum { T } _ } > + T >
sizeof ( enum { T } ) , ( T ) - 1 => < < sizeof { enum { T } _ } > , < ( T ) - 1 > >
( T ) sizeof ( enum { T } ) , ( T ) - 1 => < < cast { T _ } < sizeof { enum { T } _ } > > , < ( T ) - 1 > >
( enum { T } ) a * T => < < cast { enum { T } _ } a > * T >
f ( sizeof ( enum { T } ) , T ) => < f ( < sizeof { enum { T } _ } > , T ) >
a ? sizeof ( enum { T } ) : T => < a ? < sizeof { enum { T } _ } > : T >
sizeof ( enum { T = sizeof ( T ) , a = T } ) => < sizeof { enum { T = < sizeof { T _ } > , a = T } _ } >
sizeof ( struct { enum { T } a ; } ) , T => < < sizeof { struct { enum { T } a ; } _ } > , T >
sizeof ( enum { T } ) , sizeof ( int [ T ] ) => < < sizeof { enum { T } _ } > , < sizeof { int _ [ T ] } > >";

const PARAMETERS: &str = "int ( * f ( int T ) ) ( T ) => { int ( * f ( { int T } ) ) ( { T _ } ) }
int f ( T T , int a [ T ] ) => { int f ( { T T } , { int a [ T ] } ) }
int f ( int T , int a [ sizeof ( T ) ] ) => { int f ( { int T } , { int a [ < sizeof ( T ) > ] } ) }
int f ( int T , T ) => form at 6
int f ( typedef int t , t a ) => { int f ( { typedef int t } , { t a } ) }
int f ( enum { T } a , int b [ T ] ) => { int f ( { enum { T } a } , { int b [ T ] } ) }
int ( * f ( enum { T } ) ) ( T ) => { int ( * f ( { enum { T } _ } ) ) ( { T _ } ) }
int f ( int ( * g ) ( int T ) , T a ) => { int f ( { int ( * g ) ( { int T } ) } , { T a } ) }
int f ( int ( T ) , T a ) => { int f ( { int _ ( { T _ } ) } , { T a } ) }";

const MEMBERS: &str = "struct { int T ; T a ; } => struct { int T ; T a ; }
struct { int T , U ; T a , b [ sizeof ( U ) ] ; } => struct { int T , U ; T a , b [ < sizeof { U _ } > ] ; }
struct { enum { T } a ; int b [ T ] ; } => struct { enum { T } a ; int b [ T ] ; }
struct T { T T ; } => struct T { T T ; }
enum T { a = sizeof ( T ) } => enum T { a = < sizeof { T _ } > }";

#[test]
fn an_enumerator_shadows_behind_its_value(rt: HostRuntime) -> Result<(), Fail> {
    check(&rt, rt.alloc(), Reading::of(Form::Expression), ENUMERATORS)
}

#[test]
fn a_parameter_shadows_in_its_list(rt: HostRuntime) -> Result<(), Fail> {
    check(
        &rt,
        rt.alloc(),
        Reading::of(Form::Typed(Allowed::Named)),
        PARAMETERS,
    )
}

#[test]
fn members_and_tags_shadow_nothing(rt: HostRuntime) -> Result<(), Fail> {
    check(&rt, rt.alloc(), Reading::of(Form::Specifiers), MEMBERS)
}

#[test]
fn a_shadowed_name_is_one_of_a_type_again(rt: HostRuntime) -> Result<(), Fail> {
    let alloc = rt.alloc();
    let reading = Reading::of(Form::Expression);
    let mut scope = types(alloc)?;
    let mark = scope.mark();
    scope.bind(Some(u32::from(b'T')), false)?;
    let shadowed = told(alloc, reading, &mut scope, "( T ) - 1")?;
    assert_eq!(rt; shadowed.as_str(), "< ( T ) - 1 >");
    scope.end(mark);
    let again = told(alloc, reading, &mut scope, "( T ) - 1")?;
    assert_eq!(rt; again.as_str(), "< cast { T _ } < - 1 > >");
    Ok(())
}

#[test]
fn what_is_read_declares_for_what_is_read_behind_it(rt: HostRuntime) -> Result<(), Fail> {
    let alloc = rt.alloc();
    let reading = Reading::of(Form::Expression);
    let mut scope = types(alloc)?;
    let size = told(alloc, reading, &mut scope, "sizeof ( enum { T } )")?;
    assert_eq!(rt; size.as_str(), "< sizeof { enum { T } _ } >");
    let behind = told(alloc, reading, &mut scope, "( T ) - 1")?;
    assert_eq!(rt; behind.as_str(), "< ( T ) - 1 >");
    Ok(())
}
