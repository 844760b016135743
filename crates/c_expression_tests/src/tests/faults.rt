//! The first fault of what can't be read, and how many tokens stand before it.

use super::{Form, Reading, check};
use c_grammar::Allowed;
use std::test::Fail;

const OF_EXPRESSIONS: &str = "; => form at 0
+ => form at 1
( => form at 1
( a => form at 2
( ) => form at 1
( a ; ) => form at 2
a + => form at 2
a * / b => form at 2
a [ => form at 2
a [ ] => form at 2
a [ 1 => form at 3
a [ 1 ) => form at 3
f ( => form at 2
f ( a , ) => form at 4
f ( , a ) => form at 2
f ( a ; => form at 3
s . 1 => form at 1
s . => form at 1
p -> ( m ) => form at 1
a ? b => form at 3
a ? : b => form at 2
a ? b , : c => form at 4
a ? b : => form at 4
a = => form at 2
a = ; => form at 2
a , => form at 2
T => form at 0
a + T => form at 2
T ( a ) => form at 0
sizeof => form at 1
sizeof ( T => form at 3
sizeof ( T a ) => form at 3
sizeof ( ) => form at 2
sizeof T => form at 1
sizeof ( int ) a => < sizeof { int _ } > .. 1
( int => form at 2
( int ) => form at 3
( T a ) b => form at 2
return => form at 0
goto => form at 0
{ a } => form at 0";

const OF_UNARY_OPERANDS: &str = "++ ( T ) a => form at 1
-- ( int ) a => form at 1
sizeof ( ( T ) a ) => < sizeof ( < cast { T _ } a > ) >
sizeof - ( T ) a => < sizeof < - < cast { T _ } a > > >
- ( T ) a => < - < cast { T _ } a > >
++ - a => < ++ < - a > >";

const OF_SPECIFIERS: &str = "a => form at 0
struct => form at 1
struct ; => form at 1
struct s { => form at 3
struct s { int a } => form at 5
struct s { int a => form at 5
struct s { int ; } => form at 4
struct s { a ; } => form at 3
struct s { int a : 3 ; } => form at 5
struct s { int a , ; } => form at 6
struct s { int * ; } => form at 5
enum => form at 1
enum { } => form at 2
enum { 1 } => form at 2
enum { a , , } => form at 4
enum { a b } => form at 3
enum { a = } => form at 4
enum { a = 1 => form at 5
enum { a = b = c } => form at 5
CFI_CDESC_T => form at 1
CFI_CDESC_T ( ) => form at 1
CFI_CDESC_T ( 16 ) => form at 1
CFI_CDESC_T ( a ) => form at 1
CFI_CDESC_T ( 3 => form at 1";

const OF_NAMED: &str = "int => form at 1
int * => form at 2
int ( => form at 2
int ( a => form at 3
int ( ) => form at 2
int ( * ) => form at 3
int [ 3 ] => form at 1
int a [ => form at 3
int a [ 3 => form at 4
int a [ 1 , 2 ] => form at 4
int a [ int ] => form at 3
int f ( => form at 3
int f ( int => form at 4
int f ( a ) => form at 3
int f ( int , ) => form at 5
int f ( int ; => form at 4
int f ( int a b ) => form at 5
int const => form at 2
int restrict a => form at 1";

const OF_ABSTRACT: &str = "int ( a ) => form at 2
int ( * a ) => form at 3
int ( * => form at 3
int [ => form at 2
int ( [ 3 ] => form at 5
a => form at 0
int ( * ( a ) ) => form at 4";

#[test]
fn expressions_that_break_off(rt: HostRuntime) -> Result<(), Fail> {
    check(
        &rt,
        rt.alloc(),
        Reading::of(Form::Expression),
        OF_EXPRESSIONS,
    )
}

#[test]
fn what_is_stepped_is_unary(rt: HostRuntime) -> Result<(), Fail> {
    check(
        &rt,
        rt.alloc(),
        Reading::of(Form::Expression),
        OF_UNARY_OPERANDS,
    )
}

#[test]
fn specifiers_that_break_off(rt: HostRuntime) -> Result<(), Fail> {
    check(
        &rt,
        rt.alloc(),
        Reading::of(Form::Specifiers),
        OF_SPECIFIERS,
    )
}

#[test]
fn declarators_that_lack_a_name(rt: HostRuntime) -> Result<(), Fail> {
    check(
        &rt,
        rt.alloc(),
        Reading::of(Form::Typed(Allowed::Named)),
        OF_NAMED,
    )
}

#[test]
fn names_of_types_that_break_off(rt: HostRuntime) -> Result<(), Fail> {
    check(
        &rt,
        rt.alloc(),
        Reading::of(Form::Typed(Allowed::Abstract)),
        OF_ABSTRACT,
    )
}
