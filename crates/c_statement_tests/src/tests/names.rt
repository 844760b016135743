//! Names of types that are shadowed in a block, in a loop and in a choice. `T * a ;` is a declaration where T is one of a type, and an expression where it isn't.

use super::check;
use std::test::Fail;

const SHADOWED: &str = "{ T * a ; } => block declaration
{ t * a ; } => block expression
{ int T ; T * a ; } => block expression
{ int b , T ; T * a ; } => block expression
{ enum { T } b ; T * a ; } => block expression
{ unsigned T ; T * a ; } => block expression
{ unsigned T ; U * a ; } => block declaration
{ T T ; T * a ; } => block expression
{ sizeof ( enum { T } ) ; T * a ; } => block expression
{ case sizeof ( enum { T } ) : ; T * a ; } => block expression
{ typedef int t ; t * a ; } => block declaration
{ int T = sizeof ( T ) ; T * a ; } => block expression
{ int T ; { T * a ; } } => block block expression
{ int T ; { typedef int T ; T * a ; } } => block block declaration";

const SEEN_AGAIN: &str = "{ { int T ; } T * a ; } => block declaration
{ { enum { T } b ; } T * a ; } => block declaration
{ { typedef int t ; } t * a ; } => block expression
{ for ( int T = 0 ; T < 3 ; T ++ ) b ; T * a ; } => block declaration
{ for ( int T = 0 ; ; ) T * a ; } => block for expression
{ for ( ; ; ) { int T ; } T * a ; } => block declaration
{ if ( sizeof ( enum { T } ) ) T * a ; } => block if expression
{ if ( sizeof ( enum { T } ) ) b ; else T * a ; T * a ; } => block declaration
{ while ( sizeof ( enum { T } ) ) T * a ; T * a ; } => block declaration
{ switch ( sizeof ( enum { T } ) ) T * a ; T * a ; } => block declaration
{ do b ; while ( sizeof ( enum { T } ) ) ; T * a ; } => block declaration
{ if ( b ) sizeof ( enum { T } ) ; T * a ; } => block declaration
{ int T ; { int T ; } T * a ; } => block expression";

const NOT_BEFORE: &str = "do T * a ; while ( sizeof ( enum { T } ) ) ; => form at 1
if ( a ) sizeof ( enum { T } ) ; else T * a ; => form at 13
if ( a ) T * b ; => form at 4
case 1 : T * a ; => form at 3
{ T + 1 ; } => form at 2
{ int T ; T a ; } => form at 5";

#[test]
fn a_name_of_a_type_is_shadowed_in_a_block(rt: HostRuntime) -> Result<(), Fail> {
    check(&rt, rt.alloc(), SHADOWED)
}

#[test]
fn a_shadowed_name_is_seen_again_behind_its_scope(rt: HostRuntime) -> Result<(), Fail> {
    check(&rt, rt.alloc(), SEEN_AGAIN)
}

#[test]
fn a_declaration_is_no_statement(rt: HostRuntime) -> Result<(), Fail> {
    check(&rt, rt.alloc(), NOT_BEFORE)
}
