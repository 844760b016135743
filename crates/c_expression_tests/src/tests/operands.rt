//! Primary expressions, postfix and prefix operators, sizes and conversions.

use super::{Form, Reading, check};
use std::test::Fail;

const PRIMARY: &str = "a => a
1 => 1
2u => 2u
3l => 3l
4ul => 4ul
5ll => 5ll
18446744073709551615ull => 18446744073709551615ull
'x' => 'x'
\"0\" => \"0\"
\"0\" \"1\" \"2\" => \"0\" \"1\" \"2\"
( a ) => ( a )
( ( a ) ) => ( ( a ) )
( a , b ) => ( < a , b > )";

const POSTFIX: &str = "a [ 1 ] => < a [ 1 ] >
a [ b , c ] => < a [ < b , c > ] >
f ( ) => < f ( ) >
f ( a ) => < f ( a ) >
f ( a , b = c , 1 ) => < f ( a , < b = c > , 1 ) >
f ( ( a , b ) , c ) => < f ( ( < a , b > ) , c ) >
s . m => < s . m >
p -> m => < p -> m >
a ++ => < a ++ >
a -- => < a -- >
a [ i ] ( x ) . m -> n ++ -- => < a [ i ] ( x ) . m -> n ++ -- >
f ( a ) ( b ) [ c ] => < f ( a ) ( b ) [ c ] >
( * p ) ( a ) => < ( < * p > ) ( a ) >
\"0\" [ 1 ] => < \"0\" [ 1 ] >
1 [ a ] => < 1 [ a ] >
s . T => < s . T >";

const PREFIX: &str = "++ a => < ++ a >
-- a => < -- a >
& a => < & a >
* a => < * a >
+ a => < + a >
- a => < - a >
~ a => < ~ a >
! a => < ! a >
- - ! ~ a => < - < - < ! < ~ a > > > >
& * p => < & < * p > >
* p ++ => < * < p ++ > >
++ * p => < ++ < * p > >
++ a ++ => < ++ < a ++ > >
- a [ 1 ] . m => < - < a [ 1 ] . m > >
* f ( a ) => < * < f ( a ) > >
- ( T ) a => < - < cast { T _ } a > >";

const SIZES: &str = "sizeof a => < sizeof a >
sizeof ( a ) => < sizeof ( a ) >
sizeof ( T ) => < sizeof { T _ } >
sizeof ( int * ) => < sizeof { int * _ } >
sizeof ( t ) [ 0 ] => < sizeof < ( t ) [ 0 ] > >
sizeof ( T ) [ 0 ] => < sizeof { T _ } > .. 3
sizeof ( t ) - 1 => < < sizeof ( t ) > - 1 >
sizeof ( T ) - 1 => < < sizeof { T _ } > - 1 >
sizeof - a => < sizeof < - a > >
sizeof * p => < sizeof < * p > >
sizeof sizeof a => < sizeof < sizeof a > >
sizeof a ++ => < sizeof < a ++ > >
sizeof a + b => < < sizeof a > + b >
sizeof ( int [ sizeof ( T ) ] ) => < sizeof { int _ [ < sizeof { T _ } > ] } >
sizeof ( ( T ) a ) => < sizeof ( < cast { T _ } a > ) >";

const CONVERSIONS: &str = "( T ) - 1 => < cast { T _ } < - 1 > >
( t ) - 1 => < ( t ) - 1 >
( T ) + a => < cast { T _ } < + a > >
( t ) + a => < ( t ) + a >
( T ) * p => < cast { T _ } < * p > >
( t ) * p => < ( t ) * p >
( T ) & a => < cast { T _ } < & a > >
( t ) & a => < ( t ) & a >
( T ) ( a ) => < cast { T _ } ( a ) >
( t ) ( a ) => < ( t ) ( a ) >
( T ) ( U ) a => < cast { T _ } < cast { U _ } a > >
( T ) a + b => < < cast { T _ } a > + b >
( T ) a . m [ 1 ] => < cast { T _ } < a . m [ 1 ] > >
( T ) sizeof ( U ) => < cast { T _ } < sizeof { U _ } > >
( int * ) p => < cast { int * _ } p >
( const unsigned char * const ) p => < cast { const unsigned char * const _ } p >
( const ) a => < cast { const _ } a >
( struct s * ) p => < cast { struct s * _ } p >
( enum e ) a => < cast { enum e _ } a >
( int ( * ) ( char ) ) f => < cast { int ( * _ ) ( { char _ } ) } f >
( int ( * [ 2 ] ) ( void ) ) f => < cast { int ( * _ [ 2 ] ) ( void ) } f >
( CFI_cdesc_t * ) & a => < cast { CFI_cdesc_t * _ } < & a > >";

#[test]
fn primary_expressions(rt: HostRuntime) -> Result<(), Fail> {
    check(&rt, rt.alloc(), Reading::of(Form::Expression), PRIMARY)
}

#[test]
fn postfix_operators_stand_in_their_order(rt: HostRuntime) -> Result<(), Fail> {
    check(&rt, rt.alloc(), Reading::of(Form::Expression), POSTFIX)
}

#[test]
fn prefix_operators_take_what_stands_behind(rt: HostRuntime) -> Result<(), Fail> {
    check(&rt, rt.alloc(), Reading::of(Form::Expression), PREFIX)
}

#[test]
fn sizes_of_types_and_of_expressions(rt: HostRuntime) -> Result<(), Fail> {
    check(&rt, rt.alloc(), Reading::of(Form::Expression), SIZES)
}

#[test]
fn a_type_in_parentheses_converts(rt: HostRuntime) -> Result<(), Fail> {
    check(&rt, rt.alloc(), Reading::of(Form::Expression), CONVERSIONS)
}
