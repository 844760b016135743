//! Loops.

use super::check;
use std::test::Fail;

const WHILES: &str = "while ( a ) b ; => while expression
while ( a ) ; => while nothing
while ( a ) while ( b ) c ; => while while expression
do a ; while ( b ) ; => do expression
do { a ; } while ( b ) ; c => do block expression .. 1
do do a ; while ( b ) ; while ( c ) ; => do do expression
do while ( a ) b ; while ( c ) ; => do while expression";

const FORS: &str = "for ( ; ; ) ; => for nothing
for ( a ; b ; c ) d ; => for expression
for ( a ; ; ) ; => for nothing
for ( ; b ; ) ; => for nothing
for ( ; ; c ) ; => for nothing
for ( a , b ; c , d ; e , f ) break ; => for break
for ( int a = 0 ; a < n ; a ++ ) continue ; => for continue
for ( int a = 0 , * p = b ; ; ) { } => for block
for ( T a = 0 ; ; ) for ( ; ; ) b ; => for for expression";

#[test]
fn loops_with_a_test(rt: HostRuntime) -> Result<(), Fail> {
    check(&rt, rt.alloc(), WHILES)
}

#[test]
fn loops_with_a_declaration_with_expressions_and_with_none(rt: HostRuntime) -> Result<(), Fail> {
    check(&rt, rt.alloc(), FORS)
}
