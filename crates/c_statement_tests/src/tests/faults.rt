//! The first fault of what can't be read, and how many tokens stand before it.

use super::check;
use std::test::Fail;

const SIMPLE: &str = "goto a ; => form at 0
else a ; => form at 0
} => form at 0
a => form at 1
a b ; => form at 1
a + ; => form at 2
T a ; => form at 0
break => form at 1
continue a ; => form at 1
return => form at 1
return a => form at 2
return a b ; => form at 2";

const BLOCKS: &str = "{ => form at 1
{ a ; => form at 3
{ a } => form at 2
{ int a } => form at 3
{ int a ; b } => form at 5
{ { a ; } => form at 5
{ a ; ) } => form at 3
{ a ; else } => form at 3";

const BRANCHES: &str = "if a ; => form at 1
if ( ) a ; => form at 2
if ( a ; => form at 3
if ( a ) => form at 4
if ( a ) int b ; => form at 4
if ( a ) b => form at 5
if ( a ) b ; else => form at 7
if ( a ) b ; else else => form at 7
switch a { } => form at 1
switch ( a ) => form at 4
case 1 b ; => form at 2
case : b ; => form at 1
case 1 : => form at 3
case 1 : int a ; => form at 3
default b ; => form at 1
default : } => form at 2";

const LOOPS: &str = "while a ; => form at 1
while ( a ) => form at 4
do => form at 1
do a while ( b ) ; => form at 2
do a ; => form at 3
do a ; until ( b ) ; => form at 3
do a ; while b ; => form at 4
do a ; while ( b ) => form at 7
for a ; => form at 1
for ( => form at 2
for ( a ) ; => form at 3
for ( ; ) ; => form at 3
for ( ; ; => form at 4
for ( ; ; a ; => form at 5
for ( int a = 0 ) ; => form at 6
for ( ; int a ; ) ; => form at 3
for ( ; ; ) => form at 5";

#[test]
fn statements_that_break_off(rt: HostRuntime) -> Result<(), Fail> {
    check(&rt, rt.alloc(), SIMPLE)
}

#[test]
fn blocks_that_break_off(rt: HostRuntime) -> Result<(), Fail> {
    check(&rt, rt.alloc(), BLOCKS)
}

#[test]
fn choices_and_labels_that_break_off(rt: HostRuntime) -> Result<(), Fail> {
    check(&rt, rt.alloc(), BRANCHES)
}

#[test]
fn loops_that_break_off(rt: HostRuntime) -> Result<(), Fail> {
    check(&rt, rt.alloc(), LOOPS)
}
