//! Specifiers.

use super::{Form, Reading, check};
use std::test::Fail;

const WORDS: &str = "void => void
_Bool => _Bool
char => char
unsigned long long int => unsigned long long int
signed short => signed short
CFI_cdesc_t => CFI_cdesc_t
typedef int => typedef int
extern static const char => extern static const char
int const static => int const static
struct s => struct s
enum e => enum e
CFI_CDESC_T ( 0 ) => CFI_CDESC_T 0
CFI_CDESC_T ( 15u ) => CFI_CDESC_T 15u
const => const
typedef static const => typedef static const
T => T
const T => const T
T const => T const";

const NAMES_THAT_ARE_NONE: &str = "unsigned T => unsigned .. 1
T T => T .. 1
const T T => const T .. 1
struct s T => struct s .. 1
int a => int .. 1
T a => T .. 1
const a => const .. 1";

const STRUCTS: &str = "struct { int a ; } => struct { int a ; }
struct s { } => struct s { }
struct s { int a , * b ; char c [ 3 ] ; } => struct s { int a , * b ; char c [ 3 ] ; }
struct s { struct t { int a ; } b ; struct s * c ; } => struct s { struct t { int a ; } b ; struct s * c ; }
struct s { T T ; } => struct s { T T ; }
struct s { int ( * f ) ( int ) ; } => struct s { int ( * f ) ( { int _ } ) ; }
struct T { unsigned U ; } => struct T { unsigned U ; }
struct s ; => struct s .. 1";

const ENUMS: &str = "enum { a } => enum { a }
enum e { a , b , c } => enum e { a , b , c }
enum e { a , } => enum e { a , }
enum e { a = 1 , b , c = a + 1 } => enum e { a = 1 , b , c = < a + 1 > }
enum { a = b ? c : d , e } => enum { a = < b ? c : d > , e }
enum { T } => enum { T }
enum T { U = sizeof ( U ) , a = U } => enum T { U = < sizeof { U _ } > , a = U }";

#[test]
fn words_and_tags(rt: HostRuntime) -> Result<(), Fail> {
    check(&rt, rt.alloc(), Reading::of(Form::Specifiers), WORDS)
}

#[test]
fn names_that_are_no_types(rt: HostRuntime) -> Result<(), Fail> {
    check(
        &rt,
        rt.alloc(),
        Reading::of(Form::Specifiers),
        NAMES_THAT_ARE_NONE,
    )
}

#[test]
fn members_stand_in_braces(rt: HostRuntime) -> Result<(), Fail> {
    check(&rt, rt.alloc(), Reading::of(Form::Specifiers), STRUCTS)
}

#[test]
fn enumerators_with_and_without_values(rt: HostRuntime) -> Result<(), Fail> {
    check(&rt, rt.alloc(), Reading::of(Form::Specifiers), ENUMS)
}
