//! Files that are read.

use super::{check, told};
use std::test::Fail;

const DECLARATIONS: &str = "int a; => declaration
int a, *b = &a, c[3] = {1, 2, 3,}; => declaration
struct s; struct s { int a; struct s *b, c[2]; } d; => declaration, declaration
enum { A, B = 2, C, } e; => declaration
typedef unsigned long T; static const T a; extern T b; => declaration, declaration, declaration
int (*f)(int, char *), g(void), h(); => declaration
CFI_CDESC_T(0) a; CFI_CDESC_T(15) b; => declaration, declaration
void f(int a[], int n), g(int (*)(void)); => declaration
int; => declaration";

const FUNCTIONS: &str = "int f(void) { return 1; } => function of 10
int f(void) { return 1; } int a; int g(void) { } => function of 10, declaration, function of 7
static int *f(int a, int *b) { *b = a; return b; } => function of 22
int (*f(int a))(void) { return 0; } => function of 17
typedef int T; T f(T T) { T * T; } T a; => declaration, function of 12, declaration
f(void) { } => 601 at 1:1";

const STATEMENTS: &str =
    "int f(int n) { if (n) return 1; else n = 2; while (n) n--; do n++; while (n < 3); return n; } => function of 41
void f(int n) { for (int i = 0; i < n; i++) { if (i == 2) continue; if (i == 3) break; } } => function of 40
void f(int n) { for (;;) ; for (n = 0; n; ) ; ; } => function of 25
int f(int n) { switch (n) { case 1: return 2; case 2: case 3: break; default: n = 1; } return n; } => function of 37";

const EXPRESSIONS: &str = "int a = 1 + 2 * 3 - (4 % 5) / 6 << 1 >> 2; => declaration
int a = 1 < 2 == 3 > 4 != 5 <= 6 & 7 ^ 8 | 9 && 1 || 0 ? 1 : 2; => declaration
void f(void) { a = b += c -= d *= e /= 1, a %= 2, a <<= 3, a >>= 4, a &= 5, a ^= 6, a |= 7; } => function of 43
int a = sizeof(int) + sizeof b[1] + (int)'c' + -b + ~b + !b + *p + s.m + p->m; => declaration
void f(void) { g(), g(1), g(1, a), p->m[2].n++, --a, ++a, a--; } => function of 42";

#[test]
fn declarations_of_each_form(rt: HostRuntime) -> Result<(), Fail> {
    check(&rt, rt.alloc(), DECLARATIONS)
}

#[test]
fn functions_and_how_many_tokens_they_have(rt: HostRuntime) -> Result<(), Fail> {
    check(&rt, rt.alloc(), FUNCTIONS)
}

#[test]
fn statements_of_each_form(rt: HostRuntime) -> Result<(), Fail> {
    check(&rt, rt.alloc(), STATEMENTS)
}

#[test]
fn expressions_of_each_form(rt: HostRuntime) -> Result<(), Fail> {
    check(&rt, rt.alloc(), EXPRESSIONS)
}

#[test]
fn a_file_may_be_empty(rt: HostRuntime) -> Result<(), Fail> {
    assert_eq!(rt; told(rt.alloc(), "")?.as_str(), "");
    Ok(())
}
