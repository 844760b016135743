//! External declarations of no form: rule 601, at the first token.

use super::{check, told};
use std::test::Fail;

const NO_FORM: &str = "int a => 601 at 1:1
int b; int a int c; => 601 at 1:8
int a; } => 601 at 1:8
int a; ; => 601 at 1:8
x; => 601 at 1:1
int f(void) { return 1; => 601 at 1:1
int f(void) { return 1; }} => 601 at 1:26
int f(void) { } ; => 601 at 1:17
int a = ; => 601 at 1:1
int a = {}; => 601 at 1:1
int a[2) ; => 601 at 1:1
int a; int f(a) { } => 601 at 1:8
int f(int a) int b; { } => 601 at 1:1
int a : 3; => 601 at 1:1
int a; int f(void) { x = (1; } int c; => 601 at 1:8
int f(void) { for (int; ; ) ; } => 601 at 1:1
int a; int f(void) { for (struct s { int b; }; ; ) ; } => 601 at 1:8";

const NO_BASE: &str = "const a; => declaration
static a, *b; => declaration
extern f(void) { return 1; } => function of 10
typedef a; a b; => declaration, declaration
typedef int T; const T; => declaration, declaration
typedef int T; const T T; => declaration, declaration
typedef int T; const *T; => declaration, declaration
typedef int T; const (T); => declaration, declaration
typedef int T; const T T T; => 601 at 1:16
struct s { const a; }; => declaration
typedef int T; struct s { const T; }; => 601 at 1:16
int f(const a, const); => declaration
int a = sizeof(const); => declaration
int f(void) { for (const a = 1; ; ) ; } => function of 17
int f(void) { for (int a; ; ) ; } => function of 15
int f(void) { static a; int; } => function of 12
a const; => 601 at 1:1";

const UNUSED: &str = "int a; int f(void) { goto b; } => 601 at 1:8
float a; => 601 at 1:1
union u { int a; }; => 601 at 1:1
volatile int a; => 601 at 1:1
inline int f(void) { } => 601 at 1:1
int f(void) { register int a; } => 601 at 1:1
_Static_assert(1, \"a\"); => 601 at 1:1
int a; _Noreturn void f(void); => 601 at 1:8
int a = _Alignof(int); => 601 at 1:1";

const NAMES: &str = "typedef int T; int a = T; => 601 at 1:16
typedef int T; int f(void) { return T; } => 601 at 1:16
typedef int T; int f(int T) { return T; } => declaration, function of 11
typedef int T; int T; T a; => 601 at 1:23
T a; typedef int T; => 601 at 1:1
CFI_CDESC_T(16) a; => 601 at 1:1
int a; CFI_CDESC_T(16) b; => 601 at 1:8
CFI_CDESC_T(a) a; => 601 at 1:1
CFI_CDESC_T a; => 601 at 1:1
struct CFI_cdesc_t a; => declaration";

#[test]
fn what_has_no_form_is_told_by_its_first_token(rt: HostRuntime) -> Result<(), Fail> {
    check(&rt, rt.alloc(), NO_FORM)
}

#[test]
fn keywords_without_use_stand_nowhere(rt: HostRuntime) -> Result<(), Fail> {
    check(&rt, rt.alloc(), UNUSED)
}

#[test]
fn specifiers_need_no_base(rt: HostRuntime) -> Result<(), Fail> {
    check(&rt, rt.alloc(), NO_BASE)
}

#[test]
fn names_of_types_and_ranks(rt: HostRuntime) -> Result<(), Fail> {
    check(&rt, rt.alloc(), NAMES)
}

#[test]
fn the_first_of_two_is_told(rt: HostRuntime) -> Result<(), Fail> {
    let found = told(rt.alloc(), "int a;\n  int b\n  int c;\nint d")?;
    assert_eq!(rt; found.as_str(), "601 at 2:3");
    Ok(())
}
