//! The built-in headers by their names.

ghost use Rattle.std.specs.Prelude.{◌≡◌, MatchOption, true, false};
ghost use Rattle.c_headers.specs.Headers.{name_of, text_of, IsNamed, IsNoHeader};

use crate::texts::{LIMITS, STDBOOL, STDDEF, STDINT, STDIO, STDLIB, STRING};
use cfi_header::declarations;

/// A built-in header.
#[derive(Clone, Copy, PartialEq, Eq, Debug)]
pub enum Header {
    Stddef,
    Stdint,
    Stdbool,
    Limits,
    Stdlib,
    /// `string.h`
    Str,
    Stdio,
    /// `ISO_Fortran_binding.h`
    FortranBinding,
}

// What stands between `<` and `>`.
fn name_of(header: Header) -> &'static [u8]
    ensures { result.now ≡ name_of header }
{
    match header {
        Header::Stddef => b"stddef.h",
        Header::Stdint => b"stdint.h",
        Header::Stdbool => b"stdbool.h",
        Header::Limits => b"limits.h",
        Header::Stdlib => b"stdlib.h",
        Header::Str => b"string.h",
        Header::Stdio => b"stdio.h",
        Header::FortranBinding => b"ISO_Fortran_binding.h",
    }
}

// The header has the name.
fn is_named(name: &[u8], header: Header) -> bool
    ensures yes { result ≡ true → IsNamed name.now header }
    ensures no { result ≡ false → IsNamed name.now header → ⊥ }
{
    name == name_of(header)
}

/// The header with this name, which stands between `<` and `>`; None where none is built in.
pub fn header_named(name: &[u8]) -> Option<Header>
    ensures { MatchOption result (IsNoHeader name.now) (IsNamed name.now) }
{
    if is_named(name, Header::Stddef) {
        Some(Header::Stddef)
    } else if is_named(name, Header::Stdint) {
        Some(Header::Stdint)
    } else if is_named(name, Header::Stdbool) {
        Some(Header::Stdbool)
    } else if is_named(name, Header::Limits) {
        Some(Header::Limits)
    } else if is_named(name, Header::Stdlib) {
        Some(Header::Stdlib)
    } else if is_named(name, Header::Str) {
        Some(Header::Str)
    } else if is_named(name, Header::Stdio) {
        Some(Header::Stdio)
    } else if is_named(name, Header::FortranBinding) {
        Some(Header::FortranBinding)
    } else {
        None
    }
}

/// The text of a built-in header.
pub fn text_of(header: Header) -> &'static [u8]
    ensures { result.now ≡ text_of header }
{
    match header {
        Header::Stddef => STDDEF,
        Header::Stdint => STDINT,
        Header::Stdbool => STDBOOL,
        Header::Limits => LIMITS,
        Header::Stdlib => STDLIB,
        Header::Str => STRING,
        Header::Stdio => STDIO,
        Header::FortranBinding => declarations(),
    }
}
