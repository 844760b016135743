//! Built-in headers.

ghost use Rattle.std.specs.Prelude.{◌≡◌};
ghost use Rattle.c_define.specs.Expansion.{seen};
ghost use Rattle.c_directives.specs.Headers.{header_text};

use c_headers::{header_named, text_of};

/// The text of the built-in header with this name.
pub fn header_text(name: &[u8]) -> Option<&'static [u8]>
    ensures { header_text name.now ≡ seen (λ x. x.now) result }
{
    match header_named(name) {
        None => None,
        Some(header) => Some(text_of(header)),
    }
}
