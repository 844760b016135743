//! Object macros by their names and bodies: what a name expands to (ISO/IEC 9899:2011, 6.10.3).
//!
//! Names and other tokens have numbers in tables, so that a macro is found and replaced without a look at its spelling.
#![tactic(auto)]

mod definitions;
mod names;
mod numbers;

ghost use Rattle.std.specs.Prelude.{◌≡◌, List};
ghost use Rattle.c_token.specs.declared.token.CToken.{CToken};
ghost use Rattle.c_define.specs.Definitions.{Macros, Made};
ghost use Rattle.c_define.specs.Expansion.{expansion};
ghost use Rattle.c_define.specs.Rescanning.{Expands};

pub use definitions::{Definitions, Written};
pub use numbers::copied_token;

/// Where definitions made the macros, rescanning ends for each list of tokens, and what it gives is the expansion that the contracts of this crate name
/// (ISO/IEC 9899:2011, 6.10.3.4).
pub fn expansion_is_there()
    ensures { (ms : Macros) (tokens : List CToken) → Made ms → Expands ms.of tokens (expansion ms tokens) }
{}

/// And rescanning gives no other list.
pub fn expansion_is_one()
    ensures { (ms : Macros) (tokens out : List CToken) → Made ms → Expands ms.of tokens out → out ≡ expansion ms tokens }
{}

#[cfg(test)]
mod tests;
