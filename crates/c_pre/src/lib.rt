//! The preprocessor of C: a file with its headers, behind directives and macro replacement (ISO/IEC 9899:2011, 5.1.1.2 and 6.10).
#![tactic(auto)]

mod file;
mod reader;

ghost use Rattle.std.specs.Prelude.{ℕ, List};
ghost use Rattle.c_directives.specs.Replacement.{KeepsMade};
ghost use Rattle.c_pre.specs.Files.{include_at};

pub use file::{PreFault, expand};

/// The texts of headers leave macros that definitions made: each line of a file and of its headers is read with such macros, and so rescanned as the laws of
/// `c_directives` say.
pub fn includes_keep_made()
    ensures { (files : List (List ℕ × List ℕ)) (limit depth : ℕ) → KeepsMade (include_at files limit depth) }
{}

#[cfg(test)]
mod tests;
