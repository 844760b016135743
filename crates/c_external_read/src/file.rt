//! All external declarations of a file.

ghost use Rattle.std.specs.Prelude.{◌≡◌, ◌<◌, ◌≤◌, ◌^◌, ◌∷◌, [], IfOk, sum, length, map};
ghost use Rattle.c_external_read.specs.Views.{view_external};
ghost use Rattle.c_external_read.specs.Counts.{AreCounted, Counted};
ghost use Rattle.c_external_read.specs.Files.{Answers, deepest, external_at, externals_at};
ghost use Rattle.c_unit_grammar.specs.Statements.{after_ext};

use crate::read::read_external;
use c_grammar::{Fault, ReadError, Token};
use c_scope::Scope;
use c_tree::External;
use std::alloc::{AllocFailed, Global};

/// How deep what an external declaration holds nests at most.
const DEEPEST: u32 = 64;

/// The first external declaration that breaks a rule: how many words are left where it begins, and what is wrong in it first.
#[derive(Clone, Copy, PartialEq, Eq)]
pub struct BrokenExternal {
    pub left: usize,
    pub fault: Fault,
}

/// Why the external declarations of a file weren't read.
#[derive(Drop)]
pub enum ExternalsError {
    Memory,
    Broken(BrokenExternal),
}

impl<T: Drop> From<AllocFailed<T>> for ExternalsError {
    ghost use Rattle.c_external_read.specs.declared.file.ExternalsError.TheVariants.{Memory};

    ghost from_gives = { λ _ e. e ≡ Memory };

    fn from(_e: AllocFailed<T>) -> ExternalsError {
        ExternalsError::Memory
    }
}

// The external declaration that stands first, within the nestings of a file.
fn next_external<'a>(
    alloc: Global,
    end: u32,
    counts: &[u32],
    scope: &mut Scope,
    tokens: &'a [Token],
) -> Result<(External, &'a [Token]), ExternalsError>
    requires few { sum counts.now < 2 ^ 32 }
    requires within { length tokens.now ≤ end }
    ensures read { Answers (λ x. (view_external x.0, x.1.now)) result (external_at deepest scope.old tokens.now) }
    ensures scope { IfOk result (λ x. scope.new ≡ after_ext (view_external x.0) scope.old) }
    ensures counted { IfOk result (λ x. Counted counts.now end tokens.now (x.0 ∷ []) x.1.now) }
    ensures shorter { IfOk result (λ x. length x.1.now < length tokens.now) }
{
    match read_external(alloc, end, DEEPEST, counts, scope, tokens) {
        Ok(read) => Ok(read),
        Err(ReadError::Memory) => Err(ExternalsError::Memory),
        Err(ReadError::Fault(fault)) => {
            let left = tokens.len();
            Err(ExternalsError::Broken(BrokenExternal { left, fault }))
        }
    }
}

/// The external declarations of a file from all its words, within 64 nestings (ISO/IEC 9899:2011, 6.9). It takes of how many tokens of the text each word
/// was made, which a function's definition sums up. Otherwise it answers with the first external declaration that breaks a rule: where none begins, or
/// one nests too deep.
pub fn read_externals(
    alloc: Global,
    tokens: &[Token],
    counts: &[u32],
) -> Result<Vec<External>, ExternalsError>
    requires short { length tokens.now < 2 ^ 32 }
    requires few { sum counts.now < 2 ^ 32 }
    ensures read { Answers (λ all. map view_external all.items) result (externals_at deepest (length tokens.now) [] tokens.now) }
    ensures counted { IfOk result (λ all. AreCounted counts.now tokens.now all.items) }
{
    let end = tokens.len() as u32;
    let mut scope = Scope::new(alloc);
    let mut externals = Vec::new(alloc);
    let mut rest = tokens;
    'externals: while !rest.is_empty() {
        let (one, after) = next_external(alloc, end, counts, &mut scope, rest)?;
        externals.push(one)?;
        rest = after;
    }
    Ok(externals)
}
