//! Reading a file.

ghost use Rattle.std.specs.Prelude.{◌<◌, ◌^◌, IfOk, length};
ghost use Rattle.c_words.specs.Making.{AreWords};
ghost use Rattle.c_external_read.specs.Counts.{AreCounted};
ghost use Rattle.c_read.specs.Reading.{words_in, counts_in, read_file};
ghost use Rattle.c_read.specs.Views.{Answers, view_unit};

use crate::refusing::refused;
use c_external_read::read_externals;
use c_token::CSpanned;
use c_tree::CUnit;
use c_words::{Words, words_of};
use jf_base::{List, Refusal};
use std::alloc::Global;

/// A file of these words.
#[tactic(auto, using(crate::proofs::Words::few_words, crate::proofs::Words::few_tokens))]
fn read_words(alloc: Global, tokens: &[CSpanned], words: Words) -> Result<CUnit, Refusal>
    requires few { length tokens.now < 2 ^ 32 }
    requires words { AreWords tokens.now words }
    ensures read { Answers view_unit result (read_file tokens.now) }
    ensures counted { IfOk result (λ u. AreCounted (counts_in tokens.now) (words_in tokens.now) u.externals) }
{
    let Words {
        names,
        literals,
        words,
        places,
        counts,
    } = words;
    match read_externals(alloc, words.as_slice(), counts.as_slice()) {
        Ok(externals) => Ok(CUnit {
            names,
            literals,
            places,
            externals: List::from_vec(externals),
        }),
        Err(error) => Err(refused(words.as_slice(), places.as_slice(), error)),
    }
}

/// The external declarations of a file from its tokens behind the preprocessor, with its names, its string literals and the places of its words
/// (ISO/IEC 9899:2011, 6.9; a file may be empty). A function's definition tells how many of the tokens are its own. Otherwise the first external declaration
/// that breaks a rule, by the tag of the rule and where: G01 where it has no form, at its first token; G02 where more than 64 nestings are open in it, at the
/// token behind which the nesting too many begins. An external declaration is read from left to right up to what is wrong in it; where that is its form,
/// G02 is told before it if more than 64 parentheses, brackets and braces are open up to its end. A text of the preprocessor has fewer tokens than asked
/// here.
pub fn read_c(alloc: Global, tokens: &[CSpanned]) -> Result<CUnit, Refusal>
    requires { length tokens.now < 2 ^ 32 }
    ensures read { Answers view_unit result (read_file tokens.now) }
    ensures counted { IfOk result (λ u. AreCounted (counts_in tokens.now) (words_in tokens.now) u.externals) }
{
    let words = words_of(alloc, tokens)?;
    read_words(alloc, tokens, words)
}
