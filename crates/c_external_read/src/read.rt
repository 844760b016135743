//! The external declaration that stands first among tokens, with the names in scope.

ghost use Rattle.std.specs.Prelude.{◌≡◌, ◌<◌, ◌≤◌, ◌^◌, ◌-◌, IfOk, List, sum, length};
ghost use Rattle.c_grammar.specs.declared.token.Token.{Token as Lexeme};
ghost use Rattle.c_grammar.specs.Reading.{Gives};
ghost use Rattle.c_unit_grammar.specs.Statements.{Ext, spell_ext, after_ext, FitsExt};
ghost use Rattle.c_unit_grammar.specs.Reading.{ext_at};
ghost use Rattle.c_expression_read.specs.Gives.{IsReadAs};
ghost use Rattle.c_external_read.specs.Views.{view_external};
ghost use Rattle.c_external_read.specs.Counts.{IsCounted};

use crate::external::behind_first;
use c_declaration_read::{bare_declaration, ends_declaration};
use c_expression_read::{number, read_declarator, read_specifiers};
use c_grammar::{Allowed, ReadError, Token};
use c_scope::Scope;
use c_tree::{External, Typed};
use jf_base::List;
use std::alloc::Global;

#[tactic(auto, unfolding(c_unit_grammar::specs::Reading::ext_at, c_unit_grammar::specs::Reading::outer_at))]
fn external<'a>(
    alloc: Global,
    end: u32,
    depth: u32,
    counts: &[u32],
    scope: &mut Scope,
    tokens: &'a [Token],
) -> Result<(External, &'a [Token]), ReadError>
    requires { sum counts.now < 2 ^ 32 }
    ensures read { Gives (λ x. (view_external x.0, x.1.now)) result (ext_at depth scope.old tokens.now) }
    ensures scope { IfOk result (λ x. scope.new ≡ after_ext (view_external x.0) scope.old) }
    ensures counted { IfOk result (λ x. IsCounted counts.now (end - length tokens.now) (end - length x.1.now - (end - length tokens.now)) x.0) }
{
    let at = number(end, tokens);
    let (specifiers, rest) = read_specifiers(alloc, end, depth, scope, tokens)?;
    match ends_declaration(rest) {
        Some(rest) => {
            let declaration = bare_declaration(alloc, specifiers, at);
            Ok((External::Declaration(declaration), rest))
        }
        None => {
            let (declarator, rest) = read_declarator(
                alloc,
                end,
                depth,
                Allowed::Named,
                scope,
                rest,
            )?;
            let specifiers = List::from_vec(specifiers);
            let first = Typed {
                specifiers,
                declarator,
                at,
            };
            behind_first(alloc, end, depth, first, counts, scope, rest)
        }
    }
}

/// The external declaration that stands first, and the tokens behind it (ISO/IEC 9899:2011, 6.9). It takes the number `end` of the token behind the last
/// one of the unit, which the tokens reach to, how many nestings are left, and of how many tokens of the text each word of the unit was made; it declares
/// in the scope what it reads. Where it answers with a fault, what stands in the scope is not told.
pub fn read_external<'a>(
    alloc: Global,
    end: u32,
    depth: u32,
    counts: &[u32],
    scope: &mut Scope,
    tokens: &'a [Token],
) -> Result<(External, &'a [Token]), ReadError>
    requires few { sum counts.now < 2 ^ 32 }
    requires within { length tokens.now ≤ end }
    ensures read { Gives (λ x. (view_external x.0, x.1.now)) result (ext_at depth scope.old tokens.now) }
    ensures scope { IfOk result (λ x. scope.new ≡ after_ext (view_external x.0) scope.old) }
    ensures found { IfOk result (λ x. (tokens.now ≡ spell_ext (view_external x.0) x.1.now) × FitsExt depth scope.old (view_external x.0)) }
    ensures only { (one : Ext) (rest : List Lexeme) → FitsExt depth scope.old one → tokens.now ≡ spell_ext one rest → IsReadAs one rest (λ x. (view_external x.0, x.1.now)) result }
    ensures counted { IfOk result (λ x. IsCounted counts.now (end - length tokens.now) (length tokens.now - length x.1.now) x.0) }
{
    external(alloc, end, depth, counts, scope, tokens)
}
