//! Expressions, references and types that stand first among tokens.

ghost use Rattle.std.specs.Prelude.{◌≡◌, List, IfOk};
ghost use Rattle.f_lex.specs.declared.token.Token.{Token};
ghost use Rattle.f_grammar.specs.Grammar.{Expr, Refer, TypeOf, spell, spell_refer, spell_type, FitsRefer, FitsType, Within, Stops, EndsType};
ghost use Rattle.f_grammar.specs.Reading.{expr_at, refer_at, type_at};
ghost use Rattle.f_expr_read.specs.Gives.{Gives, taken};
ghost use Rattle.f_expr_read.specs.Views.{tokens_of, view, view_reference, view_type};

use crate::error::ReadError;
use crate::reader::{expression, reference};
use crate::types::type_spec;
use f_lex::Spanned;
use f_tree::{Expression, Reference, TypeSpec};
use std::alloc::Global;

/// The nestings of an expression, its own counted.
const NESTINGS: u32 = 65;

/// The longest expression that stands first among tokens, with parentheses and brackets within 64 nestings, and the tokens behind it (ISO/IEC
/// 1539-1:2018, 10.1.2). `Form` says that no expression stands there.
pub fn read_expression(
    alloc: Global,
    tokens: &[Spanned],
) -> Result<(Expression, &[Spanned]), ReadError>
    // What is read fits and is spelled by the tokens before the rest.
    ensures found { IfOk result (λ x. (tokens_of tokens.now ≡ spell (view x.0) (tokens_of x.1.now)) × Within 65 (view x.0)) }
    // What fits and is spelled before a rest that doesn't go on with it is read.
    ensures only { (e : Expr) (rest : List Token) → Within 65 e → Stops 9 rest → tokens_of tokens.now ≡ spell e rest → Gives (λ x. (view x.0, tokens_of x.1.now)) result (taken e rest) }
    ensures exact { Gives (λ x. (view x.0, tokens_of x.1.now)) result (expr_at 65 (tokens_of tokens.now)) }
{
    expression(alloc, NESTINGS, tokens)
}

/// The longest reference that stands first among tokens, and the tokens behind it (ISO/IEC 1539-1:2018, 9.1). `Form` says that none stands there.
pub fn read_reference(
    alloc: Global,
    tokens: &[Spanned],
) -> Result<(Reference, &[Spanned]), ReadError>
    ensures found { IfOk result (λ x. (tokens_of tokens.now ≡ spell_refer (view_reference x.0) (tokens_of x.1.now)) × FitsRefer 65 (view_reference x.0)) }
    ensures only { (r : Refer) (rest : List Token) → FitsRefer 65 r → Stops 0 rest → tokens_of tokens.now ≡ spell_refer r rest → Gives (λ x. (view_reference x.0, tokens_of x.1.now)) result (taken r rest) }
    ensures exact { Gives (λ x. (view_reference x.0, tokens_of x.1.now)) result (refer_at (expr_at 65) (tokens_of tokens.now)) }
{
    reference(alloc, NESTINGS, tokens)
}

/// The type that stands first among tokens, and the tokens behind it (ISO/IEC 1539-1:2018, 7.3.2). `Form` says that none stands there.
pub fn read_type(alloc: Global, tokens: &[Spanned]) -> Result<(TypeSpec, &[Spanned]), ReadError>
    ensures found { IfOk result (λ x. (tokens_of tokens.now ≡ spell_type (view_type x.0) (tokens_of x.1.now)) × FitsType 65 (view_type x.0)) }
    ensures only { (t : TypeOf) (rest : List Token) → FitsType 65 t → EndsType rest → tokens_of tokens.now ≡ spell_type t rest → Gives (λ x. (view_type x.0, tokens_of x.1.now)) result (taken t rest) }
    ensures exact { Gives (λ x. (view_type x.0, tokens_of x.1.now)) result (type_at (expr_at 65) (tokens_of tokens.now)) }
{
    type_spec(alloc, NESTINGS, tokens)
}
