//! Declarators, and specifiers with one.

ghost use Rattle.std.specs.Prelude.{◌≡◌, IfOk, length, map};
ghost use Rattle.c_grammar.specs.declared.token.Allowed.TheVariants.{Either};
ghost use Rattle.c_grammar.specs.Grammar.{inside, after_param, after_more, after_core, after_suffix, after_suffixes, after_decl, after_typed};
ghost use Rattle.c_grammar.specs.Reading.{Gives, inner, group_at, core_at, more_at, list_at, params_at, bound_at, array_at, function_at, suffixes_at, decl_at, typed_at};
ghost use Rattle.c_expression_read.specs.Gives.{suffix_at};
ghost use Rattle.c_expression_read.specs.Views.{view_core, view_declarator, view_typed, view_suffix, view_parameters, more_of, suffixes_of};

use crate::made::{self, in_front};
use crate::naming::{is_typedef, name_of};
use crate::operand::nested_constant;
use crate::run::marks;
use crate::specifier::specifiers;
use crate::word::{
    begins_suffix, broken, closed, comma_at, deep, ends_list, needs_name, number, opens_list,
    squared, takes_name, void_at,
};
use c_grammar::{Allowed, ReadError, Token};
use c_scope::Scope;
use c_tree::{Core, Declarator, Parameters, Suffix, Typed};
use jf_base::List;
use std::alloc::Global;

/// A declarator one nesting down.
#[cycle(reader)]
#[tactic(auto, unfolding(c_grammar::specs::Reading::inner))]
pub fn nested_declarator<'a>(
    alloc: Global,
    end: u32,
    depth: u32,
    allowed: Allowed,
    scope: &mut Scope,
    tokens: &'a [Token],
) -> Result<(Declarator, &'a [Token]), ReadError>
    ensures read { Gives (λ x. (view_declarator x.0, x.1.now)) result ((inner depth).decl allowed scope.old tokens.now) }
    ensures scope { IfOk result (λ x. scope.new ≡ after_decl (view_declarator x.0) scope.old) }
{
    if depth == 0 {
        return Err(deep(tokens));
    }
    declarator(alloc, end, depth - 1, allowed, scope, tokens)
}

/// Specifiers and a declarator one nesting down.
#[cycle(reader)]
#[tactic(auto, unfolding(c_grammar::specs::Reading::inner))]
pub fn nested_typed<'a>(
    alloc: Global,
    end: u32,
    depth: u32,
    allowed: Allowed,
    scope: &mut Scope,
    tokens: &'a [Token],
) -> Result<(Typed, &'a [Token]), ReadError>
    ensures read { Gives (λ x. (view_typed x.0, x.1.now)) result ((inner depth).typed allowed scope.old tokens.now) }
    ensures scope { IfOk result (λ x. scope.new ≡ after_typed (view_typed x.0) scope.old) }
{
    if depth == 0 {
        return Err(deep(tokens));
    }
    typed(alloc, end, depth - 1, allowed, scope, tokens)
}

// A declarator and its `)`.
#[cycle(reader)]
#[tactic(auto, unfolding(c_grammar::specs::Reading::group_at))]
fn group<'a>(
    alloc: Global,
    end: u32,
    depth: u32,
    allowed: Allowed,
    at: u32,
    scope: &mut Scope,
    tokens: &'a [Token],
) -> Result<(Core, &'a [Token]), ReadError>
    ensures read { Gives (λ x. (view_core x.0, x.1.now)) result (group_at (inner depth) allowed scope.old tokens.now) }
    ensures scope { IfOk result (λ x. scope.new ≡ after_core (view_core x.0) scope.old) }
{
    let (inner, rest) = nested_declarator(alloc, end, depth, allowed, scope, tokens)?;
    let rest = closed(rest)?;
    Ok((made::group(alloc, inner, at)?, rest))
}

// What a declarator is around.
#[cycle(reader)]
#[tactic(auto, unfolding(c_grammar::specs::Reading::core_at))]
fn core<'a>(
    alloc: Global,
    end: u32,
    depth: u32,
    allowed: Allowed,
    scope: &mut Scope,
    tokens: &'a [Token],
) -> Result<(Core, &'a [Token]), ReadError>
    ensures read { Gives (λ x. (view_core x.0, x.1.now)) result (core_at (inner depth) allowed scope.old tokens.now) }
    ensures scope { IfOk result (λ x. scope.new ≡ after_core (view_core x.0) scope.old) }
{
    let at = number(end, tokens);
    match tokens.split_first() {
        Some((Token::Name(name), rest)) => {
            if takes_name(allowed) {
                Ok((Core::Identifier { name: *name, at }, rest))
            } else {
                Ok((Core::Absent, tokens))
            }
        }
        Some((Token::Open, rest)) => {
            if opens_list(allowed, scope, rest) {
                Ok((Core::Absent, tokens))
            } else {
                group(alloc, end, depth, allowed, at, scope, rest)
            }
        }
        _ => {
            if needs_name(allowed) {
                Err(broken(tokens))
            } else {
                Ok((Core::Absent, tokens))
            }
        }
    }
}

// A parameter, which declares its name for those behind it (ISO/IEC 9899:2011, 6.7.6.3).
#[cycle(reader)]
fn parameter<'a>(
    alloc: Global,
    end: u32,
    depth: u32,
    scope: &mut Scope,
    tokens: &'a [Token],
) -> Result<(Typed, &'a [Token]), ReadError>
    ensures read { Gives (λ x. (view_typed x.0, x.1.now)) result ((inner depth).typed Either scope.old tokens.now) }
    ensures scope { IfOk result (λ x. scope.new ≡ after_param (view_typed x.0) scope.old) }
{
    let (one, rest) = nested_typed(alloc, end, depth, Allowed::Either, scope, tokens)?;
    let is_typedef = is_typedef(one.specifiers.as_slice());
    scope.bind(name_of(&one.declarator), is_typedef)?;
    Ok((one, rest))
}

// The parameters behind the commas behind a first one.
#[cycle(reader)]
fn other_parameters<'a>(
    alloc: Global,
    end: u32,
    depth: u32,
    scope: &mut Scope,
    tokens: &'a [Token],
) -> Result<(Vec<Typed>, &'a [Token]), ReadError>
    ensures read { Gives (λ x. (more_of (map view_typed x.0.items), x.1.now)) result (more_at (inner depth) (length tokens.now) scope.old tokens.now) }
    ensures scope { IfOk result (λ x. scope.new ≡ after_more (more_of (map view_typed x.0.items)) scope.old) }
{
    let mut others = Vec::new(alloc);
    let mut rest = tokens;
    'parameters: for _ in 0..tokens.len() {
        match comma_at(rest) {
            None => return Ok((others, rest)),
            Some(behind) => {
                let (one, after) = parameter(alloc, end, depth, scope, behind)?;
                others.push(one)?;
                rest = after;
            }
        }
    }
    Ok((others, rest))
}

// Parameters, one at least, and `)`.
#[cycle(reader)]
#[tactic(auto, unfolding(c_grammar::specs::Reading::list_at))]
fn parameter_list<'a>(
    alloc: Global,
    end: u32,
    depth: u32,
    scope: &mut Scope,
    tokens: &'a [Token],
) -> Result<(Parameters, &'a [Token]), ReadError>
    ensures read { Gives (λ x. (view_parameters x.0, x.1.now)) result (list_at (inner depth) scope.old tokens.now) }
    ensures scope { IfOk result (λ x. scope.new ≡ inside (view_parameters x.0) scope.old) }
{
    let (first, rest) = parameter(alloc, end, depth, scope, tokens)?;
    let (others, rest) = other_parameters(alloc, end, depth, scope, rest)?;
    let rest = closed(rest)?;
    let listed = List::from_vec(in_front(first, others)?);
    Ok((Parameters::Listed(listed), rest))
}

// The parameters of a function and `)`.
#[cycle(reader)]
#[tactic(auto, unfolding(c_grammar::specs::Reading::params_at))]
fn parameters<'a>(
    alloc: Global,
    end: u32,
    depth: u32,
    scope: &mut Scope,
    tokens: &'a [Token],
) -> Result<(Parameters, &'a [Token]), ReadError>
    ensures read { Gives (λ x. (view_parameters x.0, x.1.now)) result (params_at (inner depth) scope.old tokens.now) }
    ensures scope { IfOk result (λ x. scope.new ≡ inside (view_parameters x.0) scope.old) }
{
    match ends_list(tokens) {
        Some(rest) => Ok((Parameters::Nothing, rest)),
        None => match void_at(tokens) {
            Some(rest) => Ok((Parameters::Void, rest)),
            None => parameter_list(alloc, end, depth, scope, tokens),
        },
    }
}

// What stands behind the `(` of a function; its parameters are a scope of their own (ISO/IEC 9899:2011, 6.2.1).
#[cycle(reader)]
#[tactic(auto, unfolding(c_grammar::specs::Reading::function_at))]
fn function<'a>(
    alloc: Global,
    end: u32,
    depth: u32,
    at: u32,
    scope: &mut Scope,
    tokens: &'a [Token],
) -> Result<(Suffix, &'a [Token]), ReadError>
    ensures read { Gives (λ x. (view_suffix x.0, x.1.now)) result (function_at (inner depth) scope.old tokens.now) }
    ensures scope { IfOk result (λ x. scope.new ≡ after_suffix (view_suffix x.0) scope.old) }
{
    let mark = scope.mark();
    let (parameters, rest) = parameters(alloc, end, depth, scope, tokens)?;
    scope.end(mark);
    let suffix = made::function(parameters, at);
    Ok((suffix, rest))
}

// The length of an array and `]`.
#[cycle(reader)]
#[tactic(auto, unfolding(c_grammar::specs::Reading::bound_at))]
fn bound<'a>(
    alloc: Global,
    end: u32,
    depth: u32,
    at: u32,
    scope: &mut Scope,
    tokens: &'a [Token],
) -> Result<(Suffix, &'a [Token]), ReadError>
    ensures read { Gives (λ x. (view_suffix x.0, x.1.now)) result (bound_at (inner depth) scope.old tokens.now) }
    ensures scope { IfOk result (λ x. scope.new ≡ after_suffix (view_suffix x.0) scope.old) }
{
    let (length, rest) = nested_constant(alloc, end, depth, scope, tokens)?;
    let rest = squared(rest)?;
    Ok((made::array(alloc, length, at)?, rest))
}

// What stands behind the `[` of an array (ISO/IEC 9899:2011, 6.7.6.2).
#[cycle(reader)]
#[tactic(auto, unfolding(c_grammar::specs::Reading::array_at))]
fn array<'a>(
    alloc: Global,
    end: u32,
    depth: u32,
    at: u32,
    scope: &mut Scope,
    tokens: &'a [Token],
) -> Result<(Suffix, &'a [Token]), ReadError>
    ensures read { Gives (λ x. (view_suffix x.0, x.1.now)) result (array_at (inner depth) scope.old tokens.now) }
    ensures scope { IfOk result (λ x. scope.new ≡ after_suffix (view_suffix x.0) scope.old) }
{
    match tokens {
        [Token::SquareClose, rest @ ..] => Ok((made::open_array(at), rest)),
        _ => bound(alloc, end, depth, at, scope, tokens),
    }
}

// An array or a function behind what is declared (ISO/IEC 9899:2011, 6.7.6.2 and 6.7.6.3).
#[cycle(reader)]
fn suffix<'a>(
    alloc: Global,
    end: u32,
    depth: u32,
    scope: &mut Scope,
    tokens: &'a [Token],
) -> Result<(Suffix, &'a [Token]), ReadError>
    ensures read { Gives (λ x. (view_suffix x.0, x.1.now)) result (suffix_at (inner depth) scope.old tokens.now) }
    ensures scope { IfOk result (λ x. scope.new ≡ after_suffix (view_suffix x.0) scope.old) }
{
    let at = number(end, tokens);
    match tokens {
        [Token::SquareOpen, rest @ ..] => array(alloc, end, depth, at, scope, rest),
        [Token::Open, rest @ ..] => function(alloc, end, depth, at, scope, rest),
        _ => Err(broken(tokens)),
    }
}

// What stands behind a declarator's core.
#[cycle(reader)]
fn suffixes<'a>(
    alloc: Global,
    end: u32,
    depth: u32,
    scope: &mut Scope,
    tokens: &'a [Token],
) -> Result<(Vec<Suffix>, &'a [Token]), ReadError>
    ensures read { Gives (λ x. (suffixes_of (map view_suffix x.0.items), x.1.now)) result (suffixes_at (inner depth) (length tokens.now) scope.old tokens.now) }
    ensures scope { IfOk result (λ x. scope.new ≡ after_suffixes (suffixes_of (map view_suffix x.0.items)) scope.old) }
{
    let mut suffixes = Vec::new(alloc);
    let mut rest = tokens;
    'suffixes: for _ in 0..tokens.len() {
        if !begins_suffix(rest) {
            return Ok((suffixes, rest));
        }
        let (one, after) = suffix(alloc, end, depth, scope, rest)?;
        suffixes.push(one)?;
        rest = after;
    }
    Ok((suffixes, rest))
}

/// A declarator (ISO/IEC 9899:2011, 6.7.6 and 6.7.7).
#[cycle(reader)]
#[tactic(auto, unfolding(c_grammar::specs::Reading::decl_at))]
pub fn declarator<'a>(
    alloc: Global,
    end: u32,
    depth: u32,
    allowed: Allowed,
    scope: &mut Scope,
    tokens: &'a [Token],
) -> Result<(Declarator, &'a [Token]), ReadError>
    ensures read { Gives (λ x. (view_declarator x.0, x.1.now)) result (decl_at (inner depth) allowed scope.old tokens.now) }
    ensures scope { IfOk result (λ x. scope.new ≡ after_decl (view_declarator x.0) scope.old) }
{
    let at = number(end, tokens);
    let (marks, rest) = marks(alloc, tokens)?;
    let (core, rest) = core(alloc, end, depth, allowed, scope, rest)?;
    let (suffixes, rest) = suffixes(alloc, end, depth, scope, rest)?;
    let (marks, suffixes) = (List::from_vec(marks), List::from_vec(suffixes));
    Ok((
        Declarator {
            marks,
            core,
            suffixes,
            at,
        },
        rest,
    ))
}

/// Specifiers and one declarator (ISO/IEC 9899:2011, 6.7.6 and 6.7.7).
#[cycle(reader)]
#[tactic(auto, unfolding(c_grammar::specs::Reading::typed_at))]
pub fn typed<'a>(
    alloc: Global,
    end: u32,
    depth: u32,
    allowed: Allowed,
    scope: &mut Scope,
    tokens: &'a [Token],
) -> Result<(Typed, &'a [Token]), ReadError>
    ensures read { Gives (λ x. (view_typed x.0, x.1.now)) result (typed_at (inner depth) allowed scope.old tokens.now) }
    ensures scope { IfOk result (λ x. scope.new ≡ after_typed (view_typed x.0) scope.old) }
{
    let at = number(end, tokens);
    let (specifiers, rest) = specifiers(alloc, end, depth, scope, tokens)?;
    let (declarator, rest) = declarator(alloc, end, depth, allowed, scope, rest)?;
    let specifiers = List::from_vec(specifiers);
    Ok((
        Typed {
            specifiers,
            declarator,
            at,
        },
        rest,
    ))
}
