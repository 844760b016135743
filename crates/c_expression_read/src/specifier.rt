//! Specifiers.

ghost use Rattle.std.specs.Prelude.{◌≡◌, IfOk, length, map, Some, None};
ghost use Rattle.c_grammar.specs.declared.token.Allowed.TheVariants.{Named};
ghost use Rattle.c_grammar.specs.Grammar.{is_base, or, after_decls, after_members, after_item, after_items, after_spec, after_specs, after_typed};
ghost use Rattle.c_grammar.specs.Reading.{Gives, inner, decls_at, members_at, struct_body_at, struct_at, valued_at, item_at, items_at, enum_body_at, enum_at, ranked_at, spec_at, specifiers_at};
ghost use Rattle.c_expression_read.specs.Gives.{together_at};
ghost use Rattle.c_expression_read.specs.Views.{view_typed, view_declarator, view_members, view_enumerator, view_specifier, decls_of, members_of, items_of, specs_of};

use crate::declarator::{nested_declarator, nested_typed};
use crate::made::{self, in_front};
use crate::operand::nested_constant;
use crate::operator::is_base;
use crate::word::{
    begins_specifier, braced, broken, comma_at, ended, ends_braces, last_comma, next_enumerator,
    number,
};
use c_grammar::{Allowed, ReadError, Token};
use c_scope::Scope;
use c_tree::{Declarator, Enumerator, MemberDeclaration, Specifier, Typed};
use jf_base::List;
use std::alloc::Global;

// The declarators behind the commas behind a first one.
#[cycle(reader)]
fn other_declarators<'a>(
    alloc: Global,
    end: u32,
    depth: u32,
    scope: &mut Scope,
    tokens: &'a [Token],
) -> Result<(Vec<Declarator>, &'a [Token]), ReadError>
    ensures read { Gives (λ x. (decls_of (map view_declarator x.0.items), x.1.now)) result (decls_at (inner depth) (length tokens.now) scope.old tokens.now) }
    ensures scope { IfOk result (λ x. scope.new ≡ after_decls (decls_of (map view_declarator x.0.items)) scope.old) }
{
    let mut others = Vec::new(alloc);
    let mut rest = tokens;
    'declarators: for _ in 0..tokens.len() {
        match comma_at(rest) {
            None => return Ok((others, rest)),
            Some(behind) => {
                let (one, after) = nested_declarator(
                    alloc,
                    end,
                    depth,
                    Allowed::Named,
                    scope,
                    behind,
                )?;
                others.push(one)?;
                rest = after;
            }
        }
    }
    Ok((others, rest))
}

// Members that are declared together: specifiers with a first declarator, the others, and `;`.
#[cycle(reader)]
fn member_declaration<'a>(
    alloc: Global,
    end: u32,
    depth: u32,
    scope: &mut Scope,
    tokens: &'a [Token],
) -> Result<(Typed, Vec<Declarator>, &'a [Token]), ReadError>
    ensures read { Gives (λ x. ((view_typed x.0, decls_of (map view_declarator x.1.items)), x.2.now)) result (together_at (inner depth) scope.old tokens.now) }
    ensures scope { IfOk result (λ x. scope.new ≡ after_decls (decls_of (map view_declarator x.1.items)) (after_typed (view_typed x.0) scope.old)) }
{
    let (first, rest) = nested_typed(alloc, end, depth, Allowed::Named, scope, tokens)?;
    let (others, rest) = other_declarators(alloc, end, depth, scope, rest)?;
    let rest = ended(rest)?;
    Ok((first, others, rest))
}

// The members of a struct.
#[cycle(reader)]
fn members<'a>(
    alloc: Global,
    end: u32,
    depth: u32,
    scope: &mut Scope,
    tokens: &'a [Token],
) -> Result<(Vec<MemberDeclaration>, &'a [Token]), ReadError>
    ensures read { Gives (λ x. (members_of (map view_members x.0.items), x.1.now)) result (members_at (inner depth) (length tokens.now) scope.old tokens.now) }
    ensures scope { IfOk result (λ x. scope.new ≡ after_members (members_of (map view_members x.0.items)) scope.old) }
{
    let mut members = Vec::new(alloc);
    let mut rest = tokens;
    'members: for _ in 0..tokens.len() {
        if ends_braces(rest) {
            return Ok((members, rest));
        }
        let (first, others, after) = member_declaration(alloc, end, depth, scope, rest)?;
        let one = made::members(first, others)?;
        members.push(one)?;
        rest = after;
    }
    Ok((members, rest))
}

// The members of a struct and their `}` (ISO/IEC 9899:2011, 6.7.2.1).
#[cycle(reader)]
#[tactic(auto, unfolding(c_grammar::specs::Reading::struct_body_at))]
fn struct_body<'a>(
    alloc: Global,
    end: u32,
    depth: u32,
    tag: Option<u32>,
    at: u32,
    scope: &mut Scope,
    tokens: &'a [Token],
) -> Result<(Specifier, &'a [Token]), ReadError>
    ensures read { Gives (λ x. (view_specifier x.0, x.1.now)) result (struct_body_at (inner depth) tag scope.old tokens.now) }
    ensures scope { IfOk result (λ x. scope.new ≡ after_spec (view_specifier x.0) scope.old) }
{
    let (members, rest) = members(alloc, end, depth, scope, tokens)?;
    let rest = braced(rest)?;
    let members = List::from_vec(members);
    Ok((Specifier::Struct { tag, members, at }, rest))
}

// What stands behind `struct`.
#[cycle(reader)]
#[tactic(auto, unfolding(c_grammar::specs::Reading::struct_at))]
fn structure<'a>(
    alloc: Global,
    end: u32,
    depth: u32,
    at: u32,
    scope: &mut Scope,
    tokens: &'a [Token],
) -> Result<(Specifier, &'a [Token]), ReadError>
    ensures read { Gives (λ x. (view_specifier x.0, x.1.now)) result (struct_at (inner depth) scope.old tokens.now) }
    ensures scope { IfOk result (λ x. scope.new ≡ after_spec (view_specifier x.0) scope.old) }
{
    match tokens {
        [Token::BraceOpen, rest @ ..] => struct_body(alloc, end, depth, None, at, scope, rest),
        [Token::Name(tag), Token::BraceOpen, rest @ ..] => {
            struct_body(alloc, end, depth, Some(*tag), at, scope, rest)
        }
        [Token::Name(tag), rest @ ..] => Ok((Specifier::StructTag { tag: *tag, at }, rest)),
        _ => Err(broken(tokens)),
    }
}

// The value of an enumerator.
#[cycle(reader)]
#[tactic(auto, unfolding(c_grammar::specs::Reading::valued_at))]
fn enumerator_value<'a>(
    alloc: Global,
    end: u32,
    depth: u32,
    name: u32,
    at: u32,
    scope: &mut Scope,
    tokens: &'a [Token],
) -> Result<(Enumerator, &'a [Token]), ReadError>
    ensures read { Gives (λ x. (view_enumerator x.0, x.1.now)) result (valued_at (inner depth) name scope.old tokens.now) }
    ensures scope { IfOk result (λ x. scope.new ≡ after_item (view_enumerator x.0) scope.old) }
{
    let (value, rest) = nested_constant(alloc, end, depth, scope, tokens)?;
    scope.bind(Some(name), false)?;
    Ok((made::valued(alloc, name, value, at)?, rest))
}

// An enumerator, which is declared behind its value (ISO/IEC 9899:2011, 6.7.2.2 and 6.2.1).
#[cycle(reader)]
#[tactic(auto, unfolding(c_grammar::specs::Reading::item_at))]
fn enumerator<'a>(
    alloc: Global,
    end: u32,
    depth: u32,
    scope: &mut Scope,
    tokens: &'a [Token],
) -> Result<(Enumerator, &'a [Token]), ReadError>
    ensures read { Gives (λ x. (view_enumerator x.0, x.1.now)) result (item_at (inner depth) scope.old tokens.now) }
    ensures scope { IfOk result (λ x. scope.new ≡ after_item (view_enumerator x.0) scope.old) }
{
    let at = number(end, tokens);
    match tokens {
        [Token::Name(name), Token::Equals, rest @ ..] => {
            enumerator_value(alloc, end, depth, *name, at, scope, rest)
        }
        [Token::Name(name), rest @ ..] => {
            scope.bind(Some(*name), false)?;
            let (name, value) = (*name, None);
            Ok((Enumerator { name, value, at }, rest))
        }
        _ => Err(broken(tokens)),
    }
}

// The enumerators behind the commas behind a first one.
#[cycle(reader)]
fn other_enumerators<'a>(
    alloc: Global,
    end: u32,
    depth: u32,
    scope: &mut Scope,
    tokens: &'a [Token],
) -> Result<(Vec<Enumerator>, &'a [Token]), ReadError>
    ensures read { Gives (λ x. (items_of (map view_enumerator x.0.items), x.1.now)) result (items_at (inner depth) (length tokens.now) scope.old tokens.now) }
    ensures scope { IfOk result (λ x. scope.new ≡ after_items (items_of (map view_enumerator x.0.items)) scope.old) }
{
    let mut others = Vec::new(alloc);
    let mut rest = tokens;
    'enumerators: for _ in 0..tokens.len() {
        match next_enumerator(rest) {
            None => return Ok((others, rest)),
            Some(behind) => {
                let (one, after) = enumerator(alloc, end, depth, scope, behind)?;
                others.push(one)?;
                rest = after;
            }
        }
    }
    Ok((others, rest))
}

// The enumerators of an `enum`, perhaps a comma, and `}` (ISO/IEC 9899:2011, 6.7.2.2).
#[cycle(reader)]
#[tactic(auto, unfolding(c_grammar::specs::Reading::enum_body_at))]
fn enum_body<'a>(
    alloc: Global,
    end: u32,
    depth: u32,
    tag: Option<u32>,
    at: u32,
    scope: &mut Scope,
    tokens: &'a [Token],
) -> Result<(Specifier, &'a [Token]), ReadError>
    ensures read { Gives (λ x. (view_specifier x.0, x.1.now)) result (enum_body_at (inner depth) tag scope.old tokens.now) }
    ensures scope { IfOk result (λ x. scope.new ≡ after_spec (view_specifier x.0) scope.old) }
{
    let (first, rest) = enumerator(alloc, end, depth, scope, tokens)?;
    let (others, rest) = other_enumerators(alloc, end, depth, scope, rest)?;
    let (has_comma, rest) = last_comma(rest);
    let rest = braced(rest)?;
    let enumerators = List::from_vec(in_front(first, others)?);
    Ok((
        Specifier::Enum {
            tag,
            enumerators,
            has_comma,
            at,
        },
        rest,
    ))
}

// What stands behind `enum`.
#[cycle(reader)]
#[tactic(auto, unfolding(c_grammar::specs::Reading::enum_at))]
fn enumeration<'a>(
    alloc: Global,
    end: u32,
    depth: u32,
    at: u32,
    scope: &mut Scope,
    tokens: &'a [Token],
) -> Result<(Specifier, &'a [Token]), ReadError>
    ensures read { Gives (λ x. (view_specifier x.0, x.1.now)) result (enum_at (inner depth) scope.old tokens.now) }
    ensures scope { IfOk result (λ x. scope.new ≡ after_spec (view_specifier x.0) scope.old) }
{
    match tokens {
        [Token::BraceOpen, rest @ ..] => enum_body(alloc, end, depth, None, at, scope, rest),
        [Token::Name(tag), Token::BraceOpen, rest @ ..] => {
            enum_body(alloc, end, depth, Some(*tag), at, scope, rest)
        }
        [Token::Name(tag), rest @ ..] => Ok((Specifier::EnumTag { tag: *tag, at }, rest)),
        _ => Err(broken(tokens)),
    }
}

// The rank of a descriptor, from 0 to 15, in parentheses.
#[tactic(auto, unfolding(c_grammar::specs::Reading::ranked_at))]
fn descriptor_rank<'a>(
    at: u32,
    scope: &Scope,
    tokens: &'a [Token],
) -> Result<(Specifier, &'a [Token]), ReadError>
    ensures read { Gives (λ x. (view_specifier x.0, x.1.now)) result (ranked_at scope.now tokens.now) }
    ensures scope { IfOk result (λ x. scope.now ≡ after_spec (view_specifier x.0) scope.now) }
{
    match tokens {
        [
            Token::Open,
            Token::Number(rank, kind),
            Token::Close,
            rest @ ..,
        ] => {
            if *rank >= 16 {
                return Err(broken(tokens));
            }
            let (rank, kind) = (*rank, *kind);
            Ok((Specifier::DescriptorOfRank { rank, kind, at }, rest))
        }
        _ => Err(broken(tokens)),
    }
}

// A specifier (ISO/IEC 9899:2011, 6.7.1 to 6.7.3).
#[cycle(reader)]
#[tactic(auto, unfolding(c_grammar::specs::Reading::spec_at))]
fn specifier<'a>(
    alloc: Global,
    end: u32,
    depth: u32,
    scope: &mut Scope,
    tokens: &'a [Token],
) -> Result<(Specifier, &'a [Token]), ReadError>
    ensures read { Gives (λ x. (view_specifier x.0, x.1.now)) result (spec_at (inner depth) scope.old tokens.now) }
    ensures scope { IfOk result (λ x. scope.new ≡ after_spec (view_specifier x.0) scope.old) }
{
    let at = number(end, tokens);
    match tokens.split_first() {
        Some((Token::Name(name), rest)) => {
            Ok((Specifier::TypedefName { name: *name, at }, rest))
        }
        Some((Token::Word(word), rest)) => Ok((Specifier::Word { word: *word, at }, rest)),
        Some((Token::Struct, rest)) => structure(alloc, end, depth, at, scope, rest),
        Some((Token::Enum, rest)) => enumeration(alloc, end, depth, at, scope, rest),
        Some((Token::DescriptorOfRank, rest)) => descriptor_rank(at, scope, rest),
        _ => Err(broken(tokens)),
    }
}

// Whether there is a base among specifiers, with one more.
fn is_based(based: bool, one: &Specifier) -> bool
    ensures { result ≡ or based (is_base (view_specifier one.now)) }
{
    based || is_base(one)
}

/// Specifiers, one at least; behind a base a name is none (ISO/IEC 9899:2011, 6.7).
#[cycle(reader)]
#[tactic(auto, unfolding(c_grammar::specs::Reading::specifiers_at))]
pub fn specifiers<'a>(
    alloc: Global,
    end: u32,
    depth: u32,
    scope: &mut Scope,
    tokens: &'a [Token],
) -> Result<(Vec<Specifier>, &'a [Token]), ReadError>
    ensures read { Gives (λ x. (specs_of (map view_specifier x.0.items), x.1.now)) result (specifiers_at (inner depth) scope.old tokens.now) }
    ensures scope { IfOk result (λ x. scope.new ≡ after_specs (specs_of (map view_specifier x.0.items)) scope.old) }
{
    if !scope.starts_type(tokens) {
        return Err(broken(tokens));
    }
    let mut specifiers = Vec::new(alloc);
    let mut based = false;
    let mut rest = tokens;
    'specifiers: for _ in 0..tokens.len() {
        if !begins_specifier(based, scope, rest) {
            return Ok((specifiers, rest));
        }
        let (one, after) = specifier(alloc, end, depth, scope, rest)?;
        based = is_based(based, &one);
        specifiers.push(one)?;
        rest = after;
    }
    Ok((specifiers, rest))
}
