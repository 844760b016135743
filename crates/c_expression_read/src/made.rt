//! Trees made of their parts.

ghost use Rattle.std.specs.Prelude.{◌≡◌, ◌∷◌, IfOk, map};
ghost use Rattle.std.specs.Option.{option_map};
ghost use Rattle.c_tree.specs.Heights.{rank};
ghost use Rattle.c_grammar.specs.Grammar.{Paren, Postfix as PostfixOf, Prefix, SizeOfExpr, SizeOf, Cast, Chain, Infix, Choose, Assign, Group, Function as FunctionOf, OpenArray, Array, Valued, Members, member};
ghost use Rattle.c_grammar.specs.Reading.{chain, with_posts};
ghost use Rattle.c_expression_read.specs.Views.{view, view_link, view_choice, view_target, view_postfix, view_typed, view_core, view_declarator, view_suffix, view_enumerator, view_members, view_parameters, call_of, links_of, posts_of, commas_of, decls_of, members, array_of, first_of, shifted};

use c_tree::{
    AssignOperator, BinaryOperator, Choice, Core, Declarator, Enumerator, Expr, Height, Link,
    MemberDeclaration, Parameters, Postfix, PrefixOperator, Suffix, Target, Typed,
};
use jf_base::{Boxed, List};
use std::alloc::{AllocError, Global};

/// A list of the first and the others.
pub fn in_front<T: Drop>(first: T, mut others: Vec<T>) -> Result<Vec<T>, AllocError>
    ensures { IfOk result (λ all. all.items ≡ first ∷ others.items) }
{
    others.insert(0, first)?;
    Ok(others)
}

pub fn parenthesized(alloc: Global, inner: Expr, at: u32) -> Result<Expr, AllocError>
    ensures { IfOk result (λ e. view e ≡ Paren (view inner)) }
{
    Ok(Expr::Parenthesized {
        inner: Boxed::new(alloc, inner)?,
        at,
    })
}

fn postfixed(
    alloc: Global,
    operand: Expr,
    suffixes: Vec<Postfix>,
    at: u32,
) -> Result<Expr, AllocError>
    ensures { IfOk result (λ e. view e ≡ PostfixOf (view operand) (posts_of (map view_postfix suffixes.items))) }
{
    Ok(Expr::Postfix {
        operand: Boxed::new(alloc, operand)?,
        suffixes: List::from_vec(suffixes),
        at,
    })
}

/// The operand with postfix operators, or alone where there are none.
pub fn postfix(
    alloc: Global,
    operand: Expr,
    suffixes: Vec<Postfix>,
    at: u32,
) -> Result<Expr, AllocError>
    ensures { IfOk result (λ e. view e ≡ with_posts (view operand) (posts_of (map view_postfix suffixes.items))) }
{
    match suffixes.as_slice() {
        [] => Ok(operand),
        [_, ..] => postfixed(alloc, operand, suffixes, at),
    }
}

pub fn prefix(
    alloc: Global,
    operator: PrefixOperator,
    operand: Expr,
    at: u32,
) -> Result<Expr, AllocError>
    ensures { IfOk result (λ e. view e ≡ Prefix operator (view operand)) }
{
    Ok(Expr::Prefix {
        operator,
        operand: Boxed::new(alloc, operand)?,
        at,
    })
}

pub fn size_of_expression(alloc: Global, operand: Expr, at: u32) -> Result<Expr, AllocError>
    ensures { IfOk result (λ e. view e ≡ SizeOfExpr (view operand)) }
{
    Ok(Expr::SizeofExpr {
        operand: Boxed::new(alloc, operand)?,
        at,
    })
}

pub fn size_of_type(alloc: Global, kind: Typed, at: u32) -> Result<Expr, AllocError>
    ensures { IfOk result (λ e. view e ≡ SizeOf (view_typed kind)) }
{
    Ok(Expr::SizeofType {
        kind: Boxed::new(alloc, kind)?,
        at,
    })
}

pub fn cast(alloc: Global, kind: Typed, operand: Expr, at: u32) -> Result<Expr, AllocError>
    ensures { IfOk result (λ e. view e ≡ Cast (view_typed kind) (view operand)) }
{
    Ok(Expr::Cast {
        kind: Boxed::new(alloc, kind)?,
        operand: Boxed::new(alloc, operand)?,
        at,
    })
}

pub fn link(operator: BinaryOperator, right: Expr, at: u32) -> Link
    ensures { view_link result ≡ (Infix operator, view right) }
{
    Link {
        operator,
        right,
        at,
    }
}

fn linked(
    alloc: Global,
    height: Height,
    first: Expr,
    links: Vec<Link>,
    at: u32,
) -> Result<Expr, AllocError>
    ensures { IfOk result (λ e. view e ≡ Chain (rank height) (view first) (links_of (map view_link links.items))) }
{
    Ok(Expr::Chain {
        height,
        first: Boxed::new(alloc, first)?,
        links: List::from_vec(links),
        at,
    })
}

/// A chain of links, or the operand alone where there are none.
pub fn chain(
    alloc: Global,
    height: Height,
    first: Expr,
    links: Vec<Link>,
    at: u32,
) -> Result<Expr, AllocError>
    ensures { IfOk result (λ e. view e ≡ chain (rank height) (view first) (links_of (map view_link links.items))) }
{
    match links.as_slice() {
        [] => Ok(first),
        [_, ..] => linked(alloc, height, first, links, at),
    }
}

pub fn choice(test: Expr, value: Expr, at: u32) -> Choice
    ensures { view_choice result ≡ (view test, Choose (view value)) }
{
    Choice { test, value, at }
}

fn chosen(alloc: Global, choices: Vec<Choice>, otherwise: Expr, at: u32) -> Result<Expr, AllocError>
    ensures { IfOk result (λ e. view e ≡ Chain 10 (first_of (map view_choice choices.items) (view otherwise)) (links_of (shifted (map view_choice choices.items) (view otherwise)))) }
{
    Ok(Expr::Conditional {
        choices: List::from_vec(choices),
        otherwise: Boxed::new(alloc, otherwise)?,
        at,
    })
}

/// A conditional expression, or the operand alone where nothing is chosen.
pub fn conditional(
    alloc: Global,
    choices: Vec<Choice>,
    otherwise: Expr,
    at: u32,
) -> Result<Expr, AllocError>
    ensures { IfOk result (λ e. view e ≡ chain 10 (first_of (map view_choice choices.items) (view otherwise)) (links_of (shifted (map view_choice choices.items) (view otherwise)))) }
{
    match choices.as_slice() {
        [] => Ok(otherwise),
        [_, ..] => chosen(alloc, choices, otherwise, at),
    }
}

pub fn target(place: Expr, operator: AssignOperator, at: u32) -> Target
    ensures { view_target result ≡ (view place, Assign operator) }
{
    Target {
        place,
        operator,
        at,
    }
}

fn assigned(alloc: Global, targets: Vec<Target>, value: Expr, at: u32) -> Result<Expr, AllocError>
    ensures { IfOk result (λ e. view e ≡ Chain 11 (first_of (map view_target targets.items) (view value)) (links_of (shifted (map view_target targets.items) (view value)))) }
{
    Ok(Expr::Assignment {
        targets: List::from_vec(targets),
        value: Boxed::new(alloc, value)?,
        at,
    })
}

/// An assignment, or the value alone where nothing is assigned to.
pub fn assignment(
    alloc: Global,
    targets: Vec<Target>,
    value: Expr,
    at: u32,
) -> Result<Expr, AllocError>
    ensures { IfOk result (λ e. view e ≡ chain 11 (first_of (map view_target targets.items) (view value)) (links_of (shifted (map view_target targets.items) (view value)))) }
{
    match targets.as_slice() {
        [] => Ok(value),
        [_, ..] => assigned(alloc, targets, value, at),
    }
}

fn listed(alloc: Global, first: Expr, others: Vec<Expr>, at: u32) -> Result<Expr, AllocError>
    ensures { IfOk result (λ e. view e ≡ Chain 12 (view first) (commas_of (map view others.items))) }
{
    Ok(Expr::Comma {
        first: Boxed::new(alloc, first)?,
        others: List::from_vec(others),
        at,
    })
}

/// Expressions with commas between them, or the first alone where there are no others.
pub fn commas(alloc: Global, first: Expr, others: Vec<Expr>, at: u32) -> Result<Expr, AllocError>
    ensures { IfOk result (λ e. view e ≡ chain 12 (view first) (commas_of (map view others.items))) }
{
    match others.as_slice() {
        [] => Ok(first),
        [_, ..] => listed(alloc, first, others, at),
    }
}

pub fn group(alloc: Global, inner: Declarator, at: u32) -> Result<Core, AllocError>
    ensures { IfOk result (λ c. view_core c ≡ Group (view_declarator inner)) }
{
    Ok(Core::Group {
        inner: Boxed::new(alloc, inner)?,
        at,
    })
}

/// A call with these arguments.
pub fn call(arguments: Vec<Expr>, at: u32) -> Postfix
    ensures { view_postfix result ≡ call_of (map view arguments.items) }
{
    Postfix::Call {
        arguments: List::from_vec(arguments),
        at,
    }
}

/// A function with these parameters.
pub fn function(parameters: Parameters, at: u32) -> Suffix
    ensures { view_suffix result ≡ FunctionOf (view_parameters parameters) }
{
    Suffix::Function { parameters, at }
}

fn array_of(length: Option<Boxed<Expr>>, at: u32) -> Suffix
    ensures { view_suffix result ≡ array_of (option_map view length) }
{
    Suffix::Array { length, at }
}

pub fn open_array(at: u32) -> Suffix
    ensures { view_suffix result ≡ OpenArray }
{
    array_of(None, at)
}

pub fn array(alloc: Global, length: Expr, at: u32) -> Result<Suffix, AllocError>
    ensures { IfOk result (λ s. view_suffix s ≡ Array (view length)) }
{
    Ok(array_of(Some(Boxed::new(alloc, length)?), at))
}

/// The specifiers of the first declarator, with that one and the others that are declared together.
pub fn members(first: Typed, others: Vec<Declarator>) -> Result<MemberDeclaration, AllocError>
    ensures { IfOk result (λ m. (rest : Members) → members (view_members m) rest ≡ member (view_typed first) (decls_of (map view_declarator others.items)) rest) }
{
    let Typed {
        specifiers,
        declarator,
        at,
    } = first;
    let declarators = List::from_vec(in_front(declarator, others)?);
    Ok(MemberDeclaration {
        specifiers,
        declarators,
        at,
    })
}

pub fn valued(alloc: Global, name: u32, value: Expr, at: u32) -> Result<Enumerator, AllocError>
    ensures { IfOk result (λ i. view_enumerator i ≡ Valued name (view value)) }
{
    let value = Some(Boxed::new(alloc, value)?);
    Ok(Enumerator { name, value, at })
}
