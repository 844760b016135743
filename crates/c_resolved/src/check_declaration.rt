//! Whether each number in a declaration names a thing that is there.

ghost use Rattle.std.specs.Prelude.{◌≡◌, map, nat_lt};
ghost use Rattle.std.specs.List.{list_all};
ghost use Rattle.c_resolved.specs.Lists.{all_of, of_any};
ghost use Rattle.c_resolved.specs.Declarations.{declaration_fits, initializer_fits, local_declaration_fits, local_fits, string_fits};

use crate::check_expression::is_expr;
use crate::check_type::{Counts, is_type};
use crate::declaration::{Declaration, Initializer, Local, LocalDeclaration, StringLiteral};
use c_types::Types;

fn are_literals(counts: Counts, all: &[u32]) -> bool
    ensures { result ≡ list_all (λ x. nat_lt x counts.literals) all.now }
{
    all.iter().all(|x| (*x as usize) < counts.literals)
}

/// Whether each part of a string is a literal that is there.
pub fn is_string(counts: Counts, s: &StringLiteral) -> bool
    ensures { result ≡ string_fits counts s.now }
{
    (s.first as usize) < counts.literals
        && are_literals(counts, s.others.as_slice())
        && counts.has_token(s.at)
}

/// Whether each number in an initial value names a thing that is there.
#[cycle(fit)]
pub fn is_initializer(counts: Counts, t: &Types, i: &Initializer) -> bool
    ensures { result ≡ initializer_fits counts t.now i.now }
{
    match i {
        Initializer::Value(value) => is_expr(counts, t, value),
        Initializer::Text(text) => is_string(counts, text),
        Initializer::Aggregate { items, at } => are_initializers(counts, t, items.as_slice())
            && counts.has_token(*at),
    }
}

#[cycle(fit)]
fn are_initializers(counts: Counts, t: &Types, all: &[Initializer]) -> bool
    ensures { result ≡ all_of (map (initializer_fits counts t.now) all.now) }
{
    'initializers: for one in all {
        if !is_initializer(counts, t, one) {
            return false;
        }
    }
    true
}

fn is_optional_initializer(counts: Counts, t: &Types, i: &Option<Initializer>) -> bool
    ensures { result ≡ of_any (initializer_fits counts t.now) i.now }
{
    match i {
        None => true,
        Some(i) => is_initializer(counts, t, i),
    }
}

/// Whether the name, the type and the token of a local are there.
pub fn is_local(counts: Counts, x: &Local) -> bool
    ensures { result ≡ local_fits counts x.now }
{
    counts.has_name(x.name) && is_type(counts, &x.kind) && counts.has_token(x.at)
}

fn is_local_declaration(counts: Counts, t: &Types, d: &LocalDeclaration) -> bool
    ensures { result ≡ local_declaration_fits counts t.now d.now }
{
    counts.parameters <= d.local as usize
        && (d.local as usize) < counts.locals
        && is_optional_initializer(counts, t, &d.value)
        && counts.has_token(d.at)
}

fn are_local_declarations(counts: Counts, t: &Types, all: &[LocalDeclaration]) -> bool
    ensures { result ≡ list_all (λ x. local_declaration_fits counts t.now x) all.now }
{
    all.iter().all(|one| is_local_declaration(counts, t, one))
}

/// Whether each number in a declaration of locals names a thing that is there.
pub fn is_declaration(counts: Counts, t: &Types, d: &Declaration) -> bool
    ensures { result ≡ declaration_fits counts t.now d.now }
{
    are_local_declarations(counts, t, d.locals.as_slice()) && counts.has_token(d.at)
}
