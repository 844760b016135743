//! What a number names: types, scopes, declarations, components and procedures.

ghost use Rattle.std.specs.Prelude.{◌≡◌, slice_get};
ghost use Rattle.std.specs.List.{list_any};
ghost use Rattle.f_resolved.specs.Kinds.{callee_fits, component_at, component_row, constant_row, gives, has_components, has_dummy, has_host, interface_of, invoked, invoked_at, invokes, is_around, is_data, is_hosted, is_pointer, is_procedure, is_some, is_subroutine, is_visible, kind_fits, named_row, names_variable, pointer_fits, procedure_fits, rank_fits, rank_of, ranked_row, reaches, row_at, row_in, row_of, same_scope, scope_exists, subscripts_fit, takes, value_fits, variable_row};

use crate::attributes::Attributes;
use crate::declaration::{Component, Declaration};
use crate::dimension::Shape;
use crate::expression::{Callee, Intrinsic};
use crate::kind::{DataType, Declared, Named, Scope};
use crate::program::{Body, FProgram, Procedure};

/// What a number tells of a data object or a procedure pointer: its type, its rank where that is known, and whether it is a named
/// constant.
#[derive(Clone, Copy)]
pub struct Row {
    pub kind: DataType,
    pub rank: Option<usize>,
    pub is_constant: bool,
}

/// How many dummy arguments a procedure has, and whether it is a function.
#[derive(Clone, Copy)]
pub struct Interface {
    pub dummies: u32,
    pub has_result: bool,
}

/// Whether a type's number names a derived type or a procedure.
pub fn is_kind(p: &FProgram, kind: DataType) -> bool
    ensures { result ≡ kind_fits p.now kind }
{
    match kind {
        DataType::Derived(t) => (t as usize) < p.types.len(),
        DataType::Procedure(f) => (f as usize) < p.procedures.len(),
        DataType::Integer(_) => true,
        DataType::Logical(_) => true,
        DataType::Character(_) => true,
        DataType::CPtr => true,
        DataType::CFunPtr => true,
        DataType::Assumed => true,
    }
}

fn is_rank(rank: Option<u8>) -> bool
    ensures { result ≡ rank_fits rank }
{
    match rank {
        None => true,
        Some(rank) => rank <= 15,
    }
}

/// Whether a value can have this type and this rank.
pub fn is_value(p: &FProgram, kind: DataType, rank: Option<u8>) -> bool
    ensures { result ≡ value_fits p.now kind rank }
{
    is_kind(p, kind) && is_rank(rank)
}

fn rank_of(shape: &Shape) -> Option<usize>
    ensures { result ≡ rank_of shape.now }
{
    match shape {
        Shape::Scalar => Some(0),
        Shape::Array(a) => Some(a.get().dimensions.len()),
        Shape::AssumedRank => None,
    }
}

/// Whether so many subscripts can stand behind what has this rank.
pub fn are_as_many(rank: Option<usize>, subscripts: usize) -> bool
    ensures { result ≡ subscripts_fit rank subscripts }
{
    match rank {
        None => subscripts == 0,
        Some(rank) => subscripts == 0 || subscripts == rank,
    }
}

fn is_same(left: Scope, right: Scope) -> bool
    ensures { result ≡ same_scope left right }
{
    match (left, right) {
        (Scope::Module(m), Scope::Module(n)) => m == n,
        (Scope::Program(m), Scope::Program(n)) => m == n,
        (Scope::Procedure(m), Scope::Procedure(n)) => m == n,
        _ => false,
    }
}

/// Whether the program has this scope.
pub fn is_scope(p: &FProgram, scope: Scope) -> bool
    ensures { result ≡ scope_exists p.now scope }
{
    match scope {
        Scope::Module(m) => (m as usize) < p.modules.len(),
        Scope::Program(m) => (m as usize) < p.programs.len(),
        Scope::Procedure(f) => (f as usize) < p.procedures.len(),
    }
}

fn is_among(hosts: &[Scope], scope: Scope) -> bool
    ensures { result ≡ list_any (λ host. same_scope host scope) hosts.now }
{
    hosts.iter().any(|host| is_same(*host, scope))
}

fn has_host(p: &FProgram, f: u32, scope: Scope) -> bool
    ensures { result ≡ has_host (slice_get p.now.procedures f) scope }
{
    match p.procedures.as_slice().get(f as usize) {
        None => false,
        Some(f) => is_among(f.hosts.as_slice(), scope),
    }
}

fn is_around(p: &FProgram, here: Scope, scope: Scope) -> bool
    ensures { result ≡ is_around p.now here scope }
{
    match here {
        Scope::Procedure(f) => has_host(p, f, scope),
        Scope::Module(_) => false,
        Scope::Program(_) => false,
    }
}

fn reaches(p: &FProgram, here: Scope, scope: Scope) -> bool
    ensures { result ≡ reaches p.now here scope }
{
    match scope {
        Scope::Module(_) => true,
        Scope::Program(_) => is_same(here, scope) || is_around(p, here, scope),
        Scope::Procedure(_) => is_same(here, scope) || is_around(p, here, scope),
    }
}

fn row_of(all: &[Declaration], number: u32) -> Option<Row>
    ensures { result ≡ row_of (slice_get all.now number) }
{
    match all.get(number as usize) {
        None => None,
        Some(d) => Some(Row {
            kind: d.kind,
            rank: rank_of(&d.shape),
            is_constant: d.attributes.has(Attributes::PARAMETER),
        }),
    }
}

fn row_in(p: &FProgram, scope: Scope, number: u32) -> Option<Row>
    ensures { result ≡ row_in p.now scope number }
{
    match scope {
        Scope::Module(m) => match p.modules.as_slice().get(m as usize) {
            None => None,
            Some(m) => row_of(m.declarations.as_slice(), number),
        },
        Scope::Program(m) => match p.programs.as_slice().get(m as usize) {
            None => None,
            Some(m) => row_of(m.declarations.as_slice(), number),
        },
        Scope::Procedure(f) => match p.procedures.as_slice().get(f as usize) {
            None => None,
            Some(f) => row_of(f.declarations.as_slice(), number),
        },
    }
}

fn row_at(p: &FProgram, here: Scope, d: Declared) -> Option<Row>
    ensures { result ≡ row_at p.now here d }
{
    if reaches(p, here, d.scope) {
        row_in(p, d.scope, d.number)
    } else {
        None
    }
}

fn is_data(kind: DataType) -> bool
    ensures { result ≡ is_data kind }
{
    match kind {
        DataType::Procedure(_) => false,
        DataType::Integer(_) => true,
        DataType::Logical(_) => true,
        DataType::Character(_) => true,
        DataType::CPtr => true,
        DataType::CFunPtr => true,
        DataType::Derived(_) => true,
        DataType::Assumed => true,
    }
}

fn constant_row(row: Option<Row>) -> Option<Row>
    ensures { result ≡ constant_row row }
{
    match row {
        None => None,
        Some(row) => {
            if is_data(row.kind) && row.is_constant {
                Some(row)
            } else {
                None
            }
        }
    }
}

fn variable_of(row: Option<Row>) -> Option<Row>
    ensures { result ≡ variable_row row }
{
    match row {
        None => None,
        Some(row) => {
            if is_data(row.kind) && !row.is_constant {
                Some(row)
            } else {
                None
            }
        }
    }
}

/// What is known of a variable.
pub fn variable_row(p: &FProgram, here: Scope, d: Declared) -> Option<Row>
    ensures { result ≡ variable_row (row_at p.now here d) }
{
    variable_of(row_at(p, here, d))
}

fn ranked_row(row: Option<Row>, rank: usize) -> Option<Row>
    ensures { result ≡ ranked_row row rank }
{
    match row {
        None => None,
        Some(row) => match row.rank {
            Some(_) => None,
            None => Some(Row {
                kind: row.kind,
                rank: Some(rank),
                is_constant: row.is_constant,
            }),
        },
    }
}

/// What is known of a data object, where the name is that of one.
pub fn named_row(p: &FProgram, here: Scope, named: Named) -> Option<Row>
    ensures { result ≡ named_row p.now here named }
{
    match named {
        Named::Variable(d) => variable_row(p, here, d),
        Named::Constant(d) => constant_row(row_at(p, here, d)),
        Named::OfRank(d, rank) => {
            if rank <= 15 {
                ranked_row(variable_row(p, here, d), rank as usize)
            } else {
                None
            }
        }
        Named::OfAssumedSize(d) => ranked_row(variable_row(p, here, d), 1),
    }
}

/// Whether a name is that of a variable and no named constant.
pub fn names_variable(named: Named) -> bool
    ensures { result ≡ names_variable named }
{
    match named {
        Named::Constant(_) => false,
        Named::Variable(_) => true,
        Named::OfRank(_, _) => true,
        Named::OfAssumedSize(_) => true,
    }
}

fn is_pointer_row(row: Option<Row>) -> bool
    ensures { result ≡ is_pointer row }
{
    match row {
        None => false,
        Some(row) => !is_data(row.kind),
    }
}

/// Whether a declaration is that of a procedure pointer.
pub fn is_pointer(p: &FProgram, here: Scope, d: Declared) -> bool
    ensures { result ≡ pointer_fits p.now here d }
{
    is_pointer_row(row_at(p, here, d))
}

fn component_row(all: &[Component], number: u32) -> Option<Row>
    ensures { result ≡ component_row (slice_get all.now number) }
{
    match all.get(number as usize) {
        None => None,
        Some(c) => Some(Row {
            kind: c.kind,
            rank: rank_of(&c.shape),
            is_constant: false,
        }),
    }
}

/// What is known of a component of a derived type.
pub fn component_at(p: &FProgram, of: u32, component: u32) -> Option<Row>
    ensures { result ≡ component_at p.now of component }
{
    match p.types.as_slice().get(of as usize) {
        None => None,
        Some(t) => component_row(t.components.as_slice(), component),
    }
}

/// Whether a derived type is there and has so many components.
pub fn has_components(p: &FProgram, of: u32, count: usize) -> bool
    ensures { result ≡ has_components (slice_get p.now.types of) count }
{
    match p.types.as_slice().get(of as usize) {
        None => false,
        Some(t) => count == t.components.len(),
    }
}

fn is_procedure(body: &Body) -> bool
    ensures { result ≡ is_procedure body.now }
{
    match body {
        Body::Abstract => false,
        Body::Defined(_) => true,
        Body::Elsewhere => true,
    }
}

fn is_hosted(p: &FProgram, here: Scope, hosts: &[Scope]) -> bool
    ensures { result ≡ is_hosted p.now here hosts.now }
{
    match hosts {
        [] => true,
        [first, ..] => reaches(p, here, *first),
    }
}

/// Whether the scope can name a procedure of this number.
pub fn is_visible(p: &FProgram, here: Scope, f: u32) -> bool
    ensures { result ≡ procedure_fits p.now here f }
{
    match p.procedures.as_slice().get(f as usize) {
        None => false,
        Some(f) => is_procedure(&f.body) && is_hosted(p, here, f.hosts.as_slice()),
    }
}

fn is_some(number: Option<u32>) -> bool
    ensures { result ≡ is_some number }
{
    match number {
        None => false,
        Some(_) => true,
    }
}

fn invoked_at(p: &FProgram, f: u32) -> Option<Interface>
    ensures { result ≡ invoked_at (slice_get p.now.procedures f) }
{
    match p.procedures.as_slice().get(f as usize) {
        None => None,
        Some(f) => Some(Interface {
            dummies: f.dummies,
            has_result: is_some(f.result),
        }),
    }
}

fn interface_of(p: &FProgram, kind: DataType) -> Option<Interface>
    ensures { result ≡ interface_of p.now kind }
{
    match kind {
        DataType::Procedure(f) => invoked_at(p, f),
        DataType::Integer(_) => None,
        DataType::Logical(_) => None,
        DataType::Character(_) => None,
        DataType::CPtr => None,
        DataType::CFunPtr => None,
        DataType::Derived(_) => None,
        DataType::Assumed => None,
    }
}

fn invoked(p: &FProgram, callee: Callee) -> Option<Interface>
    ensures { result ≡ invoked p.now callee }
{
    match callee {
        Callee::Procedure(f) => invoked_at(p, f),
        Callee::Pointer(d) => match row_in(p, d.scope, d.number) {
            None => None,
            Some(row) => interface_of(p, row.kind),
        },
        Callee::Intrinsic(_) => None,
    }
}

fn is_subroutine(i: Intrinsic) -> bool
    ensures { result ≡ is_subroutine i }
{
    match i {
        Intrinsic::CFPointer => true,
        Intrinsic::CFProcpointer => true,
        _ => false,
    }
}

fn gives(of_function: bool, has_result: bool) -> bool
    ensures { result ≡ gives of_function has_result }
{
    if of_function { has_result } else { !has_result }
}

fn invokes(of_function: bool, what: Option<Interface>) -> bool
    ensures { result ≡ invokes of_function what }
{
    match what {
        None => false,
        Some(what) => gives(of_function, what.has_result),
    }
}

/// Whether the scope can invoke this, as a function or as a subroutine.
pub fn is_callee(p: &FProgram, here: Scope, of_function: bool, callee: Callee) -> bool
    ensures { result ≡ callee_fits p.now here of_function callee }
{
    match callee {
        Callee::Procedure(f) => is_visible(p, here, f) && invokes(of_function, invoked(p, callee)),
        Callee::Pointer(d) => is_pointer(p, here, d) && invokes(of_function, invoked(p, callee)),
        Callee::Intrinsic(i) => gives(of_function, !is_subroutine(i)),
    }
}

fn has_dummy(what: Option<Interface>, dummy: u32) -> bool
    ensures { result ≡ has_dummy what dummy }
{
    match what {
        None => false,
        Some(what) => dummy < what.dummies,
    }
}

/// Whether what is invoked has a dummy argument of this number.
pub fn takes(p: &FProgram, callee: Callee, dummy: u32) -> bool
    ensures { result ≡ takes p.now callee dummy }
{
    match callee {
        Callee::Procedure(_) => has_dummy(invoked(p, callee), dummy),
        Callee::Pointer(_) => has_dummy(invoked(p, callee), dummy),
        Callee::Intrinsic(_) => true,
    }
}
