//! Whether each number in a program names a thing of the right kind.

ghost use Rattle.std.specs.Prelude.{◌≡◌, ◌&&◌, Some, length};
ghost use Rattle.f_resolved.specs.Programs.{body_fits, head_fits, hosts_fit, main_fits, mains_fit, module_fits, modules_fit, procedure_at, procedure_stands, procedures_fit, program_at, program_fits, result_fits, types_fit};

use crate::check_declaration::{are_declarations, is_type};
use crate::check_kind::is_scope;
use crate::check_statement::are_statements;
use crate::kind::Scope;
use crate::program::{Body, FProgram, MainProgram, Procedure};

fn are_types(p: &FProgram) -> bool
    ensures { result ≡ types_fit p.now }
{
    let mut all = true;
    for t in 0..p.types.len() {
        all = all && is_type(p, t);
    }
    all
}

fn is_module(p: &FProgram, m: u32) -> bool
    ensures { result ≡ module_fits p.now m }
{
    match p.modules.as_slice().get(m as usize) {
        None => false,
        Some(module) => are_declarations(p, Scope::Module(m), module.declarations.as_slice()),
    }
}

fn are_modules(p: &FProgram) -> bool
    ensures { result ≡ modules_fit p.now }
{
    let modules = p.modules.len();
    if modules > 4_294_967_296 {
        return false;
    }
    let mut all = true;
    for m in 0..modules {
        all = all && is_module(p, m as u32);
    }
    all
}

fn is_program(p: &FProgram, m: u32, program: &MainProgram) -> bool
    ensures { result ≡ program_at p.now m (Some program.now) }
{
    are_declarations(p, Scope::Program(m), program.declarations.as_slice())
        && are_statements(p, Scope::Program(m), program.body.as_slice())
}

fn is_main(p: &FProgram, m: u32) -> bool
    ensures { result ≡ main_fits p.now m }
{
    match p.programs.as_slice().get(m as usize) {
        None => false,
        Some(program) => is_program(p, m, program),
    }
}

fn are_mains(p: &FProgram) -> bool
    ensures { result ≡ mains_fit p.now }
{
    let programs = p.programs.len();
    if programs > 4_294_967_296 {
        return false;
    }
    let mut all = true;
    for m in 0..programs {
        all = all && is_main(p, m as u32);
    }
    all
}

fn is_result(dummies: u32, declared: usize, number: Option<u32>) -> bool
    ensures { result ≡ result_fits dummies declared number }
{
    match number {
        None => true,
        Some(r) => dummies <= r && (r as usize) < declared,
    }
}

fn is_body(p: &FProgram, here: Scope, body: &Body) -> bool
    ensures { result ≡ body_fits p.now here body.now }
{
    match body {
        Body::Defined(d) => are_statements(p, here, d.body.as_slice()),
        Body::Elsewhere => true,
        Body::Abstract => true,
    }
}

fn are_hosts(p: &FProgram, hosts: &[Scope]) -> bool
    ensures { result ≡ hosts_fit p.now hosts.now }
{
    hosts.iter().all(|s| is_scope(p, *s))
}

fn is_head(p: &FProgram, f: &Procedure) -> bool
    ensures { result ≡ head_fits p.now f.now }
{
    are_hosts(p, f.hosts.as_slice())
        && f.dummies as usize <= f.declarations.len()
        && is_result(f.dummies, f.declarations.len(), f.result)
}

fn is_procedure(p: &FProgram, number: u32, f: &Procedure) -> bool
    ensures { result ≡ procedure_at p.now number (Some f.now) }
{
    is_head(p, f)
        && are_declarations(p, Scope::Procedure(number), f.declarations.as_slice())
        && is_body(p, Scope::Procedure(number), &f.body)
}

fn is_procedure_there(p: &FProgram, f: u32) -> bool
    ensures { result ≡ procedure_stands p.now f }
{
    match p.procedures.as_slice().get(f as usize) {
        None => false,
        Some(procedure) => is_procedure(p, f, procedure),
    }
}

fn are_procedures(p: &FProgram) -> bool
    ensures { result ≡ procedures_fit p.now }
{
    let procedures = p.procedures.len();
    if procedures > 4_294_967_296 {
        return false;
    }
    let mut all = true;
    for f in 0..procedures {
        all = all && is_procedure_there(p, f as u32);
    }
    all
}

/// Whether each number in a program names a declared thing of the right kind.
///
/// - A scope names what modules, the scope itself and the scopes around it declare: a data object by its kind of name, a procedure
///   pointer, and a procedure that is no abstract interface. A function is referenced, and a subroutine called.
/// - As many subscripts stand behind an array as it has dimensions, or none, and as many ranges behind what is allocated.
/// - A component belongs to the type of what stands before it, and a structure constructor has a value for each component.
/// - An actual argument has a dummy argument; dummy arguments are the first declarations of a procedure, and its result is one behind
///   them. A DO variable is a scalar integer variable, and a SELECT RANK construct selects by a variable of assumed rank.
/// - Derived types are in an order in which components have earlier types, and their bounds and lengths are constant.
/// - ALLOCATABLE, POINTER and PARAMETER exclude one another, a named constant has a value, and what has BIND(C) has a label.
///
/// Takes no memory, and goes over the program once.
pub fn is_resolved(p: &FProgram) -> bool
    ensures { result ≡ program_fits p.now }
{
    are_types(p) && are_modules(p) && are_procedures(p) && are_mains(p)
}
