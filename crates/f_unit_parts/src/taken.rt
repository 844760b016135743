//! Statements of specification parts, and those that begin units, taken apart.

ghost use Rattle.std.specs.Prelude.{◌≡◌};
ghost use Rattle.f_statement_grammar.specs.Statements as grammar;
ghost use Rattle.f_declared.specs.Views.{view_declared};
ghost use Rattle.f_unit_parts.specs.declared.kind.Kind.TheVariants as kind;
ghost use Rattle.f_unit_parts.specs.Views.{kind_of};
ghost use Rattle.f_unit_parts.specs.Units.{program_line, module_line, head_line, contains_line, use_line, import_line, implicit_line, variables_line, type_line, interface_line, access_line, save_line, pointers_line};

use f_declared::{Declared, TypeStart};
use f_tree::{AccessStatement, Head, Import, Name, ProcedurePointers, Use, Variables};
use jf_base::Place;

/// A PROGRAM or a MODULE statement
#[derive(Drop)]
pub struct UnitHead {
    pub place: Place,
    pub name: Name,
}

/// INTERFACE or ABSTRACT INTERFACE
#[derive(Clone, Copy)]
pub struct InterfaceHead {
    pub place: Place,
    pub is_abstract: bool,
}

pub fn program_head(declared: Declared) -> UnitHead
    requires { kind_of declared ≡ kind.Program }
    ensures { grammar.Declaring (view_declared declared) ≡ program_line result.name }
{
    match declared {
        Declared::Program { place, name } => UnitHead { place, name },
        _ => unreachable!(),
    }
}

pub fn module_head(declared: Declared) -> UnitHead
    requires { kind_of declared ≡ kind.Module }
    ensures { grammar.Declaring (view_declared declared) ≡ module_line result.name }
{
    match declared {
        Declared::Module { place, name } => UnitHead { place, name },
        _ => unreachable!(),
    }
}

#[tactic(auto, unfolding(crate::specs::Units::head_line))]
pub fn procedure_head(declared: Declared) -> Head
    requires { kind_of declared ≡ kind.Head }
    ensures { grammar.Declaring (view_declared declared) ≡ head_line result }
{
    match declared {
        Declared::Head(head) => head,
        _ => unreachable!(),
    }
}

pub fn contains(declared: Declared) -> Place
    requires { kind_of declared ≡ kind.Contains }
    ensures { grammar.Declaring (view_declared declared) ≡ contains_line }
{
    match declared {
        Declared::Contains { place } => place,
        _ => unreachable!(),
    }
}

#[tactic(auto, unfolding(crate::specs::Units::use_line))]
pub fn used(declared: Declared) -> Use
    requires { kind_of declared ≡ kind.Use }
    ensures { grammar.Declaring (view_declared declared) ≡ use_line result }
{
    match declared {
        Declared::Use(used) => used,
        _ => unreachable!(),
    }
}

#[tactic(auto, unfolding(crate::specs::Units::import_line))]
pub fn import(declared: Declared) -> Import
    requires { kind_of declared ≡ kind.Import }
    ensures { grammar.Declaring (view_declared declared) ≡ import_line result }
{
    match declared {
        Declared::Import(import) => import,
        _ => unreachable!(),
    }
}

pub fn implicit_none(declared: Declared) -> Place
    requires { kind_of declared ≡ kind.ImplicitNone }
    ensures { grammar.Declaring (view_declared declared) ≡ implicit_line }
{
    match declared {
        Declared::ImplicitNone { place } => place,
        _ => unreachable!(),
    }
}

#[tactic(auto, unfolding(crate::specs::Units::variables_line))]
pub fn variables(declared: Declared) -> Variables
    requires { kind_of declared ≡ kind.Variables }
    ensures { grammar.Declaring (view_declared declared) ≡ variables_line result }
{
    match declared {
        Declared::Variables(variables) => variables,
        _ => unreachable!(),
    }
}

#[tactic(auto, unfolding(crate::specs::Units::type_line))]
pub fn type_start(declared: Declared) -> TypeStart
    requires { kind_of declared ≡ kind.TypeStart }
    ensures { grammar.Declaring (view_declared declared) ≡ type_line result.attributes result.has_colons result.name }
{
    match declared {
        Declared::TypeStart(start) => start,
        _ => unreachable!(),
    }
}

pub fn interface_head(declared: Declared) -> InterfaceHead
    requires { kind_of declared ≡ kind.InterfaceStart }
    ensures { grammar.Declaring (view_declared declared) ≡ interface_line result.is_abstract }
{
    match declared {
        Declared::InterfaceStart { place, is_abstract } => InterfaceHead { place, is_abstract },
        _ => unreachable!(),
    }
}

#[tactic(auto, unfolding(crate::specs::Units::access_line))]
pub fn access(declared: Declared) -> AccessStatement
    requires { kind_of declared ≡ kind.Access }
    ensures { grammar.Declaring (view_declared declared) ≡ access_line result }
{
    match declared {
        Declared::Access(access) => access,
        _ => unreachable!(),
    }
}

pub fn save(declared: Declared) -> Place
    requires { kind_of declared ≡ kind.Save }
    ensures { grammar.Declaring (view_declared declared) ≡ save_line }
{
    match declared {
        Declared::Save { place } => place,
        _ => unreachable!(),
    }
}

#[tactic(auto, unfolding(crate::specs::Units::pointers_line))]
pub fn procedure_pointers(declared: Declared) -> ProcedurePointers
    requires { kind_of declared ≡ kind.ProcedurePointers }
    ensures { grammar.Declaring (view_declared declared) ≡ pointers_line result }
{
    match declared {
        Declared::ProcedurePointers(pointers) => pointers,
        _ => unreachable!(),
    }
}
