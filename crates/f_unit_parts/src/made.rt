//! Trees put together, and trees put behind others.

ghost use Rattle.std.specs.Prelude.{◌≡◌, ◌∷◌, [], List, OnOk};
ghost use Rattle.f_declaration_grammar.specs.Declarations as form;
ghost use Rattle.f_statement_grammar.specs.Statements as grammar;
ghost use Rattle.f_construct_parts.specs.Lines.{blocks_of};
ghost use Rattle.f_unit_parts.specs.Units.{use_line, variables_line, access_line, save_line, pointers_line, type_line, interface_line, head_line, program_line, module_line, component_line, end_line, word_of, uses_of, components_of, derived_type_lines, declarations_of, interface_lines, body_lines, bodies_of, specification_lines, procedure_lines, procedures_of, program_lines, module_lines, contained_lines, units_of};

use crate::taken::{InterfaceHead, UnitHead};
use f_declared::TypeStart;
use f_tree::{
    AccessStatement, Component, Declaration, DerivedType, Ending, Head, Interface, InterfaceBody,
    Module, Procedure, ProcedurePointers, Program, Specification, Statement, Unit, Use, Variables,
};
use jf_base::{List, Place};
use std::alloc::AllocError;

pub fn push_use(uses: &mut List<Use>, used: Use) -> Result<(), AllocError>
    ensures { OnOk result ((rest : List grammar.Statement) → uses_of uses.new rest ≡ uses_of uses.old (use_line used ∷ rest)) }
{
    uses.push(used)
}

pub fn push_component(
    components: &mut List<Component>,
    component: Component,
) -> Result<(), AllocError>
    ensures { OnOk result ((rest : List grammar.Statement) → components_of components.new rest ≡ components_of components.old (component_line component ∷ rest)) }
{
    components.push(component)
}

pub fn push_variables(
    declarations: &mut List<Declaration>,
    variables: Variables,
) -> Result<(), AllocError>
    ensures { OnOk result ((rest : List grammar.Statement) → declarations_of declarations.new rest ≡ declarations_of declarations.old (variables_line variables ∷ rest)) }
{
    declarations.push(Declaration::Variables(variables))
}

pub fn push_access(
    declarations: &mut List<Declaration>,
    access: AccessStatement,
) -> Result<(), AllocError>
    ensures { OnOk result ((rest : List grammar.Statement) → declarations_of declarations.new rest ≡ declarations_of declarations.old (access_line access ∷ rest)) }
{
    declarations.push(Declaration::Access(access))
}

pub fn push_save(declarations: &mut List<Declaration>, place: Place) -> Result<(), AllocError>
    ensures { OnOk result ((rest : List grammar.Statement) → declarations_of declarations.new rest ≡ declarations_of declarations.old (save_line ∷ rest)) }
{
    declarations.push(Declaration::Save { place })
}

pub fn push_pointers(
    declarations: &mut List<Declaration>,
    pointers: ProcedurePointers,
) -> Result<(), AllocError>
    ensures { OnOk result ((rest : List grammar.Statement) → declarations_of declarations.new rest ≡ declarations_of declarations.old (pointers_line pointers ∷ rest)) }
{
    declarations.push(Declaration::ProcedurePointers(pointers))
}

pub fn push_derived_type(
    declarations: &mut List<Declaration>,
    defined: DerivedType,
) -> Result<(), AllocError>
    ensures { OnOk result ((rest : List grammar.Statement) → declarations_of declarations.new rest ≡ declarations_of declarations.old (derived_type_lines defined rest)) }
{
    declarations.push(Declaration::DerivedType(defined))
}

pub fn push_interface(
    declarations: &mut List<Declaration>,
    interface: Interface,
) -> Result<(), AllocError>
    ensures { OnOk result ((rest : List grammar.Statement) → declarations_of declarations.new rest ≡ declarations_of declarations.old (interface_lines interface rest)) }
{
    declarations.push(Declaration::Interface(interface))
}

pub fn push_body(bodies: &mut List<InterfaceBody>, body: InterfaceBody) -> Result<(), AllocError>
    ensures { OnOk result ((rest : List grammar.Statement) → bodies_of bodies.new rest ≡ bodies_of bodies.old (body_lines body rest)) }
{
    bodies.push(body)
}

pub fn push_procedure(
    procedures: &mut List<Procedure>,
    procedure: Procedure,
) -> Result<(), AllocError>
    ensures { OnOk result ((rest : List grammar.Statement) → procedures_of procedures.new rest ≡ procedures_of procedures.old (procedure_lines procedure rest)) }
{
    procedures.push(procedure)
}

pub fn push_program(units: &mut List<Unit>, program: Program) -> Result<(), AllocError>
    ensures { OnOk result ((rest : List grammar.Statement) → units_of units.new rest ≡ units_of units.old (program_lines program rest)) }
{
    units.push(Unit::Program(program))
}

pub fn push_module(units: &mut List<Unit>, made: Module) -> Result<(), AllocError>
    ensures { OnOk result ((rest : List grammar.Statement) → units_of units.new rest ≡ units_of units.old (module_lines made rest)) }
{
    units.push(Unit::Module(made))
}

pub fn push_external(units: &mut List<Unit>, procedure: Procedure) -> Result<(), AllocError>
    ensures { OnOk result ((rest : List grammar.Statement) → units_of units.new rest ≡ units_of units.old (procedure_lines procedure rest)) }
{
    units.push(Unit::Procedure(procedure))
}

/// The definition of a derived type.
#[tactic(auto, unfolding(crate::specs::Units::derived_type_lines))]
pub fn derived_type(start: TypeStart, components: List<Component>, ending: Ending) -> DerivedType
    ensures { (rest : List grammar.Statement) → derived_type_lines result rest ≡ type_line start.attributes start.has_colons start.name ∷ components_of components (end_line form.OfType ending ∷ rest) }
{
    DerivedType {
        place: start.place,
        attributes: start.attributes,
        has_colons: start.has_colons,
        name: start.name,
        components,
        ending,
    }
}

/// An interface block.
pub fn interface(head: InterfaceHead, bodies: List<InterfaceBody>, ending: Ending) -> Interface
    ensures { (rest : List grammar.Statement) → interface_lines result rest ≡ interface_line head.is_abstract ∷ bodies_of bodies (end_line form.OfInterface ending ∷ rest) }
{
    Interface {
        place: head.place,
        is_abstract: head.is_abstract,
        bodies,
        ending,
    }
}

/// An interface body.
pub fn interface_body(head: Head, specification: Specification, ending: Ending) -> InterfaceBody
    ensures { (rest : List grammar.Statement) → body_lines result rest ≡ head_line head ∷ specification_lines specification (end_line (word_of head.kind) ending ∷ rest) }
{
    InterfaceBody {
        head,
        specification,
        ending,
    }
}

/// A procedure.
#[tactic(auto, unfolding(crate::specs::Units::procedure_lines))]
pub fn procedure(
    head: Head,
    specification: Specification,
    body: List<Statement>,
    ending: Ending,
) -> Procedure
    ensures { (rest : List grammar.Statement) → procedure_lines result rest ≡ head_line head ∷ specification_lines specification (blocks_of body (end_line (word_of head.kind) ending ∷ rest)) }
{
    Procedure {
        head,
        specification,
        body,
        ending,
        tokens: 0,
    }
}

/// A main program.
#[tactic(auto, unfolding(crate::specs::Units::program_lines))]
pub fn program(
    head: UnitHead,
    specification: Specification,
    body: List<Statement>,
    ending: Ending,
) -> Program
    ensures { (rest : List grammar.Statement) → program_lines result rest ≡ program_line head.name ∷ specification_lines specification (blocks_of body (end_line form.OfProgram ending ∷ rest)) }
{
    Program {
        place: head.place,
        name: head.name,
        specification,
        body,
        ending,
        tokens: 0,
    }
}

/// A module without CONTAINS.
#[tactic(auto, unfolding(crate::specs::Units::module_lines))]
pub fn module_alone(head: UnitHead, specification: Specification, ending: Ending) -> Module
    ensures { (rest : List grammar.Statement) → module_lines result rest ≡ module_line head.name ∷ specification_lines specification (end_line form.OfModule ending ∷ rest) }
{
    Module {
        place: head.place,
        name: head.name,
        specification,
        procedures: None,
        ending,
    }
}

/// A module with CONTAINS.
#[tactic(auto, unfolding(crate::specs::Units::module_lines))]
pub fn module_containing(
    head: UnitHead,
    specification: Specification,
    procedures: List<Procedure>,
    ending: Ending,
) -> Module
    ensures { (rest : List grammar.Statement) → module_lines result rest ≡ module_line head.name ∷ specification_lines specification (contained_lines procedures (end_line form.OfModule ending ∷ rest)) }
{
    Module {
        place: head.place,
        name: head.name,
        specification,
        procedures: Some(procedures),
        ending,
    }
}
