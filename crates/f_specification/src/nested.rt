//! What is made of several statements, put behind what a specification part has.

ghost use Rattle.std.specs.Prelude.{◌≡◌, List, IfOk};
ghost use Rattle.f_statement_grammar.specs.Statements as grammar;
ghost use Rattle.f_unit_parts.specs.Units.{derived_type_lines, interface_lines, specification_lines};

use f_tree::{DerivedType, Interface, Specification};
use f_unit_parts::made::{push_derived_type, push_interface};
use std::alloc::AllocError;

/// The specification part with the definition of a derived type behind all that it has (ISO/IEC 1539-1:2018, 7.5.2). Fails only where memory is short.
pub fn put_type(
    specification: Specification,
    defined: DerivedType,
) -> Result<Specification, AllocError>
    ensures { IfOk result (λ s. (rest : List grammar.Statement) → specification_lines s rest ≡ specification_lines specification (derived_type_lines defined rest)) }
{
    let mut specification = specification;
    push_derived_type(&mut specification.declarations, defined)?;
    Ok(specification)
}

/// The specification part with an interface block behind all that it has (ISO/IEC 1539-1:2018, 15.4.3.2). Fails only where memory is short.
pub fn put_interface(
    specification: Specification,
    interface: Interface,
) -> Result<Specification, AllocError>
    ensures { IfOk result (λ s. (rest : List grammar.Statement) → specification_lines s rest ≡ specification_lines specification (interface_lines interface rest)) }
{
    let mut specification = specification;
    push_interface(&mut specification.declarations, interface)?;
    Ok(specification)
}
