//! The names of units and derived types.

ghost use Rattle.std.specs.Prelude.{◌≡◌, IfOk};
ghost use Rattle.f_declared.specs.Views.{view_declared};
ghost use Rattle.f_statement_read.specs.Views.{view_statement};
ghost use Rattle.f_placing.specs.Views.{name_declared, name_begun};

use f_declared::Declared;
use f_statement_read::Statement;
use f_tree::copy_bytes;
use jf_base::List;
use std::alloc::{AllocError, Global};

fn name_declared(alloc: Global, declared: &Declared) -> Result<List<u8>, AllocError>
    ensures { IfOk result (λ name. name ≡ name_declared (view_declared declared.now)) }
{
    match declared {
        Declared::Program { name, .. } => copy_bytes(alloc, &name.bytes),
        Declared::Module { name, .. } => copy_bytes(alloc, &name.bytes),
        Declared::Head(head) => copy_bytes(alloc, &head.name.bytes),
        Declared::TypeStart(start) => copy_bytes(alloc, &start.name.bytes),
        _ => Ok(List::from_vec(Vec::new(alloc))),
    }
}

/// A copy of the name of the unit or the derived type that a statement begins; it is empty where it begins none.
pub fn name_begun(alloc: Global, statement: &Statement) -> Result<List<u8>, AllocError>
    ensures { IfOk result (λ name. name ≡ name_begun (view_statement statement.now)) }
{
    match statement {
        Statement::Executable(_) => Ok(List::from_vec(Vec::new(alloc))),
        Statement::Declaring(declared) => name_declared(alloc, declared),
    }
}
