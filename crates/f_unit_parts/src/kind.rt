//! What kind of statement of a specification part one is.

ghost use Rattle.std.specs.Prelude.{◌≡◌};
ghost use Rattle.f_unit_parts.specs.Views.{kind_of};

use f_declared::Declared;

/// The forms of the statements that aren't executable.
#[derive(Clone, Copy, PartialEq, Eq, Debug)]
pub enum Kind {
    Program,
    Module,
    Head,
    Contains,
    Use,
    Import,
    ImplicitNone,
    Variables,
    TypeStart,
    InterfaceStart,
    Access,
    Save,
    ProcedurePointers,
    End,
    EndOf,
}

/// The form of a statement.
pub fn kind_of(declared: &Declared) -> Kind
    ensures { result ≡ kind_of declared.now }
{
    match declared {
        Declared::Program { .. } => Kind::Program,
        Declared::Module { .. } => Kind::Module,
        Declared::Head(_) => Kind::Head,
        Declared::Contains { .. } => Kind::Contains,
        Declared::Use(_) => Kind::Use,
        Declared::Import(_) => Kind::Import,
        Declared::ImplicitNone { .. } => Kind::ImplicitNone,
        Declared::Variables(_) => Kind::Variables,
        Declared::TypeStart(_) => Kind::TypeStart,
        Declared::InterfaceStart { .. } => Kind::InterfaceStart,
        Declared::Access(_) => Kind::Access,
        Declared::Save { .. } => Kind::Save,
        Declared::ProcedurePointers(_) => Kind::ProcedurePointers,
        Declared::End { .. } => Kind::End,
        Declared::EndOf { .. } => Kind::EndOf,
    }
}
