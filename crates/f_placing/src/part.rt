//! The statements of specification parts (ISO/IEC 1539-1:2018, 5.3.2).

ghost use Rattle.std.specs.Prelude.{◌≡◌, ℕ, List, None};
ghost use Rattle.f_unit_grammar.specs.Units.{InUnit, BehindImplicit, stays, enters, is_name, leaves_if, ends_unit, declares, if_declares, use_role, import_role, implicit_role, contains_role};
ghost use Rattle.f_expr_read.specs.Views.{keyword_of};
ghost use Rattle.f_declared.specs.Views.{view_ended};
ghost use Rattle.f_placing.specs.Views.{view_part, view_scope, view_state, view_role};

use crate::state::{Part, Role, Scope, State};
use f_declared::Ended;
use f_tree::{Name, ProcedureKind};
use jf_base::List;

/// No name, or this one.
pub fn is_name(name: &List<u8>, other: &Option<Name>) -> bool
    ensures { result ≡ is_name name.now (keyword_of other.now) }
{
    match other {
        None => true,
        Some(other) => other.bytes.as_slice() == name.as_slice(),
    }
}

pub fn leaves_if(is_ended: bool) -> Role
    ensures { (name inner : List ℕ) → view_role name inner result ≡ leaves_if is_ended }
{
    if is_ended {
        Role::Leaves
    } else {
        Role::NoPlace
    }
}

// The word behind END is that of this unit.
fn is_word_of(scope: Scope, what: Ended) -> bool
    ensures { (name : List ℕ) → result ≡ ends_unit (view_scope name scope) (view_ended what) None }
{
    match scope {
        Scope::Program => matches!(what, Ended::Program),
        Scope::Module => matches!(what, Ended::Module),
        Scope::Procedure(ProcedureKind::Function) => matches!(what, Ended::Function),
        Scope::Procedure(ProcedureKind::Subroutine) => matches!(what, Ended::Subroutine),
        Scope::InterfaceBody(ProcedureKind::Function) => matches!(what, Ended::Function),
        Scope::InterfaceBody(ProcedureKind::Subroutine) => matches!(what, Ended::Subroutine),
    }
}

/// An END statement with words ends this unit.
pub fn ends_unit(scope: Scope, name: &List<u8>, what: Ended, other: &Option<Name>) -> bool
    ensures { result ≡ ends_unit (view_scope name.now scope) (view_ended what) (keyword_of other.now) }
{
    if is_word_of(scope, what) {
        is_name(name, other)
    } else {
        false
    }
}

// Declarations may still stand.
fn declares(part: Part) -> bool
    ensures { result ≡ declares (view_part part) }
{
    match part {
        Part::Executing => false,
        Part::Beginning => true,
        Part::BehindImport => true,
        Part::BehindImplicit => true,
    }
}

/// A declaration in a unit.
pub fn declaring(scope: Scope, part: Part) -> Role
    ensures { (name inner : List ℕ) → view_role name inner result ≡ if_declares (view_part part) (stays (InUnit (view_scope name scope) BehindImplicit)) }
{
    if declares(part) {
        Role::Stays(State::Unit(scope, Part::BehindImplicit))
    } else {
        Role::NoPlace
    }
}

/// The beginning of a derived type or an interface block in a unit.
pub fn beginning(scope: Scope, part: Part, inside: State) -> Role
    ensures { (name inner : List ℕ) → view_role name inner result ≡ if_declares (view_part part) (enters (InUnit (view_scope name scope) BehindImplicit) (view_state inner inside)) }
{
    if declares(part) {
        Role::Enters {
            next: State::Unit(scope, Part::BehindImplicit),
            inside,
        }
    } else {
        Role::NoPlace
    }
}

pub fn use_role(scope: Scope, part: Part) -> Role
    ensures { (name inner : List ℕ) → view_role name inner result ≡ use_role (view_scope name scope) (view_part part) }
{
    match part {
        Part::Beginning => Role::Stays(State::Unit(scope, Part::Beginning)),
        Part::BehindImport => Role::NoPlace,
        Part::BehindImplicit => Role::NoPlace,
        Part::Executing => Role::NoPlace,
    }
}

/// IMPORT stands only in an interface body.
pub fn import_role(scope: Scope, part: Part) -> Role
    ensures { (name inner : List ℕ) → view_role name inner result ≡ import_role (view_scope name scope) (view_part part) }
{
    match scope {
        Scope::InterfaceBody(kind) => match part {
            Part::Beginning => Role::Stays(State::Unit(
                Scope::InterfaceBody(kind),
                Part::BehindImport,
            )),
            Part::BehindImport => Role::NoPlace,
            Part::BehindImplicit => Role::NoPlace,
            Part::Executing => Role::NoPlace,
        },
        Scope::Program => Role::NoPlace,
        Scope::Module => Role::NoPlace,
        Scope::Procedure(_) => Role::NoPlace,
    }
}

pub fn implicit_role(scope: Scope, part: Part) -> Role
    ensures { (name inner : List ℕ) → view_role name inner result ≡ implicit_role (view_scope name scope) (view_part part) }
{
    match part {
        Part::Beginning => Role::Stays(State::Unit(scope, Part::BehindImplicit)),
        Part::BehindImport => Role::Stays(State::Unit(scope, Part::BehindImplicit)),
        Part::BehindImplicit => Role::NoPlace,
        Part::Executing => Role::NoPlace,
    }
}

pub fn contains_role(scope: Scope) -> Role
    ensures { (name inner : List ℕ) → view_role name inner result ≡ contains_role (view_scope name scope) }
{
    match scope {
        Scope::Module => Role::Stays(State::Containing),
        Scope::Program => Role::NoPlace,
        Scope::Procedure(_) => Role::NoPlace,
        Scope::InterfaceBody(_) => Role::NoPlace,
    }
}
