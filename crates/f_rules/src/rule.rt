//! Which rule is broken by what a name denotes.

ghost use Rattle.std.specs.Prelude.{◌≡◌};
ghost use Rattle.f_items.specs.Rules.{fits, is_iso_c_binding};
ghost use Rattle.f_rules.specs.RuleOf.{class_fits, reference_rule, taken_rule, declared_rule, use_rule, selection_rule};

use crate::declared_types::PartType;
use f_items::{Class, Need};
use f_scope::Rule;
use f_use::Origins;

/// A rule on names.
#[derive(Clone, Copy, PartialEq, Eq, Debug)]
pub enum NameRule {
    /// N01: a name is declared once in a scope.
    DeclaredOnce,
    /// N02: a name is declared.
    Declared,
    /// N03: a used name is public.
    Public,
    /// N04: a used module is there.
    Present,
    /// N05: modules don't use one another in a cycle.
    Acyclic,
    /// N06: a referenced name comes from one entity only.
    Single,
    /// N07: IMPLICIT NONE stands in a program, module or external procedure.
    Typed,
    /// N08: a name has the class that its place needs.
    Fitting,
}

/// A name of this class can stand where this is needed.
fn fits(need: Need, class: Class) -> bool
    ensures { result ≡ fits need class }
{
    match need {
        Need::Value => match class {
            Class::Data => true,
            Class::Procedure => true,
            Class::ProcedurePointer => true,
            _ => false,
        },
        Need::Applied => match class {
            Class::Data => true,
            Class::Procedure => true,
            Class::ProcedurePointer => true,
            Class::DerivedType => true,
            _ => false,
        },
        Need::Called => match class {
            Class::Procedure => true,
            Class::ProcedurePointer => true,
            _ => false,
        },
        Need::Type => match class {
            Class::DerivedType => true,
            _ => false,
        },
        Need::Interface => match class {
            Class::Procedure => true,
            Class::AbstractInterface => true,
            _ => false,
        },
        Need::Variable => match class {
            Class::Data => true,
            _ => false,
        },
        Need::Object => match class {
            Class::Data => true,
            _ => false,
        },
        Need::Accessible => match class {
            Class::UnitName => false,
            _ => true,
        },
    }
}

fn class_fits(need: Need, class: Option<Class>) -> bool
    ensures { result ≡ class_fits need class }
{
    match class {
        None => true,
        Some(class) => fits(need, class),
    }
}

/// What a reference breaks by what its name denotes, and by the class of that.
pub(crate) fn reference_rule(
    found: Option<Origins>,
    class: Option<Class>,
    need: Need,
) -> Option<NameRule>
    ensures { result ≡ reference_rule found class need }
{
    match found {
        None => Some(NameRule::Declared),
        Some(found) => {
            if found.other.is_some() {
                Some(NameRule::Single)
            } else if class_fits(need, class) {
                None
            } else {
                Some(NameRule::Fitting)
            }
        }
    }
}

/// What a name in a USE statement breaks by the entities of the module that it names.
pub(crate) fn taken_rule(found: Option<Origins>, is_public: bool) -> Option<NameRule>
    ensures { result ≡ taken_rule found is_public }
{
    match found {
        None => Some(NameRule::Declared),
        Some(found) => {
            if is_public {
                if found.other.is_some() {
                    Some(NameRule::Single)
                } else {
                    None
                }
            } else {
                Some(NameRule::Public)
            }
        }
    }
}

/// What a declaration breaks by what it breaks alone, and by whether its name is used or imported in the scope.
pub(crate) fn declared_rule(
    alone: Option<Rule>,
    is_used: bool,
    is_imported: bool,
) -> Option<NameRule>
    ensures { result ≡ declared_rule alone is_used is_imported }
{
    match alone {
        Some(Rule::DeclaredOnce) => Some(NameRule::DeclaredOnce),
        Some(Rule::Declared) => {
            if is_used {
                Some(NameRule::DeclaredOnce)
            } else if is_imported {
                Some(NameRule::DeclaredOnce)
            } else {
                Some(NameRule::Declared)
            }
        }
        None => {
            if is_used {
                Some(NameRule::DeclaredOnce)
            } else if is_imported {
                Some(NameRule::DeclaredOnce)
            } else {
                None
            }
        }
    }
}

/// What a selection breaks by the type of the part before it, and by the component of its name.
pub(crate) fn selection_rule(base: PartType, component: Option<usize>) -> Option<NameRule>
    ensures { result ≡ selection_rule base component }
{
    match base {
        PartType::Untold => None,
        PartType::NotDerived => None,
        PartType::Derived(_) => match component {
            None => Some(NameRule::Declared),
            Some(_) => None,
        },
    }
}

/// The name is ISO_C_BINDING.
fn is_iso_c_binding(name: &[u8]) -> bool
    ensures { result ≡ is_iso_c_binding name.now }
{
    name == "iso_c_binding".as_bytes()
}

/// What a USE statement breaks by the module of its name.
pub(crate) fn use_rule(
    module_scope: Option<usize>,
    is_intrinsic: bool,
    name: &[u8],
) -> Option<NameRule>
    ensures { result ≡ use_rule module_scope is_intrinsic name.now }
{
    match module_scope {
        None => Some(NameRule::Present),
        Some(_) => {
            if is_intrinsic && !is_iso_c_binding(name) {
                Some(NameRule::Present)
            } else {
                None
            }
        }
    }
}
