//! Which rule the item at a place breaks.

ghost use Rattle.std.specs.Prelude.{◌≡◌, ◌<◌};
ghost use Rattle.f_items.specs.declared.item.Item.TheVariants.{Imports, Refers};
ghost use Rattle.f_items.specs.Selections.{open_before};
ghost use Rattle.f_rules.specs.Standing.{IsAt, IsDeclaration, HasItem, HasUse, HasTaken, HasAccess, HasSelection};
ghost use Rattle.f_rules.specs.PartTypes.{LastTold, ComponentOf, ArePartTypes};
ghost use Rattle.f_rules.specs.RuleOf.{RuleAt};

use crate::declared_types::{PartType, component_at};
use crate::parts::type_in;
use crate::rule::{NameRule, declared_rule, reference_rule, selection_rule, taken_rule, use_rule};
use crate::stand::{class_of, entities_in, module_of, stand_at};
use f_find::{denoted, visible, visible_around};
use f_items::{Declared, Item, Name, Need};
use f_scope::Program;
use f_use::Associated;
use jf_base::List;

/// What a declaration breaks, whose name is declared in this scope.
fn broken_declaration(
    program: &Associated,
    place: usize,
    scope: usize,
    declared: &Declared,
) -> Option<NameRule>
    requires scope { scope < program.now.scopes }
    requires at { IsDeclaration program.now.items place scope declared.now }
    ensures { RuleAt program.now.items place result }
{
    let name = declared.name.bytes.as_slice();
    let alone = program.stated().program().broken(place);
    let used = program.used(scope, name);
    let is_imported = program.stated().imports_name(scope, name);
    declared_rule(alone, used.is_some(), is_imported)
}

/// What a USE statement breaks.
fn broken_use(
    program: &Associated,
    place: usize,
    module: &Name,
    is_intrinsic: bool,
) -> Option<NameRule>
    requires { HasUse program.now.items place module.now is_intrinsic }
    ensures { RuleAt program.now.items place result }
{
    let _place = place;
    let name = module.bytes.as_slice();
    let scope = module_of(program.stated().program(), name);
    use_rule(scope, is_intrinsic, name)
}

/// What a name in a USE statement breaks.
fn broken_taken(
    program: &Associated,
    place: usize,
    module: &List<u8>,
    used: &Name,
) -> Option<NameRule>
    requires { HasTaken program.now.items place module.now used.now }
    ensures { RuleAt program.now.items place result }
{
    let _place = place;
    let name = used.bytes.as_slice();
    match module_of(program.stated().program(), module.as_slice()) {
        None => Some(NameRule::Declared),
        Some(scope) => taken_rule(
            entities_in(program, scope, name),
            program.stated().is_public(scope, name),
        ),
    }
}

/// What a reference breaks.
fn broken_reference(
    program: &Associated,
    place: usize,
    scope: usize,
    name: &Name,
    need: Need,
) -> Option<NameRule>
    requires scope { scope < program.now.scopes }
    requires at { HasItem program.now.items place scope (Refers name.now need) }
    ensures { RuleAt program.now.items place result }
{
    let _place = place;
    let found = visible(program, scope, name.bytes.as_slice());
    let class = class_of(program.stated().program(), found);
    reference_rule(found, class, need)
}

/// What a name in an IMPORT statement breaks.
fn broken_import(program: &Associated, place: usize, scope: usize, name: &Name) -> Option<NameRule>
    requires scope { scope < program.now.scopes }
    requires at { HasItem program.now.items place scope (Imports name.now) }
    ensures { RuleAt program.now.items place result }
{
    let _place = place;
    let found = visible_around(program, scope, name.bytes.as_slice());
    let class = class_of(program.stated().program(), found);
    reference_rule(found, class, Need::Accessible)
}

/// What a name in an access statement breaks.
fn broken_access(program: &Associated, place: usize, scope: usize, name: &Name) -> Option<NameRule>
    requires scope { scope < program.now.scopes }
    requires at { HasAccess program.now.items place scope name.now }
    ensures { RuleAt program.now.items place result }
{
    let _place = place;
    let found = denoted(program, scope, name.bytes.as_slice());
    let class = class_of(program.stated().program(), found);
    reference_rule(found, class, Need::Accessible)
}

/// The component of this name, where the part before it is of a derived type.
fn component_of(program: &Program, base: PartType, name: &[u8]) -> Option<usize>
    ensures { ComponentOf program.now.items base name.now result }
{
    match base {
        PartType::Derived(definition) => component_at(program, definition, name),
        _ => None,
    }
}

/// What a selection of a component breaks, by the type of the part before it.
fn broken_selection(
    program: &Associated,
    place: usize,
    base: PartType,
    name: &Name,
) -> Option<NameRule>
    requires at { HasSelection program.now.items place name.now }
    requires base { LastTold program.now.items (open_before program.now.items place) place base }
    ensures { RuleAt program.now.items place result }
{
    let _place = place;
    let component = component_of(program.stated().program(), base, name.bytes.as_slice());
    selection_rule(base, component)
}

/// What an item breaks, by its scope and the scope around that, and by the type of the part before it.
fn broken_item(
    program: &Associated,
    base: PartType,
    place: usize,
    item: &Item,
    scope: usize,
    host: usize,
) -> Option<NameRule>
    requires at { IsAt program.now place item.now scope host }
    requires base { LastTold program.now.items (open_before program.now.items place) place base }
    ensures { RuleAt program.now.items place result }
{
    match item {
        Item::Declares(declared) => broken_declaration(program, place, scope, declared),
        Item::Heads(declared) => broken_declaration(program, place, host, declared),
        Item::Uses {
            place: _,
            module,
            is_intrinsic,
            is_only: _,
        } => broken_use(program, place, module, *is_intrinsic),
        Item::Takes {
            module,
            local: _,
            used,
            is_renamed: _,
        } => broken_taken(program, place, module, used),
        Item::Imports(name) => broken_import(program, place, scope, name),
        Item::Accesses { name, access: _ } => broken_access(program, place, scope, name),
        Item::Refers { name, need } => broken_reference(program, place, scope, name, *need),
        Item::Selects(name) => broken_selection(program, place, base, name),
        Item::Untyped { place: _ } => Some(NameRule::Typed),
        _ => None,
    }
}

/// The rule with the smallest number that the item at a place, counted from 0, breaks, if it breaks one, by the types of the parts before the items. Of the
/// rules on units, a name that two have and N05 are not among them. It takes a look-up a scope.
pub fn broken_rule(program: &Associated, types: &[PartType], place: usize) -> Option<NameRule>
    requires { ArePartTypes program.now.items types.now }
    ensures { RuleAt program.now.items place result }
{
    match stand_at(program.stated().program(), place) {
        None => None,
        Some(stand) => broken_item(
            program,
            type_in(types, place),
            place,
            stand.item,
            stand.scope,
            stand.host,
        ),
    }
}
