//! What the names of items refer to.

ghost use Rattle.std.specs.Prelude.{◌≡◌, ◌<◌, IfOk};
ghost use Rattle.f_items.specs.declared.item.Item.{Item as Named};
ghost use Rattle.f_items.specs.declared.item.Item.TheVariants.{Imports, Refers};
ghost use Rattle.f_items.specs.Scoped.{IsKept};
ghost use Rattle.f_items.specs.Selections.{open_before};
ghost use Rattle.f_rules.specs.PartTypes.{type_in, LastTold, ComponentOf, ArePartTypes};
ghost use Rattle.f_rules.specs.Standing.{HasItem, HasTaken, HasAccess, HasSelection, IsIn};
ghost use Rattle.f_use.specs.Associated.{Found};
ghost use Rattle.f_use.specs.Uses.{ModuleIn};
ghost use Rattle.f_scopes.specs.References.{first_of, ReferenceAt, AreReferences};

use f_find::{denoted, merge, visible, visible_around};
use f_items::{Item, Name, Need};
use f_rules::{PartType, component_at, part_types, stand_at};
use f_scope::{Program, item_count};
use f_use::{Associated, Origins, entity_of};
use jf_base::List;
use std::alloc::{AllocError, Global};

fn first_of(found: Option<Origins>) -> Option<usize>
    ensures { result ≡ first_of found }
{
    match found {
        None => None,
        Some(found) => Some(found.first),
    }
}

/// The scope of the module with this name, which is one of the program's scopes.
fn module_of(program: &Program, name: &[u8]) -> Option<usize>
    ensures { ModuleIn program.now name.now result }
{
    let _parts = program.parts();
    program.module(name)
}

/// The entities that the name denotes in the module with this scope.
fn entities_in(program: &Associated, scope: usize, name: &[u8]) -> Option<Origins>
    requires { scope < program.now.scopes }
    ensures { Found (IsIn program.now.items scope name.now) result }
{
    let own = entity_of(program.stated().program(), scope, name);
    let used = program.used(scope, name);
    merge(own, used)
}

/// What a name in a USE statement denotes in the module.
fn taken(program: &Associated, place: usize, module: &List<u8>, used: &Name) -> Option<usize>
    requires kept { IsKept program.now.items }
    requires at { HasTaken program.now.items place module.now used.now }
    ensures { ReferenceAt program.now.items place result }
{
    let _place = place;
    match module_of(program.stated().program(), module.as_slice()) {
        None => None,
        Some(scope) => first_of(entities_in(program, scope, used.bytes.as_slice())),
    }
}

/// What a name denotes where it stands.
fn referred(
    program: &Associated,
    place: usize,
    scope: usize,
    name: &Name,
    need: Need,
) -> Option<usize>
    requires kept { IsKept program.now.items }
    requires scope { scope < program.now.scopes }
    requires at { HasItem program.now.items place scope (Refers name.now need) }
    ensures { ReferenceAt program.now.items place result }
{
    let _place = place;
    let _need = need;
    first_of(visible(program, scope, name.bytes.as_slice()))
}

/// What a name in an IMPORT statement denotes in the scope around.
fn imported(program: &Associated, place: usize, scope: usize, name: &Name) -> Option<usize>
    requires kept { IsKept program.now.items }
    requires scope { scope < program.now.scopes }
    requires at { HasItem program.now.items place scope (Imports name.now) }
    ensures { ReferenceAt program.now.items place result }
{
    let _place = place;
    first_of(visible_around(program, scope, name.bytes.as_slice()))
}

/// What a name in an access statement denotes in the module.
fn accessed(program: &Associated, place: usize, scope: usize, name: &Name) -> Option<usize>
    requires kept { IsKept program.now.items }
    requires scope { scope < program.now.scopes }
    requires at { HasAccess program.now.items place scope name.now }
    ensures { ReferenceAt program.now.items place result }
{
    let _place = place;
    first_of(denoted(program, scope, name.bytes.as_slice()))
}

/// The component of this name, where the part before it is of a derived type.
fn component_of(program: &Program, base: PartType, name: &[u8]) -> Option<usize>
    ensures { ComponentOf program.now.items base name.now result }
{
    match base {
        PartType::Derived(definition) => component_at(program, definition, name),
        _ => None,
    }
}

/// The component that is selected, by the type of the part before it.
fn selected(program: &Associated, place: usize, base: PartType, name: &Name) -> Option<usize>
    requires kept { IsKept program.now.items }
    requires at { HasSelection program.now.items place name.now }
    requires base { LastTold program.now.items (open_before program.now.items place) place base }
    ensures { ReferenceAt program.now.items place result }
{
    let _place = place;
    component_of(program.stated().program(), base, name.bytes.as_slice())
}

/// What an item of the scope refers to, by the type of the part before it.
fn item_reference(
    program: &Associated,
    base: PartType,
    place: usize,
    item: &Item,
    scope: usize,
) -> Option<usize>
    requires kept { IsKept program.now.items }
    requires scope { scope < program.now.scopes }
    requires at { HasItem program.now.items place scope item.now }
    requires base { LastTold program.now.items (open_before program.now.items place) place base }
    ensures { ReferenceAt program.now.items place result }
{
    match item {
        Item::Takes {
            module,
            local: _,
            used,
            is_renamed: _,
        } => taken(program, place, module, used),
        Item::Imports(name) => imported(program, place, scope, name),
        Item::Accesses { name, access: _ } => accessed(program, place, scope, name),
        Item::Refers { name, need } => referred(program, place, scope, name, *need),
        Item::Selects(name) => selected(program, place, base, name),
        _ => None,
    }
}

/// The type at a place of a table.
fn type_in(types: &[PartType], place: usize) -> PartType
    ensures { result ≡ type_in types.now place }
{
    if place < types.len() {
        types[place]
    } else {
        PartType::Untold
    }
}

/// What the item at a place refers to, by the types of the parts before the items.
fn reference_at(program: &Associated, types: &[PartType], place: usize) -> Option<usize>
    requires kept { IsKept program.now.items }
    requires types { ArePartTypes program.now.items types.now }
    ensures { ReferenceAt program.now.items place result }
{
    match stand_at(program.stated().program(), place) {
        None => None,
        Some(stand) => item_reference(
            program,
            type_in(types, place),
            place,
            stand.item,
            stand.scope,
        ),
    }
}

/// For each item, by its number from 0, the number of the item that declares what it refers to. It takes time in proportion to the items, but for look-ups.
pub(crate) fn find_references(
    alloc: Global,
    program: &Associated,
) -> Result<Vec<Option<usize>>, AllocError>
    requires kept { IsKept program.now.items }
    ensures { IfOk result (λ found. AreReferences program.now.items found.items) }
{
    let count = item_count(program.stated().program());
    let types = part_types(alloc, program)?;
    let mut found = Vec::new(alloc);
    let mut place = 0;
    'items: while place < count {
        found.push(reference_at(program, types.as_slice(), place))?;
        place += 1;
    }
    Ok(found)
}
