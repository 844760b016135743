//! The type of the part before each item, from which that would select a component.

ghost use Rattle.std.specs.Prelude.{◌≡◌, ◌<◌, OnOk, IfOk, []};
ghost use Rattle.f_items.specs.Places.{At};
ghost use Rattle.f_rules.specs.declared.declared_types.PartType.TheVariants.{Untold};
ghost use Rattle.f_rules.specs.PartTypes.{ObjectTold, ComponentTold, ItemTold, PartLevels, passed, AreLevels, type_in, ArePartTypes};

use crate::declared_types::{
    PartType, class_where, component_at, is_data_class, only, type_at, where_holds,
};
use crate::stand::stand_at;
use f_find::visible;
use f_items::{Item, Need};
use f_scope::item_count;
use f_use::Associated;
use std::alloc::{AllocError, Global};
use std::marker::Model;

/// The type of the last part, and of the last part outside each open parenthesis. Contracts see those with the innermost first.
#[derive(Drop)]
struct Levels {
    current: PartType,
    outward: Vec<PartType>,
}

impl Model for Levels {
    ghost use Rattle.std.specs.Prelude.{reverse};
    ghost use Rattle.f_rules.specs.PartTypes.{PartLevels};

    ghost Value = { PartLevels };

    ghost view = { λ l. record { current = l.current; outer = reverse l.outward.items } };
}

impl Levels {
    fn new(alloc: Global) -> Levels
        ensures { result ≡ record { current = Untold; outer = [] } }
    {
        Levels {
            current: PartType::Untold,
            outward: Vec::new(alloc),
        }
    }

    /// The type of the last part.
    fn current(&self) -> PartType
        ensures { result ≡ self.now.current }
    {
        self.current
    }

    /// Goes past an item that names a part of this type.
    fn pass(&mut self, item: &Item, told: PartType) -> Result<(), AllocError>
        ensures { OnOk result (self.new ≡ passed item.now told self.old) }
    {
        match item {
            Item::Inside => {
                self.outward.push(self.current)?;
                self.current = PartType::Untold;
            }
            Item::Outside => {
                self.current = match self.outward.pop() {
                    None => PartType::Untold,
                    Some(last) => last,
                };
            }
            _ => self.current = told,
        }
        Ok(())
    }
}

/// The type where a place is that of a data object.
fn type_where(program: &Associated, found: Option<usize>) -> PartType
    ensures { Rattle.f_rules.specs.PartTypes.TypeWhere program.now.items found result }
{
    match found {
        None => PartType::Untold,
        Some(place) => type_at(program, place),
    }
}

/// The type of the first part of a reference, by its name.
fn object_type(program: &Associated, scope: usize, name: &[u8]) -> PartType
    requires { scope < program.now.scopes }
    ensures { ObjectTold program.now.items scope name.now result }
{
    let found = only(visible(program, scope, name));
    let class = class_where(program.stated().program(), found);
    type_where(program, where_holds(found, is_data_class(class)))
}

/// The type of another part, by the type of the part before it.
fn component_type(program: &Associated, base: PartType, name: &[u8]) -> PartType
    ensures { ComponentTold program.now.items base name.now result }
{
    match base {
        PartType::Derived(definition) => type_where(
            program,
            component_at(program.stated().program(), definition, name),
        ),
        _ => PartType::Untold,
    }
}

/// The type of the part that an item of the scope names.
fn item_type(program: &Associated, scope: usize, base: PartType, item: &Item) -> PartType
    requires { scope < program.now.scopes }
    ensures { ItemTold program.now.items scope base item.now result }
{
    match item {
        Item::Refers { name, need } => match need {
            Need::Object => object_type(program, scope, name.bytes.as_slice()),
            _ => PartType::Untold,
        },
        Item::Selects(name) => component_type(program, base, name.bytes.as_slice()),
        _ => PartType::Untold,
    }
}

/// Goes past the item at a place.
fn advance(program: &Associated, levels: &mut Levels, place: usize) -> Result<(), AllocError>
    requires { AreLevels program.now.items place levels.old }
    ensures { OnOk result ((l : _) → At program.now.items place l → AreLevels program.now.items (Rattle.std.specs.Prelude.suc place) levels.new) }
{
    match stand_at(program.stated().program(), place) {
        None => Ok(()),
        Some(stand) => {
            let told = item_type(program, stand.scope, levels.current(), stand.item);
            levels.pass(stand.item, told)?;
            Ok(())
        }
    }
}

/// For each item, by its place, the type of the part before it, from which it would select a component. It takes time in proportion to the items, but for
/// look-ups.
pub fn part_types(alloc: Global, program: &Associated) -> Result<Vec<PartType>, AllocError>
    ensures { IfOk result (λ types. ArePartTypes program.now.items types.items) }
{
    let count = item_count(program.stated().program());
    let mut types = Vec::new(alloc);
    let mut levels = Levels::new(alloc);
    let mut place = 0;
    'items: while place < count {
        types.push(levels.current())?;
        advance(program, &mut levels, place)?;
        place += 1;
    }
    Ok(types)
}

/// The type at a place of a table.
pub(crate) fn type_in(types: &[PartType], place: usize) -> PartType
    ensures { result ≡ type_in types.now place }
{
    if place < types.len() {
        types[place]
    } else {
        PartType::Untold
    }
}
