//! Items in front of a rest.

ghost use Rattle.std.specs.Prelude.{◌≡◌, ◌∷◌, [], reverse, IfOk, OnOk};
ghost use Rattle.f_unit_items.specs.Fronts.{name_of, refers, declares, heads, kind_name};
ghost use Rattle.f_items.specs.declared.item.Item.TheVariants.{Enter, Selects, Uses, Takes, Imports, Accesses};

use f_items::{Access, Class, Declared, DeclaredType, Item, Need, ScopeKind, Share};
use f_lex::Kind;
use f_tree::{Name, copy_bytes};
use jf_base::Place;
use std::alloc::{AllocError, Global};
use std::marker::Model;

/// Items, to which others are added in front. They lie from the last to the first.
#[derive(Drop)]
pub struct Items {
    backward: Vec<Item>,
    alloc: Global,
}

impl Model for Items {
    ghost use Rattle.std.specs.Prelude.{List, reverse};
    ghost use Rattle.f_items.specs.declared.item.Item.{Item};

    ghost Value = { List Item };

    ghost view = { λ i. reverse i.backward.items };
}

/// A tree's name in an item.
fn copy_name(alloc: Global, name: &Name) -> Result<f_items::Name, AllocError>
    ensures { IfOk result (λ copy. copy ≡ name_of name.now) }
{
    let bytes = copy_bytes(alloc, &name.bytes)?;
    Ok(f_items::Name {
        bytes,
        place: name.place,
    })
}

impl Items {
    /// No items.
    pub fn new(alloc: Global) -> Items
        ensures { result ≡ [] }
    {
        Items {
            backward: Vec::new(alloc),
            alloc,
        }
    }

    /// The items from the first to the last.
    pub fn into_vec(self) -> Vec<Item>
        ensures { result.items ≡ self }
    {
        let mut all = self.backward;
        all.reverse();
        all
    }

    /// What the items take memory from.
    pub fn allocator(&self) -> Global {
        self.alloc
    }

    /// Puts an item in front.
    pub fn put(&mut self, item: Item) -> Result<(), AllocError>
        ensures { OnOk result (self.new ≡ item ∷ self.old) }
    {
        self.backward.push(item)?;
        Ok(())
    }

    /// Puts the begin of a scope in front.
    pub fn enter(&mut self, kind: ScopeKind, place: Place) -> Result<(), AllocError>
        ensures { OnOk result (self.new ≡ Enter kind place ∷ self.old) }
    {
        self.put(Item::Enter { kind, place })
    }

    /// Puts a reference to a name in front.
    pub fn refer(&mut self, name: &Name, need: Need) -> Result<(), AllocError>
        ensures { OnOk result (self.new ≡ refers name.now need self.old) }
    {
        let name = copy_name(self.alloc, name)?;
        self.put(Item::Refers { name, need })
    }

    /// Puts a reference to a component in front.
    pub fn select(&mut self, name: &Name) -> Result<(), AllocError>
        ensures { OnOk result (self.new ≡ Selects (name_of name.now) ∷ self.old) }
    {
        let name = copy_name(self.alloc, name)?;
        self.put(Item::Selects(name))
    }

    /// Puts the reference to the name of a literal's kind in front.
    pub fn kind(&mut self, kind: &Option<Kind>, place: Place) -> Result<(), AllocError>
        ensures { OnOk result (self.new ≡ kind_name kind.now place self.old) }
    {
        match kind {
            None => Ok(()),
            Some(Kind::Number(_)) => Ok(()),
            Some(Kind::Name(name)) => {
                let bytes = copy_bytes(self.alloc, name)?;
                self.put(Item::Refers {
                    name: f_items::Name { bytes, place },
                    need: Need::Value,
                })
            }
        }
    }

    /// Puts the declaration of a name in its scope in front.
    pub fn declare(
        &mut self,
        name: &Name,
        class: Class,
        share: Share,
        of_type: DeclaredType,
        access: Option<Access>,
    ) -> Result<(), AllocError>
        ensures { OnOk result (self.new ≡ declares name.now class share of_type access self.old) }
    {
        let name = copy_name(self.alloc, name)?;
        self.put(Item::Declares(Declared {
            name,
            class,
            share,
            of_type,
            access,
        }))
    }

    /// Puts the declaration of a scope's name in the scope around it in front.
    pub fn head(
        &mut self,
        name: &Name,
        class: Class,
        access: Option<Access>,
    ) -> Result<(), AllocError>
        ensures { OnOk result (self.new ≡ heads name.now class access self.old) }
    {
        let name = copy_name(self.alloc, name)?;
        self.put(Item::Heads(Declared {
            name,
            class,
            share: Share::Whole,
            of_type: DeclaredType::NotDerived,
            access,
        }))
    }

    /// Puts a USE statement in front.
    pub fn uses(
        &mut self,
        place: Place,
        source: &Name,
        is_intrinsic: bool,
        is_only: bool,
    ) -> Result<(), AllocError>
        ensures { OnOk result (self.new ≡ Uses place (name_of source.now) is_intrinsic is_only ∷ self.old) }
    {
        let module = copy_name(self.alloc, source)?;
        self.put(Item::Uses {
            place,
            module,
            is_intrinsic,
            is_only,
        })
    }

    /// Puts a name in a USE statement in front.
    pub fn take(
        &mut self,
        source: &Name,
        local: &Name,
        used: &Name,
        is_renamed: bool,
    ) -> Result<(), AllocError>
        ensures { OnOk result (self.new ≡ Takes source.now.bytes (name_of local.now) (name_of used.now) is_renamed ∷ self.old) }
    {
        let module = copy_bytes(self.alloc, &source.bytes)?;
        let local = copy_name(self.alloc, local)?;
        let used = copy_name(self.alloc, used)?;
        self.put(Item::Takes {
            module,
            local,
            used,
            is_renamed,
        })
    }

    /// Puts a name in an IMPORT statement in front.
    pub fn import(&mut self, name: &Name) -> Result<(), AllocError>
        ensures { OnOk result (self.new ≡ Imports (name_of name.now) ∷ self.old) }
    {
        let name = copy_name(self.alloc, name)?;
        self.put(Item::Imports(name))
    }

    /// Puts a name in an access statement in front.
    pub fn access(&mut self, name: &Name, access: Access) -> Result<(), AllocError>
        ensures { OnOk result (self.new ≡ Accesses (name_of name.now) access ∷ self.old) }
    {
        let name = copy_name(self.alloc, name)?;
        self.put(Item::Accesses { name, access })
    }
}
