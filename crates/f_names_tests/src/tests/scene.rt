//! Programs of single lines, as their items.

use f_items::{Access, Class, Declared, DeclaredType, Item, Name, Need, ScopeKind, Share};
use jf_base::{List, Place};
use std::alloc::{AllocError, Global};

const NO_PLACE: Place = Place {
    file: 0,
    line: 0,
    column: 0,
};

fn name(alloc: Global, text: &str) -> Result<Name, AllocError> {
    Ok(Name {
        bytes: List::from_vec(text.as_bytes().to_vec(alloc)?),
        place: NO_PLACE,
    })
}

fn declared(
    alloc: Global,
    class: Class,
    share: Share,
    of_type: DeclaredType,
    text: &str,
) -> Result<Declared, AllocError> {
    Ok(Declared {
        name: name(alloc, text)?,
        class,
        share,
        of_type,
        access: None,
    })
}

// A scope, and its name.
fn scope_of(verb: &str) -> Option<(ScopeKind, Class)> {
    match verb {
        "program" => Some((ScopeKind::Program, Class::UnitName)),
        "module" => Some((ScopeKind::Module, Class::UnitName)),
        "external" => Some((ScopeKind::External, Class::Procedure)),
        "contained" => Some((ScopeKind::Contained, Class::Procedure)),
        "body" => Some((ScopeKind::InterfaceBody, Class::Procedure)),
        "type" => Some((ScopeKind::DerivedType, Class::DerivedType)),
        _ => None,
    }
}

fn declares_in_itself(kind: ScopeKind) -> bool {
    match kind {
        ScopeKind::Program => true,
        ScopeKind::Module => true,
        ScopeKind::External => true,
        _ => false,
    }
}

fn class_of(verb: &str) -> Option<(Class, Share)> {
    match verb {
        "data" => Some((Class::Data, Share::Whole)),
        "announced" => Some((Class::Data, Share::Announced)),
        "typed" => Some((Class::Data, Share::Typed)),
        "procedure" => Some((Class::Procedure, Share::Whole)),
        "component" => Some((Class::Component, Share::Whole)),
        "opaque" => Some((Class::DerivedType, Share::Whole)),
        "abstract" => Some((Class::AbstractInterface, Share::Whole)),
        _ => None,
    }
}

// The type in a declaration, if it is a derived one.
fn type_of(alloc: Global, text: &str) -> Result<DeclaredType, AllocError> {
    if text.is_empty() {
        return Ok(DeclaredType::NotDerived);
    }
    Ok(DeclaredType::Derived(List::from_vec(text.as_bytes().to_vec(alloc)?)))
}

fn need_of(verb: &str) -> Option<Need> {
    match verb {
        "value" => Some(Need::Value),
        "applied" => Some(Need::Applied),
        "call" => Some(Need::Called),
        "of" => Some(Need::Type),
        "interface" => Some(Need::Interface),
        "variable" => Some(Need::Variable),
        "object" => Some(Need::Object),
        _ => None,
    }
}

fn use_of(alloc: Global, verb: &str, module: &str) -> Result<Option<Item>, AllocError> {
    let (is_intrinsic, is_only) = match verb {
        "use" => (false, false),
        "only" => (false, true),
        "intrinsic" => (true, false),
        _ => return Ok(None),
    };
    Ok(Some(Item::Uses {
        place: NO_PLACE,
        module: name(alloc, module)?,
        is_intrinsic,
        is_only,
    }))
}

fn access_of(alloc: Global, access: Access, text: &str) -> Result<Item, AllocError> {
    if text.is_empty() {
        return Ok(Item::Default(access));
    }
    Ok(Item::Accesses {
        name: name(alloc, text)?,
        access,
    })
}

fn import_of(alloc: Global, text: &str) -> Result<Item, AllocError> {
    if text.is_empty() {
        return Ok(Item::ImportsAll);
    }
    Ok(Item::Imports(name(alloc, text)?))
}

fn taken_of(
    alloc: Global,
    module: &str,
    local: &str,
    used: &str,
    is_renamed: bool,
) -> Result<Item, AllocError> {
    Ok(Item::Takes {
        module: List::from_vec(module.as_bytes().to_vec(alloc)?),
        local: name(alloc, local)?,
        used: name(alloc, used)?,
        is_renamed,
    })
}

// One of the other items: its verb, and up to three words behind it.
fn other_of(alloc: Global, verb: &str, words: [&str; 3]) -> Result<Item, AllocError> {
    let [first, second, third] = words;
    match verb {
        "take" => taken_of(alloc, first, second, second, false),
        "rename" => taken_of(alloc, first, second, third, true),
        "import" => import_of(alloc, first),
        "private" => access_of(alloc, Access::Private, first),
        "public" => access_of(alloc, Access::Public, first),
        "select" => Ok(Item::Selects(name(alloc, first)?)),
        "(" => Ok(Item::Inside),
        ")" => Ok(Item::Outside),
        "untyped" => Ok(Item::Untyped { place: NO_PLACE }),
        _ => Ok(Item::Leave),
    }
}

fn put_scope(
    alloc: Global,
    items: &mut Vec<Item>,
    kind: ScopeKind,
    class: Class,
    text: &str,
) -> Result<(), AllocError> {
    items.push(Item::Enter {
        kind,
        place: NO_PLACE,
    })?;
    let named = declared(alloc, class, Share::Whole, DeclaredType::NotDerived, text)?;
    if declares_in_itself(kind) {
        items.push(Item::Declares(named))?;
    } else {
        items.push(Item::Heads(named))?;
    }
    Ok(())
}

// The begin of a SELECT RANK construct: its associate name, and its selector.
fn put_rank(
    alloc: Global,
    items: &mut Vec<Item>,
    associate: &str,
    selector: &str,
) -> Result<(), AllocError> {
    items.push(Item::Enter {
        kind: ScopeKind::SelectRank,
        place: NO_PLACE,
    })?;
    let of_type = DeclaredType::OfSelector(List::from_vec(selector.as_bytes().to_vec(alloc)?));
    items.push(Item::Declares(declared(alloc, Class::Data, Share::Whole, of_type, associate)?))?;
    Ok(())
}

fn put(
    alloc: Global,
    items: &mut Vec<Item>,
    verb: &str,
    words: [&str; 3],
) -> Result<(), AllocError> {
    let [first, second, _] = words;
    if let Some((kind, class)) = scope_of(verb) {
        return put_scope(alloc, items, kind, class, first);
    }
    if verb == "rank" {
        return put_rank(alloc, items, first, second);
    }
    if let Some((class, share)) = class_of(verb) {
        let of_type = type_of(alloc, second)?;
        items.push(Item::Declares(declared(alloc, class, share, of_type, first)?))?;
        return Ok(());
    }
    if let Some(need) = need_of(verb) {
        items.push(Item::Refers {
            name: name(alloc, first)?,
            need,
        })?;
        return Ok(());
    }
    match use_of(alloc, verb, first)? {
        Some(item) => items.push(item)?,
        None => items.push(other_of(alloc, verb, words)?)?,
    }
    Ok(())
}

/// The items of a program of one line: its statements stand apart by semicolons.
pub fn items_of(alloc: Global, text: &str) -> Result<Vec<Item>, AllocError> {
    let mut items = Vec::new(alloc);
    for statement in text.split(';') {
        let mut words = statement.split_whitespace();
        let verb = words.next().unwrap_or("");
        let first = words.next().unwrap_or("");
        let second = words.next().unwrap_or("");
        let third = words.next().unwrap_or("");
        put(alloc, &mut items, verb, [first, second, third])?;
    }
    Ok(items)
}
