//! What is there before a program: the intrinsic procedures, and the module ISO_C_BINDING (ISO/IEC 1539-1:2018, 16.9 and 18.2).

ghost use Rattle.std.specs.Prelude.{◌≡◌, ◌++◌, ◌∷◌, [], IfOk, OnOk, map};
ghost use Rattle.f_scope.specs.BuiltIn.{built_in, before_program};

use f_items::{Class, Declared, DeclaredType, Item, Name, ScopeKind, Share};
use jf_base::{List, Place};
use std::alloc::{AllocError, Global};

const NO_PLACE: Place = Place {
    file: 0,
    line: 0,
    column: 0,
};

/// The intrinsic procedures.
const INTRINSIC_NAMES: [&str; 38] = [
    "abs",
    "mod",
    "modulo",
    "max",
    "min",
    "int",
    "huge",
    "kind",
    "len",
    "len_trim",
    "trim",
    "ichar",
    "char",
    "iachar",
    "achar",
    "iand",
    "ior",
    "ieor",
    "not",
    "ishft",
    "merge",
    "sum",
    "product",
    "maxval",
    "minval",
    "any",
    "all",
    "count",
    "size",
    "shape",
    "lbound",
    "ubound",
    "rank",
    "allocated",
    "associated",
    "present",
    "is_contiguous",
    "null",
];

/// The named constants of ISO_C_BINDING.
const CONSTANT_NAMES: [&str; 25] = [
    "c_signed_char",
    "c_int8_t",
    "c_bool",
    "c_char",
    "c_short",
    "c_int16_t",
    "c_int",
    "c_int32_t",
    "c_long",
    "c_long_long",
    "c_int64_t",
    "c_size_t",
    "c_intmax_t",
    "c_intptr_t",
    "c_ptrdiff_t",
    "c_null_char",
    "c_alert",
    "c_backspace",
    "c_horizontal_tab",
    "c_new_line",
    "c_vertical_tab",
    "c_form_feed",
    "c_carriage_return",
    "c_null_ptr",
    "c_null_funptr",
];

/// Its derived types.
const TYPE_NAMES: [&str; 2] = ["c_ptr", "c_funptr"];

/// Its procedures.
const PROCEDURE_NAMES: [&str; 7] = [
    "c_loc",
    "c_funloc",
    "c_associated",
    "c_f_pointer",
    "c_f_procpointer",
    "c_sizeof",
    "f_c_string",
];

fn put_built_in(
    alloc: Global,
    items: &mut Vec<Item>,
    class: Class,
    name: &str,
) -> Result<(), AllocError>
    ensures { OnOk result (items.new.items ≡ items.old.items ++ built_in class name.now ∷ []) }
{
    let mut bytes = Vec::new(alloc);
    bytes.extend_from_slice(name.as_bytes())?;
    items.push(Item::Declares(Declared {
        name: Name {
            bytes: List::from_vec(bytes),
            place: NO_PLACE,
        },
        class,
        share: Share::Whole,
        of_type: DeclaredType::NotDerived,
        access: None,
    }))?;
    Ok(())
}

fn put_all(
    alloc: Global,
    items: &mut Vec<Item>,
    class: Class,
    names: &[&str],
) -> Result<(), AllocError>
    ensures { OnOk result (items.new.items ≡ items.old.items ++ map (λ n. built_in class n.now) names.now) }
{
    for name in names {
        put_built_in(alloc, items, class, name)?;
    }
    Ok(())
}

/// The items that stand before those of a program.
pub fn before_program(alloc: Global) -> Result<Vec<Item>, AllocError>
    ensures { IfOk result (λ items. items.items ≡ before_program) }
{
    let mut items = Vec::new(alloc);
    put_all(alloc, &mut items, Class::Procedure, &INTRINSIC_NAMES)?;
    items.push(Item::Enter {
        kind: ScopeKind::Module,
        place: NO_PLACE,
    })?;
    put_built_in(alloc, &mut items, Class::UnitName, "iso_c_binding")?;
    put_all(alloc, &mut items, Class::Data, &CONSTANT_NAMES)?;
    put_all(alloc, &mut items, Class::DerivedType, &TYPE_NAMES)?;
    put_all(alloc, &mut items, Class::Procedure, &PROCEDURE_NAMES)?;
    items.push(Item::Leave)?;
    Ok(items)
}
