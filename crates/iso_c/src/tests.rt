//! Each name of the module.

use crate::{Entity, Procedure, entity_of, kind_of};

#[test]
fn kinds_have_their_values(rt: HostRuntime) {
    let table = [
        ("c_signed_char", Some(1)),
        ("c_int8_t", Some(1)),
        ("c_bool", Some(1)),
        ("c_char", Some(1)),
        ("c_short", Some(2)),
        ("c_int16_t", Some(2)),
        ("c_int", Some(4)),
        ("c_int32_t", Some(4)),
        ("c_long", Some(8)),
        ("c_long_long", Some(8)),
        ("c_int64_t", Some(8)),
        ("c_size_t", Some(8)),
        ("c_intmax_t", Some(8)),
        ("c_intptr_t", Some(8)),
        ("c_ptrdiff_t", Some(8)),
        ("c_ptr", None),
        ("c_null_char", None),
        ("c_double", None),
        ("", None),
    ];
    for (name, kind) in table {
        assert!(rt; kind_of(name) == kind, "of {name:?}");
    }
}

#[test]
fn each_name_is_something(rt: HostRuntime) {
    let table = [
        ("c_null_char", Some(Entity::Character(0))),
        ("c_alert", Some(Entity::Character(7))),
        ("c_backspace", Some(Entity::Character(8))),
        ("c_horizontal_tab", Some(Entity::Character(9))),
        ("c_new_line", Some(Entity::Character(10))),
        ("c_vertical_tab", Some(Entity::Character(11))),
        ("c_form_feed", Some(Entity::Character(12))),
        ("c_carriage_return", Some(Entity::Character(13))),
        ("c_ptr", Some(Entity::Pointer)),
        ("c_funptr", Some(Entity::FunctionPointer)),
        ("c_null_ptr", Some(Entity::NullPointer)),
        ("c_null_funptr", Some(Entity::NullFunctionPointer)),
        ("c_loc", Some(Entity::Procedure(Procedure::Loc))),
        ("c_funloc", Some(Entity::Procedure(Procedure::FunLoc))),
        (
            "c_associated",
            Some(Entity::Procedure(Procedure::Associated)),
        ),
        ("c_f_pointer", Some(Entity::Procedure(Procedure::FPointer))),
        (
            "c_f_procpointer",
            Some(Entity::Procedure(Procedure::FProcPointer)),
        ),
        ("c_sizeof", Some(Entity::Procedure(Procedure::SizeOf))),
        ("f_c_string", Some(Entity::Procedure(Procedure::FCString))),
        ("c_int", Some(Entity::Kind(4))),
        ("iso_c_binding", None),
    ];
    for (name, entity) in table {
        assert!(rt; entity_of(name) == entity, "of {name:?}");
    }
}
