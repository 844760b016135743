//! The names of ISO_C_BINDING.

ghost use Rattle.std.specs.Prelude.{◌≡◌};
ghost use Rattle.iso_c.specs.Names.{has_one, has_two, has_four, has_eight, kind_named, character_named, pointer_named, procedure_named, entity_named};

/// A procedure of the module (ISO/IEC 1539-1:2018, 18.2.3).
#[derive(Clone, Copy, PartialEq, Eq, Debug)]
pub enum Procedure {
    Loc,
    FunLoc,
    Associated,
    FPointer,
    FProcPointer,
    SizeOf,
    FCString,
}

/// What a name of the module is.
#[derive(Clone, Copy, PartialEq, Eq, Debug)]
pub enum Entity {
    /// A constant that is a kind, by its value.
    Kind(u8),
    /// A constant that is a character, by its byte.
    Character(u8),
    /// The type C_PTR.
    Pointer,
    /// The type C_FUNPTR.
    FunctionPointer,
    NullPointer,
    NullFunctionPointer,
    Procedure(Procedure),
}

#[tactic(auto, unfolding(crate::specs::Names::has_one))]
fn has_one(word: &[u8]) -> bool
    ensures { result ≡ has_one word.now }
{
    if word == b"c_signed_char".as_slice() {
        true
    } else if word == b"c_int8_t".as_slice() {
        true
    } else if word == b"c_bool".as_slice() {
        true
    } else if word == b"c_char".as_slice() {
        true
    } else {
        false
    }
}

#[tactic(auto, unfolding(crate::specs::Names::has_two))]
fn has_two(word: &[u8]) -> bool
    ensures { result ≡ has_two word.now }
{
    if word == b"c_short".as_slice() {
        true
    } else if word == b"c_int16_t".as_slice() {
        true
    } else {
        false
    }
}

#[tactic(auto, unfolding(crate::specs::Names::has_four))]
fn has_four(word: &[u8]) -> bool
    ensures { result ≡ has_four word.now }
{
    if word == b"c_int".as_slice() {
        true
    } else if word == b"c_int32_t".as_slice() {
        true
    } else {
        false
    }
}

#[tactic(auto, unfolding(crate::specs::Names::has_eight))]
fn has_eight(word: &[u8]) -> bool
    ensures { result ≡ has_eight word.now }
{
    if word == b"c_long".as_slice() {
        true
    } else if word == b"c_long_long".as_slice() {
        true
    } else if word == b"c_int64_t".as_slice() {
        true
    } else if word == b"c_size_t".as_slice() {
        true
    } else if word == b"c_intmax_t".as_slice() {
        true
    } else if word == b"c_intptr_t".as_slice() {
        true
    } else if word == b"c_ptrdiff_t".as_slice() {
        true
    } else {
        false
    }
}

#[tactic(auto, unfolding(crate::specs::Names::kind_named))]
fn kind_named(word: &[u8]) -> Option<u8>
    ensures { result ≡ kind_named word.now }
{
    if has_one(word) {
        Some(1)
    } else if has_two(word) {
        Some(2)
    } else if has_four(word) {
        Some(4)
    } else if has_eight(word) {
        Some(8)
    } else {
        None
    }
}

/// The value of the constant of this name, with its letters lowered, where it is a kind (ISO/IEC 1539-1:2018, 18.2.2).
pub fn kind_of(name: &str) -> Option<u8>
    ensures { result ≡ kind_named name.now }
{
    kind_named(name.as_bytes())
}

#[tactic(auto, unfolding(crate::specs::Names::character_named))]
fn character_named(word: &[u8]) -> Option<u8>
    ensures { result ≡ character_named word.now }
{
    if word == b"c_null_char".as_slice() {
        Some(0)
    } else if word == b"c_alert".as_slice() {
        Some(7)
    } else if word == b"c_backspace".as_slice() {
        Some(8)
    } else if word == b"c_horizontal_tab".as_slice() {
        Some(9)
    } else if word == b"c_new_line".as_slice() {
        Some(10)
    } else if word == b"c_vertical_tab".as_slice() {
        Some(11)
    } else if word == b"c_form_feed".as_slice() {
        Some(12)
    } else if word == b"c_carriage_return".as_slice() {
        Some(13)
    } else {
        None
    }
}

#[tactic(auto, unfolding(crate::specs::Names::pointer_named))]
fn pointer_named(word: &[u8]) -> Option<Entity>
    ensures { result ≡ pointer_named word.now }
{
    if word == b"c_ptr".as_slice() {
        Some(Entity::Pointer)
    } else if word == b"c_funptr".as_slice() {
        Some(Entity::FunctionPointer)
    } else if word == b"c_null_ptr".as_slice() {
        Some(Entity::NullPointer)
    } else if word == b"c_null_funptr".as_slice() {
        Some(Entity::NullFunctionPointer)
    } else {
        None
    }
}

#[tactic(auto, unfolding(crate::specs::Names::procedure_named))]
fn procedure_named(word: &[u8]) -> Option<Procedure>
    ensures { result ≡ procedure_named word.now }
{
    if word == b"c_loc".as_slice() {
        Some(Procedure::Loc)
    } else if word == b"c_funloc".as_slice() {
        Some(Procedure::FunLoc)
    } else if word == b"c_associated".as_slice() {
        Some(Procedure::Associated)
    } else if word == b"c_f_pointer".as_slice() {
        Some(Procedure::FPointer)
    } else if word == b"c_f_procpointer".as_slice() {
        Some(Procedure::FProcPointer)
    } else if word == b"c_sizeof".as_slice() {
        Some(Procedure::SizeOf)
    } else if word == b"f_c_string".as_slice() {
        Some(Procedure::FCString)
    } else {
        None
    }
}

/// What the name, with its letters lowered, is in the module ISO_C_BINDING, if it is one of the profile's.
#[tactic(auto, unfolding(crate::specs::Names::entity_named))]
pub fn entity_of(name: &str) -> Option<Entity>
    ensures { result ≡ entity_named name.now }
{
    let word = name.as_bytes();
    match kind_named(word) {
        Some(kind) => Some(Entity::Kind(kind)),
        None => match character_named(word) {
            Some(character) => Some(Entity::Character(character)),
            None => match procedure_named(word) {
                Some(procedure) => Some(Entity::Procedure(procedure)),
                None => pointer_named(word),
            },
        },
    }
}
