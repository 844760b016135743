//! Whether each number in a unit names a thing that is there.

ghost use Rattle.std.specs.Prelude.{◌≡◌, ◌&&◌, Some, slice_get};
ghost use Rattle.std.specs.List.{list_all};
ghost use Rattle.c_resolved.specs.Lists.{each_below};
ghost use Rattle.c_resolved.specs.Kinds.{name_fits, type_fits};
ghost use Rattle.c_resolved.specs.Declarations.{local_fits};
ghost use Rattle.c_resolved.specs.Units.{body_counts, body_fits, content_fits, counts_of, declarations_fit, defines, definition_at, definition_fits, definitions_fit, function_at, function_fits, functions_fit, head_fits, is_defined_by, is_linked, linked_fits, locals_fit, members_fit, object_fits, object_is_linked, objects_fit, outer_counts, program_fits, role_fits, strings_fit, struct_fits, structs_fit, thing_fits, unit_fits};

use crate::check_declaration::{is_initializer, is_local, is_string};
use crate::check_statement::are_items;
use crate::check_type::{Counts, is_proto, is_type};
use crate::unit::{
    Content, Function, FunctionDefinition, Linkage, LinkedDeclaration, LinkedThing, Object,
    Program, Role, Unit,
};
use c_types::{Layout, Types};

fn counts_of(u: &Unit, parameters: usize, locals: usize) -> Counts
    ensures { result ≡ counts_of u.now parameters locals }
{
    Counts {
        names: u.names.len(),
        literals: u.literals.len(),
        places: u.places.len(),
        structs: u.types.count(),
        enums: u.enums as usize,
        strings: u.strings.len(),
        objects: u.objects.len(),
        functions: u.functions.len(),
        parameters,
        locals,
    }
}

fn are_members(counts: Counts, layout: &Layout) -> bool
    ensures { result ≡ list_all (λ m. name_fits counts m.name && type_fits counts m.kind) layout.now.members }
{
    layout
        .members
        .as_slice()
        .iter()
        .all(|m| counts.has_name(m.name) && is_type(counts, &m.kind))
}

fn is_struct(counts: Counts, t: &Types, s: u32) -> bool
    ensures { result ≡ struct_fits counts t.now s }
{
    match t.layout(s) {
        None => true,
        Some(layout) => are_members(counts, layout),
    }
}

fn are_structs(counts: Counts, t: &Types) -> bool
    ensures { result ≡ structs_fit counts t.now }
{
    let structs = t.count();
    if structs > 4_294_967_296 {
        return false;
    }
    let mut all = true;
    for s in 0..structs {
        all = all && is_struct(counts, t, s as u32);
    }
    all
}

fn are_strings(u: &Unit) -> bool
    ensures { result ≡ strings_fit u.now }
{
    let counts = counts_of(u, 0, 0);
    u.strings.as_slice().iter().all(|s| is_string(counts, s))
}

fn is_content(counts: Counts, t: &Types, content: &Content) -> bool
    ensures { result ≡ content_fits counts t.now content.now }
{
    match content {
        Content::Elsewhere => true,
        Content::Zero => true,
        Content::Initial(value) => is_initializer(counts, t, value.get()),
    }
}

fn is_object(counts: Counts, t: &Types, x: &Object) -> bool
    ensures { result ≡ object_fits counts t.now x.now }
{
    counts.has_name(x.name)
        && is_type(counts, &x.kind)
        && is_content(counts, t, &x.content)
        && counts.has_token(x.at)
}

fn are_objects_there(counts: Counts, t: &Types, all: &[Object]) -> bool
    ensures { result ≡ list_all (λ x. object_fits counts t.now x) all.now }
{
    all.iter().all(|x| is_object(counts, t, x))
}

fn are_objects(u: &Unit) -> bool
    ensures { result ≡ objects_fit u.now }
{
    are_objects_there(counts_of(u, 0, 0), &u.types, u.objects.as_slice())
}

fn is_linked(linkage: Linkage) -> bool
    ensures { result ≡ is_linked linkage }
{
    match linkage {
        Linkage::External => true,
        Linkage::Internal => true,
        Linkage::Absent => false,
    }
}

fn is_definition_of(u: &Unit, d: u32, f: usize) -> bool
    ensures { result ≡ defines (slice_get u.now.definitions d) f }
{
    match u.definitions.as_slice().get(d as usize) {
        None => false,
        Some(definition) => definition.function as usize == f,
    }
}

fn is_role(u: &Unit, f: usize, role: Role) -> bool
    ensures { result ≡ role_fits u.now.definitions f role }
{
    match role {
        Role::Elsewhere => true,
        Role::Defined(d) => is_definition_of(u, d, f),
        Role::Library(_) => true,
    }
}

fn is_function(u: &Unit, f: usize, function: &Function) -> bool
    ensures { result ≡ function_at u.now f (Some function.now) }
{
    let counts = counts_of(u, 0, 0);
    counts.has_name(function.name)
        && is_linked(function.linkage)
        && is_proto(counts, &function.proto)
        && is_role(u, f, function.role)
        && counts.has_token(function.at)
}

fn is_function_there(u: &Unit, f: usize) -> bool
    ensures { result ≡ function_fits u.now f }
{
    match u.functions.as_slice().get(f) {
        None => false,
        Some(function) => is_function(u, f, function),
    }
}

fn are_functions(u: &Unit) -> bool
    ensures { result ≡ functions_fit u.now }
{
    let mut all = true;
    for f in 0..u.functions.len() {
        all = all && is_function_there(u, f);
    }
    all
}

fn is_defined_by(role: Role, i: usize) -> bool
    ensures { result ≡ is_defined_by role i }
{
    match role {
        Role::Elsewhere => false,
        Role::Defined(d) => d as usize == i,
        Role::Library(_) => false,
    }
}

fn is_head(u: &Unit, i: usize, d: &FunctionDefinition) -> bool
    ensures { result ≡ head_fits i d.now (slice_get u.now.functions d.now.function) }
{
    match u.functions.as_slice().get(d.function as usize) {
        None => false,
        Some(f) => is_defined_by(f.role, i) && d.parameters as usize == f.proto.params.len(),
    }
}

fn are_locals_there(counts: Counts, d: &FunctionDefinition) -> bool
    ensures { result ≡ list_all (λ x. local_fits counts x) d.now.locals }
{
    d.locals.as_slice().iter().all(|x| is_local(counts, x))
}

fn are_locals(u: &Unit, d: &FunctionDefinition) -> bool
    ensures { result ≡ locals_fit u.now d.now }
{
    let counts = counts_of(u, d.parameters as usize, d.locals.len());
    d.parameters as usize <= d.locals.len() && are_locals_there(counts, d)
}

fn is_body(u: &Unit, d: &FunctionDefinition) -> bool
    ensures { result ≡ body_fits u.now d.now }
{
    let counts = counts_of(u, d.parameters as usize, d.locals.len());
    are_items(counts, &u.types, d.body.as_slice())
}

fn is_definition(u: &Unit, i: usize, d: &FunctionDefinition) -> bool
    ensures { result ≡ definition_at u.now i (Some d.now) }
{
    is_head(u, i, d) && are_locals(u, d) && is_body(u, d) && (d.at as usize) < u.places.len()
}

fn is_definition_there(u: &Unit, i: usize) -> bool
    ensures { result ≡ definition_fits u.now i }
{
    match u.definitions.as_slice().get(i) {
        None => false,
        Some(d) => is_definition(u, i, d),
    }
}

fn are_definitions(u: &Unit) -> bool
    ensures { result ≡ definitions_fit u.now }
{
    let mut all = true;
    for i in 0..u.definitions.len() {
        all = all && is_definition_there(u, i);
    }
    all
}

fn is_linked_object(u: &Unit, o: u32) -> bool
    ensures { result ≡ object_is_linked (slice_get u.now.objects o) }
{
    match u.objects.as_slice().get(o as usize) {
        None => false,
        Some(x) => is_linked(x.linkage),
    }
}

fn is_thing(u: &Unit, thing: LinkedThing) -> bool
    ensures { result ≡ thing_fits u.now thing }
{
    match thing {
        LinkedThing::Object(o) => is_linked_object(u, o),
        LinkedThing::Function(f) => (f as usize) < u.functions.len(),
    }
}

fn is_linked_declaration(u: &Unit, d: &LinkedDeclaration) -> bool
    ensures { result ≡ linked_fits u.now d.now }
{
    let counts = counts_of(u, 0, 0);
    is_thing(u, d.thing) && is_type(counts, &d.kind) && counts.has_token(d.at)
}

fn are_declarations(u: &Unit) -> bool
    ensures { result ≡ declarations_fit u.now }
{
    u.declarations
        .as_slice()
        .iter()
        .all(|d| is_linked_declaration(u, d))
}

/// Whether each number in a unit names a declared thing of the right kind.
///
/// - A name denotes a local of the function around it, an object or a function of the unit; outside functions it denotes no local.
/// - A block declares a local that is no parameter; the parameters are the first locals, as many as the function's type has.
/// - A string and its literals, a name and a token are in the unit's lists, and a struct and an enumerated type are known to its types.
/// - A member belongs to a struct that is complete, and a descriptor's rank is at most 15.
/// - A function and its definition name each other, and what a declaration with linkage names has linkage.
///
/// Takes no memory, and goes over the unit once.
pub fn is_resolved(u: &Unit) -> bool
    ensures { result ≡ unit_fits u.now }
{
    let counts = counts_of(u, 0, 0);
    are_structs(counts, &u.types)
        && are_strings(u)
        && are_objects(u)
        && are_functions(u)
        && are_definitions(u)
        && are_declarations(u)
}

/// Whether `is_resolved` holds of each unit of a program. Takes no memory.
pub fn is_program_resolved(p: &Program) -> bool
    ensures { result ≡ program_fits p.now }
{
    p.units.as_slice().iter().all(|u| is_resolved(u))
}
