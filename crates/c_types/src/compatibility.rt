ghost use Rattle.std.specs.Prelude.{◌≡◌, false};
ghost use Rattle.std.specs.Option.{option_copied};
ghost use Rattle.c_types.specs.Adjusted.{IsAdjusted, IsNoLarger};
ghost use Rattle.c_types.specs.Compatible.{adjusted, alike, are_compatible, compatible_by, is_int, settled, settled_of_proto, alike_of_proto, members_alike};
ghost use Rattle.c_types.specs.Files.{rule_of};

use crate::ctype::{CType, Member, Proto};
use crate::table::Types;
use jf_base::Width;

/// The files that two types are of, and how deep their structs may hold structs.
#[derive(Clone, Copy)]
struct Files<'a> {
    first: &'a Types,
    other: Option<&'a Types>,
    depth: usize,
}

/// Whether a type of the table `t` and one of `other`, or of `t` itself, are compatible (C11 6.2.7).
///
/// In one file a struct or an enum is compatible with itself alone, but for `int`, with which every enum is compatible.
/// Between two files every enum counts as `int`. There two structs are compatible where one is incomplete or both have as
/// many members that are compatible in order, and behind a pointer every struct is compatible with every other. Names of
/// members and structs aren't compared.
pub fn compatible(t: &Types, a: &CType, other: Option<&Types>, b: &CType) -> bool
    ensures { result ≡ are_compatible t.now a.now (option_copied other.entry) b.now }
{
    let depth = match other {
        None => 0,
        Some(second) => t.count().min(second.count()),
    };
    let files = Files {
        first: t,
        other,
        depth,
    };
    compare(&files, false, a, false, b, false)
}

/// Whether an integer type is `int`.
fn is_int_type(width: Width, signed: bool, rank: u8) -> bool
    ensures { result ≡ is_int width signed rank }
{
    width == Width::W4 && signed && rank == 3
}

/// Whether two types are compatible, each with const before it or without, behind a pointer or not.
#[cycle(compare)]
fn compare(
    files: &Files<'_>,
    behind: bool,
    a: &CType,
    a_const: bool,
    b: &CType,
    b_const: bool,
) -> bool
    ensures { result ≡ alike (rule_of files.now) (settled a.now a_const) behind (settled b.now b_const) }
{
    match (a, b) {
        (CType::Const(x), _) => compare(files, behind, x.get(), true, b, b_const),
        (_, CType::Const(y)) => compare(files, behind, a, a_const, y.get(), true),
        (CType::Array(x, m), CType::Array(y, n)) => *m == *n
            && compare(files, behind, x.get(), a_const, y.get(), b_const),
        (CType::Pointer(x), CType::Pointer(y)) => a_const == b_const
            && compare(files, true, x.get(), false, y.get(), false),
        (CType::Function(f), CType::Function(g)) => compare_protos(files, behind, f.get(), g.get()),
        (CType::Struct(s), CType::Struct(t)) => a_const == b_const
            && compare_structs(files, behind, *s, *t),
        (CType::Void, CType::Void) => a_const == b_const,
        (CType::Bool, CType::Bool) => a_const == b_const,
        (
            CType::Int {
                width,
                signed,
                rank,
            },
            CType::Int {
                width: w,
                signed: s,
                rank: r,
            },
        ) => a_const == b_const && *width == *w && *signed == *s && *rank == *r,
        (
            CType::Int {
                width,
                signed,
                rank,
            },
            CType::Enum(_),
        ) => a_const == b_const && is_int_type(*width, *signed, *rank),
        (
            CType::Enum(_),
            CType::Int {
                width,
                signed,
                rank,
            },
        ) => a_const == b_const && is_int_type(*width, *signed, *rank),
        (CType::Enum(m), CType::Enum(n)) => a_const == b_const
            && (files.other.is_some() || *m == *n),
        (CType::Char, CType::Char) => a_const == b_const,
        (CType::Descriptor, CType::Descriptor) => a_const == b_const,
        (CType::Cdesc(m), CType::Cdesc(n)) => a_const == b_const && *m == *n,
        _ => false,
    }
}

/// Whether two functions' results and parameters are compatible.
#[cycle(compare)]
fn compare_protos(files: &Files<'_>, behind: bool, f: &Proto, g: &Proto) -> bool
    ensures { result ≡ alike_of_proto (rule_of files.now) (settled_of_proto f.now) behind (settled_of_proto g.now) }
{
    if !compare(files, behind, &f.result, false, &g.result, false) {
        return false;
    }
    let ours = f.params.as_slice();
    let theirs = g.params.as_slice();
    if ours.len() != theirs.len() {
        return false;
    }
    for i in 0..ours.len() {
        if !compare_parameters(files, behind, &ours[i], &theirs[i]) {
            return false;
        }
    }
    true
}

/// A parameter's type as it is adjusted: a pointer to a type with const before it or without, or the type itself.
#[derive(Clone, Copy)]
enum Adjusted<'a> {
    PointerTo(&'a CType, bool),
    Itself(&'a CType),
}

/// The adjusted type of a parameter whose type has const before it or hasn't.
fn adjust(c: &CType, is_const: bool) -> Adjusted<'_>
    ensures kind { IsAdjusted c.now is_const result }
    ensures no_larger { IsNoLarger c.now result }
{
    match c {
        CType::Const(x) => adjust(x.get(), true),
        CType::Array(x, _) => Adjusted::PointerTo(x.get(), is_const),
        CType::Pointer(x) => Adjusted::PointerTo(x.get(), false),
        CType::Function(_) => Adjusted::PointerTo(c, false),
        CType::Void
        | CType::Bool
        | CType::Int { .. }
        | CType::Char
        | CType::Enum(_)
        | CType::Struct(_)
        | CType::Descriptor
        | CType::Cdesc(_) => Adjusted::Itself(c),
    }
}

/// Whether the adjusted types of two parameters are compatible.
#[cycle(compare)]
fn compare_parameters(files: &Files<'_>, behind: bool, a: &CType, b: &CType) -> bool
    ensures { result ≡ alike (rule_of files.now) (adjusted (settled a.now false)) behind (adjusted (settled b.now false)) }
{
    match (adjust(a, false), adjust(b, false)) {
        (Adjusted::PointerTo(x, x_const), Adjusted::PointerTo(y, y_const)) => compare(
            files, true, x, x_const, y, y_const,
        ),
        (Adjusted::Itself(x), Adjusted::Itself(y)) => compare(files, behind, x, false, y, false),
        _ => false,
    }
}

/// Whether two structs are compatible, behind a pointer or not.
#[cycle(compare)]
fn compare_structs(files: &Files<'_>, behind: bool, s: u32, t: u32) -> bool
    ensures { result ≡ (rule_of files.now).structs behind s t }
{
    let second = match files.other {
        None => return s == t,
        Some(second) => second,
    };
    if behind || files.depth == 0 {
        return true;
    }
    match (files.first.layout(s), second.layout(t)) {
        (Some(ours), Some(theirs)) => {
            let deeper = Files {
                first: files.first,
                other: files.other,
                depth: files.depth - 1,
            };
            compare_members(&deeper, ours.members.as_slice(), theirs.members.as_slice())
        }
        _ => true,
    }
}

/// Whether two structs have as many members that are compatible in order.
#[cycle(compare)]
fn compare_members(files: &Files<'_>, ours: &[Member], theirs: &[Member]) -> bool
    ensures { result ≡ members_alike (compatible_by (rule_of files.now)) ours.now theirs.now }
{
    if ours.len() != theirs.len() {
        return false;
    }
    for i in 0..ours.len() {
        if !compare(files, false, &ours[i].kind, false, &theirs[i].kind, false) {
            return false;
        }
    }
    true
}
