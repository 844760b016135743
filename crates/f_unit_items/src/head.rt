//! The names in heads of procedures. What stands last is put first.

ghost use Rattle.std.specs.Prelude.{◌≡◌, OnOk, IfOk, map};
ghost use Rattle.f_unit_items.specs.Fronts.{each, if_there};
ghost use Rattle.f_unit_items.specs.Units.{prefix_place, place_before, head_place, is_type, prefix_type, result_share, result_type, result_name, suffix, is_result, has_result, own_name, dummy, dummies, host_name, head};

use crate::declaration::put_bind;
use crate::expression::{declared_type, put_type, type_place};
use crate::items::Items;
use crate::put::{HasItems, put_each};
use f_items::{Class, DeclaredType, ScopeKind, Share};
use f_tree::{Head, Name, Prefix, ProcedureKind, Suffix};
use jf_base::{List, Place};
use std::alloc::{AllocError, Global};

impl HasItems for Prefix {
    ghost use Rattle.f_unit_items.specs.Units.{prefix};

    ghost items = { prefix };

    fn put(&self, out: &mut Items) -> Result<(), AllocError> {
        match self {
            Prefix::Recursive { place: _ } => Ok(()),
            Prefix::Type(declared) => put_type(out, declared),
        }
    }
}

fn prefix_place(prefix: &Prefix) -> Place
    ensures { result ≡ prefix_place prefix.now }
{
    match prefix {
        Prefix::Recursive { place } => *place,
        Prefix::Type(declared) => type_place(declared),
    }
}

fn place_before(prefixes: &[Prefix], place: Place) -> Place
    ensures { result ≡ place_before prefixes.now place }
{
    match prefixes {
        [] => place,
        [prefix, ..] => prefix_place(prefix),
    }
}

/// The place of a head's first token.
pub fn head_place(h: &Head) -> Place
    ensures { result ≡ head_place h.now }
{
    place_before(h.prefixes.as_slice(), h.place)
}

fn is_type(prefix: &Prefix) -> bool
    ensures { result ≡ is_type prefix.now }
{
    match prefix {
        Prefix::Recursive { place: _ } => false,
        Prefix::Type(_) => true,
    }
}

fn prefix_type(alloc: Global, prefix: &Prefix) -> Result<DeclaredType, AllocError>
    ensures { IfOk result (λ of_type. of_type ≡ prefix_type prefix.now) }
{
    match prefix {
        Prefix::Recursive { place: _ } => Ok(DeclaredType::NotDerived),
        Prefix::Type(declared) => declared_type(alloc, declared),
    }
}

/// How much of a result's declaration stands in the head.
#[tactic(auto, unfolding(crate::specs::Units::result_share))]
fn result_share(prefixes: &[Prefix]) -> Share
    ensures { result ≡ result_share prefixes.now }
{
    let mut rest = prefixes;
    'prefixes: while let Some((prefix, behind)) = rest.split_first() {
        if is_type(prefix) {
            return Share::Whole;
        }
        rest = behind;
    }
    Share::Announced
}

/// A result's type, where the head says it.
#[tactic(auto, unfolding(crate::specs::Units::result_type))]
fn result_type(alloc: Global, prefixes: &[Prefix]) -> Result<DeclaredType, AllocError>
    ensures { IfOk result (λ of_type. of_type ≡ result_type prefixes.now) }
{
    let mut rest = prefixes;
    'prefixes: while let Some((prefix, behind)) = rest.split_first() {
        if is_type(prefix) {
            return prefix_type(alloc, prefix);
        }
        rest = behind;
    }
    Ok(DeclaredType::NotDerived)
}

fn put_result(out: &mut Items, prefixes: &[Prefix], name: &Name) -> Result<(), AllocError>
    ensures { OnOk result (out.new ≡ result_name prefixes.now name.now out.old) }
{
    let of_type = result_type(out.allocator(), prefixes)?;
    out.declare(name, Class::Data, result_share(prefixes), of_type, None)
}

fn put_suffix(out: &mut Items, prefixes: &[Prefix], s: &Suffix) -> Result<(), AllocError>
    ensures { OnOk result (out.new ≡ suffix prefixes.now s.now out.old) }
{
    match s {
        Suffix::Bind { place: _, bind } => put_bind(out, bind),
        Suffix::Result { place: _, name } => put_result(out, prefixes, name),
    }
}

fn put_suffixes(out: &mut Items, prefixes: &[Prefix], list: &[Suffix]) -> Result<(), AllocError>
    ensures { OnOk result (out.new ≡ each (map (suffix prefixes.now) list.now) out.old) }
{
    let mut left = list.len();
    while left > 0 {
        left -= 1;
        put_suffix(out, prefixes, &list[left])?;
    }
    Ok(())
}

fn is_result(suffix: &Suffix) -> bool
    ensures { result ≡ is_result suffix.now }
{
    match suffix {
        Suffix::Bind { place: _, bind: _ } => false,
        Suffix::Result { place: _, name: _ } => true,
    }
}

/// The head names a result.
#[tactic(auto, unfolding(crate::specs::Units::has_result))]
fn has_result(suffixes: &[Suffix]) -> bool
    ensures { result ≡ has_result suffixes.now }
{
    let mut rest = suffixes;
    'suffixes: while let Some((suffix, behind)) = rest.split_first() {
        if is_result(suffix) {
            return true;
        }
        rest = behind;
    }
    false
}

fn put_own_name(
    out: &mut Items,
    kind: ProcedureKind,
    has_result: bool,
    prefixes: &[Prefix],
    name: &Name,
) -> Result<(), AllocError>
    ensures { OnOk result (out.new ≡ own_name kind has_result prefixes.now name.now out.old) }
{
    match kind {
        ProcedureKind::Function if !has_result => put_result(out, prefixes, name),
        _ => out.declare(
            name,
            Class::Procedure,
            Share::Whole,
            DeclaredType::NotDerived,
            None,
        ),
    }
}

fn put_dummy(out: &mut Items, name: &Name) -> Result<(), AllocError>
    ensures { OnOk result (out.new ≡ dummy name.now out.old) }
{
    out.declare(
        name,
        Class::Data,
        Share::Announced,
        DeclaredType::NotDerived,
        None,
    )
}

fn put_dummies(out: &mut Items, list: &[Name]) -> Result<(), AllocError>
    ensures { OnOk result (out.new ≡ dummies list.now out.old) }
{
    let mut left = list.len();
    while left > 0 {
        left -= 1;
        put_dummy(out, &list[left])?;
    }
    Ok(())
}

fn put_dummies_if_there(out: &mut Items, names: &Option<List<Name>>) -> Result<(), AllocError>
    ensures { OnOk result (out.new ≡ if_there dummies names.now out.old) }
{
    match names {
        None => Ok(()),
        Some(names) => put_dummies(out, names.as_slice()),
    }
}

fn put_host_name(out: &mut Items, class: Option<Class>, name: &Name) -> Result<(), AllocError>
    ensures { OnOk result (out.new ≡ host_name class name.now out.old) }
{
    match class {
        None => Ok(()),
        Some(class) => out.head(name, class, None),
    }
}

/// Puts the begin of a procedure's scope and the names of its head in front; the class is that of its name in the scope around it.
pub fn put_head(
    out: &mut Items,
    kind: ScopeKind,
    class: Option<Class>,
    h: &Head,
) -> Result<(), AllocError>
    ensures { OnOk result (out.new ≡ head kind class h.now out.old) }
{
    put_suffixes(out, h.prefixes.as_slice(), h.suffixes.as_slice())?;
    put_dummies_if_there(out, &h.dummies)?;
    let has_result = has_result(h.suffixes.as_slice());
    put_own_name(out, h.kind, has_result, h.prefixes.as_slice(), &h.name)?;
    put_host_name(out, class, &h.name)?;
    put_each(out, h.prefixes.as_slice())?;
    out.enter(kind, head_place(h))
}
