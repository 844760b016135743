//! What follows from the rules on names, each law the contract of a function that does nothing.

ghost use Rattle.f_items.specs.Laws.{FindsOne, FindsSome, OnePartType, OnePartBefore, SelectsSome, DeclaresOnce, DeclaresNoneUsed, OneModule, OneOrder, OneFirst, NoneFirst};

/// A reference that breaks no rule finds one declaration at most.
pub fn a_reference_finds_one_declaration()
    ensures { FindsOne }
{}

/// A reference that breaks no rule doesn't find nothing.
pub fn a_reference_finds_a_declaration()
    ensures { FindsSome }
{}

/// A part of a reference has one type at most.
pub fn a_part_has_one_type()
    ensures { OnePartType }
{}

/// A selection has one part before it at most.
pub fn a_selection_has_one_part_before()
    ensures { OnePartBefore }
{}

/// A selection from what is of a derived type, which breaks no rule, doesn't miss its component.
pub fn a_selection_finds_a_component()
    ensures { SelectsSome }
{}

/// Where no rule is broken, a scope declares a name once.
pub fn a_scope_declares_a_name_once()
    ensures { DeclaresOnce }
{}

/// Where no rule is broken, a scope declares no name that it uses.
pub fn a_scope_declares_no_used_name()
    ensures { DeclaresNoneUsed }
{}

/// Where no rule is broken, a module is the only one of its name.
pub fn a_name_is_of_one_module()
    ensures { OneModule }
{}

/// Units have one order.
pub fn one_order_of_units()
    ensures { OneOrder }
{}

/// One rule is broken first, at one place.
pub fn one_first_broken_rule()
    ensures { OneFirst }
{}

/// Where no rule is broken, none is broken first.
pub fn none_is_broken_first_where_none_is_broken()
    ensures { NoneFirst }
{}
