//! What specifiers and declarators tell of the names that they declare.

ghost use Rattle.std.specs.Prelude.{◌≡◌, map};
ghost use Rattle.c_grammar.specs.Grammar.{Specs, spec, or, name_of, is_typedef};
ghost use Rattle.c_expression_read.specs.Views.{view_declarator, view_specifier, specs_of};

use c_tree::{Core, Declarator, Specifier, SpecifierWord};

/// The name that a declarator declares, where it has one (ISO/IEC 9899:2011, 6.7.6).
pub fn name_of(declarator: &Declarator) -> Option<u32>
    ensures { result ≡ name_of (view_declarator declarator.now) }
{
    match &declarator.core {
        Core::Absent => None,
        Core::Identifier { name, .. } => Some(*name),
        Core::Group { inner, .. } => name_of(inner.get()),
    }
}

// Whether a specifier is `typedef`.
fn is_typedef_word(specifier: &Specifier) -> bool
    ensures { (more : Specs) → is_typedef (spec (view_specifier specifier.now) more) ≡ or result (is_typedef more) }
{
    matches!(
        specifier,
        Specifier::Word {
            word: SpecifierWord::Typedef,
            ..
        }
    )
}

/// Whether what is declared with these specifiers is a name of a type (ISO/IEC 9899:2011, 6.7.8).
pub fn is_typedef(specifiers: &[Specifier]) -> bool
    ensures { result ≡ is_typedef (specs_of (map view_specifier specifiers.now)) }
{
    let mut rest = specifiers;
    while let Some((first, after)) = rest.split_first() {
        if is_typedef_word(first) {
            return true;
        }
        rest = after;
    }
    false
}
