//! Names in scope.

ghost use Rattle.std.specs.Prelude.{◌≡◌};
ghost use Rattle.c_grammar.specs.Grammar.{is_type, starts_type};

use crate::token::Token;

/// A declared name, and whether it is one of a type.
#[derive(Clone, Copy, PartialEq, Eq)]
pub struct Binding {
    pub name: u32,
    pub is_type: bool,
}

/// Whether the name is one of a type: its last declaration tells.
pub fn is_type(scope: &[Binding], name: u32) -> bool
    ensures { result ≡ is_type scope.now name }
{
    let mut found = false;
    for binding in scope {
        if binding.name == name {
            found = binding.is_type;
        }
    }
    found
}

/// Whether specifiers begin here.
pub fn starts_type(scope: &[Binding], tokens: &[Token]) -> bool
    ensures { result ≡ starts_type scope.now tokens.now }
{
    match tokens {
        [Token::Name(name), ..] => is_type(scope, *name),
        [
            Token::Word(_) | Token::Struct | Token::Enum | Token::DescriptorOfRank,
            ..
        ] => true,
        _ => false,
    }
}
