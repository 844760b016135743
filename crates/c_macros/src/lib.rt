//! Object macros of C: what tokens expand to (ISO/IEC 9899:2011, 6.10.3 and 6.10.3.4).
//!
//! Names are numbers: a table of bodies has the body of each name, and a table of flags says which names are macros. A macro's body is replaced where
//! that macro isn't one.
#![tactic(auto)]

mod expander;
mod macros;
mod quick;
mod table;
mod token;

ghost use Rattle.std.specs.Prelude.{◌≡◌, List, [], ◌∷◌, ◌++◌, Bool, true, false, None, Some};
ghost use Rattle.c_macros.specs.Expansion.{Bodies, Macros, Expands, body_of, without, expansion};
ghost use Rattle.c_macros.specs.declared.token.Token.{Token};
ghost use Rattle.c_macros.specs.declared.token.Token.TheVariants.{Name, Other};

pub use expander::expand;
pub use macros::MacroTable;
pub use token::{Spanned, Token};

/// Each list of tokens expands to a list: expansion ends.
pub fn expansion_is_there()
    ensures { (bodies : Bodies) (on : Macros) (tokens : List Token) → Expands bodies on tokens (expansion bodies on tokens) }
{}

/// And to no other list.
pub fn expansion_is_one()
    ensures { (bodies : Bodies) (on : Macros) (tokens out : List Token) → Expands bodies on tokens out → out ≡ expansion bodies on tokens }
{}

/// A token that no macro names stays.
pub fn others_stay()
    ensures { (bodies : Bodies) (on : Macros) (t : Token) (ts : List Token) → body_of bodies on t ≡ None → expansion bodies on (t ∷ ts) ≡ t ∷ expansion bodies on ts }
{}

/// A macro's name stays in the macro's own expansion.
pub fn own_name_stays()
    ensures { (bodies : Bodies) (on : Macros) (t : Token) → body_of bodies (without on t) t ≡ None }
{}

/// Tokens expand one after the other.
pub fn tokens_expand_alone()
    ensures { (bodies : Bodies) (on : Macros) (xs ys : List Token) → expansion bodies on (xs ++ ys) ≡ expansion bodies on xs ++ expansion bodies on ys }
{}

/// Of `A` defined as `B` and `B` as `A`, each expands to itself; `x` is no macro.
pub fn two_names()
    ensures { let a = Name 0 in let b = Name 1 in let x = Other 7 in
        expansion ((b ∷ []) ∷ (a ∷ []) ∷ []) (true ∷ true ∷ []) (a ∷ x ∷ b ∷ []) ≡ a ∷ x ∷ b ∷ [] }
{}

#[cfg(test)]
mod tests;
