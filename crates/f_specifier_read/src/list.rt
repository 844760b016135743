//! Trees that are read one after the other.

ghost use Rattle.std.specs.Prelude.{◌≡◌, ◌∷◌, length, map};
ghost use Rattle.f_grammar.specs.Reading.{name_at};
ghost use Rattle.f_declaration_grammar.specs.Listing.{behind_at, listed_at};
ghost use Rattle.f_expr_read.specs.Gives.{Gives, behind};
ghost use Rattle.f_expr_read.specs.Views.{tokens_of};

use crate::word::name;
use f_expr_read::{ReadError, comma_at};
use f_lex::Spanned;
use f_tree::Name;
use jf_base::List;
use std::alloc::Global;

/// A tree that is read from the tokens that stand first.
pub trait Parse: Drop {
    ghost use Rattle.std.specs.Prelude.{List};
    ghost use Rattle.f_lex.specs.declared.token.Token.{Token};
    ghost use Rattle.f_grammar.specs.Reading.{Read};
    ghost use Rattle.f_expr_read.specs.Gives.{Gives};
    ghost use Rattle.f_expr_read.specs.Views.{tokens_of};

    /// A tree without its places.
    ghost Seen: { Type 0 };

    ghost seen: { Self → Seen };

    /// What the grammar reads.
    ghost one: { List Token → Read Seen };

    /// The tree that stands first, and the tokens behind it. `Form` says that none stands there.
    fn parse(alloc: Global, tokens: &[Spanned]) -> Result<(Self, &[Spanned]), ReadError>
        ensures { Gives (λ x. (seen x.0, tokens_of x.1.now)) result (one (tokens_of tokens.now)) };
}

impl Parse for Name {
    ghost use Rattle.std.specs.Prelude.{List, ℕ};
    ghost use Rattle.f_grammar.specs.Reading.{name_at};
    ghost use Rattle.f_declared.specs.Views.{view_name};

    ghost Seen = { List ℕ };

    ghost seen = { view_name };

    ghost one = { name_at };

    fn parse(alloc: Global, tokens: &[Spanned]) -> Result<(Name, &[Spanned]), ReadError> {
        name(alloc, tokens)
    }
}

/// Trees behind those that are there, each with a comma before it.
pub fn more<T: Parse>(
    items: List<T>,
    alloc: Global,
    tokens: &[Spanned],
) -> Result<(List<T>, &[Spanned]), ReadError>
    ensures { Gives (λ x. (map T.seen x.0, tokens_of x.1.now)) result (behind (λ y ys. y ∷ ys) (map T.seen items) (behind_at T.one (length tokens.now) (tokens_of tokens.now))) }
{
    let mut all = items;
    let mut rest = tokens;
    for _ in 0..tokens.len() {
        match comma_at(rest) {
            None => return Ok((all, rest)),
            Some((_, after)) => {
                let (item, after) = T::parse(alloc, after)?;
                all.push(item)?;
                rest = after;
            }
        }
    }
    Ok((all, rest))
}

/// Trees with a comma before each.
#[tactic(auto, using(crate::proofs::Lists::behind_nothing))]
pub fn behind_commas<T: Parse>(
    alloc: Global,
    tokens: &[Spanned],
) -> Result<(List<T>, &[Spanned]), ReadError>
    ensures { Gives (λ x. (map T.seen x.0, tokens_of x.1.now)) result (behind_at T.one (length tokens.now) (tokens_of tokens.now)) }
{
    more(List::from_vec(Vec::new(alloc)), alloc, tokens)
}

/// One tree at least, with commas between them.
#[tactic(auto, unfolding(f_declaration_grammar::specs::Listing::listed_at))]
pub fn listed<T: Parse>(
    alloc: Global,
    tokens: &[Spanned],
) -> Result<(List<T>, &[Spanned]), ReadError>
    ensures { Gives (λ x. (map T.seen x.0, tokens_of x.1.now)) result (listed_at T.one (tokens_of tokens.now)) }
{
    let (first, rest) = T::parse(alloc, tokens)?;
    let mut items = List::from_vec(Vec::new(alloc));
    items.push(first)?;
    more(items, alloc, rest)
}
