//! External declarations made of their parts.

ghost use Rattle.std.specs.Prelude.{◌≡◌, ◌<◌, ◌^◌, ◌-◌, sum, drop, take, map};
ghost use Rattle.c_statement_read.specs.Views.{view_item, items_of};
ghost use Rattle.c_expression_read.specs.Views.{view_typed};
ghost use Rattle.c_external_read.specs.Views.{view_external, defines};
ghost use Rattle.c_external_read.specs.Counts.{IsCounted, tokens_in};

use c_tree::{BlockItem, External, Typed};
use jf_base::List;

fn total(counts: &[u32]) -> u32
    requires { sum counts.now < 2 ^ 32 }
    ensures { result ≡ sum counts.now }
{
    counts.iter().sum()
}

fn front(counts: &[u32], words: usize) -> &[u32]
    ensures { result.now ≡ take words counts.now }
{
    counts.split_at(counts.len().min(words)).0
}

fn behind(counts: &[u32], words: usize) -> &[u32]
    ensures { result.now ≡ drop words counts.now }
{
    counts.split_at(counts.len().min(words)).1
}

// How many tokens so many words have, the first of which has this number.
fn tokens_in(counts: &[u32], first: usize, words: usize) -> u32
    requires { sum counts.now < 2 ^ 32 }
    ensures { result ≡ tokens_in counts.now first words }
{
    total(front(behind(counts, first), words))
}

/// A function's definition from its specifiers and its declarator and its body. It has the tokens of its words, of which `end` is the number behind the
/// last.
pub fn function(first: Typed, body: Vec<BlockItem>, counts: &[u32], end: u32) -> External
    requires { sum counts.now < 2 ^ 32 }
    ensures external { view_external result ≡ defines (view_typed first) (items_of (map view_item body.items)) }
    ensures counted { IsCounted counts.now first.at (end - first.at) result }
{
    let Typed {
        specifiers,
        declarator,
        at,
    } = first;
    let words = end.saturating_sub(at);
    External::Function {
        specifiers,
        declarator,
        body: List::from_vec(body),
        tokens: tokens_in(counts, at as usize, words as usize),
        at,
    }
}
