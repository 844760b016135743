//! The text of a program unit.

ghost use Rattle.std.specs.Prelude.{◌≡◌, [], IfOk};
ghost use Rattle.f_tree.specs.Units.{unit};
ghost use Rattle.f_tree.specs.Text.{text_of};

use crate::lexeme::Lexemes;
use crate::page::text_of;
use crate::spell::Spell;
use crate::unit::Unit;
use jf_base::Memory;
use std::alloc::{AllocError, Global};

fn spelled(alloc: Global, u: &Unit) -> Result<Lexemes, AllocError>
    ensures { IfOk result (λ all. all ≡ unit u.now []) }
{
    let mut all = Lexemes::new(alloc);
    u.put(&mut all)?;
    Ok(all)
}

/// The text of a program unit in free source form: the tokens that its tree stands for, with a blank between two and a line for each statement.
/// A line that would have more than 132 characters goes on behind `&`, unless a single token other than a text is longer than that.
pub fn print_unit(alloc: Global, u: &Unit) -> Result<Vec<u8>, Memory>
    ensures { IfOk result (λ text. text.items ≡ text_of (unit u.now [])) }
{
    let all = spelled(alloc, u)?.into_vec();
    let text = text_of(alloc, &all)?;
    Ok(text)
}
