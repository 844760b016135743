//! What has tokens, and lists of it.

ghost use Rattle.std.specs.Prelude.{◌≡◌, OnOk, map};
ghost use Rattle.f_tree.specs.Lexemes.{each, listed, behind_commas, name_of};

use crate::lexeme::Lexemes;
use crate::name::Name;
use f_lex::Mark;
use std::alloc::AllocError;

/// A tree that stands for tokens.
pub trait Spell {
    ghost use Rattle.std.specs.Prelude.{◌≡◌, OnOk};
    ghost use Rattle.f_tree.specs.Lexemes.{Front};

    /// The tokens in front of a rest.
    ghost spelled: { Self → Front };

    /// Puts the tokens in front.
    fn put(&self, out: &mut Lexemes) -> Result<(), AllocError>
        ensures { OnOk result (out.new ≡ spelled self.now out.old) };
}

impl Spell for Name {
    ghost use Rattle.f_tree.specs.Lexemes.{name_of};

    ghost spelled = { name_of };

    fn put(&self, out: &mut Lexemes) -> Result<(), AllocError> {
        out.name(self)
    }
}

/// Puts a list with commas between in front.
pub fn put_listed<T: Spell>(out: &mut Lexemes, items: &[T]) -> Result<(), AllocError>
    ensures { OnOk result (out.new ≡ listed (map T.spelled items.now) out.old) }
{
    let mut left = items.len();
    while left > 0 {
        left -= 1;
        items[left].put(out)?;
        out.comma_behind(&items[..left])?;
    }
    Ok(())
}

/// Puts a list with a comma before each in front.
pub fn put_behind_commas<T: Spell>(out: &mut Lexemes, items: &[T]) -> Result<(), AllocError>
    ensures { OnOk result (out.new ≡ behind_commas (map T.spelled items.now) out.old) }
{
    let mut left = items.len();
    while left > 0 {
        left -= 1;
        items[left].put(out)?;
        out.mark(Mark::Comma)?;
    }
    Ok(())
}

/// Puts a list with nothing between in front.
pub fn put_each<T: Spell>(out: &mut Lexemes, items: &[T]) -> Result<(), AllocError>
    ensures { OnOk result (out.new ≡ each (map T.spelled items.now) out.old) }
{
    let mut left = items.len();
    while left > 0 {
        left -= 1;
        items[left].put(out)?;
    }
    Ok(())
}
