//! Definitions of macros.

ghost use Rattle.std.specs.Prelude.{◌≡◌, ◌≤◌, None, is_some, length, IfOk, OnOk, IsTrue, slice_index_or, [], ◌++◌, map};
ghost use Rattle.jf_base.specs.declared.place.Place.{Place};
ghost use Rattle.c_macros.specs.Keeping.{put};
ghost use Rattle.c_define.specs.Definitions.{Macro, no_macros, defined, undefined, is_same_token, same_written};
ghost use Rattle.c_define.specs.Expansion.{Expanded, seen};
ghost use Rattle.c_define.specs.Numbers.{number_of, macros_of, put_out};

use crate::names::Names;
use crate::numbers::{number_of, numbered_all, token_at};
use c_macros::{MacroTable, Spanned, Token};
use c_token::{CSpanned, CToken};
use jf_base::{List, Place};
use std::alloc::{AllocError, Global};
use std::marker::Model;

/// A token of a replacement list as it was written: its spelling, and whether white space stands before it.
#[derive(Drop, Debug)]
pub struct Written {
    pub spelling: List<u8>,
    pub after_blank: bool,
}

/// The object macros of a text.
#[derive(Drop)]
pub struct Definitions {
    names: Names,
    others: Vec<CToken>,
    written: Vec<List<Written>>,
    macros: MacroTable,
}

impl Model for Definitions {
    ghost use Rattle.c_define.specs.Numbers.{Tables, AreTables};

    ghost Value = { Tables };

    ghost view = { λ d. record { names = d.names; others = d.others.items; written = d.written.items; state = d.macros } };

    ghost invariant = { λ d. AreTables d.names d.others.items d.macros };
}

fn is_same_token(one: &Written, other: &Written) -> bool
    ensures { result ≡ is_same_token one.now other.now }
{
    one.spelling.as_slice() == other.spelling.as_slice() && one.after_blank == other.after_blank
}

// The tokens are written in the same way.
#[tactic(auto, unfolding(crate::specs::Definitions::same_written))]
fn same_written(a: &[Written], b: &[Written]) -> bool
    ensures { result ≡ same_written a.now b.now }
{
    let mut ones = a;
    let mut others = b;
    'tokens: while let Some((one, behind_one)) = ones.split_first() {
        match others.split_first() {
            None => return false,
            Some((other, behind_other)) => {
                if !is_same_token(one, other) {
                    return false;
                }
                ones = behind_one;
                others = behind_other;
            }
        }
    }
    others.is_empty()
}

// How the replacement list with this number was written.
fn written_at(written: &[List<Written>], number: usize) -> &[Written]
    ensures { result.now ≡ slice_index_or written.now number [] }
{
    if number < written.len() {
        written[number].as_slice()
    } else {
        &[]
    }
}

// Puts a list there, with empty ones before it where there are too few.
fn put_written(
    alloc: Global,
    written: &mut Vec<List<Written>>,
    number: usize,
    tokens: List<Written>,
) -> Result<(), AllocError>
    ensures { OnOk result (written.new.items ≡ put written.old.items number tokens []) }
{
    while written.len() <= number {
        written.push(List::from_vec(Vec::new(alloc)))?;
    }
    written[number] = tokens;
    Ok(())
}

impl Definitions {
    /// No macro.
    pub fn new(alloc: Global) -> Definitions
        ensures { macros_of result ≡ no_macros }
    {
        Definitions {
            names: Names::new(alloc),
            others: Vec::new(alloc),
            written: Vec::new(alloc),
            macros: MacroTable::new(alloc),
        }
    }

    /// The name is a macro.
    pub fn is_macro(&self, name: &[u8]) -> bool
        ensures { result ≡ is_some ((macros_of self.now).of name.now) }
    {
        match self.names.find(name) {
            None => false,
            Some(number) => self.macros.is_macro(number),
        }
    }

    /// Whether the macro of this name has a replacement list that was written so (ISO/IEC 9899:2011, 6.10.3p1); none where the name is no macro.
    pub fn is_same(&self, name: &[u8], written: &[Written]) -> Option<bool>
        ensures { result ≡ seen (λ m. same_written m.written written.now) ((macros_of self.now).of name.now) }
    {
        match self.names.find(name) {
            None => None,
            Some(number) => {
                if self.macros.is_macro(number) {
                    Some(same_written(written_at(&self.written, number), written))
                } else {
                    None
                }
            }
        }
    }

    /// Makes a name a macro that was none.
    pub fn define(
        &mut self,
        alloc: Global,
        name: &[u8],
        body: Vec<CToken>,
        written: List<Written>,
    ) -> Result<(), AllocError>
        requires { (macros_of self.old).of name.now ≡ None }
        ensures { OnOk result (macros_of self.new ≡ defined (macros_of self.old) name.now (record { body = body.items; written = written })) }
    {
        let number = number_of(alloc, &mut self.names, name)?;
        let tokens = numbered_all(alloc, &mut self.names, &mut self.others, body)?;
        put_written(alloc, &mut self.written, number, written)?;
        self.macros.define(alloc, number, tokens)?;
        Ok(())
    }

    /// Makes a name no macro.
    pub fn undefine(&mut self, name: &[u8])
        ensures { macros_of self.new ≡ undefined (macros_of self.old) name.now }
    {
        match self.names.find(name) {
            None => {}
            Some(number) => self.macros.undefine(number),
        }
    }

    /// Puts out what a name expands to (ISO/IEC 9899:2011, 6.10.3.4), or answers false where that is more than there is room for. Each token that is
    /// put out has the place that is given. It takes as many steps as the replacement lists that are gone through have tokens, where a macro that was seen
    /// to expand to nothing is passed over, and as the tokens that are put out have bytes. Nothing is said of the macros where it answers false.
    pub fn expand(
        &mut self,
        alloc: Global,
        name: &[u8],
        place: Place,
        out: &mut Vec<CSpanned>,
        limit: usize,
    ) -> Result<bool, AllocError>
        requires { length out.old.items ≤ limit }
        ensures macros { IfOk result (λ fits. IsTrue fits → self.new ≡ self.old) }
        ensures tokens { IfOk result (λ fits. Expanded (macros_of self.old) name.now place limit fits out.old.items out.new.items) }
    {
        match self.names.find(name) {
            None => {
                if out.len() >= limit {
                    return Ok(false);
                }
                let spelling = name.to_vec(alloc)?;
                out.push(CSpanned {
                    token: CToken::Id(List::from_vec(spelling)),
                    place,
                })?;
                Ok(true)
            }
            Some(number) => {
                let mut numbers = Vec::new(alloc);
                let room = limit - out.len();
                if !self
                    .macros
                    .expand(alloc, &mut numbers, room, Token::Name(number), place)?
                {
                    return Ok(false);
                }
                put_out(alloc, &self.names, &self.others, &numbers, out)?;
                Ok(true)
            }
        }
    }
}

// Puts out the tokens with these numbers.
fn put_out(
    alloc: Global,
    names: &Names,
    others: &[CToken],
    numbers: &[Spanned],
    out: &mut Vec<CSpanned>,
) -> Result<(), AllocError>
    ensures { OnOk result (out.new.items ≡ out.old.items ++ map (put_out names.now others.now) numbers.now) }
{
    for number in numbers {
        let token = token_at(alloc, names, others, number.token)?;
        out.push(CSpanned {
            token,
            place: number.place,
        })?;
    }
    Ok(())
}
