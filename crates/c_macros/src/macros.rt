//! A table of macros.

ghost use Rattle.std.specs.Prelude.{◌≡◌, ℕ, ◌≤◌, ◌<◌, ◌+◌, max, List, [], length, OnOk, OnErr, IfOk, false, slice_index_or, slice_set};
ghost use Rattle.c_macros.specs.Expansion.{Bodies, Macros};
ghost use Rattle.c_macros.specs.Stack.{Expanded, texts};
ghost use Rattle.c_macros.specs.Keeping.{State, put, defined, undefined, AreTracked, AreDown};
ghost use Rattle.c_macros.specs.Remembering.{Remembers};
ghost use Rattle.c_macros.specs.declared.token.Token.{Token};

use crate::quick::expand_quick;
use crate::table::{is_up, set};
use crate::token::{Spanned, Token};
use jf_base::Place;
use std::alloc::{AllocError, Global};
use std::marker::Model;

/// Macros by the numbers of their names, each with its body. A name that was a macro and is none keeps its body.
#[derive(Drop)]
pub struct MacroTable {
    bodies: Vec<Vec<Token>>,
    on: Vec<bool>,
    // Flags of macros that were seen to expand to nothing, and the names whose flags may be up.
    void: Vec<bool>,
    remembered: Vec<usize>,
}

impl Model for MacroTable {
    ghost use Rattle.c_macros.specs.Stack.{texts};
    ghost use Rattle.c_macros.specs.Keeping.{State, Keeps};

    ghost Value = { State };

    ghost view = { λ m. record { bodies = texts m.bodies.items; on = m.on.items } };

    ghost invariant = { λ m. Keeps (texts m.bodies.items) m.on.items m.void.items m.remembered.items };
}

// Takes all flags down.
fn forget(void: &mut [bool], remembered: &mut Vec<usize>)
    requires { AreTracked void.old remembered.old.items }
    ensures down { AreDown void.new }
{
    while let Some(name) = remembered.pop() {
        set(void, name, false);
    }
}

// Takes all flags down where that of the name is up: where it is down, no remembered macro has the name in its body, and what is remembered stays right
// whatever becomes of the name.
fn forget_with(void: &mut [bool], remembered: &mut Vec<usize>, name: usize)
    requires { AreTracked void.old remembered.old.items }
    ensures tracked { AreTracked void.new remembered.new.items }
    ensures down { slice_index_or void.new name false ≡ false }
    ensures right { (bodies : Bodies) (on : Macros) → Remembers bodies on void.old → Remembers bodies on void.new }
{
    if is_up(void, name) {
        forget(void, remembered);
    }
}

// Makes room for the flag of a name, which is down where it wasn't there.
fn make_room(flags: &mut Vec<bool>, name: usize) -> Result<(), AllocError>
    ensures same { (n : ℕ) → slice_index_or flags.new.items n false ≡ slice_index_or flags.old.items n false }
    ensures longer { length flags.old.items ≤ length flags.new.items }
    ensures room { OnOk result (name < length flags.new.items) }
{
    while flags.len() <= name {
        flags.push(false)?;
    }
    Ok(())
}

// Puts a flag there, with lowered ones before it where there are too few.
fn put_flag(flags: &mut Vec<bool>, name: usize, up: bool) -> Result<(), AllocError>
    ensures size { length flags.new.items ≤ max (length flags.old.items) (name + 1) }
    ensures same { OnErr result ((n : ℕ) → slice_index_or flags.new.items n false ≡ slice_index_or flags.old.items n false) }
    ensures value { OnOk result (flags.new.items ≡ put flags.old.items name up false) }
{
    while flags.len() <= name {
        flags.push(false)?;
    }
    flags[name] = up;
    Ok(())
}

// Makes room for the body of a name, which is empty where it wasn't there.
fn make_room_for_body(
    alloc: Global,
    bodies: &mut Vec<Vec<Token>>,
    name: usize,
) -> Result<(), AllocError>
    ensures same { (n : ℕ) → slice_index_or (texts bodies.new.items) n [] ≡ slice_index_or (texts bodies.old.items) n [] }
    ensures room { OnOk result (name < length bodies.new.items) }
    ensures value { OnOk result ((body : List Token) → slice_set (texts bodies.new.items) name body ≡ put (texts bodies.old.items) name body []) }
{
    while bodies.len() <= name {
        bodies.push(Vec::new(alloc))?;
    }
    Ok(())
}

impl MacroTable {
    /// No macro.
    pub fn new(alloc: Global) -> MacroTable
        ensures { result ≡ record { bodies = []; on = [] } }
    {
        MacroTable {
            bodies: Vec::new(alloc),
            on: Vec::new(alloc),
            void: Vec::new(alloc),
            remembered: Vec::new(alloc),
        }
    }

    /// The name is a macro.
    pub fn is_macro(&self, name: usize) -> bool
        ensures { result ≡ slice_index_or self.now.on name false }
    {
        is_up(&self.on, name)
    }

    /// The tokens of the body that the name has or had.
    pub fn body(&self, name: usize) -> &[Token]
        ensures { result.now ≡ slice_index_or self.now.bodies name [] }
    {
        if name < self.bodies.len() {
            &self.bodies[name]
        } else {
            &[]
        }
    }

    /// Makes the name a macro with this body.
    pub fn define(&mut self, alloc: Global, name: usize, body: Vec<Token>) -> Result<(), AllocError>
        ensures value { OnOk result (self.new ≡ defined self.old name body.items) }
        ensures size { length self.new.on ≤ max (length self.old.on) (name + 1) }
        ensures err { OnErr result ((n : ℕ) → slice_index_or self.new.bodies n [] ≡ slice_index_or self.old.bodies n []) }
    {
        forget_with(&mut self.void, &mut self.remembered, name);
        make_room(&mut self.void, name)?;
        make_room_for_body(alloc, &mut self.bodies, name)?;
        put_flag(&mut self.on, name, true)?;
        self.bodies[name] = body;
        Ok(())
    }

    /// Makes the name no macro.
    pub fn undefine(&mut self, name: usize)
        ensures { self.new ≡ undefined self.old name }
    {
        forget_with(&mut self.void, &mut self.remembered, name);
        set(&mut self.on, name, false);
    }

    /// Puts out what a token expands to, or answers false where that is more than there is room for. Each token that is put out has the place that is
    /// given. It takes as many steps as the replacement lists that are gone through have tokens, and a macro that was seen to expand to nothing is
    /// replaced no second time until one that was seen so is defined or undefined.
    pub fn expand(
        &mut self,
        alloc: Global,
        out: &mut Vec<Spanned>,
        limit: usize,
        token: Token,
        place: Place,
    ) -> Result<bool, AllocError>
        requires { length out.old.items ≤ limit }
        ensures bodies { self.new.bodies ≡ self.old.bodies }
        ensures size { length self.new.on ≡ length self.old.on }
        ensures tokens { IfOk result (λ fits. Expanded self.old.bodies limit token place fits self.old.on out.old.items self.new.on out.new.items) }
    {
        match expand_quick(
            alloc,
            &self.bodies,
            &mut self.on,
            &mut self.void,
            &mut self.remembered,
            out,
            limit,
            token,
            place,
        ) {
            Ok(true) => Ok(true),
            Ok(false) => {
                forget(&mut self.void, &mut self.remembered);
                Ok(false)
            }
            Err(error) => {
                forget(&mut self.void, &mut self.remembered);
                Err(error)
            }
        }
    }
}
