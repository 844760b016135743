//! Expanding a token, where macros that expand to nothing are remembered.

ghost use Rattle.std.specs.Prelude.{◌≡◌, ◌≤◌, length, reverse, OnOk, IfOk, slice_set, if◌then◌else◌, true, ◌+◌, IsTrue};
ghost use Rattle.c_macros.specs.Expansion.{Bodies, Macros};
ghost use Rattle.c_macros.specs.Stack.{Expanded, texts};
ghost use Rattle.c_macros.specs.Remembering.{kind_at, Takes, wet, Remembers};
ghost use Rattle.c_macros.specs.Keeping.{AreTracked};

use crate::expander::token_at;
use crate::table::{is_up, set, shut};
use crate::token::{Spanned, Token};
use jf_base::Place;
use std::alloc::{AllocError, Global};

// A macro that is being replaced, how many tokens of its body were taken, and whether they have given nothing so far.
#[derive(Clone, Copy, Debug)]
struct Level {
    name: usize,
    at: usize,
    dry: bool,
}

#[derive(Clone, Copy, Debug)]
enum Kind {
    Void,
    Open(usize),
    Plain,
}

fn kind_of(on: &[bool], void: &[bool], token: Token) -> Kind
    ensures { result ≡ kind_at on.now void.now token }
{
    match token {
        Token::Name(name) => {
            if is_up(void, name) {
                Kind::Void
            } else if is_up(on, name) {
                Kind::Open(name)
            } else {
                Kind::Plain
            }
        }
        Token::Other(_) => Kind::Plain,
    }
}

// A replacement that ends: it gave nothing, or the one around it gave something.
fn close(
    on: &mut [bool],
    void: &mut [bool],
    remembered: &mut Vec<usize>,
    stack: &mut Vec<Level>,
    level: Level,
) -> Result<(), AllocError>
    ensures macros { on.new ≡ slice_set on.old level.name true }
    ensures void { OnOk result (void.new ≡ (if level.dry then slice_set void.old level.name true else void.old)) }
    ensures tracked { AreTracked void.old remembered.old.items → AreTracked void.new remembered.new.items }
    ensures stack { OnOk result (reverse stack.new.items ≡ (if level.dry then reverse stack.old.items else wet (reverse stack.old.items))) }
{
    set(on, level.name, true);
    if level.dry {
        remembered.push(level.name)?;
        set(void, level.name, true);
        Ok(())
    } else {
        match stack.pop() {
            None => Ok(()),
            Some(parent) => {
                stack.push(Level {
                    name: parent.name,
                    at: parent.at,
                    dry: false,
                })?;
                Ok(())
            }
        }
    }
}

// The next token of a replacement.
fn take(
    on: &mut [bool],
    void: &[bool],
    stack: &mut Vec<Level>,
    out: &mut Vec<Spanned>,
    limit: usize,
    level: Level,
    token: Token,
    place: Place,
) -> Result<bool, AllocError>
    requires { level.at + 1 ≤ usize.MAX }
    ensures { IfOk result (λ fits. Takes (kind_at on.old void.now token) fits limit token place level on.old (reverse stack.old.items) out.old.items on.new (reverse stack.new.items) out.new.items) }
{
    match kind_of(on, void, token) {
        Kind::Void => {
            stack.push(Level {
                name: level.name,
                at: level.at + 1,
                dry: level.dry,
            })?;
            Ok(true)
        }
        Kind::Open(name) => {
            shut(on, name);
            stack.push(Level {
                name: level.name,
                at: level.at + 1,
                dry: level.dry,
            })?;
            stack.push(Level {
                name,
                at: 0,
                dry: true,
            })?;
            Ok(true)
        }
        Kind::Plain => {
            if out.len() < limit {
                stack.push(Level {
                    name: level.name,
                    at: level.at + 1,
                    dry: false,
                })?;
                out.push(Spanned { token, place })?;
                Ok(true)
            } else {
                Ok(false)
            }
        }
    }
}

// As `expand`, where macros that were seen to give nothing are passed over, so that no replacement that gives nothing is made twice. What is
// remembered holds until a macro is defined or undefined; `remembered` has each name whose flag is up.
pub fn expand_quick(
    alloc: Global,
    bodies: &[Vec<Token>],
    on: &mut [bool],
    void: &mut [bool],
    remembered: &mut Vec<usize>,
    out: &mut Vec<Spanned>,
    limit: usize,
    token: Token,
    place: Place,
) -> Result<bool, AllocError>
    requires room { length out.old.items ≤ limit }
    requires names { length on.old ≤ length void.old }
    requires void { Remembers (texts bodies.now) on.old void.old }
    requires tracked { AreTracked void.old remembered.old.items }
    ensures tokens { IfOk result (λ fits. Expanded (texts bodies.now) limit token place fits on.old out.old.items on.new out.new.items) }
    ensures void { IfOk result (λ fits. IsTrue fits → Remembers (texts bodies.now) on.new void.new) }
    ensures tracked { AreTracked void.new remembered.new.items }
{
    let mut stack = Vec::new(alloc);
    match kind_of(on, void, token) {
        Kind::Void => return Ok(true),
        Kind::Plain => {
            if out.len() < limit {
                out.push(Spanned { token, place })?;
                return Ok(true);
            }
            return Ok(false);
        }
        Kind::Open(name) => {
            shut(on, name);
            stack.push(Level {
                name,
                at: 0,
                dry: true,
            })?;
        }
    }
    while let Some(level) = stack.pop() {
        match token_at(bodies, level.name, level.at) {
            None => close(on, void, remembered, &mut stack, level)?,
            Some(next) => {
                if !take(on, void, &mut stack, out, limit, level, next, place)? {
                    return Ok(false);
                }
            }
        }
    }
    Ok(true)
}
