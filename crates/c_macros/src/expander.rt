//! Expanding a token.

ghost use Rattle.std.specs.Prelude.{◌≡◌, ℕ, ◌≤◌, ◌+◌, List, [], ◌∷◌, length, map, reverse, drop, slice_index_or, IfOk, IfSome, IfNone, MatchOption, true, false};
ghost use Rattle.c_macros.specs.Expansion.{body_of};
ghost use Rattle.c_macros.specs.Stack.{Steps, Expanded, texts};
ghost use Rattle.c_macros.specs.declared.token.Token.{Token};

use crate::table::{is_up, set, shut};
use crate::token::{Spanned, Token};
use jf_base::Place;
use std::alloc::{AllocError, Global};

// A macro that is being replaced, and how many tokens of its body were taken.
#[derive(Clone, Copy, Debug)]
struct Frame {
    name: usize,
    at: usize,
}

// The token of a body that stands there.
pub fn token_at(bodies: &[Vec<Token>], name: usize, at: usize) -> Option<Token>
    ensures within { IfSome result (λ t. at + 1 ≤ usize.MAX) }
    ensures token { let body = slice_index_or (texts bodies.now) name [] in MatchOption result (drop at body ≡ []) (λ t. drop at body ≡ t ∷ drop (at + 1) body) }
{
    if name < bodies.len() {
        let body = &bodies[name];
        if at < body.len() {
            Some(body[at])
        } else {
            None
        }
    } else {
        None
    }
}

// The name of a macro.
#[tactic(auto, unfolding(crate::specs::Expansion::body_of))]
fn macro_of(on: &[bool], token: Token) -> Option<usize>
    ensures none { (bodies : List (List Token)) → IfNone result (body_of bodies on.now token ≡ None) }
    ensures some { IfSome result (λ n. (token ≡ Token.Name n) × (slice_index_or on.now n false ≡ true)) }
{
    match token {
        Token::Name(name) => { if is_up(on, name) { Some(name) } else { None } }
        Token::Other(_) => None,
    }
}

// A token that is met: a macro is opened, and any other is put out where there is room.
fn step(
    on: &mut [bool],
    stack: &mut Vec<Frame>,
    out: &mut Vec<Spanned>,
    limit: usize,
    token: Token,
    place: Place,
) -> Result<bool, AllocError>
    ensures { IfOk result (λ fits. (bodies : List (List Token)) → Steps bodies limit token place fits on.old (reverse stack.old.items) out.old.items on.new (reverse stack.new.items) out.new.items) }
{
    match macro_of(on, token) {
        Some(name) => {
            shut(on, name);
            stack.push(Frame { name, at: 0 })?;
            Ok(true)
        }
        None => {
            if out.len() < limit {
                out.push(Spanned { token, place })?;
                Ok(true)
            } else {
                Ok(false)
            }
        }
    }
}

/// Puts out what a token expands to, or answers false where that is more than there is room for. Each token that is put out has the place that is
/// given. It takes as many steps as macros are replaced and tokens are put out.
pub fn expand(
    alloc: Global,
    bodies: &[Vec<Token>],
    on: &mut [bool],
    out: &mut Vec<Spanned>,
    limit: usize,
    token: Token,
    place: Place,
) -> Result<bool, AllocError>
    requires { length out.old.items ≤ limit }
    ensures { IfOk result (λ fits. Expanded (texts bodies.now) limit token place fits on.old out.old.items on.new out.new.items) }
{
    let mut stack = Vec::new(alloc);
    if !step(on, &mut stack, out, limit, token, place)? {
        return Ok(false);
    }
    while let Some(frame) = stack.pop() {
        match token_at(bodies, frame.name, frame.at) {
            None => set(on, frame.name, true),
            Some(next) => {
                stack.push(Frame {
                    name: frame.name,
                    at: frame.at + 1,
                })?;
                if !step(on, &mut stack, out, limit, next, place)? {
                    return Ok(false);
                }
            }
        }
    }
    Ok(true)
}
