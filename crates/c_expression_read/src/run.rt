//! Tokens of one kind side by side.

ghost use Rattle.std.specs.Prelude.{◌≡◌, IfOk};
ghost use Rattle.c_grammar.specs.Reading.{seen, texts_at, run_at, marks_at};
ghost use Rattle.c_expression_read.specs.Gives.{mark_at, text_at};

use c_grammar::Token;
use c_tree::{PointerMark, SpecifierWord};
use std::alloc::{AllocError, Global};

fn text_at(tokens: &[Token]) -> Option<(u32, &[Token])>
    ensures { text_at tokens.now ≡ seen (λ x. (x.0, x.1.now)) result }
{
    match tokens {
        [Token::Text(text), rest @ ..] => Some((*text, rest)),
        _ => None,
    }
}

/// The string literals that stand first, and what stands behind them.
pub fn texts(alloc: Global, tokens: &[Token]) -> Result<(Vec<u32>, &[Token]), AllocError>
    ensures { IfOk result (λ x. (x.0.items, x.1.now) ≡ texts_at tokens.now) }
{
    let mut texts = Vec::new(alloc);
    let mut rest = tokens;
    'texts: while let Some((text, after)) = text_at(rest) {
        texts.push(text)?;
        rest = after;
    }
    Ok((texts, rest))
}

fn mark_at(tokens: &[Token]) -> Option<(PointerMark, &[Token])>
    ensures { mark_at tokens.now ≡ seen (λ x. (x.0, x.1.now)) result }
{
    match tokens {
        [Token::Star, rest @ ..] => Some((PointerMark::Star, rest)),
        [Token::Word(SpecifierWord::Const), rest @ ..] => Some((PointerMark::Const, rest)),
        [Token::Restrict, rest @ ..] => Some((PointerMark::Restrict, rest)),
        _ => None,
    }
}

fn run(alloc: Global, tokens: &[Token]) -> Result<(Vec<PointerMark>, &[Token]), AllocError>
    ensures { IfOk result (λ x. (x.0.items, x.1.now) ≡ run_at tokens.now) }
{
    let mut marks = Vec::new(alloc);
    let mut rest = tokens;
    'marks: while let Some((mark, after)) = mark_at(rest) {
        marks.push(mark)?;
        rest = after;
    }
    Ok((marks, rest))
}

/// The stars and qualifiers before a declarator, of which the first is a star, and what stands behind them (ISO/IEC 9899:2011, 6.7.6).
#[tactic(auto, unfolding(c_grammar::specs::Reading::marks_at))]
pub fn marks(alloc: Global, tokens: &[Token]) -> Result<(Vec<PointerMark>, &[Token]), AllocError>
    ensures { IfOk result (λ x. (x.0.items, x.1.now) ≡ marks_at tokens.now) }
{
    match tokens {
        [Token::Star, ..] => run(alloc, tokens),
        _ => Ok((Vec::new(alloc), tokens)),
    }
}
