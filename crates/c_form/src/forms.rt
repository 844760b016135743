//! Tokens.

ghost use Rattle.std.specs.Prelude.{◌≡◌, [], ◌∷◌, ◌++◌, OnOk, IfOk};
ghost use Rattle.c_literal.specs.Digits.{seen};
ghost use Rattle.c_form.specs.Forms.{is_number, is_character, is_string, between, text_with, byte_with, mark_with, token_of, spelled_token};

use crate::marks::{mark_of, spelling_of};
use c_literal::{between_quotes, character_constant, integer_constant, is_string_literal};
use c_text::{Kind, Lexeme};
use c_token::CToken;
use jf_base::List;
use std::alloc::{AllocError, Global};

fn is_number(spelling: &[u8]) -> bool
    ensures { result ≡ is_number spelling.now }
{
    match integer_constant(spelling) {
        None => false,
        Some(_) => true,
    }
}

fn is_character(content: &[u8]) -> bool
    ensures { result ≡ is_character content.now }
{
    match character_constant(content) {
        None => false,
        Some(_) => true,
    }
}

fn is_string(content: &[u8]) -> bool
    ensures { result ≡ is_string content.now }
{
    is_string_literal(content)
}

fn between(quote: u8, spelling: &[u8]) -> Option<&[u8]>
    ensures { between quote spelling.now ≡ seen (λ x. x.now) result }
{
    match between_quotes(quote, spelling) {
        None => None,
        Some(content) => Some(content),
    }
}

fn copied(alloc: Global, bytes: &[u8]) -> Result<List<u8>, AllocError>
    ensures { IfOk result (λ l. l ≡ bytes.now) }
{
    Ok(List::from_vec(bytes.to_vec(alloc)?))
}

fn text_with(alloc: Global, content: Option<&[u8]>) -> Result<Option<CToken>, AllocError>
    ensures { IfOk result (λ t. t ≡ text_with (seen (λ x. x.now) content.entry)) }
{
    match content {
        None => Ok(None),
        Some(content) => {
            if is_string(content) {
                Ok(Some(CToken::Text(copied(alloc, content)?)))
            } else {
                Ok(None)
            }
        }
    }
}

fn byte_with(alloc: Global, content: Option<&[u8]>) -> Result<Option<CToken>, AllocError>
    ensures { IfOk result (λ t. t ≡ byte_with (seen (λ x. x.now) content.entry)) }
{
    match content {
        None => Ok(None),
        Some(content) => {
            if is_character(content) {
                Ok(Some(CToken::Byte(copied(alloc, content)?)))
            } else {
                Ok(None)
            }
        }
    }
}

/// The token that a preprocessing token is converted to (ISO/IEC 9899:2011, 5.1.1.2p1). None where it has none of the forms of the grammar: a number
/// that is no integer constant in `unsigned long`, a literal with a prefix or an escape sequence of no form, `#`, `##`, `...`, or what is no token.
#[tactic(auto, unfolding(crate::specs::Forms::token_of))]
pub fn token_of(alloc: Global, lexeme: &Lexeme) -> Result<Option<CToken>, AllocError>
    ensures { IfOk result (λ t. t ≡ token_of lexeme.now.kind lexeme.now.spelling) }
{
    let spelling = lexeme.spelling.as_slice();
    match lexeme.kind {
        Kind::Name => Ok(Some(CToken::Id(copied(alloc, spelling)?))),
        Kind::Number => {
            if is_number(spelling) {
                Ok(Some(CToken::Number(copied(alloc, spelling)?)))
            } else {
                Ok(None)
            }
        }
        Kind::Character => byte_with(alloc, between(b'\'', spelling)),
        Kind::Text => text_with(alloc, between(b'"', spelling)),
        Kind::Mark => match mark_of(spelling) {
            None => Ok(None),
            Some(mark) => Ok(Some(CToken::Mark(mark))),
        },
        _ => Ok(None),
    }
}

fn put_quoted(out: &mut Vec<u8>, quote: u8, content: &[u8]) -> Result<(), AllocError>
    ensures { OnOk result (out.new.items ≡ out.old.items ++ quote ∷ (content.now ++ quote ∷ [])) }
{
    out.push(quote)?;
    out.extend_from_slice(content)?;
    out.push(quote)?;
    Ok(())
}

/// Puts the spelling of a token behind other bytes.
#[tactic(auto, unfolding(crate::specs::Forms::spelled_token))]
pub fn put_spelling(out: &mut Vec<u8>, token: &CToken) -> Result<(), AllocError>
    ensures { OnOk result (out.new.items ≡ out.old.items ++ spelled_token token.now) }
{
    match token {
        CToken::Id(spelling) => out.extend_from_slice(spelling.as_slice())?,
        CToken::Number(spelling) => out.extend_from_slice(spelling.as_slice())?,
        CToken::Text(content) => put_quoted(out, b'"', content.as_slice())?,
        CToken::Byte(content) => put_quoted(out, b'\'', content.as_slice())?,
        CToken::Mark(mark) => out.extend_from_slice(spelling_of(*mark))?,
    }
    Ok(())
}
