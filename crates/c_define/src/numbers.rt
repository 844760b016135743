//! Tokens and their numbers.

ghost use Rattle.std.specs.Prelude.{◌≡◌, Some, [], IfOk, ◌++◌, slice_index_or};
ghost use Rattle.c_define.specs.Expansion.{all_at};
ghost use Rattle.c_define.specs.Numbers.{number_of, token_at, IsIn, AreIn, AreNumbers, Wider};

use crate::names::Names;
use c_macros::Token;
use c_token::{CToken, Mark};
use jf_base::List;
use std::alloc::{AllocError, Global};

/// The number of a name, which is met here if it wasn't before.
pub fn number_of(alloc: Global, names: &mut Names, name: &[u8]) -> Result<usize, AllocError>
    ensures wider { Wider names.old [] names.new [] }
    ensures number { IfOk result (λ n. number_of names.new name.now ≡ Some n) }
{
    match names.find(name) {
        Some(number) => Ok(number),
        None => {
            let spelling = name.to_vec(alloc)?;
            let number = names.add(spelling)?;
            Ok(number)
        }
    }
}

// The number of a token; one that is no name gets a number of its own.
fn numbered(
    alloc: Global,
    names: &mut Names,
    others: &mut Vec<CToken>,
    token: CToken,
) -> Result<Token, AllocError>
    ensures wider { Wider names.old others.old.items names.new others.new.items }
    ensures number { IfOk result (λ t. IsIn names.new others.new.items t × (token_at names.new others.new.items t ≡ token)) }
{
    match token {
        CToken::Id(name) => Ok(Token::Name(number_of(alloc, names, name.as_slice())?)),
        other => {
            let number = others.len();
            others.push(other)?;
            Ok(Token::Other(number))
        }
    }
}

/// The numbers of tokens.
pub fn numbered_all(
    alloc: Global,
    names: &mut Names,
    others: &mut Vec<CToken>,
    tokens: Vec<CToken>,
) -> Result<Vec<Token>, AllocError>
    ensures wider { Wider names.old others.old.items names.new others.new.items }
    ensures numbers { IfOk result (λ v. AreNumbers names.new others.new.items tokens.items v.items) }
{
    let mut numbers = Vec::new(alloc);
    for token in tokens {
        numbers.push(numbered(alloc, names, others, token)?)?;
    }
    Ok(numbers)
}

fn copied(alloc: Global, spelling: &List<u8>) -> Result<List<u8>, AllocError>
    ensures { IfOk result (λ l. l ≡ spelling.now) }
{
    Ok(List::from_vec(spelling.as_slice().to_vec(alloc)?))
}

/// A copy of a token.
pub fn copied_token(alloc: Global, token: &CToken) -> Result<CToken, AllocError>
    ensures { IfOk result (λ t. t ≡ token.now) }
{
    match token {
        CToken::Id(spelling) => Ok(CToken::Id(copied(alloc, spelling)?)),
        CToken::Number(spelling) => Ok(CToken::Number(copied(alloc, spelling)?)),
        CToken::Text(spelling) => Ok(CToken::Text(copied(alloc, spelling)?)),
        CToken::Byte(spelling) => Ok(CToken::Byte(copied(alloc, spelling)?)),
        CToken::Mark(mark) => Ok(CToken::Mark(*mark)),
    }
}

/// The token with this number.
pub fn token_at(
    alloc: Global,
    names: &Names,
    others: &[CToken],
    token: Token,
) -> Result<CToken, AllocError>
    ensures { IfOk result (λ t. t ≡ token_at names.now others.now token) }
{
    match token {
        Token::Name(number) => Ok(CToken::Id(List::from_vec(names.name(number).to_vec(alloc)?))),
        Token::Other(number) => {
            if number < others.len() {
                copied_token(alloc, &others[number])
            } else {
                Ok(CToken::Mark(Mark::Comma))
            }
        }
    }
}
