//! Tokens in front of a rest.

ghost use Rattle.std.specs.Prelude.{◌≡◌, ◌∷◌, [], reverse, IfOk, OnOk, None, Some};
ghost use Rattle.f_tree.specs.Lexemes.{mark_of, placed_mark, word_of, placed_word, name_of, lexeme, key_of, placed_key, name_key, when, comma_behind, statement_end};
ghost use Rattle.f_lex.specs.declared.token.Token.TheVariants as token;

use crate::name::Name;
use f_lex::{Kind, Mark, Token};
use jf_base::{List, Place};
use std::alloc::{AllocError, Global};
use std::marker::Model;

/// A token, and its place where a tree keeps it.
#[derive(Drop)]
pub struct Lexeme {
    pub token: Token,
    pub place: Option<Place>,
}

/// Lexemes, to which others are added in front. They lie from the last to the first.
#[derive(Drop)]
pub struct Lexemes {
    backward: Vec<Lexeme>,
    alloc: Global,
}

impl Model for Lexemes {
    ghost use Rattle.std.specs.Prelude.{List, reverse};
    ghost use Rattle.f_tree.specs.declared.lexeme.Lexeme.{Lexeme};

    ghost Value = { List Lexeme };

    ghost view = { λ l. reverse l.backward.items };
}

/// A copy of a token's bytes.
pub fn copy_bytes(alloc: Global, bytes: &List<u8>) -> Result<List<u8>, AllocError>
    ensures { IfOk result (λ copy. copy ≡ bytes.now) }
{
    let mut copy = Vec::new(alloc);
    copy.extend_from_slice(bytes.as_slice())?;
    Ok(List::from_vec(copy))
}

/// A copy of a kind.
pub fn copy_kind(alloc: Global, kind: &Option<Kind>) -> Result<Option<Kind>, AllocError>
    ensures { IfOk result (λ copy. copy ≡ kind.now) }
{
    Ok(match kind {
        None => None,
        Some(Kind::Number(digits)) => Some(Kind::Number(copy_bytes(alloc, digits)?)),
        Some(Kind::Name(name)) => Some(Kind::Name(copy_bytes(alloc, name)?)),
    })
}

impl Lexemes {
    /// No lexemes.
    pub fn new(alloc: Global) -> Lexemes
        ensures { result ≡ [] }
    {
        Lexemes {
            backward: Vec::new(alloc),
            alloc,
        }
    }

    /// The lexemes from the first to the last.
    pub fn into_vec(self) -> Vec<Lexeme>
        ensures { result.items ≡ self }
    {
        let mut all = self.backward;
        all.reverse();
        all
    }

    /// Puts a token in front.
    fn put(&mut self, token: Token, place: Option<Place>) -> Result<(), AllocError>
        ensures { OnOk result (self.new ≡ lexeme token place self.old) }
    {
        self.backward.push(Lexeme { token, place })?;
        Ok(())
    }

    /// Puts a mark in front.
    pub fn mark(&mut self, mark: Mark) -> Result<(), AllocError>
        ensures { OnOk result (self.new ≡ mark_of mark self.old) }
    {
        self.put(Token::Mark(mark), None)
    }

    /// Puts a mark with its place in front.
    pub fn placed_mark(&mut self, mark: Mark, place: Place) -> Result<(), AllocError>
        ensures { OnOk result (self.new ≡ placed_mark mark place self.old) }
    {
        self.put(Token::Mark(mark), Some(place))
    }

    /// Puts a keyword in front.
    pub fn word(&mut self, word: &str) -> Result<(), AllocError>
        ensures { OnOk result (self.new ≡ word_of word.now self.old) }
    {
        let mut bytes = Vec::new(self.alloc);
        bytes.extend_from_slice(word.as_bytes())?;
        self.put(Token::Name(List::from_vec(bytes)), None)
    }

    /// Puts a keyword with its place in front.
    pub fn placed_word(&mut self, word: &str, place: Place) -> Result<(), AllocError>
        ensures { OnOk result (self.new ≡ placed_word word.now place self.old) }
    {
        let mut bytes = Vec::new(self.alloc);
        bytes.extend_from_slice(word.as_bytes())?;
        self.put(Token::Name(List::from_vec(bytes)), Some(place))
    }

    /// Puts a name in front.
    pub fn name(&mut self, name: &Name) -> Result<(), AllocError>
        ensures { OnOk result (self.new ≡ name_of name.now self.old) }
    {
        let bytes = copy_bytes(self.alloc, &name.bytes)?;
        self.put(Token::Name(bytes), Some(name.place))
    }

    /// Puts a name and `=` in front, where there is one.
    pub fn name_key(&mut self, keyword: &Option<Name>) -> Result<(), AllocError>
        ensures { OnOk result (self.new ≡ name_key keyword.now self.old) }
    {
        match keyword {
            None => Ok(()),
            Some(name) => {
                self.mark(Mark::Assign)?;
                self.name(name)?;
                Ok(())
            }
        }
    }

    /// Puts a keyword and `=` in front, where it has a place.
    pub fn placed_key(&mut self, word: &str, place: Option<Place>) -> Result<(), AllocError>
        ensures { OnOk result (self.new ≡ placed_key word.now place self.old) }
    {
        match place {
            None => Ok(()),
            Some(place) => {
                self.mark(Mark::Assign)?;
                self.placed_word(word, place)?;
                Ok(())
            }
        }
    }

    /// Puts a keyword and `=` in front, where it is there.
    pub fn key(&mut self, word: &str, is_there: bool) -> Result<(), AllocError>
        ensures { OnOk result (self.new ≡ when is_there (key_of word.now) self.old) }
    {
        if is_there {
            self.mark(Mark::Assign)?;
            self.word(word)?;
        }
        Ok(())
    }

    /// Puts a comma in front, where something stands before it.
    pub fn comma_behind<T>(&mut self, before: &[T]) -> Result<(), AllocError>
        ensures { OnOk result (self.new ≡ comma_behind before.now self.old) }
    {
        match before {
            [] => Ok(()),
            [_, ..] => {
                self.mark(Mark::Comma)?;
                Ok(())
            }
        }
    }

    /// Puts the end of a statement in front.
    pub fn statement_end(&mut self) -> Result<(), AllocError>
        ensures { OnOk result (self.new ≡ statement_end self.old) }
    {
        self.put(Token::End, None)
    }

    /// Puts an integer literal constant in front.
    pub fn number(
        &mut self,
        digits: &List<u8>,
        kind: &Option<Kind>,
        place: Place,
    ) -> Result<(), AllocError>
        ensures { OnOk result (self.new ≡ lexeme (token.Number digits.now kind.now) (Some place) self.old) }
    {
        let digits = copy_bytes(self.alloc, digits)?;
        let kind = copy_kind(self.alloc, kind)?;
        self.put(Token::Number { digits, kind }, Some(place))
    }

    /// Puts a logical literal constant in front.
    pub fn truth(
        &mut self,
        value: bool,
        kind: &Option<Kind>,
        place: Place,
    ) -> Result<(), AllocError>
        ensures { OnOk result (self.new ≡ lexeme (token.Truth value kind.now) (Some place) self.old) }
    {
        let kind = copy_kind(self.alloc, kind)?;
        self.put(Token::Truth { value, kind }, Some(place))
    }

    /// Puts a character literal constant in front.
    pub fn text(
        &mut self,
        bytes: &List<u8>,
        kind: &Option<Kind>,
        place: Place,
    ) -> Result<(), AllocError>
        ensures { OnOk result (self.new ≡ lexeme (token.Text bytes.now kind.now) (Some place) self.old) }
    {
        let bytes = copy_bytes(self.alloc, bytes)?;
        let kind = copy_kind(self.alloc, kind)?;
        self.put(Token::Text { bytes, kind }, Some(place))
    }
}
