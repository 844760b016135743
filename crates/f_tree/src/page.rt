//! The text of tokens in free source form (ISO/IEC 1539-1:2018, 6.2 and 6.3.2).

ghost use Rattle.std.specs.Prelude.{◌≡◌, ◌++◌, ◌∷◌, [], OnOk, IfOk};
ghost use Rattle.f_tree.specs.Text.{mark_text, kind_text, behind_literal, before_text, truth_text, and_then, begun, opened, run, word, doubled, character, characters, quoted, written, text_from, text_of, fresh};

use crate::lexeme::Lexeme;
use f_lex::{Kind, Mark, Token};
use std::alloc::{AllocError, Global};
use std::marker::Model;

/// How far a line has come.
#[derive(Clone, Copy, PartialEq, Eq, Debug)]
pub struct Line {
    /// Something stands in it.
    pub is_begun: bool,
    /// How many characters have room in it before the blank and the `&` that continue it.
    pub room: usize,
}

/// How many characters of a line are used, but for the blank and the `&` that continue it: printed lines keep the 132 characters that older
/// standards allow.
const WIDTH: usize = 130;

/// Text, and how far its last line has come.
#[derive(Drop)]
struct Page {
    text: Vec<u8>,
    line: Line,
}

impl Model for Page {
    ghost use Rattle.f_tree.specs.Text.{Written};

    ghost Value = { Written };

    ghost view = { λ p. (p.text.items, p.line) };
}

fn begun(room: usize) -> Line
    ensures { result ≡ begun room }
{
    Line {
        is_begun: true,
        room,
    }
}

impl Page {
    /// Adds characters with nothing before them.
    #[tactic(auto, unfolding(crate::specs::Text::run))]
    fn run(&mut self, bytes: &[u8]) -> Result<(), AllocError>
        ensures { OnOk result (self.new ≡ and_then self.old (run bytes.now)) }
    {
        self.text.extend_from_slice(bytes)?;
        self.line = begun(self.line.room.saturating_sub(bytes.len()));
        Ok(())
    }

    /// Adds characters of this line that end it, and goes on with this one.
    fn next(&mut self, bytes: &[u8], line: Line) -> Result<(), AllocError>
        ensures { OnOk result (self.new ≡ and_then self.old (λ _. (bytes.now, line))) }
    {
        self.text.extend_from_slice(bytes)?;
        self.line = line;
        Ok(())
    }

    /// Adds what stands before a token.
    #[tactic(auto, unfolding(crate::specs::Text::opened))]
    fn open(&mut self, has_room: bool) -> Result<(), AllocError>
        ensures { OnOk result (self.new ≡ and_then self.old (opened has_room)) }
    {
        if !self.line.is_begun {
            return Ok(());
        }
        let room = self.line.room;
        if has_room {
            self.next(b" ", begun(room.saturating_sub(1)))
        } else {
            self.next(b" &\n", begun(WIDTH))
        }
    }

    /// Adds a token that isn't a text.
    #[tactic(auto, unfolding(crate::specs::Text::word))]
    fn word(&mut self, bytes: &[u8]) -> Result<(), AllocError>
        ensures { OnOk result (self.new ≡ and_then self.old (word bytes.now)) }
    {
        let has_room = bytes.len() < self.line.room;
        self.open(has_room)?;
        self.run(bytes)
    }

    /// Adds a character of a text in this line.
    fn doubled(&mut self, byte: u8) -> Result<(), AllocError>
        ensures { OnOk result (self.new ≡ and_then self.old (run (doubled byte))) }
    {
        if byte == b'\'' {
            self.run(b"''")
        } else {
            self.run(&[byte])
        }
    }

    /// Adds a character of a text.
    #[tactic(auto, using(crate::proofs::Pages::then_then), unfolding(crate::specs::Text::character))]
    fn character(&mut self, byte: u8) -> Result<(), AllocError>
        ensures { OnOk result (self.new ≡ and_then self.old (character byte)) }
    {
        if 2 < self.line.room {
            self.doubled(byte)
        } else {
            self.next(b"&\n&", begun(WIDTH - 1))?;
            self.doubled(byte)
        }
    }

    /// Adds the characters of a text and its last delimiter.
    #[tactic(auto, using(crate::proofs::Pages::character_then), unfolding(crate::specs::Text::characters))]
    fn characters(&mut self, bytes: &[u8]) -> Result<(), AllocError>
        ensures { OnOk result (self.new ≡ and_then self.old (characters bytes.now)) }
    {
        let mut rest = bytes;
        while let Some((first, others)) = rest.split_first() {
            self.character(*first)?;
            rest = others;
        }
        self.run(b"'")
    }

    /// Adds a text with its kind and its delimiters.
    #[tactic(auto, using(crate::proofs::Pages::quoted_then), unfolding(crate::specs::Text::quoted))]
    fn quoted(&mut self, alloc: Global, kind: &Option<Kind>, bytes: &[u8]) -> Result<(), AllocError>
        ensures { OnOk result (self.new ≡ and_then self.old (quoted (before_text kind.now) bytes.now)) }
    {
        let mut before = before_text(alloc, kind)?;
        let has_room = bytes.len() < self.line.room.saturating_sub(before.len() + 2);
        before.push(b'\'')?;
        self.open(has_room)?;
        self.run(&before)?;
        self.characters(bytes)
    }

    /// Adds a token.
    #[tactic(auto, unfolding(crate::specs::Text::written))]
    fn token(&mut self, alloc: Global, token: &Token) -> Result<(), AllocError>
        ensures { OnOk result (self.new ≡ and_then self.old (written token.now)) }
    {
        match token {
            Token::Name(name) => self.word(name.as_slice()),
            Token::Number { digits, kind } => {
                let mut word = Vec::new(alloc);
                word.extend_from_slice(digits.as_slice())?;
                put_behind(&mut word, kind)?;
                self.word(&word)
            }
            Token::Truth { value, kind } => {
                let mut word = Vec::new(alloc);
                word.extend_from_slice(truth_text(*value).as_bytes())?;
                put_behind(&mut word, kind)?;
                self.word(&word)
            }
            Token::Text { bytes, kind } => self.quoted(alloc, kind, bytes.as_slice()),
            Token::Mark(mark) => self.word(mark_text(*mark).as_bytes()),
            Token::End => self.next(b"\n", FRESH),
        }
    }
}

const FRESH: Line = Line {
    is_begun: false,
    room: WIDTH,
};

fn truth_text(value: bool) -> &'static str
    ensures { result.now ≡ truth_text value }
{
    if value { ".true." } else { ".false." }
}

fn kind_bytes(kind: &Kind) -> &[u8]
    ensures { result.now ≡ kind_text kind.now }
{
    match kind {
        Kind::Number(digits) => digits.as_slice(),
        Kind::Name(name) => name.as_slice(),
    }
}

/// Adds a kind behind a literal.
fn put_behind(word: &mut Vec<u8>, kind: &Option<Kind>) -> Result<(), AllocError>
    ensures { OnOk result (word.new.items ≡ word.old.items ++ behind_literal kind.now) }
{
    match kind {
        None => Ok(()),
        Some(kind) => {
            word.push(b'_')?;
            word.extend_from_slice(kind_bytes(kind))
        }
    }
}

fn before_text(alloc: Global, kind: &Option<Kind>) -> Result<Vec<u8>, AllocError>
    ensures { IfOk result (λ w. w.items ≡ before_text kind.now) }
{
    let mut word = Vec::new(alloc);
    if let Some(kind) = kind {
        word.extend_from_slice(kind_bytes(kind))?;
        word.push(b'_')?;
    }
    Ok(word)
}

/// The text of tokens.
#[tactic(auto, using(crate::proofs::Pages::token_then), unfolding(crate::specs::Text::text_from))]
pub fn text_of(alloc: Global, tokens: &[Lexeme]) -> Result<Vec<u8>, AllocError>
    ensures { IfOk result (λ text. text.items ≡ text_of tokens.now) }
{
    let mut page = Page {
        text: Vec::new(alloc),
        line: FRESH,
    };
    let mut rest = tokens;
    while let Some((first, others)) = rest.split_first() {
        page.token(alloc, &first.token)?;
        rest = others;
    }
    Ok(page.text)
}

#[tactic(auto, unfolding(crate::specs::Text::mark_text))]
fn mark_text(mark: Mark) -> &'static str
    ensures { result.now ≡ mark_text mark }
{
    match mark {
        Mark::Open => "(",
        Mark::Close => ")",
        Mark::OpenBracket => "[",
        Mark::CloseBracket => "]",
        Mark::Comma => ",",
        Mark::Percent => "%",
        Mark::Colon => ":",
        Mark::DoubleColon => "::",
        Mark::DotDot => "..",
        Mark::Assign => "=",
        Mark::Arrow => "=>",
        Mark::Plus => "+",
        Mark::Minus => "-",
        Mark::Star => "*",
        Mark::Power => "**",
        Mark::Slash => "/",
        Mark::Concat => "//",
        Mark::Equal => "==",
        Mark::NotEqual => "/=",
        Mark::Less => "<",
        Mark::LessEqual => "<=",
        Mark::Greater => ">",
        Mark::GreaterEqual => ">=",
        Mark::DotEq => ".eq.",
        Mark::DotNe => ".ne.",
        Mark::DotLt => ".lt.",
        Mark::DotLe => ".le.",
        Mark::DotGt => ".gt.",
        Mark::DotGe => ".ge.",
        Mark::Not => ".not.",
        Mark::And => ".and.",
        Mark::Or => ".or.",
        Mark::Eqv => ".eqv.",
        Mark::Neqv => ".neqv.",
    }
}
