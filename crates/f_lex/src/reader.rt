//! What the pieces of a text give: tokens, and the first broken rule.

ghost use Rattle.std.specs.Prelude.{◌≡◌, ◌+◌, ◌-◌, ◌<◌, ◌≤◌, ◌^◌, ◌++◌, None, length, nat_lt, option_to_list, OnOk};
ghost use Rattle.f_lex.specs.Rules.{tag_number, is_before, reported, advanced, rule_place, kind_rule, token_rule, gives_token, characters_with, statement_with, token_break, piece_break, count_break, length_break, first_break, moved, given, long_line, long_lines, least};

use crate::class::is_next;
use crate::fault::Rule;
use crate::piece::Piece;
use crate::token::{Kind, Spanned, Token};
use crate::words::is_number;
use jf_base::{List, Place};
use std::alloc::AllocError;

/// A line and the byte of the line, both counted from 1.
#[derive(Clone, Copy, PartialEq, Eq, Debug)]
pub struct Point {
    pub line: u32,
    pub column: u32,
}

/// A broken rule, and where.
#[derive(Clone, Copy, PartialEq, Eq, Debug)]
pub struct Fault {
    pub point: Point,
    pub rule: Rule,
}

/// Where a piece stands.
#[derive(Clone, Copy, PartialEq, Eq, Debug)]
pub struct Position {
    /// How many bytes stand before it.
    pub offset: usize,
    pub point: Point,
    /// Nothing but blanks stands before it on its line, and the line continues nothing.
    pub first_on_line: bool,
    /// The first token of its statement, if one stands before it.
    pub statement: Option<Point>,
    /// The characters of the statement's tokens that stand before it.
    pub characters: usize,
    /// How many tokens stand before it, with those of the files before.
    pub tokens: usize,
}

/// The most characters of a line.
const LINE_LIMIT: usize = 10_000;

/// The most characters of a name.
const NAME_LIMIT: usize = 63;

/// The most characters of a statement.
const STATEMENT_LIMIT: usize = 1_000_000;

/// The most tokens of all files.
const TOKEN_LIMIT: usize = 262_144;

/// The number of a rule's tag.
pub fn tag_number(rule: Rule) -> u16
    ensures { result ≡ tag_number rule }
{
    match rule {
        Rule::LongLine => 101,
        Rule::LongName => 102,
        Rule::ForeignByte => 103,
        Rule::OpenText => 104,
        Rule::LostLine => 105,
        Rule::NoToken => 106,
        Rule::TooMany => 107,
        Rule::LongStatement => 108,
    }
}

// The fault stands at an earlier place than the other, or at the same place with a smaller tag.
#[tactic(auto, unfolding(crate::specs::Rules::is_before))]
fn is_before(one: Fault, other: Fault) -> bool
    ensures { result ≡ is_before one other }
{
    if one.point.line != other.point.line {
        one.point.line < other.point.line
    } else if one.point.column != other.point.column {
        one.point.column < other.point.column
    } else {
        tag_number(one.rule) < tag_number(other.rule)
    }
}

/// The first of both faults.
#[tactic(auto, unfolding(crate::specs::Rules::reported))]
pub fn reported(first: Option<Fault>, next: Option<Fault>) -> Option<Fault>
    ensures { result ≡ reported first next }
{
    match (first, next) {
        (Some(one), Some(other)) => {
            if is_before(other, one) {
                Some(other)
            } else {
                Some(one)
            }
        }
        (None, Some(other)) => Some(other),
        (_, None) => first,
    }
}

/// Where what stands behind these bytes stands.
pub fn advanced(point: Point, bytes: &[u8]) -> Point
    requires line { point.line + length bytes.now < 2 ^ 32 }
    requires column { point.column + length bytes.now < 2 ^ 32 }
    requires first { 1 ≤ point.column }
    ensures value { result ≡ advanced point bytes.now }
    ensures line { result.line ≤ point.line + length bytes.now }
    ensures column { result.column ≤ point.column + length bytes.now }
    ensures first { 1 ≤ result.column }
{
    let mut line = point.line;
    let mut column = point.column;
    for byte in bytes {
        if *byte == b'\n' {
            line += 1;
            column = 1;
        } else {
            column += 1;
        }
    }
    Point { line, column }
}

// Where a piece breaks a rule: at its first byte, or on the line of the last `&`, where it ends.
fn rule_place(rule: Rule, point: Point, behind: Point) -> Point
    ensures { result ≡ rule_place rule point behind }
{
    match rule {
        Rule::LostLine => Point {
            line: behind.line,
            column: 1,
        },
        _ => point,
    }
}

#[tactic(auto, unfolding(crate::specs::Rules::kind_rule))]
fn kind_rule(kind: &Option<Kind>) -> Option<Rule>
    ensures { result ≡ kind_rule kind.now }
{
    match kind {
        Some(Kind::Name(name)) => {
            if name.len() > NAME_LIMIT {
                Some(Rule::LongName)
            } else {
                None
            }
        }
        Some(Kind::Number(digits)) => {
            if is_number(digits.as_slice()) {
                None
            } else {
                Some(Rule::NoToken)
            }
        }
        None => None,
    }
}

// The first rule that a token breaks by itself.
#[tactic(auto, unfolding(crate::specs::Rules::token_rule))]
fn token_rule(token: &Token) -> Option<Rule>
    ensures { result ≡ token_rule token.now }
{
    match token {
        Token::Name(name) => {
            if name.len() > NAME_LIMIT {
                Some(Rule::LongName)
            } else {
                None
            }
        }
        Token::Number { digits, kind } => match kind_rule(kind) {
            Some(rule) => Some(rule),
            None => {
                if is_number(digits.as_slice()) {
                    None
                } else {
                    Some(Rule::NoToken)
                }
            }
        },
        Token::Truth { kind, .. } => kind_rule(kind),
        Token::Text { kind, .. } => kind_rule(kind),
        Token::Mark(_) | Token::End => None,
    }
}

#[tactic(auto, unfolding(crate::specs::Rules::token_break))]
fn token_break(position: Position, piece: &Piece) -> Option<Fault>
    ensures { result ≡ token_break position piece.now }
{
    match piece {
        Piece::Token { token, .. } => match token_rule(token) {
            Some(rule) => Some(Fault {
                point: position.point,
                rule,
            }),
            None => None,
        },
        _ => None,
    }
}

#[tactic(auto, unfolding(crate::specs::Rules::piece_break))]
fn piece_break(position: Position, piece: &Piece, behind: Point) -> Option<Fault>
    ensures { result ≡ piece_break position piece.now behind }
{
    let rule = match piece {
        Piece::Token { broken, .. } => *broken,
        Piece::Ill(rule) => Some(*rule),
        Piece::Joined => {
            if position.first_on_line {
                Some(Rule::NoToken)
            } else {
                None
            }
        }
        Piece::Lost => {
            if position.first_on_line {
                Some(Rule::NoToken)
            } else {
                Some(Rule::LostLine)
            }
        }
        _ => None,
    };
    match rule {
        Some(rule) => Some(Fault {
            point: rule_place(rule, position.point, behind),
            rule,
        }),
        None => None,
    }
}

// The piece is a token, or ends a statement that has tokens.
fn gives_token(position: Position, piece: &Piece) -> bool
    ensures { result ≡ gives_token position piece.now }
{
    match piece {
        Piece::Token { .. } => true,
        Piece::LineEnd | Piece::Semicolon => position.statement.is_some(),
        _ => false,
    }
}

#[tactic(auto, unfolding(crate::specs::Rules::count_break))]
fn count_break(position: Position, piece: &Piece) -> Option<Fault>
    ensures { result ≡ count_break position piece.now }
{
    if gives_token(position, piece) && position.tokens >= TOKEN_LIMIT {
        Some(Fault {
            point: position.point,
            rule: Rule::TooMany,
        })
    } else {
        None
    }
}

// The characters of the statement's tokens up to this piece.
fn characters_with(position: Position, piece: &Piece, len: usize) -> usize
    requires { position.characters + len < 2 ^ 32 }
    ensures { result ≡ characters_with position piece.now len }
{
    match piece {
        Piece::Token { passed, .. } => position.characters + len.saturating_sub(*passed),
        Piece::LineEnd | Piece::Semicolon => 0,
        _ => position.characters,
    }
}

// The first token of the statement up to this piece.
fn statement_with(position: Position, piece: &Piece) -> Option<Point>
    ensures { result ≡ statement_with position piece.now }
{
    match piece {
        Piece::Token { .. } => match position.statement {
            Some(first) => Some(first),
            None => Some(position.point),
        },
        Piece::LineEnd | Piece::Semicolon => None,
        _ => position.statement,
    }
}

#[tactic(auto, unfolding(crate::specs::Rules::length_break))]
fn length_break(position: Position, piece: &Piece, len: usize) -> Option<Fault>
    requires { position.characters + len < 2 ^ 32 }
    ensures { result ≡ length_break position piece.now len }
{
    match statement_with(position, piece) {
        None => None,
        Some(point) => {
            if characters_with(position, piece, len) > STATEMENT_LIMIT {
                Some(Fault {
                    point,
                    rule: Rule::LongStatement,
                })
            } else {
                None
            }
        }
    }
}

/// The first of a fault and those of a piece.
#[tactic(auto, unfolding(crate::specs::Rules::first_break))]
pub fn first_break(
    first: Option<Fault>,
    position: Position,
    piece: &Piece,
    len: usize,
    behind: Point,
) -> Option<Fault>
    requires { position.characters + len < 2 ^ 32 }
    ensures { result ≡ first_break first position piece.now len behind }
{
    let with_token = reported(first, token_break(position, piece));
    let with_piece = reported(with_token, piece_break(position, piece, behind));
    let with_count = reported(with_piece, count_break(position, piece));
    reported(with_count, length_break(position, piece, len))
}

/// Where the piece behind stands.
#[tactic(auto, unfolding(crate::specs::Rules::moved))]
pub fn moved(position: Position, piece: &Piece, len: usize, behind: Point) -> Position
    requires offset { position.offset + len < 2 ^ 32 }
    requires characters { position.characters + len < 2 ^ 32 }
    requires tokens { position.tokens < 2 ^ 32 }
    ensures { result ≡ moved position piece.now len behind }
{
    let first_on_line = match piece {
        Piece::LineEnd => true,
        Piece::Blank => position.first_on_line,
        _ => false,
    };
    let tokens = if gives_token(position, piece) {
        position.tokens + 1
    } else {
        position.tokens
    };
    Position {
        offset: position.offset + len,
        point: behind,
        first_on_line,
        statement: statement_with(position, piece),
        characters: characters_with(position, piece, len),
        tokens,
    }
}

/// The token that a piece gives.
#[tactic(auto, unfolding(crate::specs::Rules::given))]
pub fn given(file: u16, position: Position, piece: Piece, len: usize) -> Option<Spanned>
    requires { position.offset + len < 2 ^ 32 }
    ensures { result ≡ given file position piece len }
{
    let token = match piece {
        Piece::Token { token, .. } => Some(token),
        Piece::LineEnd | Piece::Semicolon => {
            if position.statement.is_some() {
                Some(Token::End)
            } else {
                None
            }
        }
        _ => None,
    };
    match token {
        Some(token) => Some(Spanned {
            token,
            start: position.offset as u32,
            end: (position.offset + len) as u32,
            place: Place {
                file,
                line: position.point.line,
                column: position.point.column,
            },
        }),
        None => None,
    }
}

fn long_line(line: u32, characters: usize) -> Option<Fault>
    ensures { result ≡ long_line line characters }
{
    if characters > LINE_LIMIT {
        Some(Fault {
            point: Point { line, column: 1 },
            rule: Rule::LongLine,
        })
    } else {
        None
    }
}

/// The first line with too many characters.
#[tactic(auto, unfolding(crate::specs::Rules::long_lines))]
pub fn first_long_line(bytes: &[u8]) -> Option<Fault>
    requires { length bytes.now < 2 ^ 31 }
    ensures { result ≡ least None (long_lines 1 0 bytes.now) }
{
    let mut first = None;
    let mut line = 1;
    let mut characters = 0;
    let mut rest = bytes;
    while let Some((byte, tail)) = rest.split_first() {
        if *byte == b'\n' {
            first = reported(first, long_line(line, characters));
            line += 1;
            characters = 0;
        } else if *byte != b'\r' || !is_next(b'\n', tail) {
            characters += 1;
        }
        rest = tail;
    }
    reported(first, long_line(line, characters))
}
