//! Punctuators.

ghost use Rattle.std.specs.Prelude.{◌≡◌};
ghost use Rattle.c_words.specs.Words.{sign_of};

use c_grammar::Token;
use c_token::Mark;

/// The punctuator as the grammar sees it; a digraph is what it stands for (ISO/IEC 9899:2011, 6.4.6).
#[tactic(auto, unfolding(crate::specs::Words::sign_of))]
pub fn sign_of(mark: Mark) -> Token
    ensures { result ≡ sign_of mark }
{
    match mark {
        Mark::OpenBracket | Mark::OpenBracketDigraph => Token::SquareOpen,
        Mark::CloseBracket | Mark::CloseBracketDigraph => Token::SquareClose,
        Mark::Open => Token::Open,
        Mark::Close => Token::Close,
        Mark::OpenBrace | Mark::OpenBraceDigraph => Token::BraceOpen,
        Mark::CloseBrace | Mark::CloseBraceDigraph => Token::BraceClose,
        Mark::Dot => Token::Dot,
        Mark::Arrow => Token::Arrow,
        Mark::Increment => Token::Increment,
        Mark::Decrement => Token::Decrement,
        Mark::Ampersand => Token::Ampersand,
        Mark::Star => Token::Star,
        Mark::Plus => Token::Plus,
        Mark::Minus => Token::Minus,
        Mark::Tilde => Token::Tilde,
        Mark::Exclamation => Token::Exclamation,
        Mark::Slash => Token::Slash,
        Mark::Percent => Token::Percent,
        Mark::ShiftLeft => Token::ShiftLeft,
        Mark::ShiftRight => Token::ShiftRight,
        Mark::Less => Token::Less,
        Mark::Greater => Token::Greater,
        Mark::LessEqual => Token::LessEqual,
        Mark::GreaterEqual => Token::GreaterEqual,
        Mark::Equal => Token::Equal,
        Mark::NotEqual => Token::NotEqual,
        Mark::Caret => Token::Caret,
        Mark::Bar => Token::Bar,
        Mark::AndAnd => Token::AndAnd,
        Mark::OrOr => Token::OrOr,
        Mark::Question => Token::Question,
        Mark::Colon => Token::Colon,
        Mark::Semicolon => Token::Semi,
        Mark::Assign => Token::Equals,
        Mark::StarAssign => Token::StarEquals,
        Mark::SlashAssign => Token::SlashEquals,
        Mark::PercentAssign => Token::PercentEquals,
        Mark::PlusAssign => Token::PlusEquals,
        Mark::MinusAssign => Token::MinusEquals,
        Mark::ShiftLeftAssign => Token::ShiftLeftEquals,
        Mark::ShiftRightAssign => Token::ShiftRightEquals,
        Mark::AmpersandAssign => Token::AmpersandEquals,
        Mark::CaretAssign => Token::CaretEquals,
        Mark::BarAssign => Token::BarEquals,
        Mark::Comma => Token::Comma,
    }
}
