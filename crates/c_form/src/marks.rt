//! Spellings of punctuators.

ghost use Rattle.std.specs.Prelude.{◌≡◌};
ghost use Rattle.c_form.specs.Marks.{spelling_of, bracket_of, digraph_of, arithmetic_of, logic_of, assignment_of, or_else, mark_of};

use c_token::Mark;

/// How a punctuator is spelled (ISO/IEC 9899:2011, 6.4.6).
#[tactic(auto, unfolding(crate::specs::Marks::spelling_of))]
pub fn spelling_of(mark: Mark) -> &'static [u8]
    ensures { result.now ≡ spelling_of mark }
{
    match mark {
        Mark::OpenBracket => b"[",
        Mark::CloseBracket => b"]",
        Mark::Open => b"(",
        Mark::Close => b")",
        Mark::OpenBrace => b"{",
        Mark::CloseBrace => b"}",
        Mark::Dot => b".",
        Mark::Arrow => b"->",
        Mark::Increment => b"++",
        Mark::Decrement => b"--",
        Mark::Ampersand => b"&",
        Mark::Star => b"*",
        Mark::Plus => b"+",
        Mark::Minus => b"-",
        Mark::Tilde => b"~",
        Mark::Exclamation => b"!",
        Mark::Slash => b"/",
        Mark::Percent => b"%",
        Mark::ShiftLeft => b"<<",
        Mark::ShiftRight => b">>",
        Mark::Less => b"<",
        Mark::Greater => b">",
        Mark::LessEqual => b"<=",
        Mark::GreaterEqual => b">=",
        Mark::Equal => b"==",
        Mark::NotEqual => b"!=",
        Mark::Caret => b"^",
        Mark::Bar => b"|",
        Mark::AndAnd => b"&&",
        Mark::OrOr => b"||",
        Mark::Question => b"?",
        Mark::Colon => b":",
        Mark::Semicolon => b";",
        Mark::Assign => b"=",
        Mark::StarAssign => b"*=",
        Mark::SlashAssign => b"/=",
        Mark::PercentAssign => b"%=",
        Mark::PlusAssign => b"+=",
        Mark::MinusAssign => b"-=",
        Mark::ShiftLeftAssign => b"<<=",
        Mark::ShiftRightAssign => b">>=",
        Mark::AmpersandAssign => b"&=",
        Mark::CaretAssign => b"^=",
        Mark::BarAssign => b"|=",
        Mark::Comma => b",",
        Mark::OpenBracketDigraph => b"<:",
        Mark::CloseBracketDigraph => b":>",
        Mark::OpenBraceDigraph => b"<%",
        Mark::CloseBraceDigraph => b"%>",
    }
}

#[tactic(auto, unfolding(crate::specs::Marks::bracket_of))]
fn bracket_of(spelling: &[u8]) -> Option<Mark>
    ensures { result ≡ bracket_of spelling.now }
{
    if spelling == b"[".as_slice() {
        Some(Mark::OpenBracket)
    } else if spelling == b"]".as_slice() {
        Some(Mark::CloseBracket)
    } else if spelling == b"(".as_slice() {
        Some(Mark::Open)
    } else if spelling == b")".as_slice() {
        Some(Mark::Close)
    } else if spelling == b"{".as_slice() {
        Some(Mark::OpenBrace)
    } else if spelling == b"}".as_slice() {
        Some(Mark::CloseBrace)
    } else if spelling == b",".as_slice() {
        Some(Mark::Comma)
    } else if spelling == b";".as_slice() {
        Some(Mark::Semicolon)
    } else if spelling == b":".as_slice() {
        Some(Mark::Colon)
    } else if spelling == b"?".as_slice() {
        Some(Mark::Question)
    } else {
        None
    }
}

#[tactic(auto, unfolding(crate::specs::Marks::digraph_of))]
fn digraph_of(spelling: &[u8]) -> Option<Mark>
    ensures { result ≡ digraph_of spelling.now }
{
    if spelling == b"<:".as_slice() {
        Some(Mark::OpenBracketDigraph)
    } else if spelling == b":>".as_slice() {
        Some(Mark::CloseBracketDigraph)
    } else if spelling == b"<%".as_slice() {
        Some(Mark::OpenBraceDigraph)
    } else if spelling == b"%>".as_slice() {
        Some(Mark::CloseBraceDigraph)
    } else if spelling == b".".as_slice() {
        Some(Mark::Dot)
    } else if spelling == b"->".as_slice() {
        Some(Mark::Arrow)
    } else {
        None
    }
}

#[tactic(auto, unfolding(crate::specs::Marks::arithmetic_of))]
fn arithmetic_of(spelling: &[u8]) -> Option<Mark>
    ensures { result ≡ arithmetic_of spelling.now }
{
    if spelling == b"++".as_slice() {
        Some(Mark::Increment)
    } else if spelling == b"--".as_slice() {
        Some(Mark::Decrement)
    } else if spelling == b"*".as_slice() {
        Some(Mark::Star)
    } else if spelling == b"+".as_slice() {
        Some(Mark::Plus)
    } else if spelling == b"-".as_slice() {
        Some(Mark::Minus)
    } else if spelling == b"/".as_slice() {
        Some(Mark::Slash)
    } else if spelling == b"%".as_slice() {
        Some(Mark::Percent)
    } else if spelling == b"<<".as_slice() {
        Some(Mark::ShiftLeft)
    } else if spelling == b">>".as_slice() {
        Some(Mark::ShiftRight)
    } else if spelling == b"&".as_slice() {
        Some(Mark::Ampersand)
    } else {
        None
    }
}

#[tactic(auto, unfolding(crate::specs::Marks::logic_of))]
fn logic_of(spelling: &[u8]) -> Option<Mark>
    ensures { result ≡ logic_of spelling.now }
{
    if spelling == b"^".as_slice() {
        Some(Mark::Caret)
    } else if spelling == b"|".as_slice() {
        Some(Mark::Bar)
    } else if spelling == b"~".as_slice() {
        Some(Mark::Tilde)
    } else if spelling == b"<".as_slice() {
        Some(Mark::Less)
    } else if spelling == b">".as_slice() {
        Some(Mark::Greater)
    } else if spelling == b"<=".as_slice() {
        Some(Mark::LessEqual)
    } else if spelling == b">=".as_slice() {
        Some(Mark::GreaterEqual)
    } else if spelling == b"==".as_slice() {
        Some(Mark::Equal)
    } else if spelling == b"!=".as_slice() {
        Some(Mark::NotEqual)
    } else if spelling == b"!".as_slice() {
        Some(Mark::Exclamation)
    } else if spelling == b"&&".as_slice() {
        Some(Mark::AndAnd)
    } else if spelling == b"||".as_slice() {
        Some(Mark::OrOr)
    } else {
        None
    }
}

#[tactic(auto, unfolding(crate::specs::Marks::assignment_of))]
fn assignment_of(spelling: &[u8]) -> Option<Mark>
    ensures { result ≡ assignment_of spelling.now }
{
    if spelling == b"=".as_slice() {
        Some(Mark::Assign)
    } else if spelling == b"*=".as_slice() {
        Some(Mark::StarAssign)
    } else if spelling == b"/=".as_slice() {
        Some(Mark::SlashAssign)
    } else if spelling == b"%=".as_slice() {
        Some(Mark::PercentAssign)
    } else if spelling == b"+=".as_slice() {
        Some(Mark::PlusAssign)
    } else if spelling == b"-=".as_slice() {
        Some(Mark::MinusAssign)
    } else if spelling == b"<<=".as_slice() {
        Some(Mark::ShiftLeftAssign)
    } else if spelling == b">>=".as_slice() {
        Some(Mark::ShiftRightAssign)
    } else if spelling == b"&=".as_slice() {
        Some(Mark::AmpersandAssign)
    } else if spelling == b"^=".as_slice() {
        Some(Mark::CaretAssign)
    } else if spelling == b"|=".as_slice() {
        Some(Mark::BarAssign)
    } else {
        None
    }
}

fn or_else(mark: Option<Mark>, other: Option<Mark>) -> Option<Mark>
    ensures { result ≡ or_else mark other }
{
    match mark {
        None => other,
        Some(mark) => Some(mark),
    }
}

/// The punctuator with this spelling. None for `#`, `##`, their digraphs and `...`, and where the spelling is none of a punctuator.
#[tactic(auto, unfolding(crate::specs::Marks::mark_of))]
pub fn mark_of(spelling: &[u8]) -> Option<Mark>
    ensures { result ≡ mark_of spelling.now }
{
    or_else(
        bracket_of(spelling),
        or_else(
            arithmetic_of(spelling),
            or_else(
                logic_of(spelling),
                or_else(assignment_of(spelling), digraph_of(spelling)),
            ),
        ),
    )
}
