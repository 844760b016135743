//! Punctuators.

ghost use Rattle.std.specs.Prelude.{◌≡◌};
ghost use Rattle.c_token.specs.Marks.{meaning};

/// A punctuator, one for each spelling; `#`, `##`, their digraphs and `...` are none of the profile (ISO/IEC 9899:2011, 6.4.6).
#[derive(Clone, Copy, PartialEq, Eq, Debug)]
pub enum Mark {
    /// `[`
    OpenBracket,
    /// `]`
    CloseBracket,
    /// `(`
    Open,
    /// `)`
    Close,
    /// `{`
    OpenBrace,
    /// `}`
    CloseBrace,
    /// `.`
    Dot,
    /// `->`
    Arrow,
    /// `++`
    Increment,
    /// `--`
    Decrement,
    /// `&`
    Ampersand,
    /// `*`
    Star,
    /// `+`
    Plus,
    /// `-`
    Minus,
    /// `~`
    Tilde,
    /// `!`
    Exclamation,
    /// `/`
    Slash,
    /// `%`
    Percent,
    /// `<<`
    ShiftLeft,
    /// `>>`
    ShiftRight,
    /// `<`
    Less,
    /// `>`
    Greater,
    /// `<=`
    LessEqual,
    /// `>=`
    GreaterEqual,
    /// `==`
    Equal,
    /// `!=`
    NotEqual,
    /// `^`
    Caret,
    /// `|`
    Bar,
    /// `&&`
    AndAnd,
    /// `||`
    OrOr,
    /// `?`
    Question,
    /// `:`
    Colon,
    /// `;`
    Semicolon,
    /// `=`
    Assign,
    /// `*=`
    StarAssign,
    /// `/=`
    SlashAssign,
    /// `%=`
    PercentAssign,
    /// `+=`
    PlusAssign,
    /// `-=`
    MinusAssign,
    /// `<<=`
    ShiftLeftAssign,
    /// `>>=`
    ShiftRightAssign,
    /// `&=`
    AmpersandAssign,
    /// `^=`
    CaretAssign,
    /// `|=`
    BarAssign,
    /// `,`
    Comma,
    /// `<:`
    OpenBracketDigraph,
    /// `:>`
    CloseBracketDigraph,
    /// `<%`
    OpenBraceDigraph,
    /// `%>`
    CloseBraceDigraph,
}

impl Mark {
    /// The punctuator that means the same and is no digraph (ISO/IEC 9899:2011, 6.4.6p3).
    pub fn meaning(self) -> Mark
        ensures { result ≡ meaning self }
    {
        match self {
            Mark::OpenBracketDigraph => Mark::OpenBracket,
            Mark::CloseBracketDigraph => Mark::CloseBracket,
            Mark::OpenBraceDigraph => Mark::OpenBrace,
            Mark::CloseBraceDigraph => Mark::CloseBrace,
            mark => mark,
        }
    }
}
