//! Expressions, references and types (ISO/IEC 1539-1:2018, 7.2, 9 and 10.1).

use crate::name::Name;
use f_lex::{Kind, Mark};
use jf_base::{Boxed, List, Place};

/// A level of operators, the tightest first (ISO/IEC 1539-1:2018, 10.1.2).
#[derive(Clone, Copy, PartialEq, Eq, Debug)]
pub enum Level {
    /// `**`
    Power,
    /// `*` and `/`
    Product,
    /// `+` and `-`
    Sum,
    /// `//`
    Concatenation,
    /// `==` and its like
    Comparison,
    /// `.not.`
    Negation,
    /// `.and.`
    Conjunction,
    /// `.or.`
    Disjunction,
    /// `.eqv.` and `.neqv.`
    Equivalence,
}

/// An expression (ISO/IEC 1539-1:2018, 10.1.2).
#[cycle(expression)]
#[derive(Drop)]
pub enum Expression {
    /// An integer literal constant.
    Number {
        digits: List<u8>,
        kind: Option<Kind>,
        place: Place,
    },
    /// A logical literal constant.
    Truth {
        value: bool,
        kind: Option<Kind>,
        place: Place,
    },
    /// A character literal constant.
    Text {
        bytes: List<u8>,
        kind: Option<Kind>,
        place: Place,
    },
    /// A variable, or what may be a function reference or a structure constructor: names and arguments alone don't tell.
    Reference(Reference),
    /// `(inner)`
    Parenthesized {
        place: Place,
        inner: Boxed<Expression>,
    },
    /// `[declared :: items]`
    Constructor {
        place: Place,
        declared: Option<Boxed<TypeSpec>>,
        items: List<Expression>,
    },
    /// A sign or `.not.` where there is one, an operand, and operators of one level with their right operands.
    Chain {
        level: Level,
        sign: Option<Sign>,
        first: Boxed<Expression>,
        links: List<Link>,
    },
}

/// `+`, `-` or `.not.` before an operand.
#[derive(Clone, Copy, PartialEq, Eq, Debug)]
pub struct Sign {
    pub operator: Mark,
    pub place: Place,
}

/// An operator and its right operand.
#[cycle(expression)]
#[derive(Drop)]
pub struct Link {
    pub operator: Mark,
    pub operand: Expression,
}

/// Parts with `%` between them (ISO/IEC 1539-1:2018, 9.1).
#[cycle(expression)]
#[derive(Drop)]
pub struct Reference {
    pub first: Part,
    pub others: List<Part>,
}

/// A name, with an argument list and a substring range where they stand behind it.
#[cycle(expression)]
#[derive(Drop)]
pub struct Part {
    pub name: Name,
    pub arguments: Option<List<Argument>>,
    pub substring: Option<Range>,
}

/// `lower : upper`, each where it is there.
#[cycle(expression)]
#[derive(Drop)]
pub struct Range {
    pub lower: Option<Boxed<Expression>>,
    pub upper: Option<Boxed<Expression>>,
}

/// An argument or a subscript (ISO/IEC 1539-1:2018, 9.5.3 and 15.5.1).
#[cycle(expression)]
#[derive(Drop)]
pub enum Argument {
    /// `keyword = value`, where the keyword may be left out
    Value {
        keyword: Option<Name>,
        value: Expression,
    },
    /// `lower : upper : stride`, where each may be left out; the place is that of the first colon
    Section {
        lower: Option<Boxed<Expression>>,
        place: Place,
        upper: Option<Boxed<Expression>>,
        stride: Option<Boxed<Expression>>,
    },
    /// `lower :: stride`; the place is that of the `::`
    Strided {
        lower: Option<Boxed<Expression>>,
        place: Place,
        stride: Boxed<Expression>,
    },
}

/// A type (ISO/IEC 1539-1:2018, 7.3.2).
#[cycle(expression)]
#[derive(Drop)]
pub enum TypeSpec {
    Integer {
        place: Place,
        kind: Option<KindSelector>,
    },
    Logical {
        place: Place,
        kind: Option<KindSelector>,
    },
    Character {
        place: Place,
        parameters: Option<List<CharacterParameter>>,
    },
    /// `type(name)`
    Derived {
        place: Place,
        name: Name,
    },
    /// `type(*)`
    Assumed {
        place: Place,
    },
}

/// `(kind = value)`, where `kind =` may be left out (ISO/IEC 1539-1:2018, 7.4.3.1).
#[cycle(expression)]
#[derive(Drop)]
pub struct KindSelector {
    pub has_word: bool,
    pub value: Boxed<Expression>,
}

/// A parameter of CHARACTER (ISO/IEC 1539-1:2018, 7.4.4.2), behind its word or without it.
#[cycle(expression)]
#[derive(Drop)]
pub enum CharacterParameter {
    Length {
        word: Option<Place>,
        value: Expression,
    },
    /// `*`
    AssumedLength {
        word: Option<Place>,
        place: Place,
    },
    Kind {
        word: Option<Place>,
        value: Expression,
    },
}
