//! Trees as words with blanks between them. `<` and `>` stand around an operator with its operands, `{` and `}` around specifiers with a declarator, `_` stands
//! where a declarator has no name. Where numbers are asked for, each word that begins a node has the node's number behind `@`.

use c_tree::{
    AssignOperator, BinaryOperator, Choice, ConstantType, Core, Declarator, Enumerator, Expr, Link,
    MemberDeclaration, Parameters, PointerMark, Postfix, PrefixOperator, Specifier, SpecifierWord,
    Suffix, Target, Typed,
};
use std::alloc::{AllocError, Global};

/// The most parts that a tree has in a test.
const MOST_PARTS: u32 = 10_000;

/// What is still to be written.
#[derive(Clone, Copy)]
pub enum Part<'a> {
    Word(&'a str),
    Name(u32),
    /// The number of the node that began.
    At(u32),
    /// A word that stands there only with its number.
    Numbered(&'a str, u32),
    Constant(u64, ConstantType),
    Character(u8),
    Literal(u32),
    Literals(&'a [u32]),
    Expression(&'a Expr),
    Others(&'a [Expr]),
    Operators(&'a [Postfix]),
    Links(&'a [Link]),
    Choices(&'a [Choice]),
    Targets(&'a [Target]),
    Typed(&'a Typed),
    OtherTyped(&'a [Typed]),
    Specifiers(&'a [Specifier]),
    Members(&'a [MemberDeclaration]),
    Enumerators(&'a [Enumerator]),
    Declarator(&'a Declarator),
    OtherDeclarators(&'a [Declarator]),
    Marks(&'a [PointerMark]),
    Core(&'a Core),
    Suffixes(&'a [Suffix]),
}

fn prefix_word(operator: PrefixOperator) -> &'static str {
    match operator {
        PrefixOperator::Increment => "++",
        PrefixOperator::Decrement => "--",
        PrefixOperator::Address => "&",
        PrefixOperator::Dereference => "*",
        PrefixOperator::Plus => "+",
        PrefixOperator::Minus => "-",
        PrefixOperator::Complement => "~",
        PrefixOperator::Not => "!",
    }
}

fn binary_word(operator: BinaryOperator) -> &'static str {
    match operator {
        BinaryOperator::Times => "*",
        BinaryOperator::Over => "/",
        BinaryOperator::Remainder => "%",
        BinaryOperator::Plus => "+",
        BinaryOperator::Minus => "-",
        BinaryOperator::ShiftLeft => "<<",
        BinaryOperator::ShiftRight => ">>",
        BinaryOperator::Less => "<",
        BinaryOperator::Greater => ">",
        BinaryOperator::LessEqual => "<=",
        BinaryOperator::GreaterEqual => ">=",
        BinaryOperator::Equal => "==",
        BinaryOperator::NotEqual => "!=",
        BinaryOperator::BitAnd => "&",
        BinaryOperator::BitXor => "^",
        BinaryOperator::BitOr => "|",
        BinaryOperator::And => "&&",
        BinaryOperator::Or => "||",
    }
}

fn assign_word(operator: AssignOperator) -> &'static str {
    match operator {
        AssignOperator::Set => "=",
        AssignOperator::Times => "*=",
        AssignOperator::Over => "/=",
        AssignOperator::Remainder => "%=",
        AssignOperator::Plus => "+=",
        AssignOperator::Minus => "-=",
        AssignOperator::ShiftLeft => "<<=",
        AssignOperator::ShiftRight => ">>=",
        AssignOperator::BitAnd => "&=",
        AssignOperator::BitXor => "^=",
        AssignOperator::BitOr => "|=",
    }
}

fn specifier_word(word: SpecifierWord) -> &'static str {
    match word {
        SpecifierWord::Typedef => "typedef",
        SpecifierWord::Extern => "extern",
        SpecifierWord::Static => "static",
        SpecifierWord::Const => "const",
        SpecifierWord::Void => "void",
        SpecifierWord::Bool => "_Bool",
        SpecifierWord::Char => "char",
        SpecifierWord::Short => "short",
        SpecifierWord::Int => "int",
        SpecifierWord::Long => "long",
        SpecifierWord::Signed => "signed",
        SpecifierWord::Unsigned => "unsigned",
        SpecifierWord::Descriptor => "CFI_cdesc_t",
    }
}

fn mark_word(mark: PointerMark) -> &'static str {
    match mark {
        PointerMark::Star => "*",
        PointerMark::Const => "const",
        PointerMark::Restrict => "restrict",
    }
}

fn constant_suffix(kind: ConstantType) -> &'static str {
    match kind {
        ConstantType::Int => "",
        ConstantType::UnsignedInt => "u",
        ConstantType::Long => "l",
        ConstantType::UnsignedLong => "ul",
        ConstantType::LongLong => "ll",
        ConstantType::UnsignedLongLong => "ull",
    }
}

// Puts parts before all others, the first of them first.
fn put<'a>(parts: &mut Vec<Part<'a>>, first: &[Part<'a>]) -> Result<(), AllocError> {
    for i in (0..first.len()).rev() {
        parts.push(first[i])?;
    }
    Ok(())
}

// An operator before its operand, or `sizeof`, or a conversion.
fn put_unary<'a>(
    parts: &mut Vec<Part<'a>>,
    word: &'a str,
    at: u32,
    operands: &[Part<'a>],
) -> Result<(), AllocError> {
    parts.push(Part::Word(">"))?;
    put(parts, operands)?;
    put(parts, &[Part::Word("<"), Part::At(at), Part::Word(word)])
}

// A first operand with what stands behind it.
fn put_operation<'a>(
    parts: &mut Vec<Part<'a>>,
    at: u32,
    operands: &[Part<'a>],
) -> Result<(), AllocError> {
    parts.push(Part::Word(">"))?;
    put(parts, operands)?;
    put(parts, &[Part::Word("<"), Part::At(at)])
}

fn put_operator<'a>(parts: &mut Vec<Part<'a>>, e: &'a Expr) -> Result<(), AllocError> {
    match e {
        Expr::Postfix {
            operand,
            suffixes,
            at,
        } => put_operation(
            parts,
            *at,
            &[
                Part::Expression(operand.get()),
                Part::Operators(suffixes.as_slice()),
            ],
        ),
        Expr::Chain {
            first,
            links,
            at,
            ..
        } => put_operation(
            parts,
            *at,
            &[Part::Expression(first.get()), Part::Links(links.as_slice())],
        ),
        Expr::Conditional {
            choices,
            otherwise,
            at,
        } => put_operation(
            parts,
            *at,
            &[
                Part::Choices(choices.as_slice()),
                Part::Expression(otherwise.get()),
            ],
        ),
        Expr::Assignment { targets, value, at } => put_operation(
            parts,
            *at,
            &[
                Part::Targets(targets.as_slice()),
                Part::Expression(value.get()),
            ],
        ),
        Expr::Comma { first, others, at } => put_operation(
            parts,
            *at,
            &[
                Part::Expression(first.get()),
                Part::Others(others.as_slice()),
            ],
        ),
        _ => Ok(()),
    }
}

fn put_expression<'a>(parts: &mut Vec<Part<'a>>, e: &'a Expr) -> Result<(), AllocError> {
    match e {
        Expr::Name { name, at } => put(parts, &[Part::Name(*name), Part::At(*at)]),
        Expr::Constant { value, kind, at } => {
            put(parts, &[Part::Constant(*value, *kind), Part::At(*at)])
        }
        Expr::Character { value, at } => put(parts, &[Part::Character(*value), Part::At(*at)]),
        Expr::Text { first, others, at } => put(
            parts,
            &[
                Part::Literal(*first),
                Part::At(*at),
                Part::Literals(others.as_slice()),
            ],
        ),
        Expr::Parenthesized { inner, at } => put(
            parts,
            &[
                Part::Word("("),
                Part::At(*at),
                Part::Expression(inner.get()),
                Part::Word(")"),
            ],
        ),
        Expr::Prefix {
            operator,
            operand,
            at,
        } => put_unary(
            parts,
            prefix_word(*operator),
            *at,
            &[Part::Expression(operand.get())],
        ),
        Expr::SizeofExpr { operand, at } => {
            put_unary(parts, "sizeof", *at, &[Part::Expression(operand.get())])
        }
        Expr::SizeofType { kind, at } => put_unary(
            parts,
            "sizeof",
            *at,
            &[Part::Typed(kind.get())],
        ),
        Expr::Cast { kind, operand, at } => put_unary(
            parts,
            "cast",
            *at,
            &[Part::Typed(kind.get()), Part::Expression(operand.get())],
        ),
        other => put_operator(parts, other),
    }
}

fn put_arguments<'a>(
    parts: &mut Vec<Part<'a>>,
    arguments: &'a [Expr],
    at: u32,
) -> Result<(), AllocError> {
    parts.push(Part::Word(")"))?;
    if let Some((first, others)) = arguments.split_first() {
        put(parts, &[Part::Expression(first), Part::Others(others)])?;
    }
    put(parts, &[Part::Word("("), Part::At(at)])
}

fn put_postfix<'a>(parts: &mut Vec<Part<'a>>, operator: &'a Postfix) -> Result<(), AllocError> {
    match operator {
        Postfix::Index { index, at } => put(
            parts,
            &[
                Part::Word("["),
                Part::At(*at),
                Part::Expression(index),
                Part::Word("]"),
            ],
        ),
        Postfix::Call { arguments, at } => put_arguments(parts, arguments.as_slice(), *at),
        Postfix::Member { name, at } => {
            put(parts, &[Part::Word("."), Part::At(*at), Part::Name(*name)])
        }
        Postfix::Arrow { name, at } => {
            put(parts, &[Part::Word("->"), Part::At(*at), Part::Name(*name)])
        }
        Postfix::Increment { at } => put(parts, &[Part::Word("++"), Part::At(*at)]),
        Postfix::Decrement { at } => put(parts, &[Part::Word("--"), Part::At(*at)]),
    }
}

fn put_tag<'a>(parts: &mut Vec<Part<'a>>, tag: &Option<u32>) -> Result<(), AllocError> {
    match tag {
        None => Ok(()),
        Some(tag) => put(parts, &[Part::Name(*tag)]),
    }
}

fn put_struct<'a>(
    parts: &mut Vec<Part<'a>>,
    tag: &Option<u32>,
    members: &'a [MemberDeclaration],
    at: u32,
) -> Result<(), AllocError> {
    put(
        parts,
        &[Part::Word("{"), Part::Members(members), Part::Word("}")],
    )?;
    put_tag(parts, tag)?;
    put(parts, &[Part::Word("struct"), Part::At(at)])
}

fn put_enum<'a>(
    parts: &mut Vec<Part<'a>>,
    tag: &Option<u32>,
    enumerators: &'a [Enumerator],
    has_comma: bool,
    at: u32,
) -> Result<(), AllocError> {
    parts.push(Part::Word("}"))?;
    if has_comma {
        parts.push(Part::Word(","))?;
    }
    put(parts, &[Part::Word("{"), Part::Enumerators(enumerators)])?;
    put_tag(parts, tag)?;
    put(parts, &[Part::Word("enum"), Part::At(at)])
}

fn put_specifier<'a>(parts: &mut Vec<Part<'a>>, one: &'a Specifier) -> Result<(), AllocError> {
    match one {
        Specifier::Word { word, at } => {
            put(parts, &[Part::Word(specifier_word(*word)), Part::At(*at)])
        }
        Specifier::StructTag { tag, at } => put(
            parts,
            &[Part::Word("struct"), Part::At(*at), Part::Name(*tag)],
        ),
        Specifier::Struct { tag, members, at } => put_struct(parts, tag, members.as_slice(), *at),
        Specifier::EnumTag { tag, at } => {
            put(
                parts,
                &[Part::Word("enum"), Part::At(*at), Part::Name(*tag)],
            )
        }
        Specifier::Enum {
            tag,
            enumerators,
            has_comma,
            at,
        } => { put_enum(parts, tag, enumerators.as_slice(), *has_comma, *at) }
        Specifier::TypedefName { name, at } => put(parts, &[Part::Name(*name), Part::At(*at)]),
        Specifier::DescriptorOfRank { rank, kind, at } => put(
            parts,
            &[
                Part::Word("CFI_CDESC_T"),
                Part::At(*at),
                Part::Constant(*rank, *kind),
            ],
        ),
    }
}

fn put_typed<'a>(parts: &mut Vec<Part<'a>>, one: &'a Typed) -> Result<(), AllocError> {
    put(
        parts,
        &[
            Part::Word("{"),
            Part::At(one.at),
            Part::Specifiers(one.specifiers.as_slice()),
            Part::Declarator(&one.declarator),
            Part::Word("}"),
        ],
    )
}

fn put_members<'a>(
    parts: &mut Vec<Part<'a>>,
    one: &'a MemberDeclaration,
) -> Result<(), AllocError> {
    parts.push(Part::Word(";"))?;
    if let Some((first, others)) = one.declarators.as_slice().split_first() {
        put(
            parts,
            &[Part::Declarator(first), Part::OtherDeclarators(others)],
        )?;
    }
    put(
        parts,
        &[
            Part::Numbered("m", one.at),
            Part::Specifiers(one.specifiers.as_slice()),
        ],
    )
}

fn put_enumerator<'a>(parts: &mut Vec<Part<'a>>, one: &'a Enumerator) -> Result<(), AllocError> {
    if let Some(value) = &one.value {
        put(parts, &[Part::Word("="), Part::Expression(value.get())])?;
    }
    put(parts, &[Part::Name(one.name), Part::At(one.at)])
}

fn put_declarator<'a>(parts: &mut Vec<Part<'a>>, one: &'a Declarator) -> Result<(), AllocError> {
    put(
        parts,
        &[
            Part::Numbered("d", one.at),
            Part::Marks(one.marks.as_slice()),
            Part::Core(&one.core),
            Part::Suffixes(one.suffixes.as_slice()),
        ],
    )
}

fn put_core<'a>(parts: &mut Vec<Part<'a>>, core: &'a Core) -> Result<(), AllocError> {
    match core {
        Core::Absent => put(parts, &[Part::Word("_")]),
        Core::Identifier { name, at } => put(parts, &[Part::Name(*name), Part::At(*at)]),
        Core::Group { inner, at } => put(
            parts,
            &[
                Part::Word("("),
                Part::At(*at),
                Part::Declarator(inner.get()),
                Part::Word(")"),
            ],
        ),
    }
}

fn put_parameters<'a>(
    parts: &mut Vec<Part<'a>>,
    parameters: &'a Parameters,
) -> Result<(), AllocError> {
    match parameters {
        Parameters::Nothing => Ok(()),
        Parameters::Void => put(parts, &[Part::Word("void")]),
        Parameters::Listed(all) => match all.as_slice().split_first() {
            None => Ok(()),
            Some((first, others)) => put(parts, &[Part::Typed(first), Part::OtherTyped(others)]),
        },
    }
}

fn put_suffix<'a>(parts: &mut Vec<Part<'a>>, suffix: &'a Suffix) -> Result<(), AllocError> {
    match suffix {
        Suffix::Array { length, at } => {
            parts.push(Part::Word("]"))?;
            if let Some(length) = length {
                parts.push(Part::Expression(length.get()))?;
            }
            put(parts, &[Part::Word("["), Part::At(*at)])
        }
        Suffix::Function { parameters, at } => {
            parts.push(Part::Word(")"))?;
            put_parameters(parts, parameters)?;
            put(parts, &[Part::Word("("), Part::At(*at)])
        }
    }
}

// The first of a list of expressions' parts, with the others behind it.
fn put_joined<'a>(parts: &mut Vec<Part<'a>>, list: Part<'a>) -> Result<(), AllocError> {
    match list {
        Part::Others(all) => match all.split_first() {
            None => Ok(()),
            Some((one, rest)) => put(
                parts,
                &[Part::Word(","), Part::Expression(one), Part::Others(rest)],
            ),
        },
        Part::Links(all) => match all.split_first() {
            None => Ok(()),
            Some((one, rest)) => put(
                parts,
                &[
                    Part::Word(binary_word(one.operator)),
                    Part::At(one.at),
                    Part::Expression(&one.right),
                    Part::Links(rest),
                ],
            ),
        },
        Part::Choices(all) => match all.split_first() {
            None => Ok(()),
            Some((one, rest)) => put(
                parts,
                &[
                    Part::Expression(&one.test),
                    Part::Word("?"),
                    Part::At(one.at),
                    Part::Expression(&one.value),
                    Part::Word(":"),
                    Part::Choices(rest),
                ],
            ),
        },
        Part::Targets(all) => match all.split_first() {
            None => Ok(()),
            Some((one, rest)) => put(
                parts,
                &[
                    Part::Expression(&one.place),
                    Part::Word(assign_word(one.operator)),
                    Part::At(one.at),
                    Part::Targets(rest),
                ],
            ),
        },
        _ => Ok(()),
    }
}

// The first of a list of declarators' parts, with the others behind it.
fn put_declared<'a>(parts: &mut Vec<Part<'a>>, list: Part<'a>) -> Result<(), AllocError> {
    match list {
        Part::OtherTyped(all) => match all.split_first() {
            None => Ok(()),
            Some((one, rest)) => put(
                parts,
                &[Part::Word(","), Part::Typed(one), Part::OtherTyped(rest)],
            ),
        },
        Part::OtherDeclarators(all) => match all.split_first() {
            None => Ok(()),
            Some((one, rest)) => put(
                parts,
                &[
                    Part::Word(","),
                    Part::Declarator(one),
                    Part::OtherDeclarators(rest),
                ],
            ),
        },
        Part::Marks(all) => match all.split_first() {
            None => Ok(()),
            Some((one, rest)) => put(parts, &[Part::Word(mark_word(*one)), Part::Marks(rest)]),
        },
        Part::Literals(all) => match all.split_first() {
            None => Ok(()),
            Some((one, rest)) => put(parts, &[Part::Literal(*one), Part::Literals(rest)]),
        },
        other => put_joined(parts, other),
    }
}

// The first of a list whose elements are written by functions of their own, behind which the others stand.
fn put_first<'a>(parts: &mut Vec<Part<'a>>, list: Part<'a>) -> Result<(), AllocError> {
    match list {
        Part::Operators(all) => match all.split_first() {
            None => Ok(()),
            Some((one, rest)) => {
                parts.push(Part::Operators(rest))?;
                put_postfix(parts, one)
            }
        },
        Part::Specifiers(all) => match all.split_first() {
            None => Ok(()),
            Some((one, rest)) => {
                parts.push(Part::Specifiers(rest))?;
                put_specifier(parts, one)
            }
        },
        Part::Members(all) => match all.split_first() {
            None => Ok(()),
            Some((one, rest)) => {
                parts.push(Part::Members(rest))?;
                put_members(parts, one)
            }
        },
        Part::Suffixes(all) => match all.split_first() {
            None => Ok(()),
            Some((one, rest)) => {
                parts.push(Part::Suffixes(rest))?;
                put_suffix(parts, one)
            }
        },
        other => put_declared(parts, other),
    }
}

fn put_enumerators<'a>(parts: &mut Vec<Part<'a>>, all: &'a [Enumerator]) -> Result<(), AllocError> {
    match all {
        [] => Ok(()),
        [one] => put_enumerator(parts, one),
        [one, rest @ ..] => {
            put(parts, &[Part::Word(","), Part::Enumerators(rest)])?;
            put_enumerator(parts, one)
        }
    }
}

// What a part is made of.
fn put_whole<'a>(parts: &mut Vec<Part<'a>>, part: Part<'a>) -> Result<(), AllocError> {
    match part {
        Part::Expression(e) => put_expression(parts, e),
        Part::Typed(one) => put_typed(parts, one),
        Part::Declarator(one) => put_declarator(parts, one),
        Part::Core(core) => put_core(parts, core),
        Part::Enumerators(all) => put_enumerators(parts, all),
        list => put_first(parts, list),
    }
}

/// What is written of a tree.
#[derive(Drop)]
pub struct Shown {
    pub text: String,
    has_numbers: bool,
}

impl Shown {
    pub fn new(alloc: Global, has_numbers: bool) -> Shown {
        Shown {
            text: String::new(alloc),
            has_numbers,
        }
    }

    /// Writes a word.
    pub fn word(&mut self, word: &str) -> Result<(), AllocError> {
        if !self.text.is_empty() {
            self.text.push_str(" ")?;
        }
        self.text.push_str(word)?;
        Ok(())
    }

    fn letter(&mut self, code: u32) -> Result<(), AllocError> {
        match u8::try_from(code) {
            Ok(byte) => {
                self.text.push(char::from(byte))?;
                Ok(())
            }
            Err(_) => Ok(()),
        }
    }

    fn quoted(&mut self, quote: &str, code: u32) -> Result<(), AllocError> {
        self.word(quote)?;
        self.letter(code)?;
        self.text.push_str(quote)?;
        Ok(())
    }

    fn at(&mut self, alloc: Global, at: u32) -> Result<(), AllocError> {
        if self.has_numbers {
            self.text.push_str(format!(in alloc; "@{at}")?.as_str())?;
        }
        Ok(())
    }

    fn numbered(&mut self, alloc: Global, word: &str, at: u32) -> Result<(), AllocError> {
        if self.has_numbers {
            self.word(word)?;
        }
        self.at(alloc, at)
    }

    fn constant(
        &mut self,
        alloc: Global,
        value: u64,
        kind: ConstantType,
    ) -> Result<(), AllocError> {
        self.word(format!(in alloc; "{value}")?.as_str())?;
        self.text.push_str(constant_suffix(kind))?;
        Ok(())
    }

    // Writes a part, or puts what it is made of before the others.
    fn part<'a>(
        &mut self,
        alloc: Global,
        parts: &mut Vec<Part<'a>>,
        part: Part<'a>,
    ) -> Result<(), AllocError> {
        match part {
            Part::Word(word) => self.word(word),
            Part::Name(name) => {
                self.word("")?;
                self.letter(name)
            }
            Part::At(at) => self.at(alloc, at),
            Part::Numbered(word, at) => self.numbered(alloc, word, at),
            Part::Constant(value, kind) => self.constant(alloc, value, kind),
            Part::Character(value) => self.quoted("'", u32::from(value)),
            Part::Literal(number) => self.quoted("\"", number),
            whole => put_whole(parts, whole),
        }
    }

    /// Writes a tree.
    pub fn show(&mut self, alloc: Global, tree: Part<'_>) -> Result<(), AllocError> {
        let mut parts = Vec::new(alloc);
        parts.push(tree)?;
        for _ in 0..MOST_PARTS {
            match parts.pop() {
                None => return Ok(()),
                Some(part) => self.part(alloc, &mut parts, part)?,
            }
        }
        self.word("..")
    }
}
