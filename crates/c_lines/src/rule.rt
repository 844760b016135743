//! Rules of the preprocessor.

ghost use Rattle.std.specs.Prelude.{◌≡◌};
ghost use Rattle.c_lines.specs.Rules.{tag_number, broken_by, first_ill};

use c_text::{Kind, Lexeme, Point};

/// A rule of the preprocessor.
#[derive(Clone, Copy, Debug, PartialEq, Eq)]
pub enum Rule {
    /// `P01`: a byte is allowed where it stands.
    ForeignByte,
    /// `P02`: comments, strings and character constants end.
    OpenText,
    /// `P03`: a directive has a known form.
    Form,
    /// `P04`: conditionals balance.
    Balance,
    /// `P05`: a system header is built in, and includes nest at most 16 deep.
    Header,
    /// `P06`: there is no macro with parameters, and neither `#` nor `##`.
    Hash,
    /// `P07`: a macro is defined anew only in the same way.
    Redefined,
    /// `P08`: `#error` isn't met.
    Error,
    /// `P09`: a token has one of the forms of the grammar.
    NoToken,
    /// `P10`: files and their tokens aren't too many.
    TooMany,
}

/// A broken rule, and where in its text.
#[derive(Clone, Copy, Debug, PartialEq, Eq)]
pub struct Fault {
    pub point: Point,
    pub rule: Rule,
}

/// The number of a rule's tag.
pub fn tag_number(rule: Rule) -> u16
    ensures { result ≡ tag_number rule }
{
    match rule {
        Rule::ForeignByte => 501,
        Rule::OpenText => 502,
        Rule::Form => 503,
        Rule::Balance => 504,
        Rule::Header => 505,
        Rule::Hash => 506,
        Rule::Redefined => 507,
        Rule::Error => 508,
        Rule::NoToken => 509,
        Rule::TooMany => 510,
    }
}

fn broken_by(kind: Kind) -> Option<Rule>
    ensures { result ≡ broken_by kind }
{
    match kind {
        Kind::ForeignByte => Some(Rule::ForeignByte),
        Kind::OpenText => Some(Rule::OpenText),
        _ => None,
    }
}

/// The first of these lexemes that breaks `P01` or `P02`, and which of them.
#[tactic(auto, unfolding(crate::specs::Rules::first_ill))]
pub fn first_ill(lexemes: &[Lexeme]) -> Option<Fault>
    ensures { result ≡ first_ill lexemes.now }
{
    let mut rest = lexemes;
    'lexemes: while let Some((first, tail)) = rest.split_first() {
        match broken_by(first.kind) {
            Some(rule) => {
                return Some(Fault {
                    point: first.point,
                    rule,
                });
            }
            None => rest = tail,
        }
    }
    None
}
