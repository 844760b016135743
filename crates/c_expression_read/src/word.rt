//! Single tokens that stand first.

ghost use Rattle.std.specs.Prelude.{◌≡◌, ◌-◌, length};
ghost use Rattle.c_grammar.specs.Grammar.{begins_post};
ghost use Rattle.c_grammar.specs.Reading.{Gives, seen, IsBroken, IsDeep, closed_at, squared_at, braced_at, semi_at, colon_at, comma_at, ends_braces, ends_list, void_at, next_item, last_comma, begins_spec, opens_list, takes_name, needs_name};
ghost use Rattle.c_expression_read.specs.Gives.{begins_suffix};

use c_grammar::{Allowed, Fault, Kind, ReadError, Token};
use c_scope::Scope;
use c_tree::SpecifierWord;

/// The number of the first of the tokens, where `end` is the number behind the last one.
pub fn number(end: u32, tokens: &[Token]) -> u32
    ensures { result ≡ end - length tokens.now }
{
    match u32::try_from(tokens.len()) {
        Ok(left) => end.saturating_sub(left),
        Err(_) => 0,
    }
}

/// The fault that these tokens are not what should stand there.
pub fn broken(tokens: &[Token]) -> ReadError
    ensures { IsBroken tokens.now result }
{
    ReadError::Fault(Fault {
        kind: Kind::Form,
        left: tokens.len(),
    })
}

/// The fault that they nest too deep.
pub fn deep(tokens: &[Token]) -> ReadError
    ensures { IsDeep tokens.now result }
{
    ReadError::Fault(Fault {
        kind: Kind::Deep,
        left: tokens.len(),
    })
}

/// What stands behind `)`.
#[tactic(auto, unfolding(c_grammar::specs::Reading::closed_at))]
pub fn closed(tokens: &[Token]) -> Result<&[Token], ReadError>
    ensures { Gives (λ x. x.now) result (closed_at tokens.now) }
{
    match tokens {
        [Token::Close, rest @ ..] => Ok(rest),
        _ => Err(broken(tokens)),
    }
}

/// What stands behind `]`.
#[tactic(auto, unfolding(c_grammar::specs::Reading::squared_at))]
pub fn squared(tokens: &[Token]) -> Result<&[Token], ReadError>
    ensures { Gives (λ x. x.now) result (squared_at tokens.now) }
{
    match tokens {
        [Token::SquareClose, rest @ ..] => Ok(rest),
        _ => Err(broken(tokens)),
    }
}

/// What stands behind `}`.
#[tactic(auto, unfolding(c_grammar::specs::Reading::braced_at))]
pub fn braced(tokens: &[Token]) -> Result<&[Token], ReadError>
    ensures { Gives (λ x. x.now) result (braced_at tokens.now) }
{
    match tokens {
        [Token::BraceClose, rest @ ..] => Ok(rest),
        _ => Err(broken(tokens)),
    }
}

/// What stands behind `;`.
#[tactic(auto, unfolding(c_grammar::specs::Reading::semi_at))]
pub fn ended(tokens: &[Token]) -> Result<&[Token], ReadError>
    ensures { Gives (λ x. x.now) result (semi_at tokens.now) }
{
    match tokens {
        [Token::Semi, rest @ ..] => Ok(rest),
        _ => Err(broken(tokens)),
    }
}

/// What stands behind `:`.
#[tactic(auto, unfolding(c_grammar::specs::Reading::colon_at))]
pub fn colon(tokens: &[Token]) -> Result<&[Token], ReadError>
    ensures { Gives (λ x. x.now) result (colon_at tokens.now) }
{
    match tokens {
        [Token::Colon, rest @ ..] => Ok(rest),
        _ => Err(broken(tokens)),
    }
}

/// What stands behind `,` where it stands first.
#[tactic(auto, unfolding(c_grammar::specs::Reading::comma_at))]
pub fn comma_at(tokens: &[Token]) -> Option<&[Token]>
    ensures { comma_at tokens.now ≡ seen (λ x. x.now) result }
{
    match tokens {
        [Token::Comma, rest @ ..] => Some(rest),
        _ => None,
    }
}

/// Whether what stands between braces ends here: at `}`, or where the tokens end.
#[tactic(auto, unfolding(c_grammar::specs::Reading::ends_braces))]
pub fn ends_braces(tokens: &[Token]) -> bool
    ensures { result ≡ ends_braces tokens.now }
{
    matches!(tokens, [] | [Token::BraceClose, ..])
}

/// What stands behind `)` where it stands first.
#[tactic(auto, unfolding(c_grammar::specs::Reading::ends_list))]
pub fn ends_list(tokens: &[Token]) -> Option<&[Token]>
    ensures { ends_list tokens.now ≡ seen (λ x. x.now) result }
{
    match tokens {
        [Token::Close, rest @ ..] => Some(rest),
        _ => None,
    }
}

/// What stands behind `void )` where they stand first.
#[tactic(auto, unfolding(c_grammar::specs::Reading::void_at))]
pub fn void_at(tokens: &[Token]) -> Option<&[Token]>
    ensures { void_at tokens.now ≡ seen (λ x. x.now) result }
{
    match tokens {
        [Token::Word(SpecifierWord::Void), Token::Close, rest @ ..] => Some(rest),
        _ => None,
    }
}

/// What stands behind `,` where it stands first and a name behind it.
#[tactic(auto, unfolding(c_grammar::specs::Reading::next_item))]
pub fn next_enumerator(tokens: &[Token]) -> Option<&[Token]>
    ensures { next_item tokens.now ≡ seen (λ x. x.now) result }
{
    match tokens {
        [Token::Comma, rest @ ..] => match rest {
            [Token::Name(_), ..] => Some(rest),
            _ => None,
        },
        _ => None,
    }
}

/// Whether `,` stands first, and what stands behind it or else here.
#[tactic(auto, unfolding(c_grammar::specs::Reading::last_comma))]
pub fn last_comma(tokens: &[Token]) -> (bool, &[Token])
    ensures { (result.0, result.1.now) ≡ last_comma tokens.now }
{
    match tokens {
        [Token::Comma, rest @ ..] => (true, rest),
        _ => (false, tokens),
    }
}

/// Whether a postfix operator begins here.
pub fn begins_postfix(tokens: &[Token]) -> bool
    ensures { result ≡ begins_post tokens.now }
{
    matches!(
        tokens,
        [
            Token::SquareOpen
                | Token::Open
                | Token::Dot
                | Token::Arrow
                | Token::Increment
                | Token::Decrement,
            ..
        ]
    )
}

/// Whether an array or a function begins here, behind what is declared.
pub fn begins_suffix(tokens: &[Token]) -> bool
    ensures { result ≡ begins_suffix tokens.now }
{
    matches!(tokens, [Token::SquareOpen | Token::Open, ..])
}

/// Whether one more specifier begins here, where a base stands among those before it or not.
#[tactic(auto, unfolding(c_grammar::specs::Reading::begins_spec))]
pub fn begins_specifier(based: bool, scope: &Scope, tokens: &[Token]) -> bool
    ensures { result ≡ begins_spec based scope.now tokens.now }
{
    match tokens {
        [Token::Name(_), ..] => {
            if based {
                false
            } else {
                scope.starts_type(tokens)
            }
        }
        _ => scope.starts_type(tokens),
    }
}

/// Whether `(` where a declarator begins opens a list of parameters; the tokens stand behind it.
#[tactic(auto, unfolding(c_grammar::specs::Reading::opens_list))]
pub fn opens_list(allowed: Allowed, scope: &Scope, tokens: &[Token]) -> bool
    ensures { result ≡ opens_list allowed scope.now tokens.now }
{
    match allowed {
        Allowed::Named => false,
        Allowed::Abstract | Allowed::Either => match tokens {
            [Token::Close, ..] => true,
            _ => scope.starts_type(tokens),
        },
    }
}

/// Whether a declarator may have a name.
pub fn takes_name(allowed: Allowed) -> bool
    ensures { result ≡ takes_name allowed }
{
    match allowed {
        Allowed::Abstract => false,
        Allowed::Named | Allowed::Either => true,
    }
}

/// Whether a declarator must have a name.
pub fn needs_name(allowed: Allowed) -> bool
    ensures { result ≡ needs_name allowed }
{
    match allowed {
        Allowed::Named => true,
        Allowed::Abstract | Allowed::Either => false,
    }
}
