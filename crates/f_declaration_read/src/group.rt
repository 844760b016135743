//! What stands behind parentheses.

ghost use Rattle.std.specs.Prelude.{◌≡◌};
ghost use Rattle.f_declaration_grammar.specs.DeclarationReading.{begins_name, begins_head};
ghost use Rattle.f_expr_read.specs.Views.{tokens_of};

use f_expr_read::behind_group;
use f_lex::{Spanned, Token};

#[tactic(auto, unfolding(f_declaration_grammar::specs::DeclarationReading::begins_name))]
fn begins_name(tokens: &[Spanned]) -> bool
    ensures { result ≡ begins_name (tokens_of tokens.now) }
{
    match tokens {
        [
            Spanned {
                token: Token::Name(_),
                ..
            },
            ..
        ] => true,
        _ => false,
    }
}

/// A name, maybe parentheses, and a name stand first: so what stands behind the type of a function goes on, and no variable.
#[tactic(auto, unfolding(f_declaration_grammar::specs::DeclarationReading::begins_head))]
pub fn begins_head(tokens: &[Spanned]) -> bool
    ensures { result ≡ begins_head (tokens_of tokens.now) }
{
    match tokens {
        [
            Spanned {
                token: Token::Name(_),
                ..
            },
            rest @ ..,
        ] => begins_name(behind_group(rest)),
        _ => false,
    }
}
