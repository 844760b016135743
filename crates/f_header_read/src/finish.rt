//! The end of a statement.

ghost use Rattle.std.specs.Prelude.{◌≡◌};
ghost use Rattle.f_declaration_grammar.specs.DeclarationReading.{ends};
ghost use Rattle.f_expr_read.specs.Gives.{Gives};
ghost use Rattle.f_expr_read.specs.Views.{tokens_of};
ghost use Rattle.f_declared.specs.Views.{view_declared};
ghost use Rattle.f_header_read.specs.Heads.{is_ended};

use f_declared::Declared;
use f_expr_read::ReadError;
use f_lex::Spanned;

/// No tokens are left.
pub fn is_ended(tokens: &[Spanned]) -> bool
    ensures { result ≡ is_ended (tokens_of tokens.now) }
{
    match tokens {
        [] => true,
        [_, ..] => false,
    }
}

/// The statement, where no tokens are left.
#[tactic(auto, unfolding(f_declaration_grammar::specs::DeclarationReading::ends))]
pub fn finished(statement: Declared, tokens: &[Spanned]) -> Result<Declared, ReadError>
    ensures { Gives view_declared result (ends (view_declared statement) (tokens_of tokens.now)) }
{
    match tokens {
        [] => Ok(statement),
        [_, ..] => Err(ReadError::Form),
    }
}
