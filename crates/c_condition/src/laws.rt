//! Laws of the grammar.

ghost use Rattle.std.specs.Prelude.{◌≡◌, List};
ghost use Rattle.c_condition.specs.declared.number.Number.{Number};
ghost use Rattle.c_condition.specs.declared.token.Token.{Token};
ghost use Rattle.c_condition.specs.Grammar.{Expr, IsConstantExpression, Controls};

/// Tokens are those of one constant expression at most.
pub fn one_expression()
    ensures { (tokens : List Token) (d e : Expr) → IsConstantExpression tokens d → IsConstantExpression tokens e → d ≡ e }
{}

/// Tokens have one value at most.
pub fn one_value()
    ensures { (tokens : List Token) (v w : Number) → Controls tokens v → Controls tokens w → v ≡ w }
{}
