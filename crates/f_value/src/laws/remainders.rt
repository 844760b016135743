ghost use Rattle.std.specs.Prelude.{◌≡◌, ◌+ℤ◌, ◌*ℤ◌, int_div, int_rem, pos, ◌≤ℤ◌, ◌<ℤ◌};
ghost use Rattle.f_value.specs.Intrinsics.{with_sign_of};
ghost use Rattle.f_value.specs.Laws.{LeavesRemainder, LeavesModulo};

/// A law: what division leaves is what MOD gives (16.9.135).
pub fn division_leaves_the_remainder(a: i128, p: i128)
    ensures { int_div a p *ℤ p +ℤ int_rem a p ≡ a }
{}

/// A law: what MODULO gives lies from 0 to P, without P itself, whatever the sign of P (16.9.136).
pub fn modulo_has_the_sign_of_p(a: i128, p: i128)
    ensures positive { pos 0 <ℤ p → (pos 0 ≤ℤ with_sign_of (int_rem a p) p) × (with_sign_of (int_rem a p) p <ℤ p) }
    ensures negative { p <ℤ pos 0 → (p <ℤ with_sign_of (int_rem a p) p) × (with_sign_of (int_rem a p) p ≤ℤ pos 0) }
{}

/// Laws: MOD and MODULO of two numbers of a kind are numbers of the kind, and stand to division as the standard says.
pub fn remainders_of_a_kind()
    ensures remainder { LeavesRemainder }
    ensures modulo { LeavesModulo }
{}
