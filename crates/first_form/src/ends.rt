//! What a text begins and ends with.

ghost use Rattle.std.specs.Prelude.{◌≡◌, ◌≢◌, ℕ, List, [], ◌∷◌, ◌++◌, All, MatchOption};

// What stands behind this front of a text.
pub(crate) fn after<'a>(text: &'a [u8], front: &[u8]) -> Option<&'a [u8]>
    ensures { MatchOption result ((rest : List ℕ) → text.now ≢ front.now ++ rest) (λ x. text.now ≡ front.now ++ x.now) }
{
    text.strip_prefix(front)
}

// What stands before this end of a text.
pub(crate) fn before<'a>(text: &'a [u8], end: &[u8]) -> Option<&'a [u8]>
    ensures { MatchOption result ((front : List ℕ) → text.now ≢ front ++ end.now) (λ x. text.now ≡ x.now ++ end.now) }
{
    text.strip_suffix(end)
}

// What stands between this front and this end.
pub(crate) fn between<'a>(text: &'a [u8], front: &[u8], end: &[u8]) -> Option<&'a [u8]>
    ensures { MatchOption result ((middle : List ℕ) → text.now ≢ front.now ++ (middle ++ end.now)) (λ x. text.now ≡ front.now ++ (x.now ++ end.now)) }
{
    before(after(text, front)?, end)
}

// What stands before the first such byte, and what stands behind it.
pub(crate) fn cut(text: &[u8], at: u8) -> Option<(&[u8], &[u8])>
    ensures { MatchOption result (All (λ b. b ≢ at) text.now) (λ x. (text.now ≡ x.0.now ++ (at ∷ x.1.now)) × All (λ b. b ≢ at) x.0.now) }
{
    for (index, byte) in text.iter().enumerate() {
        if *byte == at {
            return Some((&text[..index], &text[index + 1..]));
        }
    }
    None
}
