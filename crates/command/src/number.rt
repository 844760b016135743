ghost use Rattle.std.specs.Prelude.{◌≡◌, ◌≤◌, ◌↔◌, IsTrue, IfSome, IfNone, length, All};
ghost use Rattle.command.specs.Number.{IsDigit, IsNumber, value_of};

fn are_digits(word: &[u8]) -> bool
    ensures { IsTrue result ↔ All IsDigit word.now }
{
    word.iter().all(|byte| byte.is_ascii_digit())
}

fn is_number(word: &[u8]) -> bool
    ensures { IsTrue result ↔ IsNumber word.now }
{
    if word.is_empty() || word.len() > 19 {
        return false;
    }
    if word.len() > 1 && word[0] == b'0' {
        return false;
    }
    are_digits(word)
}

// The number that the digits name.
fn value(digits: &[u8]) -> u64
    requires few { length digits.now ≤ 19 }
    requires digits { All IsDigit digits.now }
    ensures { result ≡ value_of digits.now }
{
    let mut value = 0;
    for digit in digits {
        value = value * 10 + (*digit - b'0') as u64;
    }
    value
}

/// The number that the word names: 1 to 19 decimal digits, with no 0 before another digit.
pub fn number(word: &[u8]) -> Option<u64>
    ensures none { IfNone result (IsNumber word.now → ⊥) }
    ensures number { IfSome result (λ n. IsNumber word.now) }
    ensures value { IfSome result (λ n. n ≡ value_of word.now) }
{
    if is_number(word) {
        Some(value(word))
    } else {
        None
    }
}
