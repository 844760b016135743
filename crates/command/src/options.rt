ghost use Rattle.std.specs.Prelude.{◌≡◌, ℕ, Option, IfSome, IfNone, length, nat_eq};
ghost use Rattle.std.specs.List.{starts_with, list_any};
ghost use Rattle.command.specs.Options.{is_option, has_name, have_names, run_options, steps_name, settings, SaysNumber, SaysSteps};
ghost use Rattle.command.specs.Words.{texts};

use crate::number::number;

/// The option that sets the limit on steps, up to its number.
const STEPS: [u8; 8] = *b"--steps=";

/// Whether the word is an option.
pub fn is_option(word: &[u8]) -> bool
    ensures { result ≡ is_option word.now }
{
    word.starts_with(b"-")
}

fn is_run_option(word: &[u8]) -> bool
    ensures { result ≡ has_name run_options word.now }
{
    word.starts_with(&STEPS)
}

/// Whether each option among the words is one of `run`.
pub fn are_run_options(words: &[String]) -> bool
    ensures { result ≡ have_names run_options (texts words.now) }
{
    for word in words {
        if is_option(word.as_bytes()) && !is_run_option(word.as_bytes()) {
            return false;
        }
    }
    true
}

// Whether one of the words sets this option.
fn is_set(words: &[String], name: &[u8]) -> bool
    ensures { result ≡ list_any (λ word. starts_with nat_eq word name.now) (texts words.now) }
{
    for word in words {
        if word.as_bytes().starts_with(name) {
            return true;
        }
    }
    false
}

// What the words set this option to, if they do. None where it is set twice, or not to a number.
fn setting(words: &[String], name: &[u8]) -> Option<Option<u64>>
    ensures none { IfNone result ((said : Option ℕ) → SaysNumber (length name.now) (settings name.now (texts words.now)) said → ⊥) }
    ensures says { IfSome result (λ said. SaysNumber (length name.now) (settings name.now (texts words.now)) said) }
{
    for (i, word) in words.iter().enumerate() {
        let word = word.as_bytes();
        if word.starts_with(name) {
            if is_set(&words[i + 1..], name) {
                return None;
            }
            return match number(&word[name.len()..]) {
                Some(value) => Some(Some(value)),
                None => None,
            };
        }
    }
    Some(None)
}

/// The limit on steps: 1,000,000,000 where the words don't set it. None where they set it twice, or not to a number from 1 to 1,000,000,000,000,000.
pub fn steps(words: &[String]) -> Option<u64>
    ensures none { IfNone result ((steps : ℕ) → SaysSteps (texts words.now) steps → ⊥) }
    ensures says { IfSome result (λ steps. SaysSteps (texts words.now) steps) }
{
    let steps = setting(words, &STEPS)?.unwrap_or(1_000_000_000);
    if steps >= 1 && steps <= 1_000_000_000_000_000 {
        Some(steps)
    } else {
        None
    }
}
