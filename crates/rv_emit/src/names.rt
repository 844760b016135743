//! The names of units.

ghost use Rattle.std.specs.Prelude.{◌≡◌, ◌<◌, ◌/◌, ◌^◌, ◌++◌, ◌∷◌, [], IfOk, OnOk, string_bytes};
ghost use Rattle.emitted_code.specs.Names.{letter, proc_name, image_name, image_place};

use jf_base::Text;
use std::alloc::{AllocError, Global};

/// The name of the unit with which a program begins.
const MAIN: &str = "main";

/// The bytes of code in front of the image.
const START: u64 = 20;

fn push_byte(name: &mut String, b: u8) -> Result<(), AllocError>
    requires { b < 128 }
    ensures { OnOk result (string_bytes name.new ≡ string_bytes name.old ++ b ∷ []) }
{
    name.push(b as char)
}

// A letter for the lowest four bits.
fn push_letter(name: &mut String, n: u32) -> Result<(), AllocError>
    ensures { OnOk result (string_bytes name.new ≡ string_bytes name.old ++ letter n ∷ []) }
{
    push_byte(name, 97 + (n % 16) as u8)
}

// The letters of the upper 16 bits.
fn push_upper(name: &mut String, p: u32) -> Result<(), AllocError>
    ensures { OnOk result (string_bytes name.new ≡ string_bytes name.old ++ letter (p / 2 ^ 28) ∷ letter (p / 2 ^ 24) ∷ letter (p / 2 ^ 20) ∷ letter (p / 2 ^ 16) ∷ []) }
{
    push_letter(name, p / (1 << 28))?;
    push_letter(name, p / (1 << 24))?;
    push_letter(name, p / (1 << 20))?;
    push_letter(name, p / (1 << 16))
}

// The letters of the lower 16 bits.
fn push_lower(name: &mut String, p: u32) -> Result<(), AllocError>
    ensures { OnOk result (string_bytes name.new ≡ string_bytes name.old ++ letter (p / 2 ^ 12) ∷ letter (p / 2 ^ 8) ∷ letter (p / 2 ^ 4) ∷ letter p ∷ []) }
{
    push_letter(name, p / (1 << 12))?;
    push_letter(name, p / (1 << 8))?;
    push_letter(name, p / (1 << 4))?;
    push_letter(name, p)
}

/// The name of the procedure of this number.
pub fn name_of(alloc: Global, p: u32) -> Result<Text, AllocError>
    ensures { IfOk result (λ name. name ≡ proc_name p) }
{
    let mut name = String::new(alloc);
    push_byte(&mut name, b'p')?;
    push_upper(&mut name, p)?;
    push_lower(&mut name, p)?;
    Ok(Text::from_string(name))
}

/// The name of the unit that has the image.
pub fn name_of_image(alloc: Global) -> Result<Text, AllocError>
    ensures { IfOk result (λ name. name ≡ image_name) }
{
    Text::from_text(alloc, MAIN)
}

/// Where this byte of the image lies in its unit. A place beyond 64 bits is want of memory.
pub fn place_of(n: u64) -> Result<u64, AllocError>
    ensures { IfOk result (λ place. place ≡ image_place n) }
{
    n.checked_add(START).ok_or(AllocError)
}
