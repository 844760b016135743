//! Which rule is broken, and where.

ghost use Rattle.std.specs.Prelude.{◌≡◌, slice_get};
ghost use Rattle.jf_base.specs.declared.place.Refusal.TheVariants.{At};
ghost use Rattle.c_read.specs.Reading.{number_of, tag_of, place_or, refused_at};
ghost use Rattle.c_read.specs.Views.{refused};

use crate::nesting::told;
use c_external_read::{BrokenExternal, ExternalsError};
use c_grammar::{Kind, Token};
use jf_base::{Place, Refusal, Tag};

// The number of the word that breaks a rule.
fn number_of(words: usize, broken: BrokenExternal) -> usize
    ensures { result ≡ number_of words broken }
{
    match broken.fault.kind {
        Kind::Form => words.saturating_sub(broken.left),
        Kind::Deep => {
            let before = broken
                .left
                .saturating_sub(broken.fault.left)
                .saturating_sub(1);
            words.saturating_sub(broken.left) + before
        }
    }
}

fn tag_of(kind: Kind) -> Tag
    ensures { result ≡ tag_of kind }
{
    match kind {
        Kind::Form => Tag(601),
        Kind::Deep => Tag(602),
    }
}

// The place with this number.
fn place_of(places: &[Place], number: usize) -> Place
    ensures { result ≡ place_or (slice_get places.now number) }
{
    match places.get(number) {
        Some(place) => *place,
        None => Place {
            file: 0,
            line: 0,
            column: 0,
        },
    }
}

fn refused_at(places: &[Place], broken: BrokenExternal) -> Refusal
    ensures { result ≡ At (refused_at places.now broken) (tag_of broken.fault.kind) }
{
    Refusal::At {
        place: place_of(places, number_of(places.len(), broken)),
        tag: tag_of(broken.fault.kind),
    }
}

/// The refusal of a file that has these words at these places.
pub fn refused(words: &[Token], places: &[Place], error: ExternalsError) -> Refusal
    ensures { result ≡ refused words.now places.now error }
{
    match error {
        ExternalsError::Memory => Refusal::Memory,
        ExternalsError::Broken(broken) => refused_at(places, told(words, broken)),
    }
}
