//! Where a text comes from.

ghost use Rattle.std.specs.Prelude.{◌≡◌};
ghost use Rattle.c_directives.specs.Texts.{place_of};
ghost use Rattle.c_directives.specs.Reading.{hash_place};

use c_text::{Lexeme, Point};
use jf_base::Place;

/// Where a text comes from: it is a file of the words with this number, or stands for an `#include` there.
#[derive(Clone, Copy, Debug, PartialEq, Eq)]
pub enum Origin {
    Named(u16),
    Included(Place),
}

/// The place of what stands at this point of the text.
pub fn place_of(origin: Origin, point: Point) -> Place
    ensures { result ≡ place_of origin point }
{
    match origin {
        Origin::Named(file) => Place {
            file,
            line: point.line,
            column: point.column,
        },
        Origin::Included(place) => place,
    }
}

/// The place of a directive's `#`, which stands first on its line.
pub fn hash_place(origin: Origin, row: &[Lexeme]) -> Place
    ensures { result ≡ hash_place origin row.now }
{
    match row.split_first() {
        None => place_of(origin, Point { line: 1, column: 1 }),
        Some((hash, _)) => place_of(origin, hash.point),
    }
}
