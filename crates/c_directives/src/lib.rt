//! Directives and lines of text of C: what each does to the macros, the tokens and the conditionals (ISO/IEC 9899:2011, 6.10).
#![tactic(auto)]

mod condition;
mod definition;
mod headers;
mod line;
mod opens;
mod origin;
mod stop;
mod work;

ghost use Rattle.c_directives.specs.Replacement.{TextsAreRescanned, DirectivesAreRescanned, LinesKeepMade, TextsKeepMade};

pub use condition::{Asked, MOST_TOKENS, header};
pub use definition::{define, undefine};
pub use headers::header_text;
pub use line::{Action, sort};
pub use opens::{Open, first_open};
pub use origin::{Origin, place_of};
pub use stop::{Broken, Stop, breaks};
pub use work::Pre;

/// Where definitions made the macros, a line of text that breaks no rule puts out what rescanning makes of its tokens as one sequence (ISO/IEC 9899:2011,
/// 6.10.3.4).
pub fn texts_are_rescanned()
    ensures { TextsAreRescanned }
{}

/// And the tokens of a directive that are replaced are rescanned as one sequence too.
pub fn directives_are_rescanned()
    ensures { DirectivesAreRescanned }
{}

/// Each line leaves macros that definitions made, where an included text does.
pub fn lines_keep_made()
    ensures { LinesKeepMade }
{}

/// And so does a whole text.
pub fn texts_keep_made()
    ensures { TextsKeepMade }
{}
