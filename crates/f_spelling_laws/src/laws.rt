//! Laws of the tokens that trees stand for.

ghost use Rattle.f_spelling_laws.specs.Laws.{OfExpressions, OfReferences, OfTypes, OfActions, OfBlocks, OfSpecifications, OfUnits, OfFiles, OfTexts, PlainAreTold};

/// The tokens of an expression are those that the grammar spells for it (ISO/IEC 1539-1:2018, 10.1).
pub fn lexemes_of_an_expression()
    ensures { OfExpressions }
{}

/// The tokens of a reference are those that the grammar spells for it (9.1).
pub fn lexemes_of_a_reference()
    ensures { OfReferences }
{}

/// The tokens of a type are those that the grammar spells for it (7.3.2).
pub fn lexemes_of_a_type()
    ensures { OfTypes }
{}

/// The tokens of an action statement are those that the grammar spells for it (5.1, R515).
pub fn lexemes_of_an_action()
    ensures { OfActions }
{}

/// The tokens of a block are those of its statements one after the other, each with its end (11.1).
pub fn lexemes_of_a_block()
    ensures { OfBlocks }
{}

/// The tokens of a specification are those of its statements one after the other, each with its end (5.1).
pub fn lexemes_of_a_specification()
    ensures { OfSpecifications }
{}

/// The tokens of units are those of their statements one after the other, each with its end (5.1 to 5.3).
pub fn lexemes_are_the_statements()
    ensures { OfUnits }
{}

/// Where the statements of units are a file, their tokens are the text of a file with the same statements.
pub fn lexemes_are_a_file()
    ensures { OfFiles }
{}

/// A unit of a text, printed by itself and read again, has the same statements, or the printed text breaks a rule on lengths (L01, L07, L08).
pub fn printed_units_are_read_again()
    ensures { OfTexts }
{}

/// Units whose statements are a file are told by their views where no CHARACTER has empty parentheses (7.4.4.2).
pub fn plain_units_are_told()
    ensures { PlainAreTold }
{}
