//! Statements that end units, interfaces and the definitions of derived types.

ghost use Rattle.std.specs.Prelude.{◌≡◌};
ghost use Rattle.f_declaration_grammar.specs.Declarations as form;
ghost use Rattle.f_statement_grammar.specs.Statements as grammar;
ghost use Rattle.f_declared.specs.Views.{view_ended, view_declared};
ghost use Rattle.f_unit_parts.specs.declared.kind.Kind.TheVariants as kind;
ghost use Rattle.f_unit_parts.specs.Views.{kind_of, form_of};
ghost use Rattle.f_unit_parts.specs.Units.{end_line};

use f_declared::{Declared, Ended};
use f_tree::{Ending, EndingForm};

/// END with the words of what it ends
#[derive(Drop)]
pub struct WordedEnd {
    pub what: Ended,
    pub ending: Ending,
}

/// END alone, which ends any unit.
#[tactic(auto, unfolding(crate::specs::Units::end_line))]
pub fn bare_end(declared: Declared) -> Ending
    requires { kind_of declared ≡ kind.End }
    ensures { (what : form.Ended) → grammar.Declaring (view_declared declared) ≡ end_line what result }
{
    match declared {
        Declared::End { place } => Ending {
            place,
            form: EndingForm::Bare,
            name: None,
        },
        _ => unreachable!(),
    }
}

fn form_of(is_one_word: bool) -> EndingForm
    ensures { result ≡ form_of is_one_word }
{
    if is_one_word {
        EndingForm::OneWord
    } else {
        EndingForm::TwoWords
    }
}

/// END with words.
#[tactic(auto, unfolding(crate::specs::Units::end_line))]
pub fn worded_end(declared: Declared) -> WordedEnd
    requires { kind_of declared ≡ kind.EndOf }
    ensures { grammar.Declaring (view_declared declared) ≡ end_line (view_ended result.what) result.ending }
{
    match declared {
        Declared::EndOf {
            place,
            what,
            is_one_word,
            name,
        } => WordedEnd {
            what,
            ending: Ending {
                place,
                form: form_of(is_one_word),
                name,
            },
        },
        _ => unreachable!(),
    }
}
