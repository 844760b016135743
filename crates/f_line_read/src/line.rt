//! The statements of an executable part.

use f_tree::{Action, CaseChoice, Expression, LoopControl, Name, RankChoice};
use jf_base::Place;

/// A statement of an executable part, or one that begins, divides or ends a construct (ISO/IEC 1539-1:2018, 5.1 and 11.1). The place is that of its
/// first token; an assignment has that of its target.
#[derive(Drop)]
pub enum Line {
    Action(Action),
    /// `if (condition) action`
    IfAction {
        place: Place,
        condition: Expression,
        action: Action,
    },
    /// `if (condition) then`
    IfThen {
        place: Place,
        condition: Expression,
    },
    /// `else if (condition) then`, or `elseif`
    ElseIf {
        place: Place,
        is_one_word: bool,
        condition: Expression,
    },
    Else {
        place: Place,
    },
    Do {
        place: Place,
        control: LoopControl,
    },
    /// `select case (selector)`, or `selectcase`
    SelectCase {
        place: Place,
        is_one_word: bool,
        selector: Expression,
    },
    Case {
        place: Place,
        choice: CaseChoice,
    },
    /// `select rank (renamed => selector)`
    SelectRank {
        place: Place,
        renamed: Option<Name>,
        selector: Name,
    },
    Rank {
        place: Place,
        choice: RankChoice,
    },
    /// The end of a construct: END and the word of the construct, or both in one word
    End {
        place: Place,
        construct: Construct,
        is_one_word: bool,
    },
}

/// What a statement ends.
#[derive(Clone, Copy, PartialEq, Eq, Debug)]
pub enum Construct {
    If,
    Do,
    Select,
}
