//! What is open while statements are read.

ghost use Rattle.std.specs.Prelude.{◌≡◌, ℕ, List, ◌∷◌, IfOk};
ghost use Rattle.f_unit_grammar.specs.Units.{counts, role};
ghost use Rattle.f_unit_grammar.specs.Rules.{depth_of};
ghost use Rattle.jf_base.specs.declared.place.Refusal.TheVariants.{At};
ghost use Rattle.f_placing.specs.Views.{view_state, name_begun};
ghost use Rattle.f_statement_read.specs.Views.{view_statement};
ghost use Rattle.f_file_read.specs.Reading.{tag_of, open_of, deepened, entered, moved, placed, open_unit, file_alone};
ghost use Rattle.f_file_read.specs.Views.{view_rule, view_opened, view_open, Answers};

use f_placing::{Role, State, name_begun, role};
use f_statement_read::Statement;
use jf_base::{List, Place, Refusal, Tag};
use std::alloc::{AllocError, Global};

/// How deep constructs, parentheses and brackets nest at most, all together.
const DEEPEST: u32 = 64;

/// A rule of statements: each has a form, each has a place and each unit its end, and they nest at most so deep.
#[derive(Clone, Copy)]
pub enum Rule {
    NoForm,
    Misplaced,
    TooNested,
}

/// Something that is open, with the name of a unit or a derived type, the nestings up to it, and where the statement that began it stands.
#[derive(Drop)]
pub struct Opened {
    pub state: State,
    pub name: List<u8>,
    pub depth: u32,
    pub place: Place,
}

/// The refusal of a file that breaks a rule there.
pub fn refused(place: Place, rule: Rule) -> Refusal
    ensures { result ≡ At place (tag_of (view_rule rule)) }
{
    let number = match rule {
        Rule::NoForm => 201,
        Rule::Misplaced => 202,
        Rule::TooNested => 203,
    };
    Refusal::At {
        place,
        tag: Tag(number),
    }
}

/// The file, in which nothing else is open.
pub fn file_alone(alloc: Global) -> Result<Vec<Opened>, AllocError>
    ensures { IfOk result (λ all. view_open all.items ≡ file_alone) }
{
    let mut stack = Vec::new(alloc);
    let place = Place {
        file: 0,
        line: 0,
        column: 0,
    };
    stack.push(Opened {
        state: State::File,
        name: List::from_vec(Vec::new(alloc)),
        depth: 0,
        place,
    })?;
    Ok(stack)
}

// How many nestings something that is open counts for.
fn counts(state: State) -> u32
    ensures { (name : List ℕ) → result ≡ counts (view_state name state) }
{
    match state {
        State::File => 0,
        State::Unit(_, _) => 0,
        State::Containing => 0,
        State::Type => 1,
        State::Interface => 1,
        State::If => 1,
        State::Else => 1,
        State::Do => 1,
        State::SelectCase => 1,
        State::Case => 1,
        State::SelectRank => 1,
        State::Rank => 1,
    }
}

// So many nestings and some more, unless they are too many.
fn deepened(depth: u32, more: u32) -> Option<u32>
    ensures { result ≡ deepened depth more }
{
    let sum = depth.checked_add(more)?;
    if DEEPEST < sum { None } else { Some(sum) }
}

// One more in front of those that are open.
fn in_front(stack: Vec<Opened>, inner: Opened) -> Result<Vec<Opened>, AllocError>
    ensures { IfOk result (λ all. view_open all.items ≡ view_opened inner ∷ view_open stack.items) }
{
    let mut all = stack;
    all.push(inner)?;
    Ok(all)
}

// Something begins inside of what goes on so.
fn entered(
    alloc: Global,
    outer: Vec<Opened>,
    goes_on: Opened,
    inside: State,
    statement: &Statement,
    at: Place,
) -> Result<Vec<Opened>, Refusal>
    ensures { (m : List ℕ) → m ≡ name_begun (view_statement statement.now) → Answers (λ v. view_open v.items) result (entered (view_state goes_on.name goes_on.state) (view_state m inside) (deepened goes_on.depth (counts (view_state m inside))) goes_on.depth goes_on.place at (view_open outer.items)) }
{
    match deepened(goes_on.depth, counts(inside)) {
        None => Err(refused(at, Rule::TooNested)),
        Some(depth) => {
            let name = name_begun(alloc, statement)?;
            let inner = Opened {
                state: inside,
                name,
                depth,
                place: at,
            };
            Ok(in_front(in_front(outer, goes_on)?, inner)?)
        }
    }
}

// A statement that begins here, where this is open inside of the others.
fn moved(
    alloc: Global,
    outer: Vec<Opened>,
    innermost: Opened,
    statement: &Statement,
    at: Place,
) -> Result<Vec<Opened>, Refusal>
    ensures { Answers (λ v. view_open v.items) result (moved (role (view_state innermost.name innermost.state) (view_statement statement.now)) (view_opened innermost) at (view_open outer.items)) }
{
    let Opened {
        state,
        name,
        depth,
        place,
    } = innermost;
    match role(state, &name, statement) {
        Role::Stays(state) => Ok(in_front(
            outer,
            Opened {
                state,
                name,
                depth,
                place,
            },
        )?),
        Role::Enters { next, inside } => {
            let goes_on = Opened {
                state: next,
                name,
                depth,
                place,
            };
            entered(alloc, outer, goes_on, inside, statement, at)
        }
        Role::Leaves => Ok(outer),
        Role::NoPlace => Err(refused(at, Rule::Misplaced)),
    }
}

/// What is open behind a statement that begins here.
#[tactic(auto, unfolding(crate::specs::Reading::placed))]
pub fn placed(
    alloc: Global,
    stack: Vec<Opened>,
    statement: &Statement,
    at: Place,
) -> Result<Vec<Opened>, Refusal>
    ensures { Answers (λ v. view_open v.items) result (placed (view_open stack.items) at (view_statement statement.now)) }
{
    let mut outer = stack;
    match outer.pop() {
        None => Err(refused(at, Rule::Misplaced)),
        Some(innermost) => moved(alloc, outer, innermost, statement, at),
    }
}

/// The nestings up to the innermost that is open.
pub fn depth_of(stack: &[Opened]) -> u32
    ensures { result ≡ depth_of (open_of (view_open stack.now)) }
{
    match stack.last() {
        None => 0,
        Some(innermost) => innermost.depth,
    }
}

/// Where the unit begins that is open inside the file.
pub fn open_unit(stack: &[Opened]) -> Option<Place>
    ensures { result ≡ open_unit (view_open stack.now) }
{
    match stack {
        [_, unit, ..] => Some(unit.place),
        _ => None,
    }
}
