//! Each scene is a line: a program, and behind `=>` what is told of it. Items are counted from 0; a program, a module or another scope is two items, and
//! each other statement is one.

mod checked;
mod faults;
mod names;
mod scene;
mod selections;
mod units;

use f_find::visible;
use f_items::Item;
use f_names::{Checked, check_names};
use f_order::{Resolution, Resolved, resolve};
use f_rules::{NameRule, broken_rule, part_types, stand_at};
use f_scope::{Begun, begin, item_count};
use f_stated::state;
use f_use::{Associated, Origins};
use scene::items_of;
use std::alloc::{AllocError, Global};
use std::process::Abort;
use std::test::Fail;

/// What is told of a program.
#[derive(Clone, Copy)]
enum Question {
    /// The rules that its items break.
    Rules,
    /// What its references denote.
    Names,
    /// The order of its units.
    Order,
    /// The first broken rule.
    First,
}

fn number_of(rule: NameRule) -> u8 {
    match rule {
        NameRule::DeclaredOnce => 1,
        NameRule::Declared => 2,
        NameRule::Public => 3,
        NameRule::Present => 4,
        NameRule::Acyclic => 5,
        NameRule::Single => 6,
        NameRule::Typed => 7,
        NameRule::Fitting => 8,
    }
}

// One more word behind a text.
fn add(text: &mut String, word: &str) -> Result<(), AllocError> {
    if !text.is_empty() {
        text.push_str(" ")?;
    }
    text.push_str(word)?;
    Ok(())
}

fn show_rules(alloc: Global, program: &Associated, text: &mut String) -> Result<(), AllocError> {
    let count = item_count(program.stated().program());
    let types = part_types(alloc, program)?;
    for place in 0..count {
        if let Some(rule) = broken_rule(program, types.as_slice(), place) {
            let number = number_of(rule);
            add(text, format!(in alloc; "{place}:N0{number}")?.as_str())?;
        }
    }
    Ok(())
}

fn shown(alloc: Global, place: usize, found: Option<Origins>) -> Result<String, AllocError> {
    match found {
        None => format!(in alloc; "{place}>none"),
        Some(found) => {
            let first = found.first;
            match found.other {
                None => format!(in alloc; "{place}>{first}"),
                Some(other) => format!(in alloc; "{place}>{first},{other}"),
            }
        }
    }
}

fn show_names(alloc: Global, program: &Associated, text: &mut String) -> Result<(), AllocError> {
    let parts = program.stated().program().parts();
    for place in 0..parts.items.len() {
        if let Some(stand) = stand_at(program.stated().program(), place) {
            if let Item::Refers { name, need: _ } = stand.item {
                if stand.scope < parts.scopes.len() {
                    let found = visible(program, stand.scope, name.bytes.as_slice());
                    add(text, shown(alloc, place, found)?.as_str())?;
                }
            }
        }
    }
    Ok(())
}

fn show_order(alloc: Global, order: &[usize], text: &mut String) -> Result<(), AllocError> {
    for unit in order {
        add(text, format!(in alloc; "{unit}")?.as_str())?;
    }
    Ok(())
}

fn show(
    alloc: Global,
    question: Question,
    resolved: &Resolved,
    text: &mut String,
) -> Result<(), AllocError> {
    match question {
        Question::Rules => show_rules(alloc, &resolved.program, text),
        Question::Names => show_names(alloc, &resolved.program, text),
        Question::Order => show_order(alloc, resolved.order.as_slice(), text),
        Question::First => Ok(()),
    }
}

// The place and the number of the first broken rule, if there is one.
fn told_first(alloc: Global, text: &str) -> Result<String, AllocError> {
    match check_names(alloc, items_of(alloc, text)?)? {
        Checked::Kept(_) => format!(in alloc; "kept"),
        Checked::Broken(broken) => {
            let place = broken.place;
            let number = number_of(broken.rule);
            format!(in alloc; "{place}:N0{number}")
        }
    }
}

// What is told of a program by its parts: where it has a unit's name twice or a cycle, this alone.
fn told_of_parts(alloc: Global, question: Question, text: &str) -> Result<String, AllocError> {
    let mut out = String::new(alloc);
    match begin(alloc, items_of(alloc, text)?)? {
        Begun::NamedTwice(place) => add(&mut out, format!(in alloc; "twice {place}")?.as_str())?,
        Begun::Begins(program) => match resolve(alloc, state(alloc, program)?)? {
            Resolution::OnCycle(place) => add(
                &mut out,
                format!(in alloc; "cycle {place}")?.as_str(),
            )?,
            Resolution::Resolved(resolved) => show(alloc, question, &resolved, &mut out)?,
        },
    }
    Ok(out)
}

fn told(alloc: Global, question: Question, text: &str) -> Result<String, AllocError> {
    match question {
        Question::First => told_first(alloc, text),
        _ => told_of_parts(alloc, question, text),
    }
}

// Each line has a program and, behind `=>`, what is told of it.
fn check(rt: &impl Abort, alloc: Global, question: Question, lines: &str) -> Result<(), Fail> {
    for line in lines.lines() {
        match line.split_once(" =>") {
            None => assert!(rt; false, "{line}"),
            Some((text, wanted)) => {
                let found = told(alloc, question, text)?;
                assert_eq!(rt; found.as_str(), wanted.trim(), "of {text}");
            }
        }
    }
    Ok(())
}
