use crate::expander::expand;
use crate::macros::MacroTable;
use crate::token::{Spanned, Token};
use jf_base::Place;
use std::alloc::{AllocError, Global};
use std::test::Fail;

const PLACE: Place = Place {
    file: 2,
    line: 3,
    column: 5,
};

// What a token expands to: names as letters, other tokens as digits; or `-` where that is more than three tokens.
fn expanded(
    alloc: Global,
    bodies: &[Vec<Token>],
    on: &mut [bool],
    token: Token,
) -> Result<String, AllocError> {
    let mut tokens: Vec<Spanned> = Vec::new(alloc);
    if !expand(alloc, bodies, on, &mut tokens, 3, token, PLACE)? {
        return Ok("-".to_string(alloc)?);
    }
    let mut out = String::new(alloc);
    for spanned in tokens.as_slice() {
        match spanned.token {
            Token::Name(name) => out.push_str(format!(in alloc; "n{name}")?.as_str())?,
            Token::Other(other) => out.push_str(format!(in alloc; "{other}")?.as_str())?,
        }
    }
    Ok(out)
}

#[test]
fn two_macros_name_one_another(rt: HostRuntime) -> Result<(), Fail> {
    let alloc = rt.alloc();
    let mut bodies = Vec::new(alloc);
    bodies.push([Token::Name(1), Token::Other(7)].to_vec(alloc)?)?;
    bodies.push([Token::Name(0), Token::Other(8)].to_vec(alloc)?)?;
    let mut on = [true, true];
    assert_eq!(rt;
        expanded(alloc, bodies.as_slice(), &mut on, Token::Name(0))?.as_str(),
        "n087"
    );
    assert_eq!(rt;
        expanded(alloc, bodies.as_slice(), &mut on, Token::Name(1))?.as_str(),
        "n178"
    );
    assert_eq!(rt;
        expanded(alloc, bodies.as_slice(), &mut on, Token::Name(2))?.as_str(),
        "n2"
    );
    Ok(())
}

#[test]
fn an_expansion_has_room_or_not(rt: HostRuntime) -> Result<(), Fail> {
    let alloc = rt.alloc();
    let mut bodies = Vec::new(alloc);
    bodies.push([Token::Other(7), Token::Other(7)].to_vec(alloc)?)?;
    bodies.push([Token::Name(0), Token::Name(0)].to_vec(alloc)?)?;
    bodies.push([Token::Name(0), Token::Other(9)].to_vec(alloc)?)?;
    let mut on = [true, true, true];
    assert_eq!(rt;
        expanded(alloc, bodies.as_slice(), &mut on, Token::Name(1))?.as_str(),
        "-"
    );
    let mut on = [true, true, true];
    assert_eq!(rt;
        expanded(alloc, bodies.as_slice(), &mut on, Token::Name(2))?.as_str(),
        "779"
    );
    Ok(())
}

// A table in which each macro is the one before it twice, and the first is empty.
fn doubling(alloc: Global, count: usize) -> Result<MacroTable, AllocError> {
    let mut table = MacroTable::new(alloc);
    table.define(alloc, 0, Vec::new(alloc))?;
    for name in 1..count {
        let body = [Token::Name(name - 1), Token::Name(name - 1)].to_vec(alloc)?;
        table.define(alloc, name, body)?;
    }
    Ok(table)
}

#[test]
fn what_gives_nothing_is_replaced_once(rt: HostRuntime) -> Result<(), Fail> {
    let alloc = rt.alloc();
    let mut table = doubling(alloc, 200)?;
    let mut tokens: Vec<Spanned> = Vec::new(alloc);
    assert!(rt; table.expand(alloc, &mut tokens, 3, Token::Name(199), PLACE)?);
    assert_eq!(rt; tokens.len(), 0);
    assert_eq!(rt; table.body(7).len(), 2);
    table.undefine(0);
    assert!(rt; !table.is_macro(0));
    assert!(rt; !table.expand(alloc, &mut tokens, 3, Token::Name(199), PLACE)?);
    Ok(())
}

// Whether a name expands to nothing.
fn is_nothing(alloc: Global, table: &mut MacroTable, name: usize) -> Result<bool, AllocError> {
    let mut tokens: Vec<Spanned> = Vec::new(alloc);
    let fits = table.expand(alloc, &mut tokens, 3, Token::Name(name), PLACE)?;
    Ok(fits && tokens.is_empty())
}

#[test]
fn new_names_leave_what_is_remembered(rt: HostRuntime) -> Result<(), Fail> {
    let alloc = rt.alloc();
    let mut table = doubling(alloc, 200)?;
    for name in 200..400 {
        assert!(rt; is_nothing(alloc, &mut table, 199)?);
        table.define(alloc, name, [Token::Other(7)].to_vec(alloc)?)?;
        assert!(rt; !is_nothing(alloc, &mut table, name)?);
        table.undefine(name);
    }
    Ok(())
}

#[test]
fn a_name_that_changes_is_replaced_anew(rt: HostRuntime) -> Result<(), Fail> {
    let alloc = rt.alloc();
    let mut table = doubling(alloc, 200)?;
    assert!(rt; is_nothing(alloc, &mut table, 199)?);
    table.define(alloc, 0, [Token::Other(7)].to_vec(alloc)?)?;
    assert!(rt; !is_nothing(alloc, &mut table, 1)?);
    table.define(alloc, 0, Vec::new(alloc))?;
    assert!(rt; is_nothing(alloc, &mut table, 199)?);
    Ok(())
}

// How many tokens a name puts out of at most 262,144, and whether that is all.
fn put_out(
    alloc: Global,
    table: &mut MacroTable,
    name: usize,
) -> Result<(usize, bool), AllocError> {
    let mut tokens: Vec<Spanned> = Vec::new(alloc);
    let fits = table.expand(alloc, &mut tokens, 262_144, Token::Name(name), PLACE)?;
    Ok((tokens.len(), fits))
}

#[test]
fn a_bomb_ends_at_the_limit(rt: HostRuntime) -> Result<(), Fail> {
    let alloc = rt.alloc();
    let mut table = doubling(alloc, 64)?;
    table.define(alloc, 0, [Token::Other(7)].to_vec(alloc)?)?;
    assert_eq!(rt; put_out(alloc, &mut table, 18)?, (262_144, true));
    assert_eq!(rt; put_out(alloc, &mut table, 63)?, (262_144, false));
    Ok(())
}
