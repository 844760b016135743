//! Statements that are read, and written with the same tokens.

use crate::read_declaration;
use f_declared::Declared;
use f_expr_read::ReadError;
use f_lex::{Spanned, lex};
use f_tree::{Lexemes, Spell, text_of};
use jf_base::Refusal;
use std::alloc::{AllocError, Global};
use std::test::Fail;

// The tokens of a line without the end of its statement, or none.
fn line(alloc: Global, text: &[u8]) -> Result<Vec<Spanned>, AllocError> {
    match lex(alloc, 0, 0, text) {
        Ok(mut tokens) => {
            tokens.pop();
            Ok(tokens)
        }
        Err(Refusal::Memory) => Err(AllocError),
        Err(Refusal::At { .. }) => Ok(Vec::new(alloc)),
    }
}

fn read(alloc: Global, text: &str) -> Result<Option<Declared>, AllocError> {
    let tokens = line(alloc, text.as_bytes())?;
    match read_declaration(alloc, &tokens) {
        Ok(statement) => Ok(Some(statement)),
        Err(ReadError::Form) => Ok(None),
        Err(ReadError::Memory) => Err(AllocError),
    }
}

// What a statement is, by a letter: 'v' for variables, 'h' for a head, and so on; '-' where it is none.
fn form(statement: &Option<Declared>) -> char {
    match statement {
        None => '-',
        Some(Declared::Program { .. }) => 'p',
        Some(Declared::Module { .. }) => 'm',
        Some(Declared::Head(_)) => 'h',
        Some(Declared::Contains { .. }) => 'c',
        Some(Declared::Use(_)) => 'u',
        Some(Declared::Import(_)) => 'i',
        Some(Declared::ImplicitNone { .. }) => 'n',
        Some(Declared::Variables(_)) => 'v',
        Some(Declared::TypeStart(_)) => 't',
        Some(Declared::InterfaceStart { .. }) => 'f',
        Some(Declared::Access(_)) => 'a',
        Some(Declared::Save { .. }) => 's',
        Some(Declared::ProcedurePointers(_)) => 'q',
        Some(Declared::End { .. }) => 'e',
        Some(Declared::EndOf { .. }) => 'x',
    }
}

fn same(first: &[Spanned], second: &[Spanned]) -> bool {
    if first.len() != second.len() {
        return false;
    }
    for (a, b) in first.iter().zip(second.iter()) {
        if a.token != b.token {
            return false;
        }
    }
    true
}

fn put(out: &mut Lexemes, statement: &Declared) -> Result<(), AllocError> {
    match statement {
        Declared::Use(tree) => tree.put(out),
        Declared::Import(tree) => tree.put(out),
        Declared::Variables(tree) => tree.put(out),
        Declared::Access(tree) => tree.put(out),
        Declared::ProcedurePointers(tree) => tree.put(out),
        _ => Ok(()),
    }
}

// The text of a statement.
fn text_written(alloc: Global, statement: &Declared) -> Result<Vec<u8>, AllocError> {
    let mut out = Lexemes::new(alloc);
    put(&mut out, statement)?;
    text_of(alloc, &out.into_vec())
}

// Whether two lines have the same tokens.
fn same_tokens(alloc: Global, first: &[u8], second: &[u8]) -> Result<bool, AllocError> {
    let first = line(alloc, first)?;
    let second = line(alloc, second)?;
    Ok(same(&first, &second))
}

// The text of what a line is read as, or none.
fn text_again(alloc: Global, text: &str) -> Result<Option<Vec<u8>>, AllocError> {
    match read(alloc, text)? {
        None => Ok(None),
        Some(statement) => {
            let written = text_written(alloc, &statement)?;
            Ok(Some(written))
        }
    }
}

// Whether a line is read, and written with the same tokens.
fn is_kept(alloc: Global, text: &str) -> Result<bool, AllocError> {
    match text_again(alloc, text)? {
        None => Ok(false),
        Some(written) => same_tokens(alloc, text.as_bytes(), &written),
    }
}

#[test]
fn declarations_of_variables_are_kept(rt: HostRuntime) -> Result<(), Fail> {
    for text in [
        "integer a, b(3)",
        "integer(c_int), parameter :: n = 2**3",
        "integer(kind=8), allocatable, dimension(:,:) :: a, b",
        "logical(1), intent(in), optional :: is_there",
        "character(len=*, kind=c_char), intent(inout) :: text(*)",
        "character(10), allocatable, save, private :: word",
        "type(point), target, value, bind(c, name='p') :: p = point(1, 2)",
        "type(*), contiguous, pointer :: x(..), y(0:)",
    ] {
        let kept = is_kept(rt.alloc(), text)?;
        assert!(rt; kept, "of {text:?}");
    }
    Ok(())
}

#[test]
fn statements_of_names_are_kept(rt: HostRuntime) -> Result<(), Fail> {
    for text in [
        "use m",
        "use, intrinsic :: iso_c_binding, only: c_int, size => c_size_t",
        "use :: m, a => b, c => d",
        "use m, only:",
        "import",
        "import :: a, b",
        "public",
        "private :: a",
        "procedure(f), pointer, save, public :: p, q => null()",
    ] {
        let kept = is_kept(rt.alloc(), text)?;
        assert!(rt; kept, "of {text:?}");
    }
    Ok(())
}

#[test]
fn each_word_begins_its_statement(rt: HostRuntime) -> Result<(), Fail> {
    let expected = "pmhhhhchnttfaassqexxx";
    let mut forms = expected.chars();
    for text in [
        "program p",
        "module m",
        "subroutine s",
        "function f(a, b) bind(c) result(r)",
        "recursive subroutine s()",
        "integer function f()",
        "contains",
        "type(t) recursive function f(x)",
        "implicit none",
        "type t",
        "type, bind(c), private :: t",
        "abstract interface",
        "public :: a",
        "private",
        "save",
        "save",
        "procedure(i), pointer :: p",
        "end",
        "end program p",
        "endtype t",
        "end interface",
    ] {
        let statement = read(rt.alloc(), text)?;
        let is_right = forms.next() == Some(form(&statement));
        assert!(rt; is_right, "of {text:?}");
    }
    Ok(())
}

#[test]
fn keywords_are_names(rt: HostRuntime) -> Result<(), Fail> {
    for text in [
        "integer integer",
        "integer :: use, end, real = 3",
        "integer function(3)",
        "logical subroutine, function",
        "type(type) type",
    ] {
        let statement = read(rt.alloc(), text)?;
        assert!(rt; form(&statement) == 'v', "of {text:?}");
    }
    let statement = read(rt.alloc(), "program program")?;
    assert!(rt; form(&statement) == 'p');
    let statement = read(rt.alloc(), "use only, only: use => only")?;
    assert!(rt; form(&statement) == 'u');
    Ok(())
}

#[test]
fn an_assignment_is_no_declaration(rt: HostRuntime) -> Result<(), Fail> {
    for text in [
        "integer = 3",
        "use = 3",
        "end = 3",
        "type(3) = 1",
        "save = 1",
        "contains(1) = 2",
        "module%program = 1",
    ] {
        let statement = read(rt.alloc(), text)?;
        assert!(rt; form(&statement) == '-', "of {text:?}");
    }
    Ok(())
}

#[test]
fn what_is_ill_formed_is_refused(rt: HostRuntime) -> Result<(), Fail> {
    for text in [
        "integer",
        "integer, save a,",
        "integer, external :: f",
        "use",
        "use m only: a",
        "use, intrinsic m,",
        "import ::",
        "private ::",
        "function f",
        "type, bind(d) :: t",
        "procedure(i) :: p",
        "end interface f",
        "program",
        "implicit integer",
    ] {
        let statement = read(rt.alloc(), text)?;
        assert!(rt; form(&statement) == '-', "of {text:?}");
    }
    Ok(())
}
