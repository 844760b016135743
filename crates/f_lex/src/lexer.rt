//! From a whole text to its tokens, or to its first broken rule.

ghost use Rattle.std.specs.Prelude.{◌≡◌, ◌+◌, ◌≤◌, ◌++◌, None, length, take, option_to_list, OnOk, IfOk};
ghost use Rattle.f_lex.specs.Lexing.{IsLexed};
ghost use Rattle.f_lex.specs.Source.{IsFound, IsRoom, position_behind, point_behind};
ghost use Rattle.f_lex.specs.Rules.{first_break, given, tag_number};

use crate::fault::Rule;
use crate::piece::{Piece, piece_at};
use crate::reader::{
    Fault, Point, Position, advanced, first_break, first_long_line, given, moved, tag_number,
};
use crate::token::Spanned;
use jf_base::{List, Place, Refusal, Tag};
use std::alloc::{AllocError, Global};

/// The most bytes of a file.
const FILE_LIMIT: usize = 1_048_576;

const FIRST_POINT: Point = Point { line: 1, column: 1 };

// What was found up to a position.
#[derive(Drop, Debug)]
struct Reader {
    file: u16,
    position: Position,
    // the tokens, as long as no rule is broken
    tokens: List<Spanned>,
    fault: Option<Fault>,
}

impl Reader {
    // Goes behind a piece, of which the bytes are given.
    fn take(&mut self, piece: Piece, bytes: &[u8]) -> Result<(), AllocError>
        requires { IsRoom self.old.position (length bytes.now) }
        ensures file { self.new.file ≡ self.old.file }
        ensures position { OnOk result (self.new.position ≡ position_behind self.old.position (piece, bytes.now)) }
        ensures fault { OnOk result (self.new.fault ≡ first_break self.old.fault self.old.position piece (length bytes.now) (point_behind self.old.position (piece, bytes.now))) }
        ensures tokens { OnOk result (self.new.fault ≡ None → self.new.tokens ≡ self.old.tokens ++ option_to_list (given self.old.file self.old.position piece (length bytes.now))) }
    {
        let behind = advanced(self.position.point, bytes);
        let fault = first_break(self.fault, self.position, &piece, bytes.len(), behind);
        let position = moved(self.position, &piece, bytes.len(), behind);
        let token = given(self.file, self.position, piece, bytes.len());
        self.fault = fault;
        self.position = position;
        if fault.is_none() {
            if let Some(token) = token {
                self.tokens.push(token)?;
            }
        }
        Ok(())
    }
}

// Reads all pieces.
fn read(alloc: Global, file: u16, before: u32, bytes: &[u8]) -> Result<Reader, AllocError>
    requires before { before ≤ 262144 }
    requires size { length bytes.now ≤ 1048576 }
    ensures { IfOk result (λ r. IsFound file before bytes.now r.fault r.tokens) }
{
    let mut reader = Reader {
        file,
        position: Position {
            offset: 0,
            point: FIRST_POINT,
            first_on_line: true,
            statement: None,
            characters: 0,
            tokens: before as usize,
        },
        tokens: List::from_vec(Vec::new(alloc)),
        fault: first_long_line(bytes),
    };
    let mut rest = bytes;
    'pieces: while !rest.is_empty() {
        let (piece, next) = piece_at(alloc, rest)?;
        reader.take(piece, rest.split_at(rest.len() - next.len()).0)?;
        rest = next;
    }
    reader.take(Piece::LineEnd, rest)?;
    Ok(reader)
}

fn refusal(file: u16, fault: Fault) -> Refusal
    ensures { result ≡ Refusal.At (record { file = file; line = fault.point.line; column = fault.point.column }) (record { 0 = tag_number fault.rule }) }
{
    Refusal::At {
        place: Place {
            file,
            line: fault.point.line,
            column: fault.point.column,
        },
        tag: Tag(tag_number(fault.rule)),
    }
}

/// The tokens of a Fortran file in free source form, each with its offsets and its place (ISO/IEC 1539-1:2018, 6.2 and 6.3.2), where no rule of
/// source form is broken; or else the first broken rule of `L01` to `L08`, by its place and there by its tag. `file` is the number of the file,
/// `before` how many tokens the files before have. It takes time in proportion to the length of the file.
pub fn lex(alloc: Global, file: u16, before: u32, bytes: &[u8]) -> Result<Vec<Spanned>, Refusal>
    requires { before ≤ 262144 }
    ensures { IsLexed file before bytes.now result }
{
    if bytes.len() > FILE_LIMIT {
        return Err(refusal(
            file,
            Fault {
                point: FIRST_POINT,
                rule: Rule::TooMany,
            },
        ));
    }
    match read(alloc, file, before, bytes) {
        Err(_) => Err(Refusal::Memory),
        Ok(Reader { tokens, fault, .. }) => match fault {
            Some(fault) => Err(refusal(file, fault)),
            None => Ok(tokens.into_vec()),
        },
    }
}
