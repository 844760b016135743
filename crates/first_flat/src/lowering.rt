//! From a program to its structured code.
ghost use Rattle.std.specs.Prelude.{◌≡◌, ◌++◌, ◌≤◌, map, length, IfOk, OnOk};
ghost use Rattle.first_form.specs.Readings.{IsFirstProgram};
ghost use Rattle.first_meaning.specs.Charges.{frame};
ghost use Rattle.first_flat.specs.Lowered.{put_stmt, call_stmt, function_proc, main_proc, lowered};

use first_form::{FirstProgram, PutcharArgument};
use flat_ir::{FlatExpr, FlatProc, FlatProgram, FlatStmt};
use jf_base::List;
use std::alloc::{AllocError, Global};

/// The number of the C function among the procedures.
const FUNCTION: u32 = 0;

/// The number of the main program among the procedures.
const MAIN: u32 = 1;

/// The value that holds the function's parameter.
const PARAMETER: u32 = 0;

/// The tokens of the function beside its statements, and those of each statement.
const FUNCTION_TOKENS: usize = 8;

const PUT_TOKENS: usize = 5;

/// The tokens of the main program beside its calls, and those of each call.
const MAIN_TOKENS: usize = 31;

const CALL_TOKENS: usize = 5;

/// The bytes that the frame of a procedure of so many tokens takes of the limit on frames.
fn frame(tokens: usize) -> u64
    requires { tokens ≤ 1000 }
    ensures { result ≡ frame tokens }
{
    1024 + 64 * tokens as u64
}

fn put_stmt(argument: PutcharArgument) -> FlatStmt
    ensures { result ≡ put_stmt argument }
{
    match argument {
        PutcharArgument::Parameter => FlatStmt::Give(FlatExpr::Value(PARAMETER)),
        PutcharArgument::Number(number) => FlatStmt::Give(FlatExpr::Number(number as u64)),
    }
}

fn put_stmts(alloc: Global, puts: &[PutcharArgument]) -> Result<Vec<FlatStmt>, AllocError>
    ensures { IfOk result (λ body. body.items ≡ map put_stmt puts.now) }
{
    let mut body = Vec::new(alloc);
    for argument in puts {
        body.push(put_stmt(*argument))?;
    }
    Ok(body)
}

fn call_stmt(alloc: Global, number: u32) -> Result<FlatStmt, AllocError>
    ensures { IfOk result (λ s. s ≡ call_stmt number) }
{
    let results = List::from_vec(Vec::new(alloc));
    let arguments = List::from_vec(vec![in alloc; FlatExpr::Number(number as u64)]?);
    Ok(FlatStmt::Call(results, FUNCTION, arguments))
}

fn call_stmts(alloc: Global, calls: &[u32]) -> Result<Vec<FlatStmt>, AllocError>
    ensures { IfOk result (λ body. body.items ≡ map call_stmt calls.now) }
{
    let mut body = Vec::new(alloc);
    for number in calls {
        let call = call_stmt(alloc, *number)?;
        body.push(call)?;
    }
    Ok(body)
}

fn function_proc(alloc: Global, program: &FirstProgram) -> Result<FlatProc, AllocError>
    requires { IsFirstProgram program.now }
    ensures { IfOk result (λ f. f ≡ function_proc program.now) }
{
    let body = put_stmts(alloc, program.puts.as_slice())?;
    Ok(FlatProc {
        params: 1,
        values: 1,
        charge: frame(FUNCTION_TOKENS + PUT_TOKENS * program.puts.len()),
        body: List::from_vec(body),
    })
}

fn main_proc(alloc: Global, program: &FirstProgram) -> Result<FlatProc, AllocError>
    requires { IsFirstProgram program.now }
    ensures { IfOk result (λ f. f ≡ main_proc program.now) }
{
    let mut body = call_stmts(alloc, program.calls.as_slice())?;
    body.push(FlatStmt::Stop(FlatExpr::Number(0)))?;
    Ok(FlatProc {
        params: 0,
        values: 0,
        charge: frame(MAIN_TOKENS + CALL_TOKENS * program.calls.len()),
        body: List::from_vec(body),
    })
}

/// The structured code of a program: the C function and the main program are procedures, each with the charge of its frame, and a call is a call. The answer is the code, or that memory was wanting.
pub fn lower(alloc: Global, program: &FirstProgram) -> Result<FlatProgram, AllocError>
    requires { IsFirstProgram program.now }
    ensures { IfOk result (λ p. p ≡ lowered program.now) }
{
    let function = function_proc(alloc, program)?;
    let main = main_proc(alloc, program)?;
    let mut procs = Vec::new(alloc);
    procs.push(function)?;
    procs.push(main)?;
    Ok(FlatProgram {
        procs: List::from_vec(procs),
        image: List::from_vec(Vec::new(alloc)),
        fixes: List::from_vec(Vec::new(alloc)),
        entry: MAIN,
    })
}
