ghost use Rattle.std.specs.Prelude.{◌≡◌, [], ◌∷◌, true, false, take, IfOk};
ghost use Rattle.jf_base.specs.declared.numbers.Width.TheVariants.{W1};
ghost use Rattle.flat_ir.specs.declared.program.Operation.TheVariants as O;
ghost use Rattle.flat_ir.specs.declared.program.FlatExpr.TheVariants as E;
ghost use Rattle.flat_ir.specs.declared.program.FlatStmt.TheVariants as S;
ghost use Rattle.flatten_samples.specs.Samples.{kinds, calls_itself, leaves_two, adds as adds_proc, each_kind as each_kind_body};

use flat_ir::{Exceeded, FlatExpr, FlatProc, FlatProgram, FlatStmt, Operation, flat_ok};
use flatten::{BlockProgram, flatten};
use jf_base::{Boxed, List, Width};
use std::alloc::{AllocError, Global};
use std::process::Abort;
use std::test::Fail;

fn binary(alloc: Global, o: Operation, a: FlatExpr, b: FlatExpr) -> Result<FlatExpr, AllocError>
    ensures { IfOk result (λ e. e ≡ E.Binary o a b) }
{
    let a = Boxed::new(alloc, a)?;
    let b = Boxed::new(alloc, b)?;
    Ok(FlatExpr::Binary(o, a, b))
}

fn adds(alloc: Global) -> Result<FlatProc, AllocError>
    ensures { IfOk result (λ f. f ≡ adds_proc) }
{
    let sum = binary(
        alloc,
        Operation::Add,
        FlatExpr::Value(0),
        FlatExpr::Value(1),
    )?;
    let sums = List::from_vec(vec![in alloc; sum]?);
    let body = List::from_vec(vec![in alloc; FlatStmt::Return(sums)]?);
    Ok(FlatProc {
        params: 2,
        values: 2,
        charge: 16,
        body,
    })
}

// Takes a byte, and works on memory.
fn first_part(alloc: Global) -> Result<Vec<FlatStmt>, AllocError>
    ensures { IfOk result (λ ss. ss.items ≡ take 5 each_kind_body) }
{
    let more = binary(
        alloc,
        Operation::Add,
        FlatExpr::Value(0),
        FlatExpr::Number(1),
    )?;
    let mut stmts = Vec::new(alloc);
    stmts.push(FlatStmt::Take(0))?;
    stmts.push(FlatStmt::Give(more))?;
    stmts.push(FlatStmt::Store(
        Width::W4,
        FlatExpr::Image(0),
        FlatExpr::Number(1099511627843),
    ))?;
    stmts.push(FlatStmt::Load(1, Width::W8, false, FlatExpr::Image(0)))?;
    stmts.push(FlatStmt::Give(FlatExpr::Value(1)))?;
    Ok(stmts)
}

fn call(alloc: Global) -> Result<FlatStmt, AllocError>
    ensures { IfOk result (λ s. s ≡ S.Call (2 ∷ []) 0 (E.Value 1 ∷ E.Number 1 ∷ [])) }
{
    let results = List::from_vec(vec![in alloc; 2]?);
    let arguments = List::from_vec(vec![in alloc; FlatExpr::Value(1), FlatExpr::Number(1)]?);
    Ok(FlatStmt::Call(results, 0, arguments))
}

fn call_at(alloc: Global) -> Result<FlatStmt, AllocError>
    ensures { IfOk result (λ s. s ≡ S.CallAt (2 ∷ []) (E.Procedure 0) (E.Number 1 ∷ E.Value 2 ∷ [])) }
{
    let results = List::from_vec(vec![in alloc; 2]?);
    let arguments = List::from_vec(vec![in alloc; FlatExpr::Number(1), FlatExpr::Value(2)]?);
    Ok(FlatStmt::CallAt(results, FlatExpr::Procedure(0), arguments))
}

fn counts_down(alloc: Global) -> Result<FlatStmt, AllocError>
    ensures { IfOk result (λ s. s ≡ S.Loop (S.If (E.Value 3) (S.Set 3 (E.Binary O.Sub (E.Value 3) (E.Number 1)) ∷ []) (S.Break 0 ∷ []) ∷ [])) }
{
    let less = binary(
        alloc,
        Operation::Sub,
        FlatExpr::Value(3),
        FlatExpr::Number(1),
    )?;
    let first = List::from_vec(vec![in alloc; FlatStmt::Set(3, less)]?);
    let second = List::from_vec(vec![in alloc; FlatStmt::Break(0)]?);
    let choice = FlatStmt::If(FlatExpr::Value(3), first, second);
    Ok(FlatStmt::Loop(List::from_vec(vec![in alloc; choice]?)))
}

fn stops(alloc: Global) -> Result<FlatStmt, AllocError>
    ensures { IfOk result (λ s. s ≡ S.Stop (E.Binary O.Add (E.Value 3) (E.Load W1 false (E.Image 0)))) }
{
    let address = Boxed::new(alloc, FlatExpr::Image(0))?;
    let byte = FlatExpr::Load(Width::W1, false, address);
    let code = binary(alloc, Operation::Add, FlatExpr::Value(3), byte)?;
    Ok(FlatStmt::Stop(code))
}

fn each_kind(alloc: Global) -> Result<List<FlatStmt>, AllocError>
    ensures { IfOk result (λ ss. ss ≡ each_kind_body) }
{
    let mut stmts = first_part(alloc)?;
    stmts.push(call(alloc)?)?;
    stmts.push(FlatStmt::Give(FlatExpr::Value(2)))?;
    stmts.push(call_at(alloc)?)?;
    stmts.push(FlatStmt::Give(FlatExpr::Value(2)))?;
    stmts.push(FlatStmt::Set(3, FlatExpr::Number(2)))?;
    stmts.push(counts_down(alloc)?)?;
    stmts.push(stops(alloc)?)?;
    Ok(List::from_vec(stmts))
}

// The program `kinds`, of which the laws say what it and its blocks do.
fn program_of_each_kind(alloc: Global) -> Result<FlatProgram, AllocError>
    ensures { IfOk result (λ p. p ≡ kinds) }
{
    let entry = FlatProc {
        params: 0,
        values: 4,
        charge: 32,
        body: each_kind(alloc)?,
    };
    let procs = List::from_vec(vec![in alloc; adds(alloc)?, entry]?);
    let image = List::from_vec(vec![in alloc; 0, 0, 0, 0, 0, 0, 0, 0]?);
    Ok(FlatProgram {
        procs,
        image,
        fixes: List::from_vec(Vec::new(alloc)),
        entry: 1,
    })
}

// A program of one procedure without values.
fn alone(alloc: Global, charge: u64, body: Vec<FlatStmt>) -> Result<FlatProgram, AllocError>
    ensures { IfOk result (λ p. p ≡ record { procs = record { params = 0; values = 0; charge = charge; body = body.items } ∷ []; image = []; fixes = []; entry = 0 }) }
{
    let entry = FlatProc {
        params: 0,
        values: 0,
        charge,
        body: List::from_vec(body),
    };
    Ok(FlatProgram {
        procs: List::from_vec(vec![in alloc; entry]?),
        image: List::from_vec(Vec::new(alloc)),
        fixes: List::from_vec(Vec::new(alloc)),
        entry: 0,
    })
}

fn program_that_calls_itself(alloc: Global) -> Result<FlatProgram, AllocError>
    ensures { IfOk result (λ p. p ≡ calls_itself) }
{
    let results = List::from_vec(Vec::new(alloc));
    let arguments = List::from_vec(Vec::new(alloc));
    let body = vec![in alloc;
        FlatStmt::Give(FlatExpr::Number(120)),
        FlatStmt::Call(results, 0, arguments),
    ]?;
    alone(alloc, 16, body)
}

fn program_that_leaves_two(alloc: Global) -> Result<FlatProgram, AllocError>
    ensures { IfOk result (λ p. p ≡ leaves_two) }
{
    let inner = vec![in alloc; FlatStmt::Give(FlatExpr::Number(97)), FlatStmt::Break(1)]?;
    let inner = FlatStmt::Loop(List::from_vec(inner));
    let outer = vec![in alloc; inner, FlatStmt::Give(FlatExpr::Number(98))]?;
    let outer = FlatStmt::Loop(List::from_vec(outer));
    let body = vec![in alloc; outer, FlatStmt::Limit(Exceeded::Objects)]?;
    alone(alloc, 0, body)
}

fn flattened(rt: &impl Abort, alloc: Global, p: &FlatProgram) -> Result<BlockProgram, AllocError> {
    let holds = flat_ok(p);
    assert!(rt; holds);
    match flatten(alloc, p) {
        Ok(q) => Ok(q),
        Err(_) => Err(AllocError),
    }
}

fn shown(alloc: Global, q: &BlockProgram, proc: usize) -> Result<String, AllocError> {
    match q.procs.as_slice().get(proc) {
        Some(f) => format!(in alloc; "{f:?}"),
        None => format!(in alloc; "none"),
    }
}

#[test]
fn blocks_of_two_loops(rt: HostRuntime) -> Result<(), Fail> {
    let alloc = rt.alloc();
    let p = program_that_leaves_two(alloc)?;
    let q = flattened(&rt, alloc, &p)?;
    let text = shown(alloc, &q, 0)?;
    assert_eq!(rt;
        text.as_str(),
        "BlockProc { params: 0, blocks: List([Block { insns: List([]), end: Jump(1) }, Block { insns: List([]), end: Jump(2) }, Block { insns: List([Number(0, 97), Give(0)]), end: Jump(4) }, Block { insns: List([Number(0, 98), Give(0)]), end: Jump(1) }, Block { insns: List([]), end: Limit(Objects) }]), values: 1, frame: 0 }"
    );
    Ok(())
}

#[test]
fn blocks_of_a_call_of_itself(rt: HostRuntime) -> Result<(), Fail> {
    let alloc = rt.alloc();
    let p = program_that_calls_itself(alloc)?;
    let q = flattened(&rt, alloc, &p)?;
    let text = shown(alloc, &q, 0)?;
    assert_eq!(rt;
        text.as_str(),
        "BlockProc { params: 0, blocks: List([Block { insns: List([Number(0, 120), Give(0), Call(List([]), 0, List([]))]), end: Return(List([])) }]), values: 1, frame: 16 }"
    );
    Ok(())
}

#[test]
fn blocks_of_each_kind(rt: HostRuntime) -> Result<(), Fail> {
    let alloc = rt.alloc();
    let p = program_of_each_kind(alloc)?;
    let q = flattened(&rt, alloc, &p)?;
    let called = shown(alloc, &q, 0)?;
    assert_eq!(rt;
        called.as_str(),
        "BlockProc { params: 2, blocks: List([Block { insns: List([Binary(Add, 2, 0, 1)]), end: Return(List([2])) }]), values: 5, frame: 16 }"
    );
    let entry = shown(alloc, &q, 1)?;
    assert_eq!(rt;
        entry.as_str(),
        "BlockProc { params: 0, blocks: List([Block { insns: List([Take(0), Number(5, 1), Binary(Add, 4, 0, 5), Give(4), ImageAddress(4, 0), Number(5, 1099511627843), Store(W4, 4, 5), ImageAddress(4, 0), Load(1, W8, false, 4), Give(1), Number(5, 1), Call(List([2]), 0, List([1, 5])), Give(2), ProcAddress(4, 0), Number(5, 1), CallAt(List([2]), 4, List([5, 2])), Give(2), Number(3, 2)]), end: Jump(1) }, Block { insns: List([]), end: Branch(3, 2, 3) }, Block { insns: List([Number(5, 1), Binary(Sub, 3, 3, 5)]), end: Jump(4) }, Block { insns: List([]), end: Jump(5) }, Block { insns: List([]), end: Jump(1) }, Block { insns: List([ImageAddress(5, 0), Load(5, W1, false, 5), Binary(Add, 4, 3, 5)]), end: Stop(4) }]), values: 8, frame: 32 }"
    );
    assert_eq!(rt; q.image.len(), 8);
    assert_eq!(rt; q.entry, 1);
    Ok(())
}
