ghost use Rattle.std.specs.Prelude.{◌≡◌, ◌&&◌, ◌||◌, [], length, nat_lt, slice_get};
ghost use Rattle.std.specs.List.{list_all};
ghost use Rattle.flat_ir.specs.Exits.{answers_of};
ghost use Rattle.flat_ir.specs.Checked.{all_apart, any_is, any_uses, are_apart, asked_behind, asks, each_below, entry_fits, expr_fits, exprs_fit, fix_fits, is_ok, is_set_first, proc_fits, results_fit, stmt_fits, target_fits, uses};
ghost use Rattle.flat_ir.specs.Tree;
ghost use Rattle.flat_ir.specs.View.{expr_of, exprs_of, proc_of, procs_of, stmt_of, stmts_of};

use crate::program::{Fix, FlatExpr, FlatProc, FlatProgram, FlatStmt, Target};
use jf_base::List;

/// How many values, procedures and bytes of the image there are.
#[derive(Clone, Copy, Drop)]
struct Counts {
    values: u32,
    procs: usize,
    bytes: usize,
}

/// The loops around a statement, the innermost first, each with an answer for what is behind it.
#[derive(Drop)]
enum Exits<'a> {
    Outside,
    Behind(bool, &'a Exits<'a>),
}

fn has_exit(exits: &Exits, k: u32) -> bool
    ensures { result ≡ nat_lt k (length (answers_of exits.now)) }
{
    match exits {
        Exits::Outside => false,
        Exits::Behind(_, outer) => k == 0 || has_exit(outer, k - 1),
    }
}

fn exit_asks(exits: &Exits, k: u32) -> bool
    ensures { result ≡ asked_behind (answers_of exits.now) k }
{
    match exits {
        Exits::Outside => false,
        Exits::Behind(answer, outer) => {
            if k == 0 {
                *answer
            } else {
                exit_asks(outer, k - 1)
            }
        }
    }
}

#[tactic(auto, using(crate::proofs::Rows::binary_tree, crate::proofs::Rows::load_tree))]
fn expr_names_fit(counts: Counts, e: &FlatExpr) -> bool
    ensures { result ≡ expr_fits counts.values counts.procs counts.bytes (expr_of e.now) }
{
    match e {
        FlatExpr::Number(_) => true,
        FlatExpr::Value(x) => *x < counts.values,
        FlatExpr::Binary(_, a, b) => {
            expr_names_fit(counts, a.get()) && expr_names_fit(counts, b.get())
        }
        FlatExpr::Load(_, _, a) => expr_names_fit(counts, a.get()),
        FlatExpr::Procedure(p) => (*p as usize) < counts.procs,
        FlatExpr::Image(n) => *n <= counts.bytes as u64,
    }
}

#[tactic(auto, using(crate::proofs::Rows::binary_tree, crate::proofs::Rows::load_tree))]
fn expr_uses(x: u32, e: &FlatExpr) -> bool
    ensures { result ≡ uses x (expr_of e.now) }
{
    match e {
        FlatExpr::Number(_) => false,
        FlatExpr::Value(y) => *y == x,
        FlatExpr::Binary(_, a, b) => expr_uses(x, a.get()) || expr_uses(x, b.get()),
        FlatExpr::Load(_, _, a) => expr_uses(x, a.get()),
        FlatExpr::Procedure(_) => false,
        FlatExpr::Image(_) => false,
    }
}

fn any_expr_uses(x: u32, es: &[FlatExpr]) -> bool
    ensures { result ≡ any_uses x (exprs_of es.now) }
{
    let mut rest = es;
    while let [first, others @ ..] = rest {
        if expr_uses(x, first) {
            return true;
        }
        rest = others;
    }
    false
}

fn any_value_is(x: u32, ys: &[u32]) -> bool
    ensures { result ≡ any_is x ys.now }
{
    let mut rest = ys;
    while let [first, others @ ..] = rest {
        if *first == x {
            return true;
        }
        rest = others;
    }
    false
}

fn exprs_names_fit(counts: Counts, es: &[FlatExpr]) -> bool
    ensures { result ≡ exprs_fit counts.values counts.procs counts.bytes (exprs_of es.now) }
{
    let mut rest = es;
    while let [first, others @ ..] = rest {
        if !expr_names_fit(counts, first) {
            return false;
        }
        rest = others;
    }
    true
}

fn results_names_fit(counts: Counts, xs: &[u32]) -> bool
    ensures { result ≡ results_fit counts.values xs.now }
{
    xs.len() <= 2 && xs.iter().all(|x| *x < counts.values)
}

fn call_names_fit(counts: Counts, xs: &List<u32>, p: u32, es: &List<FlatExpr>) -> bool
    ensures { result ≡ stmt_fits counts.values counts.procs counts.bytes 0 (Tree.Call xs.now p (exprs_of es.now)) }
{
    results_names_fit(counts, xs.as_slice())
        && (p as usize) < counts.procs
        && exprs_names_fit(counts, es.as_slice())
}

fn call_at_names_fit(counts: Counts, xs: &List<u32>, a: &FlatExpr, es: &List<FlatExpr>) -> bool
    ensures { result ≡ stmt_fits counts.values counts.procs counts.bytes 0 (Tree.CallAt xs.now (expr_of a.now) (exprs_of es.now)) }
{
    results_names_fit(counts, xs.as_slice())
        && expr_names_fit(counts, a)
        && exprs_names_fit(counts, es.as_slice())
}

fn return_names_fit(counts: Counts, es: &List<FlatExpr>) -> bool
    ensures { result ≡ stmt_fits counts.values counts.procs counts.bytes 0 (Tree.Return (exprs_of es.now)) }
{
    es.len() <= 2 && exprs_names_fit(counts, es.as_slice())
}

fn test_and_sides_fit(counts: Counts, e: &FlatExpr, first: bool, second: bool) -> bool
    ensures { result ≡ (expr_fits counts.values counts.procs counts.bytes (expr_of e.now) && (first && second)) }
{
    expr_names_fit(counts, e) && first && second
}

// Whether the numbers of a statement name what is there.
#[cycle(fit)]
#[tactic(auto, using(crate::proofs::Rows::if_tree, crate::proofs::Rows::loop_tree))]
fn stmt_names_fit(counts: Counts, s: &FlatStmt, exits: &Exits) -> bool
    ensures { result ≡ stmt_fits counts.values counts.procs counts.bytes (length (answers_of exits.now)) (stmt_of s.now) }
{
    match s {
        FlatStmt::Set(x, e) => *x < counts.values && expr_names_fit(counts, e),
        FlatStmt::Load(x, _, _, a) => *x < counts.values && expr_names_fit(counts, a),
        FlatStmt::Store(_, a, e) => expr_names_fit(counts, a) && expr_names_fit(counts, e),
        FlatStmt::Call(xs, p, es) => call_names_fit(counts, xs, *p, es),
        FlatStmt::CallAt(xs, a, es) => call_at_names_fit(counts, xs, a, es),
        FlatStmt::If(e, a, b) => {
            let first = stmts_names_fit(counts, a.as_slice(), &*exits);
            let second = stmts_names_fit(counts, b.as_slice(), &*exits);
            test_and_sides_fit(counts, e, first, second)
        }
        FlatStmt::Loop(body) => {
            stmts_names_fit(counts, body.as_slice(), &Exits::Behind(false, &*exits))
        }
        FlatStmt::Break(k) => has_exit(&*exits, *k),
        FlatStmt::Return(es) => return_names_fit(counts, es),
        FlatStmt::Take(x) => *x < counts.values,
        FlatStmt::Give(e) => expr_names_fit(counts, e),
        FlatStmt::Stop(e) => expr_names_fit(counts, e),
        FlatStmt::Limit(_) => true,
    }
}

#[cycle(fit)]
fn stmts_names_fit(counts: Counts, stmts: &[FlatStmt], exits: &Exits) -> bool
    ensures { result ≡ stmt_fits counts.values counts.procs counts.bytes (length (answers_of exits.now)) (stmts_of stmts.now) }
{
    let mut fit = true;
    for i in (0..stmts.len()).rev() {
        fit = stmt_names_fit(counts, &stmts[i], &*exits) && fit;
    }
    fit
}

fn test_or_sides_ask(x: u32, e: &FlatExpr, first: bool, second: bool) -> bool
    ensures { result ≡ (uses x (expr_of e.now) || (first || second)) }
{
    expr_uses(x, e) || first || second
}

// Whether some path through a statement uses a value before it sets it; `after` answers for the paths behind it, and `exits` for those behind the loops around it.
#[cycle(ask)]
#[tactic(auto, using(crate::proofs::Rows::if_tree, crate::proofs::Rows::loop_tree))]
fn stmt_asks(x: u32, s: &FlatStmt, after: bool, exits: &Exits) -> bool
    ensures { result ≡ asks x (stmt_of s.now) after (answers_of exits.now) }
{
    match s {
        FlatStmt::Set(y, e) => expr_uses(x, e) || (*y != x && after),
        FlatStmt::Load(y, _, _, a) => expr_uses(x, a) || (*y != x && after),
        FlatStmt::Store(_, a, e) => expr_uses(x, a) || expr_uses(x, e) || after,
        FlatStmt::Call(ys, _, es) => call_asks(x, ys, es, after),
        FlatStmt::CallAt(ys, a, es) => expr_uses(x, a) || call_asks(x, ys, es, after),
        FlatStmt::If(e, a, b) => {
            let first = stmts_ask(x, a.as_slice(), after, &*exits);
            let second = stmts_ask(x, b.as_slice(), after, &*exits);
            test_or_sides_ask(x, e, first, second)
        }
        FlatStmt::Loop(body) => {
            stmts_ask(x, body.as_slice(), false, &Exits::Behind(after, &*exits))
        }
        FlatStmt::Break(k) => exit_asks(&*exits, *k),
        FlatStmt::Return(es) => any_expr_uses(x, es.as_slice()),
        FlatStmt::Take(y) => *y != x && after,
        FlatStmt::Give(e) => expr_uses(x, e) || after,
        FlatStmt::Stop(e) => expr_uses(x, e),
        FlatStmt::Limit(_) => false,
    }
}

#[cycle(ask)]
fn stmts_ask(x: u32, stmts: &[FlatStmt], after: bool, exits: &Exits) -> bool
    ensures { result ≡ asks x (stmts_of stmts.now) after (answers_of exits.now) }
{
    let mut answer = after;
    for i in (0..stmts.len()).rev() {
        answer = stmt_asks(x, &stmts[i], answer, &*exits);
    }
    answer
}

fn call_asks(x: u32, ys: &List<u32>, es: &List<FlatExpr>, after: bool) -> bool
    ensures { result ≡ asks x (Tree.Call ys.now 0 (exprs_of es.now)) after [] }
{
    any_expr_uses(x, es.as_slice()) || (!any_value_is(x, ys.as_slice()) && after)
}

fn is_value_set_first(f: &FlatProc, x: u32) -> bool
    ensures { result ≡ is_set_first (proc_of f.now) x }
{
    x < f.params || !stmts_ask(x, f.body.as_slice(), false, &Exits::Outside)
}

fn are_values_set_first(f: &FlatProc) -> bool
    ensures { result ≡ each_below f.now.values (is_set_first (proc_of f.now)) }
{
    let mut all = true;
    for x in 0..f.values {
        all = all && is_value_set_first(f, x);
    }
    all
}

fn is_proc_ok(f: &FlatProc, procs: usize, bytes: usize) -> bool
    ensures { result ≡ proc_fits procs bytes (proc_of f.now) }
{
    let counts = Counts {
        values: f.values,
        procs,
        bytes,
    };
    f.params <= f.values
        && stmts_names_fit(counts, f.body.as_slice(), &Exits::Outside)
        && are_values_set_first(f)
}

fn is_fix_ok(fix: &Fix, procs: usize, bytes: usize) -> bool
    ensures { result ≡ fix_fits procs bytes fix.now }
{
    let fits = match fix.target {
        Target::Proc(p) => (p as usize) < procs,
        Target::Image(n) => n <= bytes as u64,
    };
    bytes >= 8 && fix.at <= bytes as u64 - 8 && fits
}

fn have_no_byte_in_common(a: &Fix, b: &Fix) -> bool
    ensures { result ≡ are_apart a.now b.now }
{
    (b.at >= 8 && a.at <= b.at - 8) || (a.at >= 8 && b.at <= a.at - 8)
}

fn is_apart_from(first: &Fix, others: &[Fix]) -> bool
    ensures { result ≡ list_all (λ g. are_apart first.now g) others.now }
{
    others.iter().all(|g| have_no_byte_in_common(first, g))
}

fn are_all_apart(fixes: &[Fix]) -> bool
    ensures { result ≡ all_apart fixes.now }
{
    let mut rest = fixes;
    while let [first, others @ ..] = rest {
        if !is_apart_from(first, others) {
            return false;
        }
        rest = others;
    }
    true
}

fn is_entry_ok(p: &FlatProgram) -> bool
    ensures { result ≡ entry_fits (slice_get (procs_of p.now.procs) p.now.entry) }
{
    match p.procs.as_slice().get(p.entry as usize) {
        Some(f) => f.params <= 5,
        None => false,
    }
}

fn are_procs_ok(p: &FlatProgram) -> bool
    ensures { result ≡ list_all (λ f. proc_fits (length p.now.procs) (length p.now.image) (proc_of f)) p.now.procs }
{
    let procs = p.procs.len();
    let bytes = p.image.len();
    p.procs
        .as_slice()
        .iter()
        .all(|f| is_proc_ok(f, procs, bytes))
}

fn are_fixes_in_image(p: &FlatProgram) -> bool
    ensures { result ≡ list_all (λ f. fix_fits (length p.now.procs) (length p.now.image) f) p.now.fixes }
{
    let procs = p.procs.len();
    let bytes = p.image.len();
    p.fixes
        .as_slice()
        .iter()
        .all(|f| is_fix_ok(f, procs, bytes))
}

fn are_fixes_ok(p: &FlatProgram) -> bool
    ensures { result ≡ (list_all (λ f. fix_fits (length p.now.procs) (length p.now.image) f) p.now.fixes && all_apart p.now.fixes) }
{
    are_fixes_in_image(p) && are_all_apart(p.fixes.as_slice())
}

/// Whether a program holds together: each number names what is there, each value but a parameter is set on every path before it is used,
/// no procedure has more parameters than values, the entry has at most five parameters, and each fix has its 8 bytes in the image, apart from the others.
/// Takes no memory: it goes over a procedure once for each of its values, and over the fixes once for each of them.
pub fn flat_ok(p: &FlatProgram) -> bool
    ensures { result ≡ is_ok p.now }
{
    is_entry_ok(p) && are_procs_ok(p) && are_fixes_ok(p)
}
