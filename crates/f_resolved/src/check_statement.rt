//! Whether each number in a statement names a thing of the right kind.

ghost use Rattle.std.specs.Prelude.{◌≡◌, map};
ghost use Rattle.std.specs.List.{list_all};
ghost use Rattle.f_resolved.specs.Lists.{all_of, of_any};
ghost use Rattle.f_resolved.specs.Statements.{allocate_fits, allocation_fits, arm_fits, assignment_fits, call_fits, case_fits, choice_fits, control_fits, count_fits, counts, deallocate_fits, do_fits, executable_fits, has_no_rank, has_rank, if_fits, is_assumed_rank, is_integer, object_fits, objects_fit, pointer_assignment_fits, procedure_assignment_fits, range_fits_in, rank_case_fits, read_fits, row_has_rank, select_case_fits, select_rank_fits, selector_fits, statement_fits, statements_fit, target_fits, targets_fit, variable_fits};

use crate::check_expression::{
    are_arguments, are_expressions, is_expression, is_optional_expression, is_reference,
};
use crate::check_kind::{Row, is_callee, is_pointer, named_row, names_variable, variable_row};
use crate::expression::Reference;
use crate::kind::{DataType, Declared, Named, Scope};
use crate::program::FProgram;
use crate::statement::{
    Allocate, Allocation, AllocationRange, Arm, Assignment, Call, Case, Count, Deallocate, Do,
    Executable, If, LoopControl, PointerAssignment, PointerObject, ProcedureAssignment, RankCase,
    RankChoice, Read, SelectCase, SelectRank, Statement,
};

fn is_target(p: &FProgram, here: Scope, r: &Reference) -> bool
    ensures { result ≡ target_fits p.now here r.now }
{
    is_reference(p, here, true, r)
}

fn is_optional_target(p: &FProgram, here: Scope, r: &Option<Reference>) -> bool
    ensures { result ≡ of_any (target_fits p.now here) r.now }
{
    match r {
        None => true,
        Some(r) => is_target(p, here, r),
    }
}

fn are_targets(p: &FProgram, here: Scope, all: &[Reference]) -> bool
    ensures { result ≡ targets_fit p.now here all.now }
{
    all.iter().all(|r| is_target(p, here, r))
}

fn is_assignment(p: &FProgram, here: Scope, a: &Assignment) -> bool
    ensures { result ≡ assignment_fits p.now here a.now }
{
    is_target(p, here, &a.target) && is_expression(p, here, &a.value)
}

fn is_pointer_assignment(p: &FProgram, here: Scope, a: &PointerAssignment) -> bool
    ensures { result ≡ pointer_assignment_fits p.now here a.now }
{
    is_target(p, here, &a.pointer) && is_expression(p, here, &a.target)
}

fn is_procedure_assignment(p: &FProgram, here: Scope, a: &ProcedureAssignment) -> bool
    ensures { result ≡ procedure_assignment_fits p.now here a.now }
{
    is_pointer(p, here, a.pointer) && is_expression(p, here, &a.target)
}

fn is_call(p: &FProgram, here: Scope, c: &Call) -> bool
    ensures { result ≡ call_fits p.now here c.now }
{
    is_callee(p, here, false, c.callee) && are_arguments(p, here, c.callee, c.arguments.as_slice())
}

fn is_range_of(p: &FProgram, here: Scope, r: &AllocationRange) -> bool
    ensures { result ≡ range_fits_in p.now here r.now }
{
    is_optional_expression(p, here, &r.lower) && is_expression(p, here, &r.upper)
}

fn are_ranges(p: &FProgram, here: Scope, all: &[AllocationRange]) -> bool
    ensures { result ≡ list_all (λ r. range_fits_in p.now here r) all.now }
{
    all.iter().all(|r| is_range_of(p, here, r))
}

fn is_rank(rank: Option<usize>, count: usize) -> bool
    ensures { result ≡ has_rank rank count }
{
    match rank {
        None => false,
        Some(rank) => rank == count,
    }
}

fn has_rank(row: Option<Row>, count: usize) -> bool
    ensures { result ≡ row_has_rank row count }
{
    match row {
        None => false,
        Some(row) => is_rank(row.rank, count),
    }
}

fn is_allocation(p: &FProgram, here: Scope, a: &Allocation) -> bool
    ensures { result ≡ allocation_fits p.now here a.now }
{
    names_variable(a.object)
        && has_rank(named_row(p, here, a.object), a.ranges.len())
        && are_ranges(p, here, a.ranges.as_slice())
}

fn are_allocations(p: &FProgram, here: Scope, all: &[Allocation]) -> bool
    ensures { result ≡ list_all (λ x. allocation_fits p.now here x) all.now }
{
    all.iter().all(|a| is_allocation(p, here, a))
}

fn is_allocate(p: &FProgram, here: Scope, a: &Allocate) -> bool
    ensures { result ≡ allocate_fits p.now here a.now }
{
    are_allocations(p, here, a.objects.as_slice()) && is_optional_target(p, here, &a.status)
}

fn is_variable(p: &FProgram, here: Scope, x: Named) -> bool
    ensures { result ≡ variable_fits p.now here x }
{
    names_variable(x)
        && match named_row(p, here, x) {
            None => false,
            Some(_) => true,
        }
}

fn are_variables(p: &FProgram, here: Scope, all: &[Named]) -> bool
    ensures { result ≡ list_all (λ x. variable_fits p.now here x) all.now }
{
    all.iter().all(|x| is_variable(p, here, *x))
}

fn is_deallocate(p: &FProgram, here: Scope, d: &Deallocate) -> bool
    ensures { result ≡ deallocate_fits p.now here d.now }
{
    are_variables(p, here, d.objects.as_slice()) && is_optional_target(p, here, &d.status)
}

fn is_object(p: &FProgram, here: Scope, o: PointerObject) -> bool
    ensures { result ≡ object_fits p.now here o }
{
    match o {
        PointerObject::Data(x) => is_variable(p, here, x),
        PointerObject::Procedure(d) => is_pointer(p, here, d),
    }
}

fn are_objects(p: &FProgram, here: Scope, all: &[PointerObject]) -> bool
    ensures { result ≡ objects_fit p.now here all.now }
{
    all.iter().all(|o| is_object(p, here, *o))
}

fn is_read(p: &FProgram, here: Scope, r: &Read) -> bool
    ensures { result ≡ read_fits p.now here r.now }
{
    are_targets(p, here, r.targets.as_slice()) && is_optional_target(p, here, &r.status)
}

fn is_integer(kind: DataType) -> bool
    ensures { result ≡ is_integer kind }
{
    match kind {
        DataType::Integer(_) => true,
        DataType::Logical(_) => false,
        DataType::Character(_) => false,
        DataType::CPtr => false,
        DataType::CFunPtr => false,
        DataType::Derived(_) => false,
        DataType::Assumed => false,
        DataType::Procedure(_) => false,
    }
}

fn counts(row: Option<Row>) -> bool
    ensures { result ≡ counts row }
{
    match row {
        None => false,
        Some(row) => is_integer(row.kind) && is_rank(row.rank, 0),
    }
}

fn is_count(p: &FProgram, here: Scope, c: &Count) -> bool
    ensures { result ≡ count_fits p.now here c.now }
{
    names_variable(c.variable)
        && counts(named_row(p, here, c.variable))
        && is_expression(p, here, &c.first)
        && is_expression(p, here, &c.last)
        && is_optional_expression(p, here, &c.step)
}

fn is_control(p: &FProgram, here: Scope, control: &LoopControl) -> bool
    ensures { result ≡ control_fits p.now here control.now }
{
    match control {
        LoopControl::Endless => true,
        LoopControl::Count(c) => is_count(p, here, c.get()),
        LoopControl::While(e) => is_expression(p, here, e),
    }
}

fn is_choice(choice: RankChoice) -> bool
    ensures { result ≡ choice_fits choice }
{
    match choice {
        RankChoice::Default => true,
        RankChoice::Rank(rank) => rank <= 15,
        RankChoice::AssumedSize => true,
    }
}

fn is_assumed_rank(row: Option<Row>) -> bool
    ensures { result ≡ is_assumed_rank row }
{
    match row {
        None => false,
        Some(row) => match row.rank {
            None => true,
            Some(_) => false,
        },
    }
}

fn is_selector(p: &FProgram, here: Scope, d: Declared) -> bool
    ensures { result ≡ selector_fits p.now here d }
{
    is_assumed_rank(variable_row(p, here, d))
}

#[cycle(fit)]
fn is_statement(p: &FProgram, here: Scope, s: &Statement) -> bool
    ensures { result ≡ statement_fits p.now here s.now }
{
    is_executable(p, here, &s.form)
}

#[cycle(fit)]
fn is_executable(p: &FProgram, here: Scope, form: &Executable) -> bool
    ensures { result ≡ executable_fits p.now here form.now }
{
    match form {
        Executable::Assign(a) => is_assignment(p, here, a.get()),
        Executable::Associate(a) => is_pointer_assignment(p, here, a.get()),
        Executable::AssociateProcedure(a) => is_procedure_assignment(p, here, a.get()),
        Executable::Call(c) => is_call(p, here, c.get()),
        Executable::Exit => true,
        Executable::Cycle => true,
        Executable::Return => true,
        Executable::Stop(s) => is_optional_expression(p, here, &s.get().code),
        Executable::Allocate(a) => is_allocate(p, here, a.get()),
        Executable::Deallocate(d) => is_deallocate(p, here, d.get()),
        Executable::Nullify(objects) => are_objects(p, here, objects.as_slice()),
        Executable::Print(items) => are_expressions(p, here, items.as_slice()),
        Executable::Read(r) => is_read(p, here, r.get()),
        Executable::If(i) => is_if(p, here, i.get()),
        Executable::Do(d) => is_do(p, here, d.get()),
        Executable::SelectCase(s) => is_select_case(p, here, s.get()),
        Executable::SelectRank(s) => is_select_rank(p, here, s.get()),
    }
}

/// Whether each number in these statements names a thing of the right kind.
#[cycle(fit)]
pub fn are_statements(p: &FProgram, here: Scope, all: &[Statement]) -> bool
    ensures { result ≡ statements_fit p.now here all.now }
{
    'statements: for one in all {
        if !is_statement(p, here, one) {
            return false;
        }
    }
    true
}

#[cycle(fit)]
fn is_arm(p: &FProgram, here: Scope, a: &Arm) -> bool
    ensures { result ≡ arm_fits p.now here a.now }
{
    is_expression(p, here, &a.condition) && are_statements(p, here, a.body.as_slice())
}

#[cycle(fit)]
fn are_arms(p: &FProgram, here: Scope, all: &[Arm]) -> bool
    ensures { result ≡ all_of (map (arm_fits p.now here) all.now) }
{
    'arms: for one in all {
        if !is_arm(p, here, one) {
            return false;
        }
    }
    true
}

#[cycle(fit)]
fn is_if(p: &FProgram, here: Scope, i: &If) -> bool
    ensures { result ≡ if_fits p.now here i.now }
{
    is_arm(p, here, &i.first)
        && are_arms(p, here, i.others.as_slice())
        && match &i.otherwise {
            None => true,
            Some(body) => are_statements(p, here, body.as_slice()),
        }
}

#[cycle(fit)]
fn is_do(p: &FProgram, here: Scope, d: &Do) -> bool
    ensures { result ≡ do_fits p.now here d.now }
{
    is_control(p, here, &d.control) && are_statements(p, here, d.body.as_slice())
}

#[cycle(fit)]
fn is_case(p: &FProgram, here: Scope, c: &Case) -> bool
    ensures { result ≡ case_fits p.now here c.now }
{
    are_statements(p, here, c.body.as_slice())
}

#[cycle(fit)]
fn are_cases(p: &FProgram, here: Scope, all: &[Case]) -> bool
    ensures { result ≡ all_of (map (case_fits p.now here) all.now) }
{
    'cases: for one in all {
        if !is_case(p, here, one) {
            return false;
        }
    }
    true
}

#[cycle(fit)]
fn is_select_case(p: &FProgram, here: Scope, s: &SelectCase) -> bool
    ensures { result ≡ select_case_fits p.now here s.now }
{
    is_expression(p, here, &s.selector) && are_cases(p, here, s.cases.as_slice())
}

#[cycle(fit)]
fn is_rank_case(p: &FProgram, here: Scope, c: &RankCase) -> bool
    ensures { result ≡ rank_case_fits p.now here c.now }
{
    is_choice(c.choice) && are_statements(p, here, c.body.as_slice())
}

#[cycle(fit)]
fn are_rank_cases(p: &FProgram, here: Scope, all: &[RankCase]) -> bool
    ensures { result ≡ all_of (map (rank_case_fits p.now here) all.now) }
{
    'ranks: for one in all {
        if !is_rank_case(p, here, one) {
            return false;
        }
    }
    true
}

#[cycle(fit)]
fn is_select_rank(p: &FProgram, here: Scope, s: &SelectRank) -> bool
    ensures { result ≡ select_rank_fits p.now here s.now }
{
    is_selector(p, here, s.selector) && are_rank_cases(p, here, s.cases.as_slice())
}
