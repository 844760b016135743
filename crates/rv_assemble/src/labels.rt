//! The line of each branch's label.
ghost use Rattle.std.specs.Prelude.{◌≡◌, ℕ, IfOk, OnOk, length, nat_eq};
ghost use Rattle.std.specs.HashMap.{get};
ghost use Rattle.rv_assemble.specs.Lines.{AreProperLines};
ghost use Rattle.rv_assemble.specs.Places.{AreLabelLines, AreTargets, target_by, with_label};

use crate::unit::AsmLine;
use std::alloc::{AllocError, Global};
use std::collections::HashMap;

/// Adds the line, if it is a label.
fn add_label(found: &mut HashMap<u32, u64>, line: &AsmLine, k: u64) -> Result<(), AllocError>
    ensures { OnOk result ((l : ℕ) → get nat_eq found.new l ≡ with_label (λ q. get nat_eq found.old q) k line.now l) }
{
    if let AsmLine::Label(label) = line {
        found.insert(*label, k)?;
    }
    Ok(())
}

/// The line of each label.
fn label_lines(alloc: Global, lines: &[AsmLine]) -> Result<HashMap<u32, u64>, AllocError>
    ensures { IfOk result (λ found. AreLabelLines lines.now (length lines.now) (λ l. get nat_eq found l)) }
{
    let mut found = HashMap::new(alloc);
    for (k, line) in lines.iter().enumerate() {
        add_label(&mut found, line, k as u64)?;
    }
    Ok(found)
}

fn target(found: &HashMap<u32, u64>, line: &AsmLine) -> u64
    ensures { result ≡ target_by (λ l. get nat_eq found.now l) line.now }
{
    match line {
        AsmLine::Branch { to, .. } => found.get(to).copied().unwrap_or(0),
        _ => 0,
    }
}

/// The line of each branch's label, and 0 for each other line.
pub(crate) fn targets(alloc: Global, lines: &[AsmLine]) -> Result<Vec<u64>, AllocError>
    requires { AreProperLines lines.now }
    ensures { IfOk result (λ targets. AreTargets lines.now targets.items) }
{
    let found = label_lines(alloc, lines)?;
    let mut targets = Vec::new(alloc);
    for line in lines {
        targets.push(target(&found, line))?;
    }
    Ok(targets)
}
