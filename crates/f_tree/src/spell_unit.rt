//! The tokens of procedures and program units. What stands last is put first.

ghost use Rattle.std.specs.Prelude.{◌≡◌, OnOk, map, codes};
ghost use Rattle.f_tree.specs.Lexemes.{if_there};
ghost use Rattle.f_tree.specs.Units.{contained};

use crate::lexeme::Lexemes;
use crate::spell::{Spell, put_each};
use crate::spell_definition::put_ending;
use crate::spell_specification::{put_head, put_procedure_ending, put_specification};
use crate::spell_statement::put_statements;
use crate::unit::{Module, Procedure, Program, Unit};
use jf_base::List;
use std::alloc::AllocError;

impl Spell for Procedure {
    ghost use Rattle.f_tree.specs.Units.{procedure};

    ghost spelled = { procedure };

    fn put(&self, out: &mut Lexemes) -> Result<(), AllocError> {
        put_procedure_ending(out, &self.ending, self.head.kind)?;
        put_statements(out, self.body.as_slice())?;
        put_specification(out, &self.specification)?;
        put_head(out, &self.head)
    }
}

impl Spell for Program {
    ghost use Rattle.f_tree.specs.Units.{program};

    ghost spelled = { program };

    fn put(&self, out: &mut Lexemes) -> Result<(), AllocError> {
        put_ending(out, &self.ending, "program", "endprogram")?;
        put_statements(out, self.body.as_slice())?;
        put_specification(out, &self.specification)?;
        out.statement_end()?;
        out.name(&self.name)?;
        out.placed_word("program", self.place)
    }
}

fn put_contained(out: &mut Lexemes, procedures: &Option<List<Procedure>>) -> Result<(), AllocError>
    ensures { OnOk result (out.new ≡ if_there contained procedures.now out.old) }
{
    match procedures {
        None => Ok(()),
        Some(procedures) => {
            put_each(out, procedures.as_slice())?;
            out.statement_end()?;
            out.word("contains")
        }
    }
}

impl Spell for Module {
    ghost use Rattle.f_tree.specs.Units.{module_unit};

    ghost spelled = { module_unit };

    fn put(&self, out: &mut Lexemes) -> Result<(), AllocError> {
        put_ending(out, &self.ending, "module", "endmodule")?;
        put_contained(out, &self.procedures)?;
        put_specification(out, &self.specification)?;
        out.statement_end()?;
        out.name(&self.name)?;
        out.placed_word("module", self.place)
    }
}

impl Spell for Unit {
    ghost use Rattle.f_tree.specs.Units.{unit};

    ghost spelled = { unit };

    fn put(&self, out: &mut Lexemes) -> Result<(), AllocError> {
        match self {
            Unit::Program(program) => program.put(out),
            Unit::Module(module) => module.put(out),
            Unit::Procedure(procedure) => procedure.put(out),
        }
    }
}
