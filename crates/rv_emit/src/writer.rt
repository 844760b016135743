//! Lines of assembly that are written from the last to the first.

ghost use Rattle.std.specs.Prelude.{◌≡◌, ◌∷◌, ◌<◌, ◌^◌, ◌*◌, ◌+◌, [], IfOk, OnOk};
ghost use Rattle.rv_isa.specs.declared.insn.Insn.TheVariants as M;
ghost use Rattle.rv_assemble.specs.declared.unit.AsmLine.TheVariants as L;
ghost use Rattle.flat_ir.specs.declared.program.Operation.TheVariants as O;
ghost use Rattle.emitted_code.specs.Straight.{lines, load_pair, append_bits, load_long, load_number, load_word, store_word};

use crate::machine::{A7, SP, T2, ZERO};
use jf_base::List;
use rv_assemble::AsmLine;
use rv_isa::Insn;
use std::alloc::{AllocError, Global};
use std::marker::Model;

/// Lines, to which others are put in front. They lie from the last to the first.
#[derive(Drop)]
pub struct Writer {
    backward: Vec<AsmLine>,
}

impl Model for Writer {
    ghost use Rattle.std.specs.Prelude.{List, reverse};
    ghost use Rattle.rv_assemble.specs.declared.unit.AsmLine.{AsmLine};

    ghost Value = { List AsmLine };

    ghost view = { λ w. reverse w.backward.items };
}

impl Writer {
    /// No lines.
    pub fn new(alloc: Global) -> Writer
        ensures { result ≡ [] }
    {
        Writer {
            backward: Vec::new(alloc),
        }
    }

    /// Puts a line in front.
    pub fn put(&mut self, line: AsmLine) -> Result<(), AllocError>
        ensures { OnOk result (self.new ≡ line ∷ self.old) }
    {
        self.backward.push(line)?;
        Ok(())
    }

    /// Puts an instruction in front.
    pub fn plain(&mut self, insn: Insn) -> Result<(), AllocError>
        ensures { OnOk result (self.new ≡ L.Plain insn ∷ self.old) }
    {
        self.put(AsmLine::Plain(insn))
    }

    /// Puts in front what writes a number of 32 bits into a register, by LUI and ADDI.
    pub fn load_pair(&mut self, rd: u8, n: u32) -> Result<(), AllocError>
        ensures { OnOk result (self.new ≡ lines (load_pair rd n) self.old) }
    {
        let raised = n as u64 + 2048;
        let nearest = raised / 4096 * 4096 % (1 << 32);
        let upper = if nearest < 1 << 31 {
            nearest
        } else {
            nearest + (u64::MAX - ((1 << 32) - 1))
        };
        let lower = (raised % 4096).wrapping_add(u64::MAX - 2047);
        self.plain(Insn::Addi {
            rd,
            rs1: rd,
            imm: lower,
        })?;
        self.plain(Insn::Lui { rd, imm: upper })
    }

    // The register shifted, and so many bits put behind it.
    fn append_bits(&mut self, rd: u8, count: u64, bits: u64) -> Result<(), AllocError>
        ensures { OnOk result (self.new ≡ lines (append_bits rd count bits) self.old) }
    {
        self.plain(Insn::Addi {
            rd,
            rs1: rd,
            imm: bits,
        })?;
        self.plain(Insn::Slli {
            rd,
            rs1: rd,
            imm: count,
        })
    }

    fn load_long(&mut self, rd: u8, n: u64) -> Result<(), AllocError>
        ensures { OnOk result (self.new ≡ lines (load_long rd n) self.old) }
    {
        self.append_bits(rd, 10, n % (1 << 10))?;
        self.append_bits(rd, 11, n / (1 << 10) % (1 << 11))?;
        self.append_bits(rd, 11, n / (1 << 21) % (1 << 11))?;
        self.load_pair(rd, (n / (1 << 32)) as u32)
    }

    /// Puts in front what writes a number into a register.
    pub fn load_number(&mut self, rd: u8, n: u64) -> Result<(), AllocError>
        ensures { OnOk result (self.new ≡ lines (load_number rd n) self.old) }
    {
        if n < 2048 || u64::MAX - 2047 <= n {
            return self.plain(Insn::Addi {
                rd,
                rs1: ZERO,
                imm: n,
            });
        }
        if n < (1 << 31) - 2048 {
            return self.load_pair(rd, n as u32);
        }
        self.load_long(rd, n)
    }

    /// Puts in front what loads the word at this offset from the stack pointer into a register.
    pub fn load_word(&mut self, rd: u8, offset: u64) -> Result<(), AllocError>
        ensures { OnOk result (self.new ≡ lines (load_word rd offset) self.old) }
    {
        if offset < 2048 {
            return self.plain(Insn::Ld {
                rd,
                rs1: SP,
                imm: offset,
            });
        }
        self.plain(Insn::Ld {
            rd,
            rs1: T2,
            imm: 0,
        })?;
        self.plain(Insn::Add {
            rd: T2,
            rs1: T2,
            rs2: SP,
        })?;
        self.load_number(T2, offset)
    }

    /// Puts in front what stores a register to the word at this offset from the stack pointer.
    pub fn store_word(&mut self, rs: u8, offset: u64) -> Result<(), AllocError>
        ensures { OnOk result (self.new ≡ lines (store_word rs offset) self.old) }
    {
        if offset < 2048 {
            return self.plain(Insn::Sd {
                rs1: SP,
                rs2: rs,
                imm: offset,
            });
        }
        self.plain(Insn::Sd {
            rs1: T2,
            rs2: rs,
            imm: 0,
        })?;
        self.plain(Insn::Add {
            rd: T2,
            rs1: T2,
            rs2: SP,
        })?;
        self.load_number(T2, offset)
    }

    /// All lines.
    pub fn into_lines(self) -> List<AsmLine>
        ensures { result ≡ self }
    {
        let mut lines = self.backward;
        lines.reverse();
        List::from_vec(lines)
    }
}
