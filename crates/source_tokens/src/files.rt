//! All files of a program.
ghost use Rattle.std.specs.Prelude.{◌≡◌, ◌≤◌, length};
ghost use Rattle.source_tokens.specs.Reading.{AreRead};

use crate::source::{SourceFault, SourceFile, read_source};
use jf_base::Text;
use jf_outside::Library;
use std::alloc::Global;

/// Reads the files of these names in order, each with its headers where it is C's. The answer is their bytes and tokens with their statements or external
/// declarations, or the first fault: a file that the library doesn't give, or the first broken rule. A Fortran file is held to the rules of source form
/// (`L01` to `L08`) and then to those of statements (`S01` to `S03`), a C file to those of the preprocessor (`P01` to `P10`) and then to those of its
/// grammar (`G01` and `G02`), and the next file is read behind that. Tokens are counted over all files. It takes time in proportion to what `lex`,
/// `read_statements`, `expand` and `read_c` take for each file.
pub fn read_sources<L: Library>(
    alloc: Global,
    names: &[Text],
    library: &mut L,
) -> Result<Vec<SourceFile>, SourceFault>
    requires { length names.now ≤ 64 }
    ensures listing { L.files library.new ≡ L.files library.old }
    ensures read { AreRead names.now result
        (record { listing = L.files library.old; faults = L.faults library.old; strays = L.strays library.old })
        (record { listing = L.files library.new; faults = L.faults library.new; strays = L.strays library.new }) }
{
    let mut sources = Vec::new(alloc);
    let mut rest = names;
    let mut file: u16 = 0;
    let mut before: u32 = 0;
    while let Some((name, others)) = rest.split_first() {
        match read_source(alloc, file, before, name, library) {
            Err(fault) => return Err(fault),
            Ok(source) => {
                before += source.tokens.count() as u32;
                file += 1;
                rest = others;
                if sources.push(source).is_err() {
                    return Err(SourceFault::Memory);
                }
            }
        }
    }
    Ok(sources)
}
