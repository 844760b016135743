//! The tokens of a file.

ghost use Rattle.std.specs.Prelude.{◌≡◌, ℕ, ◌+◌, ◌≤◌, IfOk, List, length, Some};
ghost use Rattle.c_pre.specs.Files.{fault_of, FaultCounts, FaultStrays, IsOfRule, Tells};

use crate::reader::{Reading, read};
use c_define::Definitions;
use c_directives::{MOST_TOKENS, Origin, Pre, Stop};
use c_lines::tag_number;
use c_token::CSpanned;
use jf_base::{Place, Tag, Text};
use jf_outside::Library;
use std::alloc::Global;

/// How deep includes may nest.
const MOST_DEEP: usize = 16;

/// Why a file has no tokens: memory was wanting, the file of this name couldn't be read, or the rule of this tag is broken there.
#[derive(Debug, Drop)]
pub enum PreFault {
    Memory,
    Library { name: Text },
    At { place: Place, tag: Tag },
}

fn fault_of(stop: Stop) -> PreFault
    ensures { result ≡ fault_of stop }
{
    match stop {
        Stop::Memory => PreFault::Memory,
        Stop::Library(name) => PreFault::Library {
            name: Text::from_string(name),
        },
        Stop::At(broken) => PreFault::At {
            place: broken.place,
            tag: Tag(tag_number(broken.rule)),
        },
    }
}

/// The tokens of a C file behind its directives, macro replacement and headers (ISO/IEC 9899:2011, 5.1.1.2 and 6.10), where no rule of the preprocessor is
/// broken; or else the first broken rule of `P01` to `P10` in the order in which the text is read, or the name of a file that couldn't be read before that.
/// `file` is the number of the file, and `before` how many tokens the files before have; its name isn't asked, since an `#include` reads from the library
/// by its own name. What a macro or an included text gives has the place of the macro's name or of the `#include` in this file.
///
/// It takes time in proportion to the bytes of the text and of each text that is included, as often as it is, to the bytes of the tokens that it gives, and
/// to the tokens of the replacement lists that rescanning goes through (6.10.3.4): in a chain of macros of one token each these are as many as its macros,
/// at each use. The list of a macro that gives nothing is gone through once. What is known of such macros is forgotten where one of them is defined or
/// undefined, which takes no longer than it took to learn it; then their lists are gone through once more where they are used.
pub fn expand<L: Library>(
    alloc: Global,
    file: u16,
    before: u32,
    _name: &str,
    bytes: &[u8],
    library: &mut L,
) -> Result<Vec<CSpanned>, PreFault>
    requires { before ≤ 262144 }
    ensures files { L.files library.new ≡ L.files library.old }
    ensures cause { FaultCounts result (L.faults library.old) (L.faults library.new) }
    ensures strays { (files : List (List ℕ × List ℕ)) → L.files library.old ≡ Some files → FaultStrays result files (L.strays library.old) (L.strays library.new) }
    ensures gives { (files : List (List ℕ × List ℕ)) → L.files library.old ≡ Some files → Tells result files file before bytes.now }
    ensures room { IfOk result (λ tokens. before + length tokens.items ≤ 262144) }
    ensures rule { IsOfRule result }
{
    let mut pre = Pre {
        macros: Definitions::new(alloc),
        out: Vec::new(alloc),
    };
    let reading = Reading {
        limit: MOST_TOKENS - before as usize,
        depth: MOST_DEEP,
        origin: Origin::Named(file),
    };
    match read(alloc, library, reading, &mut pre, bytes) {
        Err(stop) => Err(fault_of(stop)),
        Ok(()) => {
            let Pre { out, .. } = pre;
            Ok(out)
        }
    }
}
