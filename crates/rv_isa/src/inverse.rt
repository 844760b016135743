//! Coding and decoding are inverse to each other. The functions do nothing; what they ensure is proved.
ghost use Rattle.std.specs.Prelude.{◌≡◌, ◌<◌, ◌^◌, Some};
ghost use Rattle.rv_isa.specs.declared.insn.Insn.{Insn};
ghost use Rattle.rv_isa.specs.Encode.{IsEncodable, encode_of, HasWord};
ghost use Rattle.rv_isa.specs.Decode.{decode_of};

use crate::insn::Insn;

/// The word of an instruction has 32 bits and decodes to the instruction, so no two instructions have one word.
pub fn encoded_decodes(i: &Insn)
    requires { IsEncodable i.now }
    ensures bits { encode_of i.now < 2 ^ 32 }
    ensures same { decode_of (encode_of i.now) ≡ Some i.now }
{}

/// A word decodes to an instruction exactly where the instruction can be encoded and this is its word.
pub fn decoded_encodes(w: u32)
    ensures only { (i : Insn) → decode_of w ≡ Some i → HasWord w i }
    ensures each { (i : Insn) → HasWord w i → decode_of w ≡ Some i }
{}
