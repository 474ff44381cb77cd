// Readings of a clock that wraps, and how far one lies from another. There is nothing to run here: these are the definitions and the law
// behind the offset of a presentation time (document 01) and that of a cycle time (request #101).
#![tactic(auto)]

ghost use Rattle.wrapping.specs.Wrapping.{Remainder, OneOffset};

// `modulo`, by which readings are said to be equal modulo a wrap, is the remainder.
#[tactic(auto, using(crate::proofs::Modulo::is_remainder))]
fn remainder()
    ensures { Remainder }
{}

// Whatever half a wrap is, there is one offset and no other.
fn one_offset()
    ensures { OneOffset }
{}
