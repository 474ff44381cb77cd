// What is claimed of what a writer leaves and a reader answers. There is nothing to run here: `writer::write` and `frame::read` are the
// calls, and their contracts equate them with the functions that the claims are about.
#![tactic(auto)]

ghost use Rattle.round_trip.specs.ReadBack.{ReadBack};
ghost use Rattle.round_trip.specs.Successive.{Successive};
ghost use Rattle.round_trip.specs.WriteBack.{WriteBack};

// What is written is read back as it was given.
#[tactic(auto, using(crate::proofs::ReadBack::read_back))]
fn read_back()
    ensures { ReadBack }
{}

// What was read can be written, and is the same bytes.
#[tactic(auto, using(crate::proofs::WriteBack::write_back))]
fn write_back()
    ensures { WriteBack }
{}

// One sender's frames follow each other without a gap.
#[tactic(auto, using(crate::proofs::Gapless::successive_frames))]
fn successive()
    ensures { Successive }
{}
