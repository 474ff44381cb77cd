// The listing of a capture, a chunk at a time.
#![tactic(auto)]

pub mod chunk;

ghost use Rattle.listing.specs.Listing.{Numbered, NothingShown};
ghost use Rattle.listing.specs.InChunks.{ListedInChunks};
ghost use Rattle.listing.specs.Example.{WorkedExample};
ghost use Rattle.listing.specs.Unlimited.{UnlimitedWithout5};

// The rules list document 01's capture as it does, but for the removal (request #109), and worked ones of requests #107 to #109.
fn worked_example()
    ensures { WorkedExample }
{}

// Records are numbered from 1, and the last line has how many there are.
#[tactic(auto, using(crate::proofs::Lines::numbered))]
fn numbered()
    ensures { Numbered }
{}

// Where no line is shown there is no text.
#[tactic(auto, using(crate::proofs::Lines::nothing_shown))]
fn nothing_shown()
    ensures { NothingShown }
{}

// A capture without a record of kind 5 lists as it would without limits.
#[tactic(auto, using(crate::proofs::Unlimited::unlimited_without_5))]
fn unlimited_without_5()
    ensures { UnlimitedWithout5 }
{}

// Listing a capture in any chunks is listing it whole.
#[tactic(auto, using(crate::proofs::InChunks::in_chunks))]
fn in_chunks()
    ensures { ListedInChunks }
{}
