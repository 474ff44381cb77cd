// The frames of a capture as a list of arrivals. There is nothing to run here: the claims are about what the listing says of a capture and the
// table that it leaves, as `listing` defines them.
#![tactic(auto)]

ghost use Rattle.capture_arrivals.specs.LastAdmission.{AfterLastAdmission};
ghost use Rattle.capture_arrivals.specs.Staying.{StaysAdmitted};
ghost use Rattle.capture_arrivals.specs.Example.{WorkedCaptures};

// After a capture's last obeyed admission the answers to its frames, and the table at the end, are those of their list of arrivals.
#[tactic(auto, using(crate::proofs::Following::after_last_admission))]
fn after_last_admission()
    ensures { AfterLastAdmission }
{}

// A stream that is admitted stays so to the end of the capture.
#[tactic(auto, using(crate::proofs::Staying::stays_admitted))]
fn stays_admitted()
    ensures { StaysAdmitted }
{}

// The last obeyed admission of worked captures, and the frames behind it.
fn worked_captures()
    ensures { WorkedCaptures }
{}
