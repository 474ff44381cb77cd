// Rules for proofs by hand: a walk of a function's code over slices of structs and references to them. Nothing here needs them any
// more, since the checker walks such code itself; they are kept, proved. There is nothing to run, and nothing that an auditor has to
// believe.
#![tactic(auto)]
