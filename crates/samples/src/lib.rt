// No code: the samples marked P, SPEC, "Samples", are the table of specs/Samples.antt, and proofs/Claim.antt proves its claim.
#![tactic(auto)]
