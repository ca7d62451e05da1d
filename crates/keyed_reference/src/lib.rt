// The reference model of the keyed scheduler and the theorem about every list of its calls. It has no code: all of it stands in specs/ and proofs/.
#![tactic(auto)]
