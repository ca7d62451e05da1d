// The reference model of Fortuna (01's plain logbook) and the theorem about every list of calls. It has no code: all of it stands in specs/ and proofs/.
#![tactic(auto)]
