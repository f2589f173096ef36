// Paper 01's starred cases: specs/Cases.antt has the list, proofs/Starred.antt the claim.
#![tactic(auto)]
