// Floor and reduction of numbers with a sign, and a quotient rounded up: definitions in specs/, laws in proofs/, and no
// code.
#![tactic(auto)]
