// The demands, and a run in pieces, over the code's own answers. No code: the theorems stand in proofs/.
#![tactic(auto)]
