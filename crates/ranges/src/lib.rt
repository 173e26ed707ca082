// What a step keeps: registers in their ranges, bytes, lengths; and that nothing else is refused. No code: the theorems stand in proofs/.
#![tactic(auto)]
