// The definition's instructions: which opcode is which, what the published tables say of it, what it computes (specs/), and what is proved of
// that (proofs/). No code: that is in the crates `arithmetic`, `bits` and `instruction`.
#![tactic(auto)]
