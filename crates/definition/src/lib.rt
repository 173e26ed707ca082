// THE DEFINITION of a step and of a run (specs/), written from 01 and the published tables, and what is proved of it (proofs/). No code: that
// is in the crates from `arithmetic` to `run`.
#![tactic(auto)]
