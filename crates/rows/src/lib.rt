// The document's worked rows, computed by the definition on whole memories. No code.
#![tactic(auto)]
