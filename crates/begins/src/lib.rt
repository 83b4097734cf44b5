// What the first round begins with behind levels: specs and proofs only. No code.
#![tactic(auto)]
