// What a tree derives, and demand 3 over trees and on the bytes of the calls: specs and proofs only. No code.
#![tactic(auto)]
