// What a write that succeeds gives: definitions in specs/ and their laws in proofs/, with no function.
#![tactic(auto)]
