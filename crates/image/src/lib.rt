// The image of a table: definitions in specs/ and their laws in proofs/, with no function.
#![tactic(auto)]
