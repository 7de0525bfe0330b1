// Whatever is laid reads back and passes the table check: definitions in specs/ and their laws in proofs/, with no function.
#![tactic(auto)]
