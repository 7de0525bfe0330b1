// What a builder holds and what each call does to it: definitions in specs/ and laws in proofs/, with no function.
#![tactic(auto)]

use layout::kind::Kind;
use layout::refusal::Refusal;
