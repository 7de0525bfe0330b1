// Each contract of a public function leaves one answer and one content of every lent buffer: theorems over the contracts of the other crates, with no function.
#![tactic(auto)]
