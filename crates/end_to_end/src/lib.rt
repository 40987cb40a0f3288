#![tactic(auto)]

// The theorems stand in specs/ and proofs/: nothing runs here.
