#![tactic(auto)]

// The demands on the library as theorems: proofs/. No function.
