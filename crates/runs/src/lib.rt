#![tactic(auto)]

// Runs of writes and the lists that say them: definitions in specs/, their laws in proofs/. No function.
