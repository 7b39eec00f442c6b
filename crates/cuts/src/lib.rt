#![tactic(auto)]

// How few words a run of writes can take: definitions in specs/, their laws in proofs/. No function.
