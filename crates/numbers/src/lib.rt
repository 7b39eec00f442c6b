#![tactic(auto)]

// Plain numbers: definitions in specs/, their laws in proofs/. No function.
