// Replay: what two ends of one history have in common. No code: the definitions are in specs/, the theorems in proofs/, and docs/REPLAY.md explains them.

#![tactic(auto)]
