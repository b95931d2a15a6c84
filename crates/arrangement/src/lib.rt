#![tactic(auto)]

// No code: proofs/ reads a plan back out of its bytes, and shows that one plan has one string.
