#![tactic(auto)]

// No code: proofs/ shows that a plan that passes the check never makes a number too large for its cell.
