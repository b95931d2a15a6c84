#![tactic(auto)]

// No code: proofs/ shows that a grouping is the runs of its sorted rows.
