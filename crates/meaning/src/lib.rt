#![tactic(auto)]

// No code: what a reader has to believe stands in specs/, in the order of specs/Lib.antt.
