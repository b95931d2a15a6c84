#![tactic(auto)]

// No code: specs/ has the laws of tests and of lists that the kit lacks.
