#![tactic(auto)]

// No code: specs/ has the laws of whole numbers that the kit lacks.
