#![tactic(auto)]

// The law of the joined rig (request K8): red never lights, and with the handle held it settles. No code: specs/Inputs.antt has its runs,
// specs/Law.antt and specs/Settles.antt what is said of them, and proofs/ shows it.
