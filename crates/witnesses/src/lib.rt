#![tactic(auto)]

// Computed runs that show that the laws speak of something, and no code: each of the thirteen causes is reached, 001 as printed
// hangs, a rig whose absorbers bounce need not settle, and one that stands on its wheels counts as settled.
// They stand by themselves so that an edit of a law does not compute them again. What is claimed is specs/; the theorems are proofs/.
