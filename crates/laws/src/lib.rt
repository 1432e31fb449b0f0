#![tactic(auto)]

// The laws of document 01, the conditions of request K3, the bounces of request K5 and the wheels of request K7 over every sequence of
// samples, refused ones among them, from a fresh start or a taken image, and no code. What is claimed is specs/; the theorems are proofs/.
