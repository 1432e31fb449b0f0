#![tactic(auto)]

// Demand 3, and no code: from a fresh start or a taken image, with the voted handle held still, and where it is up the absorbers (request
// K7), within the bound red is latched or doors and gears have settled.
// What is claimed is written with specs/: Settled.antt (what settled means, and the demand), Runs.antt (a run of samples with handle
// and absorbers held), Sequences.antt (any list of samples, refused ones among them), CoreRuns.antt (a run over the core, for any
// limit, and by how soon doors and gears are seen), WorstRuns.antt (a run that settles at the bound). The bound itself stands in the laws'
// Bounds.antt.
// The theorems are proofs/: Demand3.antt over the controller's step, Sequences.antt with refused samples, CoreSettles.antt for every limit,
// InForce.antt that the aim in force stays, Worst.antt for that run.
