#![tactic(auto)]

// Theorems over whole files, where the laws over every reached state and the runs from file to file meet; no code. What is claimed is
// written with specs/; the theorems are proofs/. From any controller, whatever the bytes of the input are: Told, Tables: a file is the
// output header and what is told of each row of the input. EachRow, PerRow: the number of a row is its place, its code is one of document
// 01's, it bears the controller's own answer, and there is one for each row. Laws: each law of document 01, and request K7's, holds of each
// row. Later: what holds of a row and a later one. Between, WorstFile: demand 3 between the two. Traces, Accounts: the file is the
// controller's own answers to the samples that the input bears, up to its end or to the refusal that ends it. HandedOver: what is saved of
// a trace is the image of its last state, it is taken, and the lesson goes on from it. Left: the line that is named with it is that of the
// last row that was answered. Cut: the rows of a lesson that was handed over are those of the lesson that was not. Brushed, BrushedDumps: a
// lesson that is brushed, every bounce forgiven, gives the rows, the image and the dump of the clean one; BrushedWorked has such a pair.
