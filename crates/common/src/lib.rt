#![tactic(auto)]

// What the statements of every crate share, and no code: words as bytes, numbers in decimal, a worked case, an answer that may be
// a refusal, and what it means that a contract leaves one answer. It is in specs/; proofs/ has the laws that several crates cite.
