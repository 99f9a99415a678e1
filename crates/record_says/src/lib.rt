#![tactic(auto)]
// What an operation of a file of records answers, and a run over the whole file: specs/ says it, proofs/ has its laws; this function only makes it a crate.
pub fn nothing() {}
