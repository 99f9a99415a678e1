#![tactic(auto)]
// Both engines over stored words: specs/ say it, proofs/ show it; this function only makes it a crate. Assumes nothing.
pub fn nothing() {}
