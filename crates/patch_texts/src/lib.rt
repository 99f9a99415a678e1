#![tactic(auto)]
// Two patches in one input of the text program: specs/ say it, proofs/ show it; this function only makes it a crate. Assumes nothing.
pub fn nothing() {}
