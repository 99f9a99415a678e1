#![tactic(auto)]
// Two patches on one bench that grow against recordings too: specs/ say it, proofs/ show it; this function only makes it a crate. Assumes nothing.
pub fn nothing() {}
