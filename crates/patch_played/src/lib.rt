#![tactic(auto)]
// Two patches on one bench that grow against recordings too, over any run of calls on stored words: specs/ say it, proofs/ show it; this function only makes
// it a crate. Assumes nothing.
pub fn nothing() {}
