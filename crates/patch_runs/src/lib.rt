#![tactic(auto)]
// Two patches on one bench, of the public calls over stored words: specs/ say it, proofs/ show it; this function only makes it a crate. Assumes nothing.
pub fn nothing() {}
