#![tactic(auto)]
// The theorems over the contracts of the public calls: proofs/ hold them; this function only makes it a crate. Assumes nothing.
pub fn nothing() {}
