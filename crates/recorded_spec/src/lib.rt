#![tactic(auto)]
// Growing against a recorded list of groups: specs/ says what it answers, proofs/ that it is one growth by the whole length; this function only makes
// it a crate.
pub fn nothing() {}
