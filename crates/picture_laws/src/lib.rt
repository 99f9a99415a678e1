#![tactic(auto)]
// What a picture determines: its proofs/ hold the theorem; this function only makes it a crate.
pub fn nothing() {}
