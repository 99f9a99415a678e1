#![tactic(auto)]
// The calls on a group in place and on a group by value are one: proofs/ hold a theorem for each; this function only makes it a crate.
pub fn nothing() {}
