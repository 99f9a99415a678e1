#![tactic(auto)]
// The plain ledger's definitions run on recorded answers of the Rust: specs/ has the language of the recordings, proofs/ the rows. This function
// only makes it a crate.
pub fn nothing() {}
