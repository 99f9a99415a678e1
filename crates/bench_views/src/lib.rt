#![tactic(auto)]
// The plain ledger's bench, read off the words: specs/ has the view and what makes words canonical, proofs/ the laws. This function only
// makes it a crate.
pub fn nothing() {}
