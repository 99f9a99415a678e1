#![tactic(auto)]
// The picture for the viewer: its specs/ hold what it shows and its text; this function only makes it a crate.
pub fn nothing() {}
