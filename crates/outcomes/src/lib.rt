#![tactic(auto)]
// What a call that changes a bench answers, and what that answer has to be: the plain ledger's own. Assumes nothing.
ghost use Rattle.std.specs.Prelude.{◌≡◌};
ghost use Rattle.outcomes.specs.Refused.{refused_by};

use kinds::Handle;

// A number, and the node made or named (all fields 0 where there is none).
#[derive(Clone, Copy)]
pub struct Made {
    pub number: u8,
    pub node: Handle,
}

impl Made {
    // No node: a refusal's number, or 0 of a call that names none.
    pub fn refused(number: u8) -> Made
        ensures { result ≡ refused_by number }
    {
        let node = Handle::nobody();
        Made { number, node }
    }
}
