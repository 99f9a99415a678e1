#![tactic(auto)]
// A run of one array laid into another, for entries and for stops: elements `from` to `n` of the one, from place `at` of the other on.
// Assumes nothing.
ghost use Rattle.std.specs.Prelude.{◌≡◌, ◌+◌, ◌-◌, ◌≤◌};
ghost use Rattle.group_runs.specs.Runs.{laid_at};

use groups::Group;
use kinds::{Entry, Stop};

pub fn entries_laid(
    list: [Entry; Group::MOST],
    at: usize,
    more: [Entry; Group::MOST],
    from: usize,
    n: usize,
) -> [Entry; Group::MOST]
    requires { (from ≤ n) × ((n ≤ 128) × (at + (n - from) ≤ 128)) }
    ensures { result ≡ laid_at at list from n more }
{
    let mut r = list;
    r[at..at + (n - from)].copy_from_slice(&more[from..n]);
    r
}

pub fn stops_laid(
    stops: [Stop; Group::MOST],
    at: usize,
    more: [Stop; Group::MOST],
    from: usize,
    n: usize,
) -> [Stop; Group::MOST]
    requires { (from ≤ n) × ((n ≤ 128) × (at + (n - from) ≤ 128)) }
    ensures { result ≡ laid_at at stops from n more }
{
    let mut r = stops;
    r[at..at + (n - from)].copy_from_slice(&more[from..n]);
    r
}
