#![tactic(auto)]
// The pop that spares the stops, of a group by value: the last of the list goes, and a stop only where the list is empty. Total as the other pop: BROKEN (2)
// of an unsound group, KIND (10) of a growth, and a refusal hands back the very group. Assumes nothing.
ghost use Rattle.std.specs.Prelude.{◌≡◌};
ghost use Rattle.ledger_sparing.specs.Sparing.{pop_sparing};
ghost use Rattle.groups.specs.View.{group_of};
ghost use Rattle.group_takes.specs.Takes.{shown_popped, after};

use group_takes::Popped;
use groups::Group;

// Without a list it is the other pop; with one, peek says what is on top, and only the list's count changes.
pub fn pop_sparing_stops(g: Group) -> Popped
    ensures says { shown_popped result ≡ pop_sparing (group_of g) }
    ensures leaves { result.group ≡ after (pop_sparing (group_of g)).0 (pop_sparing (group_of g)).1.1 g }
{
    if g.listed == 0 {
        return group_takes::pop(g);
    }
    let top = group_takes::peek(g);
    let number = top.number;
    let obstacle = top.obstacle;
    if number != 0 {
        return Popped {
            number,
            obstacle,
            group: g,
        };
    }
    let mut rest = g;
    rest.listed = g.listed - 1;
    Popped {
        number: 0,
        obstacle,
        group: rest,
    }
}
