#![tactic(auto)]
// Where a record starts, by the list of a file that is known to be whole: in constant time. Assumes nothing.
ghost use Rattle.record_places.specs.Places.{Listed, Placed};

// The start of record k, with the list at a place.
pub fn place_in(file: &[u8], list: usize, k: usize) -> usize
    requires { Listed file.now list k }
    ensures { Placed file.now k result }
{
    record_numbers::four_at(file, list + 4 * k) as usize
}
