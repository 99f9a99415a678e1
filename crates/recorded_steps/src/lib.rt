#![tactic(auto)]
// The pass over a recording that tests every step before anything grows, and the pass that writes the steps' lengths. A step reads three words of its
// group. Assumes nothing.
ghost use Rattle.std.specs.Prelude.{◌≡◌, map, ◌≤◌, ◌<◌, length, pos, nat_abs};
ghost use Rattle.std.proofs.lemmas.List.Edits.{sets};
ghost use Rattle.recorded_spec.specs.Sums.{sums};
ghost use Rattle.recorded_groups.specs.Recording.{recording_of};
ghost use Rattle.recorded_steps.specs.Passes.{limit_no, PassedAs, StepAs, steps_of, Ready};

use group_lent::GROUP;
use kinds::numbers;

// A number, and how many groups were taken.
#[derive(Clone, Copy)]
pub struct Passed {
    pub number: u8,
    pub taken: usize,
}

// A number; accepted, how far a step goes and where the next group starts.
#[derive(Clone, Copy)]
pub struct Step {
    pub number: u8,
    pub by: u64,
    pub end: usize,
}

fn stopped(number: u8) -> Step
    ensures { result.number ≡ number }
{
    Step {
        number,
        by: 0,
        end: 0,
    }
}

// The group that starts at a place: none there is SHORT.
pub fn step_at(ws: &[u64], at: usize, left: u64) -> Step
    requires { (at ≤ length ws.now) × (0 < left) }
    ensures { StepAs ws.now at left result }
{
    let rest = ws.len() - at;
    if rest == 0 {
        return stopped(numbers::SHORT);
    }
    if rest < GROUP {
        return stopped(numbers::BROKEN);
    }
    let end = at + GROUP;
    let w = &ws[at..end];
    let number = recorded_groups::group_number(w);
    if number != 0 {
        return stopped(number);
    }
    let by = recorded_groups::step_by(w, left);
    Step { number, by, end }
}

fn refused(number: u8) -> Passed
    ensures { (result.number ≡ number) × (result.taken ≡ 0) }
{
    Passed { number, taken: 0 }
}

// What a growth by so much in all is refused for: `reach` is the most that the progress leaves, `floor` the most that the values leave.
fn limit_number(done: u64, reach: u64, floor: u64) -> u8
    ensures { result ≡ limit_no reach floor (pos done) }
{
    if reach < done {
        return numbers::LENGTH;
    }
    if floor < done {
        return numbers::BELOW;
    }
    0
}

// Tests every step of a growth by `length`; nothing is changed.
pub fn pass(ws: &[u64], length: u64, reach: u64, floor: u64) -> Passed
    ensures { PassedAs (sums (limit_no reach floor) (pos 0) (pos length) (recording_of ws.now)) result }
{
    let mut at: usize = 0;
    let mut taken: usize = 0;
    let mut done: u64 = 0;
    // A turn goes on by the step that it read, so the number of turns is not known beforehand.
    while done < length {
        let s = step_at(ws, at, length - done);
        let number = s.number;
        if number != 0 {
            return refused(number);
        }
        done += s.by;
        let past = limit_number(done, reach, floor);
        if past != 0 {
            return refused(past);
        }
        at = s.end;
        taken += 1;
    }
    Passed { number: 0, taken }
}

// Writes the lengths of the steps of a growth by `length` that has passed.
pub fn put_lengths(ws: &[u64], length: u64, out: &mut [u64])
    requires { Ready ws.now length out.old }
    ensures { out.new ≡ sets out.old 0 (map nat_abs (steps_of ws.now length).lengths) }
{
    let mut at: usize = 0;
    let mut i: usize = 0;
    let mut done: u64 = 0;
    // As in `pass`.
    while done < length {
        let s = step_at(ws, at, length - done);
        out[i] = s.by;
        done += s.by;
        at = s.end;
        i += 1;
    }
}
