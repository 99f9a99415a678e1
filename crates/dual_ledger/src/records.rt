// Files of byte records: whether a slice is one, one record by its number, and the moves from text and back, into a lent slice. What does not fit is FILE (23),
// no such record RANGE (18), a pair that is not the member SELF (22), a slice too short SMALL (19); then the slice is as it was. Assumes nothing.
ghost use Rattle.std.specs.Prelude.{◌≡◌};
ghost use Rattle.record_spec.specs.Files.{file_ops};
ghost use Rattle.record_spec.specs.Moves.{to_records, to_text};
ghost use Rattle.record_gets.specs.Words.{get_into};
ghost use Rattle.link_records.specs.Answers.{counted, MovedBy};

pub fn dual_ledger_records_count(file: &[u8], count: &mut usize) -> u8
    ensures { (result, count.new) ≡ counted (file_ops file.now) }
{
    let a = link_records::count(file);
    *count = a.count;
    a.number
}

pub fn dual_ledger_records_get(file: &[u8], at: usize, out: &mut [u64], wrote: &mut usize) -> u8
    ensures { MovedBy (get_into file.now at out.old) out.new result wrote.new }
{
    let a = record_gets::get(file, at, out);
    *wrote = a.size;
    a.number
}

pub fn dual_ledger_to_records(text: &[u8], out: &mut [u8], wrote: &mut usize) -> u8
    ensures { MovedBy (to_records text.now out.old) out.new result wrote.new }
{
    let a = record_packs::to_records(text, out);
    *wrote = a.size;
    a.number
}

pub fn dual_ledger_to_text(file: &[u8], out: &mut [u8], wrote: &mut usize) -> u8
    ensures { MovedBy (to_text file.now out.old) out.new result wrote.new }
{
    let a = record_unpacks::to_text(file, out);
    *wrote = a.size;
    a.number
}
