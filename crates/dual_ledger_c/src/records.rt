// The exports of dual_ledger::records, files of byte records: each has the clauses of the function that it calls. Assumes nothing.
ghost use Rattle.std.specs.Prelude.{◌≡◌};
ghost use Rattle.record_spec.specs.Files.{file_ops};
ghost use Rattle.record_spec.specs.Moves.{to_records, to_text};
ghost use Rattle.record_gets.specs.Words.{get_into};
ghost use Rattle.link_records.specs.Answers.{counted, MovedBy};

#[unsafe(no_mangle)]
pub extern "C" fn dual_ledger_records_count(file: &[u8], count: &mut usize) -> u8
    ensures { (result, count.new) ≡ counted (file_ops file.now) }
{
    dual_ledger::records::dual_ledger_records_count(file, count)
}

#[unsafe(no_mangle)]
pub extern "C" fn dual_ledger_records_get(
    file: &[u8],
    at: usize,
    out: &mut [u64],
    wrote: &mut usize,
) -> u8
    ensures { MovedBy (get_into file.now at out.old) out.new result wrote.new }
{
    dual_ledger::records::dual_ledger_records_get(file, at, out, wrote)
}

#[unsafe(no_mangle)]
pub extern "C" fn dual_ledger_to_records(text: &[u8], out: &mut [u8], wrote: &mut usize) -> u8
    ensures { MovedBy (to_records text.now out.old) out.new result wrote.new }
{
    dual_ledger::records::dual_ledger_to_records(text, out, wrote)
}

#[unsafe(no_mangle)]
pub extern "C" fn dual_ledger_to_text(file: &[u8], out: &mut [u8], wrote: &mut usize) -> u8
    ensures { MovedBy (to_text file.now out.old) out.new result wrote.new }
{
    dual_ledger::records::dual_ledger_to_text(file, out, wrote)
}
