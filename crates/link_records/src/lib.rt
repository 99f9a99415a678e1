#![tactic(auto)]
// Files of byte records, for Rust and C: is a slice one, and how many records it has. Assumes nothing.
ghost use Rattle.std.specs.Prelude.{◌≡◌};
ghost use Rattle.record_spec.specs.Files.{file_ops};
ghost use Rattle.link_records.specs.Answers.{counted};

use kinds::numbers;

// 0 and the records, or FILE.
#[derive(Clone, Copy)]
pub struct Counted {
    pub number: u8,
    pub count: usize,
}

pub fn count(file: &[u8]) -> Counted
    ensures { (result.number, result.count) ≡ counted (file_ops file.now) }
{
    let w = record_files::scan(file);
    if w.whole {
        return Counted {
            number: 0,
            count: w.count,
        };
    }
    Counted {
        number: numbers::FILE,
        count: 0,
    }
}
