// How many bytes a number's decimal has. Assumes nothing.
ghost use Rattle.std.specs.Prelude.{◌≡◌, ◌≤◌, ◌∷◌, length};
ghost use Rattle.ledger_spec.specs.Decimals.{decimal, signed};
ghost use Rattle.record_spec.specs.Numbers.{length_in};

pub fn digits(n: u64) -> usize
    ensures { (result ≡ length (decimal n)) × (result ≤ 20) }
{
    let mut k: usize = 1;
    let mut m = n;
    // How many turns there are is what is asked.
    while 9 < m {
        m /= 10;
        k += 1;
    }
    k
}

// The size of a length below 0, of which 8 bytes hold the complement.
pub fn size_below(n: u64) -> u64
    requires { 9223372036854775808 ≤ n }
    ensures { signed (length_in n) ≡ 45 ∷ decimal result }
{
    18446744073709551615 - n + 1
}

// Of a length, of which n is the number in 8 bytes.
pub fn length_digits(n: u64) -> usize
    ensures { (result ≡ length (signed (length_in n))) × (result ≤ 21) }
{
    if n < 9223372036854775808 {
        return digits(n);
    }
    let m = size_below(n);
    1 + digits(m)
}
