#![tactic(auto)]
// Whether any words hold a sound group, in place: only the words that count are looked at. Assumes nothing.
ghost use Rattle.std.specs.Prelude.{◌≡◌, ◌+◌, ◌≤◌, ◌<◌, length};
ghost use Rattle.group_lent_sound.specs.Test.{entry_fits, stop_fits, entries_fit, stops_fit, head_fits, sound_in};

fn entry_fits(w: &[u64], i: usize) -> bool
    requires { (length w.now ≡ 1413) × (i < 128) }
    ensures { result ≡ entry_fits w.now i }
{
    let f = group_lent::five_of(w, 5 + i * 5);
    let ok = group_lent::is_form(f);
    ok & ((f.kind != 1) & (f.kind < 5))
}

fn stop_fits(w: &[u64], least: u64, i: usize) -> bool
    requires { (length w.now ≡ 1413) × (i < 128) }
    ensures { result ≡ stop_fits w.now least i }
{
    let v = w[645 + i * 6];
    let f = group_lent::five_of(w, 645 + i * 6 + 1);
    let ok = group_lent::is_form(f);
    ((v < 4294967296) & ok) & ((5 <= f.kind) & (least <= v))
}

fn entries_fit(w: &[u64], n: usize) -> bool
    requires { (length w.now ≡ 1413) × (n ≤ 128) }
    ensures { result ≡ entries_fit w.now 0 n }
{
    (0..n).all(|i: usize| entry_fits(w, i))
}

fn stops_fit(w: &[u64], m: usize) -> bool
    requires { (length w.now ≡ 1413) × (m ≤ 128) }
    ensures { result ≡ stops_fit w.now 0 0 m }
{
    let mut least: u64 = 0;
    for i in 0..m {
        if !stop_fits(w, least, i) {
            return false;
        }
        least = w[645 + i * 6] % 4294967296 + 1;
    }
    true
}

fn head_fits(w: &[u64]) -> bool
    requires { length w.now ≡ 1413 }
    ensures { result ≡ head_fits w.now }
{
    (w[0] == 2) & ((w[1] == 0) & ((w[2] == 0) & ((w[3] <= 128) & (w[4] <= 128))))
}

// Of a group's 1413 words, wherever they are lent from.
pub fn is_sound(w: &[u64]) -> bool
    requires { length w.now ≡ 1413 }
    ensures { result ≡ sound_in w.now }
{
    if w[0] == 1 {
        return w[2] <= 1;
    }
    if !head_fits(w) {
        return false;
    }
    if !entries_fit(w, w[3] as usize) {
        return false;
    }
    stops_fit(w, w[4] as usize)
}
