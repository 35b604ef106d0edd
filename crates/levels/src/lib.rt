// Levels between 0 and 1 as a field's value has them, and the single-precision number of one that is kept by its
// millionths: document 02, K1 and K5.
#![tactic(auto)]

ghost use Rattle.std.specs.Prelude.{◌≡◌, ◌+◌, ◌-◌, ◌*◌, ◌^◌, ◌≤◌, ◌<◌};
ghost use Rattle.synth.specs.Levels.{single};
ghost use Rattle.levels.specs.Reading.{kept, level_found};
ghost use Rattle.levels.specs.Steps.{is_first, level_by};

// The millionths of one, above which is no level.
pub const ONE: u32 = 1000000;

// The powers of ten that divide the digits of a level: a table, where `10u32.pow` is a loop.
fn power(places: usize) -> u32
    requires { places ≤ 6 }
    ensures { (result ≡ 10 ^ places) × (1 ≤ result) × (result ≤ 1000000) }
{
    match places {
        0 => 1,
        1 => 10,
        2 => 100,
        3 => 1000,
        4 => 10000,
        5 => 100000,
        _ => 1000000,
    }
}

// The level of the digits `n`, of which so many stand behind the point, where it is at most one.
fn at_most_one(n: u32, places: usize) -> Option<synth::Level>
    requires { places ≤ 6 }
    ensures { result ≡ kept (level_by n places) }
{
    let d = power(places);
    if d < n {
        return None;
    }
    Some(synth::Level {
        millionths: n * power(6 - places),
        single: (n as f32) / (d as f32),
    })
}

// The digits of a level as a whole number: `first` is `0` or `1`, and `value` is what those behind the point write.
fn digits_of(first: u8, value: u64, places: usize) -> u32
    requires { (48 ≤ first) × (first ≤ 49) × (places ≤ 6) × (value < 10 ^ places) }
    ensures { result ≡ (first - 48) * 10 ^ places + value }
{
    (first - 48) as u32 * power(places) + value as u32
}

fn is_first(b: u8) -> bool
    ensures { result ≡ is_first b }
{
    matches!(b, b'0' | b'1')
}

// The level that `v` writes. At most eight bytes are looked at.
// Not by `first`: a reference in an Option is laid out for 64 bits (docs/DECISIONS.md, "Other processors").
pub fn level_in(v: &[u8]) -> Option<synth::Level>
    ensures { result ≡ level_found v.now }
{
    if v.len() == 0 {
        return None;
    }
    let first = v[0];
    if !is_first(first) {
        return None;
    }
    if v.len() == 1 {
        return at_most_one(digits_of(first, 0, 0), 0);
    }
    if v[1] != b'.' {
        return None;
    }
    let d = digits::digits_at(v, 2, 6);
    if d.count == 0 || v.len() - 2 != d.count {
        return None;
    }
    at_most_one(digits_of(first, d.value, d.count), d.count)
}

// The single-precision number of a level that is kept by its millionths: one division, rounded once.
pub fn single(millionths: u32) -> f32
    ensures { millionths ≤ 1000000 → result ≡ single millionths }
{
    if ONE < millionths {
        return 1.0;
    }
    (millionths as f32) / (ONE as f32)
}
