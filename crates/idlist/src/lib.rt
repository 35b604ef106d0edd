// A list of request-ids as a field's value has it: document 01, judgement 6 and STOP.
#![tactic(auto)]

ghost use Rattle.std.specs.Prelude.{◌≡◌, [], ◌∷◌, take};
ghost use Rattle.idlist.specs.Named.{named_in, bits_from};

// Where `id` stands among the first 64 of `ids`, a bit for each place. From the last place on: so no bit is shifted to
// its place by itself.
fn places(ids: &[u32], id: u32) -> u64
    ensures { result ≡ bits_from 0 (id ∷ []) (take 64 ids.now) }
{
    let mut bits = 0;
    // by places: `iter().rev()` was tried, and a proof does not see into it
    for j in (0..ids.len().min(64)).rev() {
        bits = bits * 2 + u64::from(ids[j] == id);
    }
    bits
}

// Which of `ids` the value `v` names, in one pass over `v`: bit j for the id at j, or none where `v` is no list. Of more
// than 64 ids only the first 64 are looked for.
pub fn named(v: &[u8], ids: &[u32]) -> Option<u64>
    ensures { result ≡ named_in v.now ids.now }
{
    let mut bits = 0;
    let mut i = 0;
    // only the digits that are read say where the next id begins
    loop {
        let d = digits::digits_at(v, i, 10);
        if d.count == 0 {
            return None;
        }
        bits |= places(ids, u32::try_from(d.value).ok()?);
        i += d.count;
        if v.len() <= i {
            return Some(bits);
        }
        if v[i] != b',' {
            return None;
        }
        i += 1;
    }
}
