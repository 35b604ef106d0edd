// Reading a trace file: document 02, K7.
#![tactic(auto)]

ghost use Rattle.std.specs.Prelude.{◌≡◌, ◌+◌, ◌*◌, ◌≤◌, ◌<◌, length};
ghost use Rattle.traces.specs.Traces.{number_at, trace_of, message_of, part_of};
ghost use Rattle.tracereader.specs.Steps.{entries_agree, judged, looked_up};

// Where the index of a file begins, and how many messages it has.
#[derive(Clone, Copy, PartialEq, Eq, Debug)]
pub struct Index {
    pub begin: usize,
    pub count: usize,
}

// The number that four bytes write, the least first.
#[tactic(auto, using(traces::proofs::Numbers::number_is))]
fn number_at(f: &[u8], at: usize) -> usize
    requires { at + 4 ≤ length f.now }
    ensures { (result ≡ number_at f.now at) × (result < 4294967296) }
{
    u32::from_le_bytes([f[at], f[at + 1], f[at + 2], f[at + 3]]) as usize
}

// Frames end to end up to where the index begins, each where its entry says, and no entry more.
fn entries_agree(f: &[u8], index: Index) -> bool
    requires { (index.begin + 4 * index.count + 12 ≡ length f.now) × (length f.now ≤ 65536) }
    ensures { result ≡ entries_agree f.now index.begin index.count }
{
    let mut i = 0;
    for k in 0..index.count {
        if number_at(f, index.begin + 4 * k) != i {
            return false;
        }
        let Ok(frame) = framing::frame(&f[i..index.begin]) else {
            return false;
        };
        i += frame.length;
    }
    i == index.begin
}

// Any bytes at all may be lent.
#[tactic(auto, using(crate::proofs::Judging::judged_so), unfolding(traces::specs::Traces::trace_of))]
pub fn judge(f: &[u8]) -> Result<Index, traces::Refusal>
    ensures { result ≡ judged f.now (trace_of f.now) }
{
    let n = f.len();
    if n < 12 || traces::LONGEST < n || !f.ends_with(b"MTRC") {
        return Err(traces::Refusal::NoTrace);
    }
    let index = Index {
        begin: number_at(f, n - 12),
        count: number_at(f, n - 8),
    };
    if index.begin + 4 * index.count + 12 != n {
        return Err(traces::Refusal::NoTrace);
    }
    if !entries_agree(f, index) {
        return Err(traces::Refusal::Misframed);
    }
    Ok(index)
}

// Message n, from 1. The whole file is judged first; who wants many messages of one file judges it once and looks.
pub fn message_at(f: &[u8], n: usize) -> Result<message::Span, traces::Refusal>
    ensures { result ≡ message_of f.now n }
{
    look(f, judge(f)?, n)
}

// Message n as a part of the lent file; nothing where it is refused.
pub fn part_at(f: &[u8], n: usize) -> &[u8]
    ensures { result.now ≡ part_of (message_of f.now n) f.now }
{
    match message_at(f, n) {
        Ok(place) => message::part(f, place),
        Err(_) => &[],
    }
}

// Message n of a file that `judge` found good, by its index alone: eight bytes are looked at. Of any other file, or
// with another index, what the definition says, and never outside the file.
#[tactic(auto, unfolding(crate::specs::Steps::looked_up))]
pub fn look(f: &[u8], index: Index, n: usize) -> Result<message::Span, traces::Refusal>
    ensures { result ≡ looked_up f.now index.begin index.count n }
{
    if n < 1 || index.count < n {
        return Err(traces::Refusal::NoSuchMessage);
    }
    let entries = f.len().saturating_sub(4).saturating_sub(index.begin) / 4;
    if entries < n {
        return Err(traces::Refusal::NoTrace);
    }
    let start = number_at(f, index.begin + 4 * (n - 1));
    let end = number_at(f, index.begin + 4 * n);
    if end < start || f.len() < end {
        return Err(traces::Refusal::Misframed);
    }
    Ok(message::Span {
        start,
        len: end - start,
    })
}
