// Recording and finishing a trace: document 02, K7.
#![tactic(auto)]

ghost use Rattle.std.specs.Prelude.{◌≡◌, true, ◌+◌, ◌*◌, ◌≤◌, length, take};
ghost use Rattle.writers.specs.Buffer.{Wrote};
ghost use Rattle.framing.specs.Framing.{framing};
ghost use Rattle.traces.specs.Traces.{four, index, trailer, frames_in, messages_in, fits as fits_in, so_many, is_one};
ghost use Rattle.traces.specs.Traces.{can_be_left, recorded, with_message, finished, with_ending};

// The finished file fits the output and 65,536. Any numbers may be given.
fn fits(room: usize, used: usize, count: usize) -> bool
    ensures { result ≡ fits_in room used count }
{
    let n = count
        .saturating_mul(4)
        .saturating_add(used)
        .saturating_add(12);
    n <= room.min(traces::LONGEST)
}

// Exactly one frame.
fn is_one(m: &[u8]) -> bool
    ensures { result ≡ is_one (length m.now) (framing m.now) }
{
    framing::frame(m).is_ok_and(|frame| frame.length == m.len())
}

// So many frames end to end.
fn so_many(s: &[u8], count: usize) -> bool
    ensures { result ≡ so_many count (frames_in s.now) }
{
    let mut rest = s;
    for _ in 0..count {
        let Ok(frame) = framing::frame(rest) else {
            return false;
        };
        rest = &rest[frame.length..];
    }
    rest.is_empty()
}

// The first `used` bytes of the output, said to be `count` messages, are what recording can have left there. Each call
// walks them from the start, as nothing else tells: the opening of every message is read once, its other bytes are not.
#[tactic(auto, unfolding(traces::specs::Traces::can_be_left))]
fn can_be_left(out: &[u8], used: usize, count: usize) -> bool
    ensures { result ≡ can_be_left out.now used count }
{
    if used == 0 { // no frame is empty
        return count == 0;
    }
    fits(out.len(), used, count) && so_many(&out[..used], count)
}

// Records one message behind the first `used` bytes of `out`, which are `count` messages. Any numbers may be given.
#[tactic(auto, using(crate::proofs::Counting::sizes), unfolding(traces::specs::Traces::recorded))]
pub fn record_message(
    out: &mut [u8],
    used: usize,
    count: usize,
    m: &[u8],
) -> Result<traces::Recorded, traces::Refusal>
    ensures value { result ≡ recorded out.old used count m.now }
    ensures out_after { out.new ≡ with_message out.old used m.now
        (recorded out.old used count m.now) }
{
    if !can_be_left(out, used, count) {
        return Err(traces::Refusal::NoTrace);
    }
    if !is_one(m) {
        return Err(traces::Refusal::Misframed);
    }
    if !fits(out.len(), used + m.len(), count + 1) {
        return Err(traces::Refusal::NoRoom);
    }
    let used = writers::put_bytes(out, used, m);
    Ok(traces::Recorded {
        used,
        count: count + 1,
    })
}

// Writes n as four bytes at `at`, the least first; returns the place behind them.
#[tactic(auto, unfolding(traces::specs::Traces::four))]
fn put_four(out: &mut [u8], at: usize, n: usize) -> usize
    requires { at + 4 ≤ length out.old }
    ensures { Wrote out.old at (four n) out.new result }
{
    writers::put_bytes(out, at, &(n as u64).to_le_bytes()[..4])
}

// Writes an entry for each of the `count` messages in the first `used` bytes, behind them; returns the place behind.
// A `while`, for it goes on by what was read and not by one; no opening is sought past the last message.
fn put_index(out: &mut [u8], used: usize, count: usize) -> usize
    requires out_value { so_many count (frames_in (take used out.old)) ≡ true }
    requires count_in_bounds { used + 4 * count + 12 ≤ length out.old }
    ensures { Wrote out.old used (index 0 (messages_in (frames_in (take used out.old))))
        out.new result }
{
    let mut i = 0;
    let mut at = used;
    while i < used {
        let Ok(frame) = framing::frame(&out[i..used]) else {
            return at;
        };
        at = put_four(out, at, i);
        i += frame.length;
    }
    at
}

// Writes the trailer at `at`; returns the place behind it.
#[tactic(auto, using(traces::proofs::Numbers::four_length))]
fn put_trailer(out: &mut [u8], at: usize, begin: usize, count: usize) -> usize
    requires { at + 12 ≤ length out.old }
    ensures { Wrote out.old at (trailer begin count) out.new result }
{
    let p = put_four(out, at, begin);
    let q = put_four(out, p, count);
    writers::put_bytes(out, q, b"MTRC")
}

// Ends the file behind the first `used` bytes of `out`, which are `count` messages, and returns its length. Any numbers
// may be given.
#[tactic(auto, unfolding(traces::specs::Traces::finished))]
pub fn finish(out: &mut [u8], used: usize, count: usize) -> Result<usize, traces::Refusal>
    ensures value { result ≡ finished out.old used count }
    ensures out_after { out.new ≡ with_ending out.old used (finished out.old used count) }
{
    if !can_be_left(out, used, count) {
        return Err(traces::Refusal::NoTrace);
    }
    if !fits(out.len(), used, count) {
        return Err(traces::Refusal::NoRoom);
    }
    let p = put_index(out, used, count);
    Ok(put_trailer(out, p, used, count))
}
