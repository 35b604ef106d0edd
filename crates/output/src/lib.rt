// Responses and events written into a lent output: document 01, "Bytes written" and refusal 7.
#![tactic(auto)]

ghost use Rattle.std.specs.Prelude.{◌≡◌, ◌+◌, ◌≤◌, map, length};
ghost use Rattle.writers.specs.Buffer.{Wrote};
ghost use Rattle.answer.specs.Written.{written, written_all};
ghost use Rattle.answer.specs.Answers.{response_of, complete as ending, completes};
ghost use Rattle.answer.specs.declared.Kind.{Kind};
ghost use Rattle.sizes.specs.Steps.{telling_of};
ghost use Rattle.output.specs.Delivery.{counted, delivered};

// A write is refused where its bytes are more than the lent output holds.
#[derive(Clone, Copy, PartialEq, Eq, Debug)]
pub struct TooLong;

// Writes the response, whose size is `size`, at `at`; returns the place behind it.
fn put_response(
    out: &mut [u8],
    at: usize,
    size: usize,
    name: &[u8],
    a: answer::Answer,
    ids: &[u32],
) -> usize
    requires size_value { size ≡ length (written (response_of name.now a ids.now)) }
    requires size_in_bounds { at + size ≤ length out.old }
    ensures { Wrote out.old at (written (response_of name.now a ids.now))
        out.new result }
{
    let p = pieces::put_opening(out, at, size);
    let q = pieces::put_response_line(out, p, a);
    let r = pieces::put_channel_identifier(out, q, name);
    let listed = pieces::put_id_list(out, r, ids);
    writers::put_bytes(out, listed, b"\r\n")
}

// Writes the answer that tells fields, whose size is `size`, at `at`; returns the place behind it.
// One piece is another than in `put_response`; to hand that piece on as a function would be no plainer.
fn put_telling(
    out: &mut [u8],
    at: usize,
    size: usize,
    name: &[u8],
    a: answer::Answer,
    fields: &[u8],
) -> usize
    requires size_value { size ≡ length (telling_of name.now a fields.now) }
    requires size_in_bounds { at + size ≤ length out.old }
    ensures { Wrote out.old at (telling_of name.now a fields.now)
        out.new result }
{
    let p = pieces::put_opening(out, at, size);
    let q = pieces::put_response_line(out, p, a);
    let r = pieces::put_channel_identifier(out, q, name);
    let told = writers::put_bytes(out, r, fields);
    writers::put_bytes(out, told, b"\r\n")
}

// Writes the event that ends request `id`, whose size is `size`, at `at`; returns the place behind it.
fn put_complete(
    out: &mut [u8],
    at: usize,
    size: usize,
    kind: answer::Kind,
    name: &[u8],
    id: u32,
    cause: u32,
) -> usize
    requires size_value { size ≡ length (written (ending kind name.now id cause)) }
    requires size_in_bounds { at + size ≤ length out.old }
    ensures { Wrote out.old at (written (ending kind name.now id cause))
        out.new result }
{
    let p = pieces::put_opening(out, at, size);
    let q = pieces::put_event_line(out, p, kind, id);
    let r = pieces::put_channel_identifier(out, q, name);
    let caused = pieces::put_cause(out, r, kind, cause);
    writers::put_bytes(out, caused, b"\r\n")
}

// Writes those that end the requests with 011, one behind the other, at `at`; returns the place behind them.
fn put_cancelled(out: &mut [u8], at: usize, name: &[u8], ids: &[u32]) -> usize
    requires { at + length (written_all (map (λ i. ending Kind.Recognizer name.now i 11) ids.now))
        ≤ length out.old }
    ensures { Wrote out.old at
        (written_all (map (λ i. ending Kind.Recognizer name.now i 11) ids.now))
        out.new result }
{
    let kind = answer::Kind::Recognizer;
    let mut p = at;
    for id in ids {
        let size = sizes::complete_size(kind, name, *id, answer::CANCELLED, &out[..]);
        p = put_complete(out, p, size, kind, name, *id, answer::CANCELLED);
    }
    p
}

// Writes the response at the front of `out`, or nothing where it is longer than `out`.
pub fn respond(
    out: &mut [u8],
    name: &[u8],
    a: answer::Answer,
    ids: &[u32],
) -> Result<usize, TooLong>
    ensures value { result ≡ counted (written (response_of name.now a ids.now)) out.old }
    ensures out_after { out.new
        ≡ delivered (written (response_of name.now a ids.now)) out.old }
{
    let size = sizes::response_size(name, a, ids, &out[..]);
    if out.len() < size {
        return Err(TooLong);
    }
    let end = put_response(out, 0, size, name, a, ids);
    Ok(end)
}

// Writes the answer that tells fields at the front of `out`, or nothing where it is longer than `out`.
pub fn tell(out: &mut [u8], name: &[u8], a: answer::Answer, fields: &[u8]) -> Result<usize, TooLong>
    ensures value { result ≡ counted (telling_of name.now a fields.now) out.old }
    ensures out_after { out.new
        ≡ delivered (telling_of name.now a fields.now) out.old }
{
    let size = sizes::telling_size(name, a, fields, &out[..]);
    if out.len() < size {
        return Err(TooLong);
    }
    let end = put_telling(out, 0, size, name, a, fields);
    Ok(end)
}

// Writes the event that ends request `id` on a channel of that kind, or nothing where it is longer than `out`.
pub fn complete(
    out: &mut [u8],
    kind: answer::Kind,
    name: &[u8],
    id: u32,
    cause: u32,
) -> Result<usize, TooLong>
    ensures value { result ≡ counted (written (ending kind name.now id cause))
        out.old }
    ensures out_after { out.new
        ≡ delivered (written (ending kind name.now id cause)) out.old }
{
    let size = sizes::complete_size(kind, name, id, cause, &out[..]);
    if out.len() < size {
        return Err(TooLong);
    }
    Ok(put_complete(out, 0, size, kind, name, id, cause))
}

// Writes the RECOGNITION-COMPLETEs that end the requests, the first with `cause` and the others with 011, or nothing
// where they are together longer than `out`.
pub fn complete_all(out: &mut [u8], name: &[u8], ids: &[u32], cause: u32) -> Result<usize, TooLong>
    ensures value { result ≡ counted (written_all (completes Kind.Recognizer name.now ids.now cause))
        out.old }
    ensures out_after { out.new
        ≡ delivered (written_all (completes Kind.Recognizer name.now ids.now cause))
        out.old }
{
    let all = sizes::complete_all_size(name, ids, cause, &out[..]);
    if out.len() < all {
        return Err(TooLong);
    }
    let Some((first, others)) = ids.split_first() else {
        return Ok(0);
    };
    let kind = answer::Kind::Recognizer;
    let size = sizes::complete_size(kind, name, *first, cause, &out[..]);
    let p = put_complete(out, 0, size, kind, name, *first, cause);
    Ok(put_cancelled(out, p, name, others))
}
