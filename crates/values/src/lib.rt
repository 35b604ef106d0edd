// What the value of a field that acts in a request says: document 01, "Fields", and judgements 6 and 9, and
// document 02, K1 and K5.
#![tactic(auto)]

ghost use Rattle.std.specs.Prelude.{◌≡◌, true};
ghost use Rattle.std.proofs.Math.Option.{some};
ghost use Rattle.synth.specs.Levels.{level_in};
ghost use Rattle.synth.specs.Judgement.{is_speech_type, is_grammar_type, is_type_of};
ghost use Rattle.values.specs.Values.{given_of, kill_of, millionths_in, threshold_of, verdict_of, typed_content, content_by};
ghost use Rattle.values.specs.Steps.{meets, given_by};

// One of the names of a set came.
pub fn meets(mask: u16, set: u16) -> bool
    ensures { result ≡ meets mask set }
{
    mask & set != 0
}

// The place of a value, where the name with the bit `b` came.
pub fn given_at(mask: u16, b: u16, p: message::Span) -> Option<message::Span>
    ensures { result ≡ given_by mask b p }
{
    meets(mask, b).then_some(p)
}

// What the value of Kill-On-Barge-In says: whether barge-in kills the request; none where it is neither `true` nor
// `false`.
pub fn flag(v: &[u8]) -> Option<bool>
    ensures { result ≡ kill_of true (some v.now) }
{
    if octets::alike(v, b"true") {
        return Some(true);
    }
    if octets::alike(v, b"false") {
        return Some(false);
    }
    None
}

// Kill-On-Barge-In, or what it is set to where it is not given.
pub fn kill_of(f: &[u8], given: Option<message::Span>, otherwise: bool) -> Option<bool>
    ensures { result ≡ kill_of otherwise (given_of f.now given) }
{
    let Some(p) = given else {
        return Some(otherwise);
    };
    flag(message::part(f, p))
}

// The millionths of the level that `v` writes.
fn millionths(v: &[u8]) -> Option<u32>
    ensures { result ≡ millionths_in (level_in v.now) }
{
    Some(levels::level_in(v)?.millionths)
}

// Confidence-Threshold in millionths, or what it is set to where it is not given; none where it is no level.
pub fn threshold_of(f: &[u8], given: Option<message::Span>, otherwise: u32) -> Option<u32>
    ensures { result ≡ threshold_of otherwise (given_of f.now given) }
{
    let Some(p) = given else {
        return Some(otherwise);
    };
    millionths(message::part(f, p))
}

// One of the three types of a SPEAK, in any case and with nothing after.
fn is_speech_type(t: &[u8]) -> bool
    ensures { result ≡ is_speech_type t.now }
{
    octets::alike(t, b"text/plain")
        || octets::alike(t, b"application/ssml+xml")
        || octets::alike(t, b"text/uri-list")
}

// One of the two types of a RECOGNIZE.
// Two lists of types, each with its own definition.
fn is_grammar_type(t: &[u8]) -> bool
    ensures { result ≡ is_grammar_type t.now }
{
    octets::alike(t, b"application/srgs+xml") || octets::alike(t, b"text/uri-list")
}

fn is_type_of(m: synth::Method, t: &[u8]) -> bool
    ensures { result ≡ is_type_of m t.now }
{
    match m {
        synth::Method::Speak => is_speech_type(t),
        _ => is_grammar_type(t),
    }
}

// Judgement 9 of a SPEAK or RECOGNIZE with Content-Length, and with the type `t` for its `body` bytes.
fn typed_content(m: synth::Method, t: &[u8], body: usize) -> Result<(), answer::Status>
    ensures { verdict_of result ≡ typed_content m t.now body }
{
    if body == 0 {
        return Err(answer::Status::NO_CONTENT);
    }
    if !is_type_of(m, t) {
        return Err(answer::Status::UNSUPPORTED_VALUE);
    }
    Ok(())
}

// Judgement 9 of a SPEAK or RECOGNIZE, by the values of Content-Length and Content-Type.
pub fn content(
    m: synth::Method,
    f: &[u8],
    length: Option<message::Span>,
    media: Option<message::Span>,
    body: usize,
) -> Result<(), answer::Status>
    ensures { verdict_of result
        ≡ content_by m (given_of f.now length) (given_of f.now media) body }
{
    let (Some(_), Some(p)) = (length, media) else {
        return Err(answer::Status::FIELD_MISSING);
    };
    typed_content(m, message::part(f, p), body)
}
