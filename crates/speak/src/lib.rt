// What a SPEAK or a RECOGNIZE does that passed judgement 5: document 01, judgements 6, 9 and 10 and "States and queue",
// and document 02, K1 and K5.
#![tactic(auto)]

ghost use Rattle.std.specs.Prelude.{◌≡◌, true, false, List, ℕ, ◌≤◌};
ghost use Rattle.synth.specs.Settings.{is_edition_of};
ghost use Rattle.synth.specs.Request.{Request, opens, ignores_any};
ghost use Rattle.synth.specs.Judgement.{◌then◌, content as content_of, capacity};
ghost use Rattle.synth.specs.Channel.{View};
ghost use Rattle.synth.specs.declared.Edition.{Edition};
ghost use Rattle.synth.specs.States.{entry_of, enter as entered, act as acted};
ghost use Rattle.synth.specs.declared.Method.TheVariants.{Speak, Recognize};
ghost use Rattle.request.specs.Telling.{Tells};
ghost use Rattle.outcomes.specs.Outcomes.{asked, ComesOn, ActsOn};
ghost use Rattle.values.specs.Values.{verdict_of};
ghost use Rattle.message.specs.Message.{Fields};

// The state that a SPEAK or a RECOGNIZE which becomes active enters.
// Of SPEAK and RECOGNIZE alone (`opens`), here and below: those who call say so.
fn active_state(m: synth::Method) -> synth::State
    ensures { opens m ≡ true → (v : View) (r : Request) → acted m v r ≡ entered result v r }
{
    match m {
        synth::Method::Recognize => synth::State::Recognizing,
        _ => synth::State::Speaking,
    }
}

// Judgement 10; then it becomes active, or joins the end.
fn join(
    kind: answer::Kind,
    m: synth::Method,
    state: synth::State,
    q: queue::Queue,
    e: synth::Entry,
    ignored: bool,
) -> outcomes::Outcome
    ensures { opens m ≡ true → e.threshold ≤ 1000000 → (now : Edition) → ComesOn kind now capacity state q m e.id
        (λ r. (ignored ≡ ignores_any r) × (e ≡ entry_of now r)) result }
{
    if queue::is_full(kind, q) {
        return outcomes::failed(state, q, e.id, answer::Status::OPERATION_FAILED);
    }
    let success = answer::Status::success(ignored);
    let (answer, state) = if queue::is_busy(state) {
        (success.pending(e.id), state)
    } else {
        (success.in_progress(e.id), active_state(m))
    };
    outcomes::Outcome {
        answer,
        listed: queue::list_none(),
        state,
        queue: queue::join(q, e),
    }
}

// Judgement 9, of the fields in the frame `f` that are those of the header `h`.
fn content(m: synth::Method, f: &[u8], h: header::Header) -> Result<(), answer::Status>
    ensures { opens m ≡ true → (major minor id : ℕ) (fs : Fields (List ℕ)) → Tells false f.now h fs
        → verdict_of result ≡ content_of (asked major minor m id fs) }
{
    let length = request::value(h, message::Known::ContentLength);
    let media = request::value(h, message::Known::ContentType);
    values::content(m, f, length, media, h.body.len)
}

// What comes after judgement 6: 9, and what comes after that. Always inlined: called, it takes 800 bytes of stack more.
#[inline(always)]
fn enter(
    kind: answer::Kind,
    m: synth::Method,
    state: synth::State,
    q: queue::Queue,
    e: synth::Entry,
    f: &[u8],
    h: header::Header,
    ignored: bool,
) -> outcomes::Outcome
    ensures { opens m ≡ true → e.threshold ≤ 1000000 → (now : Edition)
        → ComesOn kind now (λ v r. content_of r then capacity v r) state q m e.id
        (λ r. Tells false f.now h r.fields × (ignored ≡ ignores_any r) × (e ≡ entry_of now r)) result }
{
    if let Err(status) = content(m, f, h) {
        return outcomes::failed(state, q, e.id, status);
    }
    join(kind, m, state, q, e, ignored)
}

// The SPEAK `id`, whose fields in the frame `f` are those of the header `h`: judgement 6, and what comes after it. What
// it does not say itself it takes from the settings `set`.
pub fn speak(
    kind: answer::Kind,
    state: synth::State,
    q: queue::Queue,
    set: synth::Edition,
    f: &[u8],
    h: header::Header,
    id: u32,
) -> outcomes::Outcome
    ensures { is_edition_of kind set ≡ true
        → ActsOn kind set state q Speak id (λ r. Tells false f.now h r.fields) result }
{
    let given = request::value(h, message::Known::KillOnBargeIn);
    let Some(kill) = values::kill_of(f, given, settings::kill_set(set.kill)) else {
        return outcomes::failed(state, q, id, answer::Status::ILLEGAL_VALUE);
    };
    let threshold = settings::level_set(set.confidence);
    let e = synth::Entry {
        id,
        kill,
        threshold,
    };
    let ignored = values::meets(h.mask, names::IGNORED_IN_SPEAK);
    enter(kind, synth::Method::Speak, state, q, e, f, h, ignored)
}

// The RECOGNIZE `id`, alike. Barge-in is a synthesizer's, so nothing spares it.
// Two functions: each reads another field, and takes the other value from the settings.
pub fn recognize(
    kind: answer::Kind,
    state: synth::State,
    q: queue::Queue,
    set: synth::Edition,
    f: &[u8],
    h: header::Header,
    id: u32,
) -> outcomes::Outcome
    ensures { is_edition_of kind set ≡ true
        → ActsOn kind set state q Recognize id (λ r. Tells false f.now h r.fields) result }
{
    let given = request::value(h, message::Known::ConfidenceThreshold);
    let Some(threshold) = values::threshold_of(f, given, settings::level_set(set.confidence)) else {
        return outcomes::failed(state, q, id, answer::Status::ILLEGAL_VALUE);
    };
    let kill = settings::kill_set(set.kill);
    let e = synth::Entry {
        id,
        kill,
        threshold,
    };
    let ignored = values::meets(h.mask, names::IGNORED_IN_RECOGNIZE);
    enter(kind, synth::Method::Recognize, state, q, e, f, h, ignored)
}
