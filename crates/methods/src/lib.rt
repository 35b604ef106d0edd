// What a request does that passed judgement 5, method by method: document 01, judgements 6 to 11 and "States and
// queue", and document 02, K1 and K5. SET-PARAMS and GET-PARAMS are in `params`.
#![tactic(auto)]

ghost use Rattle.std.specs.Prelude.{◌≡◌, true, false, ◌≤◌, length};
ghost use Rattle.std.proofs.Math.Option.{some};
ghost use Rattle.message.specs.Folds.{joined};
ghost use Rattle.message.specs.declared.Known.TheVariants.{ActiveRequestIdList};
ghost use Rattle.synth.specs.Settings.{is_edition_of};
ghost use Rattle.synth.specs.Request.{is_params, acting, ignores_any};
ghost use Rattle.synth.specs.Judgement.{is_valid};
ghost use Rattle.synth.specs.declared.Method.{Method};
ghost use Rattle.queue.specs.Queue.{list_of};
ghost use Rattle.request.specs.Telling.{Tells};
ghost use Rattle.outcomes.specs.Outcomes.{Acts, ActsOn};
ghost use Rattle.methods.specs.Ending.{EndsBy};

// Those that the mask marks end and are listed; the next becomes active in the same state.
fn end(state: synth::State, q: queue::Queue, mask: u64, id: u32, ignored: bool) -> outcomes::Outcome
    ensures { length (list_of q) ≤ 16 → EndsBy mask state (list_of q) id ignored result }
{
    let ended = queue::end(q, mask);
    let rest = ended.queue;
    let next = queue::while_any(synth::State::Idle, state, rest);
    outcomes::succeeded(id, ignored, ended.listed, next, rest)
}

// STOP with the list `v`: judgement 6; those named end, other ids are passed over.
fn stop_named(
    state: synth::State,
    q: queue::Queue,
    v: &[u8],
    id: u32,
    ignored: bool,
) -> outcomes::Outcome
    ensures { length (list_of q) ≤ 16 → Acts state q Method.Stop id
        (λ r. (ignored ≡ ignores_any r) × (some (joined v.now) ≡ acting ActiveRequestIdList r)) result }
{
    let held = queue::list_held(q);
    let Some(mask) = idlist::named(v, &held.ids[..held.count]) else {
        return outcomes::failed(state, q, id, answer::Status::ILLEGAL_VALUE);
    };
    end(state, q, mask, id, ignored)
}

// STOP: without a list all outstanding end.
fn stop(
    state: synth::State,
    q: queue::Queue,
    f: &[u8],
    h: header::Header,
    id: u32,
) -> outcomes::Outcome
    ensures { length (list_of q) ≤ 16
        → Acts state q Method.Stop id (λ r. Tells false f.now h r.fields) result }
{
    let ignored = values::meets(h.mask, names::IGNORED_IN_STOP);
    let Some(p) = request::value(h, message::Known::ActiveRequestIdList) else {
        return end(state, q, queue::ALL, id, ignored);
    };
    stop_named(state, q, message::part(f, p), id, ignored)
}

// BARGE-IN-OCCURRED: where the active one is killable all outstanding end, whatever their own setting.
fn barge_in(state: synth::State, q: queue::Queue, id: u32, ignored: bool) -> outcomes::Outcome
    ensures { length (list_of q) ≤ 16
        → Acts state q Method.BargeInOccurred id (λ r. ignored ≡ ignores_any r) result }
{
    if queue::active(q).kill {
        return end(state, q, queue::ALL, id, ignored);
    }
    outcomes::succeeded(id, ignored, queue::list_none(), state, q)
}

// Judgement 8: PAUSE, RESUME, CONTROL and START-INPUT-TIMERS are valid only while something is outstanding.
fn is_valid(m: synth::Method, busy: bool) -> bool
    ensures { result ≡ is_valid m busy }
{
    busy || !matches!(
        m,
        synth::Method::Pause
            | synth::Method::Resume
            | synth::Method::Control
            | synth::Method::StartInputTimers
    )
}

// PAUSE, CONTROL and RESUME: judgement 8.
// A function for each method: each promises what `Acts` says of its own method.
fn pause(state: synth::State, q: queue::Queue, id: u32, ignored: bool) -> outcomes::Outcome
    ensures { Acts state q Method.Pause id (λ r. ignored ≡ ignores_any r) result }
{
    if !is_valid(synth::Method::Pause, queue::is_busy(state)) {
        return outcomes::failed(state, q, id, answer::Status::NOT_VALID_IN_STATE);
    }
    outcomes::succeeded(id, ignored, queue::list_active(q), synth::State::Paused, q)
}

fn control(state: synth::State, q: queue::Queue, id: u32, ignored: bool) -> outcomes::Outcome
    ensures { Acts state q Method.Control id (λ r. ignored ≡ ignores_any r) result }
{
    if !is_valid(synth::Method::Control, queue::is_busy(state)) {
        return outcomes::failed(state, q, id, answer::Status::NOT_VALID_IN_STATE);
    }
    outcomes::succeeded(id, ignored, queue::list_active(q), state, q)
}

// From speaking there is no change and no list.
fn resume(state: synth::State, q: queue::Queue, id: u32, ignored: bool) -> outcomes::Outcome
    ensures { Acts state q Method.Resume id (λ r. ignored ≡ ignores_any r) result }
{
    if !is_valid(synth::Method::Resume, queue::is_busy(state)) {
        return outcomes::failed(state, q, id, answer::Status::NOT_VALID_IN_STATE);
    }
    match state {
        synth::State::Paused => outcomes::succeeded(
            id,
            ignored,
            queue::list_active(q),
            synth::State::Speaking,
            q,
        ),
        _ => outcomes::succeeded(id, ignored, queue::list_none(), state, q),
    }
}

// START-INPUT-TIMERS: judgement 8; no change and no list.
fn start_timers(state: synth::State, q: queue::Queue, id: u32, ignored: bool) -> outcomes::Outcome
    ensures { Acts state q Method.StartInputTimers id (λ r. ignored ≡ ignores_any r) result }
{
    if !is_valid(synth::Method::StartInputTimers, queue::is_busy(state)) {
        return outcomes::failed(state, q, id, answer::Status::NOT_VALID_IN_STATE);
    }
    outcomes::succeeded(id, ignored, queue::list_none(), state, q)
}

// The request `id` with the method `m`, whose fields in the frame `f` are those of the header `h`: judgements 6 to 11,
// on a channel of this kind, with this state and queue and the settings `set`. An array holds the ids of 16, so of a
// queue of more, which is not sound, nothing is said; nor of settings that the kind cannot have.
// Eight parameters: one struct of them, by reference, was tried, and took 1,400 bytes of stack more, past 6 KB.
pub fn act(
    kind: answer::Kind,
    state: synth::State,
    q: queue::Queue,
    set: synth::Edition,
    f: &[u8],
    h: header::Header,
    m: synth::Method,
    id: u32,
) -> outcomes::Outcome
    ensures { length (list_of q) ≤ 16 → is_edition_of kind set ≡ true → is_params m ≡ false
        → ActsOn kind set state q m id (λ r. Tells false f.now h r.fields) result }
{
    let ignored = values::meets(h.mask, names::IGNORED_ELSEWHERE);
    match m {
        synth::Method::Speak => speak::speak(kind, state, q, set, f, h, id),
        synth::Method::Recognize => speak::recognize(kind, state, q, set, f, h, id),
        synth::Method::Stop => stop(state, q, f, h, id),
        synth::Method::BargeInOccurred => barge_in(state, q, id, ignored),
        synth::Method::Pause => pause(state, q, id, ignored),
        synth::Method::Resume => resume(state, q, id, ignored),
        synth::Method::Control => control(state, q, id, ignored),
        synth::Method::StartInputTimers => start_timers(state, q, id, ignored),
        synth::Method::Unknown | synth::Method::SetParams | synth::Method::GetParams => {
            outcomes::failed(state, q, id, answer::Status::METHOD_NOT_ALLOWED)
        }
    }
}
