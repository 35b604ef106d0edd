// What a SET-PARAMS or a GET-PARAMS does that passed judgement 5: document 02, K5.
#![tactic(auto)]

ghost use Rattle.std.specs.Prelude.{◌≡◌, true, List, ℕ, MatchOption};
ghost use Rattle.std.specs.Fn.{FnReturnsAt};
ghost use Rattle.answer.specs.declared.Kind.{Kind};
ghost use Rattle.message.specs.Message.{part};
ghost use Rattle.synth.specs.Settings.{settings, or_all, flag, millis, level};
ghost use Rattle.synth.specs.Request.{is_set, is_params};
ghost use Rattle.synth.specs.declared.Edition.{Edition};
ghost use Rattle.synth.specs.declared.Method.{Method};
ghost use Rattle.request.specs.Telling.{Tells};
ghost use Rattle.told.specs.Told.{told};
ghost use Rattle.params.specs.Doing.{DoesOn, StandsOn};
ghost use Rattle.params.specs.Steps.{taken_in, setting_bits, forbidden_bits, ChangesTo};
ghost use Rattle.params.specs.declared.Effect.{Effect};

// What a request comes to beside its answer: nothing, a further edition, or settings that its answer tells, by the bits
// of their names.
#[derive(Clone, Copy)]
pub enum Effect {
    Nothing,
    Set(synth::Edition),
    Tell(u16),
}

#[derive(Clone, Copy)]
pub struct Done {
    pub outcome: outcomes::Outcome,
    pub effect: Effect,
}

// A setting as the value `v` gives it; none where the value is not legal for it.
fn flag_in(v: &[u8]) -> Option<synth::Setting>
    ensures { result ≡ taken_in flag v.now }
{
    Some(synth::Setting::Flag(values::flag(v)?))
}

fn millis_in(v: &[u8]) -> Option<synth::Setting>
    ensures { result ≡ taken_in millis v.now }
{
    Some(synth::Setting::Millis(header::number(v)?))
}

fn level_in(v: &[u8]) -> Option<synth::Setting>
    ensures { result ≡ taken_in level v.now }
{
    Some(synth::Setting::Level(levels::level_in(v)?))
}

// The setting that is read at the place that is given, or as it was before.
fn take<F: Fn(&[u8]) -> Option<synth::Setting> + Copy>(
    read: F,
    f: &[u8],
    given: Option<message::Span>,
    before: synth::Setting,
) -> Option<synth::Setting>
    requires { F.IsAlwaysCallable read }
    ensures { MatchOption given (result ≡ Some before) (λ p. FnReturnsAt F.Fn read (part f.now p) result) }
{
    let Some(p) = given else {
        return Some(before);
    };
    read(message::part(f, p))
}

// The edition with what the fields name, all else as in `set`: all of it, or none where a value is illegal.
fn change_synthesizer(set: synth::Edition, f: &[u8], h: header::Header) -> Option<synth::Edition>
    ensures { ChangesTo Kind.Synthesizer set f.now h result }
{
    let kill_given = request::value(h, message::Known::KillOnBargeIn);
    let fetch_given = request::value(h, message::Known::FetchTimeout);
    let kill = take(flag_in, f, kill_given, set.kill)?;
    let fetch = take(millis_in, f, fetch_given, set.fetch)?;
    Some(synth::Edition { kill, fetch, ..set })
}

// A function for each kind: the fields are named, so a list of them would be no plainer.
fn change_recognizer(set: synth::Edition, f: &[u8], h: header::Header) -> Option<synth::Edition>
    ensures { ChangesTo Kind.Recognizer set f.now h result }
{
    let silence_given = request::value(h, message::Known::NoInputTimeout);
    let confidence_given = request::value(h, message::Known::ConfidenceThreshold);
    let sensitivity_given = request::value(h, message::Known::SensitivityLevel);
    let silence = take(millis_in, f, silence_given, set.silence)?;
    let confidence = take(level_in, f, confidence_given, set.confidence)?;
    let sensitivity = take(level_in, f, sensitivity_given, set.sensitivity)?;
    Some(synth::Edition {
        silence,
        confidence,
        sensitivity,
        ..set
    })
}

fn change(
    kind: answer::Kind,
    set: synth::Edition,
    f: &[u8],
    h: header::Header,
) -> Option<synth::Edition>
    ensures { ChangesTo kind set f.now h result }
{
    match kind {
        answer::Kind::Synthesizer => change_synthesizer(set, f, h),
        answer::Kind::Recognizer => change_recognizer(set, f, h),
    }
}

// The bits of the settings of a kind, and of the fields that may not stand beside them.
fn setting_bits(kind: answer::Kind) -> u16
    ensures { result ≡ setting_bits kind }
{
    match kind {
        answer::Kind::Synthesizer => names::SYNTHESIZER_SETTINGS,
        answer::Kind::Recognizer => names::RECOGNIZER_SETTINGS,
    }
}

fn forbidden_bits(kind: answer::Kind) -> u16
    ensures { result ≡ forbidden_bits kind }
{
    match kind {
        answer::Kind::Synthesizer => names::FORBIDDEN_ON_SYNTHESIZER,
        answer::Kind::Recognizer => names::FORBIDDEN_ON_RECOGNIZER,
    }
}

fn is_set(m: synth::Method) -> bool
    ensures { result ≡ is_set m }
{
    matches!(m, synth::Method::SetParams)
}

// An answer alone.
pub fn plain(outcome: outcomes::Outcome) -> Done
    ensures { result ≡ record { outcome = outcome; effect = Effect.Nothing } }
{
    Done {
        outcome,
        effect: Effect::Nothing,
    }
}

// SET-PARAMS of fields that may stand: 404 before any takes effect, or a further edition.
fn set_params(
    kind: answer::Kind,
    state: synth::State,
    q: queue::Queue,
    set: synth::Edition,
    f: &[u8],
    h: header::Header,
    id: u32,
) -> Done
    ensures { StandsOn kind set state q Method.SetParams id f.now h result }
{
    let Some(edition) = change(kind, set, f, h) else {
        return plain(outcomes::failed(state, q, id, answer::Status::ILLEGAL_VALUE));
    };
    Done {
        outcome: outcomes::succeeded(id, false, queue::list_none(), state, q),
        effect: Effect::Set(edition),
    }
}

// The bits of the settings that a GET-PARAMS with these names asks for: those named, or all.
fn asked_by(kind: answer::Kind, mask: u16) -> u16
    ensures { told kind result ≡ or_all (told kind mask) (settings kind) }
{
    let all = setting_bits(kind);
    if values::meets(mask, all) {
        return mask;
    }
    all
}

// GET-PARAMS of fields that may stand: no value is judged; those named are told, or all.
fn get_params(
    kind: answer::Kind,
    state: synth::State,
    q: queue::Queue,
    h: header::Header,
    id: u32,
) -> Done
    ensures { (set : Edition) (f : List ℕ) → StandsOn kind set state q Method.GetParams id f h result }
{
    Done {
        outcome: outcomes::succeeded(id, false, queue::list_none(), state, q),
        effect: Effect::Tell(asked_by(kind, h.mask)),
    }
}

// The request `id` with the method `m`, whose fields in the frame `f` are those of the header `h`: judgements 6 to 11,
// on a channel of this kind, with this state and queue and these settings. 403 before all.
pub fn act(
    kind: answer::Kind,
    state: synth::State,
    q: queue::Queue,
    set: synth::Edition,
    f: &[u8],
    h: header::Header,
    m: synth::Method,
    id: u32,
) -> Done
    ensures { is_params m ≡ true
        → DoesOn kind set state q m id (λ r. Tells true f.now h r.fields) result }
{
    if values::meets(h.mask, forbidden_bits(kind)) {
        return plain(outcomes::failed(state, q, id, answer::Status::UNSUPPORTED_FIELD));
    }
    if is_set(m) {
        return set_params(kind, state, q, set, f, h, id);
    }
    get_params(kind, state, q, h, id)
}
