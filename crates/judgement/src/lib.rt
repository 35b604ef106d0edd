// The order of judgement for a request: document 01, "The order of judgement for a request", and document 02,
// K1 and K5. Judgements 6 to 11 are those of each method.
#![tactic(auto)]

ghost use Rattle.std.specs.Prelude.{◌≡◌, Bool, true, ◌&&◌, List, ℕ, ◌≤◌, eqb, length};
ghost use Rattle.std.proofs.Math.Option.{some};
ghost use Rattle.message.specs.Message.{Fields, request as request_line, part, on_fields};
ghost use Rattle.message.specs.Folds.{joined};
ghost use Rattle.message.specs.Reading.{asks_params, fields_from};
ghost use Rattle.message.specs.declared.Known.TheVariants.{ChannelIdentifier};
ghost use Rattle.message.specs.declared.RequestState.TheVariants.{Complete};
ghost use Rattle.synth.specs.Kinds.{kind_of, method_in};
ghost use Rattle.synth.specs.Channel.{well_named};
ghost use Rattle.synth.specs.Settings.{is_edition_of, newest};
ghost use Rattle.synth.specs.Request.{method_of, is_good, is_params, acting};
ghost use Rattle.synth.specs.declared.Edition.{Edition};
ghost use Rattle.synth.specs.Judgement.{◌then◌, ours, above};
ghost use Rattle.synth.specs.States.{after_early, judge as judged};
ghost use Rattle.channelnames.specs.Names.{name_of};
ghost use Rattle.queue.specs.Queue.{list_of, no_ids};
ghost use Rattle.channel.specs.Channel.{view_on};
ghost use Rattle.request.specs.Telling.{Tells};
ghost use Rattle.outcomes.specs.Outcomes.{asked, outcome};
ghost use Rattle.params.specs.Doing.{DoesOn};
ghost use Rattle.params.specs.declared.Effect.TheVariants.{Nothing};
ghost use Rattle.judgement.specs.Judged.{from_fields, Gets, Judges};

// What a request comes to, and the last id seen after it.
#[derive(Clone, Copy)]
pub struct Judged {
    pub last: Option<u32>,
    pub done: params::Done,
}

// 1. The version is 2.0, as numbers.
// Numbers and no `framing::Framed`: judgement knows nothing of frames.
fn is_current(major: u64, minor: u64) -> bool
    ensures { result ≡ (eqb major 2 && eqb minor 0) }
{
    major == 2 && minor == 0
}

// 4 and 5, of the Channel-Identifier `v`: it is this channel's name, and the id is above the last one seen.
// A private step, as those below: a well-formed name is what soundness gives, which `client` tests.
fn for_us(
    last: Option<u32>,
    name: channelnames::Name,
    v: &[u8],
    id: u32,
) -> Result<(), answer::Status>
    ensures { well_named (name_of name) ≡ true → Gets (λ v r. ours v r then above v r) last name id
        (λ r. some (joined v.entry.now) ≡ acting ChannelIdentifier r) result }
{
    if !channelnames::is_name(name, v) {
        return Err(answer::Status::NO_SUCH_CHANNEL);
    }
    if !channel::is_above(last, id) {
        return Err(answer::Status::OUT_OF_ORDER);
    }
    Ok(())
}

// 3 to 5, of the fields in the frame `f` that passed 2 and are those of the header `h`.
fn early(
    last: Option<u32>,
    name: channelnames::Name,
    f: &[u8],
    h: header::Header,
    id: u32,
) -> Result<(), answer::Status>
    ensures { well_named (name_of name) ≡ true → (asks : Bool) → Gets from_fields last name id
        (λ r. (is_good r.fields ≡ true) × Tells asks f.now h r.fields) result }
{
    let Some(p) = request::value(h, message::Known::ChannelIdentifier) else {
        return Err(answer::Status::FIELD_MISSING);
    };
    for_us(last, name, message::part(f, p), id)
}

// 6 to 11, by the method.
fn act(
    kind: answer::Kind,
    c: channel::Current,
    f: &[u8],
    h: header::Header,
    m: synth::Method,
    asks: bool,
    id: u32,
) -> params::Done
    ensures { length (list_of c.queue) ≤ 16 → is_edition_of kind c.set ≡ true → asks ≡ is_params m
        → DoesOn kind c.set c.state c.queue m id (λ r. Tells asks f.now h r.fields) result }
{
    if asks {
        return params::act(kind, c.state, c.queue, c.set, f, h, m, id);
    }
    params::plain(methods::act(kind, c.state, c.queue, c.set, f, h, m, id))
}

// A request that fails 1 to 5: the last id seen stays.
fn fails(last: Option<u32>, c: channel::Current, id: u32, status: answer::Status) -> Judged
    ensures { result ≡ record {
      last = last;
      done = record {
        outcome = outcome id status.code Complete no_ids c.state c.queue;
        effect = Nothing;
      };
    } }
{
    Judged {
        last,
        done: params::plain(outcomes::failed(c.state, c.queue, id, status)),
    }
}

// 3 to 11, of the fields in the frame `f` that passed 2 and are those of the header `h`. Once 5 passes, the last id
// seen is this one.
fn judge_fields(
    last: Option<u32>,
    c: channel::Current,
    f: &[u8],
    h: header::Header,
    kind: answer::Kind,
    m: synth::Method,
    asks: bool,
    id: u32,
) -> Judged
    ensures { kind ≡ kind_of (name_of c.name) → well_named (name_of c.name) ≡ true
        → length (list_of c.queue) ≤ 16 → is_edition_of kind c.set ≡ true → asks ≡ is_params m
        → (es : List Edition) → newest es ≡ c.set
        → (major minor : ℕ) (fs : Fields (List ℕ)) → is_good fs ≡ true → Tells asks f.now h fs
        → (let v = view_on last c es in let r = asked major minor m id fs in
        Judges v result (after_early (from_fields v r) v r)) }
{
    if let Err(status) = early(last, c.name, f, h, id) {
        return fails(last, c, id, status);
    }
    Judged {
        last: Some(id),
        done: act(kind, c, f, h, m, asks, id),
    }
}

// 1 to 11, of the request `id` in the frame `f`, whose method stands at `name` and whose fields begin at `at`. Of a
// channel with a malformed name, more than 16 outstanding or settings that its kind cannot have, which is not sound,
// nothing is said.
pub fn judge(
    last: Option<u32>,
    c: channel::Current,
    f: &[u8],
    at: usize,
    major: u64,
    minor: u64,
    name: message::Span,
    id: u32,
) -> Judged
    ensures { well_named (name_of c.name) ≡ true → length (list_of c.queue) ≤ 16
        → is_edition_of (kind_of (name_of c.name)) c.set ≡ true → (es : List Edition) → newest es ≡ c.set
        → Judges (view_on last c es) result (judged (view_on last c es)
        (asked major minor (method_in (kind_of (name_of c.name)) (method_of (part f.now name))) id
        (on_fields (part f.now)
        (fields_from (asks_params f.now (request_line name id)) f.now at)))) }
{
    if !is_current(major, minor) {
        return fails(last, c, id, answer::Status::VERSION_UNSUPPORTED);
    }
    let kind = channelnames::kind(c.name);
    let m = methodnames::method_in(kind, methodnames::method(message::part(f, name)));
    let asks = methodnames::is_params(m);
    let Some(h) = request::read(f, at, asks) else {
        return fails(last, c, id, answer::Status::ILLEGAL_VALUE);
    };
    judge_fields(last, c, f, h, kind, m, asks, id)
}
