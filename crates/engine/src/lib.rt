// Engine reports on a channel: document 01, "Refusal numbers" and "How tight the promises are", and document 02, K1.
#![tactic(auto)]

ghost use Rattle.std.specs.Prelude.{◌≡◌, true, List, ◌∷◌, length};
ghost use Rattle.answer.specs.declared.Kind.{Kind};
ghost use Rattle.synth.specs.Channel.{shaped, sound};
ghost use Rattle.synth.specs.Calls.{report as report_of, deliver as delivered};
ghost use Rattle.synth.specs.States.{ends_one, recognized, completed};
ghost use Rattle.synth.specs.declared.Entry.{Entry};
ghost use Rattle.synth.specs.declared.Edition.{Edition};
ghost use Rattle.synth.specs.declared.State.TheVariants.{Idle, Speaking};
ghost use Rattle.queue.specs.Queue.{list_of};
ghost use Rattle.channel.specs.Channel.{view};
ghost use Rattle.calls.specs.Promise.{Leaves, Promise};
ghost use Rattle.engine.specs.Endings.{ends_marked};

use calls::Refusal;

// The event that ends a synthesizer's active one, or 7 where it is longer than the output. The next becomes active and
// speaking.
// A private step, as those below: `shaped` is what the one test in `report` gives.
fn end_speech(
    last: Option<u32>,
    c: channel::Channel,
    cause: u32,
    out: &mut [u8],
) -> Result<calls::Handled, calls::Refused>
    requires { (es : List Edition) → shaped (view last c es) ≡ true }
    ensures { (es : List Edition) (e : Entry) (queue : List Entry) → list_of c.queue ≡ e ∷ queue
        → Leaves last c es (delivered (view last c es) 0 (length out.old)
        (ends_one Kind.Synthesizer Idle Speaking e queue (view last c es) cause)) out.old result
        out.new }
{
    let active = queue::active(c.queue);
    let name = &c.name.bytes[..c.name.size];
    let written = output::complete(out, answer::Kind::Synthesizer, name, active.id, cause)?;
    let rest = queue::without_active(c.queue);
    let state = queue::while_any(synth::State::Idle, synth::State::Speaking, rest);
    Ok(calls::Handled {
        consumed: 0,
        written,
        last,
        channel: channel::with_queue(c, state, rest),
        further: None,
    })
}

// The events that end those of a recognizer's which the mask marks, or 7 where they are longer than the output.
fn end_recognitions(
    last: Option<u32>,
    c: channel::Channel,
    mask: u64,
    cause: u32,
    out: &mut [u8],
) -> Result<calls::Handled, calls::Refused>
    requires { (es : List Edition) → shaped (view last c es) ≡ true }
    ensures { (es : List Edition) → Leaves last c es
        (delivered (view last c es) 0 (length out.old) (ends_marked mask (view last c es) cause))
        out.old result out.new }
{
    let ended = queue::end(c.queue, mask);
    let ids = &ended.listed.ids[..ended.listed.count];
    let name = &c.name.bytes[..c.name.size];
    let written = output::complete_all(out, name, ids, cause)?;
    let rest = ended.queue;
    let state = queue::while_any(synth::State::Recognized, synth::State::Recognizing, rest);
    Ok(calls::Handled {
        consumed: 0,
        written,
        last,
        channel: channel::with_queue(c, state, rest),
        further: None,
    })
}

// What ends on a recognizer, by the cause that the report counts as.
fn end_recognized(
    last: Option<u32>,
    c: channel::Channel,
    cause: u32,
    out: &mut [u8],
) -> Result<calls::Handled, calls::Refused>
    requires { (es : List Edition) → shaped (view last c es) ≡ true }
    ensures { (es : List Edition) (e : Entry) (queue : List Entry) → list_of c.queue ≡ e ∷ queue
        → Leaves last c es (delivered (view last c es) 0 (length out.old)
        (recognized e queue (view last c es) cause)) out.old result out.new }
{
    let ended = if scores::is_match(cause) {
        queue::ACTIVE
    } else {
        queue::ALL
    };
    end_recognitions(last, c, ended, cause, out)
}

// What ends, by the channel's kind.
fn complete(
    last: Option<u32>,
    c: channel::Channel,
    kind: answer::Kind,
    cause: u32,
    score: f32,
    out: &mut [u8],
) -> Result<calls::Handled, calls::Refused>
    requires { (es : List Edition) → shaped (view last c es) ≡ true }
    ensures { (es : List Edition) (e : Entry) (queue : List Entry) → list_of c.queue ≡ e ∷ queue
        → Leaves last c es (delivered (view last c es) 0 (length out.old)
        (completed kind e queue (view last c es) cause score)) out.old result out.new }
{
    match kind {
        answer::Kind::Synthesizer => end_speech(last, c, cause, out),
        answer::Kind::Recognizer => {
            let first = queue::active(c.queue);
            let counted = scores::counted(first.threshold, cause, score);
            end_recognized(last, c, counted, out)
        }
    }
}

// An engine report: 21 before all, then 9, then 11, then 8, then 7. The editions are not handed in: where they are none
// of a channel's, it is the caller who refuses with 21.
pub fn report(
    last: Option<u32>,
    c: channel::Channel,
    cause: u32,
    score: f32,
    out: &mut [u8],
) -> Result<calls::Handled, calls::Refused>
    ensures { (es : List Edition) → sound (view last c es) ≡ shaped (view last c es)
        → Promise last c es (report_of cause score) out.old result out.new }
{
    if !channel::is_shaped(last, c) { // before the cause is looked at
        return Err(Refusal::NotSound.into());
    }
    let kind = channel::kind(c);
    if answer::cause_count(kind) <= cause {
        return Err(Refusal::NoCause.into());
    }
    if scores::is_none(kind, score) {
        return Err(Refusal::NoScore.into());
    }
    if !queue::awaits(c.state) {
        return Err(Refusal::NothingAwaited.into());
    }
    complete(last, c, kind, cause, score, out)
}
