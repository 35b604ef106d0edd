// Client messages on a channel: document 01, "Refusal numbers" and "How tight the promises are".
#![tactic(auto)]

ghost use Rattle.std.specs.Prelude.{◌≡◌, true, ◌≤◌, length, List};
ghost use Rattle.message.specs.Message.{InRange};
ghost use Rattle.message.specs.StartLines.{start_line};
ghost use Rattle.startline.specs.StartLine.{start_of};
ghost use Rattle.synth.specs.Settings.{newest};
ghost use Rattle.synth.specs.Channel.{View, shaped, sound};
ghost use Rattle.synth.specs.Calls.{input, deliver as delivering};
ghost use Rattle.synth.specs.declared.Edition.{Edition};
ghost use Rattle.answer.specs.Written.{written_all};
ghost use Rattle.message.specs.declared.RequestState.TheVariants.{Complete};
ghost use Rattle.output.specs.Delivery.{counted, delivered};
ghost use Rattle.channelnames.specs.Names.{name_of};
ghost use Rattle.params.specs.Doing.{Does};
ghost use Rattle.synth.specs.States as S;
ghost use Rattle.channel.specs.Channel.{view};
ghost use Rattle.judgement.specs.Judged.{Judges};
ghost use Rattle.calls.specs.Promise.{Leaves, Promise};
ghost use Rattle.client.specs.Turns.{line_turn, frame_turn, listing, settings_told, made_by};

use calls::Refusal;

// Writes the answer that lists ids under the name of a channel, or nothing where it is longer than the output. No
// outcome of a judgement lists more than 16.
fn respond(
    name: channelnames::Name,
    o: outcomes::Outcome,
    out: &mut [u8],
) -> Result<usize, output::TooLong>
    requires { name.size ≤ 44 }
    ensures value { o.listed.count ≤ 16 → result ≡ counted (listing (name_of name) o) out.old }
    ensures out_after { o.listed.count ≤ 16
        → out.new ≡ delivered (listing (name_of name) o) out.old }
{
    if queue::MOST < o.listed.count {
        return Err(output::TooLong);
    }
    let ids = &o.listed.ids[..o.listed.count];
    output::respond(out, &name.bytes[..name.size], o.answer, ids)
}

// Writes the answer that tells the settings asked for, alike.
fn tell(
    name: channelnames::Name,
    set: synth::Edition,
    a: answer::Answer,
    asked: u16,
    out: &mut [u8],
) -> Result<usize, output::TooLong>
    requires { name.size ≤ 44 }
    ensures value { a.state ≡ Complete → result ≡ counted (settings_told (name_of name) set a asked) out.old }
    ensures out_after { a.state ≡ Complete
        → out.new ≡ delivered (settings_told (name_of name) set a asked) out.old }
{
    let fields = told::text(channelnames::kind(name), set, asked);
    output::tell(
        out,
        &name.bytes[..name.size],
        a,
        &fields.bytes[..fields.count],
    )
}

// Writes what a request that was judged is answered.
fn write(
    name: channelnames::Name,
    set: synth::Edition,
    done: params::Done,
    out: &mut [u8],
) -> Result<usize, output::TooLong>
    requires { name.size ≤ 44 }
    ensures { (v : View) (d : S.Outcome) → v.name ≡ name_of name → newest v.editions ≡ set
        → Does v done.outcome done.effect d
        → (result ≡ counted (written_all d.says) out.old)
        × (out.new ≡ delivered (written_all d.says) out.old) }
{
    match done.effect {
        params::Effect::Tell(asked) => tell(name, set, done.outcome.answer, asked, out),
        params::Effect::Nothing | params::Effect::Set(_) => respond(name, done.outcome, out),
    }
}

// The edition that a request makes.
fn made(effect: params::Effect) -> Option<synth::Edition>
    ensures { result ≡ made_by effect }
{
    match effect {
        params::Effect::Set(e) => Some(e),
        params::Effect::Nothing | params::Effect::Tell(_) => None,
    }
}

// The answer to a request that was judged, or 7 where it is longer than the output.
// Last id, channel and settings singly: a struct of them is one more copy of the channel.
fn deliver(
    last: Option<u32>,
    c: channel::Channel,
    set: synth::Edition,
    consumed: usize,
    j: judgement::Judged,
    out: &mut [u8],
) -> Result<calls::Handled, calls::Refused>
    requires { c.name.size ≤ 44 }
    ensures { (es : List Edition) (d : S.Outcome) → newest es ≡ set → Judges (view last c es) j d
        → Leaves last c es (delivering (view last c es) consumed (length out.old) d)
        out.old result out.new }
{
    let written = write(c.name, set, j.done, out)?; // the caller may lend more and try again
    Ok(calls::Handled {
        consumed,
        written,
        last: j.last,
        channel: channel::with_queue(c, j.done.outcome.state, j.done.outcome.queue),
        further: made(j.done.effect),
    })
}

// A frame `f` with that start line.
fn handle_line(
    last: Option<u32>,
    c: channel::Channel,
    set: synth::Edition,
    f: &[u8],
    frame: framing::Framed,
    line: startline::StartLine,
    out: &mut [u8],
) -> Result<calls::Handled, calls::Refused>
    requires size_bound { c.name.size ≤ 44 }
    requires in_range { InRange (start_of line.start) }
    ensures { (es : List Edition) → newest es ≡ set → sound (view last c es) ≡ true → Leaves last c es
        (line_turn (view last c es) (length out.old) f.now frame.major frame.minor line.next line.start)
        out.old result out.new }
{
    let startline::Start::Request(name, id) = line.start else {
        return Err(calls::Refused {
            refusal: Refusal::NoRequest,
            consumed: f.len(),
        });
    };
    let now = channel::present(c, set);
    let j = judgement::judge(
        last,
        now,
        f,
        line.next,
        frame.major,
        frame.minor,
        name,
        id as u32,
    );
    deliver(last, c, set, f.len(), j, out)
}

// A frame `f`, of which `frame` says its version and where its start line goes on.
fn handle_frame(
    last: Option<u32>,
    c: channel::Channel,
    set: synth::Edition,
    f: &[u8],
    frame: framing::Framed,
    out: &mut [u8],
) -> Result<calls::Handled, calls::Refused>
    requires { c.name.size ≤ 44 }
    ensures { (es : List Edition) → newest es ≡ set → sound (view last c es) ≡ true → Leaves last c es
        (frame_turn (view last c es) (length out.old) f.now frame.major frame.minor
        (start_line frame.opening f.now)) out.old result out.new }
{
    let Some(line) = startline::start_line(f, frame.opening) else {
        return Err(calls::Refused {
            refusal: Refusal::MalformedLine,
            consumed: f.len(),
        });
    };
    handle_line(last, c, set, f, frame, line, out)
}

// A client message: 21 before all, then 1 to 6, then 7. Editions that no channel of its kind has are the caller's to
// refuse.
pub fn handle(
    last: Option<u32>,
    c: channel::Channel,
    set: synth::Edition,
    s: &[u8],
    out: &mut [u8],
) -> Result<calls::Handled, calls::Refused>
    ensures { (es : List Edition) → newest es ≡ set → sound (view last c es) ≡ shaped (view last c es)
        → Promise last c es (input s.now) out.old result out.new }
{
    if !channel::is_shaped(last, c) { // before the bytes are looked at
        return Err(Refusal::NotSound.into());
    }
    let frame = framing::frame(s)?;
    handle_frame(last, c, set, &s[..frame.length], frame, out)
}
