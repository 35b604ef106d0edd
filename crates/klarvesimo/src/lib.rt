// A channel as C calls it, by `klarvesimo_c`, kept by the caller as 89 numbers. include/klarvesimo.h is the manual;
// framing and reading alone are in `firmware`.
#![tactic(auto)]

ghost use Rattle.std.specs.Prelude.{◌≡◌, ◌++◌, ◌≤◌, List, ℕ, length, drop};
ghost use Rattle.synth.specs.Calls.{Lent, input, report as report_of};
ghost use Rattle.calls.specs.Promise.{Promise};
ghost use Rattle.loading.specs.Loading.{Loads};
ghost use Rattle.loading.specs.declared.Loaded.{Loaded};
ghost use Rattle.klarvesimo.specs.Face.{open_face, call_face, counted, reported, back_face, held_face, listing, listed};
ghost use Rattle.klarvesimo.specs.Steps.{told_of};

use calls::Refusal;

pub fn klarvesimo_open(channel: &mut [u64; 89], name: &[u8]) -> u32
    ensures { record { number = result; channel = channel.new } ≡ open_face name.now }
{
    let opened = channel::open_channel(name);
    channelnumbers::save_opened(opened.channel, channel);
    opened.number
}

// What C is told of a call: its number, and the counts consumed and written.
#[derive(Clone, Copy)]
struct Told {
    number: u32,
    consumed: u64,
    written: u64,
}

// Apart from saving, for the counts are set before the channel is saved.
fn tell(call: Result<calls::Handled, calls::Refused>) -> Told
    ensures { result ≡ told_of call }
{
    match call {
        Ok(handled) => Told {
            number: 0,
            consumed: handled.consumed as u64,
            written: handled.written as u64,
        },
        Err(refused) => Told {
            number: refused.refusal.number(),
            consumed: refused.consumed as u64,
            written: 0,
        },
    }
}

// Saves the channel as a handled call left it; a refused call leaves the numbers as they were. Always inlined: called,
// it takes 400 bytes of stack more.
#[inline(always)]
fn conclude(call: Result<calls::Handled, calls::Refused>, channel: &mut [u64; 89]) -> Told
    ensures told { result ≡ told_of call }
    ensures face { (l : Loaded) (is : Loads channel.old l) (lent : Lent) (out after : List ℕ)
        → Promise l.last l.channel is.editions lent out call after
        → record {
          number = result.number;
          channel = channel.new;
          consumed = result.consumed;
          written = result.written;
          out = after;
        }
        ≡ call_face channel.old lent out }
{
    let told = tell(call);
    match call {
        Ok(handled) => {
            channelnumbers::save_after(handled.last, handled.channel, handled.further, channel);
            told
        }
        Err(_) => told,
    }
}

// A client message: `counts` gets what was consumed and what was written.
pub fn klarvesimo_handle(
    channel: &mut [u64; 89],
    s: &[u8],
    out: &mut [u8],
    counts: &mut [u64; 2],
) -> u32
    ensures { record { number = result; channel = channel.new; counts = counts.new; out = out.new }
        ≡ counted counts.old
        (call_face channel.old (input s.now) out.old) }
{
    let l = loading::load(channel);
    let call = client::handle(l.last, l.channel, l.set, s, out);
    let told = tell(call);
    counts[0] = told.consumed;
    counts[1] = told.written;
    conclude(call, channel).number
}

// An engine report: its cause, and the score of what was recognized.
pub fn klarvesimo_report(
    channel: &mut [u64; 89],
    cause: u32,
    score: f32,
    out: &mut [u8],
    written: &mut [u64; 1],
) -> u32
    ensures { record { number = result; channel = channel.new; written = written.new; out = out.new }
        ≡ reported written.old
        (call_face channel.old (report_of cause score) out.old) }
{
    let l = loading::load(channel);
    let call = engine::report(l.last, l.channel, cause, score, out);
    written[0] = tell(call).written;
    conclude(call, channel).number
}

// A going back to an edition of the settings.
pub fn klarvesimo_back(channel: &mut [u64; 89], number: u32) -> u32
    ensures { record { number = result; channel = channel.new } ≡ back_face channel.old number }
{
    let l = loading::load(channel);
    let found = loading::edition_at(channelnames::kind_by(l.channel.name), number, channel);
    conclude(back::go_back(l.last, l.channel, found), channel).number
}

// The ids at the front of `out`.
fn put_ids(out: &mut [u64], ids: &[u32])
    requires { length ids.now ≤ length out.old }
    ensures { out.new ≡ ids.now ++ drop (length ids.now) out.old }
{
    for (i, id) in ids.iter().enumerate() {
        out[i] = u64::from(*id);
    }
}

// The ids that the channel holds, and how many they are.
fn list(channel: &[u64; 89], ids: &mut [u64]) -> Result<usize, Refusal>
    ensures { listing result ids.new ≡ held_face channel.now ids.old }
{
    let l = loading::load(channel);
    if !channel::is_shaped(l.last, l.channel) {
        return Err(Refusal::NotSound);
    }
    let held = queue::list_held(l.channel.queue);
    if ids.len() < held.count {
        return Err(Refusal::NoRoom);
    }
    put_ids(ids, &held.ids[..held.count]);
    Ok(held.count)
}

pub fn klarvesimo_held(channel: &[u64; 89], ids: &mut [u64], count: &mut [u64; 1]) -> u32
    ensures { record { number = result; count = count.new; ids = ids.new }
        ≡ listed count.old (held_face channel.now ids.old) }
{
    count[0] = 0;
    match list(channel, ids) {
        Ok(held) => {
            count[0] = held as u64;
            0
        }
        Err(refusal) => refusal.number(),
    }
}
