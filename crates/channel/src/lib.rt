// A channel by value, its soundness and its opening: document 01, "Refusal numbers", and document 02, K1 and K5.
#![tactic(auto)]

ghost use Rattle.std.specs.Prelude.{◌≡◌, ◌≤◌, ℕ, leb, List, Option};
ghost use Rattle.synth.specs.Kinds.{kind_of};
ghost use Rattle.synth.specs.Channel.{shaped, with_queue, idle_unseen, first_above};
ghost use Rattle.synth.specs.Calls.{open_channel};
ghost use Rattle.synth.specs.declared.Edition.{Edition};
ghost use Rattle.channelnames.specs.Names.{name_of};
ghost use Rattle.queue.specs.Queue.{list_of};
ghost use Rattle.channel.specs.Channel.{view, current_of, opened, kept};

// What the caller keeps of a channel, but for the last id seen and the editions of its settings, which stand beside it:
// each step that is handed a channel costs a copy. The state stands last: in front of the queue it would split each copy
// in two.
#[derive(Clone, Copy)]
pub struct Channel {
    pub name: channelnames::Name,
    pub queue: queue::Queue,
    pub state: synth::State,
}

// What a request is judged on: the channel with its settings of the moment.
#[derive(Clone, Copy)]
pub struct Current {
    pub name: channelnames::Name,
    pub queue: queue::Queue,
    pub state: synth::State,
    pub set: synth::Edition,
}

// An opening's number, and its channel, on which no id was seen: no Result, for `open_channel` promises a channel where
// it refuses too.
#[derive(Clone, Copy)]
pub struct Opened {
    pub number: u32,
    pub channel: Channel,
}

// The first id above the last one seen, which needs a 33rd bit.
pub fn first_above(last: Option<u32>) -> u64
    ensures { (result ≡ first_above last) × (result ≤ 4294967296) }
{
    last.map_or(0, |id| u64::from(id) + 1)
}

// Whether `id` is above the last one seen.
pub fn is_above(last: Option<u32>, id: u32) -> bool
    ensures { result ≡ leb (first_above last) id }
{
    first_above(last) <= u64::from(id)
}

// The kind that the channel's name tells.
pub fn kind(c: Channel) -> answer::Kind
    ensures { result ≡ kind_of (name_of c.name) }
{
    channelnames::kind(c.name)
}

// Whether the channel is idle, where no id was seen.
fn idle_unseen(last: Option<u32>, state: synth::State) -> bool
    ensures { result ≡ idle_unseen last state }
{
    last.is_some() || matches!(state, synth::State::Idle)
}

// Soundness but for the editions. Any channel at all may be handed in, its size and its count past the arrays too. No
// queue has a threshold that reading cannot give.
pub fn is_shaped(last: Option<u32>, c: Channel) -> bool
    ensures { (es : List Edition) → result ≡ shaped (view last c es) }
{
    if !channelnames::is_well_named(c.name) {
        return false;
    }
    let kind = channelnames::kind_by(c.name);
    queue::fits(kind, c.state, queue::is_empty(c.queue))
        && idle_unseen(last, c.state)
        && queue::is_rising(kind, c.queue, first_above(last))
}

pub fn present(c: Channel, set: synth::Edition) -> Current
    ensures { result ≡ current_of c set }
{
    let Channel { name, queue, state } = c;
    Current {
        name,
        queue,
        state,
        set,
    }
}

// A channel anew, and one with another state and queue. Only `loading` builds one otherwise, from C's numbers.
pub fn fresh(name: channelnames::Name) -> Channel
    ensures { result ≡ kept name }
{
    Channel {
        name,
        state: synth::State::Idle,
        queue: queue::empty(),
    }
}

pub fn with_queue(c: Channel, state: synth::State, queue: queue::Queue) -> Channel
    ensures { (last : Option ℕ) (es : List Edition)
        → view last result es ≡ with_queue state (list_of queue) (view last c es) }
{
    Channel { state, queue, ..c }
}

// A refused opening gives a channel with an empty name, so not sound.
pub fn open_channel(name: &[u8]) -> Opened
    ensures { opened result ≡ open_channel name.now }
{
    if channelnames::well_named(name) {
        Opened {
            number: 0,
            channel: fresh(channelnames::kept(name)),
        }
    } else {
        Opened {
            number: 10,
            channel: fresh(channelnames::kept(b"")),
        }
    }
}
