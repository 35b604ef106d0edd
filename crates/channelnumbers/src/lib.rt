// A channel saved as the 89 numbers that a C caller keeps. include/klarvesimo.h is the manual of their places. The
// editions of its settings stand in them alone, and stay as they are unless a further one is made.
#![tactic(auto)]

ghost use Rattle.std.specs.Prelude.{◌≡◌, List, [], ◌∷◌, ◌++◌, map, true, cond, ◌+◌, ◌*◌, ◌≤◌, ◌<◌, length, take, drop};
ghost use Rattle.std.proofs.Math.Option.{some};
ghost use Rattle.synth.specs.Kinds.{most, state_number};
ghost use Rattle.synth.specs.Settings.{settings, unset, further as further_than, is_edition_of};
ghost use Rattle.synth.specs.Channel.{are_editions};
ghost use Rattle.synth.specs.declared.Edition.{Edition};
ghost use Rattle.settings.specs.Kept.{further_on};
ghost use Rattle.channelnames.specs.Names.{name_of, kind_by};
ghost use Rattle.queue.specs.Queue.{list_of, level_in};
ghost use Rattle.channel.specs.Channel.{view};
ghost use Rattle.channelnumbers.specs.Steps.{Stored, stored, threshold_count, three, value_kept};
ghost use Rattle.channelnumbers.specs.Numbers.{
  sort_number,
  value_number,
  edition_numbers,
  editions_part,
  numbers_of,
  edition_from,
  editions_in,
};

// Where the queue's numbers begin, a recognizer's thresholds, the name's bytes, and the editions behind their count.
pub const QUEUE_AT: usize = 4;

pub const THRESHOLDS_AT: usize = 12;

pub const NAME_AT: usize = 20;

pub const EDITIONS_AT: usize = 64;

pub const SETTINGS_AT: usize = 65;

// So many numbers are an edition's.
pub const EDITION_NUMBERS: usize = 6;

// The numbers of the second edition are from here on.
const SECOND_AT: usize = SETTINGS_AT + EDITION_NUMBERS;

// The numbers are those that C knows, so each is named.
fn state_number(s: synth::State) -> u64
    ensures { result ≡ state_number s }
{
    match s {
        synth::State::Idle => 0,
        synth::State::Speaking => 1,
        synth::State::Paused => 2,
        synth::State::Recognizing => 3,
        synth::State::Recognized => 4,
    }
}

// Three loops and not one function: the arrays have elements of three types, and each number is made in its own way.
fn save_queue(q: queue::Queue, ws: &mut [u64; 89])
    requires { q.count ≤ 16 }
    ensures { Stored ws.old 4 (map stored q.numbers) q.count ws.new }
{
    // the array alone: a number of the queue in its place would cost a copy of all of it, here and below
    let numbers = q.numbers;
    for i in 0..q.count {
        ws[QUEUE_AT + i] = numbers[i] % 8589934592;
    }
}

// How many thresholds are saved of so many entries.
pub fn threshold_count(kind: answer::Kind, count: usize) -> usize
    ensures { result ≡ threshold_count kind count }
{
    match kind {
        answer::Kind::Synthesizer => 0,
        answer::Kind::Recognizer => count,
    }
}

fn save_thresholds(kind: answer::Kind, q: queue::Queue, ws: &mut [u64; 89])
    requires { q.count ≤ 16 }
    ensures { Stored ws.old 12 (map level_in q.thresholds) (threshold_count kind q.count)
        ws.new }
{
    let thresholds = q.thresholds;
    for i in 0..threshold_count(kind, q.count) {
        ws[THRESHOLDS_AT + i] = u64::from(queue::level_in(thresholds[i]));
    }
}

fn save_name(n: channelnames::Name, ws: &mut [u64; 89])
    requires { n.size ≤ 44 }
    ensures { Stored ws.old 20 n.bytes n.size ws.new }
{
    let bytes = n.bytes;
    for i in 0..n.size {
        ws[NAME_AT + i] = u64::from(bytes[i]);
    }
}

// A setting's sort and its value.
fn sort_number(s: synth::Setting) -> u64
    ensures { result ≡ sort_number s }
{
    match s {
        synth::Setting::Unset => 0,
        synth::Setting::Flag(_) => 1,
        synth::Setting::Millis(_) => 2,
        synth::Setting::Level(_) => 3,
    }
}

fn value_number(s: synth::Setting) -> u64
    ensures { result ≡ value_number s }
{
    match s {
        synth::Setting::Unset => 0,
        synth::Setting::Flag(b) => u64::from(b),
        synth::Setting::Millis(n) => n,
        synth::Setting::Level(l) => u64::from(l.millionths),
    }
}

fn save_three(
    a: synth::Setting,
    b: synth::Setting,
    c: synth::Setting,
    at: usize,
    ws: &mut [u64; 89],
)
    requires { at ≤ 83 }
    ensures { Stored ws.old at (three a b c) 6 ws.new }
{
    ws[at] = sort_number(a);
    ws[at + 1] = value_number(a);
    ws[at + 2] = sort_number(b);
    ws[at + 3] = value_number(b);
    ws[at + 4] = sort_number(c);
    ws[at + 5] = value_number(c);
}

// The kind's own settings; a synthesizer has two.
fn save_edition(kind: answer::Kind, e: synth::Edition, at: usize, ws: &mut [u64; 89])
    requires { at ≤ 83 }
    ensures { Stored ws.old at (edition_numbers kind e) 6 ws.new }
{
    match kind {
        answer::Kind::Synthesizer => {
            save_three(e.kill, e.fetch, synth::Setting::Unset, at, ws);
        }
        answer::Kind::Recognizer => {
            save_three(e.silence, e.confidence, e.sensitivity, at, ws);
        }
    }
}

// The value that a setting of that sort has: none where it is unset.
fn value_kept(sort: u64, value: u64) -> u64
    ensures { result ≡ value_kept sort value }
{
    if sort == 0 { 0 } else { value }
}

// The numbers of the edition that stands there, without what is none of its settings'.
fn tidy_edition(kind: answer::Kind, at: usize, ws: &mut [u64; 89])
    requires { at ≤ 83 }
    ensures { (e : Edition) → edition_from (settings kind) at ws.old ≡ some e
        → Stored ws.old at (edition_numbers kind e) 6 ws.new }
{
    ws[at + 1] = value_kept(ws[at], ws[at + 1]);
    ws[at + 3] = value_kept(ws[at + 2], ws[at + 3]);
    match kind {
        answer::Kind::Synthesizer => {
            ws[at + 4] = 0;
            ws[at + 5] = 0;
        }
        answer::Kind::Recognizer => {
            ws[at + 5] = value_kept(ws[at + 4], ws[at + 5]);
        }
    }
}

// The numbers of the editions that stand there, and zeros behind them.
fn tidy_editions(kind: answer::Kind, ws: &mut [u64; 89])
    ensures { (es : List Edition) → editions_in kind ws.old ≡ some es
        → length es ≤ 4 → ws.new ≡ take 64 ws.old ++ editions_part kind es }
{
    let n = ws[EDITIONS_AT];
    if (settings::MOST as u64) < n {
        return;
    }
    let count = n as usize;
    for i in 0..count {
        tidy_edition(kind, SETTINGS_AT + i * EDITION_NUMBERS, ws);
    }
    ws[SETTINGS_AT + count * EDITION_NUMBERS..].fill(0);
}

// A further edition in front of those that stand there: the newest four are kept.
fn push_edition(kind: answer::Kind, e: synth::Edition, ws: &mut [u64; 89])
    ensures { (es : List Edition) → editions_in kind ws.old ≡ some es
        → length es ≤ 4 → is_edition_of kind e ≡ true
        → editions_in kind ws.new ≡ some (further_than e es) }
{
    let old = *ws;
    let n = old[EDITIONS_AT];
    if n < (settings::MOST as u64) {
        ws[EDITIONS_AT] = n + 1;
    }
    // by `copy_from_slice` all numbers were copied first: tried, and too slow
    for i in 0..18 {
        ws[SECOND_AT + i] = old[SETTINGS_AT + i];
    }
    save_edition(kind, e, SETTINGS_AT, ws);
}

// The first 64 numbers, which are the channel's but for its editions: zeros past its count and its size. One with more
// than the arrays hold has none; a recognizer with more than eight, which is not sound, has some.
fn save(last: Option<u32>, c: channel::Channel, ws: &mut [u64; 89])
    ensures { (es : List Edition) → length (name_of c.name) ≤ 44
        → length (list_of c.queue) ≤ most (kind_by (name_of c.name))
        → ws.new ≡ take 64 (numbers_of (view last c es)) ++ drop 64 ws.old }
{
    ws[..EDITIONS_AT].fill(0);
    if queue::MOST < c.queue.count || channelnames::LONGEST < c.name.size {
        return;
    }
    let kind = channelnames::kind_by(c.name);
    ws[0] = state_number(c.state);
    ws[1] = channel::first_above(last);
    ws[2] = c.queue.count as u64;
    ws[3] = c.name.size as u64;
    save_queue(c.queue, ws);
    save_thresholds(kind, c.queue, ws);
    save_name(c.name, ws);
}

// The numbers of a channel as a call leaves it, of those with which it came, and the edition that the call made.
pub fn save_after(
    last: Option<u32>,
    c: channel::Channel,
    further: Option<synth::Edition>,
    ws: &mut [u64; 89],
)
    ensures { (es : List Edition) → editions_in (kind_by (name_of c.name)) ws.old ≡ some es
        → length es ≤ 4 → are_editions (kind_by (name_of c.name)) (further_on further es) ≡ true
        → length (name_of c.name) ≤ 44 → length (list_of c.queue) ≤ most (kind_by (name_of c.name))
        → ws.new ≡ numbers_of (view last c (further_on further es)) }
{
    let kind = channelnames::kind_by(c.name);
    if let Some(e) = further {
        push_edition(kind, e, ws);
    }
    tidy_editions(kind, ws);
    save(last, c, ws);
}

// The numbers of a channel as its opening leaves it.
pub fn save_opened(c: channel::Channel, ws: &mut [u64; 89])
    ensures { length (name_of c.name) ≤ 44 → length (list_of c.queue) ≤ most (kind_by (name_of c.name))
        → ws.new ≡ numbers_of (view None c (unset ∷ [])) }
{
    *ws = [0u64; 89];
    ws[EDITIONS_AT] = 1;
    save(None, c, ws);
}
