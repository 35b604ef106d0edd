// A channel loaded from the 89 numbers that a C caller keeps, whatever they are. include/klarvesimo.h is the manual of
// their places. Numbers that no sound channel has become a queue of 17 or a name of 45 bytes, so a channel that is not
// sound: there is no flag to look at. The name comes first: its kind says what the other numbers are. Of the editions
// the newest is loaded; the older ones stay in the numbers.
#![tactic(auto)]

ghost use Rattle.std.specs.Prelude.{◌≡◌, true, cond, ◌+◌, ◌≤◌, ◌<◌, get_or, List};
ghost use Rattle.std.proofs.Math.Option.{some};
ghost use Rattle.synth.specs.Settings.{settings};
ghost use Rattle.queue.specs.Queue.{list_of};
ghost use Rattle.channelnames.specs.Names.{name_of};
ghost use Rattle.synth.specs.Settings.{edition_at};
ghost use Rattle.synth.specs.Channel.{are_editions};
ghost use Rattle.synth.specs.declared.Edition.{Edition};
ghost use Rattle.settings.specs.Kept.{as_further};
ghost use Rattle.channelnumbers.specs.Numbers.{
  state_at,
  last_at,
  numbers_at,
  entries_at,
  setting_at,
  edition_from,
  editions_in,
};
ghost use Rattle.loading.specs.Loading.{Loads};
ghost use Rattle.loading.specs.Steps.{
  front_fits,
  queue_fits,
  name_fits,
  is_own,
  edition_kept,
  editions_kept,
  Read,
  LoadsPart,
};

// The channel, the last id seen on it, and its settings of the moment.
#[derive(Clone, Copy)]
pub struct Loaded {
    pub last: Option<u32>,
    pub channel: channel::Channel,
    pub set: synth::Edition,
}

// Counts and a size that no sound channel has.
const TOO_MANY: usize = queue::MOST + 1;

const TOO_LONG: usize = channelnames::LONGEST + 1;

// Above the number of an entry, the millionths of a level, and what 19 digits write.
const ENTRIES_END: u64 = 8589934592;

const LEVELS_END: u64 = 1000001;

const MILLIS_END: u64 = 10000000000000000000;

// The threshold and the byte with a number, below 2^32 and below 2^8; a greater one is none's.
// By `%` and not `try_from`: a greater number is refused elsewhere, and here it costs no branch.
fn threshold_at(n: u64) -> u32
    ensures { n < 4294967296 → result ≡ n }
{
    (n % 4294967296) as u32
}

fn byte_at(n: u64) -> u8
    ensures { n < 256 → result ≡ n }
{
    (n % 256) as u8
}

// The state with a number, 0 to 4; a greater one is no state's, and is no None: `front_fits` has refused it.
fn state_at(n: u64) -> synth::State
    ensures { n ≤ 4 → state_at n ≡ some result }
{
    match n {
        0 => synth::State::Idle,
        1 => synth::State::Speaking,
        2 => synth::State::Paused,
        3 => synth::State::Recognizing,
        _ => synth::State::Recognized,
    }
}

// The last id seen, by the first one above it, at most 2^32.
fn last_at(n: u64) -> Option<u32>
    ensures { n ≤ 4294967296 → result ≡ last_at n }
{
    let id = n.checked_sub(1)?;
    Some((id % 4294967296) as u32)
}

// The count of a part that fits; `past` for one that does not.
fn count_where(fits: bool, n: usize, past: usize) -> usize
    ensures { result ≡ cond fits n past }
{
    if fits { n } else { past }
}

// Whether the sort and the value in these places are those of a setting that is unset, or is of sort `own` with a value
// below `end`.
// Sorts are C's numbers, those of `channelnumbers::sort_number`: 1 a flag, 2 milliseconds, 3 a level.
fn setting_fits(own: u64, end: u64, at: usize, ws: &[u64; 89]) -> bool
    requires { at ≤ 87 }
    ensures { result ≡ is_own own end (get_or ws.now at 0) (get_or ws.now (at + 1) 0) }
{
    if ws[at] == own {
        ws[at + 1] < end
    } else {
        ws[at] == 0
    }
}

// Whether the kind's own settings of an edition fit.
// `at`, here and below: a place of C's numbers from which six lie within the 89.
fn edition_fits(kind: answer::Kind, at: usize, ws: &[u64; 89]) -> bool
    requires { at ≤ 83 }
    ensures { result ≡ edition_kept kind (edition_from (settings kind) at ws.now) }
{
    match kind {
        answer::Kind::Synthesizer => {
            setting_fits(1, 2, at, ws) && setting_fits(2, MILLIS_END, at + 2, ws)
        }
        answer::Kind::Recognizer => {
            setting_fits(2, MILLIS_END, at, ws)
                && setting_fits(3, LEVELS_END, at + 2, ws)
                && setting_fits(3, LEVELS_END, at + 4, ws)
        }
    }
}

// Whether one to four editions stand in the numbers, which a channel of that kind can have.
fn editions_kept(kind: answer::Kind, ws: &[u64; 89]) -> bool
    ensures { result ≡ editions_kept kind (editions_in kind ws.now) }
{
    let n = ws[channelnumbers::EDITIONS_AT];
    if n == 0 || (settings::MOST as u64) < n {
        return false;
    }
    for i in 0..n as usize {
        let at = channelnumbers::SETTINGS_AT + i * channelnumbers::EDITION_NUMBERS;
        if !edition_fits(kind, at, ws) {
            return false;
        }
    }
    true
}

// Whether state, last id and count are within their ranges, and the editions those of a channel of that kind.
fn front_fits(kind: answer::Kind, ws: &[u64; 89]) -> bool
    ensures { result ≡ front_fits kind ws.now }
{
    ws[0] <= 4
        && ws[1] <= 4294967296
        && ws[2] <= queue::most(kind) as u64
        && editions_kept(kind, ws)
}

// The requests are judged by all their bits at the end, so that their loop has no test, and the queue is built once:
// each place where one is built costs a copy. The loop over the thresholds has no turn on a synthesizer.
fn load_queue(kind: answer::Kind, ws: &[u64; 89]) -> queue::Queue
    ensures { LoadsPart (queue_fits kind ws.now)
        (entries_at kind (get_or ws.now 2 0) ws.now) 16 (list_of result) }
{
    let fits = front_fits(kind, ws);
    let count = count_where(fits, ws[2] as usize, 0);
    let mut numbers = [0; queue::MOST];
    let mut bits = 0;
    for i in 0..count {
        let n = ws[channelnumbers::QUEUE_AT + i];
        bits |= n;
        numbers[i] = n;
    }
    let mut all_fit = fits & (bits < ENTRIES_END);
    let mut thresholds = [0; queue::MOST];
    for j in 0..channelnumbers::threshold_count(kind, count) {
        let n = ws[channelnumbers::THRESHOLDS_AT + j];
        all_fit &= n < LEVELS_END;
        thresholds[j] = threshold_at(n);
    }
    queue::Queue {
        numbers,
        thresholds,
        count: count_where(all_fit, count, TOO_MANY),
    }
}

fn load_name(ws: &[u64; 89]) -> channelnames::Name
    ensures { LoadsPart (name_fits ws.now)
        (numbers_at 20 (get_or ws.now 3 0) ws.now) 44 (name_of result) }
{
    let fits = ws[3] <= channelnames::LONGEST as u64;
    let size = count_where(fits, ws[3] as usize, 0);
    let mut bytes = [0; channelnames::LONGEST];
    let mut bits = 0;
    for i in 0..size {
        let n = ws[channelnumbers::NAME_AT + i];
        bits |= n;
        bytes[i] = byte_at(n);
    }
    channelnames::Name {
        bytes,
        size: count_where(fits & (bits < 256), size, TOO_LONG),
    }
}

fn level_at(value: u64) -> synth::Setting
    ensures { value ≤ 1000000 → setting_at 3 value ≡ some result }
{
    let millionths = threshold_at(value);
    synth::Setting::Level(synth::Level {
        millionths,
        single: levels::single(millionths),
    })
}

// The setting of a sort and a value that fit; others are none's.
fn setting_at(sort: u64, value: u64) -> synth::Setting
    ensures { Read (setting_at sort value) result }
{
    match sort {
        0 => synth::Setting::Unset,
        1 => synth::Setting::Flag(value == 1),
        2 => synth::Setting::Millis(value),
        _ => level_at(value),
    }
}

fn setting_in(at: usize, ws: &[u64; 89]) -> synth::Setting
    requires { at ≤ 87 }
    ensures { Read (setting_at (get_or ws.now at 0) (get_or ws.now (at + 1) 0)) result }
{
    setting_at(ws[at], ws[at + 1])
}

// An edition that fits: the kind's own settings, all others unset.
fn edition_in(kind: answer::Kind, at: usize, ws: &[u64; 89]) -> synth::Edition
    requires { at ≤ 83 }
    ensures { edition_kept kind (edition_from (settings kind) at ws.now) ≡ true
        → edition_from (settings kind) at ws.now ≡ some result }
{
    match kind {
        answer::Kind::Synthesizer => {
            synth::Edition {
                kill: setting_in(at, ws),
                fetch: setting_in(at + 2, ws),
                ..settings::UNSET
            }
        }
        answer::Kind::Recognizer => {
            synth::Edition {
                silence: setting_in(at, ws),
                confidence: setting_in(at + 2, ws),
                sensitivity: setting_in(at + 4, ws),
                ..settings::UNSET
            }
        }
    }
}

// The channel that the numbers are, or one that is not sound. Those past the counts and past the size are not looked at.
pub fn load(ws: &[u64; 89]) -> Loaded
    ensures { Loads ws.now result }
{
    let name = load_name(ws);
    let kind = channelnames::kind_by(name);
    let queue = load_queue(kind, ws);
    let state = state_at(ws[0]);
    Loaded {
        last: last_at(ws[1]),
        channel: channel::Channel { name, queue, state },
        set: edition_in(kind, channelnumbers::SETTINGS_AT, ws),
    }
}

// The edition of that number, 1 the newest.
pub fn edition_at(kind: answer::Kind, number: u32, ws: &[u64; 89]) -> Option<synth::Edition>
    ensures { (es : List Edition) → editions_in kind ws.now ≡ some es → are_editions kind es ≡ true
        → result ≡ as_further (edition_at number es) }
{
    let place = (number as usize).checked_sub(1)?;
    if settings::MOST <= place || ws[channelnumbers::EDITIONS_AT] <= place as u64 {
        return None;
    }
    let at = channelnumbers::SETTINGS_AT + place * channelnumbers::EDITION_NUMBERS;
    Some(edition_in(kind, at, ws))
}
