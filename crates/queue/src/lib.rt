// The queue of a channel, and its state: document 01, "States and queue", and document 02, K1.
#![tactic(auto)]

ghost use Rattle.std.specs.Prelude.{◌≡◌, true, false, ◌&&◌, List, [], ◌∷◌, ◌++◌, ◌<◌, ◌≤◌, leb, length};
ghost use Rattle.lists.specs.Lists.{bit, is_empty, ascends};
ghost use Rattle.synth.specs.Kinds.{most};
ghost use Rattle.synth.specs.Channel.{is_busy, ids as ids_of};
ghost use Rattle.synth.specs.States.{while_any, active as active_in};
ghost use Rattle.synth.specs.Calls.{awaits};
ghost use Rattle.synth.specs.declared.Entry.{Entry};
ghost use Rattle.queue.specs.Queue.{id_in, kill_in, level_in, list_of, fits_in, empty_queue, first, no_ids, Lists, Ends};

// How many may be outstanding: SPEAKs, and RECOGNIZEs.
pub const MOST: usize = 16;

pub const MOST_RECOGNIZED: usize = 8;

// The outstanding SPEAKs or RECOGNIZEs, the active one first: the first `count` of `numbers`, with the thresholds
// beside. A number is an id doubled, and one more where barge-in kills the request. Two arrays, with the count between
// them, and none of entries: there is no heap, and entries were tried and too slow (docs/PERFORMANCE.md, "What was
// tried").
// No invariant says that the count is within: loading builds a queue of 17 on purpose, which no sound channel has.
#[derive(Clone, Copy)]
pub struct Queue {
    pub numbers: [u64; MOST],
    pub count: usize,
    pub thresholds: [u32; MOST],
}

// Ids that an answer lists: the first `count` of `ids`.
// An array and a count: there is no heap, and an outcome goes by value.
#[derive(Clone, Copy)]
pub struct Ids {
    pub ids: [u32; MOST],
    pub count: usize,
}

// The ids of those that ended, and the queue of those that remain.
#[derive(Clone, Copy)]
pub struct Ended {
    pub listed: Ids,
    pub queue: Queue,
}

// What stands behind those that count.
pub const NO_ENTRY: synth::Entry = synth::Entry {
    id: 0,
    kill: false,
    threshold: 0,
};

// The request-id of a number, and the number of a request.
fn id_in(n: u64) -> u32
    ensures { result ≡ id_in n }
{
    (n / 2 % 4294967296) as u32
}

fn kill_in(n: u64) -> bool
    ensures { result ≡ kill_in n }
{
    n % 2 == 1
}

// A threshold in millionths.
pub fn level_in(n: u32) -> u32
    ensures { result ≡ level_in n }
{
    n % 1000001
}

fn number(e: synth::Entry) -> u64
    ensures { (id_in result ≡ e.id) × (kill_in result ≡ e.kill) }
{
    u64::from(e.id) * 2 + u64::from(e.kill)
}

pub fn most(kind: answer::Kind) -> usize
    ensures { (result ≡ most kind) × (result ≤ 16) }
{
    match kind {
        answer::Kind::Synthesizer => MOST,
        answer::Kind::Recognizer => MOST_RECOGNIZED,
    }
}

// Whether something is outstanding in this state.
pub fn is_busy(s: synth::State) -> bool
    ensures { result ≡ is_busy s }
{
    !matches!(s, synth::State::Idle | synth::State::Recognized)
}

// Whether the engine may report in this state.
pub fn awaits(s: synth::State) -> bool
    ensures { result ≡ awaits s }
{
    matches!(s, synth::State::Speaking | synth::State::Recognizing)
}

// Whether the state is one of that kind, and one in which none are outstanding, or some, as it is: both tests in one
// cost half of one after the other.
pub fn fits(kind: answer::Kind, s: synth::State, none: bool) -> bool
    ensures { result ≡ fits_in kind s none }
{
    match (kind, s) {
        (_, synth::State::Idle) | (answer::Kind::Recognizer, synth::State::Recognized) => none,
        (answer::Kind::Synthesizer, synth::State::Speaking | synth::State::Paused) => !none,
        (answer::Kind::Recognizer, synth::State::Recognizing) => !none,
        _ => false,
    }
}

pub fn empty() -> Queue
    ensures { result ≡ empty_queue }
{
    Queue {
        numbers: [0u64; MOST],
        thresholds: [0u32; MOST],
        count: 0,
    }
}

pub fn is_empty(q: Queue) -> bool
    ensures { result ≡ is_empty (list_of q) }
{
    q.count == 0
}

// Whether no other may join.
pub fn is_full(kind: answer::Kind, q: Queue) -> bool
    ensures { result ≡ leb (most kind) (length (list_of q)) }
{
    most(kind) <= q.count
}

// Whether no more are outstanding than may be, and their ids rise, all of them below `end`.
pub fn is_rising(kind: answer::Kind, q: Queue, end: u64) -> bool
    ensures { result ≡ (leb (length (list_of q)) (most kind) && ascends 0 (ids_of (list_of q)) end) }
{
    let count = q.count;
    if most(kind) < count {
        return false;
    }
    // the array alone: a place in the queue that is found by a number would cost a copy of all of it, here and below
    let numbers = q.numbers;
    let mut from = 0;
    for n in &numbers[..count] {
        let id = u64::from(id_in(*n));
        if id < from {
            return false;
        }
        from = id + 1;
    }
    from <= end
}

// One more joins the end, where there is room; its threshold is a level's.
pub fn join(q: Queue, e: synth::Entry) -> Queue
    ensures result_value { length (list_of q) < 16 → e.threshold ≤ 1000000 → list_of result ≡ list_of q ++ (e ∷ []) }
    ensures value { 16 ≤ length (list_of q) → result ≡ q }
{
    let n = q.count;
    if MOST <= n {
        return q;
    }
    let mut numbers = q.numbers;
    numbers[n] = number(e);
    let mut thresholds = q.thresholds;
    thresholds[n] = e.threshold;
    Queue {
        numbers,
        thresholds,
        count: n + 1,
    }
}

// The active one.
pub fn active(q: Queue) -> synth::Entry
    ensures { result ≡ first (list_of q) }
{
    if q.count == 0 {
        return NO_ENTRY;
    }
    let n = q.numbers[0];
    synth::Entry {
        id: id_in(n),
        kill: kill_in(n),
        threshold: level_in(q.thresholds[0]),
    }
}

// `last` where none is outstanding.
pub fn while_any(last: synth::State, state: synth::State, q: Queue) -> synth::State
    ensures { result ≡ while_any last state (list_of q) }
{
    if q.count == 0 { last } else { state }
}

// Nothing is listed.
pub fn list_none() -> Ids
    ensures { result ≡ no_ids }
{
    Ids {
        ids: [0u32; MOST],
        count: 0,
    }
}

// The active id is listed, where there is one.
pub fn list_active(q: Queue) -> Ids
    ensures { Lists (active_in (list_of q)) result }
{
    if q.count == 0 {
        return list_none();
    }
    let mut ids = [0; MOST];
    ids[0] = id_in(q.numbers[0]);
    Ids { ids, count: 1 }
}

// All ids are listed.
pub fn list_held(q: Queue) -> Ids
    ensures lists { length (list_of q) ≤ 16 → Lists (ids_of (list_of q)) result }
    ensures value { 16 < length (list_of q) → result ≡ no_ids }
{
    let count = q.count;
    if MOST < count {
        return list_none();
    }
    let numbers = q.numbers;
    let mut ids = [0; MOST];
    for i in 0..count {
        ids[i] = id_in(numbers[i]);
    }
    Ids { ids, count }
}

fn bit(mask: u64, j: usize) -> bool
    requires { j < 64 }
    ensures { result ≡ bit mask j }
{
    (mask >> j) & 1 == 1
}

// The queue without the active one, where there is one.
pub fn without_active(q: Queue) -> Queue
    ensures { (e : Entry) (queue : List Entry) → list_of q ≡ e ∷ queue → length queue < 16 → list_of result ≡ queue }
{
    // two tests: joined, they cost a report ten instructions more
    if q.count == 0 {
        return q;
    }
    if MOST < q.count {
        return q;
    }
    let left = q.count - 1;
    let old = q.numbers;
    let levels = q.thresholds;
    let mut numbers = [0; MOST];
    let mut thresholds = [0; MOST];
    for i in 0..left {
        numbers[i] = old[i + 1];
        thresholds[i] = levels[i + 1];
    }
    Queue {
        numbers,
        thresholds,
        count: left,
    }
}

// Masks of a queue: an entry's bit is its place.
pub const ACTIVE: u64 = 1;

pub const ALL: u64 = 65535;

// Those end whose bit is set.
pub fn end(q: Queue, mask: u64) -> Ended
    ensures ends { length (list_of q) ≤ 16 → Ends mask (list_of q) result }
    ensures value { 16 < length (list_of q) → result ≡ record { listed = no_ids; queue = q } }
{
    let count = q.count;
    if MOST < count {
        let listed = list_none();
        return Ended { listed, queue: q };
    }
    let old = q.numbers;
    let levels = q.thresholds;
    let mut numbers = [0; MOST];
    let mut thresholds = [0; MOST];
    let mut left = 0;
    let mut ids = [0; MOST];
    let mut gone = 0;
    for i in 0..count {
        let n = old[i];
        let ends = bit(mask, i);
        if ends {
            ids[gone] = id_in(n);
            gone += 1;
            continue;
        }
        numbers[left] = n;
        thresholds[left] = levels[i];
        left += 1;
    }
    let listed = Ids { ids, count: gone };
    let queue = Queue {
        numbers,
        thresholds,
        count: left,
    };
    Ended { listed, queue }
}
