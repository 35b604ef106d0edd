// The fields that tell settings, as text: document 02, K5.
#![tactic(auto)]

ghost use Rattle.std.specs.Prelude.{◌≡◌, [], map, ◌+◌, ◌≤◌, length, take};
ghost use Rattle.lists.specs.Lists.{put};
ghost use Rattle.writers.specs.Buffer.{Wrote};
ghost use Rattle.answer.specs.Written.{fields_text};
ghost use Rattle.answer.specs.declared.Kind.{Kind};
ghost use Rattle.synth.specs.Settings.{level_text, setting_text, setting_field};
ghost use Rattle.told.specs.Told.{told};

// Fields, one behind the other: the first `count` of the bytes. The longest, three of a recognizer whose values have 20
// bytes each, have 122. An array, since there is no heap.
#[derive(Clone, Copy)]
pub struct Fields {
    pub bytes: [u8; 128],
    pub count: usize,
}

// A level, with a point and six digits.
fn put_level(out: &mut [u8], at: usize, l: synth::Level) -> usize
    requires { at + 20 ≤ length out.old }
    ensures { Wrote out.old at (level_text l) out.new result × (result ≤ at + 20) }
{
    let m = l.millionths;
    let p = writers::put_digits(out, at, u64::from(m / 1000000));
    let q = writers::put_bytes(out, p, b".");
    let r = writers::put_three(out, q, m / 1000 % 1000);
    writers::put_three(out, r, m % 1000)
}

// The value of a setting; nothing where it is unset.
fn put_value(out: &mut [u8], at: usize, x: synth::Setting) -> usize
    requires { at + 20 ≤ length out.old }
    ensures { Wrote out.old at (setting_text x) out.new result × (result ≤ at + 20) }
{
    match x {
        synth::Setting::Unset => at,
        synth::Setting::Flag(true) => writers::put_bytes(out, at, b"true"),
        synth::Setting::Flag(false) => writers::put_bytes(out, at, b"false"),
        synth::Setting::Millis(n) => writers::put_digits(out, at, n),
        synth::Setting::Level(l) => put_level(out, at, l),
    }
}

// The field of a setting, where it is asked for.
fn put_field(out: &mut [u8], at: usize, asked: bool, name: &[u8], x: synth::Setting) -> usize
    requires { at + (23 + length name.now) ≤ length out.old }
    ensures { Wrote out.old at
        (fields_text (put asked (record { name = name.entry.now; value = setting_text x }) []))
        out.new result × (result ≤ at + (23 + length name.entry.now)) }
{
    if !asked {
        return at;
    }
    let p = writers::put_bytes(out, at, name);
    let q = writers::put_bytes(out, p, b":");
    let r = put_value(out, q, x);
    writers::put_bytes(out, r, b"\r\n")
}

// The settings of a synthesizer, at the front.
fn put_synthesizer(out: &mut [u8], e: synth::Edition, asked: u16) -> usize
    requires { 128 ≤ length out.old }
    ensures { Wrote out.old 0 (fields_text (map (setting_field e) (told Kind.Synthesizer asked)))
        out.new result }
{
    let p = put_field(
        out,
        0,
        asked & names::KILL_ON_BARGE_IN != 0,
        b"Kill-On-Barge-In",
        e.kill,
    );
    put_field(
        out,
        p,
        asked & names::FETCH_TIMEOUT != 0,
        b"Fetch-Timeout",
        e.fetch,
    )
}

// The settings of a recognizer, at the front.
// A function for each kind: the fields are named, so a list of them would be no plainer.
fn put_recognizer(out: &mut [u8], e: synth::Edition, asked: u16) -> usize
    requires { 128 ≤ length out.old }
    ensures { Wrote out.old 0 (fields_text (map (setting_field e) (told Kind.Recognizer asked)))
        out.new result }
{
    let p = put_field(
        out,
        0,
        asked & names::NO_INPUT_TIMEOUT != 0,
        b"No-Input-Timeout",
        e.silence,
    );
    let q = put_field(
        out,
        p,
        asked & names::CONFIDENCE_THRESHOLD != 0,
        b"Confidence-Threshold",
        e.confidence,
    );
    put_field(
        out,
        q,
        asked & names::SENSITIVITY_LEVEL != 0,
        b"Sensitivity-Level",
        e.sensitivity,
    )
}

// The fields of those settings of an edition that the mask asks for.
pub fn text(kind: answer::Kind, e: synth::Edition, asked: u16) -> Fields
    ensures { (take result.count result.bytes ≡ fields_text (map (setting_field e) (told kind asked)))
        × (result.count ≤ 128) × (length result.bytes ≡ 128) }
{
    let mut bytes = [0u8; 128];
    let count = match kind {
        answer::Kind::Synthesizer => put_synthesizer(&mut bytes, e, asked),
        answer::Kind::Recognizer => put_recognizer(&mut bytes, e, asked),
    };
    Fields { bytes, count }
}
