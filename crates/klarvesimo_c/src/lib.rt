// `klarvesimo` as C calls it: each function is the crate's function of that name, with its contract.
// include/klarvesimo.h is their manual.
#![tactic(auto)]

ghost use Rattle.std.specs.Prelude.{◌≡◌};
ghost use Rattle.synth.specs.Calls.{input, report as report_of};
ghost use Rattle.klarvesimo.specs.Face.{open_face, call_face, counted, reported, back_face, held_face, listed};

#[unsafe(no_mangle)]
pub extern "C" fn klarvesimo_open(channel: &mut [u64; 89], name: &[u8]) -> u32
    ensures { record { number = result; channel = channel.new } ≡ open_face name.now }
{
    klarvesimo::klarvesimo_open(channel, name)
}

#[unsafe(no_mangle)]
pub extern "C" fn klarvesimo_handle(
    channel: &mut [u64; 89],
    s: &[u8],
    out: &mut [u8],
    counts: &mut [u64; 2],
) -> u32
    ensures { record { number = result; channel = channel.new; counts = counts.new; out = out.new }
        ≡ counted counts.old
        (call_face channel.old (input s.now) out.old) }
{
    klarvesimo::klarvesimo_handle(channel, s, out, counts)
}

#[unsafe(no_mangle)]
pub extern "C" fn klarvesimo_report(
    channel: &mut [u64; 89],
    cause: u32,
    score: f32,
    out: &mut [u8],
    written: &mut [u64; 1],
) -> u32
    ensures { record { number = result; channel = channel.new; written = written.new; out = out.new }
        ≡ reported written.old
        (call_face channel.old (report_of cause score) out.old) }
{
    klarvesimo::klarvesimo_report(channel, cause, score, out, written)
}

#[unsafe(no_mangle)]
pub extern "C" fn klarvesimo_back(channel: &mut [u64; 89], number: u32) -> u32
    ensures { record { number = result; channel = channel.new } ≡ back_face channel.old number }
{
    klarvesimo::klarvesimo_back(channel, number)
}

#[unsafe(no_mangle)]
pub extern "C" fn klarvesimo_held(channel: &[u64; 89], ids: &mut [u64], count: &mut [u64; 1]) -> u32
    ensures { record { number = result; count = count.new; ids = ids.new }
        ≡ listed count.old (held_face channel.now ids.old) }
{
    klarvesimo::klarvesimo_held(channel, ids, count)
}
