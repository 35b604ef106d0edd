// `firmware` as C calls it: each function is the crate's function of that name, with its contract.
// include/klarvesimo.h is their manual.
#![tactic(auto)]

ghost use Rattle.std.specs.Prelude.{◌≡◌};
ghost use Rattle.firmware.specs.Face.{frame_face, read_face, called};

#[unsafe(no_mangle)]
pub extern "C" fn klarvesimo_frame(s: &[u8], out: &mut [u64]) -> u32
    ensures { record { number = result; out = out.new }
        ≡ frame_face s.now out.old }
{
    firmware::klarvesimo_frame(s, out)
}

#[unsafe(no_mangle)]
pub extern "C" fn klarvesimo_read(s: &[u8], out: &mut [u64], consumed: &mut [u64; 1]) -> u32
    ensures { record { number = result; consumed = consumed.new; out = out.new }
        ≡ called consumed.old (read_face s.now out.old) }
{
    firmware::klarvesimo_read(s, out, consumed)
}
