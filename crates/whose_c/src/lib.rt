// `whose` as C calls it: the crate's function of that name, with its contract. include/klarvesimo.h is its manual. It
// does not stand in `firmware_c`: a library of its own has its own copy of the start line's reader, put into its one
// caller, as that of `firmware_c` has.
#![tactic(auto)]

ghost use Rattle.std.specs.Prelude.{◌≡◌};
ghost use Rattle.whose.specs.Whose.{whose_face};

#[unsafe(no_mangle)]
pub extern "C" fn klarvesimo_whose(s: &[u8], id: &mut [u64; 1]) -> u32
    ensures { record { number = result; id = id.new } ≡ whose_face s.now id.old }
{
    whose::klarvesimo_whose(s, id)
}
