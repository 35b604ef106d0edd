// The settings of the moment: document 02, K5. The editions themselves stand in the caller's numbers.
#![tactic(auto)]

ghost use Rattle.std.specs.Prelude.{◌≡◌};
ghost use Rattle.synth.specs.States.{kill_set, level_set};

// So many editions are kept.
pub const MOST: usize = 4;

// An edition with every setting unset, as a fresh channel has it.
pub const UNSET: synth::Edition = synth::Edition {
    kill: synth::Setting::Unset,
    fetch: synth::Setting::Unset,
    silence: synth::Setting::Unset,
    confidence: synth::Setting::Unset,
    sensitivity: synth::Setting::Unset,
};

// What a SPEAK takes of it, and a RECOGNIZE: true and 0 where it is unset.
pub fn kill_set(s: synth::Setting) -> bool
    ensures { result ≡ kill_set s }
{
    match s {
        synth::Setting::Flag(b) => b,
        _ => true,
    }
}

pub fn level_set(s: synth::Setting) -> u32
    ensures { result ≡ level_set s }
{
    match s {
        synth::Setting::Level(l) => l.millionths,
        _ => 0,
    }
}
