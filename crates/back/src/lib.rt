// Going back to an edition of a channel's settings: document 02, K5.
#![tactic(auto)]

ghost use Rattle.std.specs.Prelude.{◌≡◌, true, List, [], ℕ};
ghost use Rattle.synth.specs.Settings.{edition_at};
ghost use Rattle.synth.specs.Channel.{shaped, sound};
ghost use Rattle.synth.specs.Calls.{back as back_to};
ghost use Rattle.synth.specs.declared.Edition.{Edition};
ghost use Rattle.settings.specs.Kept.{as_further};
ghost use Rattle.channel.specs.Channel.{view};
ghost use Rattle.calls.specs.Promise.{Promise};

use calls::Refusal;

// To the edition that was found of that number: 21 before all, then 12. No output is lent. Editions that no channel of
// its kind has are the caller's to refuse.
pub fn go_back(
    last: Option<u32>,
    c: channel::Channel,
    found: Option<synth::Edition>,
) -> Result<calls::Handled, calls::Refused>
    ensures { (es : List Edition) (number : ℕ)
        → (shaped (view last c es) ≡ true → found ≡ as_further (edition_at number es))
        → sound (view last c es) ≡ shaped (view last c es) → Promise last c es (back_to number) [] result [] }
{
    if !channel::is_shaped(last, c) { // before the number is looked at
        return Err(Refusal::NotSound.into());
    }
    let edition = found.ok_or(Refusal::NotKept)?;
    Ok(calls::Handled {
        consumed: 0,
        written: 0,
        last,
        channel: c,
        further: Some(edition),
    })
}
