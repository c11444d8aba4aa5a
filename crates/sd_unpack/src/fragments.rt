// What each fragment may be, by itself.
ghost use Rattle.std.specs.Prelude.{◌≡◌, ◌↔◌, ℕ, pos, ◌+◌, ◌<◌, ◌≤◌, ◌≤ℤ◌, [], ◌++◌, List, length, drop, Ok, Err, Some, None, IsTrue, OnOk, IfOk, IfErr, IfSome};
ghost use Rattle.sd_base.specs.Record.{Record};
ghost use Rattle.sd_base.specs.Limits.{most_number, most_data};
ghost use Rattle.sd_record.specs.Fragment.{fragment_bytes, IsFragment, StandsAt};
ghost use Rattle.sd_label.specs.declared.label.SessionLabel.{SessionLabel};
ghost use Rattle.sd_label.specs.Label.{end_label_index, session_label_fragment};
ghost use Rattle.sd_label.specs.Cutting.{IsStart, IsEnd};
ghost use Rattle.sd_unpack.specs.declared.damage.Damage.TheVariants.{BadFragment};
ghost use Rattle.sd_unpack.specs.declared.stage.Stage.TheVariants.{Fresh, Whole};
ghost use Rattle.sd_unpack.specs.Stage.{AreTotalsOf};
ghost use Rattle.sd_unpack.specs.Damage.{BeginsWithNone, CantFollow, Continues};

use crate::damage::Damage;
use crate::stage::Due;
use sd_base::MOST_DATA;
use sd_label::{NotOurs, START_LABEL, Totals, read_session_label};
use sd_record::{Fragment, next_fragment};

/// The fragment at `at` and the place after it, or `None` at the body's end.
pub(crate) fn fragment_at(body: &[u8], at: usize) -> Result<Option<(Fragment<'_>, usize)>, Damage>
    ensures end { (result ≡ Ok None) ↔ (length body.now ≤ at) }
    ensures found { IfOk result
        (λ next. IfSome next (λ found. StandsAt body.now at found.0 found.1)) }
    ensures err { IfErr result
        (λ damage. (damage ≡ BadFragment) × BeginsWithNone (drop at body.now)) }
{
    match next_fragment(body, at) {
        Ok(next) => Ok(next),
        Err(_) => Err(Damage::BadFragment),
    }
}

/// Whether the fragment, which is `bytes`, is a start label.
pub(crate) fn start_label(fragment: &Fragment<'_>, bytes: &[u8]) -> Result<(), Damage>
    requires fragment { IsFragment fragment.now }
    requires bytes { bytes.now ≡ fragment_bytes fragment.now }
    ensures ok { OnOk result ((label : SessionLabel) × IsStart label
        × (fragment.now ≡ session_label_fragment label)) }
    ensures err { IfErr result
        (λ damage. (records : List Record) → CantFollow damage Fresh records fragment.now) }
{
    if fragment.index != START_LABEL {
        return Err(Damage::NoStart);
    }
    match read_session_label(bytes) {
        Ok(_) => Ok(()),
        Err(NotOurs) => Err(Damage::BadFragment),
    }
}

/// Whether the fragment, which is `bytes` and has the index of an end label, is one with these totals.
pub(crate) fn end_label(
    fragment: &Fragment<'_>,
    bytes: &[u8],
    totals: Option<Totals>,
) -> Result<(), Damage>
    requires fragment { IsFragment fragment.now }
    requires index { fragment.now.index ≡ end_label_index }
    requires bytes { bytes.now ≡ fragment_bytes fragment.now }
    ensures ok { OnOk result ((records : List Record) → AreTotalsOf totals records
        → (label : SessionLabel) × IsEnd label records
        × (fragment.now ≡ session_label_fragment label)) }
    ensures err { IfErr result (λ damage. (records : List Record) → AreTotalsOf totals records
        → CantFollow damage Whole records fragment.now) }
{
    let Ok(label) = read_session_label(bytes) else {
        return Err(Damage::BadFragment);
    };
    let Some(totals) = totals else {
        return Err(Damage::BadTotals);
    };
    if label.totals == Some(totals) {
        Ok(())
    } else {
        Err(Damage::BadTotals)
    }
}

/// What is due of the record that the fragment begins, the fragment's part still counted in.
pub(crate) fn first_due(fragment: &Fragment<'_>) -> Result<Due, Damage>
    requires fragment { IsFragment fragment.now }
    requires index { pos 1 ≤ℤ fragment.now.index }
    ensures index { IfOk result (λ due. (fragment.now.index ≡ pos due.index)
        × (1 ≤ due.index) × (due.index ≤ most_number)) }
    ensures stream { IfOk result (λ due. (fragment.now.stream ≡ pos due.stream)
        × (1 ≤ due.stream) × (due.stream ≤ most_number)) }
    ensures left { IfOk result (λ due. (fragment.now.size ≡ due.left) × (due.left ≤ most_data)) }
    ensures err { IfErr result
        (λ damage. (records : List Record) → CantFollow damage Whole records fragment.now) }
{
    if fragment.stream < 0 {
        return Err(Damage::BadContinuation);
    }
    if fragment.size as usize > MOST_DATA {
        return Err(Damage::BadFragment);
    }
    Ok(Due {
        index: fragment.index as u32,
        stream: fragment.stream as u32,
        left: fragment.size,
    })
}

/// Whether the fragment goes on with the record that is due.
pub(crate) fn continues(due: Due, fragment: &Fragment<'_>) -> bool
    ensures { IsTrue result ↔ Continues due fragment.now }
{
    let same_record = i64::from(fragment.index) == i64::from(due.index)
        && i64::from(fragment.stream) == -i64::from(due.stream);
    same_record && fragment.size == due.left && !fragment.part.is_empty()
}
