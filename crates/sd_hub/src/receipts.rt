// Receipts, as the drive gives them.
ghost use Rattle.std.specs.Prelude.{◌≡◌, ◌↔◌, ◌<◌, ℕ, IsTrue, Some, IfOk, IfSome, IfNone, length, slice_get};
ghost use Rattle.sd_drive.specs.Receipt.{ReceiptIs};
ghost use Rattle.sd_hub.specs.Settles.{SameFields, IsGiven};

use sd_drive::{Drive, Receipt};
use sd_driver::Driver;
use sd_span::Span;
use std::alloc::AllocError;

/// The place of the first receipt that the drive doesn't give.
pub(crate) fn foreign<D: Driver>(
    drive: &Drive<D>,
    receipts: &[Receipt],
) -> Result<Option<usize>, AllocError>
    ensures some { IfOk result (λ found. IfSome found (λ at. (r : ReceiptIs)
        × (slice_get receipts.now at ≡ Some r) × (IsGiven drive.now.journal r → ⊥))) }
    ensures none { IfOk result (λ found. IfNone found ((at : ℕ) (r : ReceiptIs)
        → slice_get receipts.now at ≡ Some r → IsGiven drive.now.journal r)) }
    ensures within { IfOk result (λ found. IfSome found (λ at. at < length receipts.now)) }
{
    for at in 0..receipts.len() {
        let given = is_given(drive, &receipts[at])?;
        if !given {
            return Ok(Some(at));
        }
    }
    Ok(None)
}

// Whether the drive gives this receipt.
fn is_given<D: Driver>(drive: &Drive<D>, receipt: &Receipt) -> Result<bool, AllocError>
    ensures { IfOk result (λ given. IsTrue given ↔ IsGiven drive.now.journal receipt.now) }
{
    let own = drive.receipt(receipt.key(), receipt.blocks())?;
    match own {
        Some(own) => Ok(are_same(own.spans(), receipt.spans())),
        None => Ok(false),
    }
}

// Whether these are the same spans.
fn are_same(ones: &[Span], others: &[Span]) -> bool
    ensures { IsTrue result ↔ (ones.now ≡ others.now) }
{
    if ones.len() != others.len() {
        return false;
    }
    for at in 0..ones.len() {
        if !are_alike(&ones[at], &others[at]) {
            return false;
        }
    }
    true
}

// Whether this is the same span.
fn are_alike(one: &Span, other: &Span) -> bool
    ensures { IsTrue result ↔ SameFields one.now other.now }
{
    one.volume.is_same(&other.volume)
        && one.vol_index == other.vol_index
        && one.first == other.first
        && one.last == other.last
        && one.start == other.start
        && one.end == other.end
}
