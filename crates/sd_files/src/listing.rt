// The listing of a volume: its label, its blocks one after another, and what comes after them.
ghost use Rattle.std.specs.Prelude.{◌≡◌, ◌≢◌, ◌≤◌, ℕ, List, length, IfOk, IfErr, IsErrOf, None, Some};
ghost use Rattle.sd_base.specs.Limits.{least_block};
ghost use Rattle.sd_driver.specs.Meaning.{IsHonest};
ghost use Rattle.sd_driver.specs.Shelf.{Held, BeginsWith};
ghost use Rattle.sd_label.specs.Label.{IsVolumeLabel};
ghost use Rattle.sd_label.specs.declared.label.VolumeLabel.{VolumeLabel as SpecLabel};
ghost use Rattle.sd_volume.specs.Device.{OnlyReads};
ghost use Rattle.sd_volume.specs.Image.{label_block};
ghost use Rattle.sd_volume.specs.Reader.{Shows};
ghost use Rattle.sd_files.specs.Listing.{HasBlocks, HasForm, Lists, ListsBlocks, list_refusal};
ghost use Rattle.sd_text.specs.Says.{Says, said_view};
ghost use Rattle.sd_files.specs.declared.listing.ListFault.TheVariants.{Memory as OutOfMemory};

use crate::list_line::ListLine;
use sd_base::{Refusal, VolName};
use sd_driver::{Driver, DriverFault};
use sd_text::Printer;
use sd_volume::{VolumeReader, numbered_block, read_label};
use std::alloc::{AllocError, Global};
use std::io::Write;

/// Why a volume is not listed, or not to its end.
#[derive(Clone, Copy, Debug, PartialEq, Eq)]
pub enum ListFault {
    /// No volume of that name is on the shelf.
    NotOnShelf,
    /// It begins with no label block of this profile, or its label has another name.
    NotOurVolume,
    /// The device failed.
    Device,
    /// The reader or the device was out of memory.
    Memory,
}

impl ListFault {
    /// What is printed for it.
    pub fn refusal(self) -> Refusal
        ensures { result ≡ list_refusal self }
    {
        match self {
            ListFault::NotOnShelf => Refusal::VolumeNotOnShelf,
            ListFault::NotOurVolume => Refusal::NotOurVolume,
            ListFault::Device => Refusal::DeviceFault,
            ListFault::Memory => Refusal::Memory,
        }
    }
}

impl From<AllocError> for ListFault {
    ghost from_gives = { λ _ fault. fault ≡ OutOfMemory };

    fn from(_error: AllocError) -> Self {
        ListFault::Memory
    }
}

impl From<DriverFault> for ListFault {
    ghost use Rattle.sd_files.specs.Listing.{list_fault_of};

    ghost from_gives = { λ answer fault. fault ≡ list_fault_of answer };

    fn from(answer: DriverFault) -> Self {
        match answer {
            DriverFault::NotThere => ListFault::NotOnShelf,
            DriverFault::Device | DriverFault::Exists | DriverFault::NoRoom => ListFault::Device,
            DriverFault::Memory => ListFault::Memory,
        }
    }
}

/// Prints the listing of the volume of that name, block by block, whatever its length: a line for its label, one for
/// each block after it, up to the first place where there is no whole block with the next number, and one that says how
/// many bytes are left there. After a fault nothing more is printed here; what was printed before stays.
///
/// Calls len once, then reads, each byte once. Holds one buffer of a block's greatest length. Volumes are not
/// changed, loaded or not.
pub fn list<D: Driver, W: Write>(
    alloc: Global,
    driver: &mut D,
    name: &VolName,
    out: &mut Printer<W>,
) -> Result<(), ListFault>
    ensures device { OnlyReads (IsErrOf result ListFault.Device)
        (D.meaning driver.old) (D.meaning driver.new) }
    ensures lists { (due : List ℕ)
        × Says (said_view W.contents out.old) (said_view W.contents out.new) due
        × HasForm name.now result due
        × (IsHonest (D.meaning driver.old)
        → Lists name.now ((D.meaning driver.old).shelf.volume name.now) result due) }
{
    let size = driver.len(name)?;
    let mut reader = VolumeReader::new(alloc, name)?;
    let Some(found) = read_label(driver, &mut reader, name, size)? else {
        return Err(ListFault::NotOurVolume);
    };
    let first = found.first;
    out.line(ListLine::Label(found.label));
    let end = list_blocks(driver, &mut reader, out, first, size)?;
    out.line(ListLine::Tail(size - end));
    Ok(())
}

// Prints a line for each block after the label of a volume of that size, and says where they end.
fn list_blocks<D: Driver, W: Write>(
    driver: &mut D,
    reader: &mut VolumeReader,
    out: &mut Printer<W>,
    first: u64,
    size: u64,
) -> Result<u64, DriverFault>
    requires least { least_block ≤ first }
    requires within { first ≤ size }
    ensures device { OnlyReads (IsErrOf result DriverFault.Device)
        (D.meaning driver.old) (D.meaning driver.new) }
    ensures faults { IfErr result
        (λ fault. (fault ≢ DriverFault.Exists) × (fault ≢ DriverFault.NoRoom)) }
    ensures end { IfOk result (λ end. end ≤ size) }
    ensures not_there { IsHonest (D.meaning driver.old) → IsErrOf result DriverFault.NotThere
        → (D.meaning driver.old).shelf.volume reader.old.name ≡ None }
    ensures lists { (due : List ℕ)
        × Says (said_view W.contents out.old) (said_view W.contents out.new) due
        × HasBlocks first due
        × (IsHonest (D.meaning driver.old) → Shows reader.old (D.meaning driver.old).shelf
        → (held : Held) → (D.meaning driver.old).shelf.volume reader.old.name ≡ Some held
        → size ≡ length held.bytes
        → (label : SpecLabel) → IsVolumeLabel label → first ≡ length (label_block label)
        → BeginsWith held.bytes (label_block label)
        → ListsBlocks held.bytes label result due) }
{
    let mut end = first;
    let mut number = 1;
    while let Some(head) = numbered_block(driver, reader, end, number, size)? {
        out.line(ListLine::Block { start: end, head });
        end += head.size as u64;
        number += 1;
    }
    Ok(end)
}
