// What holds of the images of volumes, and of their notes, whoever wrote them.
ghost use Rattle.sd_volume.specs.Laws.{OneWholeImage, WholeImageGoesOn, KeptBlocksStand, OneBlockMore, PlacedBlockStands, StandsByItsBytes, TrueNoteStays};

/// The whole image of a volume is told by its bytes.
pub fn one_whole_image()
    ensures { OneWholeImage }
{}

/// A whole image begins with every block that comes in order after the label.
pub fn whole_image_goes_on()
    ensures { WholeImageGoesOn }
{}

/// Blocks whose bytes are kept stay, whatever comes after them.
pub fn kept_blocks_stand()
    ensures { KeptBlocksStand }
{}

/// The next block at the front of a tail is one block more.
pub fn one_block_more()
    ensures { OneBlockMore }
{}

/// A block of a volume begins where those before it end.
pub fn placed_block_stands()
    ensures { PlacedBlockStands }
{}

/// A volume stays as long as its bytes do.
pub fn stands_by_its_bytes()
    ensures { StandsByItsBytes }
{}

/// What a note says stays true over any stop, as long as the bytes below its end last.
pub fn true_note_stays()
    ensures { TrueNoteStays }
{}
