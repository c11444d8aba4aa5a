// What holds of the images of blocks, whoever wrote them.
ghost use Rattle.sd_block.specs.Laws.{LengthOfAnImage, OneBlockOfAnImage, OneImageAtAPlace, HeadOfAnImage};

/// An image is as long as the header and the body.
pub fn length_of_an_image()
    ensures { LengthOfAnImage }
{}

/// Two blocks never have the same image.
pub fn one_block_of_an_image()
    ensures { OneBlockOfAnImage }
{}

/// At a place of a volume begins one image at most, since each says where it ends.
pub fn one_image_at_a_place()
    ensures { OneImageAtAPlace }
{}

/// The front of an image is enough to read what its header says.
pub fn head_of_an_image()
    ensures { HeadOfAnImage }
{}
