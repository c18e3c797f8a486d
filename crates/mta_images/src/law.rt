//! Laws of images, each the contract of a function that does nothing.

ghost use Rattle.mta_images.specs.Image.{OneHistory, NoSpoolHasNoHistory, OnePlace};
ghost use Rattle.mta_images.specs.Opened.{EachIsOpened, FoundIsLeft, OneOpening, OpenedIsLeft};

/// One image of the disk stands for one history.
pub fn one_history()
    ensures { OneHistory }
{}

/// An image that is no spool stands for no history.
pub fn no_spool_has_no_history()
    ensures { NoSpoolHasNoHistory }
{}

/// An image is no spool at one place only.
pub fn no_spool_at_one_place()
    ensures { OnePlace }
{}

/// A spool on an image that stands for a history is gone on with in one way, and both that history and the one that is
/// gone on with may be left by a crash.
pub fn openings()
    ensures each { EachIsOpened }
    ensures one { OneOpening }
    ensures opened { OpenedIsLeft }
    ensures found { FoundIsLeft }
{}
