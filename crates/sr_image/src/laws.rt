//! Laws of the definitions: functions that do nothing, and whose contracts are the laws.
ghost use Rattle.sr_image.specs.Laws.{ReadAgain, WasSpelled, NoneBegins, MayBeWritten, IsLawful, MayBeMade, IsOfStore};
ghost use Rattle.sr_image.specs.Worked.{Worked};

/// What is written as an image is read again.
pub fn images_are_read_again()
    ensures { ReadAgain }
{}

/// What is read as an image is one, and was spelled just so.
pub fn images_were_spelled()
    ensures { WasSpelled }
{}

/// No beginning of an image but the whole is one.
pub fn none_begins()
    ensures { NoneBegins }
{}

/// What is read may be written.
pub fn images_may_be_written()
    ensures { MayBeWritten }
{}

/// The image of nothing is spelled and read as it stands.
pub fn worked_image()
    ensures { Worked }
{}

/// A store may start from the parts of what is read.
pub fn images_are_lawful()
    ensures { IsLawful }
{}

/// An image can be made of a store's regions.
pub fn images_may_be_made()
    ensures { MayBeMade }
{}

/// What a store within the limits of the format holds is an image.
pub fn images_of_stores()
    ensures { IsOfStore }
{}
