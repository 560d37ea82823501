//! The theorems. Each is the contract of a function that does nothing, so that none goes unnoticed if its proof does.
ghost use Rattle.picture.specs.Meant.{PictureMeant};
ghost use Rattle.picture.specs.Whole.{ShowMeant};
ghost use Rattle.picture.specs.Words.{ColoursMeant, LabelsMeant};

/// Of a symbol that was found, in either mode, the text is the facts, with reasons that are true of the entry's bytes, an empty
/// line, and the picture of all own bytes; so nothing that was found is refused.
pub fn show_meant()
    ensures { ShowMeant }
{}

/// Whatever the symbol, each byte of the entry stands in the picture once and in order, in two digits, at its place in the row
/// of each 16, in the colour of the section that holds it; each row tells its place and names the sections that have bytes in
/// it; no colour is left behind, and the picture without colours is the same text.
pub fn picture_meant()
    ensures { PictureMeant }
{}

/// The colour of each section.
pub fn colours_meant()
    ensures { ColoursMeant }
{}

/// What a section is called where it begins.
pub fn labels_meant()
    ensures { LabelsMeant }
{}
