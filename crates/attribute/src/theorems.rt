//! Theorems. Each is the contract of a function that does nothing, so that none goes unnoticed if its proof does.
ghost use Rattle.attribute.specs.Told.{BlocksRead};
ghost use Rattle.attribute.specs.Modes.{AttributesModes};
ghost use Rattle.attribute.specs.Read.{AttributesRead};
ghost use Rattle.attribute.specs.BlockMeant.{AttributesRefused};
ghost use Rattle.attribute.specs.Inside.{AttributesInside};
ghost use Rattle.attribute.specs.Stopped.{AttributesStopped};
ghost use Rattle.attribute.specs.Asked.{AttributesShown, AttributesNamed, OneNamed};
ghost use Rattle.attribute.specs.Fit.{AttributesReadBack, AttributeBlocks, AttributesFixed, AttributeBlocksMade};

/// A block that passes is read wherever it stands, whatever follows it.
pub fn blocks_read()
    ensures { BlocksRead }
{}

/// An attribute is written exactly where it fits its length fields. Its bytes, with any bytes after them, are read as what
/// was written, and only they are taken.
pub fn attributes_read_back()
    ensures { AttributesReadBack }
{}

/// Attributes one after another are a good block of their count, and the block tells them.
pub fn attribute_blocks()
    ensures { AttributeBlocks }
{}

/// A block is that of one list of attributes.
pub fn attributes_fixed()
    ensures { AttributesFixed }
{}

/// A block that passes is the block of the attributes that it tells.
pub fn attribute_blocks_made()
    ensures { AttributeBlocksMade }
{}

/// The modes agree where 0 follows both strings of an attribute, and the checked mode accepts nothing else.
pub fn attributes_modes()
    ensures { AttributesModes }
{}

/// Attributes that are listed of an entry's last bytes lie in the entry one after another, each string at its place with its end
/// byte, and the bytes after the list begin where they end.
pub fn attributes_inside()
    ensures { AttributesInside }
{}

/// Why a list ends: it has its count, or the bytes end behind an attribute, or the next one is refused, which is told.
pub fn attributes_stopped()
    ensures { AttributesStopped }
{}

/// By number the attribute of that place in the list is answered, past the last 14.
pub fn attributes_shown()
    ensures { AttributesShown }
{}

/// By name the first attribute is answered that has these very bytes, and 13 where none has.
pub fn attributes_named()
    ensures { AttributesNamed }
{}

/// A question for a name has one answer.
pub fn one_named()
    ensures { OneNamed }
{}

/// What is read of an attribute and what is refused, with its figures, by the bytes alone; and which end byte of some
/// attributes refuses.
pub fn attributes_read()
    ensures { AttributesRead }
{}

/// Why a block is refused, and how many good attributes stand at its start; why an attribute is not written, and how it is.
pub fn attributes_refused()
    ensures { AttributesRefused }
{}
