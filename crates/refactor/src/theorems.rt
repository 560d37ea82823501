//! Theorems. Each is the contract of a function that does nothing, so that none goes unnoticed if its proof does.
ghost use Rattle.refactor.specs.Told.{BlocksRead};
ghost use Rattle.refactor.specs.Chains.{ChainsRefused};
ghost use Rattle.refactor.specs.Read.{RefactorsRead};
ghost use Rattle.refactor.specs.BlockMeant.{RefactorsRefused};
ghost use Rattle.refactor.specs.Modes.{EntriesReadBack, RefactorsModes, ChainsModes};
ghost use Rattle.refactor.specs.Inside.{RefactorsInside, ChainsCounted, RefactorsShown};
ghost use Rattle.refactor.specs.Fit.{RefactorsReadBack, RefactorBlocks, RefactorsFixed, RefactorBlocksMade, ChainsReadBack, EntriesWritten};

/// A block that passes is read wherever it stands, whatever follows it.
pub fn blocks_read()
    ensures { BlocksRead }
{}

/// What is written behind a count is a chain of that count to its end, its records are those of the block, and past the
/// count it is 14.
pub fn entries_read_back()
    ensures { EntriesReadBack }
{}

/// The modes agree where 0 follows the name of a record, and on a refusal; else the checked mode refuses by the end byte.
pub fn refactors_modes()
    ensures { RefactorsModes }
{}

/// The modes agree on a chain where 0 follows the name of every record that it meets; else the checked mode refuses by the
/// first end byte that is not 0.
pub fn chains_modes()
    ensures { ChainsModes }
{}

/// Records that are listed of an entry's last bytes lie in the entry one after another, each name at its place with its end byte.
pub fn refactors_inside()
    ensures { RefactorsInside }
{}

/// A chain has as many records as it counts, and each tells a follower exactly where others stand behind it; the bytes after it
/// begin where its records end.
pub fn chains_counted()
    ensures { ChainsCounted }
{}

/// A record that a chain meets and that is refused refuses the chain, whole, and nothing else does.
pub fn chains_refused()
    ensures { ChainsRefused }
{}

/// By number the record of that place in a list is answered, past the last 14.
pub fn refactors_shown()
    ensures { RefactorsShown }
{}

/// A record is written exactly where it fits its length field. Its bytes, with any bytes after them, are read as what was
/// written, and only they are taken.
pub fn refactors_read_back()
    ensures { RefactorsReadBack }
{}

/// Records one after another are a good block of their count, unless the last one's count says that another follows, and the
/// block tells them.
pub fn refactor_blocks()
    ensures { RefactorBlocks }
{}

/// A block is that of one list of records, as they are written.
pub fn refactors_fixed()
    ensures { RefactorsFixed }
{}

/// A block of bytes that passes is the block of the records that it tells.
pub fn refactor_blocks_made()
    ensures { RefactorBlocksMade }
{}

/// Every chain of records that fit is read back, in either mode, whatever follows it.
pub fn chains_read_back()
    ensures { ChainsReadBack }
{}

/// A block is written behind its count exactly where it is the block of records that fit, as many as the count says.
pub fn entries_written()
    ensures { EntriesWritten }
{}

/// What is read of a record and of a chain, and what is refused, with its figures, by the bytes alone.
pub fn refactors_read()
    ensures { RefactorsRead }
{}

/// Why a block is refused, and how many good records stand at its start; why a record, and a block behind its count, is not
/// written, and how it is.
pub fn refactors_refused()
    ensures { RefactorsRefused }
{}
