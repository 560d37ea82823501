//! The theorems. Each is the contract of a function that does nothing, so that none goes unnoticed if its proof does.
ghost use Rattle.why_report.specs.Sentences.{SentencesMeant};
ghost use Rattle.why_report.specs.Written.{ReasonsWritten};

/// Each reason's sentence, word for word, with every figure different; and the bytes below it, 16 of them where more are left.
pub fn sentences_meant()
    ensures { SentencesMeant }
{}

/// The four sections are told in the order in which they stand in an entry; the last line stands exactly where each is not flagged or shown whole.
pub fn reasons_written()
    ensures { ReasonsWritten }
{}
