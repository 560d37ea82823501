//! The theorems about the lines of data types. Each is the contract of a function that does nothing, so that none goes unnoticed if its proof does.

ghost use Rattle.type_report.specs.Levels.{ObjectsMeant};
ghost use Rattle.type_report.specs.Sample.{SampleTold};

/// A data type in which every number is another, byte by byte, and the line that is written of it.
pub fn sample_told()
    ensures { SampleTold }
{}

/// The text of a data type stays the same with more levels than it has. An accepted one has 16 at most, and so all its members
/// stand in its line, at whatever depth.
pub fn objects_meant()
    ensures { ObjectsMeant }
{}
