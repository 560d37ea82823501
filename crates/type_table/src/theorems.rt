//! The theorems about tables of data types. Each is the contract of a function that does nothing, so that none goes unnoticed if its proof does.

ghost use Rattle.type_table.specs.Aligned.{TypeTablesMeant};
ghost use Rattle.type_table.specs.Levels.{RowsMeant};
ghost use Rattle.type_table.specs.Sample.{TableTold};

/// The data type in which every number is another, byte by byte, as a table.
pub fn table_told()
    ensures { TableTold }
{}

/// The rows of a data type stay the same with more levels than it has. An accepted one has 16 at most, and so all its members have a
/// row, at whatever depth: as many rows as members, and one for itself.
pub fn rows_meant()
    ensures { RowsMeant }
{}

/// In the table of data types each column begins at the same character in every row and is wide enough for each of its cells, of which
/// all characters stand there; between two columns are two spaces, and only spaces are left out at the end of a row.
pub fn type_tables_meant()
    ensures { TypeTablesMeant }
{}
