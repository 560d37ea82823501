//! What the members of a data type are, by its bytes. There is nothing to run: each theorem is the contract of a function that does
//! nothing, so that none goes unnoticed if its proof does.
#![tactic(auto)]

ghost use Rattle.data_type.specs.Refused.{TypesRefused};
ghost use Rattle.data_type.specs.Stand.{TypesStand};
ghost use Rattle.data_type.specs.Meaning.{TypesMeant};
ghost use Rattle.data_type.specs.Chain.{TypesNest};
ghost use Rattle.data_type.specs.Ends.{TypesChecked};
ghost use Rattle.data_type.specs.Theorems.{TypesAsFields, ArraysMeant};
ghost use Rattle.data_type.specs.Told.{TypesAnywhere};

/// Exactly what stands in the bytes as the layout says is read as a data type, as it stands.
pub fn types_stand()
    ensures { TypesStand }
{}

/// The members of a data type that is read are the entries within its bytes, the path of each tells what it lies in, and all ways to ask
/// for them tell the same.
pub fn types_meant()
    ensures { TypesMeant }
{}

/// What is read as a data type is read as a field, with the same record.
pub fn types_as_fields()
    ensures { TypesAsFields }
{}

/// An array record by its number is what stands behind the strings, 8 bytes each; past their count it is 14.
pub fn arrays_meant()
    ensures { ArraysMeant }
{}

/// The modes answer alike where all end bytes that are met are 0; else the checked mode tells the first that is not, with its place. So
/// what the checked mode reads the present mode reads alike.
pub fn types_checked()
    ensures { TypesChecked }
{}

/// Entries one inside another are read to a depth of 16, and refused as too deep from 17 on.
pub fn types_nest()
    ensures { TypesNest }
{}

/// Bytes are refused exactly by the fault that is the first that is met, with its figures.
pub fn types_refused()
    ensures { TypesRefused }
{}

/// What a data type tells does not depend on where it lies in memory.
pub fn types_anywhere()
    ensures { TypesAnywhere }
{}
