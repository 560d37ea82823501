// The theorem, as the contract of a function that does nothing.
ghost use Rattle.places.specs.Found.{AllFound};

/// A number finds the record before which so many stand, and a name the first that has it; else the refusals are 14 and 13.
pub fn all_found()
    ensures { AllFound }
{}
