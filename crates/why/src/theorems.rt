//! Theorems. Each is the contract of a function that does nothing, so that none goes unnoticed if its proof does.
ghost use Rattle.why.specs.Meant.{ReasonsTrue, ReasonsOne, ReasonsRefused};
ghost use Rattle.why.specs.Shown.{ReasonsShown};

/// The reasons that are answered of an accepted symbol are true of the bytes of its claim, by what each says of them; they are the same where the checked mode accepts it.
pub fn reasons_true()
    ensures { ReasonsTrue }
{}

/// Of one entry exactly one reason is true of each section: two that are true are equal, figures included.
pub fn reasons_one()
    ensures { ReasonsOne }
{}

/// As many attributes and records are shown as the reasons say, and the sections stand where the symbol's reader has them.
pub fn reasons_shown()
    ensures { ReasonsShown }
{}

/// What is refused is what the reader refuses, alike.
pub fn reasons_refused()
    ensures { ReasonsRefused }
{}
