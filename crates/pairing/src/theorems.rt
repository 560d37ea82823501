//! The theorems (docs/FORMAT.md, "The command's text"). Each is the contract of a function that does nothing, so that none goes unnoticed if its proof does.
#![tactic(auto)]

ghost use Rattle.pairing.specs.Alike.{AlikeMeant};
ghost use Rattle.pairing.specs.Rules.{RulesMeant};
ghost use Rattle.pairing.specs.Told.{RowsMeant};

/// In the rows every piece of A stands once, in A's order, and every piece of B once; what B has alone stands right behind what stands before it in B, its first before all else; and where both stand in a row they are one entry: of one name letter by letter, in any case; refused, in the same bytes; at one place, and as long or one of them refused; or as long. Names go before places: of an entry of A and one of B that are named alike, one at least is told with one named like it, so no name is left over in both.
pub fn rows_meant()
    ensures { RowsMeant }
{}

/// A piece of A and one of B that are named alike, at one place and as long are told in one row; and so are two at one place, as long or one of them refused, unless one of them is told with one named like it. Of several of one name the first goes with the first, in either upload: where two go together by their name alone, an earlier one of that name goes with an earlier one, or with the one at its place that is as long. What is told in one row and is neither named alike nor at one place is as long, and stands right behind two that are told in one row; and two that stand so are told in one row, unless one of them is told with one named like it or at its place. So names go before places, places before neighbours, and none leaves over two that it would pair.
pub fn rules_meant()
    ensures { RulesMeant }
{}

/// Two uploads that are read in one mode are alike exactly where they have the same bytes.
pub fn alike_meant()
    ensures { AlikeMeant }
{}
