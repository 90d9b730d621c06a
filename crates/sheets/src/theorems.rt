// What holds of every sheet: each function's contract is a theorem, for every kind of weights that shows the laws.
ghost use Rattle.sheets.specs.Claims.{NoFault, OneFault, SheetRight, SheetTold};

use weights::weight::Weight;

// Bytes have at most one first fault.
pub fn one_fault<W: Weight>()
    ensures { OneFault W.Weight }
{}

// A right sheet has none.
pub fn no_fault<W: Weight>()
    ensures { NoFault W.Weight }
{}

// The sheet of a plan within the rules is right.
pub fn sheet_is_right<W: Weight>()
    ensures { SheetRight W.Weight }
{}

// A sheet is that of one plan and one issue only.
pub fn sheet_is_told<W: Weight>()
    ensures { SheetTold W.Weight }
{}
