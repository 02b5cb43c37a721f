// Worked figures of the trade, as one theorem about the definitions of all crates.
#![tactic(auto)]

ghost use Rattle.figures.specs.Figures.{Figures};

// The definitions give the trade's worked figures.
pub fn figures_stand()
    ensures { Figures }
{}
