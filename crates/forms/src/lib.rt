// How ballots are written as text. The definitions stand in specs/, and each function here says by its
// contract which laws of them are proved.
#![tactic(auto)]

ghost use Rattle.forms.specs.Texts.{OneOutcome};

// Each text has one outcome only.
pub fn texts_have_one_outcome()
    ensures { OneOutcome }
{}
