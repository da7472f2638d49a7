// What instant-runoff counting means. The definitions stand in specs/, and each function here says by
// its contract which laws of them are proved.
#![tactic(auto)]

ghost use Rattle.irv.specs.AssertionLaws.{AssertionLaws};
ghost use Rattle.irv.specs.Endings.{SearchLaws};
ghost use Rattle.irv.specs.Laws.{SetLaws, TallyLaws, OrderLaws};

// A set of candidates is told by its members alone.
pub fn sets_are_their_members()
    ensures { SetLaws }
{}

// Who is out has no ballots, and nobody has more than all.
pub fn tallies_stay_within_the_ballots()
    ensures { TallyLaws }
{}

// An order holds as many candidates as stand, and at each step somebody else stands too.
pub fn orders_hold_every_member_once()
    ensures { OrderLaws }
{}

// A search for the first order that a rule does not contradict has one answer, found after one number of endings.
pub fn searches_have_one_answer()
    ensures { SearchLaws }
{}

// An assertion that fits its contest keeps within its bounds, and with a margin above 0 it rules out no step
// of a count of the ballots. Where a list of such assertions contradicts each order that elects another
// than the winner, every count elects the winner.
pub fn margins_above_zero_rule_out_rightly()
    ensures { AssertionLaws }
{}
