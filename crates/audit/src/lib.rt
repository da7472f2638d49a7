// What it means to work a dossier: its records, its stages and what a check says. The definitions of the calls, of the
// page and of a history stand in specs/, and the function here says by its contract which laws of them are proved.
#![tactic(auto)]

ghost use Rattle.audit.specs.Laws.{EveryHistory};

pub mod records;
pub mod stage;
pub mod verdict;

// Over every history of a dossier each reply follows from the events, a check is exact, and no plan is answered for a
// winner who could lose.
pub fn histories_plan_for_no_loser()
    ensures { EveryHistory }
{}
