// What changes a dossier's stage, and what is asked of it.

// An assertion was entered or withdrawn, a check accepted, or ballots were tallied.
#[derive(Clone, Copy)]
pub(crate) enum StageEvent {
    Entered,
    Withdrawn,
    Accepted,
    Tallied,
}

// A plan, or the margin of one assertion.
#[derive(Clone, Copy)]
pub(crate) enum StageQuestion {
    Plan,
    Margin,
}
