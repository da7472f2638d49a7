// How far a dossier is.

// Which marks stand since the list of live assertions last changed: an accepting check, a tally, or both.
#[derive(Clone, Copy)]
pub enum Stage {
    Plain,
    Checked,
    Tallied,
    Ready,
}
