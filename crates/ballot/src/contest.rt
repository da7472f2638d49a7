// A contest: how many candidates stand.
ghost use Rattle.std.specs.Prelude.{◌≤◌};

pub mod methods;

// Candidates are numbered from 1 to `candidates`. No model, since the laws of sources cite a contest's own `proper`.
#[derive(Clone, Copy)]
pub struct Contest {
    candidates: u32,
    ghost proper: { (2 ≤ candidates) × (candidates ≤ 16) },
}
