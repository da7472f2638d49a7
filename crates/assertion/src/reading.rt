// What a ranking says of two candidates.
ghost use Rattle.std.specs.Prelude.{◌≡◌, not, ◌&&◌};
ghost use Rattle.irv.specs.Ballots.{mem};
ghost use Rattle.irv.specs.Assertions.{ranked_first, ahead};

// Whether `winner` is ranked first.
pub(crate) fn is_first(ranked: &[u32], winner: u32) -> bool
    ensures { result ≡ ranked_first winner ranked.now }
{
    ranked.first() == Some(&winner)
}

// Whether `loser` is ranked, and `winner` is not ahead of it.
pub(crate) fn is_not_ahead(ranked: &[u32], winner: u32, loser: u32) -> bool
    ensures { result ≡ (mem loser ranked.now && not (ahead winner loser ranked.now)) }
{
    let first = ranked.iter().find(|c| **c == winner || **c == loser);
    first == Some(&loser)
}
