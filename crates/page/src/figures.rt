// The figures of a page.
ghost use Rattle.std.specs.Prelude.{◌≡◌};
ghost use Rattle.audit.specs.Pages.{share as share_of_margin, sample as sample_by_margin};

// The margin as a part of what all ballots at half are worth, in hundredths of a percent, rounded down; 0 where that
// is worth nothing.
pub fn share(half: u32, margin: u64, ballots: u32) -> u128
    ensures { result ≡ share_of_margin half margin ballots }
{
    let worth = u128::from(half) * u128::from(ballots);
    (10000 * u128::from(margin)).checked_div(worth).unwrap_or(0)
}

// How many ballots to pull for a margin, rounded up, the factor being in thousandths; never more than there are, and
// 0 where the margin is 0.
pub fn sample(factor: u32, top: u32, margin: u64, ballots: u32) -> u32
    ensures { result ≡ sample_by_margin factor top margin ballots }
{
    if margin == 0 {
        return 0;
    }
    let product = u128::from(factor) * u128::from(top) * u128::from(ballots);
    let pulled = product.div_ceil(2000 * u128::from(margin));
    // By `as`, since it is no more than `ballots`, and `try_from` would have to be unwrapped.
    pulled.min(u128::from(ballots)) as u32
}
