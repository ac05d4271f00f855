// The yearly share, or its refusal.
ghost use Rattle.std.specs.Prelude.{◌≡◌};
ghost use Rattle.amortization.specs.Share.{share_by};
ghost use Rattle.amortization.specs.Ranges.{InRange};
ghost use Rattle.amortization.specs.Refusals.{share_response};
ghost use Rattle.amortization.specs.Outcome.{response};

use crate::compounding::{Down, PRINCIPAL, Rounding, Up, growth};
use fractions::nearest;
use refusals::{Refusal, outside};

// The yearly share in units of 0.0001, from a rate in the same units and a term in years: two numbers here and below, as the C interface
// hands them over; a struct of both would be taken apart at once.
#[tactic(auto, using(crate::proofs::Given::share_fits), unfolding(refusals::specs::Response::respond))]
pub fn share(rate: u64, years: u64) -> Result<u16, Refusal>
    ensures { response result ≡ share_response rate years }
{
    if outside(rate, 1, 3_000) | outside(years, 2, 30) {
        return Err(Refusal::RateOrTerm);
    }
    let least = share_by::<Up>(rate, years);
    let most = share_by::<Down>(rate, years);
    if least == most {
        Ok(most as u16)
    } else {
        Err(Refusal::ShareUndecided)
    }
}

// The share by a growth that is rounded each year.
#[tactic(auto, using(crate::proofs::Enclosure::grown))]
fn share_by<R: Rounding>(rate: u64, years: u64) -> u64
    requires { InRange rate years }
    ensures { result ≡ share_by R.rounded rate years }
{
    let growth = growth::<R>(rate, years);
    nearest(rate * growth, growth - PRINCIPAL)
}
