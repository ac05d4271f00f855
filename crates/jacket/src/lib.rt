// Economy that counts the jacket by the square metre, on a cylinder: what is required depends on the rung.
#![tactic(auto)]

ghost use Rattle.std.specs.Prelude.{◌≡◌, ◌+◌, ◌*◌, ◌^◌, ◌≤◌, ◌<◌};
ghost use Rattle.fractions.specs.Fraction.{◌over◌};
ghost use Rattle.requirement.specs.Ranges.{EconomyInRange};
ghost use Rattle.verdict.specs.Verdict.{judged_by_squares, judged_by, verdict_of};
ghost use Rattle.verdict.specs.Choice.{rung, searched};
ghost use Rattle.provision.specs.Provided.{provided};
ghost use Rattle.jacket.specs.Jacket.{jacketed};

use fractions::Bounds;
use lengths::{Ladder, Thickness};
use line::OperatingLine;
use provision::Provision;
use requirement::EconomyTerms;
use verdict::{Rung, Verdict};

// A pipe in operation, its economy terms, the price of its jacket in yuan/m², and 1,000 fLτΔ, which is the same at every thickness.
#[derive(Clone, Copy, Debug, PartialEq, Eq)]
pub struct JacketedPipe {
    pub at: OperatingLine,
    pub terms: EconomyTerms,
    pub jacket: u64,
    pub heat_cost: u64,
    pub ghost cylinder: { at.line.line.diameter.0 ≤ 10_000 },
    pub ghost terms_in_range: { EconomyInRange terms },
    pub ghost jacket_to: { jacket ≤ 65_535 },
    pub ghost heat_cost_is: { heat_cost ≡ 1000 * (terms.heat * at.line.line.conductivity * terms.hours * at.difference) },
}

impl JacketedPipe {
    #[tactic(auto, using(requirement::proofs::Sizes::economy_sizes))]
    pub fn of(at: OperatingLine, terms: EconomyTerms, jacket: u64) -> JacketedPipe
        requires { (at.line.line.diameter.0 ≤ 10_000) × EconomyInRange terms × (jacket ≤ 65_535) }
        ensures { (result.at ≡ at) × (result.terms ≡ terms) × (result.jacket ≡ jacket) }
    {
        JacketedPipe {
            at,
            terms,
            jacket,
            heat_cost: 1000
                * (terms.heat * at.line.line.conductivity * terms.hours * at.difference),
        }
    }

    // Searches the ladder for the first rung that does not miss, from rung 0 up: rungs above it may miss again, so that a trial tells
    // nothing of the rungs beyond it. It is not inlined, so that the code for the other goals stays as it was.
    #[inline(never)]
    pub fn search(self, prepared: Provision) -> Option<Rung>
        requires { prepared.line ≡ self.at.line }
        ensures { let line = self.at.line.line in
            result ≡ searched line (verdict_of line (jacketed line self.at.difference self.terms self.jacket)) }
    {
        let mut r = 0;
        'ladder: while r < Ladder::count() {
            let rung = self.trial(prepared, r);
            if rung.verdict.not_insufficient() {
                return Some(rung);
            }
            r += 1;
        }
        None
    }

    // A rung, with what it provides and the verdict on it.
    fn trial(self, prepared: Provision, r: u64) -> Rung
        requires { prepared.line ≡ self.at.line }
        ensures { let line = self.at.line.line in
            result ≡ rung line (verdict_of line (jacketed line self.at.difference self.terms self.jacket)) r }
    {
        let k = Ladder::thickness(r);
        let provided = prepared.at(k);
        Rung {
            index: r,
            provided,
            verdict: self.judge(k, provided),
        }
    }

    // The verdict on a thickness that provides p, with all fractions cleared. E, by which both sides would then be multiplied, is left out:
    // have² × (PE + 20,000 × the jacket's price) S α is compared with 1,000 fLτΔ × 14,402,025 (αE − 200L). 200L / α is the critical
    // diameter of insulation, and only above it is the difference positive.
    fn judge(self, k: Thickness, p: Bounds) -> Verdict
        requires { (k.0 ≤ 300) × (p ≡ provided self.at.line.line k) }
        ensures { result ≡ judged_by p (jacketed self.at.line.line self.at.difference self.terms self.jacket k) }
    {
        let line = self.at.line.line;
        let e = line.diameter.outer(k).0;
        let outer = line.coefficient * e;
        let critical = 200 * line.conductivity;
        let positive = critical < outer;
        if !positive {
            return Verdict::Insufficient;
        }
        let heat = (self.heat_cost as u128) * ((14_402_025 * (outer - critical)) as u128);
        let insulation = self.insulation_cost(e) * line.coefficient;
        judge_squares(p, heat, insulation)
    }

    // (PE + 20,000 × the jacket's price) S: E times a year's share of what insulation costs per m³ with its jacket.
    fn insulation_cost(self, e: u64) -> u64
        requires { e ≤ 16_000 }
        ensures { (result ≡ (self.terms.insulation * e + 20_000 * self.jacket) * self.terms.share) × (result ≤ 65_535 * 36_000 * 10_000) }
    {
        (self.terms.insulation * e + 20_000 * self.jacket) * self.terms.share
    }
}

// The verdict where the square of have is compared with num / den.
fn judge_squares(p: Bounds, num: u128, den: u64) -> Verdict
    requires { (p.lower * p.lower * den < 2 ^ 128) × (p.upper * p.upper * den < 2 ^ 128) }
    ensures { result ≡ judged_by_squares p (num over den) }
{
    let den = den as u128;
    if num <= square(p.lower) * den {
        return Verdict::Sufficient;
    }
    if square(p.upper) * den < num {
        return Verdict::Insufficient;
    }
    Verdict::Undecided
}

fn square(n: u64) -> u128
    ensures { result ≡ n * n }
{
    (n as u128) * (n as u128)
}
