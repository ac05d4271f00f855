// An answer, and its eight bytes.
#![tactic(auto)]

ghost use Rattle.std.specs.Prelude.{◌≡◌};
ghost use Rattle.answer.specs.Answer.{pass_code, shape_code, check_code, loss_code, encoded};

use lengths::Thickness;
use line::Shape;
use temperatures::Temperature;
use verdict::Verdict;

// The pass that gives the thickness: a sheet that has to respect the loss limit may take a second one.
#[derive(Clone, Copy, Debug, PartialEq, Eq)]
pub enum Pass {
    First,
    Second,
}

// The thickness, with the pass that gives it and its two checks, that of the loss where a limit is printed, and the bound on the surface's
// temperature: an upper one on a hot line, a lower one on a cold one.
#[derive(Clone, Copy, Debug, PartialEq, Eq)]
pub struct Answer {
    pub pass: Pass,
    pub shape: Shape,
    pub thickness: Thickness,
    pub loss: Option<Verdict>,
    pub surface: Verdict,
    pub bound: Temperature,
}

impl Answer {
    // The eight bytes. Not a `From`: one with `Sheet::decode`, which takes a slice.
    #[tactic(auto, unfolding(big_endian::specs::Bytes::bytes_of, crate::specs::Answer::encoded))]
    pub fn encode(self) -> [u8; 8]
        ensures { result ≡ encoded self }
    {
        let thickness = self.thickness.0.to_be_bytes();
        let bound = self.bound.encode().to_be_bytes();
        [
            pass_code(self.pass),
            shape_code(self.shape),
            thickness[0],
            thickness[1],
            loss_code(self.loss),
            check_code(self.surface),
            bound[0],
            bound[1],
        ]
    }
}

// These codes are the bytes' alone, so they are not the discriminants of the enums, of which other crates declare two.
fn pass_code(pass: Pass) -> u8
    ensures { result ≡ pass_code pass }
{
    match pass {
        Pass::First => 0,
        Pass::Second => 1,
    }
}

fn shape_code(shape: Shape) -> u8
    ensures { result ≡ shape_code shape }
{
    match shape {
        Shape::Cylinder => 1,
        Shape::Flat => 2,
    }
}

fn check_code(verdict: Verdict) -> u8
    ensures { result ≡ check_code verdict }
{
    match verdict {
        Verdict::Sufficient => 0,
        Verdict::Insufficient => 1,
        Verdict::Undecided => 2,
    }
}

fn loss_code(check: Option<Verdict>) -> u8
    ensures { result ≡ loss_code check }
{
    check.map_or(3, check_code)
}
