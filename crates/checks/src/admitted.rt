// A sheet that none of the refusals 12 to 16 and 43 sends back.
ghost use Rattle.std.specs.Prelude.{◌≡◌, ◌≤◌, ◌&&◌, is_some, true, IfSome};
ghost use Rattle.limits.specs.Limits.{loss_limit};
ghost use Rattle.limits.specs.Printed.{printed};
ghost use Rattle.answer.specs.declared.Pass.TheVariants.{Second};
ghost use Rattle.sheet.specs.Sheet.{uses_economy, difference, goal_of};
ghost use Rattle.sheet.specs.Admitted.{Admitted};
ghost use Rattle.sheet.specs.Passes.{goal_in};
ghost use Rattle.sheet.proofs.OneProof.{one_proof};

use jacket::JacketedPipe;
use limits::loss_limit;
use line::{CheckedLine, OperatingLine};
use requirement::Goal;
use sheet::{GoalCode, Sheet};

// The sheet, its line at Δ, and the loss limit at its temperature, where one is printed.
#[derive(Clone, Copy, Debug, PartialEq, Eq)]
pub struct AdmittedSheet {
    pub sheet: Sheet,
    pub at: OperatingLine,
    pub limit: Option<u64>,
    pub ghost admitted: { Admitted sheet } by { one_proof sheet },
    pub ghost aim_to: { sheet.aim ≤ 65_535 },
    pub ghost line_is: { at.line.line ≡ sheet.line },
    pub ghost difference_is: { at.difference ≡ difference sheet },
    pub ghost limit_is: { limit ≡ printed (loss_limit sheet.service sheet.temperature) },
}

impl AdmittedSheet {
    // This and `jacketed` are inlined, so that no sheet is copied.
    #[inline(always)]
    pub fn of(sheet: Sheet) -> AdmittedSheet
        requires admitted { Admitted sheet }
        requires aim_to { sheet.aim ≤ 65_535 }
        ensures { result.sheet ≡ sheet }
    {
        let line = CheckedLine { line: sheet.line };
        let difference = sheet.flow.difference(sheet.temperature, sheet.ambient);
        AdmittedSheet {
            sheet,
            at: OperatingLine { line, difference },
            limit: loss_limit(sheet.service, sheet.temperature),
        }
    }

    // The goal, with what it uses.
    pub fn goal(self) -> Goal
        ensures { result ≡ goal_of self.sheet }
    {
        let sheet = self.sheet;
        match sheet.goal {
            GoalCode::ForEconomy => Goal::Economy(sheet.economy),
            GoalCode::ForLoss => Goal::Loss(sheet.aim),
            GoalCode::ForSurface => Goal::Surface(
                sheet.flow.difference(sheet.surface_aim(), sheet.ambient),
            ),
        }
    }

    // The pipe with its jacket, where the goal counts it.
    #[inline(always)]
    pub fn jacketed(self) -> Option<JacketedPipe>
        ensures counted { is_some result ≡ (uses_economy self.sheet.goal && self.sheet.counts_jacket) }
        ensures terms { IfSome result (λ p. (p.at ≡ self.at) × (p.terms ≡ self.sheet.economy) × (p.jacket ≡ self.sheet.aim)) }
    {
        let sheet = self.sheet;
        match sheet.goal {
            GoalCode::ForEconomy if sheet.counts_jacket => Some(JacketedPipe::of(
                self.at,
                sheet.economy,
                sheet.aim,
            )),
            _ => None,
        }
    }

    // The goal of a second pass: 90 per cent of the loss limit, rounded down.
    #[tactic(auto, using(limits::proofs::Size::printed_size))]
    pub fn second_goal(self) -> Goal
        requires { is_some self.limit ≡ true }
        ensures { result ≡ goal_in self.sheet Second }
    {
        Goal::Loss(self.limit.unwrap() * 90 / 100)
    }
}
