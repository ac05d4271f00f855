// The call that answers a sheet.
ghost use Rattle.std.specs.Prelude.{◌≡◌, ◌≤◌, ◌<◌, cond, IfOk, IfErr, Some, None};
ghost use Rattle.verdict.specs.declared.Verdict.TheVariants.{Insufficient};
ghost use Rattle.verdict.specs.Choice.{verdict_for, searched};
ghost use Rattle.lengths.specs.Ladder.{thickness_at, rungs};
ghost use Rattle.refusals.specs.Cases.{NoneHolds, FirstHolds};
ghost use Rattle.refusals.specs.Numbers.{number_of};
ghost use Rattle.refusals.specs.Response.{respond};
ghost use Rattle.provision.specs.Provided.{provided};
ghost use Rattle.sheet.specs.Sheet.{goal_of};
ghost use Rattle.sheet.specs.Checks.{loss_check};
ghost use Rattle.sheet.specs.Passes.{check_between, deciding_pass, chosen};
ghost use Rattle.answer.specs.Answer.{encoded};
ghost use Rattle.sheet.specs.Answer.{answer_of};
ghost use Rattle.sheet.specs.Refusals.{value_cases, ladder_cases, response_as, response_to};
ghost use Rattle.outcome.specs.Outcome.{response};
ghost use Rattle.outcome.specs.Pass.{passed, pass_by, next};

use answer::{Answer, Pass};
use checks::AdmittedSheet;
use fractions::Bounds;
use kinds::Kind;
use lengths::Ladder;
use provision::Provision;
use refusals::Refusal;
use requirement::required;
use sheet::Sheet;
use verdict::{Rung, Verdict, search};

// Works out the standard sheet that these bytes are.
pub fn work_out(bytes: &[u8]) -> Result<Answer, Refusal>
    ensures { response result ≡ response_to bytes.now }
{
    work_out_as(Kind::Standard, bytes)
}

// Works out the sheet of a kind that these bytes are.
#[tactic(auto, unfolding(refusals::specs::Response::respond))]
pub fn work_out_as(kind: Kind, bytes: &[u8]) -> Result<Answer, Refusal>
    ensures { response result ≡ response_as kind bytes.now }
{
    let wrong = bytes.len() != kind.sheet_size();
    if wrong {
        return Err(Refusal::SheetLength);
    }
    let sheet = admit(Sheet::decode(kind, bytes))?;
    search_ladder(sheet)
}

// Admits a sheet by its fields: the tests, in the order of the refusals.
#[tactic(auto, unfolding(refusals::specs::Cases::NoneHolds, refusals::specs::Cases::FirstHolds))]
fn admit(sheet: Sheet) -> Result<AdmittedSheet, Refusal>
    requires { sheet.aim ≤ 65_535 }
    ensures admitted { IfOk result (λ a. (a.sheet ≡ sheet) × NoneHolds (value_cases sheet)) }
    ensures refused { IfErr result (λ why. FirstHolds (number_of why) (value_cases sheet)) }
{
    let unknown = sheet.fault(Refusal::UnknownCode).is_some();
    if unknown {
        return Err(Refusal::UnknownCode);
    }
    let outside = sheet.fault(Refusal::OutOfRange).is_some();
    if outside {
        return Err(Refusal::OutOfRange);
    }
    let not_zero = sheet.fault(Refusal::NotZero).is_some();
    if not_zero {
        return Err(Refusal::NotZero);
    }
    let driven = sheet.flow.beyond(sheet.temperature, sheet.ambient);
    if !driven {
        return Err(Refusal::NoDrivingDifference);
    }
    let invalid = sheet.invalid_aim();
    if invalid {
        return Err(Refusal::InvalidAim);
    }
    let flat = sheet.flat_with_jacket();
    if flat {
        return Err(Refusal::NotCylinder);
    }
    Ok(AdmittedSheet::of(sheet))
}

// Tries the ladder by the sheet's own goal and, where that respects the loss limit and the loss check says over, once more.
fn search_ladder(sheet: AdmittedSheet) -> Result<Answer, Refusal>
    ensures { response result ≡ respond (ladder_cases sheet.sheet) (encoded (answer_of sheet.sheet (chosen sheet.sheet))) }
{
    let prepared = Provision::of(sheet.at.line);
    let first = first_pass(sheet, prepared)?;
    let loss = sheet.loss_check(first.provided);
    match next_pass(sheet.sheet.respects_limit, loss)? {
        Pass::First => Ok(answer_of(sheet, Pass::First, first, loss)),
        Pass::Second => second_pass(sheet, prepared),
    }
}

// The first pass, by the sheet's own goal.
#[inline(always)]
fn first_pass(sheet: AdmittedSheet, prepared: Provision) -> Result<Rung, Refusal>
    requires { prepared.line ≡ sheet.at.line }
    ensures { result ≡ pass_by sheet.sheet (goal_of sheet.sheet) }
{
    match sheet.jacketed() {
        Some(pipe) => meeting(pipe.search(prepared)),
        None => meeting(search(prepared, required(sheet.at, sheet.goal()))),
    }
}

// The pass that decides, by the loss check of the first one's rung; 18 where that is too close.
fn next_pass(respects_limit: bool, loss: Option<Verdict>) -> Result<Pass, Refusal>
    ensures { result ≡ next (cond respects_limit loss None) }
{
    match loss {
        Some(Verdict::Insufficient) if respects_limit => Ok(Pass::Second),
        Some(Verdict::Undecided) if respects_limit => Err(Refusal::TooClose),
        _ => Ok(Pass::First),
    }
}

// The second pass, by 90 per cent of the loss limit.
fn second_pass(sheet: AdmittedSheet, prepared: Provision) -> Result<Answer, Refusal>
    requires { (prepared.line ≡ sheet.at.line) × (check_between sheet.sheet ≡ Some Insufficient) }
    ensures { response result ≡ respond (ladder_cases sheet.sheet) (encoded (answer_of sheet.sheet (chosen sheet.sheet))) }
{
    let need = required(sheet.at, sheet.second_goal());
    let rung = meeting(search_apart(prepared, need))?;
    let loss = sheet.loss_check(rung.provided);
    Ok(answer_of(sheet, Pass::Second, rung, loss))
}

// The first rung that does not miss has to meet.
fn meeting(found: Option<Rung>) -> Result<Rung, Refusal>
    ensures { result ≡ passed found }
{
    let first = found.ok_or(Refusal::NoneSufficient)?;
    let open = first.verdict.is_undecided();
    if open {
        return Err(Refusal::TooClose);
    }
    Ok(first)
}

// The search as a function of its own, for the second pass. The first pass, which all admitted sheets take, has it inlined.
#[inline(never)]
fn search_apart(prepared: Provision, need: Bounds) -> Option<Rung>
    ensures { result ≡ searched prepared.line.line (verdict_for prepared.line.line need) }
{
    search(prepared, need)
}

// The answer with a rung, by the pass that found it.
#[tactic(auto, using(provision::proofs::Sizes::provided_size), unfolding(sheet::specs::Answer::answer_of))]
fn answer_of(sheet: AdmittedSheet, pass: Pass, rung: Rung, loss: Option<Verdict>) -> Answer
    requires decides { pass ≡ deciding_pass sheet.sheet }
    requires found { (rung.index < rungs) × (rung.provided ≡ provided sheet.sheet.line (thickness_at rung.index)) }
    requires checked { loss ≡ loss_check sheet.sheet rung.provided }
    ensures { result ≡ answer_of sheet.sheet rung.index }
{
    Answer {
        pass,
        shape: sheet.sheet.line.shape(),
        thickness: Ladder::thickness(rung.index),
        loss,
        surface: sheet.surface_check(rung.provided),
        bound: sheet.surface_bound(rung.provided),
    }
}
