// The fields of a sheet's bytes.
ghost use Rattle.std.specs.Prelude.{◌≡◌, ◌≤◌, length};
ghost use Rattle.kinds.specs.Kind.{sheet_size};
ghost use Rattle.sheet.specs.Sheet.{goal_code, flow_of, respects_limit, counts_jacket, uses_economy, uses_aim, decoded_as};

use big_endian::unsigned;
use heat_flow::HeatFlow;
use kinds::Kind;
use lengths::Diameter;
use line::Line;
use requirement::EconomyTerms;
use temperatures::Temperature;

// The kind of goal by its code: 1, 5, 6 and 7 economy, 2 loss, and every other surface.
#[derive(Clone, Copy, Debug, PartialEq, Eq)]
pub enum GoalCode {
    ForEconomy,
    ForLoss,
    ForSurface,
}

impl GoalCode {
    // Not a `TryFrom`: every code has a reading, since refusal 12 is of the number as it is written. Nor a `From`, since this and `flow_of`
    // are two readings of one number. Comparisons and no `match`: of a `match` the compiler makes jumps, and a refused sheet of mixed goals
    // takes a quarter longer.
    pub(crate) fn of(code: u64) -> GoalCode
        ensures { result ≡ goal_code code }
    {
        let economy = (code == 1) | (code == 5) | (code == 6) | (code == 7);
        if economy {
            return GoalCode::ForEconomy;
        }
        if code == 2 {
            return GoalCode::ForLoss;
        }
        GoalCode::ForSurface
    }

    // Does the goal use the prices, the hours and the yearly share?
    pub(crate) fn uses_economy(self) -> bool
        ensures { result ≡ uses_economy self }
    {
        matches!(self, GoalCode::ForEconomy)
    }

    // Does it use the aim? Economy does where it counts the jacket.
    pub(crate) fn uses_aim(self, counts_jacket: bool) -> bool
        ensures { result ≡ uses_aim counts_jacket self }
    {
        match self {
            GoalCode::ForEconomy => counts_jacket,
            GoalCode::ForLoss | GoalCode::ForSurface => true,
        }
    }
}

// The direction of the heat's flow by a goal's code: inward for 4 and 5. A function, as `GoalCode::of` is.
fn flow_of(code: u64) -> HeatFlow
    ensures { result ≡ flow_of code }
{
    match code {
        4 | 5 => HeatFlow::Inward,
        _ => HeatFlow::Outward,
    }
}

// Does the goal of a code respect the loss limit? Goal 6 does.
fn respects_limit(code: u64) -> bool
    ensures { result ≡ respects_limit code }
{
    code == 6
}

// Does the goal of a code count the jacket? Goal 7 does.
fn counts_jacket(code: u64) -> bool
    ensures { result ≡ counts_jacket code }
{
    code == 7
}

// The goal's code as it is written and as it is read, the direction of the heat's flow, whether the goal respects the loss limit and
// whether it counts the jacket, the service, the insulated line, the temperatures t of the pipe and ta of the air, the economy terms, and
// the aim as it is written. Any bytes of the right length are a sheet, so code and service are numbers: refusal 12 is of a number that is no
// goal or service.
#[derive(Clone, Copy, Debug, PartialEq, Eq)]
pub struct Sheet {
    pub code: u64,
    pub goal: GoalCode,
    pub flow: HeatFlow,
    pub respects_limit: bool,
    pub counts_jacket: bool,
    pub service: u64,
    pub line: Line,
    pub temperature: Temperature,
    pub ambient: Temperature,
    pub economy: EconomyTerms,
    pub aim: u64,
}

impl Sheet {
    // The sheet of a kind that bytes of its length are. No `From`: a slice may have any length, which the call tests.
    #[tactic(auto, unfolding(crate::specs::Sheet::decoded_as))]
    pub fn decode(kind: Kind, bytes: &[u8]) -> Sheet
        requires { length bytes.now ≡ sheet_size kind }
        ensures fields { result ≡ decoded_as kind bytes.now }
        ensures aim_to { result.aim ≤ 65_535 }
    {
        let longer = kind.longer();
        let code = bytes[0] as u64;
        Sheet {
            code,
            goal: GoalCode::of(code),
            flow: flow_of(code),
            respects_limit: respects_limit(code),
            counts_jacket: counts_jacket(code),
            service: bytes[1] as u64,
            line: Line {
                diameter: Diameter(unsigned(bytes, 4 + longer)),
                conductivity: unsigned(bytes, 10 + longer),
                coefficient: unsigned(bytes, 12 + longer),
            },
            temperature: Temperature::decode(unsigned(bytes, 6 + longer)),
            ambient: Temperature::decode(unsigned(bytes, 8 + longer)),
            economy: EconomyTerms {
                heat: unsigned(bytes, 14 + longer),
                hours: unsigned(bytes, 16 + longer),
                insulation: unsigned(bytes, 18 + longer),
                share: unsigned(bytes, 20 + longer),
            },
            aim: unsigned(bytes, 22 + longer),
        }
    }
}
