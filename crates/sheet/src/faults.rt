// What is wrong with a sheet, before a thickness is sought.
ghost use Rattle.std.specs.Prelude.{◌≡◌, ◌&&◌, ltb, [], ◌∷◌, ◌++◌, if◌then◌else◌};
ghost use Rattle.refusals.specs.Numbers.{number_of};
ghost use Rattle.sheet.specs.Sheet.{uses_economy, uses_aim, surface_aim};
ghost use Rattle.sheet.specs.Fields.{unused, used_if, codes, line_fields, economy_fields, fields, first_fault};
ghost use Rattle.sheet.specs.Refusals.{aim_refused};

use crate::{GoalCode, Sheet};
use refusals::{Refusal, outside};
use temperatures::Temperature;

// A field: its offset in 01's table, its value and its range, and the refusal that a value outside it brings.
#[derive(Clone, Copy)]
pub struct Field {
    pub refusal: Refusal,
    pub offset: u64,
    pub value: u64,
    pub least: u64,
    pub most: u64,
}

impl Field {
    // A field by its parts, in one line.
    fn of(refusal: Refusal, offset: u64, value: u64, least: u64, most: u64) -> Field
        ensures { result ≡ record { refusal = refusal; offset = offset; value = value; least = least; most = most } }
    {
        Field {
            refusal,
            offset,
            value,
            least,
            most,
        }
    }
}

// A field that only some goals use: one that is not used has to be zero.
fn used_if(used: bool, offset: u64, value: u64, least: u64, most: u64) -> Field
    ensures { result ≡ used_if used offset value least most }
{
    if used {
        Field::of(Refusal::OutOfRange, offset, value, least, most)
    } else {
        Field::of(Refusal::NotZero, offset, value, 0, 0)
    }
}

// The first field of a refusal that is outside its range, by its offset. This and `Sheet::fault` are inlined, so that each of the three
// searches tests only the fields of its own refusal: with `Sheet::fault` alone inlined a refused sheet takes four times as long.
#[inline(always)]
#[tactic(auto, unfolding(crate::specs::Fields::first_fault))]
fn first_fault(fields: &[Field], why: Refusal) -> Option<u64>
    ensures { result ≡ first_fault (number_of why) fields.now }
{
    let found = fields.iter().find(|field| field.refusal == why
        && outside(field.value, field.least, field.most));
    found.map(|field| field.offset)
}

impl Sheet {
    // The list `fields` as an array. The list leaves out an aim that the goal uses; here 0 stands in its place, in which no search finds
    // a fault.
    fn fields(self) -> [Field; 12]
        ensures { let aim = (if uses_aim self.counts_jacket self.goal then 0 else self.aim) in
            result ≡ codes self ++ line_fields self ++ economy_fields (uses_economy self.goal) self ++ unused 22 aim ∷ [] }
    {
        let zero = Temperature::ZERO as u64;
        let t = self.temperature.0 as u64;
        let ta = self.ambient.0 as u64;
        let least = self.flow.least_temperature();
        let used = self.goal.uses_economy();
        let aim_used = self.goal.uses_aim(self.counts_jacket);
        let aim = if aim_used { 0 } else { self.aim };
        [
            Field::of(Refusal::UnknownCode, 0, self.code, 1, 7),
            Field::of(Refusal::UnknownCode, 1, self.service, 1, 4),
            Field::of(Refusal::OutOfRange, 4, self.line.diameter.0, 100, 65_535),
            Field::of(Refusal::OutOfRange, 6, t, least, zero + 6_500),
            Field::of(Refusal::OutOfRange, 8, ta, zero - 500, zero + 500),
            Field::of(Refusal::OutOfRange, 10, self.line.conductivity, 1, 2_000),
            Field::of(Refusal::OutOfRange, 12, self.line.coefficient, 100, 10_000),
            used_if(used, 14, self.economy.heat, 1, 65_535),
            used_if(used, 16, self.economy.hours, 1, 8_784),
            used_if(used, 18, self.economy.insulation, 1, 65_535),
            used_if(used, 20, self.economy.share, 1, 10_000),
            Field::of(Refusal::NotZero, 22, aim, 0, 0),
        ]
    }

    // The first of the sheet's own fields that is outside its range, of those of a refusal.
    #[inline(always)]
    pub fn fault(self, why: Refusal) -> Option<u64>
        ensures { result ≡ first_fault (number_of why) (fields self) }
    {
        first_fault(&self.fields(), why)
    }

    // The surface aim.
    pub fn surface_aim(self) -> Temperature
        ensures { result ≡ surface_aim self }
    {
        Temperature::decode(self.aim)
    }

    // Is the jacket counted on a flat wall?
    pub fn flat_with_jacket(self) -> bool
        ensures { result ≡ (self.counts_jacket && ltb 10_000 self.line.diameter.0) }
    {
        self.counts_jacket & (self.line.diameter.0 > 10_000)
    }

    // Is the aim a loss of 0, or a surface temperature that is not between those of the air and the pipe?
    pub fn invalid_aim(self) -> bool
        ensures { result ≡ aim_refused self self.goal }
    {
        match self.goal {
            GoalCode::ForEconomy => false,
            GoalCode::ForLoss => self.aim == 0,
            GoalCode::ForSurface => {
                let flow = self.flow;
                let aim = self.surface_aim();
                !(flow.beyond(aim, self.ambient) & flow.beyond(self.temperature, aim))
            }
        }
    }
}
