// The limits of heat loss and of surface temperature.
#![tactic(auto)]

ghost use Rattle.std.specs.Prelude.{◌≡◌, ◌*◌, ◌≤◌, ◌<◌, get_or, IfSome};
ghost use Rattle.temperatures.specs.Temperature.{tenths_celsius};
ghost use Rattle.limits.specs.Limits.{interpolated, loss_limit, surface_limit};
ghost use Rattle.limits.specs.FlatTable.{flat_table, place};
ghost use Rattle.limits.specs.Printed.{printed};

use temperatures::Temperature;

// The limits in W/m², row by row from 50 °C to 650 °C, year-round before seasonal; 0 where none is printed: the list that 02, N3 asks for.
const LIMITS: [u64; 26] = [
    58, 116, // 50 °C
    93, 163, // 100 °C
    116, 203, // 150 °C
    140, 244, // 200 °C
    163, 273, // 250 °C
    186, 296, // 300 °C
    209, 308, // 350 °C
    227, 314, // 400 °C
    244, 0, // 450 °C
    262, 0, // 500 °C
    279, 0, // 550 °C
    296, 0, // 600 °C
    314, 0, // 650 °C
];

// The temperature of the first row, 50.0 °C.
const FIRST: u16 = Temperature::ZERO + 500;

// The printed limits as one flat list.
pub fn flat_table() -> [u64; 26]
    ensures { result ≡ flat_table }
{
    LIMITS
}

// The limit of heat loss in 0.1 W/m² for a service and a pipe's temperature, where one is printed. A service is a number, as in a `Sheet`: the
// list finds its place by arithmetic on it (02, N3).
#[tactic(auto, using(crate::proofs::FlatTable::limit_is, crate::proofs::Rows::none_below))]
pub fn loss_limit(service: u64, temperature: Temperature) -> Option<u64>
    requires { (1 ≤ service) × (service ≤ 4) × (temperature.0 ≤ (tenths_celsius 6_500).0) }
    ensures { result ≡ printed (loss_limit service temperature) }
{
    if temperature.0 < FIRST {
        return None;
    }
    let past = (temperature.0 - FIRST) as u64;
    let row = past / 500;
    let beyond = past % 500;
    let low = row_limit(row, service)?;
    if service <= 2 || beyond == 0 {
        return Some(low);
    }
    let high = row_limit(row + 1, service)?;
    Some(interpolate(low, high, beyond))
}

// The limit in 0.1 W/m² that the list has for a row, the first being row 0, and a service.
fn row_limit(row: u64, service: u64) -> Option<u64>
    requires { (row < 13) × (service ≤ 4) }
    ensures value { result ≡ printed (10 * get_or flat_table (place row service) 0) }
    ensures range { IfSome result (λ limit. (1 ≤ limit) × (limit ≤ 3_140)) }
{
    let limit = LIMITS[(2 * row + (service + 1) % 2) as usize];
    (limit != 0).then_some(10 * limit)
}

// The limit in 0.1 W/m² on the straight line between two rows, which are 50.0 °C apart, at a temperature that is `beyond` tenths of a degree
// above the lower row's.
fn interpolate(low: u64, high: u64, beyond: u64) -> u64
    requires { (1 ≤ low) × (low ≤ 3_140) × (1 ≤ high) × (high ≤ 3_140) × (beyond ≤ 500) }
    ensures { (result ≡ interpolated low high 500 beyond) × (1 ≤ result) }
{
    (low * (500 - beyond) + high * beyond) / 500
}

// The limit of the surface's temperature where the air has the temperature ambient.
pub fn surface_limit(ambient: Temperature) -> Temperature
    requires { ambient.0 ≤ (tenths_celsius 6_500).0 }
    ensures { result ≡ surface_limit ambient }
{
    if ambient <= Temperature(Temperature::ZERO + 270) {
        Temperature(Temperature::ZERO + 500)
    } else {
        Temperature(ambient.0 + 250)
    }
}
