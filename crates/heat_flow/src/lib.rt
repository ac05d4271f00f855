// The direction in which heat flows between a pipe and the air, and what differs by it.
#![tactic(auto)]

ghost use Rattle.std.specs.Prelude.{◌≡◌, ◌≤◌};
ghost use Rattle.heat_flow.specs.HeatFlow.{least_temperature, beyond as heat_flow_beyond, temperature_difference, bounded};

use temperatures::Temperature;

// Outward from a pipe that is warmer than the air, inward into one that is colder.
#[derive(Clone, Copy, Debug, PartialEq, Eq)]
pub enum HeatFlow {
    Outward,
    Inward,
}

impl HeatFlow {
    // The least temperature of a pipe, as it is counted.
    pub fn least_temperature(self) -> u64
        ensures { result ≡ least_temperature self }
    {
        let zero = Temperature::ZERO as u64;
        match self {
            HeatFlow::Outward => zero - 500,
            HeatFlow::Inward => zero - 1_960,
        }
    }

    // Does x lie beyond y, as seen from the air?
    pub fn beyond(self, x: Temperature, y: Temperature) -> bool
        ensures { result ≡ heat_flow_beyond self x y }
    {
        match self {
            HeatFlow::Outward => y < x,
            HeatFlow::Inward => x < y,
        }
    }

    // How far x lies beyond the air.
    pub fn difference(self, x: Temperature, ambient: Temperature) -> u64
        requires { 1 ≤ temperature_difference self x ambient }
        ensures { result ≡ temperature_difference self x ambient }
    {
        match self {
            HeatFlow::Outward => (x.0 - ambient.0) as u64,
            HeatFlow::Inward => (ambient.0 - x.0) as u64,
        }
    }

    // The temperature that lies q beyond the air's, or the pipe's where that is nearer; Δ is at hand.
    pub fn bound(
        self,
        temperature: Temperature,
        ambient: Temperature,
        difference: u64,
        q: u64,
    ) -> Temperature
        requires { (difference ≡ temperature_difference self temperature ambient) × (1 ≤ difference) }
        ensures { result ≡ bounded self temperature ambient q }
    {
        if difference <= q {
            return temperature;
        }
        match self {
            HeatFlow::Outward => Temperature(ambient.0 + q as u16),
            HeatFlow::Inward => Temperature(ambient.0 - q as u16),
        }
    }
}
