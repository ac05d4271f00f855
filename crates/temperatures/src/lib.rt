// Temperatures in tenths of a degree, counted from −3,276.8 °C, the least that 16 bits hold in two's complement.
#![tactic(auto)]

ghost use Rattle.std.specs.Prelude.{◌≡◌};
ghost use Rattle.temperatures.specs.Temperature.{decoded, encoded};

#[derive(Clone, Copy, Debug, PartialEq, Eq, PartialOrd, Ord)]
pub struct Temperature(pub u16);

// No `From` stands for the two conversions: it would not say that the number is in two's complement, and a u16 may be the count as well.
impl Temperature {
    // 0.0 °C.
    pub const ZERO: u16 = 32_768;

    // The temperature that a number says in two's complement.
    pub fn decode(n: u64) -> Temperature
        ensures { result ≡ decoded n }
    {
        let bits = (n % 65_536) as u16;
        Temperature(bits.wrapping_add(Self::ZERO))
    }

    // The number that says the temperature in two's complement.
    pub fn encode(self) -> u16
        ensures { result ≡ encoded self }
    {
        self.0.wrapping_add(Self::ZERO)
    }
}
