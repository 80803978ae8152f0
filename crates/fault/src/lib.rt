// What every refusal carries: a number, the layer that refused, a house and a version.
#![tactic(auto)]

ghost use Rattle.std.specs.Prelude.{◌≡◌, Some};
ghost use Rattle.fault.specs.Numbers.{layer_number, line};
ghost use Rattle.fault.specs.declared.Fault.{Fault as Carried};

use std::fmt;

// The layers that refuse, by their numbers in a report.
#[derive(Clone, Copy, PartialEq, Eq, Debug)]
pub enum Layer {
    House = 1,
    Store = 2,
    Message = 3,
    Update = 4,
    Channel = 5,
    Replay = 6,
}

impl Layer {
    // The layer's number in a report.
    pub fn number(self) -> u8
        ensures { result ≡ layer_number self }
    {
        self as u8
    }
}

// A refusal as it is reported. Each layer numbers its own cases, so no one enum has the numbers. The house is 0 where no house refused, and the version is 0 where no message's version is concerned.
#[derive(Clone, Copy, PartialEq, Eq, Debug)]
pub struct Fault {
    pub number: u8,
    pub layer: Layer,
    pub house: u32,
    pub version: u32,
}

// Layer, number, house and version in decimal, one space between.
impl fmt::Display for Fault {
    ghost output = { λ f. Some (line f) };

    fn fmt<W: fmt::Write>(&self, f: &mut fmt::Formatter<W>) -> fmt::Result {
        let layer = self.layer.number();
        let number = self.number;
        let house = self.house;
        let version = self.version;
        write!(f, "{layer} {number} {house} {version}")
    }
}

// What a layer refuses by: each of its cases carries one fault, the innermost layer's where one contains another.
pub trait Refusal {
    ghost carries: { Self → Carried };

    fn fault(&self) -> Fault
        ensures { result ≡ carries self.now };
}

#[cfg(test)]
mod tests {
    use super::*;
    use std::test::Fail;

    #[test]
    fn fault_as_text(rt: HostRuntime) -> Result<(), Fail> {
        let fault = Fault {
            number: 18,
            layer: Layer::Message,
            house: 2,
            version: 4294967295,
        };
        let text = format!(in rt.alloc(); "{fault}")?;
        assert_eq!(rt; text.as_str(), "3 18 2 4294967295");
        Ok(())
    }
}
