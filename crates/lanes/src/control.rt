// The control word (R1.5), and what embedded rounding and suppression put in its place (R7.5).
ghost use Rattle.std.specs.Prelude.{◌≡◌};
ghost use Rattle.std.specs.Int.Bits.{bit_or};
ghost use Rattle.machine.specs.State.{control_mode, unmasked_flags};
ghost use Rattle.machine.specs.Lanes.{rounding_mode, unmasked, environment_of, recorded, raises, added};

use evex::{Instruction, Rounding};
use half::Mode;
use machine::Environment;

#[derive(Clone, Copy)]
pub struct Control {
    pub bits: u32,
}

impl Control {
    fn mode(self) -> Mode
        ensures { result ≡ control_mode self.bits }
    {
        Mode::of_bits((self.bits >> 13) % 4)
    }

    // The exceptions whose mask bit is 0, as flags.
    fn unmasked_flags(self) -> u8
        ensures { result ≡ unmasked_flags self.bits }
    {
        63 - ((self.bits >> 7) % 64) as u8
    }

    fn with_flags(self, flags: u8) -> Control
        ensures { result ≡ record { bits = bit_or self.bits flags } }
    {
        Control {
            bits: self.bits | u32::from(flags),
        }
    }

    // R7.5: embedded rounding has its own mode; it and suppression have every exception masked, and no flag set.

    fn rounding_mode(self, rounding: Rounding) -> Mode
        ensures { result ≡ rounding_mode rounding self.bits }
    {
        match rounding {
            Rounding::Control => self.mode(),
            Rounding::Embedded(mode) => mode,
            Rounding::Suppressed => self.mode(),
        }
    }

    fn unmasked(self, rounding: Rounding) -> u8
        ensures { result ≡ unmasked rounding self.bits }
    {
        match rounding {
            Rounding::Control => self.unmasked_flags(),
            Rounding::Embedded(_) => 0,
            Rounding::Suppressed => 0,
        }
    }

    // What an instruction's operation is told: the mode, whether UE, bit 4, is unmasked, and the immediate.
    pub fn environment(self, i: Instruction) -> Environment
        ensures { result ≡ environment_of i self.bits }
    {
        let rounding = i.rounding;
        let mode = self.rounding_mode(rounding);
        let underflow = (self.unmasked(rounding) >> 4) % 2 == 1;
        Environment {
            mode,
            underflow,
            immediate: i.immediate,
        }
    }

    pub fn recorded(self, rounding: Rounding, flags: u8) -> Control
        ensures { result ≡ record { bits = recorded rounding self.bits flags } }
    {
        match rounding {
            Rounding::Control => self.with_flags(flags),
            Rounding::Embedded(_) => self,
            Rounding::Suppressed => self,
        }
    }

    // R7.3: one of the flags is of an exception that is not masked.
    pub fn raises(self, rounding: Rounding, flags: u8) -> bool
        ensures { result ≡ raises rounding self.bits flags }
    {
        flags & self.unmasked(rounding) != 0
    }

    // R7.4: where one of IE, DE and ZE, the three lowest, is of an exception that is not masked, these alone; else all.
    pub fn added(self, rounding: Rounding, flags: u8) -> u8
        ensures { result ≡ added rounding self.bits flags }
    {
        let early = flags & 7;
        if self.raises(rounding, early) {
            early
        } else {
            flags
        }
    }
}
