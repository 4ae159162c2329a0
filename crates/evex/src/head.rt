// The bytes of an instruction up to its displacement, and what they say whatever their row.
#![tactic(auto, unfolding(crate::specs::Fields::takes_sib, crate::specs::Fields::head_of, crate::specs::Fields::listed, crate::specs::Fields::register_form, crate::specs::Fields::register_b, crate::specs::Fields::vector_lanes, crate::specs::Fields::has_sib, crate::specs::Fields::base_bits, crate::specs::Fields::index_of, crate::specs::Fields::no_base, crate::specs::Fields::base_of, crate::specs::Fields::displacement_at, crate::specs::Fields::displacement_size, crate::specs::Fields::second, crate::specs::Decode::wrong_fixed_bits, crate::specs::Decode::reserved_length, crate::specs::Decode::zeroing_without_mask))]

ghost use Rattle.std.specs.Prelude.{◌≡◌, cond, ◌≤◌, ◌<◌, length};
ghost use Rattle.evex.specs.Bits.{byte};
ghost use Rattle.evex.specs.Fields.{takes_sib, head_of, z, aaa, b, length_bits, register_form, register_b, vector_lanes, listed, destination};
ghost use Rattle.evex.specs.Fields.{first_source, second_source, has_sib, base_bits, no_base, base_of, index_number, index_of, displacement_at};
ghost use Rattle.evex.specs.Fields.{displacement_size, second};
ghost use Rattle.evex.specs.Decode.{wrong_fixed_bits, reserved_length, zeroing_without_mask};

use super::bits::{bits, byte_at, inverted, is_set, joined, register};
use super::list::{Row, find};
use super::{Address, Base, Index, Operand};

// R3.1. `sib` is 0 where there is no SIB byte.
#[derive(Clone, Copy)]
pub struct Head {
    pub byte1: u8,
    pub byte2: u8,
    pub byte3: u8,
    pub opcode: u8,
    pub modrm: u8,
    pub sib: u8,
}

// R3.9: rm 4 in a memory form.
fn takes_sib(modrm: u8) -> bool
    ensures { result ≡ takes_sib modrm }
{
    (bits(modrm, 6, 2) != 3) & (bits(modrm, 0, 3) == 4)
}

// The SIB byte, 0 where there is none or where it is missing.
fn sib_after(modrm: u8, code: &[u8]) -> u8
    ensures { result ≡ cond (takes_sib modrm) (byte code.now 6) 0 }
{
    if takes_sib(modrm) {
        return byte_at(code, 6);
    }
    0
}

impl Head {
    // Bytes 1 to 5 and the SIB byte, if they take one.
    pub(crate) fn of(code: &[u8]) -> Head
        requires { 6 ≤ length code.now }
        ensures { result ≡ head_of code.now }
    {
        Head {
            byte1: code[1],
            byte2: code[2],
            byte3: code[3],
            opcode: code[4],
            modrm: code[5],
            sib: sib_after(code[5], code),
        }
    }

    pub(crate) fn length_bits(self) -> u8
        ensures { result ≡ length_bits self }
    {
        bits(self.byte3, 5, 2)
    }

    pub(crate) fn has_z(self) -> bool
        ensures { result ≡ z self }
    {
        is_set(self.byte3, 7)
    }

    // The number of a mask.
    pub(crate) fn mask(self) -> usize
        ensures { result ≡ aaa self }
    {
        usize::from(bits(self.byte3, 0, 3))
    }

    pub(crate) fn has_b(self) -> bool
        ensures { result ≡ b self }
    {
        is_set(self.byte3, 4)
    }

    // R3.5: mod 3.
    pub(crate) fn is_register_form(self) -> bool
        ensures { result ≡ register_form self }
    {
        bits(self.modrm, 6, 2) == 3
    }

    // R3.8: b in register form.
    pub(crate) fn has_register_b(self) -> bool
        ensures { result ≡ register_b self }
    {
        self.is_register_form() & self.has_b()
    }

    // R3.6: R', R, reg.
    pub(crate) fn destination(self) -> usize
        ensures { result ≡ destination self }
    {
        register(
            inverted(self.byte1, 4, 1),
            inverted(self.byte1, 7, 1),
            bits(self.modrm, 3, 3),
        )
    }

    // R3.6: V', vvvv.
    pub(crate) fn first_source(self) -> usize
        ensures { result ≡ first_source self }
    {
        usize::from(joined(inverted(self.byte3, 3, 1), 4, inverted(self.byte2, 3, 4)))
    }

    // R3.6: X, B, rm.
    fn second_source(self) -> usize
        ensures { result ≡ second_source self }
    {
        register(
            inverted(self.byte1, 6, 1),
            inverted(self.byte1, 5, 1),
            bits(self.modrm, 0, 3),
        )
    }

    // R3.7, R3.8.
    pub(crate) fn vector_lanes(self) -> u8
        ensures { (result ≡ vector_lanes self) × (result ≤ 32) }
    {
        if self.has_register_b() {
            return 32;
        }
        match self.length_bits() {
            0 => 8,
            1 => 16,
            _ => 32,
        }
    }

    fn has_sib(self) -> bool
        ensures { result ≡ has_sib self }
    {
        takes_sib(self.modrm)
    }

    // Of the SIB byte, or rm where there is none.
    fn base_bits(self) -> u8
        ensures { (result ≡ base_bits self) × (result < 8) }
    {
        if self.has_sib() {
            return bits(self.sib, 0, 3);
        }
        bits(self.modrm, 0, 3)
    }

    // R3.11: base bits 5 with mod 0.
    fn has_no_base(self) -> bool
        ensures { result ≡ no_base self }
    {
        (bits(self.modrm, 6, 2) == 0) & (self.base_bits() == 5)
    }

    fn base(self) -> Option<Base>
        ensures { result ≡ base_of self }
    {
        if self.has_no_base() {
            if self.has_sib() {
                return None;
            }
            return Some(Base::NextInstruction);
        }
        let number = register(0, inverted(self.byte1, 5, 1), self.base_bits());
        Some(Base::General(number))
    }

    // X and the index bits of the SIB byte.
    fn index_number(self) -> usize
        ensures { result ≡ index_number self }
    {
        register(0, inverted(self.byte1, 6, 1), bits(self.sib, 3, 3))
    }

    // R3.10: number 4 is none.
    fn index(self) -> Option<Index>
        ensures { result ≡ index_of self }
    {
        let number = self.index_number();
        if self.has_sib() & (number != 4) {
            return Some(Index {
                number,
                scale: bits(self.sib, 6, 2),
            });
        }
        None
    }

    pub(crate) fn displacement_at(self) -> usize
        ensures { (result ≡ displacement_at self) × (result ≤ 7) }
    {
        if self.has_sib() {
            return 7;
        }
        6
    }

    pub(crate) fn displacement_size(self) -> usize
        ensures { (result ≡ displacement_size self) × (result ≤ 4) }
    {
        let form = bits(self.modrm, 6, 2);
        if form == 1 {
            return 1;
        }
        if (form == 2) | self.has_no_base() {
            return 4;
        }
        0
    }

    // R3.6, R3.8.
    pub(crate) fn second(self, displacement: i32) -> Operand
        ensures { result ≡ second self displacement }
    {
        if self.is_register_form() {
            return Operand::Register(self.second_source());
        }
        let base = self.base();
        let index = self.index();
        let address = Address {
            base,
            index,
            displacement,
        };
        Operand::Memory {
            address,
            broadcast: self.has_b(),
        }
    }

    // R4.8: bit 3 of byte 1 is to be 0, and bit 2 of byte 2 to be 1.
    pub(crate) fn has_wrong_fixed_bits(self) -> bool
        ensures { result ≡ wrong_fixed_bits self }
    {
        is_set(self.byte1, 3) | !is_set(self.byte2, 2)
    }

    pub(crate) fn listed(self) -> Option<Row>
        ensures { result ≡ listed self }
    {
        let prefix = bits(self.byte2, 0, 2);
        let map = bits(self.byte1, 0, 3);
        let w = bits(self.byte2, 7, 1);
        find(prefix, map, w, self.opcode)
    }

    // R4.10: length bits 3, but for b in register form.
    pub(crate) fn has_reserved_length(self) -> bool
        ensures { result ≡ reserved_length self }
    {
        (self.length_bits() == 3) & !self.has_register_b()
    }

    // R4.10: z without a mask.
    pub(crate) fn zeroes_without_mask(self) -> bool
        ensures { result ≡ zeroing_without_mask self }
    {
        self.has_z() & (self.mask() == 0)
    }
}
