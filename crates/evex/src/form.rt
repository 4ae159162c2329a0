// What a head says together with its row: the fields, and the reserved forms.
#![tactic(auto, unfolding(crate::specs::Fields::destination_of, crate::specs::Fields::first, crate::specs::Fields::elements, crate::specs::Fields::rounding, crate::specs::Fields::N, crate::specs::Fields::displacement_of, crate::specs::Fields::immediate_of, crate::specs::Fields::size, crate::specs::Fields::instruction, crate::specs::Decode::extra_source, crate::specs::Decode::scalar_broadcast, crate::specs::Decode::zeroing_mask, crate::specs::Decode::no_such_mask, crate::specs::Decode::reserved_forms))]

ghost use Rattle.std.specs.Prelude.{◌≡◌, ◌≤◌};
ghost use Rattle.lists.specs.Lists.{some};
ghost use Rattle.evex.specs.Fields.{displacement_at, displacement_size};
ghost use Rattle.evex.specs.Fields.{destination_of, first, elements, rounding, N, displacement_of, immediate_of, size, instruction};
ghost use Rattle.evex.specs.Decode.{extra_source, scalar_broadcast, zeroing_mask, no_such_mask, reserved_forms};

use super::bits::{byte_at, four_bytes_at, scaled};
use super::head::Head;
use super::list::Row;
use super::{Destination, Instruction, Rounding};
use half::Mode;

// A head, and the row of the list that it has; where a displacement stands, and how many bytes it has (R3.12).
#[derive(Clone, Copy)]
pub struct Form {
    pub head: Head,
    pub row: Row,
    at: usize,
    bytes: usize,
    ghost placed: { (at ≡ displacement_at head) × (bytes ≡ displacement_size head) × (at ≤ 7) × (bytes ≤ 4) },
}

impl Form {
    pub(crate) fn of(head: Head, row: Row) -> Form
        ensures { (result.head ≡ head) × (result.row ≡ row) }
    {
        Form {
            head,
            row,
            at: head.displacement_at(),
            bytes: head.displacement_size(),
        }
    }

    // A mask, or a vector register (R3.6).
    fn destination(self) -> Destination
        ensures { result ≡ destination_of self.head self.row }
    {
        let number = self.head.destination();
        if self.row.shape().mask {
            return Destination::Mask(number);
        }
        Destination::Vector(number)
    }

    // The first source, where there is one (R2.2).
    fn first(self) -> Option<usize>
        ensures { result ≡ first self.head self.row }
    {
        if self.row.shape().first {
            return Some(self.head.first_source());
        }
        None
    }

    // How many (R3.7): one, or one in each lane of a vector.
    fn elements(self) -> u8
        ensures { (result ≡ elements self.head self.row) × (result ≤ 32) }
    {
        if self.row.shape().scalar {
            return 1;
        }
        self.head.vector_lanes()
    }

    // Whose mode and masks count (R3.8).
    fn rounding(self) -> Rounding
        ensures { result ≡ rounding self.head self.row }
    {
        if !self.head.has_register_b() {
            return Rounding::Control;
        }
        if self.row.shape().suppresses {
            return Rounding::Suppressed;
        }
        Rounding::Embedded(Mode::of_bits(u32::from(self.head.length_bits())))
    }

    // R3.13: N.
    fn unit(self) -> u8
        ensures { result ≡ N self.head self.row }
    {
        if self.head.has_b() {
            return 2;
        }
        2 * self.elements()
    }

    // The displacement, 0 where there is none (R3.12).
    fn displacement(self, code: &[u8]) -> i32
        ensures { result ≡ displacement_of self.head self.row code.now }
    {
        match self.bytes {
            1 => scaled(byte_at(code, self.at).cast_signed(), self.unit()),
            4 => four_bytes_at(code, self.at).cast_signed(),
            _ => 0,
        }
    }

    // The immediate, 0 where there is none (R3.15).
    fn immediate(self, code: &[u8]) -> u8
        ensures { result ≡ immediate_of self.head self.row code.now }
    {
        if self.row.shape().immediate {
            return byte_at(code, self.at + self.bytes);
        }
        0
    }

    // The length in bytes (R3.14).
    pub(crate) fn size(self) -> usize
        ensures { result ≡ size self.head self.row }
    {
        if self.row.shape().immediate {
            return self.at + self.bytes + 1;
        }
        self.at + self.bytes
    }

    pub(crate) fn instruction(self, code: &[u8]) -> Instruction
        ensures { result ≡ instruction self.head self.row code.now }
    {
        Instruction {
            operation: self.row.operation(),
            shape: self.row.shape(),
            elements: usize::from(self.elements()),
            rounding: self.rounding(),
            zeroing: self.head.has_z(),
            mask: self.head.mask(),
            destination: self.destination(),
            first: self.first(),
            second: self.head.second(self.displacement(code)),
            immediate: self.immediate(code),
            size: self.size(),
        }
    }

    // R4.10: bits for a first source, where there is none.
    fn has_extra_source(self) -> bool
        ensures { result ≡ extra_source self.head self.row }
    {
        !self.row.shape().first & (self.head.first_source() != 0)
    }

    // R4.10: b in memory form, where there is one element.
    fn has_scalar_broadcast(self) -> bool
        ensures { result ≡ scalar_broadcast self.head self.row }
    {
        self.row.shape().scalar & (self.head.has_b() & !self.head.is_register_form())
    }

    // R4.10: z, where a mask is written.
    fn zeroes_mask(self) -> bool
        ensures { result ≡ zeroing_mask self.head self.row }
    {
        self.row.shape().mask & self.head.has_z()
    }

    // R4.10: a number above 7, where a mask is written.
    fn has_no_such_mask(self) -> bool
        ensures { result ≡ no_such_mask self.head self.row }
    {
        self.row.shape().mask & (7 < self.head.destination())
    }

    // R4.10: one of the reserved forms.
    pub(crate) fn is_reserved(self) -> bool
        ensures { result ≡ some (λ reserved. reserved) (reserved_forms self.head self.row) }
    {
        self.head.has_reserved_length()
            | (self.head.zeroes_without_mask()
                | (self.has_extra_source()
                    | (self.has_scalar_broadcast()
                        | (self.zeroes_mask() | self.has_no_such_mask()))))
    }
}
