// GF(257): the numbers modulo the prime 257.
ghost use Rattle.std.specs.Prelude.{refl};
ghost use Rattle.field.specs.Prime.{prime};
ghost use Rattle.field.specs.PrimeLaws.{prime_laws};

use crate::{Field, operand};

// The symbol whose product with u is 1, at each u; 0 at 0.
const INVERSES: [u16; 257] = [
    0, 1, 129, 86, 193, 103, 43, 147, 225, 200, 180, 187, 150, 178, 202, 120, 241, 121, 100, 230,
    90, 49, 222, 190, 75, 72, 89, 238, 101, 195, 60, 199, 249, 148, 189, 235, 50, 132, 115, 145,
    45, 163, 153, 6, 111, 40, 95, 175, 166, 21, 36, 126, 173, 97, 119, 243, 179, 248, 226, 61, 30,
    59, 228, 102, 253, 87, 74, 234, 223, 149, 246, 181, 25, 169, 66, 24, 186, 247, 201, 244, 151,
    165, 210, 96, 205, 127, 3, 65, 184, 26, 20, 209, 176, 152, 216, 46, 83, 53, 139, 135, 18, 28,
    63, 5, 215, 164, 177, 245, 188, 224, 250, 44, 218, 116, 124, 38, 113, 134, 159, 54, 15, 17,
    158, 140, 114, 220, 51, 85, 255, 2, 172, 206, 37, 143, 117, 99, 240, 242, 203, 98, 123, 144,
    219, 133, 141, 39, 213, 7, 33, 69, 12, 80, 93, 42, 252, 194, 229, 239, 122, 118, 204, 174, 211,
    41, 105, 81, 48, 237, 231, 73, 192, 254, 130, 52, 161, 47, 92, 106, 13, 56, 10, 71, 233, 191,
    88, 232, 76, 11, 108, 34, 23, 183, 170, 4, 155, 29, 198, 227, 196, 31, 9, 78, 14, 138, 160, 84,
    131, 221, 236, 91, 82, 162, 217, 146, 251, 104, 94, 212, 112, 142, 125, 207, 22, 68, 109, 8,
    58, 197, 62, 156, 19, 168, 185, 182, 67, 35, 208, 167, 27, 157, 136, 16, 137, 55, 79, 107, 70,
    77, 57, 32, 110, 214, 154, 64, 171, 128, 256,
];

/// The field of 257 symbols.
#[derive(Clone, Copy, Debug, PartialEq, Eq)]
pub struct Prime;

impl Field for Prime {
    ghost ops = { prime };

    const SIZE: u32 = 257;

    ghost SIZE = { 257 };

    const GENERATOR: u16 = 3;

    ghost GENERATOR = { 3 };

    ghost size = { refl };

    ghost generator = { refl };

    ghost laws = { prime_laws };

    fn sum(u: u16, v: u16) -> u16 {
        (operand(257, u) + operand(257, v)) % 257
    }

    fn difference(u: u16, v: u16) -> u16 {
        (operand(257, u) + (257 - operand(257, v))) % 257
    }

    fn product(u: u16, v: u16) -> u16 {
        let whole = u32::from(operand(257, u)) * u32::from(operand(257, v));
        // a remainder below 257 is a u16
        (whole % 257) as u16
    }

    fn inverse(u: u16) -> u16 {
        INVERSES[operand(257, u) as usize]
    }
}
