// A flag byte from its eight bits. The crate also holds the choice and the tests that every other crate's definitions share.
#![tactic(auto)]

ghost use Rattle.std.specs.Prelude.{◌≡◌};
ghost use Rattle.bits.specs.Bits.{Weight, byte_of};

// The weight of a bit that is set, 0 for one that is clear.
fn weight(bit: bool, power: u8) -> u8
    ensures { Weight bit power result }
{
    if bit {
        return power;
    }
    0
}

// The byte of eight bits, bit 0 first.
pub fn byte(
    bit0: bool,
    bit1: bool,
    bit2: bool,
    bit3: bool,
    bit4: bool,
    bit5: bool,
    bit6: bool,
    bit7: bool,
) -> u8
    ensures { result ≡ byte_of bit0 bit1 bit2 bit3 bit4 bit5 bit6 bit7 }
{
    weight(bit0, 1)
        + weight(bit1, 2)
        + weight(bit2, 4)
        + weight(bit3, 8)
        + weight(bit4, 16)
        + weight(bit5, 32)
        + weight(bit6, 64)
        + weight(bit7, 128)
}
