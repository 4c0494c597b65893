// Arithmetic in the field of AES.
ghost use Rattle.std.specs.Prelude.{◌≡◌};
ghost use Rattle.units.specs.Undone.{MixingUndone};
ghost use Rattle.units.specs.Field.{by_lowest_bit, doubled, product};
ghost use Rattle.units.specs.Columns.{mix_row, unmix_row};

// b times x.
fn doubled(b: u8) -> u8
    ensures { result ≡ doubled b }
{
    if b < 128 { b * 2 } else { (b - 128) * 2 ^ 0x1B }
}

// b or nothing, by the lowest bit of a number.
fn by_lowest_bit(bits: u8, b: u8) -> u8
    ensures { result ≡ by_lowest_bit bits b }
{
    if bits % 2 == 0 { 0 } else { b }
}

// The product of two bytes, bit by bit.
fn times(m: u8, b: u8) -> u8
    ensures { result ≡ product m b }
{
    let mut sum = 0;
    let mut bits = m;
    let mut power = b;
    for _ in 0..8u8 {
        sum ^= by_lowest_bit(bits, power);
        bits /= 2;
        power = doubled(power);
    }
    sum
}

// One byte of a mixed column: two rows, as the rules give them, each a line.
pub fn mix_row(a: u8, b: u8, c: u8, d: u8) -> u8
    ensures { result ≡ mix_row a b c d }
{
    times(2, a) ^ times(3, b) ^ c ^ d
}

// One byte of a column that is mixed back, which undoes the mixing of every column.
pub fn unmix_row(a: u8, b: u8, c: u8, d: u8) -> u8
    ensures row { result ≡ unmix_row a b c d }
    ensures undone { MixingUndone }
{
    times(14, a) ^ times(11, b) ^ times(13, c) ^ times(9, d)
}
