// The arithmetic of the core on plain bytes.
#![tactic(auto)]

ghost use Rattle.std.specs.Prelude.{◌≡◌, ◌-◌, false, bit_and, bit_or, bit_xor};
ghost use Rattle.alu.specs.Sums.{nibble, sum, difference, raised, lowered};
ghost use Rattle.alu.specs.Shifts.{shifted_left, shifted_right, turned_left, turned_right};

// The flag nibble of a result: X, C, N and Z from bit 3 down.
fn flags(overflow: bool, carry: bool, byte: u8) -> u8
    ensures { result ≡ nibble overflow carry byte }
{
    8 * overflow as u8 + 4 * carry as u8 + 2 * (byte >= 128) as u8 + (byte == 0) as u8
}

// a + b + carry.
pub fn adc(a: u8, b: u8, carry: bool) -> (u8, u8)
    ensures { result ≡ sum a b carry }
{
    let byte = a.wrapping_add(b).wrapping_add(carry as u8);
    let carried = a as u16 + b as u16 + carry as u16 > 255;
    let overflow = (a < 128) == (b < 128) && (a < 128) != (byte < 128);
    (byte, flags(overflow, carried, byte))
}

// a - b - borrow.
pub fn sbc(a: u8, b: u8, borrow: bool) -> (u8, u8)
    ensures { result ≡ difference a b borrow }
{
    let byte = a.wrapping_sub(b).wrapping_sub(borrow as u8);
    let borrowed = (a as u16) < b as u16 + borrow as u16;
    let overflow = (a < 128) != (b < 128) && (a < 128) != (byte < 128);
    (byte, flags(overflow, borrowed, byte))
}

// a + b.
pub fn add(a: u8, b: u8) -> (u8, u8)
    ensures { result ≡ sum a b false }
{
    adc(a, b, false)
}

// a - b.
pub fn sub(a: u8, b: u8) -> (u8, u8)
    ensures { result ≡ difference a b false }
{
    sbc(a, b, false)
}

// a + amount, an immediate: a plain number from 1 to 16, and not a signed byte.
pub fn adi(a: u8, amount: u8) -> (u8, u8)
    ensures { result ≡ raised a amount }
{
    let exact = a as u16 + amount as u16;
    let byte = a.wrapping_add(amount);
    let overflow = if a < 128 {
        exact > 127
    } else {
        exact > 256 + 127
    };
    (byte, flags(overflow, exact > 255, byte))
}

// a - amount, an immediate.
pub fn sbi(a: u8, amount: u8) -> (u8, u8)
    ensures { result ≡ lowered a amount }
{
    let byte = a.wrapping_sub(amount);
    let overflow = if a < 128 {
        a as u16 + 128 < amount as u16
    } else {
        (a as u16) < amount as u16 + 128
    };
    (byte, flags(overflow, a < amount, byte))
}

pub fn and(a: u8, b: u8) -> u8
    ensures { result ≡ bit_and a b }
{
    a & b
}

pub fn lor(a: u8, b: u8) -> u8
    ensures { result ≡ bit_or a b }
{
    a | b
}

pub fn xor(a: u8, b: u8) -> u8
    ensures { result ≡ bit_xor a b }
{
    a ^ b
}

pub fn not(a: u8) -> u8
    ensures { result ≡ 255 - a }
{
    !a
}

// b shifted left by an amount.
pub fn sll(amount: u8, b: u8) -> u8
    ensures { result ≡ shifted_left b amount }
{
    if amount >= 8 { 0 } else { b << amount }
}

// b shifted right by an amount.
pub fn srl(amount: u8, b: u8) -> u8
    ensures { result ≡ shifted_right b amount }
{
    if amount >= 8 { 0 } else { b >> amount }
}

// b turned left by an amount modulo 8.
pub fn rol(amount: u8, b: u8) -> u8
    ensures { result ≡ turned_left b amount }
{
    b.rotate_left(amount as u32)
}

// b turned right by an amount modulo 8.
pub fn ror(amount: u8, b: u8) -> u8
    ensures { result ≡ turned_right b amount }
{
    b.rotate_right(amount as u32)
}

#[cfg(test)]
mod tests;
