// Polynomials over the bits, the coefficient of x^k at bit k: products shift and xor, with no table and no pairs.

// The product of two polynomials of degree below 32.
pub fn carryless(a: u64, b: u64) -> u64 {
    let mut product = 0;
    for k in 0..32u32 {
        if b >> k & 1 == 1 {
            product ^= a << k;
        }
    }
    product
}

// The remainder by x^4 + x + 1 of a polynomial of degree below 16.
pub fn remainder(polynomial: u64) -> u64 {
    let mut rest = polynomial;
    for above in (0..12u32).rev() {
        if rest >> (above + 4) & 1 == 1 {
            rest ^= 0b10011 << above;
        }
    }
    rest
}

// The code of a product of nibbles.
pub(crate) fn nibble_product(a: u32, b: u32) -> u64 {
    remainder(carryless(u64::from(a), u64::from(b)))
}

// A byte as a polynomial in x and z: the coefficient of x^i·z^j at bit i + 16·j.
fn spread(code: u32) -> u64 {
    u64::from(code & 15 | (code >> 4) << 16)
}

// The code of a product of bytes: z^2 goes over into z + x^3, then each half is reduced.
pub fn byte_product(a: u32, b: u32) -> u64 {
    let product = carryless(spread(a), spread(b));
    let square = product >> 32;
    let rest = product & 0xffff_ffff ^ square << 16 ^ square << 3;
    remainder(rest & 0xffff) | remainder(rest >> 16) << 4
}

// The code of a product of tone pairs, which multiply as complex numbers with residues modulo 31.
pub(crate) fn tone_pair_product(a: u32, b: u32) -> u64 {
    let (a, b) = (u64::from(a), u64::from(b));
    let real = (a % 31 * (b % 31) + (31 - a / 31 % 31) * (b / 31)) % 31;
    let imaginary = (a % 31 * (b / 31) + a / 31 * (b % 31)) % 31;
    real + 31 * imaginary
}
