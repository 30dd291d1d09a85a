// Plain arithmetic of polynomials as 17 codes, written apart from the library, and from the trials' `codes`, whose slips it then does not
// share.
use fields::field::Field;
use tables::sizes::WIDTH;

pub type Polynomial = [u32; WIDTH];

// The element of a code, taken modulo the size.
pub fn element<F: Field>(code: u32) -> F {
    F::element(code % F::size()).unwrap_or(F::zero())
}

// The code of an element.
pub(crate) fn code<F: Field>(x: F) -> u32 {
    u32::from(x.code())
}

fn sum<F: Field>(a: u32, b: u32) -> u32 {
    code(element::<F>(a).add(element::<F>(b)))
}

fn product<F: Field>(a: u32, b: u32) -> u32 {
    code(element::<F>(a).multiply(element::<F>(b)))
}

fn negative<F: Field>(a: u32) -> u32 {
    code(element::<F>(a).negate())
}

// Adds x times a polynomial to the coefficients from a place on, as far as they go.
fn add_multiple<F: Field>(to: &mut [u32], x: u32, f: &[u32]) {
    for (y, a) in to.iter_mut().zip(f.iter()) {
        *y = sum::<F>(*y, product::<F>(x, *a));
    }
}

// The product of two polynomials, up to s^16.
pub fn multiply<F: Field>(f: Polynomial, g: Polynomial) -> Polynomial {
    let mut h = [0; WIDTH];
    for (i, x) in f.iter().enumerate() {
        add_multiple::<F>(&mut h[i..], *x, &g);
    }
    h
}

// The remainder of f by s^e + low, of which the coefficients under s^e count.
fn remainder<F: Field>(f: Polynomial, e: usize, low: Polynomial) -> Polynomial {
    let low = low.get(..e).unwrap_or(&low);
    let mut rest = f;
    // Each step reads a coefficient that the steps before it changed, so the powers are counted.
    for k in (low.len()..WIDTH).rev() {
        let top = negative::<F>(rest[k]);
        rest[k] = 0;
        add_multiple::<F>(&mut rest[k - low.len()..], top, low);
    }
    rest
}

// Whether s^e + low divides f.
pub fn divides<F: Field>(e: usize, low: Polynomial, f: Polynomial) -> bool {
    remainder::<F>(f, e, low) == [0; WIDTH]
}

// The highest power with a coefficient that is not zero.
pub fn top(f: Polynomial) -> Option<usize> {
    f.iter().rposition(|x| *x != 0)
}
