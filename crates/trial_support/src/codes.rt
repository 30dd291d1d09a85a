// Arithmetic of members by their codes, and of lists of codes: the coefficients of a polynomial or a vector.
ghost use Rattle.std.specs.Prelude.{◌≡◌, ◌<◌, length, drop, IfSome, IfNone, All};

use fields::field::Field;

// The member of a code, zero where there is none: a code past the last member counts as zero.
pub fn member_of<F: Field>(code: u16) -> F
    ensures { code < F.order → F.number (F.member result) ≡ code }
{
    F::element(u32::from(code)).unwrap_or(F::zero())
}

// Writes the members of codes into a table; what stands past them is kept.
pub fn write_members<F: Field>(table: &mut [F], codes: &[u16])
    ensures { drop (length codes.now) table.new ≡ drop (length codes.now) table.old }
{
    let count = codes.len().min(table.len());
    for (x, code) in table[..count].iter_mut().zip(codes) {
        *x = member_of(*code);
    }
}

// a + b c
pub fn sum_product<F: Field>(a: u16, b: F, c: u16) -> u16 {
    if c == 0 {
        return a;
    }
    member_of::<F>(a).add(b.multiply(member_of(c))).code()
}

// The inverse of the member of a code, zero for zero: it is only asked for leading codes, which are not zero.
pub fn inverse<F: Field>(code: u16) -> F {
    member_of::<F>(code).inverse().unwrap_or(F::zero())
}

// The highest place at which a list is not zero.
pub fn top_of(list: &[u16]) -> Option<usize>
    ensures place { IfSome result (λ i. i < length list.now) }
    ensures none { IfNone result (All (λ code. code ≡ 0) list.now) }
{
    list.iter().rposition(|code| *code != 0)
}

// Adds x times another list to a list, from a place on; what would pass its end is dropped.
pub(crate) fn add_shifted<F: Field>(list: &mut [u16], from: usize, x: F, other: &[u16]) {
    for (sum, code) in list.iter_mut().skip(from).zip(other) {
        *sum = sum_product(*sum, x, *code);
    }
}

// Adds the product of two lists to a list; what would pass its end is dropped.
pub(crate) fn add_product<F: Field>(list: &mut [u16], left: &[u16], right: &[u16]) {
    for (k, code) in left.iter().enumerate() {
        add_shifted(list, k, member_of::<F>(*code), right);
    }
}

// Multiplies a list by x.
pub(crate) fn scale<F: Field>(list: &mut [u16], x: F) {
    for code in list {
        *code = member_of::<F>(*code).multiply(x).code();
    }
}
