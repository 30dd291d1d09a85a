// Codes at places of tables.
ghost use Rattle.std.specs.Prelude.{◌≡◌, ◌≤◌, ◌<◌, IfOk, IsTrue, All, Some, length, min, sum_by};
ghost use Rattle.test_support.specs.Codes.{code_in};

use fields::fault::FieldFault;
use fields::field::Field;

// A place of a table, and the code of the element there.
pub type Cell = (usize, u16);

// The code at a place of a table, absent past its end.
pub fn code_at<F: Field>(table: &[F], place: usize) -> Option<u16>
    ensures { result ≡ code_in F.number F.member table.now place }
{
    table.get(place).map(|x| x.code())
}

// The sum of the codes of a table, which bounds how many of its places are not zero.
pub fn sum_of_codes<F: Field>(table: &[F]) -> u64
    ensures { result ≡ min (sum_by (λ x. F.number (F.member x)) table.now) 18446744073709551615 }
{
    table
        .iter()
        .fold(0, |sum: u64, x| sum.saturating_add(u64::from(x.code())))
}

// Whether a table has the codes at their places, and zero elsewhere.
pub fn holds<F: Field>(table: &[F], cells: &[Cell]) -> bool
    ensures { IsTrue result → All (λ c. code_in F.number F.member table.now c.0 ≡ Some c.1) cells.now }
{
    let sum = cells.iter().fold(
        0,
        |sum: u64, (_, code)| sum.saturating_add(u64::from(*code)),
    );
    cells
        .iter()
        .all(|(place, code)| code_at(table, *place) == Some(*code))
        && sum_of_codes(table) == sum
}

// Writes codes at their places; whether the table has every place. A bool, and no second refusal: a missing place is a slip of the test
// itself, which asserts that there is none.
pub fn write<F: Field>(table: &mut [F], cells: &[Cell]) -> Result<bool, FieldFault>
    ensures { IfOk result (λ whole. IsTrue whole → All (λ c. (c.0 < length table.new) × (c.1 < F.order)) cells.now) }
{
    for (place, code) in cells {
        let Some(x) = table.get_mut(*place) else {
            return Ok(false);
        };
        *x = F::element(u32::from(*code))?;
    }
    Ok(true)
}
