// Mathematics over any ring or field of members: no data, only definitions, lemmas, and functions whose contracts are the theorems.
#![tactic(auto)]

ghost use Rattle.algebra.specs.Rings.{RingOps, IsField};
ghost use Rattle.algebra.specs.Theorems.{SeriesRing, PolynomialDegrees, DivisionWithRemainder, GreatestCommonDivisor, ExchangeOverField, RowDividedByGcd, OptimalFrames, TestByDegrees, CleanLink};

// A field, by its members and the operations on them.
pub trait Members {
    ghost Member: { Type 0 };

    ghost ops: { RingOps Member };

    ghost field: { IsField ops };
}

pub fn series_are_a_commutative_ring<K: Members>()
    ensures { SeriesRing K.ops }
{}

pub fn degrees_of_products_add<K: Members>()
    ensures { PolynomialDegrees K.ops }
{}

pub fn division_with_remainder_exists_and_is_unique<K: Members>()
    ensures { DivisionWithRemainder K.ops }
{}

pub fn greatest_common_divisor_exists_and_is_unique<K: Members>()
    ensures { GreatestCommonDivisor K.ops }
{}

pub fn more_unknowns_than_equations_have_a_solution<K: Members>()
    ensures { ExchangeOverField K.ops }
{}

pub fn row_divided_by_its_gcd_reaches_every_small_polynomial<K: Members>()
    ensures { RowDividedByGcd K.ops }
{}

pub fn frames_exist_are_unique_and_degree_optimal<K: Members>()
    ensures { OptimalFrames K.ops }
{}

pub fn test_by_degrees_is_passed_exactly_by_degree_optimal_columns<K: Members>()
    ensures { TestByDegrees K.ops }
{}

pub fn blocks_are_clean_exactly_when_they_encode_a_message<K: Members>()
    ensures { CleanLink K.ops }
{}
