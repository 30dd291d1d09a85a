// Over the nibbles z·z + z + 8 has no root.
ghost use Rattle.nibbles.specs.declared.Nibble.TheVariants.{N1, N8};
ghost use Rattle.nibbles.specs.NibblesLemmas.{no_root, small};

use crate::Nibble;
use fields::quadratic::Quadratic;

impl Quadratic for Nibble {
    ghost linear = { N1 };

    ghost constant = { N8 };

    ghost rootless = { no_root N1 N8 tt };

    ghost limits = { small };

    fn t() -> Nibble {
        Nibble::N1
    }

    fn c() -> Nibble {
        Nibble::N8
    }
}
