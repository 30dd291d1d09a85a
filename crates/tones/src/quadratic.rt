// Over the tones z·z + 1 has no root.
ghost use Rattle.tones.specs.declared.Tone.TheVariants.{T0, T1};
ghost use Rattle.tones.specs.TonesLemmas.{no_root, small};

use crate::Tone;
use fields::quadratic::Quadratic;

impl Quadratic for Tone {
    ghost linear = { T0 };

    ghost constant = { T1 };

    ghost rootless = { no_root T0 T1 tt };

    ghost limits = { small };

    fn t() -> Tone {
        Tone::T0
    }

    fn c() -> Tone {
        Tone::T1
    }
}
