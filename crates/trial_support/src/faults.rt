// What is refused, as all routes say it.
ghost use Rattle.std.specs.Prelude.{◌≡◌};

use fields::fault::Refusal;

// The number of the question that is answered no, and where. A number, since it is all that the two routes have in common.
#[derive(Clone, Copy, PartialEq, Eq)]
pub struct Fault {
    pub number: u8,
    pub place: usize,
}

impl Fault {
    pub fn new(number: u8, place: usize) -> Fault
        ensures said { (result.number ≡ number) × (result.place ≡ place) }
    {
        Fault { number, place }
    }

    // What a call's refusal says.
    pub fn of<E: Refusal>(refusal: &E) -> Fault
        ensures said { (result.number ≡ E.numbered refusal.now) × (result.place ≡ E.placed refusal.now) }
    {
        Fault::new(refusal.number(), refusal.place())
    }
}
