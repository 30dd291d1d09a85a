// A call as a value, and what it answered.
use design::draft::Draft;
use design::fault::DesignFault;
use design::framed::Framed;
use link::fault::LinkFault;

// A design, as the calls so far have left it.
#[derive(Drop)]
pub enum Design {
    Draft(Draft),
    Framed(Framed),
}

// One call on a design, with the numbers and tables that it is brought, which may be any.
#[derive(Drop)]
pub enum Request<F: Drop> {
    Put { i: usize, power: usize, code: u32 },
    Frame { work: Vec<F> },
    Offer { offered: Vec<F>, work: Vec<F> },
    Reopen,
    Encode { message: Vec<F>, block: Vec<F> },
    Check { block: Vec<F> },
    Invert { block: Vec<F>, message: Vec<F> },
}

// What the call of the same name answered, with the tables that it was brought.
#[derive(Drop)]
pub enum Answer<F: Drop> {
    Put(Result<(), DesignFault>),
    Frame {
        answer: Result<(), DesignFault>,
        work: Vec<F>,
    },
    Offer {
        answer: Result<(), DesignFault>,
        offered: Vec<F>,
        work: Vec<F>,
    },
    Reopen(Result<(), DesignFault>),
    Encode {
        answer: Result<(), LinkFault>,
        message: Vec<F>,
        block: Vec<F>,
    },
    Check {
        answer: Result<bool, LinkFault>,
        block: Vec<F>,
    },
    Invert {
        answer: Result<(), LinkFault>,
        block: Vec<F>,
        message: Vec<F>,
    },
    // A draft or a framed design was wanted, and the other was there.
    NotAdmitted(Request<F>),
}
