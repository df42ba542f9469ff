// The calls' answers as C has them: a number of the table, and beside 0 what was asked for. Beside a refusal stand zeros.
ghost use Rattle.std.specs.Prelude.{◌≡◌};
ghost use Rattle.qpp.specs.Answers.{value_of, inverse_form_of, arp_form_of, reason_of};

use crate::Explanation;
use inverting::Polynomial;
use refusals::Refusal;

#[repr(C)]
#[derive(Clone, Copy)]
pub struct Value {
    pub number: u32,
    pub value: u32,
}

impl From<Result<u32, Refusal>> for Value {
    ghost from_gives = { λ answer value. value ≡ value_of answer };

    fn from(answer: Result<u32, Refusal>) -> Value {
        match answer {
            Ok(value) => Value { number: 0, value },
            Err(refusal) => Value {
                number: refusal.into(),
                value: 0,
            },
        }
    }
}

// The degree and thirteen coefficient places: a[0] is a1.
#[repr(C)]
#[derive(Clone, Copy)]
pub struct InverseForm {
    pub number: u32,
    pub degree: u32,
    pub a: [u32; 13],
}

impl From<Result<Polynomial, Refusal>> for InverseForm {
    ghost from_gives = { λ answer form. form ≡ inverse_form_of answer };

    fn from(answer: Result<Polynomial, Refusal>) -> InverseForm {
        match answer {
            Ok(found) => {
                let a = found.a;
                InverseForm {
                    number: 0,
                    degree: found.degree,
                    a,
                }
            }
            Err(refusal) => InverseForm {
                number: refusal.into(),
                degree: 0,
                a: [0; 13],
            },
        }
    }
}

// The numbers P and Q.
#[repr(C)]
#[derive(Clone, Copy)]
pub struct ArpForm {
    pub number: u32,
    pub p: u32,
    pub q: u32,
}

impl From<Result<(u32, u32), Refusal>> for ArpForm {
    ghost from_gives = { λ answer form. form ≡ arp_form_of answer };

    fn from(answer: Result<(u32, u32), Refusal>) -> ArpForm {
        match answer {
            Ok((p, q)) => ArpForm { number: 0, p, q },
            Err(refusal) => ArpForm {
                number: refusal.into(),
                p: 0,
                q: 0,
            },
        }
    }
}

// Two positions with the address that they share, and a prime of K.
#[repr(C)]
#[derive(Clone, Copy)]
pub struct Reason {
    pub number: u32,
    pub y: u32,
    pub x: u32,
    pub address: u32,
    pub prime: u32,
}

impl From<Result<Explanation, Refusal>> for Reason {
    ghost from_gives = { λ answer reason. reason ≡ reason_of answer };

    fn from(answer: Result<Explanation, Refusal>) -> Reason {
        match answer {
            Ok(Explanation { pair, prime }) => Reason {
                number: 0,
                y: pair.y,
                x: pair.x,
                address: pair.address,
                prime,
            },
            Err(refusal) => Reason {
                number: refusal.into(),
                y: 0,
                x: 0,
                address: 0,
                prime: 0,
            },
        }
    }
}
