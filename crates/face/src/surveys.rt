// What C is told of a survey file that was loaded or written.
ghost use Rattle.std.specs.Prelude.{◌≡◌};
ghost use Rattle.face.specs.Surveys.{of_load, of_write};

use crate::{LengthTold, LoadTold};
use refusal::Refusal;
use survey::Counts;

pub fn of_load(flagged: usize, valued: usize, a: Result<Counts, Refusal>) -> LoadTold
    ensures { result ≡ of_load flagged valued a }
{
    match a {
        Ok(counts) => LoadTold {
            refusal: crate::answered(),
            place: 0,
            flags: counts.flags as u64,
            values: counts.values as u64,
        },
        Err(r) => LoadTold {
            refusal: r.into(),
            place: refusal::row_of(r).place,
            flags: flagged as u64,
            values: valued as u64,
        },
    }
}

impl From<Result<usize, Refusal>> for LengthTold {
    ghost from_gives = { λ a told. told ≡ of_write a };

    fn from(a: Result<usize, Refusal>) -> LengthTold {
        match a {
            Ok(n) => LengthTold {
                refusal: crate::answered(),
                length: n as u64,
            },
            Err(r) => LengthTold {
                refusal: r.into(),
                length: 0,
            },
        }
    }
}
