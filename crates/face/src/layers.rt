// What C is told of a layer: the count after the call, and what is kept of a cell.
ghost use Rattle.std.specs.Prelude.{◌≡◌};
ghost use Rattle.face.specs.Layers.{of_count, of_kept};

use crate::{CountTold, KeptTold};
use refusal::Refusal;

pub fn of_count(given: usize, a: Result<usize, Refusal>) -> CountTold
    ensures { result ≡ of_count given a }
{
    match a {
        Ok(n) => CountTold {
            refusal: crate::answered(),
            count: n as u64,
        },
        Err(r) => CountTold {
            refusal: r.into(),
            count: given as u64,
        },
    }
}

// The count is the given one, and what is left of it where the cell was found.
pub fn of_kept(given: usize, left: usize, a: Result<Option<u64>, Refusal>) -> KeptTold
    ensures { result ≡ of_kept given left a }
{
    let given = given as u64;
    match a {
        Ok(Some(kept)) => KeptTold {
            refusal: crate::answered(),
            found: 1,
            kept,
            count: left as u64,
        },
        Ok(None) => KeptTold {
            refusal: crate::answered(),
            found: 0,
            kept: 0,
            count: given,
        },
        Err(r) => KeptTold {
            refusal: r.into(),
            found: 0,
            kept: 0,
            count: given,
        },
    }
}
