// What several modules of a host's library hand out in place of a result, since C has none: a number, 0 where nothing was refused, and the
// values beside it. No crate can cite a static library, so it stands below them.
#![tactic(auto)]

ghost use Rattle.std.specs.Prelude.{◌≡◌};
ghost use Rattle.replies.specs.Results.{written_as};

use refusals::Refusal;

// 0 and how many bytes a writer wrote, or document 01's number of the refusal and 0.
#[repr(C)]
#[derive(Clone, Copy)]
pub struct Written {
    pub number: u8,
    pub length: usize,
}

impl From<Result<usize, Refusal>> for Written {
    ghost from_gives = { λ answer written. written ≡ written_as answer };

    fn from(answer: Result<usize, Refusal>) -> Written {
        match answer {
            Ok(length) => Written { number: 0, length },
            Err(refusal) => Written {
                number: refusal.number(),
                length: 0,
            },
        }
    }
}
