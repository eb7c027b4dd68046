// Why a ring leaves things as they are: a move that its numbers do not allow, or memory of another length.
ghost use Rattle.std.specs.Prelude.{Some, codes};

use std::error::Error;
use std::fmt;

#[derive(Clone, Copy, PartialEq, Eq, Debug)]
pub struct DoesNotFit;

impl fmt::Display for DoesNotFit {
    ghost output = { λ e. Some (codes "the ring has no place for this, or not as many elements") };

    fn fmt<W: fmt::Write>(&self, f: &mut fmt::Formatter<W>) -> fmt::Result {
        f.write_str("the ring has no place for this, or not as many elements")
    }
}

impl Error for DoesNotFit {}
