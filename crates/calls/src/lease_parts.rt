// A lease by its four parts, and what a stream knows of its leases.
ghost use Rattle.std.specs.Prelude.{◌≡◌, ◌+◌, ◌≤◌, is_some, ltb, not, true, OnOk, None};
ghost use Rattle.codes.specs.declared.refusal.Refusal.TheVariants as why;
ghost use Rattle.calls.specs.Checks.{refused_if, Grants};
ghost use Rattle.calls.specs.Lending.{holds};

use codes::refusal::Refusal;

// The stream's tag, the lease's number from 1 on, the place where its area begins and the area's length.
#[derive(Clone, Copy, PartialEq, Eq, Debug)]
pub struct LeaseParts {
    pub tag: u32,
    pub number: u32,
    pub place: u32,
    pub length: u32,
}

impl LeaseParts {
    // So many frames from a position on have to lie in the area.
    pub fn check_within(&self, position: u32, count: usize) -> Result<(), Refusal>
        ensures answer { result ≡ refused_if (ltb self.now.length (position + count)) why.Beyond }
        ensures within { OnOk result (position + count ≤ self.now.length) }
    {
        if position > self.length || count > (self.length - position) as usize {
            return Err(Refusal::Beyond);
        }
        Ok(())
    }
}

// How many leases were granted, and the one that is out.
#[derive(Clone, Copy, Default)]
pub struct Lending {
    pub granted: u32,
    pub out: Option<LeaseParts>,
}

impl Lending {
    // Whether this very lease is out: equal in all four parts.
    pub fn holds(&self, lease: LeaseParts) -> bool
        ensures { result ≡ holds self.now.out lease }
    {
        self.out == Some(lease)
    }

    // Only the lease that is out will do.
    pub fn check_holds(&self, lease: LeaseParts) -> Result<(), Refusal>
        ensures answer { result ≡ refused_if (not (holds self.now.out lease)) why.WrongLease }
        ensures out { OnOk result (holds self.now.out lease ≡ true) }
    {
        if !self.holds(lease) {
            return Err(Refusal::WrongLease);
        }
        Ok(())
    }

    // No lease may be out.
    pub fn check_none_out(&self) -> Result<(), Refusal>
        ensures answer { result ≡ refused_if (is_some self.now.out) why.LeaseOut }
        ensures none { OnOk result (self.now.out ≡ None) }
    {
        if self.out.is_some() {
            return Err(Refusal::LeaseOut);
        }
        Ok(())
    }

    // The next lease, on an area: it is out from now on.
    pub fn grant(&mut self, tag: u32, place: u32, length: u32) -> Result<LeaseParts, Refusal>
        ensures { Grants self.old tag place length result self.new }
    {
        let number = self.granted.checked_add(1).ok_or(Refusal::Limit)?;
        let parts = LeaseParts {
            tag,
            number,
            place,
            length,
        };
        *self = Lending {
            granted: number,
            out: Some(parts),
        };
        Ok(parts)
    }
}
