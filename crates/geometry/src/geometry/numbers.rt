// What can be read of a stream's numbers.
ghost use Rattle.std.specs.Prelude.{◌≡◌, ◌*◌, ◌%◌, ◌≤◌};
ghost use Rattle.geometry.specs.Boundary.{boundary_for};
ghost use Rattle.geometry.specs.Rules.{Wraps};

use super::Geometry;

impl Geometry {
    pub fn buffer(&self) -> u32
        ensures answer { result ≡ self.now.buffer }
        ensures rule { (2 ≤ result) × (result ≤ 65536) }
    {
        self.buffer
    }

    pub fn period(&self) -> u32
        ensures answer { result ≡ self.now.period }
        ensures rule { (1 ≤ result) × (self.now.buffer % result ≡ 0) × (2 * result ≤ self.now.buffer) }
    {
        self.period
    }

    pub fn threshold(&self) -> u32
        ensures answer { result ≡ self.now.threshold }
        ensures rule { (1 ≤ result) × (result ≤ self.now.buffer) }
    {
        self.threshold
    }

    pub fn ledger(&self) -> u32
        ensures answer { result ≡ self.now.ledger }
        ensures rule { (1 ≤ result) × (result ≤ 65536) }
    {
        self.ledger
    }

    pub fn tag(&self) -> u32
        ensures { result ≡ self.now.tag }
    {
        self.tag
    }

    pub fn boundary(&self) -> u32
        ensures answer { result ≡ self.now.boundary }
        ensures rule { (result ≡ boundary_for self.now.buffer) × Wraps self.now.buffer result }
    {
        self.boundary
    }
}
