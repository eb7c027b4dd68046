// Why a sink stopped, as far as the causes have names here. A cause stays a plain number and is no enum: any sink may have
// causes of its own.
ghost use Rattle.std.specs.Prelude.{◌≡◌};
ghost use Rattle.codes.specs.Causes.{cause_name};

// The sink has no room left.
pub const FULL: u32 = 1;

// The sink failed.
pub const FAULT: u32 = 2;

pub fn name(cause: u32) -> &'static str
    ensures { result.now ≡ cause_name cause }
{
    match cause {
        FULL => "full",
        FAULT => "fault",
        _ => "another cause",
    }
}
