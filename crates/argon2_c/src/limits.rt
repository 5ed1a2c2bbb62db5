//! The most that an encoded hash may cost.

ghost use Rattle.std.specs.Prelude.{◌≡◌};
ghost use Rattle.argon2.specs.Views.Limits.{default_limits};
ghost use Rattle.argon2_c.specs.Settings.{limits_from, limits_of};

/// The highest memory, passes and lanes that an encoded hash may name, and the highest product of
/// memory and passes, in a layout that C knows.
#[repr(C)]
#[derive(Clone, Copy, Debug)]
pub struct Limits {
    /// The memory in KiB.
    pub mem_cost: u32,

    /// The number of passes.
    pub time_cost: u32,

    /// The number of lanes.
    pub lanes: u32,

    /// The memory in KiB times the number of passes.
    pub work: u64,
}

impl Limits {
    /// The limits as the library has them.
    pub fn of_library(&self) -> argon2::Limits
        ensures { result ≡ limits_of self.now }
    {
        argon2::Limits {
            mem_cost: self.mem_cost,
            time_cost: self.time_cost,
            lanes: self.lanes,
            work: self.work,
        }
    }
}

fn limits_from(limits: argon2::Limits) -> Limits
    ensures { result ≡ limits_from limits }
{
    Limits {
        mem_cost: limits.mem_cost,
        time_cost: limits.time_cost,
        lanes: limits.lanes,
        work: limits.work,
    }
}

/// The library's default limits: 2 GiB, 10 passes and 16 lanes, and as much work as 4 GiB in one pass.
#[unsafe(no_mangle)]
pub extern "C" fn proved_argon2_default_limits() -> Limits
    ensures { result ≡ limits_from default_limits }
{
    limits_from(argon2::Limits::default())
}
