//! Whether the lanes of a slice are filled in the caller's thread or by workers.

ghost use Rattle.std.specs.Prelude.{◌≡◌};
ghost use Rattle.argon2_standard.specs.Views.Names.{mode_of_threads};

/// How many threads fill the lanes of a slice. The tag does not depend on it.
#[derive(Clone, Copy, Debug, Eq, PartialEq)]
pub enum ThreadMode {
    /// The caller's thread fills one lane after another.
    Sequential,

    /// One worker per lane (one lane: none).
    Parallel,

    /// At most this many workers, and no more than there are lanes. With 0 or 1 the caller's thread
    /// fills one lane after another.
    AtMost(u32),
}

impl ThreadMode {
    /// `Parallel` for more than one thread, else `Sequential`.
    pub fn from_threads(threads: u32) -> ThreadMode
        ensures { result ≡ mode_of_threads threads }
    {
        if threads > 1 {
            ThreadMode::Parallel
        } else {
            ThreadMode::Sequential
        }
    }
}

impl Default for ThreadMode {
    ghost use Rattle.argon2_standard.specs.declared.thread_mode.ThreadMode.TheVariants.{Sequential};

    ghost is_default = { λ mode. mode ≡ Sequential };

    fn default() -> ThreadMode {
        ThreadMode::Sequential
    }
}
