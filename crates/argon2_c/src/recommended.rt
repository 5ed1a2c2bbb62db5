//! The recommended settings, by name: the presets of `Config`.
//!
//! Each is Argon2id, version 0x13, with one lane and a hash of 32 bytes.

ghost use Rattle.std.specs.Prelude.{◌≡◌};
ghost use Rattle.argon2_c.specs.Settings.{recommended, settings_of};

use crate::settings::Settings;
use argon2::Config;

/// The settings of a configuration, in numbers.
fn settings_of(config: &Config<'_>) -> Settings
    ensures { result ≡ settings_of config.now }
{
    Settings {
        variant: config.variant.as_u32(),
        version: config.version.as_u32(),
        mem_cost: config.mem_cost,
        time_cost: config.time_cost,
        lanes: config.lanes,
        hash_length: config.hash_length,
    }
}

// presets, by .ci/pages/presets

/// OWASP's first recommendation: 46 MiB, 1 pass.
#[unsafe(no_mangle)]
pub extern "C" fn proved_argon2_owasp1() -> Settings
    ensures { result ≡ recommended 47104 1 }
{
    settings_of(&Config::owasp1())
}

/// OWASP's second recommendation: 19 MiB, 2 passes.
#[unsafe(no_mangle)]
pub extern "C" fn proved_argon2_owasp2() -> Settings
    ensures { result ≡ recommended 19456 2 }
{
    settings_of(&Config::owasp2())
}

/// OWASP's third recommendation: 12 MiB, 3 passes.
#[unsafe(no_mangle)]
pub extern "C" fn proved_argon2_owasp3() -> Settings
    ensures { result ≡ recommended 12288 3 }
{
    settings_of(&Config::owasp3())
}

/// OWASP's fourth recommendation: 9 MiB, 4 passes.
#[unsafe(no_mangle)]
pub extern "C" fn proved_argon2_owasp4() -> Settings
    ensures { result ≡ recommended 9216 4 }
{
    settings_of(&Config::owasp4())
}

/// OWASP's fifth recommendation: 7 MiB, 5 passes.
#[unsafe(no_mangle)]
pub extern "C" fn proved_argon2_owasp5() -> Settings
    ensures { result ≡ recommended 7168 5 }
{
    settings_of(&Config::owasp5())
}

/// RFC 9106's first recommendation (section 4): 2 GiB, 1 pass.
#[unsafe(no_mangle)]
pub extern "C" fn proved_argon2_rfc9106() -> Settings
    ensures { result ≡ recommended 2097152 1 }
{
    settings_of(&Config::rfc9106())
}

/// RFC 9106's recommendation for little memory (section 4): 64 MiB, 3 passes.
#[unsafe(no_mangle)]
pub extern "C" fn proved_argon2_rfc9106_low_mem() -> Settings
    ensures { result ≡ recommended 65536 3 }
{
    settings_of(&Config::rfc9106_low_mem())
}
// end
