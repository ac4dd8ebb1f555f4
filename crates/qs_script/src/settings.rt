//! The settings between which a script is played, where none are asked for.

ghost use Rattle.std.specs.Prelude.{◌≡◌};
ghost use Rattle.qs_machine.specs.Examples.{standard};

use qs_calls::Settings;

/// The settings of both ends in a script that the program plays.
pub fn standard_settings() -> Settings
    ensures { result ≡ standard }
{
    Settings {
        conn_window: 4096,
        bidi_local: 1024,
        bidi_remote: 1024,
        uni: 1024,
        send_buffer: 2048,
        grant_bidi: 8,
        grant_uni: 8,
        lifetime_bidi: 8,
        lifetime_uni: 8,
    }
}
