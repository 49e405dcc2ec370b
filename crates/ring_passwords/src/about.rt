// SPDX-License-Identifier: ISC
//! What the program tells of itself.

ghost use Rattle.std.specs.Prelude.{◌≡◌, OnOk};
ghost use Rattle.std.specs.Io.KnownBytes.{Appends, append_known};
ghost use Rattle.ring_passwords.specs.declared.about.About.TheVariants.{Help, Version};

use std::io;
use std::io::Write;

/// What is asked of the program itself.
#[derive(Clone, Copy)]
pub enum About {
    /// How it is called.
    Help,
    /// Its name and its version.
    Version,
}

/// The commands.
pub const USAGE: &str = "usage: passwords FILE set NAME [--iterations N]
       passwords FILE verify NAME
       passwords FILE remove NAME
       passwords FILE list
       passwords encode SCHEME [--iterations N]
       passwords check [--max-iterations N]
       passwords --help
       passwords --version";

/// What the help has behind the commands.
const STATUSES: &str = "

A password is one line of standard input. N is 1 to 4294967295; a new file has 600000.
encode writes the text that another system keeps of a password, and check tests the password on the
second line against the text on the first one, of at most 10000000 iterations unless given. SCHEME
is one of these:

    django-sha256    django-sha1      werkzeug-sha256  werkzeug-sha512
    phc-sha256       phc-sha512       mosquitto        passlib-sha1
    passlib-sha256   passlib-sha512   postgresql       werkzeug-sha1

status: 0  the password is set or right, the name is removed, the names or the text are written
        1  verify: wrong name or password; remove: no such name; check: wrong password
        2  any other failure; standard error has the reason
";

const VERSION: &str = "passwords 0.2.0\n";

/// Writes what is asked of the program.
pub fn write_about<W: Write>(about: About, writer: &mut W) -> io::Result<()>
    ensures help { OnOk result (about ≡ Help → Appends
        (append_known (W.contents writer.old) USAGE.now) (W.contents writer.new) STATUSES.now) }
    ensures version { OnOk result (about ≡ Version → Appends (W.contents writer.old)
        (W.contents writer.new) VERSION.now) }
{
    match about {
        About::Help => {
            writer.write_all(USAGE.as_bytes())?;
            writer.write_all(STATUSES.as_bytes())
        }
        About::Version => writer.write_all(VERSION.as_bytes()),
    }
}
