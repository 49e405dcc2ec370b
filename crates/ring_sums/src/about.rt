// SPDX-License-Identifier: ISC
//! What the program tells of itself.

/// The help behind the line that names the program.
pub(crate) const HELP: &str = "\
Print or check SHA-1 and SHA-2 checksums, of several files side by side.

With no FILE, or when FILE is -, read standard input.
  -a, --algorithm=NAME  sha1, sha256, sha384, sha512 or sha512-256; without it
                          the one in the program's name, as in sha512sums, else
                          sha256, and for -c the one that each line shows
  -b, --binary          mark the lines as binary
  -c, --check           read checksums from the FILEs and check them
      --tag             create a BSD-style checksum
  -t, --text            mark the lines as text (default)
  -z, --zero            end each output line with NUL, not newline,
                          and disable file name escaping
  -r, --recursive       for a directory take the files in it and below it,
                          but for the one that standard output is
      --progress        show bytes, rate and time left on a terminal

The following five options are useful only when verifying checksums:
      --ignore-missing  don't fail or report status for missing files
      --quiet           don't print OK for each successfully verified file
      --status          don't output anything, status code shows success
      --strict          exit non-zero for improperly formatted checksum lines
  -w, --warn            warn about improperly formatted checksum lines

      --help        display this help and exit
      --version     output version information and exit

The lines are those of sha256sum and its kin, and may be checked by either.
";

/// The program's name and version.
pub(crate) const VERSION: &str = "sums (yezdopin) 0.2.0\n";
