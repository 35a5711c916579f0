//! How the commands are written.

/// How the commands are written, one a line.
pub const USAGE: &str = "\
usage: bank json FORM [--pretty|--shown]  bytes in, JSON out
       bank bytes FORM                    JSON in, bytes out
       bank build [--snapshot FILE]       JSON in the short form in, a batch out
       bank split RECORD SNAPSHOT         what `produce` wrote in, two files out
       bank view KEY|SIGNATURE            a snapshot or a record in, JSON out
       bank diff A B                      two files in, a line for each difference out
       bank shape [--svg FILE]            a snapshot and a batch in, how parallel they are out
       bank why                           an input that was refused in, a sentence out
       bank --help | --version
FORM is snapshot, batch, record or image; KEY has 64 hexadecimal digits, SIGNATURE 128
";

/// The name of the program and its version.
pub const VERSION: &str = "bank_text 1\n";
