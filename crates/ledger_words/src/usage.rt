//! How the commands are written.

/// How the commands are written, one a line.
pub const USAGE: &str = "\
usage: bank chain new DIR [--every K]                  a snapshot in, a chain that begins with it
       bank chain add DIR [--lanes N] [--senders M]    a batch in, one more block
       bank chain state DIR [--slot S]                 a snapshot out
       bank chain block DIR --slot S                   a record out
       bank chain check DIR [--from S] [--to S] [--jobs J]
                                                       replays blocks
       bank chain list DIR                             a line a block out
       bank chain export DIR --sqlite FILE             tables out, as a new file
       bank chain --help | --version
";

/// The name of the program and its version.
pub const VERSION: &str = "bank_ledger 1\n";
