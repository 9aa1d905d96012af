//! The names of what is wrong with the words of a command line.

ghost use Rattle.std.specs.Prelude.{◌≡◌};
ghost use Rattle.gl_commands.specs.Texts.{kind_name};

use clap::error::ErrorKind;

/// The kind's name, as Rust has it.
pub fn kind_name(kind: ErrorKind) -> &'static str
    ensures { result.now ≡ kind_name kind }
{
    match kind {
        ErrorKind::InvalidValue => "InvalidValue",
        ErrorKind::UnknownArgument => "UnknownArgument",
        ErrorKind::InvalidSubcommand => "InvalidSubcommand",
        ErrorKind::NoEquals => "NoEquals",
        ErrorKind::ValueValidation => "ValueValidation",
        ErrorKind::TooManyValues => "TooManyValues",
        ErrorKind::TooFewValues => "TooFewValues",
        ErrorKind::WrongNumberOfValues => "WrongNumberOfValues",
        ErrorKind::ArgumentConflict => "ArgumentConflict",
        ErrorKind::MissingRequiredArgument => "MissingRequiredArgument",
        ErrorKind::MissingSubcommand => "MissingSubcommand",
        ErrorKind::DisplayHelp => "DisplayHelp",
        ErrorKind::DisplayHelpOnMissingArgumentOrSubcommand => {
            "DisplayHelpOnMissingArgumentOrSubcommand"
        }
        ErrorKind::DisplayVersion => "DisplayVersion",
        ErrorKind::Io => "Io",
        ErrorKind::Format => "Format",
        ErrorKind::OutOfMemory => "OutOfMemory",
    }
}
