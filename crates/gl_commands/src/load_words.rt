//! What the options of `load` ask for.

ghost use Rattle.std.specs.Prelude.{◌≡◌, Err, IfErr, IfOk, Ok, option_map};
ghost use Rattle.gl_commands.specs.Words.{asked_load, asked_seed};

use crate::digest_word::encoded_digest;
use crate::task::LoadTask;
use crate::words::asked_number;
use clap::error::ErrorKind;

/// The seed that an option encodes.
fn asked_seed(word: Option<&str>) -> Result<[u8; 32], ErrorKind>
    ensures found { IfOk result (λ seed.
        asked_seed (option_map (λ s. s.now) word.entry) ≡ Ok seed) }
    ensures refused { IfErr result (λ kind.
        asked_seed (option_map (λ s. s.now) word.entry) ≡ Err kind) }
{
    match word {
        Some(word) => encoded_digest(word).ok_or(ErrorKind::ValueValidation),
        None => Err(ErrorKind::MissingRequiredArgument),
    }
}

/// The ledger that the options of `load` ask for.
pub(crate) fn asked_load(count: Option<&str>, seed: Option<&str>) -> Result<LoadTask, ErrorKind>
    ensures found { IfOk result (λ load. asked_load (option_map (λ s. s.now) count.entry)
        (option_map (λ s. s.now) seed.entry) ≡ Ok load) }
    ensures refused { IfErr result (λ kind. asked_load (option_map (λ s. s.now) count.entry)
        (option_map (λ s. s.now) seed.entry) ≡ Err kind) }
{
    let count = asked_number(count)?;
    let seed = asked_seed(seed)?;
    Ok(LoadTask { count, seed })
}
