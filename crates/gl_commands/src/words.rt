//! The words that the program is called with.

ghost use Rattle.std.specs.Prelude.{◌≡◌, ◌≤◌, [], Err, IfErr, IfOk, None, Ok, Some, false, if◌then◌else◌, map, option_map, true};
ghost use Rattle.std.specs.List.{list_all};
ghost use Rattle.std.specs.Str.Parse.{digits_value};
ghost use Rattle.std.specs.String.{string_bytes};
ghost use Rattle.clap.specs.Faults.{fault_of};
ghost use Rattle.clap.specs.Matches.{found_of};
ghost use Rattle.clap.specs.Simple.{subcommand_of, subcommand_rows_of};
ghost use Rattle.clap.specs.Walk.{all_of, first_of, rows_of};
ghost use Rattle.clap.specs.declared.error.kind.ErrorKind.{ErrorKind};
ghost use Rattle.gl_lines.specs.Words.{hex_sized};
ghost use Rattle.gl_commands.specs.Commands.{program};
ghost use Rattle.gl_commands.specs.declared.task.Asked.TheVariants as asks;
ghost use Rattle.gl_commands.specs.declared.task.NodeTask.{NodeTask as NodeTasks};
ghost use Rattle.gl_commands.specs.Words.{RefusesOnly, RefusesWords, asked, asked_by_load, asked_by_node, asked_command, asked_deal, asked_identity, asked_keygen, asked_member, asked_name, asked_named, asked_number, asked_numbers, asked_sign, asked_task, encoded_key, encoded_member, is_member, is_number, named_kind, named_types, task_under};

use crate::commands::program;
use crate::load_words::asked_load;
use crate::node_words::asked_node;
use crate::task::{Asked, LoadTask, NodeTask, Task, WordsFault};
use clap::ArgMatches;
use clap::error::ErrorKind;
use gl_base::Sequence;
use gl_hss::Types;
use gl_journal::KeyKind;
use gl_keyfile::Signing;
use gl_lines::{is_decimal, is_lower_hex};
use gl_requests::HssPublicKey;
use hex::FromHex;
use std::alloc::{AllocError, Global};

/// The key that a word encodes.
fn encoded_key(word: &str) -> Result<HssPublicKey, ErrorKind>
    ensures found { IfOk result (λ key. encoded_key (hex_sized word.now 60) ≡ Ok key) }
    ensures refused { IfErr result (λ kind. encoded_key (hex_sized word.now 60) ≡ Err kind) }
{
    if !is_lower_hex(word.as_bytes()) {
        return Err(ErrorKind::ValueValidation);
    }
    match <HssPublicKey as FromHex>::from_hex(word) {
        Ok(key) => Ok(key),
        Err(_) => Err(ErrorKind::ValueValidation),
    }
}

/// The key that the option of a command encodes.
fn asked_identity(word: Option<&str>) -> Result<HssPublicKey, ErrorKind>
    ensures found { IfOk result (λ key.
        asked_identity (option_map (λ s. s.now) word.entry) ≡ Ok key) }
    ensures refused { IfErr result (λ kind.
        asked_identity (option_map (λ s. s.now) word.entry) ≡ Err kind) }
{
    match word {
        Some(word) => encoded_key(word),
        None => Err(ErrorKind::MissingRequiredArgument),
    }
}

/// What the command with a name asks for under a key.
fn task_under(name: &str, identity: HssPublicKey) -> Task
    ensures { result ≡ task_under name.now identity }
{
    if name == "audit" {
        Task::Audit { identity }
    } else {
        Task::Verify { identity }
    }
}

fn named_kind(word: &str) -> Option<KeyKind>
    ensures { result ≡ named_kind word.now }
{
    match word {
        "service" => Some(KeyKind::Service),
        "node" => Some(KeyKind::Node),
        "member" => Some(KeyKind::Member),
        _ => None,
    }
}

fn named_types(word: &str) -> Option<Types>
    ensures { result ≡ named_types word.now }
{
    match word {
        "h5w4" => Some(Types::H5W4),
        "h5w8" => Some(Types::H5W8),
        "h10w4" => Some(Types::H10W4),
        "h10w8" => Some(Types::H10W8),
        _ => None,
    }
}

/// The kind of key that the option of a command names.
fn asked_kind(word: Option<&str>) -> Result<KeyKind, ErrorKind>
    ensures found { IfOk result (λ kind.
        asked_name named_kind (option_map (λ s. s.now) word.entry) ≡ Ok kind) }
    ensures refused { IfErr result (λ printed.
        asked_name named_kind (option_map (λ s. s.now) word.entry) ≡ Err printed) }
{
    match word {
        Some(word) => named_kind(word).ok_or(ErrorKind::InvalidValue),
        None => Err(ErrorKind::MissingRequiredArgument),
    }
}

/// The parameter set that the option of a command names.
fn asked_types(word: Option<&str>) -> Result<Types, ErrorKind>
    ensures found { IfOk result (λ types.
        asked_name named_types (option_map (λ s. s.now) word.entry) ≡ Ok types) }
    ensures refused { IfErr result (λ printed.
        asked_name named_types (option_map (λ s. s.now) word.entry) ≡ Err printed) }
{
    match word {
        Some(word) => named_types(word).ok_or(ErrorKind::InvalidValue),
        None => Err(ErrorKind::MissingRequiredArgument),
    }
}

/// The key that the options of `keygen` ask for.
fn asked_keygen(kind: Option<&str>, types: Option<&str>) -> Result<Task, ErrorKind>
    ensures found { IfOk result (λ task. asked_keygen
        (option_map (λ s. s.now) kind.entry) (option_map (λ s. s.now) types.entry) ≡ Ok task) }
    ensures refused { IfErr result (λ printed. asked_keygen
        (option_map (λ s. s.now) kind.entry) (option_map (λ s. s.now) types.entry)
        ≡ Err printed) }
{
    match asked_kind(kind) {
        Ok(kind) => match asked_types(types) {
            Ok(types) => Ok(Task::Keygen { kind, types }),
            Err(printed) => Err(printed),
        },
        Err(printed) => Err(printed),
    }
}

/// A number that a member may have: not 0.
fn member_number(number: u8) -> Result<u8, ErrorKind>
    ensures found { IfOk result (λ n. (n ≡ number) × (is_member number ≡ true)) }
    ensures refused { IfErr result (λ kind.
        (kind ≡ ErrorKind.ValueValidation) × (is_member number ≡ false)) }
{
    if number == 0 {
        Err(ErrorKind::ValueValidation)
    } else {
        Ok(number)
    }
}

/// The member's number that a word encodes.
fn encoded_member(word: &str) -> Result<u8, ErrorKind>
    ensures found { IfOk result (λ number. encoded_member word.now ≡ Ok number) }
    ensures refused { IfErr result (λ kind. encoded_member word.now ≡ Err kind) }
{
    if !is_decimal(word.as_bytes()) {
        return Err(ErrorKind::ValueValidation);
    }
    match word.parse::<u8>() {
        Ok(number) => member_number(number),
        Err(_) => Err(ErrorKind::ValueValidation),
    }
}

/// The member's number that the option of a command encodes.
fn asked_member(word: Option<&str>) -> Result<u8, ErrorKind>
    ensures found { IfOk result (λ number.
        asked_member (option_map (λ s. s.now) word.entry) ≡ Ok number) }
    ensures refused { IfErr result (λ kind.
        asked_member (option_map (λ s. s.now) word.entry) ≡ Err kind) }
{
    match word {
        Some(word) => encoded_member(word),
        None => Err(ErrorKind::MissingRequiredArgument),
    }
}

/// The request that the options of `sign` ask for.
fn asked_sign(identity: Option<&str>, member: Option<&str>) -> Result<Task, ErrorKind>
    ensures found { IfOk result (λ task. asked_sign (option_map (λ s. s.now) identity.entry)
        (option_map (λ s. s.now) member.entry) ≡ Ok task) }
    ensures refused { IfErr result (λ printed. asked_sign (option_map (λ s. s.now) identity.entry)
        (option_map (λ s. s.now) member.entry) ≡ Err printed) }
{
    match asked_identity(identity) {
        Ok(identity) => match asked_member(member) {
            Ok(member) => Ok(Task::Sign {
                signing: Signing::Request { identity, member },
            }),
            Err(printed) => Err(printed),
        },
        Err(printed) => Err(printed),
    }
}

/// The number that a word encodes.
pub(crate) fn number_in(word: &str) -> Option<u64>
    ensures { result ≡ (if is_number word.now then Some (digits_value 10 word.now) else None) }
{
    if !is_decimal(word.as_bytes()) {
        return None;
    }
    word.parse::<u64>().ok()
}

/// The number that the option of a command encodes.
pub(crate) fn asked_number(word: Option<&str>) -> Result<u64, ErrorKind>
    ensures found { IfOk result (λ number.
        asked_number (option_map (λ s. s.now) word.entry) ≡ Ok number) }
    ensures refused { IfErr result (λ kind.
        asked_number (option_map (λ s. s.now) word.entry) ≡ Err kind) }
{
    match word {
        Some(word) => number_in(word).ok_or(ErrorKind::ValueValidation),
        None => Err(ErrorKind::MissingRequiredArgument),
    }
}

/// The numbers that words encode, if each encodes one.
fn numbers_in(alloc: Global, words: &[&str]) -> Result<Option<Vec<u64>>, AllocError>
    ensures { IfOk result (λ found. option_map (λ v. v.items) found
        ≡ (if list_all is_number (map (λ s. s.now) words.now)
        then Some (map (digits_value 10) (map (λ s. s.now) words.now)) else None)) }
{
    let mut numbers = Vec::new(alloc);
    for word in words {
        match number_in(word) {
            Some(number) => numbers.push(number)?,
            None => return Ok(None),
        }
    }
    Ok(Some(numbers))
}

/// The numbers of members that the words of a command encode.
fn asked_members(alloc: Global, words: Option<&[&str]>) -> Result<Sequence<u64>, WordsFault>
    ensures found { IfOk result (λ numbers.
        asked_numbers (option_map (λ s. map (λ v. v.now) s.now) words.entry) ≡ Ok numbers) }
    ensures refused { IfErr result (RefusesOnly
        (asked_numbers (option_map (λ s. map (λ v. v.now) s.now) words.entry))) }
{
    let Some(words) = words else {
        return Err(WordsFault::Refused(ErrorKind::MissingRequiredArgument));
    };
    match numbers_in(alloc, words) {
        Ok(Some(numbers)) => Ok(Sequence::from(numbers)),
        Ok(None) => Err(WordsFault::Refused(ErrorKind::ValueValidation)),
        Err(_) => Err(WordsFault::NoMemory),
    }
}

/// The dealing that the option and the words of `deal` ask for.
fn asked_deal(
    alloc: Global,
    threshold: Option<&str>,
    members: Option<&[&str]>,
) -> Result<Task, WordsFault>
    ensures found { IfOk result (λ task. asked_deal (option_map (λ s. s.now) threshold.entry)
        (option_map (λ s. map (λ v. v.now) s.now) members.entry) ≡ Ok task) }
    ensures refused { IfErr result (RefusesOnly
        (asked_deal (option_map (λ s. s.now) threshold.entry)
        (option_map (λ s. map (λ v. v.now) s.now) members.entry))) }
{
    match asked_number(threshold) {
        Ok(threshold) => {
            let members = asked_members(alloc, members)?;
            Ok(Task::Deal { threshold, members })
        }
        Err(kind) => Err(WordsFault::Refused(kind)),
    }
}

/// The word of an option, if it is there.
fn word_of<'a>(found: &ArgMatches<'a>, name: &str) -> Option<&'a str>
    ensures { option_map (λ s. s.now) result ≡ first_of name.now (rows_of (found_of found.now)) }
{
    found.get_str(name)
}

/// The words of a command that stand by themselves, if there are any.
fn words_of<'m, 'a>(found: &'m ArgMatches<'a>, name: &str) -> Option<&'m [&'a str]>
    ensures { option_map (λ s. map (λ v. v.now) s.now) result
        ≡ all_of name.now (rows_of (found_of found.now)) }
{
    found.get_strs(name)
}

/// The task that a command asks for, but `node` and `load`.
fn asked_task(alloc: Global, name: &str, found: &ArgMatches) -> Result<Task, WordsFault>
    ensures found { IfOk result (λ task.
        asked_task name.now (rows_of (found_of found.now)) ≡ Ok task) }
    ensures refused { IfErr result (RefusesOnly
        (asked_task name.now (rows_of (found_of found.now)))) }
{
    match name {
        "replay" => Ok(Task::Replay),
        "endorse" => Ok(Task::Sign {
            signing: Signing::Endorsement,
        }),
        "genesis" => Ok(Task::Sign {
            signing: Signing::Opening,
        }),
        "recover" => Ok(Task::Recover),
        "deal" => asked_deal(
            alloc,
            word_of(found, "threshold"),
            words_of(found, "members"),
        ),
        "keygen" => Ok(asked_keygen(word_of(found, "kind"), word_of(found, "types"))?),
        "sign" => Ok(asked_sign(word_of(found, "identity"), word_of(found, "member"))?),
        _ => Ok(task_under(name, asked_identity(word_of(found, "identity"))?)),
    }
}

/// How the node is to serve that `node` asks for.
fn asked_by_node(alloc: Global, found: &ArgMatches) -> Result<NodeTask, WordsFault>
    ensures found { IfOk result (λ node.
        asked_by_node (rows_of (found_of found.now)) ≡ Ok node) }
    ensures ticks { IfOk result (λ node. 1 ≤ node.ticks) }
    ensures refused { IfErr result (RefusesOnly
        (asked_by_node (rows_of (found_of found.now)))) }
{
    asked_node(
        alloc,
        word_of(found, "ticks"),
        word_of(found, "workers"),
        word_of(found, "turns"),
        words_of(found, "peers"),
    )
}

/// Which ledger `load` asks for.
fn asked_by_load(found: &ArgMatches) -> Result<LoadTask, ErrorKind>
    ensures found { IfOk result (λ load.
        asked_by_load (rows_of (found_of found.now)) ≡ Ok load) }
    ensures refused { IfErr result (λ kind.
        asked_by_load (rows_of (found_of found.now)) ≡ Err kind) }
{
    asked_load(word_of(found, "count"), word_of(found, "seed"))
}

/// What a command asks for.
fn asked_named(alloc: Global, name: &str, found: &ArgMatches) -> Result<Asked, WordsFault>
    ensures found { IfOk result (λ asked.
        asked_named name.now (rows_of (found_of found.now)) ≡ Ok asked) }
    ensures ticks { (node : NodeTasks) → result ≡ Ok (asks.Node node) → 1 ≤ node.ticks }
    ensures refused { IfErr result (RefusesOnly
        (asked_named name.now (rows_of (found_of found.now)))) }
{
    if name == "node" {
        return Ok(Asked::Node(asked_by_node(alloc, found)?));
    }
    if name == "load" {
        return Ok(Asked::Load(asked_by_load(found)?));
    }
    Ok(Asked::Task(asked_task(alloc, name, found)?))
}

/// What the command that was met asks for.
fn asked_command(alloc: Global, matches: &ArgMatches) -> Result<Asked, WordsFault>
    ensures found { IfOk result (λ asked.
        asked_command (subcommand_rows_of matches.now) ≡ Ok asked) }
    ensures ticks { (node : NodeTasks) → result ≡ Ok (asks.Node node) → 1 ≤ node.ticks }
    ensures refused { IfErr result (RefusesOnly
        (asked_command (subcommand_rows_of matches.now))) }
{
    match matches.subcommand() {
        Some((name, found)) => asked_named(alloc, name, found),
        None => Err(WordsFault::Refused(ErrorKind::MissingSubcommand)),
    }
}

/// What `clap` finds in the words.
fn matches_of<'a>(alloc: Global, words: &'a [String]) -> Result<ArgMatches<'a>, WordsFault>
    ensures found { IfOk result (λ matches.
        (fault_of program (map string_bytes words.entry.now) ≡ [])
        × (subcommand_rows_of matches
        ≡ subcommand_of program (map string_bytes words.entry.now))) }
    ensures refused { IfErr result (RefusesWords (asked (map string_bytes words.entry.now))) }
{
    let program = match program(alloc) {
        Ok(program) => program,
        Err(_) => return Err(WordsFault::NoMemory),
    };
    match program.try_get_matches_from(words) {
        Ok(matches) => Ok(matches),
        Err(error) => match error.kind() {
            ErrorKind::OutOfMemory => Err(WordsFault::NoMemory),
            kind => Err(WordsFault::Refused(kind)),
        },
    }
}

/// What the words ask for, which are those after the program's name. What `clap` finds wrong with
/// them comes before the tests of the values.
pub fn read_words(alloc: Global, words: &[String]) -> Result<Asked, WordsFault>
    ensures found { IfOk result (λ found. asked (map string_bytes words.now) ≡ Ok found) }
    ensures ticks { (node : NodeTasks) → result ≡ Ok (asks.Node node) → 1 ≤ node.ticks }
    ensures refused { IfErr result (RefusesWords (asked (map string_bytes words.now))) }
{
    let matches = matches_of(alloc, words)?;
    asked_command(alloc, &matches)
}
