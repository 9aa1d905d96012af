//! The command line: what the program tells of itself, and its commands as `clap` has them.

ghost use Rattle.std.specs.Prelude.{◌≡◌, IfOk, codes, false};
ghost use Rattle.clap.specs.Walk.{rule_of};
ghost use Rattle.gl_commands.specs.Commands.{IsCommand, audit_command, bare_program, deal_command, diskless_program, keygen_command, keyless_program, load_command, node_command, nodeless_program, optional_option, optional_words, program, required_option, required_words, sign_command, verify_command};

use clap::{Arg, Command};
use std::alloc::{AllocError, Global};

/// The version of the program.
pub const VERSION: &str = "0.1.0";

/// What `--help` alone prints.
pub const HELP: &str = "\
ccfg: a governed ledger

Commands:
  ccfg replay
      reads a schedule from standard input, replays it, and writes what each of
      its lines came to
  ccfg verify --identity HEX
      reads a receipt as JSON from standard input, verifies it under the
      service's key, which is 120 digits of lower-case hexadecimal, and writes
      'valid' and the transaction that it shows
  ccfg audit --identity HEX
      reads a ledger from standard input, tries each of its entries by the rules
      of the audit, under the service's key, and writes 'valid', the last
      transaction and that of the last signature, '-' where there is none
  ccfg @disk=PATH keygen --kind KIND --types TYPES
      reads 32 bytes from standard input, the seed of a key, begins a file of the
      key at PATH, where nothing may be yet, and writes its public form as JSON;
      KIND is service, node or member, and TYPES h5w4, h5w8, h10w4 or h10w8
  ccfg deal --threshold K N..
      reads 64 bytes from standard input, a recovery secret and the seed of its
      dealing, deals the secret among the members N.., 1 to 255 in ascending order,
      so that the shares of K of them give it, and writes the action that sets this
      dealing as JSON, and then for each member a line with N and the share, which
      is the member's secret
  ccfg @disk=PATH endorse
      reads a node's public key as JSON from standard input, endorses it with the
      service's key in the file at PATH, and writes it with its endorsement
  ccfg @disk=PATH genesis
      reads the settings of a service as JSON from standard input, opens it with
      the key of its first node in the file at PATH, and writes the ledger that
      opens it
  ccfg @disk=PATH sign --identity HEX --member N
      reads what a member asks for as JSON from standard input, signs it with the
      member's key in the file at PATH, as member N, 1 to 255, of the service with
      the key HEX, and writes the bytes of the request
  ccfg @disk=PATH recover
      reads from standard input 4 bytes, the length of what follows, the low one
      first, the new settings of a service as JSON, and the ledger that is left of
      it, founds it anew from the ledger's last signature on with the key of its
      first node in the file at PATH, and writes the ledger that opens it again
  ccfg @disk=PATH @listen=ADDR @peer=ADDR.. node [--ticks N] [--turns N] [ID..]
      serves as the node whose key is in the file at PATH: takes connections at
      ADDR, an address and a port, answers clients and goes on with its peers,
      whose identifiers are ID.., 64 digits of lower-case hexadecimal each, and
      which listen at the ADDR of @peer, in the same order. A file without a ledger
      takes the one that opens the service from standard input, or a snapshot of
      its ledger, or none, and the node joins. So many ticks without word of a
      leader, 10 if no word says it, make the node stand for election. It serves
      until it is stopped; with --turns it ends once it asked so often for what
      comes next. --workers 0 may be said too. It writes how many payloads it served
      and how many frames it lost
  ccfg load --count N --seed HEX
      makes a ledger of N requests, at most 100000, on one node over a disk in
      memory, audits it, and writes six lines of it: how many entries, signatures
      and bytes it has, how many keys the requests wrote to, its last transaction,
      and the root of the tree over its entries. All keys and all requests come
      from the seed, which is 64 digits of lower-case hexadecimal
  ccfg --help, ccfg --version
      write this text, and the version

@disk=PATH stands before the command and names the file that it uses; of several
the last one counts. keygen, endorse, genesis, sign, recover and node fail without
one, and the others use none. A file with a key is secret. Each of its leaves
signs once, and is spent before anything is written or sent. @listen=ADDR and
@peer=ADDR stand before the command too; node alone uses them.

Exit statuses:
  0  done
  1  the receipt or the ledger is not valid, the file that is to take a key is
     not empty, a secret can't be dealt so among the members, or nothing is signed:
     the file has no key of the kind that signs, its leaves are spent, the
     settings open no service, or the ledger is none that can be recovered; or the
     ledger opens no service that the node could begin with
  2  the words are not those of a command
  3  standard input failed
  4  standard output failed
  5  the file failed
  6  the sockets failed
  7  out of memory
  8  the input or the count passes a limit, or the node asked as often as it may
  9  the input is no schedule, no receipt, no seed, not as long as a secret with
     its seed, or not what is to be signed
At 1, 2, 8 and 9 exactly one line is written, 'fault' and why: of a ledger,
'fault seqno N rule R' tells the first entry that breaks a rule, and the first
rule that it breaks, and 'fault foreign HEX' the key of the service whose valid
ledger it is.

Examples:
  printf 'world 1 0 1 open %064d\\nids 1\\n' 0 | ccfg replay
  ccfg audit --identity $(cat identity) < valid.ledger
  head -c 32 /dev/urandom | ccfg @disk=node.key keygen --kind node --types h10w4
  ccfg @disk=service.key endorse < node.json > endorsed.json
  ccfg load --count 250 --seed $(printf %064d 0)
";

/// `--NAME WORD`, which has to be there.
fn required_option<'a>(alloc: Global, name: &'a str) -> Arg<'a>
    ensures rule { rule_of result ≡ required_option name.now }
    ensures local { result.global ≡ false }
{
    Arg::new(alloc, name).long(name).required(true)
}

/// `--NAME WORD`, which may be there.
fn optional_option<'a>(alloc: Global, name: &'a str) -> Arg<'a>
    ensures rule { rule_of result ≡ optional_option name.now }
    ensures local { result.global ≡ false }
{
    Arg::new(alloc, name).long(name)
}

/// Words that stand by themselves, of which one at least has to be there.
fn required_words<'a>(alloc: Global, name: &'a str) -> Arg<'a>
    ensures rule { rule_of result ≡ required_words name.now }
    ensures local { result.global ≡ false }
{
    Arg::new(alloc, name).required(true).num_args(1..)
}

/// Words that stand by themselves, if there are any.
fn optional_words<'a>(alloc: Global, name: &'a str) -> Arg<'a>
    ensures rule { rule_of result ≡ optional_words name.now }
    ensures local { result.global ≡ false }
{
    Arg::new(alloc, name).num_args(1..)
}

fn verify_command<'a>(alloc: Global) -> Result<Command<'a>, AllocError>
    ensures { IfOk result (IsCommand verify_command) }
{
    Command::new(alloc, "verify").arg(required_option(alloc, "identity"))
}

fn audit_command<'a>(alloc: Global) -> Result<Command<'a>, AllocError>
    ensures { IfOk result (IsCommand audit_command) }
{
    Command::new(alloc, "audit").arg(required_option(alloc, "identity"))
}

fn keygen_command<'a>(alloc: Global) -> Result<Command<'a>, AllocError>
    ensures { IfOk result (IsCommand keygen_command) }
{
    Command::new(alloc, "keygen")
        .arg(required_option(alloc, "kind"))?
        .arg(required_option(alloc, "types"))
}

fn sign_command<'a>(alloc: Global) -> Result<Command<'a>, AllocError>
    ensures { IfOk result (IsCommand sign_command) }
{
    Command::new(alloc, "sign")
        .arg(required_option(alloc, "identity"))?
        .arg(required_option(alloc, "member"))
}

fn deal_command<'a>(alloc: Global) -> Result<Command<'a>, AllocError>
    ensures { IfOk result (IsCommand deal_command) }
{
    Command::new(alloc, "deal")
        .arg(required_option(alloc, "threshold"))?
        .arg(required_words(alloc, "members"))
}

fn node_command<'a>(alloc: Global) -> Result<Command<'a>, AllocError>
    ensures { IfOk result (IsCommand node_command) }
{
    Command::new(alloc, "node")
        .arg(optional_option(alloc, "ticks"))?
        .arg(optional_option(alloc, "workers"))?
        .arg(optional_option(alloc, "turns"))?
        .arg(optional_words(alloc, "peers"))
}

fn load_command<'a>(alloc: Global) -> Result<Command<'a>, AllocError>
    ensures { IfOk result (IsCommand load_command) }
{
    Command::new(alloc, "load")
        .arg(required_option(alloc, "count"))?
        .arg(required_option(alloc, "seed"))
}

/// The program without its commands.
fn bare_program<'a>(alloc: Global) -> Command<'a>
    ensures { IsCommand bare_program result }
{
    Command::new(alloc, "ccfg")
        .version(VERSION)
        .no_binary_name(true)
        .subcommand_required(true)
        .disable_help_subcommand(true)
}

/// The program with the commands that use no disk but `deal`.
#[tactic(auto, unfolding(crate::specs::Commands::diskless_program))]
fn diskless_program<'a>(alloc: Global) -> Result<Command<'a>, AllocError>
    ensures { IfOk result (IsCommand diskless_program) }
{
    bare_program(alloc)
        .subcommand(Command::new(alloc, "replay"))?
        .subcommand(verify_command(alloc)?)?
        .subcommand(audit_command(alloc)?)
}

/// And with the one that begins a key, and the one that deals a secret.
#[tactic(auto, unfolding(crate::specs::Commands::keyless_program))]
fn keyless_program<'a>(alloc: Global) -> Result<Command<'a>, AllocError>
    ensures { IfOk result (IsCommand keyless_program) }
{
    diskless_program(alloc)?
        .subcommand(keygen_command(alloc)?)?
        .subcommand(deal_command(alloc)?)
}

/// And with those that sign once with a key.
#[tactic(auto, unfolding(crate::specs::Commands::nodeless_program))]
fn nodeless_program<'a>(alloc: Global) -> Result<Command<'a>, AllocError>
    ensures { IfOk result (IsCommand nodeless_program) }
{
    keyless_program(alloc)?
        .subcommand(Command::new(alloc, "endorse"))?
        .subcommand(Command::new(alloc, "genesis"))?
        .subcommand(sign_command(alloc)?)
}

/// And with the one that recovers a service, the one that serves as a node, and the one that makes
/// a ledger.
#[tactic(auto, unfolding(crate::specs::Commands::program))]
pub(crate) fn program<'a>(alloc: Global) -> Result<Command<'a>, AllocError>
    ensures { IfOk result (IsCommand program) }
{
    nodeless_program(alloc)?
        .subcommand(Command::new(alloc, "recover"))?
        .subcommand(node_command(alloc)?)?
        .subcommand(load_command(alloc)?)
}
