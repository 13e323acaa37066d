//! The program's command line.
ghost use Rattle.std.specs.Prelude.{◌≡◌, [], ◌∷◌, IfOk, codes};
ghost use Rattle.std.specs.List.{AllZip};
ghost use Rattle.clap.specs.Words.{app_of, rule_of};
ghost use Rattle.command_words.specs.Rules.{HasRule, flag, repeated, valued};
ghost use Rattle.command_words.specs.Verbs.{HasShape, verb};
ghost use Rattle.server_options.specs.CommandLine.{excluding, many, paths_rule, repair_rules, reshape_rules, restore_rules, serve_rules, verbs_of, with_default, with_parser_of, wozhinnam};

use clap::builder::ValueParser;
use clap::{Arg, ArgAction, Command};
use command_words::{add_verb, flag, needed_place, place, program_of, valued, verb};
use std::alloc::{AllocError, Global};

/// The program's command line.
pub fn program<'a>(alloc: Global) -> Result<Command<'a>, AllocError>
    ensures { IfOk result (λ command. (levels formats : ValueParser)
        × (app_of command ≡ wozhinnam levels formats)) }
{
    let verbs = verbs(alloc)?;
    let options = Vec::new(alloc);
    program_of(
        alloc,
        "wozhinnam",
        "0.1.0",
        "A web gateway for capability-addressed storage, over stores in memory, in folders and on Redis servers.",
        options,
        verbs,
    )
}

/// What the program can be asked for.
fn verbs<'a>(alloc: Global) -> Result<Vec<Command<'a>>, AllocError>
    ensures { IfOk result (λ list. (levels formats : ValueParser)
        × AllZip HasShape (verbs_of levels formats) list.items) }
{
    let mut list = Vec::with_capacity(alloc, 6)?;
    add_verb(&mut list, serving(alloc))?;
    add_verb(&mut list, checking(alloc))?;
    add_verb(&mut list, repairing(alloc))?;
    add_verb(&mut list, reshaping(alloc))?;
    add_verb(&mut list, imaging(alloc))?;
    add_verb(&mut list, restoring(alloc))?;
    Ok(list)
}

/// The command line of `serve`.
fn serving<'a>(alloc: Global) -> Result<Command<'a>, AllocError>
    ensures { IfOk result (λ command. (levels formats : ValueParser)
        × HasShape (verb (codes "serve") (serve_rules levels formats)) command) }
{
    let servers = servers(alloc)?;
    let no_pages = no_pages(alloc)?;
    let list = vec![in alloc;
        config(alloc),
        listen(alloc),
        control(alloc),
        control_token_file(alloc),
        shares(alloc),
        store(alloc),
        servers,
        room(alloc),
        new_folders(alloc),
        missing_folders(alloc),
        no_sync(alloc),
        secret_file(alloc),
        redis_password_file(alloc),
        pages(alloc),
        no_pages,
        connections(alloc),
        per_address(alloc),
        idle(alloc),
        memory(alloc),
        log_level(alloc),
        log_format(alloc),
    ]?;
    verb(
        alloc,
        "serve",
        "Serves connections until it is stopped.",
        list,
    )
}

/// The command line of `check`.
fn checking<'a>(alloc: Global) -> Result<Command<'a>, AllocError>
    ensures { IfOk result (HasShape (verb (codes "check") (paths_rule ∷ []))) }
{
    let list = vec![in alloc; paths(alloc, "a folder")]?;
    verb(
        alloc,
        "check",
        "Reads folders of a grid, and tells what stands in each; status 0 only if all is well.",
        list,
    )
}

/// The command line of `repair`.
fn repairing<'a>(alloc: Global) -> Result<Command<'a>, AllocError>
    ensures { IfOk result (HasShape (verb (codes "repair") repair_rules)) }
{
    let list = vec![in alloc;
        new_folders(alloc),
        no_sync(alloc),
        redis_password_file(alloc),
        paths(alloc, "a folder, or redis:HOST:PORT[/NAME]"),
    ]?;
    verb(
        alloc,
        "repair",
        "Puts the shares of a grid that are missing or rotten back into the folders of its servers, which are given in their order, made of the other shares; status 0 only if each is there afterwards.",
        list,
    )
}

/// The command line of `reshape`.
fn reshaping<'a>(alloc: Global) -> Result<Command<'a>, AllocError>
    ensures { IfOk result (HasShape (verb (codes "reshape") reshape_rules)) }
{
    let list = vec![in alloc; paths(alloc, "a folder"), new_places(alloc), no_sync(alloc)]?;
    verb(
        alloc,
        "reshape",
        "Lays the shares of a grid in its folders, which are given in the order of its servers, into another number of new folders; status 0 only if each is there afterwards.",
        list,
    )
}

/// The command line of `image`.
fn imaging<'a>(alloc: Global) -> Result<Command<'a>, AllocError>
    ensures { IfOk result (HasShape (verb (codes "image") (paths_rule ∷ []))) }
{
    let list = vec![in alloc; paths(alloc, "a folder")]?;
    verb(
        alloc,
        "image",
        "Writes the image of the grid in its folders, in their order, on standard output.",
        list,
    )
}

/// The command line of `restore`.
fn restoring<'a>(alloc: Global) -> Result<Command<'a>, AllocError>
    ensures { IfOk result (HasShape (verb (codes "restore") restore_rules)) }
{
    let list = vec![in alloc;
        shares(alloc),
        secret_file(alloc),
        no_sync(alloc),
        needed_place(alloc, "file", "FILE", "the image"),
        paths(alloc, "a folder"),
    ]?;
    verb(
        alloc,
        "restore",
        "Lays an image into new folders, one for each of its servers, in their order.",
        list,
    )
}

/// `--into`.
fn new_places<'a>(alloc: Global) -> Arg<'a>
    ensures { HasRule (many (valued (codes "into"))) result }
{
    many(valued(
        alloc,
        "into",
        "PATH",
        "the new folders, one for each server, in their order",
    ))
}

/// `--listen`.
fn listen<'a>(alloc: Global) -> Arg<'a>
    ensures { HasRule (with_default (codes "127.0.0.1:3456")
        (repeated (valued (codes "listen")))) result }
{
    valued(
        alloc,
        "listen",
        "ADDR[,secret=PATH]",
        "where connections are accepted, up to 64 times; with secret=PATH they are opened under the secret in that file, and else under that of --secret-file",
    )
    .action(ArgAction::Append)
    .default_value("127.0.0.1:3456")
}

/// `--no-pages`.
fn no_pages<'a>(alloc: Global) -> Result<Arg<'a>, AllocError>
    ensures { IfOk result (HasRule (excluding (flag (codes "no-pages")))) }
{
    excluding(
        flag(
            alloc,
            "no-pages",
            "no pages, also where the folder pages is there",
        ),
        "pages",
    )
}

/// `--store`.
fn store<'a>(alloc: Global) -> Arg<'a>
    ensures { HasRule (repeated (valued (codes "store"))) result }
{
    valued(
        alloc,
        "store",
        "STORE",
        "a store: dir:PATH or dir:PATH:BYTES keeps its shares in a folder too, dir:PATH:BYTES,disk there alone, dir:PATH,shared there alone and beside other programs that serve it so, redis:HOST:PORT[/NAME][:BYTES] on a Redis server, mem:BYTES in memory; one for each server, in their order. BYTES are as in --room",
    )
    .action(ArgAction::Append)
}

/// `--servers`.
fn servers<'a>(alloc: Global) -> Result<Arg<'a>, AllocError>
    ensures { IfOk result (HasRule (excluding (with_default (codes "5")
        (with_parser_of (ValueParser.Unsigned 1 256) (valued (codes "servers")))))) }
{
    let count = valued(
        alloc,
        "servers",
        "COUNT",
        "how many stores there are, in memory, where no --store names one",
    );
    excluding(
        defaulted(parsed(count, ValueParser::unsigned(1, 256)), "5"),
        "store",
    )
}

/// `--room`.
fn room<'a>(alloc: Global) -> Arg<'a>
    ensures { HasRule (with_default (codes "1G") (valued (codes "room"))) result }
{
    valued(
        alloc,
        "room",
        "BYTES",
        "how many bytes each store takes that doesn't say it: digits, and K, M, G or T behind them for powers of 1,024",
    )
    .default_value("1G")
}

/// The folders of a grid.
fn paths<'a>(alloc: Global, help: &'a str) -> Arg<'a>
    ensures { HasRule paths_rule result }
{
    many(place(alloc, "paths", "PATH", help))
}

/// An argument that has to stand, with 1 to 256 values.
fn many<'a>(argument: Arg<'a>) -> Arg<'a>
    ensures rule { rule_of result ≡ many (rule_of argument.entry) }
    ensures local { result.global ≡ argument.entry.global }
{
    argument
        .required(true)
        .num_args(1..257)
        .action(ArgAction::Append)
}

/// `--shares`.
fn shares<'a>(alloc: Global) -> Arg<'a>
    ensures { HasRule (with_default (codes "3,10") (valued (codes "shares"))) result }
{
    valued(
        alloc,
        "shares",
        "K,N",
        "how many of a file's N shares give it back",
    )
    .default_value("3,10")
}

/// `--secret-file`.
fn secret_file<'a>(alloc: Global) -> Arg<'a>
    ensures { HasRule (valued (codes "secret-file")) result }
{
    valued(
        alloc,
        "secret-file",
        "PATH",
        "a file whose bytes, at most 256, go into the key of each stored file",
    )
}

/// `--control-token-file`.
fn control_token_file<'a>(alloc: Global) -> Arg<'a>
    ensures { HasRule (valued (codes "control-token-file")) result }
{
    valued(
        alloc,
        "control-token-file",
        "PATH",
        "a file whose bytes, 1 to 256 of visible ASCII and without the line's end behind them, are a token: without `Authorization: Bearer TOKEN` a control request is refused",
    )
}

/// `--redis-password-file`.
fn redis_password_file<'a>(alloc: Global) -> Arg<'a>
    ensures { HasRule (valued (codes "redis-password-file")) result }
{
    valued(
        alloc,
        "redis-password-file",
        "PATH",
        "a file whose bytes, without the line's end behind them, are the password of each Redis server",
    )
}

/// `--new`.
fn new_folders<'a>(alloc: Global) -> Arg<'a>
    ensures { HasRule (repeated (valued (codes "new"))) result }
{
    valued(
        alloc,
        "new",
        "PATH",
        "the folder of a store that may be begun beside others of its grid; once for each such folder",
    )
    .action(ArgAction::Append)
}

/// `--missing`.
fn missing_folders<'a>(alloc: Global) -> Arg<'a>
    ensures { HasRule (repeated (valued (codes "missing"))) result }
{
    valued(
        alloc,
        "missing",
        "PATH",
        "the folder of a store that is gone or not mounted: the others are served without it, until the program ends; once for each such folder",
    )
    .action(ArgAction::Append)
}

/// `--no-sync`.
fn no_sync<'a>(alloc: Global) -> Arg<'a>
    ensures { HasRule (flag (codes "no-sync")) result }
{
    flag(
        alloc,
        "no-sync",
        "doesn't wait for disks: faster, but a crash of the machine, not of the program, may lose the last seconds or leave files of them rotten",
    )
}

/// `--config`.
fn config<'a>(alloc: Global) -> Arg<'a>
    ensures { HasRule (valued (codes "config")) result }
{
    valued(
        alloc,
        "config",
        "FILE",
        "a TOML file with more options, whose keys are their names without the dashes; one that is given here too counts as it is given here",
    )
}

/// `--control`.
fn control<'a>(alloc: Global) -> Arg<'a>
    ensures { HasRule (valued (codes "control")) result }
{
    valued(
        alloc,
        "control",
        "ADDR",
        "where GET /status, GET /metrics and POST /stop are answered",
    )
}

/// `--pages`.
fn pages<'a>(alloc: Global) -> Arg<'a>
    ensures { HasRule (valued (codes "pages")) result }
{
    valued(
        alloc,
        "pages",
        "FOLDER",
        "a folder whose files are pages beside the web API: index.html at /, each other one under its name; without it the folder pages beside the program, where there is one",
    )
}

/// `--connections`.
fn connections<'a>(alloc: Global) -> Arg<'a>
    ensures { HasRule (with_default (codes "900")
        (with_parser_of (ValueParser.Unsigned 1 1000000)
        (valued (codes "connections")))) result }
{
    let connections = valued(
        alloc,
        "connections",
        "MAX",
        "how many connections may be open at once",
    );
    defaulted(
        parsed(connections, ValueParser::unsigned(1, 1_000_000)),
        "900",
    )
}

/// `--per-address`.
fn per_address<'a>(alloc: Global) -> Arg<'a>
    ensures { HasRule (with_parser_of (ValueParser.Unsigned 1 1000000)
        (valued (codes "per-address"))) result }
{
    let of_one = valued(
        alloc,
        "per-address",
        "MAX",
        "how many connections one address may have open, of IPv6 its /64; where this isn't given, a quarter of --connections, and any number for the machine's own addresses",
    );
    parsed(of_one, ValueParser::unsigned(1, 1_000_000))
}

/// `--idle`.
fn idle<'a>(alloc: Global) -> Arg<'a>
    ensures { HasRule (with_default (codes "60")
        (with_parser_of (ValueParser.Unsigned 1 86400) (valued (codes "idle")))) result }
{
    let idle = valued(
        alloc,
        "idle",
        "SECONDS",
        "for how long a connection may be silent",
    );
    defaulted(parsed(idle, ValueParser::unsigned(1, 86_400)), "60")
}

/// `--memory`.
fn memory<'a>(alloc: Global) -> Arg<'a>
    ensures { HasRule (with_default (codes "256M") (valued (codes "memory"))) result }
{
    let memory = valued(
        alloc,
        "memory",
        "BYTES",
        "how many bytes are kept of requests and replies, as in --room, before those who send or ask for long ones have to wait",
    );
    defaulted(memory, "256M")
}

/// `--log-level`.
fn log_level<'a>(alloc: Global) -> Arg<'a>
    ensures { (levels : ValueParser) × HasRule (with_default (codes "info")
        (with_parser_of levels (valued (codes "log-level")))) result }
{
    let level = valued(
        alloc,
        "log-level",
        "LEVEL",
        "which lines are written on standard error: those of this level and of graver ones",
    );
    let levels = ValueParser::Names(["error", "warn", "info", "debug"].as_slice());
    defaulted(parsed(level, levels), "info")
}

/// `--log-format`.
fn log_format<'a>(alloc: Global) -> Arg<'a>
    ensures { (formats : ValueParser) × HasRule (with_default (codes "text")
        (with_parser_of formats (valued (codes "log-format")))) result }
{
    let format = valued(
        alloc,
        "log-format",
        "FORMAT",
        "how a line is written: as a text, or as an object of JSON, with the time",
    );
    let formats = ValueParser::Names(["text", "json"].as_slice());
    defaulted(parsed(format, formats), "text")
}

/// An argument whose values are read so.
fn parsed<'a>(argument: Arg<'a>, parser: ValueParser<'a>) -> Arg<'a>
    ensures rule { rule_of result ≡ with_parser_of parser.entry (rule_of argument.entry) }
    ensures local { result.global ≡ argument.entry.global }
{
    argument.value_parser(parser)
}

/// An argument that has this value where it doesn't stand.
fn defaulted<'a>(argument: Arg<'a>, value: &'a str) -> Arg<'a>
    ensures rule { rule_of result ≡ with_default value.entry.now (rule_of argument.entry) }
    ensures local { result.global ≡ argument.entry.global }
{
    argument.default_value(value)
}

/// An argument that doesn't stand beside another one.
fn excluding<'a>(argument: Arg<'a>, other: &'a str) -> Result<Arg<'a>, AllocError>
    ensures rule { IfOk result (λ arg. rule_of arg ≡ excluding (rule_of argument.entry)) }
    ensures local { IfOk result (λ arg. arg.global ≡ argument.entry.global) }
{
    argument.conflicts_with(other)
}
