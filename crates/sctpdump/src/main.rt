//! Prints the SCTP packets of a capture, or of lines of hex text.
#![tactic(auto)]

mod ack_text;
mod acks;
mod channel_text;
mod channels;
mod course;
mod messages;
mod pending;
mod reading;
mod save;
mod text;
mod tsn_reset;
mod way;

use crate::acks::Acks;
use crate::channels::Channels;
use crate::course::{Course, Kept, Printed, Viewed};
use crate::messages::Messages;
use clap::{Arg, ArgAction, ArgMatches, Command};
use sctp_follow::ladder::{Ladders, Style};
use sctp_follow::summarize::Take;
use sctp_follow::sums::Sums;
use sctp_follow::svg::Pictures;
use sctp_follow::track::Tracker;
use sctp_show::checksum::Sum;
use sctp_show::choice::Choice;
use sctp_show::columns::Layout;
use sctp_show::follow::Alone;
use sctp_show::page::Form;
use sctp_show::run::{Counts, RunFault};
use sctp_show::text::Options;
use sctp_show::time::Clock;
use std::alloc::{AllocError, Global};
use std::fmt::Display;
use std::io::{self, BufWriter, ErrorKind, IsTerminal, Write};
use std::process::ExitCode;
use std::{env, fs};

/// The UDP port of SCTP in UDP (RFC 6951).
const TUNNEL_PORT: u16 = 9899;

/// What `--version` says.
const VERSION: &str = "0.1.0";

/// How many bytes are written at once.
const AT_ONCE: usize = 65_536;

/// What a filter may say.
const FILTER_WORDS: &str =
    "a filter is port, tag, type, stream, tsn, ppid, addr, src, dst or time, = and values (tsn=5-9 is a range), refused or refused=checksum; or several with and, or, not";

/// What is printed in place of packets.
const VIEW_WORDS: &str =
    "--summary, --flow, --messages, --acks, --channels and --svg do not go together, nor --flow or --svg with --json or -V, nor --messages, --acks or --channels with -V, nor --columns with any of them, -V or --json";

/// What the color, the numbers and the picture may be.
const COLOR_WORDS: &str = "--color is auto, always or never";

const TIME_WORDS: &str = "-t is r, e or ad";

const NUMBER_WORDS: &str = "the port is a number up to 65535, and the count a number";

const PICTURE_WORDS: &str = "the FILE of --svg is - or ends in .svg";

const FILTER_HELP: &str =
    "Show only packets with one of these: port, tag, type, stream, tsn (also FROM-TO), ppid; addr, src, dst (also ADDRESS/BITS); time=FROM-TO in seconds since the first record; `refused`, `refused=checksum`; with ` or `, ` and ` between them, or `not ` before one";

const FULL_HELP: &str = "Print all that each chunk says, as lines";

const TIMES_HELP: &str =
    "Print times as seconds since the first record (r), since 1970 (e), or as dates in UTC (ad)";

const RELATIVE_HELP: &str =
    "Print TSNs relative to the initial one of their way, or the first one seen; not in JSON";

const COLOR_HELP: &str =
    "Color packets by the side that sent them, and what is refused, has a wrong checksum or repeats a TSN: auto (on a terminal), always or never";

const COLUMNS_HELP: &str =
    "Print packets in columns, below a line that names them: number, time, source, destination, length of the frame, and what it holds";

const JSON_HELP: &str = "Print each record as a JSON object on a line, with all that it says";

const SUMMARY_HELP: &str =
    "Print no packets, but for each association what went each way: chunks, bytes, TSNs, streams";

const FLOW_HELP: &str = "Print the packets of each association as arrows between its two ends";

const MESSAGES_HELP: &str =
    "Print the messages of each association, each whole, as a receiver reads them";

const ACKS_HELP: &str =
    "Print for each DATA chunk which record acknowledged it, the round trip, and why it was sent again";

const CHANNELS_HELP: &str =
    "Print the data channels of each association: label, reliability, who opened and closed it, what it carried";

const SVG_HELP: &str =
    "Draw the TSNs of each association over time into FILE, whose name ends in .svg; - for standard output";

const WRITE_HELP: &str =
    "Print nothing, but write the records of the packets into FILE, as pcapng; - for standard output";

/// With what `-w` does not go together.
const WRITE_WORDS: &str =
    "-w does not go with another view, -V, --columns or --json, and its FILE is none of those that are read";

const COUNT_HELP: &str = "End after COUNT records are shown";

const PORT_HELP: &str = "The UDP port of SCTP in UDP, in place of 9899";

const FILE_HELP: &str =
    "Captures (pcap, pcapng), lines of hex text, or dumps, which are read as one capture; - or none for standard input";

const READ_HELP: &str = "Read FILE, before those that stand alone";

/// What a message calls the standard input.
const STANDARD_INPUT: &str = "standard input";

/// What a message calls the standard output.
const STANDARD_OUTPUT: &str = "standard output";

/// Writes a line to standard error: why the input of this name, or the output, could not be dealt with. Answers that it could not.
fn report<D: Display + Drop>(rt: &HostRuntime, name: &str, why: D) -> anyhow::Result<bool> {
    eprintln!(rt; "sctpdump: {name}: {why}")?;
    Ok(false)
}

/// The same for an error of the system, without its number.
fn report_error(rt: &HostRuntime, name: &str, error: io::Error) -> anyhow::Result<bool> {
    let words = format!(in rt.alloc(); "{error}")?;
    let words = words.as_str();
    let words = match words.split_once(" (os error") {
        Some((before, _)) => before,
        None => words,
    };
    report(rt, name, words)
}

/// An error of the system by its number, if there is one.
fn system_error(code: Option<i32>) -> io::Error {
    match code {
        Some(code) => io::Error::from_raw_os_error(code),
        None => io::Error::other("failed"),
    }
}

/// Says that the output of this name failed. Where its reader has gone, as `head` does, that is no failure.
fn report_output(rt: &HostRuntime, sink: &str, error: io::Error) -> anyhow::Result<bool> {
    if error.kind() == ErrorKind::BrokenPipe {
        return Ok(true);
    }
    report_error(rt, sink, error)
}

/// Says why a run ended early: why the input of this name, or the output, could not be dealt with.
fn report_fault(rt: &HostRuntime, name: &str, fault: RunFault) -> anyhow::Result<bool> {
    match fault {
        RunFault::Input(code) => report_error(rt, name, system_error(code)),
        RunFault::Output(code) => report_output(rt, name, system_error(code)),
        RunFault::Memory => report(rt, name, "out of memory"),
        RunFault::Other(kind) => report(rt, name, kind),
        RunFault::TooMany => report(rt, name, "more than 2^64 - 1 records"),
    }
}

/// Says how many records of an input could not be read, if any: by what was read before it, and with it.
fn report_counts(
    rt: &HostRuntime,
    name: &str,
    before: Counts,
    after: Counts,
) -> anyhow::Result<bool> {
    let unread = after.unread.saturating_sub(before.unread);
    let records = after.records.saturating_sub(before.records);
    if unread == 0 {
        return Ok(true);
    }
    eprintln!(rt; "sctpdump: {name}: {unread} of {records} records could not be read")?;
    Ok(false)
}

/// What is printed of the inputs.
#[derive(Clone, Copy, PartialEq, Eq)]
enum View {
    Records,
    /// What they are summed up to.
    Summary,
    /// The packets between the ends of their associations.
    Ladders,
    /// What receivers read of them.
    Messages,
    /// What acknowledged their chunks.
    Acks,
    /// Their data channels.
    Channels,
    /// Their TSNs over time.
    Pictures,
}

/// How the inputs are printed.
#[derive(Drop)]
struct Task<'a> {
    options: Options,
    view: View,
    /// Whether TSNs are printed relative to those that they are counted from.
    is_relative: bool,
    /// The file that pictures are written to.
    picture: Option<&'a str>,
    /// The file that records are written to.
    saved: Option<&'a str>,
}

impl<'a> Task<'a> {
    /// How messages and acknowledgements are printed.
    fn style(&self) -> text::Style {
        text::Style {
            form: self.options.form,
            clock: self.options.clock,
            is_relative: self.is_relative,
        }
    }

    /// How ladders are printed.
    fn ladder_style(&self) -> Style {
        Style {
            clock: self.options.clock,
            is_relative: self.is_relative,
            is_colored: self.options.is_colored,
        }
    }
}

/// Reads a file, or the standard input.
fn read_file<W: Write, C: Course<W>>(
    rt: &HostRuntime,
    options: &Options,
    file: &str,
    course: &mut C,
    output: &mut W,
) -> Result<(), RunFault> {
    if file == "-" {
        return course.read(rt.alloc(), options, rt.reader(), output);
    }
    match fs::open(rt, file) {
        Ok(input) => course.read(rt.alloc(), options, input, output),
        Err(error) => Err(RunFault::Input(error.raw_os_error())),
    }
}

/// Reads the files one after the other, until as many records are shown as are to be shown at most, or the output fails, and says which could
/// not be read. Answers whether all were.
fn read_each<W: Write, C: Course<W>>(
    rt: &HostRuntime,
    options: &Options,
    files: &[&str],
    course: &mut C,
    output: &mut W,
) -> anyhow::Result<Result<bool, RunFault>> {
    let mut is_all = true;
    for file in files {
        let before = course.counts();
        if before.shown >= options.limit {
            return Ok(Ok(is_all));
        }
        let name = if *file == "-" { STANDARD_INPUT } else { *file };
        match read_file(rt, options, file, course, output) {
            Ok(()) => {}
            Err(RunFault::Output(code)) => return Ok(Err(RunFault::Output(code))),
            Err(fault) => is_all = report_fault(rt, name, fault)? && is_all,
        }
        is_all = report_counts(rt, name, before, course.counts())? && is_all;
    }
    Ok(Ok(is_all))
}

/// Reads the files, and writes what is written at their end, unless nothing of them could be read.
fn read_all<W: Write, C: Course<W>>(
    rt: &HostRuntime,
    options: &Options,
    files: &[&str],
    mut course: C,
    output: &mut W,
) -> anyhow::Result<Result<bool, RunFault>>
where
    C: Drop,
{
    let is_all = match read_each(rt, options, files, &mut course, output)? {
        Ok(is_all) => is_all,
        Err(fault) => return Ok(Err(fault)),
    };
    if !is_all && course.counts().records == 0 {
        return Ok(Ok(false));
    }
    match course.end(rt.alloc(), options, output) {
        Ok(()) => Ok(Ok(is_all)),
        Err(fault) => Ok(Err(fault)),
    }
}

/// Prints the records of the files. The packets before one are kept in mind only where its line depends on them.
fn print_records<W: Write>(
    rt: &HostRuntime,
    task: &Task<'_>,
    files: &[&str],
    output: &mut W,
) -> anyhow::Result<Result<bool, RunFault>> {
    let (alloc, options) = (rt.alloc(), &task.options);
    if task.is_relative || options.is_colored {
        let tracker = Tracker::new(alloc, task.is_relative);
        return read_all(rt, options, files, Printed::new(alloc, tracker)?, output);
    }
    let alone = Alone::new(alloc);
    read_all(rt, options, files, Printed::new(alloc, alone)?, output)
}

/// Prints what the packets of the files amount to.
fn print_view<W: Write, T: Take + Drop>(
    rt: &HostRuntime,
    options: &Options,
    files: &[&str],
    taker: T,
    output: &mut W,
) -> anyhow::Result<Result<bool, RunFault>> {
    read_all(rt, options, files, Viewed::new(rt.alloc(), taker), output)
}

/// Prints what is asked for of the files.
fn print_files<W: Write>(
    rt: &HostRuntime,
    task: &Task<'_>,
    files: &[&str],
    output: &mut W,
) -> anyhow::Result<Result<bool, RunFault>> {
    let (alloc, options, style) = (rt.alloc(), &task.options, task.style());
    if task.saved.is_some() {
        return read_all(rt, options, files, Kept::new(alloc)?, output);
    }
    match task.view {
        View::Records => print_records(rt, task, files, output),
        View::Summary => {
            let sums = Sums::new(alloc, options.form, options.clock);
            print_view(rt, options, files, sums, output)
        }
        View::Ladders => {
            let ladders = Ladders::new(alloc, task.ladder_style());
            print_view(rt, options, files, ladders, output)
        }
        View::Messages => print_view(rt, options, files, Messages::new(alloc, style), output),
        View::Acks => print_view(rt, options, files, Acks::new(alloc, style), output),
        View::Channels => print_view(rt, options, files, Channels::new(alloc, style), output),
        View::Pictures => print_view(rt, options, files, Pictures::new(alloc), output),
    }
}

/// Writes the picture of the files to a file, once all of them are read.
fn run_picture(
    rt: &HostRuntime,
    task: &Task<'_>,
    files: &[&str],
    picture: &str,
) -> anyhow::Result<bool> {
    let mut drawn = Vec::new(rt.alloc());
    let is_all = match print_files(rt, task, files, &mut drawn)? {
        Ok(is_all) => is_all,
        Err(fault) => return report_fault(rt, picture, fault),
    };
    match fs::write(rt, picture, drawn.as_slice()) {
        Ok(()) => Ok(is_all),
        Err(error) => report_error(rt, picture, error),
    }
}

/// Prints the files to the output of this name. Answers whether all were read, and all was written.
fn run_on<W: Write + Drop>(
    rt: &HostRuntime,
    task: &Task<'_>,
    files: &[&str],
    sink: &str,
    writer: W,
) -> anyhow::Result<bool> {
    let mut output = BufWriter::with_capacity(rt.alloc(), AT_ONCE, writer)?;
    let result = print_files(rt, task, files, &mut output)?;
    match (result, output.flush()) {
        (Err(fault), _) => report_fault(rt, sink, fault),
        (Ok(_), Err(error)) => report_output(rt, sink, error),
        (Ok(is_all), Ok(())) => Ok(is_all),
    }
}

/// The port that a word says, or 9899 where there is no word.
fn port_of(word: Option<&str>) -> Option<u16> {
    match word {
        None => Some(TUNNEL_PORT),
        Some(word) => word.parse::<u16>().ok(),
    }
}

/// The count that a word says, or the greatest one where there is no word.
fn count_of(word: Option<&str>) -> Option<u64> {
    match word {
        None => Some(u64::MAX),
        Some(word) => word.parse::<u64>().ok(),
    }
}

/// How times are printed, by a word: as seconds since the first record where there is no word, or `r`.
fn clock_of(word: Option<&str>) -> Option<Clock> {
    match word {
        None | Some("r") => Some(Clock::Elapsed),
        Some("e") => Some(Clock::Seconds),
        Some("ad") => Some(Clock::Dates),
        Some(_) => None,
    }
}

/// Whether the environment asks for no color (no-color.org).
fn refuses_color(rt: &HostRuntime) -> bool {
    match env::var(rt, "NO_COLOR") {
        Ok(value) => !value.is_empty(),
        Err(_) => false,
    }
}

/// Whether lines are colored, by a word: on a terminal where there is no word, or `auto`.
fn is_colored_by(rt: &HostRuntime, word: Option<&str>) -> Option<bool> {
    match word {
        None | Some("auto") => Some(rt.stdout().is_terminal() && !refuses_color(rt)),
        Some("always") => Some(true),
        Some("never") => Some(false),
        Some(_) => None,
    }
}

/// A flag of the command line, and what `--help` says of it.
fn flag<'a>(alloc: Global, name: &'a str, help: &'a str) -> Arg<'a> {
    Arg::new(alloc, name)
        .long(name)
        .help(help)
        .action(ArgAction::SetTrue)
}

/// A word of the command line that has a value, and what `--help` says of it.
fn valued<'a>(alloc: Global, name: &'a str, value: &'a str, help: &'a str) -> Arg<'a> {
    Arg::new(alloc, name)
        .long(name)
        .value_name(value)
        .help(help)
}

/// The files of the command line.
fn files<'a>(alloc: Global) -> Arg<'a> {
    Arg::new(alloc, "file")
        .value_name("FILE")
        .num_args(0..)
        .action(ArgAction::Append)
        .help(FILE_HELP)
}

/// The word for `--version`.
fn version<'a>(alloc: Global) -> Arg<'a> {
    Arg::new(alloc, "version")
        .long("version")
        .action(ArgAction::Version)
        .help("Print version")
}

/// The command line without its words.
fn bare<'a>(alloc: Global) -> Command<'a> {
    Command::new(alloc, "sctpdump")
        .version(VERSION)
        .disable_version_flag(true)
        .about("Prints what SCTP datagrams hold, whatever their bytes")
}

/// Adds the words that say how records are printed.
fn with_forms<'a>(alloc: Global, command: Command<'a>) -> Result<Command<'a>, AllocError> {
    command
        .arg(flag(alloc, "full", FULL_HELP).short('V'))?
        .arg(valued(alloc, "times", "FORMAT", TIMES_HELP).short('t'))?
        .arg(flag(alloc, "relative", RELATIVE_HELP))?
        .arg(valued(alloc, "color", "WHEN", COLOR_HELP))?
        .arg(flag(alloc, "columns", COLUMNS_HELP))?
        .arg(flag(alloc, "json", JSON_HELP))?
        .arg(flag(alloc, "summary", SUMMARY_HELP))?
        .arg(flag(alloc, "flow", FLOW_HELP))?
        .arg(flag(alloc, "messages", MESSAGES_HELP))?
        .arg(flag(alloc, "acks", ACKS_HELP))?
        .arg(flag(alloc, "channels", CHANNELS_HELP))?
        .arg(valued(alloc, "svg", "FILE", SVG_HELP))
}

/// Adds the words that say which records are printed.
fn with_choice<'a>(alloc: Global, command: Command<'a>) -> Result<Command<'a>, AllocError> {
    let filter = valued(alloc, "filter", "KEY=VALUE,..", FILTER_HELP)
        .short('f')
        .action(ArgAction::Append);
    let count = valued(alloc, "count", "COUNT", COUNT_HELP).short('c');
    let write = valued(alloc, "write", "FILE", WRITE_HELP).short('w');
    command.arg(filter)?.arg(count)?.arg(write)
}

/// Adds the words that say how records are read.
fn with_input<'a>(alloc: Global, command: Command<'a>) -> Result<Command<'a>, AllocError> {
    command
        .arg(flag(alloc, "no-checksum", "Do not compute checksums"))?
        .arg(valued(alloc, "port", "N", PORT_HELP))?
        .arg(
            valued(alloc, "read", "FILE", READ_HELP)
                .short('r')
                .action(ArgAction::Append),
        )?
        .arg(files(alloc))
}

/// The words of the command line, and what `--help` says of each.
fn command<'a>(alloc: Global) -> Result<Command<'a>, AllocError> {
    let command = with_forms(alloc, bare(alloc))?;
    let command = with_choice(alloc, command)?;
    with_input(alloc, command)?.arg(version(alloc))
}

/// What is asked for, or the word that says nothing of it.
fn filter_in<'a>(
    alloc: Global,
    matches: &ArgMatches<'a>,
) -> Result<Result<Choice, &'a str>, AllocError> {
    let mut filter = Choice::new(alloc);
    for word in matches.get_strs("filter").unwrap_or(&[]) {
        if !filter.ask(alloc, word)? {
            return Ok(Err(word));
        }
    }
    Ok(Ok(filter))
}

/// The inputs: those of `-r`, and then those that stand alone.
fn files_in<'a>(alloc: Global, matches: &ArgMatches<'a>) -> Result<Vec<&'a str>, AllocError> {
    let mut files = Vec::new(alloc);
    for file in matches.get_strs("read").unwrap_or(&[]) {
        files.push(*file)?;
    }
    for file in matches.get_strs("file").unwrap_or(&[]) {
        files.push(*file)?;
    }
    Ok(files)
}

/// What is to be printed. Ladders and pictures have one form, and but for records nothing is printed in full or in columns.
fn view_in(matches: &ArgMatches<'_>) -> Option<View> {
    let is_json = matches.get_flag("json");
    let is_full = matches.get_flag("full");
    let is_columns = matches.get_flag("columns");
    let flags = (
        matches.get_flag("summary"),
        matches.get_flag("flow"),
        matches.get_flag("messages"),
        matches.get_flag("acks"),
        matches.get_flag("channels"),
        matches.get_str("svg").is_some(),
    );
    match flags {
        (false, false, false, false, false, false) if !is_columns => Some(View::Records),
        (false, false, false, false, false, false) if !is_json && !is_full => Some(View::Records),
        _ if is_columns => None,
        (true, false, false, false, false, false) => Some(View::Summary),
        (false, true, false, false, false, false) if !is_json && !is_full => Some(View::Ladders),
        (false, false, true, false, false, false) if !is_full => Some(View::Messages),
        (false, false, false, true, false, false) if !is_full => Some(View::Acks),
        (false, false, false, false, true, false) if !is_full => Some(View::Channels),
        (false, false, false, false, false, true) if !is_json && !is_full => Some(View::Pictures),
        _ => None,
    }
}

/// Whether a picture may be written to this file: it overwrites no capture by mistake.
fn is_picture(picture: Option<&str>) -> bool {
    match picture {
        None => true,
        Some(name) => name == "-" || name.ends_with(".svg"),
    }
}

/// Whether records may be written to this file: it is none of those that are read, and nothing else is printed.
fn is_saved(saved: Option<&str>, view: View, options: &Options, files: &[&str]) -> bool {
    let Some(path) = saved else {
        return true;
    };
    view == View::Records
        && options.layout == Layout::Lines
        && options.form == Form::Text
        && (path == "-" || !files.contains(&path))
}

/// How records stand that are printed as text.
fn layout_in(matches: &ArgMatches<'_>) -> Layout {
    match (matches.get_flag("full"), matches.get_flag("columns")) {
        (true, _) => Layout::Blocks,
        (false, true) => Layout::Columns,
        (false, false) => Layout::Lines,
    }
}

/// How records are to be looked at, if the port and the count are numbers that can be.
fn options_in(
    matches: &ArgMatches<'_>,
    filter: Choice,
    is_colored: bool,
    clock: Clock,
) -> Option<Options> {
    let port = port_of(matches.get_str("port"))?;
    let limit = count_of(matches.get_str("count"))?;
    let sum = if matches.get_flag("no-checksum") {
        Sum::Unchecked
    } else {
        Sum::Crc32c
    };
    let form = if matches.get_flag("json") {
        Form::Json
    } else {
        Form::Text
    };
    Some(Options {
        sum,
        port,
        form,
        layout: layout_in(matches),
        clock,
        is_colored: is_colored && form == Form::Text,
        filter,
        limit,
    })
}

/// Prints the files of the command line, or the standard input, where there are none.
fn run_files(rt: &HostRuntime, task: &Task<'_>, files: &[&str]) -> anyhow::Result<bool> {
    let files: &[&str] = if files.is_empty() { &["-"] } else { files };
    match (task.saved, task.picture) {
        (None | Some("-"), None | Some("-")) => {
            run_on(rt, task, files, STANDARD_OUTPUT, io::writer(rt))
        }
        (Some(path), _) => match fs::create(rt, path) {
            Ok(file) => run_on(rt, task, files, path, file),
            Err(error) => report_error(rt, path, error),
        },
        (None, Some(picture)) => run_picture(rt, task, files, picture),
    }
}

/// Says why the command line cannot be followed.
fn refuse<'a>(rt: &HostRuntime, why: &str) -> anyhow::Result<Option<Task<'a>>> {
    eprintln!(rt; "sctpdump: {why}")?;
    Ok(None)
}

/// What the command line asks for, of these inputs. Where it cannot be followed it says why.
fn task_in<'a>(
    rt: &HostRuntime,
    matches: &ArgMatches<'a>,
    files: &[&str],
) -> anyhow::Result<Option<Task<'a>>> {
    let filter = match filter_in(rt.alloc(), matches)? {
        Ok(filter) => filter,
        Err(word) => {
            eprintln!(rt; "sctpdump: --filter {word}: {FILTER_WORDS}")?;
            return Ok(None);
        }
    };
    let Some(is_colored) = is_colored_by(rt, matches.get_str("color")) else {
        return refuse(rt, COLOR_WORDS);
    };
    let Some(clock) = clock_of(matches.get_str("times")) else {
        return refuse(rt, TIME_WORDS);
    };
    let Some(options) = options_in(matches, filter, is_colored, clock) else {
        return refuse(rt, NUMBER_WORDS);
    };
    let Some(view) = view_in(matches) else {
        return refuse(rt, VIEW_WORDS);
    };
    if !is_picture(matches.get_str("svg")) {
        return refuse(rt, PICTURE_WORDS);
    }
    if !is_saved(matches.get_str("write"), view, &options, files) {
        return refuse(rt, WRITE_WORDS);
    }
    Ok(Some(Task {
        options,
        view,
        is_relative: matches.get_flag("relative"),
        picture: matches.get_str("svg"),
        saved: matches.get_str("write"),
    }))
}

/// Does what the command line says. The exit status is 2 where it is another.
fn main(rt: HostRuntime) -> anyhow::Result<ExitCode> {
    let alloc = rt.alloc();
    let mut words = Vec::new(alloc);
    for word in env::args(&rt)? {
        words.push(word)?;
    }
    let matches = match command(alloc)?.try_get_matches_from(&words) {
        Ok(matches) => matches,
        Err(e) => {
            e.print(&rt)?;
            return Ok(ExitCode::from(if e.use_stderr() { 2 } else { 0 }));
        }
    };
    let files = files_in(alloc, &matches)?;
    let Some(task) = task_in(&rt, &matches, &files)? else {
        return Ok(ExitCode::from(2));
    };
    if run_files(&rt, &task, &files)? {
        return Ok(ExitCode::SUCCESS);
    }
    Ok(ExitCode::FAILURE)
}
