//! The command line.
ghost use Rattle.std.specs.Prelude.{◌≡◌, ◌<◌, ◌≤◌, ◌^◌, ℕ, List, [], None, Some, IfOk, codes, map, option_map};
ghost use Rattle.std.specs.Prelude.{false, is_some, length, true, unwrap_or};
ghost use Rattle.std.specs.Str.Parse.{IsNumeral, digits_value, without_leading_plus};
ghost use Rattle.clap.specs.Words.{first_value, found_of, matched_of, one_text, raw_values};

use clap::error::ErrorKind;
use clap::{Arg, ArgAction, ArgMatches, Command, Error};
use std::alloc::{AllocError, Global};

/// How many steps a search makes at most, if the command line doesn't say.
pub const STEPS: u64 = 1 << 20;

/// What is said if certificates of several files are asked for: a certificate names lines of one file.
const ONE_FILE: &str = "--certificate takes one FILE at most";

/// What a command line asks for.
#[derive(Debug, Drop)]
pub struct Options<'a> {
    /// How many steps a search makes at most.
    pub steps: u64,
    /// Whether answers have explanations.
    pub why: bool,
    /// Whether answers are JSON objects.
    pub json: bool,
    /// The file for graphs.
    pub dot: Option<&'a str>,
    /// The file for certificates.
    pub certificate: Option<&'a str>,
    /// The files to read, in turn. If there is none, standard input is read.
    pub files: Vec<&'a str>,
}

/// Reads a command line, whose first word is the program's name. If it asks for the help or the version, the error is
/// that text, which is for standard output. Certificates of several files are refused too.
pub fn read<'a>(alloc: Global, words: &'a [String]) -> Result<Options<'a>, Error>
    ensures one { IfOk result (λ options. is_some options.certificate ≡ true → length options.files.items ≤ 1) }
{
    let mut command = command(alloc)?;
    let matches = command.try_get_matches_from_mut(words)?;
    let options = options_of(alloc, &matches)?;
    if options.certificate.is_some() && options.files.len() > 1 {
        return Err(command.error(ErrorKind::ArgumentConflict, ONE_FILE)?);
    }
    Ok(options)
}

/// The command lines that are understood.
fn command<'a>(alloc: Global) -> Result<Command<'a>, AllocError> {
    let steps = Arg::new(alloc, "steps")
        .long("steps")
        .value_name("N")
        .value_parser(clap::value_parser!(u64))
        .help("How many steps a search makes at most [default: 1048576]");
    let why = flag(
        alloc,
        "why",
        "Says why each version is picked, and reports why there is no solution",
    );
    let json = flag(
        alloc,
        "json",
        "Prints the answer to each index as one JSON object on one line; not with --why",
    );
    let dot = output(
        alloc,
        "dot",
        "Writes to this file a graph for each index without a solution, which shows why",
    );
    let certificate = output(
        alloc,
        "certificate",
        "Writes to this file a certificate for each index without a solution; takes one FILE at most",
    );
    let files = Arg::new(alloc, "files")
        .value_name("FILE")
        .action(ArgAction::Append)
        .help("Files with indexes, which are read in turn; without one, standard input");
    Command::new(alloc, "pick_versions")
        .version("0.1.0")
        .bin_name("pick_versions")?
        .about("Picks versions of packages that fit together, or says why none do")
        .arg(steps)?
        .arg(why)?
        .arg(json.conflicts_with("why")?)?
        .arg(dot)?
        .arg(certificate)?
        .arg(files)
}

/// A flag.
fn flag<'a>(alloc: Global, name: &'a str, help: &'a str) -> Arg<'a> {
    Arg::new(alloc, name)
        .long(name)
        .action(ArgAction::SetTrue)
        .help(help)
}

/// An option that names a file to write.
fn output<'a>(alloc: Global, name: &'a str, help: &'a str) -> Arg<'a> {
    Arg::new(alloc, name)
        .long(name)
        .value_name("OUTPUT")
        .help(help)
}

/// The options of a command line that was parsed: the number of steps that it gives, or else [`STEPS`]; which flags it
/// has; and the files that it names, to write and to read.
fn options_of<'a>(alloc: Global, matches: &ArgMatches<'a>) -> Result<Options<'a>, AllocError>
    ensures default { one_text (found_of matches.now) (codes "steps") ≡ None
        → IfOk result (λ options. options.steps ≡ STEPS) }
    ensures given { (text : List ℕ) → one_text (found_of matches.now) (codes "steps") ≡ Some text
        → let digits = without_leading_plus text in IsNumeral 10 digits → digits_value 10 digits < 2 ^ 64
        → IfOk result (λ options. options.steps ≡ digits_value 10 digits) }
    ensures plain { one_text (found_of matches.now) (codes "why") ≡ Some (codes "false")
        → IfOk result (λ options. options.why ≡ false) }
    ensures why { one_text (found_of matches.now) (codes "why") ≡ Some (codes "true")
        → IfOk result (λ options. options.why ≡ true) }
    ensures text { one_text (found_of matches.now) (codes "json") ≡ Some (codes "false")
        → IfOk result (λ options. options.json ≡ false) }
    ensures json { one_text (found_of matches.now) (codes "json") ≡ Some (codes "true")
        → IfOk result (λ options. options.json ≡ true) }
    ensures dot { IfOk result (λ options. option_map (λ name. name.now) options.dot
        ≡ first_value (found_of matches.now) (codes "dot")) }
    ensures certificate { IfOk result (λ options. option_map (λ name. name.now) options.certificate
        ≡ first_value (found_of matches.now) (codes "certificate")) }
    ensures files { IfOk result (λ options. map (λ name. name.now) options.files.items
        ≡ unwrap_or (option_map raw_values (matched_of (found_of matches.now) (codes "files"))) []) }
{
    let steps = matches.get_one::<u64>("steps").unwrap_or(STEPS);
    let mut files = Vec::new(alloc);
    if let Some(names) = matches.get_strs("files") {
        files.extend_from_slice(names)?;
    }
    Ok(Options {
        steps,
        why: matches.get_flag("why"),
        json: matches.get_flag("json"),
        dot: matches.get_str("dot"),
        certificate: matches.get_str("certificate"),
        files,
    })
}
