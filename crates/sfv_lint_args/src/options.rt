//! The options of a command line.

ghost use Rattle.std.specs.Prelude.{◌≡◌, codes, option_map};
ghost use Rattle.clap.specs.Words.{found_of, first_value, one_text};
ghost use Rattle.sfv_lint_args.specs.Options.{kind_of_word, version_of_word, color_of_word, has_colors, IsFlag};

use crate::explain::KIND_NAMES;
use clap::{Arg, ArgAction, ArgMatches, Command, Error};
use sfv_spec::field_kind::FieldKind;
use sfv_spec::version::Version;
use std::alloc::{AllocError, Global};

/// When the output has colors.
#[derive(Clone, Copy, Debug, PartialEq, Eq)]
pub enum ColorChoice {
    /// If standard output is a terminal and `NO_COLOR` is unset or empty.
    Auto,
    /// Always.
    Always,
    /// Never.
    Never,
}

impl ColorChoice {
    /// Returns `true` if the output has colors. `no_color` says that the variable `NO_COLOR` is set and not empty.
    pub fn has_colors(self, is_terminal: bool, no_color: bool) -> bool
        ensures { result ≡ has_colors self is_terminal no_color }
    {
        match self {
            ColorChoice::Auto => is_terminal && !no_color,
            ColorChoice::Always => true,
            ColorChoice::Never => false,
        }
    }
}

/// The options of a command line.
#[derive(Clone, Copy)]
pub struct Options<'a> {
    /// The type of a single value (`--type`).
    pub kind: Option<FieldKind>,
    /// The field of a single value (`--field`).
    pub field: Option<&'a str>,
    /// The version to parse under (`--version`).
    pub version: Version,
    /// The name of a kind of error to explain (`--explain`).
    pub explain: Option<&'a str>,
    /// Name the other fields too (`--all`).
    pub all: bool,
    /// Print JSON (`--json`).
    pub json: bool,
    /// Print the values as trees (`--tree`).
    pub tree: bool,
    /// Notes count as errors (`--strict`).
    pub strict: bool,
    /// When the output has colors (`--color`).
    pub color: ColorChoice,
}

static TYPES: [&str; 3] = ["item", "list", "dict"];

static VERSIONS: [&str; 2] = ["8941", "9651"];

static COLORS: [&str; 3] = ["auto", "always", "never"];

/// Returns an option that takes one of these words.
fn choice<'a>(alloc: Global, name: &'a str, words: &'a [&'a str], help: &'a str) -> Arg<'a> {
    Arg::new(alloc, name)
        .long(name)
        .action(ArgAction::Set)
        .value_parser(words)
        .hide_possible_values(true)
        .help(help)
}

/// Returns an option without a value.
fn flag<'a>(alloc: Global, name: &'a str, help: &'a str) -> Arg<'a> {
    Arg::new(alloc, name)
        .long(name)
        .action(ArgAction::SetTrue)
        .help(help)
}

/// Returns the options of one value.
fn value_options<'a>(alloc: Global, command: Command<'a>) -> Result<Command<'a>, AllocError> {
    let kind = choice(
        alloc,
        "type",
        TYPES.as_slice(),
        "Read one value of this type: item, list or dict",
    )
    .value_name("TYPE")
    .conflicts_with("field")?;
    let field = Arg::new(alloc, "field")
        .long("field")
        .action(ArgAction::Set)
        .value_name("NAME")
        .help("Read one value of this field, such as Priority");
    let version = choice(
        alloc,
        "version",
        VERSIONS.as_slice(),
        "Parse under RFC 8941 or RFC 9651 (the default)",
    )
    .value_name("RFC");
    command.arg(kind)?.arg(field)?.arg(version)
}

/// Returns the options of the output.
fn output_options<'a>(alloc: Global, command: Command<'a>) -> Result<Command<'a>, AllocError> {
    let json = flag(alloc, "json", "Print one JSON document").conflicts_with("tree")?;
    let explain = choice(
        alloc,
        "explain",
        KIND_NAMES.as_slice(),
        "Say what a kind of error means, such as TrailingComma",
    )
    .value_name("KIND");
    let color = choice(
        alloc,
        "color",
        COLORS.as_slice(),
        "Use colors: auto (the default, at a terminal without NO_COLOR), always or never",
    )
    .value_name("WHEN");
    command
        .arg(flag(alloc, "all", "Name the other fields too"))?
        .arg(json)?
        .arg(flag(alloc, "tree", "Print the values as trees with types"))?
        .arg(flag(alloc, "strict", "Let notes count as errors"))?
        .arg(color)?
        .arg(explain)
}

/// Returns the command.
fn command<'a>(alloc: Global) -> Result<Command<'a>, AllocError> {
    let command = Command::new(alloc, "sfv_lint").about(
        "Checks the structured fields of an HTTP head, or one value, on standard input.",
    );
    output_options(alloc, value_options(alloc, command)?)
}

/// Returns the field type that a word names.
fn kind_of_word(word: Option<&str>) -> Option<FieldKind>
    ensures { result ≡ kind_of_word (option_map (λ word. word.now) word.entry) }
{
    match word {
        Some("item") => Some(FieldKind::Item),
        Some("list") => Some(FieldKind::List),
        Some("dict") => Some(FieldKind::Dictionary),
        _ => None,
    }
}

/// Returns the version that a word names, which is RFC 9651 without a word.
fn version_of_word(word: Option<&str>) -> Version
    ensures { result ≡ version_of_word (option_map (λ word. word.now) word.entry) }
{
    match word {
        Some("8941") => Version::Rfc8941,
        _ => Version::Rfc9651,
    }
}

/// Returns when the output has colors by a word, which is `auto` without a word.
fn color_of_word(word: Option<&str>) -> ColorChoice
    ensures { result ≡ color_of_word (option_map (λ word. word.now) word.entry) }
{
    match word {
        Some("always") => ColorChoice::Always,
        Some("never") => ColorChoice::Never,
        _ => ColorChoice::Auto,
    }
}

/// Returns the options of these matches.
fn options_of<'a>(matches: &ArgMatches<'a>) -> Options<'a>
    ensures kind { result.kind ≡ kind_of_word (first_value (found_of matches.now) (codes "type")) }
    ensures field { option_map (λ word. word.now) result.field ≡ first_value (found_of matches.now) (codes "field") }
    ensures version { result.version ≡ version_of_word (first_value (found_of matches.now) (codes "version")) }
    ensures explain { option_map (λ word. word.now) result.explain
        ≡ first_value (found_of matches.now) (codes "explain") }
    ensures all { IsFlag (one_text (found_of matches.now) (codes "all")) result.all }
    ensures json { IsFlag (one_text (found_of matches.now) (codes "json")) result.json }
    ensures tree { IsFlag (one_text (found_of matches.now) (codes "tree")) result.tree }
    ensures strict { IsFlag (one_text (found_of matches.now) (codes "strict")) result.strict }
    ensures color { result.color ≡ color_of_word (first_value (found_of matches.now) (codes "color")) }
{
    Options {
        kind: kind_of_word(matches.get_str("type")),
        field: matches.get_str("field"),
        version: version_of_word(matches.get_str("version")),
        explain: matches.get_str("explain"),
        all: matches.get_flag("all"),
        json: matches.get_flag("json"),
        tree: matches.get_flag("tree"),
        strict: matches.get_flag("strict"),
        color: color_of_word(matches.get_str("color")),
    }
}

/// Returns the options that the words name. The first word is the name of the program.
///
/// # Errors
///
/// Returns the error of `clap`: its text is the help for `--help`, or what is wrong. It can be out of memory.
pub fn parse_arguments<'a>(alloc: Global, words: &'a [String]) -> Result<Options<'a>, Error> {
    let matches = command(alloc)?.try_get_matches_from(words)?;
    Ok(options_of(&matches))
}
