//! The programs of nodes that a command can run, as its words name them.

ghost use Rattle.std.specs.Prelude.{◌≡◌, [], codes, is_some, option_map, unwrap_or};
ghost use Rattle.clap.specs.Words.{first_of, found_of, rows_of};
ghost use Rattle.command_line.specs.NodePrograms.{again_for, passed_program, passes_of, program_of, program_with};
ghost use Rattle.command_line.specs.NodePrograms.{root_of, rooted_of, rooted_program, shown_of};

use crate::options::small_number;
use clap::ArgMatches;

/// The most passes of the recolouring.
pub const MAX_PASSES: u32 = 64;

const _: () = prove!(MAX_PASSES == 64);

/// The name of a program of nodes.
#[derive(Clone, Copy, Debug, PartialEq, Eq)]
pub enum NodeProgramName {
    /// Each node finds its channel.
    Colouring,
    /// Each node finds the greatest identifier of the nodes that a path leads to.
    Leader,
    /// Each node finds how far it is from a vertex that is given; if none is, from the node with identifier 1.
    Layers(Option<u32>),
    /// Each node finds a partner among its neighbours, as far as there is one.
    Matching,
    /// Each node finds whether it is in a maximal independent set.
    IndependentSet,
    /// Each node finds its channel, and then chooses anew, in a pass and as many more.
    Recolouring(u8),
}

/// What a run of nodes prints.
#[derive(Clone, Copy, Debug, PartialEq, Eq)]
pub enum Shown {
    /// The last state of each node.
    States,
    /// What each node put, took and did.
    Transcript,
}

// The first value of an option.
fn first_word<'a>(matches: &ArgMatches<'a>, name: &str) -> Option<&'a str>
    ensures { option_map (λ word. word.now) result ≡ first_of name.now (rows_of (found_of matches.now)) }
{
    matches.get_str(name)
}

// The program that a word names, without a root and with one pass.
fn program_with(word: &str) -> Option<NodeProgramName>
    ensures { result ≡ program_with word.now }
{
    match word {
        "colouring" => Some(NodeProgramName::Colouring),
        "leader" => Some(NodeProgramName::Leader),
        "layers" => Some(NodeProgramName::Layers(None)),
        "matching" => Some(NodeProgramName::Matching),
        "independent-set" => Some(NodeProgramName::IndependentSet),
        "recolouring" => Some(NodeProgramName::Recolouring(0)),
        _ => None,
    }
}

// The root that a command is given.
fn root_of(matches: &ArgMatches<'_>) -> Option<u32>
    ensures { result ≡ root_of (rows_of (found_of matches.now)) }
{
    small_number(matches, "root")
}

// A program with the root that is given, if it takes it.
fn rooted_program(root: Option<u32>, program: NodeProgramName) -> Option<NodeProgramName>
    ensures { result ≡ rooted_program root program }
{
    match (root, program) {
        (None, program) => Some(program),
        (Some(v), NodeProgramName::Layers(_)) => Some(NodeProgramName::Layers(Some(v))),
        (Some(_), _) => None,
    }
}

// The program that a command has, from the words or by default, if there is one of this name that takes the root which
// is given.
fn rooted_of(matches: &ArgMatches<'_>) -> Option<NodeProgramName>
    ensures { result ≡ rooted_of (rows_of (found_of matches.now)) }
{
    rooted_program(
        root_of(matches),
        program_with(first_word(matches, "program")?)?,
    )
}

// The number of passes that a command is given.
fn passes_of(matches: &ArgMatches<'_>) -> Option<u32>
    ensures { result ≡ passes_of (rows_of (found_of matches.now)) }
{
    small_number(matches, "passes")
}

// How many passes more than one these are, if they are 1 to 64.
fn again_for(passes: u32) -> Option<u8>
    ensures { result ≡ again_for passes }
{
    if 1 <= passes && passes <= MAX_PASSES {
        Some((passes - 1) as u8)
    } else {
        None
    }
}

// A program with the passes that are given, if it takes them.
fn passed_program(passes: Option<u32>, program: NodeProgramName) -> Option<NodeProgramName>
    ensures { result ≡ passed_program passes program }
{
    match (passes, program) {
        (None, program) => Some(program),
        (Some(number), NodeProgramName::Recolouring(_)) => {
            Some(NodeProgramName::Recolouring(again_for(number)?))
        }
        (Some(_), _) => None,
    }
}

/// The program that a command has, from the words or by default, if there is one of this name that takes the root and
/// the passes which are given.
pub fn program_of(matches: &ArgMatches<'_>) -> Option<NodeProgramName>
    ensures { result ≡ program_of (rows_of (found_of matches.now)) }
{
    passed_program(passes_of(matches), rooted_of(matches)?)
}

/// Whether the program of a command takes the root that is given, if one is.
pub fn takes_root(matches: &ArgMatches<'_>) -> bool
    ensures { result ≡ is_some (rooted_of (rows_of (found_of matches.now))) }
{
    rooted_of(matches).is_some()
}

/// Whether a word names a program.
pub fn is_program(word: &str) -> bool
    ensures { result ≡ is_some (program_with word.now) }
{
    program_with(word).is_some()
}

/// The word of a command that names its program; the empty text if it has none.
pub fn program_word<'a>(matches: &ArgMatches<'a>) -> &'a str
    ensures { result.now ≡ unwrap_or (first_of (codes "program") (rows_of (found_of matches.now))) [] }
{
    match first_word(matches, "program") {
        Some(word) => word,
        None => "",
    }
}

/// What a command that runs nodes shows.
pub fn shown_of(matches: &ArgMatches<'_>) -> Shown
    ensures { result ≡ shown_of (rows_of (found_of matches.now)) }
{
    match first_word(matches, "transcript") {
        Some("true") => Shown::Transcript,
        _ => Shown::States,
    }
}
