//! The reader: one step a line, and the graph at the end.

ghost use Rattle.std.specs.Prelude.{◌≡◌, ◌+◌, ◌^◌, ◌<◌, ◌++◌, ◌∷◌, [], List, ℕ, drop, length, IfOk, IfErr};
ghost use Rattle.std.specs.List.Sorted.{IsStrictlySortedBy};
ghost use Rattle.std.specs.Map.{keys_of};
ghost use Rattle.std.specs.Ordering.{nat_cmp};
ghost use Rattle.std.specs.Str.Lines.{strip_carriage_return};
ghost use Rattle.dimacs_col.specs.Lines.{Line, fields_of, lines_of, field_at};
ghost use Rattle.dimacs_col.specs.Kinds.{kind_of_word, is_format};
ghost use Rattle.dimacs_col.specs.Reading.{graph_of, number_after, IsFault, IsGraph};
ghost use Rattle.graph_limits.specs.Pairs.{AreBars, AreVertices, IsWithinLimits};
ghost use Rattle.dimacs_col.specs.State.{Knows, Judged};

use crate::bag::EdgeBag;
use crate::bars::BarSet;
use crate::fault::ColFault;
use crate::fields::{Fields, IdentifierField};
use crate::kind::{Kind, is_format};
use graph_limits::{MAX_CHANNEL, MAX_NODES, ordered};
use std::alloc::{AllocError, Global};
use std::collections::BTreeMap;

/// A graph: the vertices are 1 to `nodes`, `ids` has the vertices to which a line gives an identifier,
/// ascending, `edges` has each edge once, the smaller vertex first, ascending, and `bars` has each barred
/// channel once, behind its vertex, ascending.
#[derive(Debug, PartialEq, Eq, Drop)]
pub struct ColFile {
    pub nodes: u32,
    pub ids: Vec<(u32, u128)>,
    pub edges: Vec<(u32, u32)>,
    pub bars: Vec<(u32, u16)>,
}

#[derive(Drop)]
struct Reader {
    // The number of the last line, from 1.
    line: usize,
    // NODES of the problem line, if it has been read.
    nodes: Option<u32>,
    // By vertex. It takes no memory in a text without identifiers.
    ids: BTreeMap<u32, u128>,
    edges: EdgeBag,
    bars: BarSet,
}

// Whether the next field is a known FORMAT.
fn next_is_format(fields: &mut Fields) -> bool
    ensures first { result ≡ is_format (field_at fields.old 0) }
    ensures rest { fields.new ≡ drop 1 fields.old }
{
    match fields.next() {
        Some(word) => is_format(word),
        None => false,
    }
}

impl Reader {
    // A reader before the first line.
    fn new(alloc: Global) -> Reader
        ensures knows { Knows [] result }
        ensures line { result.line ≡ 0 }
    {
        Reader {
            line: 0,
            nodes: None,
            ids: BTreeMap::new(alloc),
            edges: EdgeBag::new(alloc),
            bars: BarSet::new(alloc),
        }
    }

    // Takes the next line.
    fn step(&mut self, alloc: Global, line: &[u8]) -> Result<(), ColFault>
        requires { self.old.line + 1 < 2 ^ 64 }
        ensures judged { (before : List Line) → Knows before self.old → self.old.line ≡ length before →
            Judged before (fields_of line.now) self.new result }
        ensures line { self.new.line ≡ self.old.line + 1 }
    {
        self.line += 1;
        let mut fields = Fields::of(line);
        let Some(first) = fields.next() else {
            return Ok(());
        };
        match Kind::of(first) {
            Kind::Skipped => Ok(()),
            Kind::Problem => self.problem(fields),
            Kind::Edge => self.edge(alloc, fields),
            Kind::Identifier => self.identify(fields),
            Kind::Bar => self.bar(fields),
            Kind::Unknown => Err(ColFault::UnknownLine(self.line)),
        }
    }

    // Takes a problem line, whose first field is taken already.
    #[tactic(auto, unfolding(crate::specs::Reading::verdict))]
    fn problem(&mut self, mut fields: Fields) -> Result<(), ColFault>
        ensures judged { (before : List Line) (word : List ℕ) → Knows before self.old →
            self.old.line ≡ number_after before → kind_of_word word ≡ Kind.Problem →
            Judged before (word ∷ fields.entry) self.new result }
        ensures line { self.new.line ≡ self.old.line }
    {
        if self.nodes.is_some() {
            return Err(ColFault::SecondProblem(self.line));
        }
        let known = next_is_format(&mut fields);
        let nodes = fields.next_number();
        let edges = fields.next_number();
        let (true, Some(nodes), Some(_)) = (known, nodes, edges) else {
            return Err(ColFault::BadField(self.line));
        };
        if nodes > MAX_NODES {
            return Err(ColFault::TooLarge(self.line));
        }
        self.nodes = Some(nodes);
        Ok(())
    }

    // Takes an edge line, whose first field is taken already.
    #[tactic(auto, unfolding(crate::specs::Reading::verdict))]
    fn edge(&mut self, alloc: Global, mut fields: Fields) -> Result<(), ColFault>
        ensures judged { (before : List Line) (word : List ℕ) → Knows before self.old →
            self.old.line ≡ number_after before → kind_of_word word ≡ Kind.Edge →
            Judged before (word ∷ fields.entry) self.new result }
        ensures line { self.new.line ≡ self.old.line }
    {
        let Some(nodes) = self.nodes else {
            return Err(ColFault::EdgeBeforeProblem(self.line));
        };
        let (Some(v), Some(w)) = (fields.next_number(), fields.next_number()) else {
            return Err(ColFault::BadField(self.line));
        };
        if v == 0 || v > nodes || w == 0 || w > nodes {
            return Err(ColFault::VertexRange(self.line));
        }
        if v == w {
            return Err(ColFault::SelfLoop(self.line));
        }
        self.edges.insert(alloc, ordered(v, w))?;
        if self.edges.is_too_large() {
            return Err(ColFault::TooLarge(self.line));
        }
        Ok(())
    }

    // Takes an identifier line, whose first field is taken already.
    #[tactic(auto, unfolding(crate::specs::Reading::verdict))]
    fn identify(&mut self, mut fields: Fields) -> Result<(), ColFault>
        ensures judged { (before : List Line) (word : List ℕ) → Knows before self.old →
            self.old.line ≡ number_after before → kind_of_word word ≡ Kind.Identifier →
            Judged before (word ∷ fields.entry) self.new result }
        ensures line { self.new.line ≡ self.old.line }
    {
        let Some(nodes) = self.nodes else {
            return Err(ColFault::EarlyLine(self.line));
        };
        let Some(v) = fields.next_number() else {
            return Err(ColFault::BadField(self.line));
        };
        let id = fields.next_identifier();
        if id == IdentifierField::NoNumber {
            return Err(ColFault::BadField(self.line));
        }
        if v == 0 || v > nodes {
            return Err(ColFault::VertexRange(self.line));
        }
        let IdentifierField::Value(id) = id else {
            return Err(ColFault::NumberRange(self.line));
        };
        if self.ids.insert(v, id)?.is_some() {
            return Err(ColFault::IdTwice(self.line));
        }
        Ok(())
    }

    // Takes a bar line, whose first field is taken already.
    #[tactic(auto, unfolding(crate::specs::Reading::verdict))]
    fn bar(&mut self, mut fields: Fields) -> Result<(), ColFault>
        ensures judged { (before : List Line) (word : List ℕ) → Knows before self.old →
            self.old.line ≡ number_after before → kind_of_word word ≡ Kind.Bar →
            Judged before (word ∷ fields.entry) self.new result }
        ensures line { self.new.line ≡ self.old.line }
    {
        let Some(nodes) = self.nodes else {
            return Err(ColFault::EarlyLine(self.line));
        };
        let (Some(v), Some(channel)) = (fields.next_number(), fields.next_number()) else {
            return Err(ColFault::BadField(self.line));
        };
        if v == 0 || v > nodes {
            return Err(ColFault::VertexRange(self.line));
        }
        if channel == 0 || channel > u32::from(MAX_CHANNEL) {
            return Err(ColFault::ChannelRange(self.line));
        }
        if !self.bars.insert((v, channel as u16))? {
            return Err(ColFault::TooManyBars(self.line));
        }
        Ok(())
    }

    // The graph of the lines taken.
    fn finish(self, alloc: Global) -> Result<ColFile, ColFault>
        ensures ok { (lines : List Line) → Knows lines self →
            IfOk result (λ file. IsGraph lines (graph_of file)) }
        ensures vertices { (lines : List Line) → Knows lines self →
            IfOk result (λ file. AreVertices file.nodes file.ids.items) }
        ensures limits { (lines : List Line) → Knows lines self →
            IfOk result (λ file. IsWithinLimits file.nodes file.edges.items) }
        ensures bars { (lines : List Line) → Knows lines self →
            IfOk result (λ file. AreBars file.nodes file.bars.items) }
        ensures fault { (lines : List Line) → Knows lines self → IfErr result (IsFault lines) }
    {
        let Some(nodes) = self.nodes else {
            return Err(ColFault::NoProblem);
        };
        Ok(ColFile {
            nodes,
            ids: by_vertex(alloc, self.ids)?,
            edges: self.edges.into_ascending(alloc)?,
            bars: self.bars.into_ascending(alloc)?,
        })
    }
}

// The identifiers of a map, by vertex.
fn by_vertex(alloc: Global, ids: BTreeMap<u32, u128>) -> Result<Vec<(u32, u128)>, AllocError>
    ensures items { IfOk result (λ pairs. pairs.items ≡ ids.entries) }
    ensures ordered { IsStrictlySortedBy nat_cmp (keys_of ids.entries) }
{
    ids.into_iter().collect(alloc)
}

/// A line without the carriage return at its end, where it has one.
pub fn without_carriage_return(line: &[u8]) -> &[u8]
    ensures { result.now ≡ strip_carriage_return line.now }
{
    line.strip_suffix(b"\r").unwrap_or(line)
}

/// The graph that a text in the DIMACS colouring format describes.
///
/// The format is that of the second DIMACS implementation challenge (1993): lines `c`, `p FORMAT
/// NODES EDGES` and `e V W`, the problem line first. EDGES is a number and is compared with
/// nothing; an edge that comes again, in either direction, counts once; fields past the last one
/// that is needed are ignored, and so are lines `n`, `d`, `v` and `x`. Vertices count from 1. A line
/// `i V NUMBER`, which the challenge hasn't, gives a vertex an identifier below 2^128, at most once; a line
/// `b V CHANNEL`, which it hasn't either, bars a channel from 1 to `MAX_CHANNEL` at a vertex, at most
/// `MAX_BARS` different ones of a vertex.
///
/// # Errors
///
/// The fault of the first line that has one, or `NoProblem` if all lines are good and none is a
/// problem line. `Memory` only if a growth is refused. A refusal leaves nothing behind.
pub fn read(alloc: Global, text: &[u8]) -> Result<ColFile, ColFault>
    ensures ok { IfOk result (λ file. IsGraph (lines_of text.now) (graph_of file)) }
    ensures vertices { IfOk result (λ file. AreVertices file.nodes file.ids.items) }
    ensures limits { IfOk result (λ file. IsWithinLimits file.nodes file.edges.items) }
    ensures bars { IfOk result (λ file. AreBars file.nodes file.bars.items) }
    ensures fault { IfErr result (IsFault (lines_of text.now)) }
{
    let mut reader = Reader::new(alloc);
    for line in text.split(|byte| *byte == b'\n') {
        reader.step(alloc, without_carriage_return(line))?;
    }
    reader.finish(alloc)
}
