//! The texts of help.

/// The help of the program, or of a command.
#[derive(Clone, Copy)]
pub struct Help {
    /// What it does, in a line.
    pub about: &'static str,
    /// The same, at length.
    pub long_about: &'static str,
    /// What it reads and writes, and an example.
    pub format: &'static str,
}

pub const FORESTPLAN: Help = Help {
    about: "Plans channels for transmitters: no two that interfere share one",
    long_about: "Plans channels for transmitters: no two that interfere share one.

The program reads a graph from standard input and no named file: `plan < FILE`.
The graph's vertices are transmitters, and its edges join those that interfere.
The answer goes to standard output. A fault of the input is one line on standard
error, a refused command line is several, and standard output then stays empty.
If a write fails, standard output holds a beginning of the answer.",
    format: "Input: a graph in the DIMACS format, a line each
  p edge NODES EDGES   before any e line: the number of vertices; any number
  e V W                an edge between two different vertices from 1 to NODES
  i V NUMBER           the identifier of vertex V, below 2^128; else it is V
  b V CHANNEL          a channel from 1 to 2048 that vertex V must not have
Empty lines are skipped, and lines whose first field begins with c or is n, d, v
or x.

Faults of the input, reported as `forestplan: F6 line 2`, F1 without a line:
  F1  no p line                    F5  a vertex is 0 or above NODES
  F2  a second p line              F6  an edge from a vertex to itself
  F3  an e line before the p line  F7  above 20000 vertices or 400000 edges
  F4  a field is missing or wrong  F8  a line of an unknown kind
  F10 an i or a b line before the p line
  F11 an identifier of 2^128 or more
  F12 a second i line of a vertex  F13 a channel that is not from 1 to 2048
  F14 more than 1024 channels barred at a vertex
as `forestplan: N1 vertex 1` a vertex with more than 1023 neighbours, and as
`forestplan: N2 vertices 1 2` two vertices with one identifier.

Status, and what standard error then holds:
  0  done, or help was asked for    nothing
  1  the input is refused           one line, as above
  2  the command line is refused    several lines
  3  the turns were used up         forestplan: stopped
  4  a thread could not be started  forestplan: threads
     memory ran out                 forestplan: memory
     a read or a write failed       forestplan: stream
`stream` also comes if the reader of the output leaves before its end, as `| head`
does: then nothing is wrong.

Example: three transmitters, each in reach of the other two
  printf 'p edge 3 3\\ne 1 2\\ne 1 3\\ne 2 3\\n' | forestplan plain",
};

pub const FORESTS: Help = Help {
    about: "Prints the forests into which the edges are split",
    long_about: "Prints the forests into which the edges are split.

Every vertex numbers its neighbours of higher identifier, ascending, from 0. The
edges with number F are forest F, in which the end of higher identifier is the
parent of the other.",
    format: "Input: a graph in the DIMACS format, as `p edge NODES EDGES` and then `e V W`.

Output, a line each:
  forests N U          the number of vertices, and of forests
  F CHILD PARENT       for each edge: its forest, from 0, and its two ends
The lines are in ascending order by forest, then by child.

Example: the triangle
  printf 'p edge 3 3\\ne 1 2\\ne 1 3\\ne 2 3\\n' | forestplan forests
prints
  forests 3 2
  0 1 2
  0 2 3
  1 1 3",
};

pub const PLAIN: Help = Help {
    about: "Prints a channel plan, in which neighbours have different channels",
    long_about: "Prints a channel plan, in which neighbours have different channels.

Channels count from 1. No vertex gets one that is barred at it, and none is above
the greatest number of neighbours plus the greatest number of barred channels of
a vertex, plus one. The vertices find them by messages to their neighbours, round
by round on one thread: each forest gets three colours, and the forests are merged
one by one. The plan depends only on the graph. To have a plan, use this command:
`forestplan plan` prints the same bytes and takes far longer.",
    format: "Input: a graph in the DIMACS format, as `p edge NODES EDGES` and then `e V W`.

Output, a line each:
  plan                 the first line
  V CHANNEL            for each vertex, ascending: its channel

Example: the triangle
  printf 'p edge 3 3\\ne 1 2\\ne 1 3\\ne 2 3\\n' | forestplan plain
prints
  plan
  1 2
  2 3
  3 1",
};

pub const PLAN: Help = Help {
    about: "Prints the same plan as plain, found by threads without a common clock",
    long_about: "Prints the same plan as plain, found by threads without a common clock.

It is the plan that `forestplan plain` prints, whatever the options are and
whichever thread is faster. On large graphs it takes hundreds of times as long as
plain: it is here to show the run, not to save time. The nodes have no common
clock: worker threads run them in any order, and Awerbuch's synchroniser alpha
keeps each in step with its neighbours. A node makes its next round, here called a
pulse, once all that it sent in this pulse has been taken and each neighbour has
said that the same is true for it.

  worker   a thread; it looks for a node that no other worker has, makes one turn
           of it, and looks for the next
  turn     the node takes up to four wires from each neighbour, makes a pulse if
           it can, and puts what it has for them on its links
  wire     what a node sends to a neighbour: a message of a pulse, or the news
           that a message was taken, that all its messages of a pulse were
           taken, or that nothing more comes
  link     leads from a node to one neighbour, and keeps the order of the wires;
           its capacity is how many wires it has room for, and a wire that finds
           no room waits

A long run is silent until the plan is found.",
    format: "Input: a graph in the DIMACS format, as `p edge NODES EDGES` and then `e V W`.

Output, a line each:
  plan                 the first line
  V CHANNEL            for each vertex, ascending: its channel

If it reports `forestplan: stopped` (status 3), the workers had looked for nodes
as often as they may before all nodes were done. Give more --turns, up to
1000000000000. A look that finds no node counts too, so that workers which wait
for each other use up their turns.

Use no more workers than the machine has processors, and one worker next to other
work: on four processors that were all busy with other processes, four workers
took 8 to 29 times as long as one. On a small network more workers are not faster,
because there is too little to do at once, and they wait for each other.

A link never holds more than two wires. So links are made with room for two at
most, and a capacity above 2 has no effect. With a capacity of 1 some wires have to
wait.

A run grows with its rounds. With D as the greatest number of neighbours of a
vertex, B as the greatest number of its barred channels, and U as the greatest
number of its neighbours of higher identifier, plain and plan make
  R = 12 + 3 U (D + B + 1)
rounds. For P messages on E edges, plan sends
  2 P + 2 E (R + 1)
wires in all. On the complete graph of 100 nodes R is 29712, and plan sends 296
million wires.

Example: the triangle
  printf 'p edge 3 3\\ne 1 2\\ne 1 3\\ne 2 3\\n' | forestplan plan --workers 2
prints
  plan
  1 2
  2 3
  3 1

Example: a single look, so that two of the three nodes have no turn
  printf 'p edge 3 3\\ne 1 2\\ne 1 3\\ne 2 3\\n' |
    forestplan plan --workers 1 --turns 1
reports
  forestplan: stopped",
};

pub const TRANSCRIPT: Help = Help {
    about: "Prints what each node did while plan found its channel",
    long_about: "Prints what each node did while plan found its channel.

The nodes run as in `forestplan plan`, on threads without a common clock, and
each writes down what it puts on its links, what it takes from them, and the
pulses that it makes. `forestplan plan --help` explains these words. Transcripts
differ from run to run, since the threads are not equally fast each time. With
`--workers 1` they do not differ: two runs on one graph print the same bytes.

A long run is silent until all nodes are done.",
    format: "Input: a graph in the DIMACS format, as `p edge NODES EDGES` and then `e V W`.

Output, a line each:
  transcript 2 NODES   the first line
  S V pulse P          node V made pulse P
  S V put W WIRE       V put a wire on its link to its neighbour W
  S V take W WIRE      V took a wire from the link of its neighbour W
A WIRE is one of
  payload P WORD NUMBER  what is sent at pulse P
  ack P                  what the other sent at pulse P has been taken
  safe P                 all that was sent at pulse P has been taken
  close                  the last wire
So `1 1 put 2 payload 0 hello 1` says that node 1 put its greeting for node 2 on
the link, before its first pulse.

S is a stamp, from Lamport's clock: a node adds one to its count for a put and for
a pulse, and a take gets one more than the greater of the count and the stamp of
the put. So each wire is taken at a greater stamp than it was put at. The lines
are in ascending order by stamp, then by vertex. In this order they are one run,
which `forestplay replay` accepts; it is not the order of real time.

With --edition 1 the first line is `transcript 1 NODES`, the lines have no stamp,
and all lines of node 1 come first, then all lines of node 2, and so on. They do
not say which of two nodes did something first.

Each wire has two lines, one for its put and one for its take, and each node has a
line for each pulse. With D as the greatest number of neighbours of a vertex, B as
the greatest number of its barred channels, and U as the greatest number of its
neighbours of higher identifier, N nodes and P messages on E edges make
  2 (2 P + 2 E (R + 1)) + N R    lines, where R = 12 + 3 U (D + B + 1)
after the first line.
On the complete graph of 100 nodes that is 594 million lines, of 13 GB in
edition 1.
A run that is cut off by --turns prints none: it reports `forestplan: stopped`
(status 3).

Example: two transmitters, out of reach of each other
  printf 'p edge 2 0\\n' | forestplan transcript
prints 25 lines
  transcript 2 2
  1 1 pulse 1
  1 2 pulse 1
  2 1 pulse 2
  2 2 pulse 2
  ...
  12 2 pulse 12

Example: where the run leads
  (cat net.col; forestplan transcript < net.col) | forestplay replay",
};

pub const WORKERS: &'static str = "How many threads run the nodes, 1 to 64";

pub const CAPACITY: &'static str = "Capacity of a link, 1 to 64 wires; above 2 it has no effect";

pub const TURNS: &'static str = "How often a worker looks for a node";

pub const EDITION: &'static str = "The form: 2 with stamps, 1 without";

pub const PROGRAM: &'static str = "The nodes' program: see `forestplay --help`";

pub const ROOT: &'static str = "The node that is the root of layers";

pub const PASSES: &'static str = "How often recolouring chooses again, 1 to 64; else once";

pub const SHOW_TRANSCRIPT: &'static str = "Print the transcript, not the last states";

pub const CHECK: Help = Help {
    about: "Checks a channel plan of a graph",
    long_about: "Checks a channel plan of a graph.

A plan is proper if every vertex has one line, no line has another vertex, no
channel is barred at its vertex, or above the greatest number of neighbours plus
the greatest number of barred channels of a vertex, plus one, and no two
neighbours share a channel. Anyone may have made the plan.",
    format: "Input: a graph in the DIMACS format, as `p edge NODES EDGES` and then `e V W`, and
then a plan, a line each:
  plan                 the first line
  V CHANNEL            a vertex and its channel, from 1; in any order
The plan begins at the first line whose first field is `plan`. So if two texts are
joined, as by cat, the graph has to end in a line feed.

Output: `proper G`, where G is the greatest channel, or 0 for no vertices.

Faults of the plan, reported once the graph has none, each as
`forestplan: C1 vertex 3`; the first that holds, in this order:
  C6  line N           line 1 isn't `plan` alone, or a later one not V CHANNEL
  C2  vertex V         a line of vertex 0 or of one above NODES
  C3  vertex V         a second line of a vertex
  C5  vertex V         a channel above D + B + 1: D is the greatest number of
                       neighbours of a vertex, B of its barred channels
  C8  vertex V         a channel that is barred at the vertex
  C1  vertex V         a vertex without a line
  C4  vertices V W     two neighbours that share a channel
C2, C3, C5 and C8 are looked for line by line. C6 is at line 1 if there is no
plan.
If memory runs out (C7) it is reported as `forestplan: memory`.

Example: a plan of the triangle
  (cat net.col; forestplan plain < net.col) | forestplan check
prints
  proper 3",
};

pub const FORESTPLAY: Help = Help {
    about: "Plays what nodes do to find a channel plan, for lessons",
    long_about: "Plays what nodes do to find a channel plan, for lessons.

The program reads a graph from standard input, whose vertices are the nodes, and
after it, for `events` and `replay`, what happens; it writes where this leads. A
fault of the input is one line on standard error, a refused command line is
several, and standard output then stays empty. If a write fails, standard output
holds a beginning of the answer.

With --program NAME the nodes of any command run another program:
  colouring        finds the channel of each node, as `forestplan plain` prints
                   it; without --program it is this one
  leader           finds the greatest identifier among the nodes that paths lead
                   to
  layers           finds how many edges lead to the root, and the port of the
                   first of them; the root is the node V of --root V, and
                   without --root the node of identifier 1
  matching         finds partners: two neighbours that have each other; no two
                   neighbours are left without one
  independent-set  finds nodes of which no two are neighbours, so that each other
                   node has a neighbour among them
  recolouring      finds the channels of colouring; then they choose anew, the
                   greatest first, and mostly fewer are left, and never more,
                   also if channels are barred; with --passes N they do so N
                   times, 1 to 64, in other orders, without --passes once",
    format: "The graph is read as forestplan reads it, with the same faults, reported as
`forestplay: F6 line 2`: see `forestplan --help`. If --root V is given and the graph
has fewer nodes, it is reported as `forestplay: NoRoot vertex V`.

Status: 0 done, 1 input refused, 2 command line refused, 3 the turns of `run` were
used up, 4 memory ran out, a thread could not be started, or the input could not
be read or the output not written (`forestplay: stream`). The last also comes if
the reader of the output leaves before its end, as `| head` does: then nothing is
wrong.

Example: node 1 of two greets the other
  printf 'p edge 2 1\\ne 1 2\\nput 1 0\\n' | forestplay events",
};

pub const EVENTS: Help = Help {
    about: "Plays events, and prints where they lead",
    long_about: "Plays events, and prints where they lead.

The nodes look for the channels that `forestplan plain` prints, or run another
program, but without a common clock, by Awerbuch's synchroniser alpha. At the
start each node is at pulse 0, and what it sends there to a neighbour is in the
out-list of the neighbour's port. An event is a step of one node; events are
played in the order of their lines.",
    format: "Input: a graph in the DIMACS format, as `p edge NODES EDGES` and then `e V W`, and
then events, a line each:
  pulse V              node V makes its next pulse
  put V PORT           V puts the oldest wire of the port's out-list on the link
  take V PORT          V takes the oldest wire that waits for it at the port
The ports of a node count from 0, by ascending neighbour. The events begin at
the first line whose first field is one of the three words. From there empty
lines are skipped, and lines whose first field begins with c.

Output, for each node V, ascending, a line each:
  node V pulse P           its pulse; at its last one followed by its result:
                           `channel C`; `leader ID`, and `elected` after it of
                           the node that has it; `layer N by PORT to W`, or for
                           the root `layer 0`, and for one that no path leads
                           to `layer none`; `partner PORT to W` or `partner
                           none`; `in` or `out`
  link V W taken N WIRES   for each neighbour W, ascending: the number of wires
                           that W has taken from this link, and the wires that
                           wait on it, the oldest first, as
    payload P WORD NUMBER    what V sends W at pulse P
    ack P                    V has taken what W sent at pulse P
    safe P                   all that V sent at pulse P has been taken
    close                    the last wire

Faults of the events, reported once the graph has none, each as
`forestplay: NotReady line 5: safe 0 of 2 and 3`, where lines count from the first
of the graph. The words after the line say what is missing:
  NoEvent       the line is not an event, and not skipped
  NoSuch        there is no such node or port
  NotReady      the node cannot make its next pulse yet: the wires that are still
                to come for it, and from whom; or it has made the last pulse
  NothingToPut  the out-list is empty: whose, and for whom
  LinkEmpty     no wire waits at the port: from whom, and to whom
The first line that is not an event is reported; if all lines are events, the
first event that is not possible.

Example: node 1 greets node 2, which takes it and greets back
  printf 'p edge 2 1\\ne 1 2\\nput 1 0\\ntake 2 0\\nput 2 0\\n' | forestplay events
prints
  node 1 pulse 0
  link 1 2 taken 1
  node 2 pulse 0
  link 2 1 taken 0 payload 0 hello 2",
};

pub const REPLAY: Help = Help {
    about: "Replays a transcript, and prints where it leads",
    long_about: "Replays a transcript, and prints where it leads.

`forestplan transcript` and `forestplay run --transcript` write what each node did
in a run of worker threads. Such entries, whoever wrote them, are played here in
the order of their lines, by the machine that plays events. Nothing is taken on
trust: each entry has to be possible, and its pulse or wire has to be the one that
the node comes to there. In editions 2 and 3 each stamp has to be right too, and all
nodes have to be done at the end. Edition 3 has to be of the program of --program.
A run with --root or --passes is replayed with the same option.",
    format: "Input: a graph in the DIMACS format, as `p edge NODES EDGES` and then `e V W`, and
then a transcript, a line each:
  transcript 2 NODES   the first line
  S V pulse P          node V made pulse P
  S V put W WIRE       V put a wire on its link to its neighbour W
  S V take W WIRE      V took a wire from the link of its neighbour W
where WIRE is `payload P WORD NUMBER`, `ack P`, `safe P` or `close`, and S is the
stamp, as `forestplan transcript --help` says. The first line of edition 3 is
`transcript 3 PROGRAM NODES`. That of edition 1 is `transcript 1 NODES`, and its
lines have no stamp. The transcript begins at the first line whose first field is
`transcript`. From there empty lines are skipped. NODES is not compared with the
graph.

A transcript of edition 1 lists all entries of node 1, then all entries of node 2,
and so on. If two nodes are neighbours, the entries are not possible in this
order; `forestlab transcript replay NETWORK TRANSCRIPT`, which comes with this
program, puts them into an order that is possible, and replays them.

Output: the state, as `forestplay events` prints it.

Faults of the transcript, reported once the graph has none, each as
`forestplay: LinkEmpty line 5: link from 2 to 1`, where lines count from the first
of the graph. The words after the line say what is missing, as for `forestplay
events`, or what was expected:
  WrongProgram  edition 3 names another program, as `WrongProgram line 5: leader`
  X1            not a line of a transcript, as one with a payload of another program
                (is --program forgotten?), or, as line 1, no transcript
  NoSuch        there is no such node, or the other is not a neighbour
  NotReady      the node cannot make its next pulse yet
  NothingToPut  the out-list is empty
  LinkEmpty     no wire of the neighbour waits
  WrongWire     the node comes to another pulse or wire than the entry has
  WrongStamp    the entry has another stamp than its node comes to, or comes after
                an entry that it has to precede
  NotWhole      the last line: a node is not done, or a wire was not taken
The last two are of editions 2 and 3. WrongProgram is reported first, then the first
line that is X1; if there is no such line, the first entry that is refused; and if
no entry is, NotWhole.

Example: node 1 puts its greeting for node 2
  printf 'p edge 2 1\\ne 1 2\\ntranscript 1 2\\n1 put 2 payload 0 hello 1\\n' |
    forestplay replay
prints
  node 1 pulse 0
  link 1 2 taken 0 payload 0 hello 1
  node 2 pulse 0
  link 2 1 taken 0",
};

pub const ROUNDS: Help = Help {
    about: "Prints the rounds in which the nodes find their channels",
    long_about: "Prints the rounds in which the nodes find their channels.

The nodes look for the channels that `forestplan plain` prints, or run another
program, and all make a pulse at once: a node reads what its neighbours sent at
the pulse before, and sends at this one. Nodes without a common clock send the
very same payloads, whatever the threads do: see `forestplay run --transcript`.",
    format: "Input: a graph in the DIMACS format, as `p edge NODES EDGES` and then `e V W`.

Output, a line each:
  rounds 1 N DELTA U R   the numbers of vertices, of neighbours of one at most,
                         and of forests, and the last pulse; if a channel is
                         barred, the line is rounds 2 N DELTA BARS U R, where
                         BARS is the greatest number of barred channels of a
                         vertex
  pulse P PHASE          for each pulse from 0 to R: greet, orient, seed, step,
                         shift or drop, and from pulse 13 on merge F K J: the
                         vertices choose whose colour in forest F is K, and
                         whose colour was J before this forest
and after the line of a pulse, for each vertex V, ascending:
  V colour F C           at pulses 2 to 12, for each forest F: V's colour in it
  V chose C              V has chosen colour C, which is channel C + 1
  V put W payload P WORD NUMBER
                         for each neighbour W to which V sends: what it sends
With another --program the first line is `rounds 3 NAME N DELTA R`, the lines of
pulses are `pulse P`, and after pulse R comes the result of each vertex, as
`V leader ID` or `V layer N by PORT`.

Example: two nodes
  printf 'p edge 2 1\\ne 1 2\\n' | forestplay rounds",
};

pub const RUN: Help = Help {
    about: "Runs nodes on threads, and prints how each node ends",
    long_about: "Runs nodes on threads, and prints how each node ends.

Worker threads run the nodes in any order, without a common clock, and Awerbuch's
synchroniser alpha keeps each node in step with its neighbours: `forestplan plan
--help` explains the words and the options. Whatever the threads do, each node
ends in the state that the rounds end with. With --transcript it is printed what
each node did instead; transcripts differ from run to run.",
    format: "Input: a graph in the DIMACS format, as `p edge NODES EDGES` and then `e V W`.

Output, for each node V, ascending, a line:
  node V pulse P RESULT    its last pulse, and its result, as `forestplay events`
                           has it
With --transcript, a line each, as `forestplan transcript` writes them:
  transcript 2 NODES       the first line; of a program beside the colouring it is
                           `transcript 3 PROGRAM NODES`
  S V pulse P              node V made pulse P
  S V put W WIRE           V put a wire on its link to its neighbour W
  S V take W WIRE          V took a wire from the link of its neighbour W
`forestplay replay` with the same --program, --root and --passes accepts these
lines after the graph.

If it reports `forestplay: stopped` (status 3), the workers had looked for nodes
as often as --turns says before all nodes were done.

Example: three nodes in a row, of which node 1 has the identifier 1
  printf 'p edge 3 2\\ne 1 2\\ne 2 3\\n' | forestplay run --program layers
prints
  node 1 pulse 2 layer 0
  node 2 pulse 2 layer 1 by 0 to 1
  node 3 pulse 2 layer 2 by 0 to 2

Example: the same nodes, with node 3 as the root
  printf 'p edge 3 2\\ne 1 2\\ne 2 3\\n' |
    forestplay run --program layers --root 3
prints
  node 1 pulse 2 layer 2 by 0 to 2
  node 2 pulse 2 layer 1 by 1 to 3
  node 3 pulse 2 layer 0",
};

pub const ALONE: Help = Help {
    about: "Runs nodes on one thread, and prints how each node ends",
    long_about: "Runs nodes on one thread, and prints how each node ends.

The nodes are those of `forestplay run`, without a common clock, and each knows
only the wires of its neighbours. One thread plays their events: in a round each
node in turn makes a pulse, takes a wire from each neighbour and puts one for it, as
far as it can. A round in which no node can do anything is the last. This run is proved
to end, with the states that the rounds end with. With --transcript it prints what
each node did, in a run with another order. Two calls print the same bytes.",
    format: "Input: a graph in the DIMACS format, as `p edge NODES EDGES` and then `e V W`.

Output: a text like that of `forestplay run`, with --transcript or without it.
`forestplay replay` accepts such a transcript after the graph, with the same
--program, --root and --passes.

It keeps every wire that was put, so it takes more memory than `forestplay run`; and
in each round it looks at every node.

Example: three nodes in a row
  printf 'p edge 3 2\\ne 1 2\\ne 2 3\\n' | forestplay alone --program leader
prints
  node 1 pulse 3 leader 3
  node 2 pulse 3 leader 3
  node 3 pulse 3 leader 3 elected",
};

pub const ENDS: Help = Help {
    about: "Runs nodes in rounds, and prints how each node ends",
    long_about: "Runs nodes in rounds, and prints how each node ends.

One thread makes the rounds that `forestplay rounds` prints, and keeps only
the last states. It is to `forestplay run` what `forestplan plain` is to `forestplan
plan`: it prints the same text for the same input, much sooner.",
    format: "Input: a graph in the DIMACS format, as `p edge NODES EDGES` and then `e V W`.

Output: the text of `forestplay run` without --transcript.

Example: three nodes in a row
  printf 'p edge 3 2\\ne 1 2\\ne 2 3\\n' | forestplay ends --program recolouring
prints
  node 1 pulse 24 channel 2
  node 2 pulse 24 channel 1
  node 3 pulse 24 channel 2",
};
