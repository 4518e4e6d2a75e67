ghost use Rattle.std.specs.Prelude.{◌≡◌, map};
ghost use Rattle.ga_explain.specs.Table.{warnings_entries};
ghost use Rattle.ga_explain.specs.Topic.{entry_of};

use crate::topic::{Topic, topic};

/// The warnings of `lint`, in the order of the pages.
// long: a row for each warning
#[tactic(auto, unfolding(crate::specs::Table::warnings_entries))]
pub fn topics() -> [Topic; 15]
    ensures { map entry_of result ≡ warnings_entries }
{
    [
        topic!(
            "UnextRepeats",
            "each round of this 'unext' also runs the 'push' or the number in its word",
            UNEXT_REPEATS,
        ),
        topic!(
            "SplitLoop",
            "a loop by 'unext' that begins in a new word only since the last one was full",
            SPLIT_LOOP,
        ),
        topic!(
            "RunsOff",
            "the last word of the code, and execution goes on behind it",
            RUNS_OFF,
        ),
        topic!(
            "PushesTooMany",
            "an eleventh word on the data stack: the first one is lost",
            PUSHES_TOO_MANY,
        ),
        topic!(
            "PopsTooMany",
            "a word taken from the data stack that the node never pushed",
            POPS_TOO_MANY,
        ),
        topic!(
            "UnusedLabel",
            "a label that no item names, at code that never runs",
            UNUSED_LABEL,
        ),
        topic!(
            "Unreachable",
            "code that never runs: nothing leads to it",
            UNREACHABLE,
        ),
        topic!(
            "SeveralPorts",
            "the address of several sides, to which the node writes: that stops it",
            SEVERAL_PORTS,
        ),
        topic!(
            "ReturnsNowhere",
            "a ';' without a call or a push before it",
            RETURNS_NOWHERE,
        ),
        topic!(
            "LeavesExtended",
            "a destination in slot 0 that leaves extended mode",
            LEAVES_EXTENDED,
        ),
        topic!(
            "OverMemory",
            "a destination where the node has no word to run",
            OVER_MEMORY,
        ),
        topic!(
            "IntoData",
            "a destination at a number or at data, which is run as code",
            INTO_DATA,
        ),
        topic!(
            "BeginsInData",
            "the node begins at a number or at data, which is run as code",
            BEGINS_IN_DATA,
        ),
        topic!(
            "ReadsIo",
            "an '@b' before any 'b!' reads io, which stops the node",
            READS_IO,
        ),
        topic!(
            "EdgePort",
            "a side without a neighbour, to which the node writes: it waits for ever",
            EDGE_PORT,
        ),
    ]
}

const UNEXT_REPEATS: &str = "\
UnextRepeats: 'unext' runs its word again from slot 0 on. So a number takes the
next word of the code in each round, and a 'push' sets R anew: it may never end.

  $ printf 'node 708 right b! 9 push again: 5 !b unext jump warm' |
    ga-bench lint
  -:1:33: warning: UnextRepeats: each round of this 'unext' also runs the 'push'
   or the number in its word (node 708)
    node 708 right b! 9 push again: 5 !b unext jump warm
                                    ^

Fixed:

  $ printf 'node 708 right b! 5 9 push again: dup !b unext jump warm' |
    ga-bench lint
";

const SPLIT_LOOP: &str = "\
SplitLoop: the items before 'unext' are in two words. It runs only its own word
again. A label in front of the loop begins a new word.

  $ printf 'node 708 9 push dup dup dup unext jump warm' | ga-bench lint
  -:1:25: warning: SplitLoop: a loop by 'unext' that begins in a new word only
   since the last one was full (node 708)
    node 708 9 push dup dup dup unext jump warm
                            ^

Fixed:

  $ printf 'node 708 9 push again: dup dup dup unext jump warm' | ga-bench lint
";

const RUNS_OFF: &str = "\
RunsOff: behind the last word of the code a node runs its data, and then words
that it doesn't have. End with a jump, as to 'warm', where a node waits for a
neighbour.

  $ printf 'node 708 right b! 5 !b' | ga-bench lint
  -:1:21: warning: RunsOff: the last word of the code, and execution goes on
   behind it (node 708)
    node 708 right b! 5 !b
                        ^

Fixed:

  $ printf 'node 708 right b! 5 !b jump warm' | ga-bench lint
";

const PUSHES_TOO_MANY: &str = "\
PushesTooMany: the data stack has ten words: T, S and eight below. An eleventh
one replaces the first. Only what a node runs first is looked at, up to a loop
or a jump.

  $ printf 'node 708 0 1 2 3 4 5 6 7 8 9 10 jump warm' | ga-bench lint
  -:1:26: warning: PushesTooMany: an eleventh word on the data stack: the first
   one is lost (node 708)
    node 708 0 1 2 3 4 5 6 7 8 9 10 jump warm
                             ^

Fixed:

  $ printf 'node 708 0 1 2 3 4 5 6 7 8 9 jump warm' | ga-bench lint
";

const POPS_TOO_MANY: &str = "\
PopsTooMany: the opcode takes a word that the node didn't push since its entry.
The stack has ten words at any time, so it gets an old one. Only what a node
runs first is looked at, up to a loop or a jump.

  $ printf 'node 708 + jump warm' | ga-bench lint
  -:1:10: warning: PopsTooMany: a word taken from the data stack that the node
   never pushed (node 708)
    node 708 + jump warm
             ^

Fixed:

  $ printf 'node 708 5 6 + jump warm' | ga-bench lint
";

const UNUSED_LABEL: &str = "\
UnusedLabel: no item names the label, and execution doesn't come to it from the
word before. So the code behind it never runs. A node that may run words of its
neighbours, as at 'warm', or others than its code has no such warning.

  $ printf 'node 708 right b! end: jump end send: 5 !b jump end' |
    ga-bench lint
  -:1:33: warning: UnusedLabel: a label that no item names, at code that never
   runs (node 708)
    node 708 right b! end: jump end send: 5 !b jump end
                                    ^

Fixed:

  $ printf 'node 708 right b! jump send end: jump end send: 5 !b jump end' |
    ga-bench lint
";

const UNREACHABLE: &str = "\
Unreachable: the code stands behind a jump, a ';' or an 'ex', and no destination
leads to it. So it never runs. A node that may run words of its neighbours, as
at 'warm', or others than its code has no such warning.

  $ printf 'node 708 right b! end: jump end 5 !b jump end' | ga-bench lint
  -:1:33: warning: Unreachable: code that never runs: nothing leads to it
   (node 708)
    node 708 right b! end: jump end 5 !b jump end
                                    ^

Fixed:

  $ printf 'node 708 right b! 5 !b end: jump end' | ga-bench lint
";

const SEVERAL_PORTS: &str = "\
SeveralPorts: a multiport read takes a word from one of several neighbours. A
write to several ports stops the node with MultiWrite.

  $ printf 'node 708 right|left b! 5 !b jump warm' | ga-bench lint
  -:1:10: warning: SeveralPorts: the address of several sides, to which the node
   writes: that stops it (node 708)
    node 708 right|left b! 5 !b jump warm
             ^

Fixed:

  $ printf 'node 708 right b! 5 !b jump warm' | ga-bench lint
";

const RETURNS_NOWHERE: &str = "\
ReturnsNowhere: ';' goes to the address in R. If nothing was called or pushed, R
has an old word.

  $ printf 'node 708 right b! 5 !b ;' | ga-bench lint
  -:1:21: warning: ReturnsNowhere: a ';' without a call or a push before it
   (node 708)
    node 708 right b! 5 !b ;
                        ^

Fixed:

  $ printf 'node 708 right b! 5 !b jump warm' | ga-bench lint
";

const LEAVES_EXTENDED: &str = "\
LeavesExtended: bit 9 of an address selects extended mode. A destination in slot
0 sets all bits of P, so a jump back to a label leaves the mode in a loop.

  $ printf 'node 708 jump $201 [ + . . . ] [ jump $001 ]' | ga-bench lint
  -:1:32: warning: LeavesExtended: a destination in slot 0 that leaves extended
   mode (node 708)
    node 708 jump $201 [ + . . . ] [ jump $001 ]
                                   ^

Fixed:

  $ printf 'node 708 jump $201 [ + . . . ] [ jump $201 ]' | ga-bench lint
";

const OVER_MEMORY: &str = "\
OverMemory: the node has no word at this address, so it would run what is left
there, or zeros. Addresses 040 to 07F are those from 000 on again. Those from
080 to 0FF are in ROM, which stops the node except at 'warm'.

  $ printf 'node 708 5 jump 9' | ga-bench lint
  -:1:10: warning: OverMemory: a destination where the node has no word to run
   (node 708)
    node 708 5 jump 9
             ^

Fixed:

  $ printf 'node 708 5 jump 0' | ga-bench lint
";

const INTO_DATA: &str = "\
IntoData: the destination is a number in the code, or data, which is run there
as code. A node that may write over its words, or whose neighbours may do so,
has no such warning.

  $ printf 'node 708 jump table data table: , 5' | ga-bench lint
  -:1:10: warning: IntoData: a destination at a number or at data, which is run
   as code (node 708)
    node 708 jump table data table: , 5
             ^

Fixed:

  $ printf 'node 708 [ @p a! @ . ] , table end: jump end data table: , 5' |
    ga-bench lint
";

const BEGINS_IN_DATA: &str = "\
BeginsInData: a node begins at 'main', or else at its first word. A number or
data there is run as code.

  $ printf 'node 708 data main: , 5' | ga-bench lint
  -:1:21: warning: BeginsInData: the node begins at a number or at data, which
   is run as code (node 708)
    node 708 data main: , 5
                        ^

Fixed:

  $ printf 'node 708 main: jump main data table: , 5' | ga-bench lint
";

const READS_IO: &str = "\
ReadsIo: B is the address of io until 'b!' sets it, and a read of io stops the
node: the bench has no pins. Only what a node runs first is looked at, up to a
loop or a jump. An '@b' at the end of the code is meant to stop the node.

  $ printf 'node 708 @b jump warm' | ga-bench lint
  -:1:10: warning: ReadsIo: an '@b' before any 'b!' reads io, which stops the
   node (node 708)
    node 708 @b jump warm
             ^

Fixed:

  $ printf 'node 708 right b! @b jump warm' | ga-bench lint
";

const EDGE_PORT: &str = "\
EdgePort: the node has no neighbour at this side, so nobody takes the word. Rows
0 and 7 lack up, and columns 0 and 17 lack left. A read there has no such
warning: on the chip, which has more than the bench runs, it may wait for a pin.

  $ printf 'node 708 up b! 5 !b jump warm' | ga-bench lint
  -:1:10: warning: EdgePort: a side without a neighbour, to which the node
   writes: it waits for ever (node 708)
    node 708 up b! 5 !b jump warm
             ^

Fixed:

  $ printf 'node 708 right b! 5 !b jump warm' | ga-bench lint
";
