ghost use Rattle.std.specs.Prelude.{◌≡◌, map};
ghost use Rattle.ga_explain.specs.Table.{sessions_entries};
ghost use Rattle.ga_explain.specs.Topic.{entry_of};

use crate::topic::{Topic, topic};

/// The refusals of commands, and faults of replay texts, in the order of the pages.
#[tactic(auto, unfolding(crate::specs::Table::sessions_entries))]
pub fn topics() -> [Topic; 15]
    ensures { map entry_of result ≡ sessions_entries }
{
    [
        topic!(
            "BadCommand",
            "no command here, or words behind it are missing, wrong or left over",
            BAD_COMMAND
        ),
        topic!(
            "BadAddress",
            "no address: three hex digits, at most 1FF",
            BAD_ADDRESS
        ),
        topic!("BadSide", "no side: r, d, l or u", BAD_SIDE),
        topic!(
            "BadCount",
            "no count: one to seven digits, at most 1000000",
            BAD_COUNT
        ),
        topic!("BadValue", "", BAD_VALUE),
        topic!(
            "NotHeld",
            "a node that isn't held at a breakpoint",
            NOT_HELD
        ),
        topic!("BadProfile", "", BAD_PROFILE),
        topic!("NoGo", "no line is 'go'", NO_GO),
        topic!("Source", "", SOURCE),
        topic!("Asm", "", ASM),
        topic!(
            "Route",
            "nodes that are no route: from an edge on, from neighbour to new neighbour",
            ROUTE,
        ),
        topic!(
            "Tree",
            "routes that are no tree: from one first node, and no node by two ways",
            TREE,
        ),
        topic!(
            "Boot",
            "a route without a node that the source text has",
            BOOT
        ),
        topic!(
            "EarlyReply",
            "a line that is no command or comment, with no command before it",
            EARLY_REPLY,
        ),
        topic!(
            "differs",
            "the result isn't the one that this line states",
            DIFFERS
        ),
    ]
}

const BAD_COMMAND: &str = "\
BadCommand: the first word of a line is no command, in lower case, or words are
left over, such as a blank at the line's start or end, or in 'debug' a
statement. Two blanks make an empty word between them, with the fault of what
belongs there. In a replay text this is also the fault of 'regs', 'mem' and
'ports', and of a statement that 'try' or 'turn' lacks, that can't be read, or
that is behind another command.

  $ printf 'profile 2\\nplace\\nnode 000 .\\ngo\\nTry 000 r\\n' | ga-bench debug
  refused BadCommand
  $ printf 'profile 2\\nplace\\nnode 000 .\\ngo\\ntry 000 r\\n' | ga-bench replay
  ga-bench: replay line 5 BadCommand

Fixed:

  $ printf 'profile 2\\nplace\\nnode 000 .\\ngo\\ntry 000 r\\n' | ga-bench debug
  moved
  $ printf 'profile 2\\nplace\\nnode 000 .\\ngo\\ntry 000 r = moved\\n' |
    ga-bench replay
  same 1
";

const BAD_ADDRESS: &str = "\
BadAddress: an address isn't three hex digits, without a $, up to 1FF. In a
transcript it isn't a label of the node either, nor a label, + and a decimal
number. The address of 'mem' has to be one of memory.

  $ printf 'profile 2\\nplace\\nnode 000 .\\ngo\\nbreak 000 3\\n' | ga-bench debug
  refused BadAddress

Fixed:

  $ printf 'profile 2\\nplace\\nnode 000 .\\ngo\\nbreak 000 003\\n' | ga-bench debug
  ok
";

const BAD_SIDE: &str = "\
BadSide: the side of a try isn't r, d, l or u, for right, down, left and up.
Only a multiport read uses it, but it is always required.

  $ printf 'profile 2\\nplace\\nnode 000 .\\ngo\\ntry 000 right\\n' | ga-bench debug
  refused BadSide

Fixed:

  $ printf 'profile 2\\nplace\\nnode 000 .\\ngo\\ntry 000 r\\n' | ga-bench debug
  moved
";

const BAD_COUNT: &str = "\
BadCount: a count, as the number of turns or of commands that 'back' undoes,
isn't a decimal number up to 1000000, of one to seven digits and without a sign.
The count of 'mem' can't be 0.

  $ printf 'profile 2\\nplace\\nnode 000 .\\ngo\\nturn +1\\n' | ga-bench debug
  refused BadCount

Fixed:

  $ printf 'profile 2\\nplace\\nnode 000 .\\ngo\\nturn 1\\n' | ga-bench debug
  moved 1
";

const BAD_VALUE: &str = "\
BadValue: 'watch' or 'expect' lacks what to look at (P, A, B, R, S, T, C, io,
steps, an address of memory or a label, a side, at, or stopped), or has another
word there; or a value is missing, or has another form. A word is one to five
hex digits, without a $. C, steps, and the words written or read at a side are
decimal. Behind 'watch' a value has = in front.

  $ printf 'profile 2\\nplace\\nnode 000 .\\ngo\\n> expect 000 T $0\\nok\\n' |
    ga-bench check
  ga-bench: check differs 5
  -ok
  +refused BadValue

Fixed:

  $ printf 'profile 2\\nplace\\nnode 000 .\\ngo\\n> expect 000 T 0\\nok\\n' |
    ga-bench check
  same 1
";

const NOT_HELD: &str = "\
NotHeld: the node isn't held, so it can't have a pass. A node is held if it is
about to fetch at a breakpoint, hasn't stopped, and has no pass yet. No try of
it is needed.

  $ printf 'profile 2\\nplace\\nnode 000 .\\ngo\\npass 000\\n' | ga-bench debug
  refused NotHeld

Fixed:

  $ printf 'profile 2\\nplace\\nnode 000 .\\ngo\\nbreak 000 000\\npass 000\\n' |
    ga-bench debug
  ok
  ok
";

const BAD_PROFILE: &str = "\
BadProfile: the first line of a session or of a replay text isn't exactly
'profile 2', without a blank or CR behind it or a byte order mark in front. For
'replay' it may also be 'profile 1', for older texts: there a node that is about
to fetch with bit 9 of P set counts as stopped.

  $ printf 'place\\nnode 000 .\\ngo\\nturn 1\\n' | ga-bench debug
  ga-bench: replay BadProfile

Fixed:

  $ printf 'profile 2\\nplace\\nnode 000 .\\ngo\\nturn 1\\n' | ga-bench debug
  moved 1
";

const NO_GO: &str = "\
NoGo: no line of a session or of a replay text is 'go' alone. It goes between
the source text and the commands. A blank or CR behind it makes it source text.

  $ printf 'profile 2\\nplace\\nnode 000 .\\nturn 1\\n' | ga-bench debug
  ga-bench: replay NoGo

Fixed:

  $ printf 'profile 2\\nplace\\nnode 000 .\\ngo\\nturn 1\\n' | ga-bench debug
  moved 1
";

const SOURCE: &str = "\
Source: the source text of a session or of a replay text has a fault. Run 'asm'
with the lines from the third one up to 'go' to see which.

  $ printf 'profile 2\\nplace\\nnode 000 xor\\ngo\\n' | ga-bench replay
  ga-bench: replay Source
  $ printf 'node 000 xor\\n' | ga-bench asm
  ga-bench: source 1:10 BadToken

Fixed:

  $ printf 'profile 2\\nplace\\nnode 000 or\\ngo\\n' | ga-bench replay
  same 0
";

const ASM: &str = "\
Asm: the source text of a session or of a replay text can't be laid as words.
Run 'asm' with the lines from the third one up to 'go' to see why.

  $ printf 'profile 2\\nplace\\nnode 000 jump x\\ngo\\n' | ga-bench replay
  ga-bench: replay Asm
  $ printf 'node 000 jump x\\n' | ga-bench asm
  ga-bench: asm 000 1:15 UndefinedLabel

Fixed:

  $ printf 'profile 2\\nplace\\nnode 000 x: jump x\\ngo\\n' | ga-bench replay
  same 0
";

const ROUTE: &str = "\
Route: nodes of the line 'route' of a session or of a replay text are no route.
Run 'boot' with the same routes and the source text to see why.

  $ printf 'profile 2\\nroute 408\\nnode 408 .\\ngo\\n' | ga-bench replay
  ga-bench: replay Route
  $ echo 'node 408 .' | ga-bench boot 408
  ga-bench: route NotEdge

Fixed: a route from the edge, or 'place' instead.

  $ printf 'profile 2\\nplace\\nnode 408 .\\ngo\\n' | ga-bench replay
  same 0
";

const TREE: &str = "\
Tree: the routes of the line 'route' of a session or of a replay text are no
tree. Run 'boot' with the same routes and the source text to see why.

  $ printf 'profile 2\\nroute 708,709/000,001\\nnode 709 .\\ngo\\n' |
    ga-bench replay
  ga-bench: replay Tree
  $ echo 'node 709 .' | ga-bench boot 708,709/000,001
  ga-bench: tree OtherRoot 1

Fixed:

  $ printf 'profile 2\\nroute 708,709/708,608\\nnode 709 .\\ngo\\n' |
    ga-bench replay
  same 0
";

const BOOT: &str = "\
Boot: a node of the source text of a session or of a replay text isn't on its
routes. Run 'boot' with the same routes and the source text to see which.

  $ printf 'profile 2\\nroute 708\\nnode 709 .\\ngo\\n' | ga-bench replay
  ga-bench: replay Boot
  $ echo 'node 709 .' | ga-bench boot 708
  ga-bench: boot Unreached 709

Fixed:

  $ printf 'profile 2\\nroute 708,709\\nnode 709 .\\ngo\\n' | ga-bench replay
  same 0
";

const EARLY_REPLY: &str = "\
EarlyReply: this line of a transcript, counted from 1, is behind 'go' and is no
command, no comment and not empty. So it is part of a reply, but no command is
before it. A command begins with '> ', a comment with '\\ '.

  $ printf 'profile 2\\nplace\\nnode 000 .\\ngo\\nturn 4\\n' | ga-bench check
  ga-bench: transcript line 5 EarlyReply
    turn 4
  a line that is no command or comment, with no command before it

Fixed:

  $ printf 'profile 2\\nplace\\nnode 000 .\\ngo\\n> breaks\\n' | ga-bench check
  same 1
";

const DIFFERS: &str = "\
differs: the command of this line of a replay text, counted from 1, has another
result than the line states. Run 'debug' without the statements to see the
result. From 'check': the command of this line of a transcript has another reply
than the lines behind it. 'record' writes the actual one.

  $ printf 'profile 2\\nplace\\nnode 000 .\\ngo\\nturn 4 = 5\\n' | ga-bench replay
  ga-bench: replay differs 5
  $ printf 'profile 2\\nplace\\nnode 000 .\\ngo\\nturn 4\\n' | ga-bench debug
  moved 4

Fixed, if the program is right and the statement wrong:

  $ printf 'profile 2\\nplace\\nnode 000 .\\ngo\\nturn 4 = 4\\n' | ga-bench replay
  same 1
";
