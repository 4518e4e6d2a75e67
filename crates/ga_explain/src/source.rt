ghost use Rattle.std.specs.Prelude.{◌≡◌, map};
ghost use Rattle.ga_explain.specs.Table.{source_entries};
ghost use Rattle.ga_explain.specs.Topic.{entry_of};

use crate::topic::{Topic, topic};

/// The faults of source text, in the order of the pages.
#[tactic(auto, unfolding(crate::specs::Table::source_entries))]
pub fn topics() -> [Topic; 10]
    ensures { map entry_of result ≡ source_entries }
{
    [
        topic!(
            "BadToken",
            "a token that the language doesn't have, or one that may not stand there",
            BAD_TOKEN,
        ),
        topic!(
            "NumberRange",
            "a number over $3FFFF, a destination over $3FF outside brackets, or a division by 0",
            NUMBER_RANGE,
        ),
        topic!(
            "BadNode",
            "no name of a node: three digits, the row 0 to 7 and the column 00 to 17",
            BAD_NODE,
        ),
        topic!(
            "DuplicateNode",
            "a node that has a section already",
            DUPLICATE_NODE
        ),
        topic!(
            "DuplicateLabel",
            "a label that its node has already",
            DUPLICATE_LABEL
        ),
        topic!(
            "ReservedLabel",
            "a label with a name that the language has for something else",
            RESERVED_LABEL,
        ),
        topic!(
            "OpenBracket",
            "a [ that has no ] before the next [ or the text's end",
            OPEN_BRACKET,
        ),
        topic!(
            "BadWord",
            "what can't stand in this word, or a follower that the word before lacks",
            BAD_WORD,
        ),
        topic!(
            "NoNode",
            "something before the first 'node', or a text without one",
            NO_NODE
        ),
        topic!("Empty", "a section that makes no word", EMPTY),
    ]
}

const BAD_TOKEN: &str = "\
BadToken: a token that the language doesn't have, or one that isn't allowed
there. The line and the column are those of the token, or of the text's end if
something is missing. Tokens end at blanks. If the text is that of a FILE, the
error names the word or name that may be meant, if one is near.

  $ echo 'node 709 0x15' | ga-bench asm
  ga-bench: source 1:10 BadToken

Fixed:

  $ echo 'node 709 $15' | ga-bench asm
  node 709 entry 000 code 2 words 2
  049B2 00015

Elsewhere                  Here
0x15, 15h, #21, 1D5        $15, 21, $1D5: decimal, or hex with a $
123456789                  at most eight digits
-1                         $3FFFF, or '0 -'; in a FILE -1 is a number
xor, inv, nop, ret         or, -, ., ;
>r, r>, @a, !a             push, pop, @, !
DUP                        dup: opcodes are in lower case
@p, !p                     only in brackets; a number is @p with its word
: foo, or foo : apart      foo: is one token
foo!: or a long name       one to sixteen letters, digits and _, no digit first
foo, as a call             call foo; if ; follows, jump foo
table, as a number         [ @p . . . ] , table; in a FILE &table
( a note ), \\note          \\ and a blank, up to the line's end
if .. then, begin .. until labels, and jumps to them
for .. next                push again: .. next again
..                         align
] or / outside brackets    only in brackets
a byte order mark          none: save the text without it (reported at 1:1)
r---, north                right; in a FILE north is a side: docs/CHIP.md
, 5 between instructions   behind a word in brackets with @p, or behind data
dup behind data            only labels and , words may follow data
jump, and then nothing     a number or a name behind it, and no opcode's name

docs/COMING-FROM.md shows the notations of other assemblers beside this one.
";

const NUMBER_RANGE: &str = "\
NumberRange: a number over $3FFFF, more than 18 bits, or a destination over $3FF
outside brackets. Write a negative number as its word: -1 is $3FFFF. In a FILE
-1 may stand, down to -131072. In an expression it is also a part of more than
32 bits with its sign, a shift by more than 17, or a division by 0.

  $ echo 'node 709 $FFFFF' | ga-bench asm
  ga-bench: source 1:10 NumberRange

Fixed:

  $ echo 'node 709 $3FFFF' | ga-bench asm
  node 709 entry 000 code 2 words 2
  049B2 3FFFF
";

const BAD_NODE: &str = "\
BadNode: the name of a node is missing or wrong. A name is three digits: the
row, 0 to 7, and the column, 00 to 17. In source text it comes behind 'node'. In
a command of a session it is the word for the node.

  $ echo 'node 8 dup' | ga-bench asm
  ga-bench: source 1:6 BadNode
  $ printf 'profile 2\\nplace\\nnode 008 .\\ngo\\nregs 8\\n' | ga-bench debug
  refused BadNode

Fixed:

  $ echo 'node 008 dup' | ga-bench asm
  node 008 entry 000 code 1 words 1
  249B2
";

const DUPLICATE_NODE: &str = "\
DuplicateNode: a node has two sections. Put all of a node's text into one.

  $ printf 'node 709 dup\\nnode 709 drop\\n' | ga-bench asm
  ga-bench: source 2:6 DuplicateNode

Fixed:

  $ echo 'node 709 dup drop' | ga-bench asm
  node 709 entry 000 code 1 words 1
  242B2
";

const DUPLICATE_LABEL: &str = "\
DuplicateLabel: a node has two labels with the same name. Labels of two nodes
may have the same name, since only its own node sees a label.

  $ echo 'node 709 x: dup x: drop' | ga-bench asm
  ga-bench: source 1:17 DuplicateLabel

Fixed:

  $ echo 'node 709 x: dup y: drop' | ga-bench asm
  node 709 entry 000 code 2 words 2
  249B2 3A9B2
";

const RESERVED_LABEL: &str = "\
ReservedLabel: a label has the name of an opcode, of a port (right, down, left,
up, rdlu), io or warm, or is node, align or data. Names are case-sensitive: IF:
is a label.

  $ echo 'node 709 if: dup' | ga-bench asm
  ga-bench: source 1:10 ReservedLabel

Fixed:

  $ echo 'node 709 again: dup' | ga-bench asm
  node 709 entry 000 code 1 words 1
  249B2
";

const OPEN_BRACKET: &str = "\
OpenBracket: a [ has no ] before the next [ or the text's end. Each pair of
brackets is one word.

  $ echo 'node 709 [ dup drop [ dup ]' | ga-bench asm
  ga-bench: source 1:21 OpenBracket

Fixed:

  $ echo 'node 709 [ dup drop ] [ dup ]' | ga-bench asm
  node 709 entry 000 code 2 words 2
  242B2 249B2
";

const BAD_WORD: &str = "\
BadWord: in source text, the first token in brackets that isn't allowed: an
opcode for which the word has no room, a number or name that no opcode takes, a
number over its field, the ] of [ ]; or an item while the word before lacks a
follower. Slot 3 has room only for ; unext @p !p +* + dup .

  $ echo 'node 709 [ dup dup dup drop ]' | ga-bench asm
  ga-bench: source 1:24 BadWord

Fixed, as two words:

  $ echo 'node 709 [ dup dup dup ] drop' | ga-bench asm
  node 709 entry 000 code 2 words 2
  24D92 3A9B2

For words it is the first token, counted from 0, that isn't five hex digits up
to 3FFFF:

  $ echo '04A12 5' | ga-bench one 5
  ga-bench: words 1 BadWord
  $ echo '04A12 00005' | ga-bench one 2
  node 000 P 002 A 00000 B 15D R 00000 S 00000 T 00005 C 0 io 00000 at slot1
   steps 2 need own
";

const NO_NODE: &str = "\
NoNode: something comes before the first 'node', or the text has none. A program
begins with the node that it is for. In a FILE 'const', 'body' and 'include' may
come before it; the value of a constant is one token, without blanks. A FILE of
definitions alone has no node: include it.

  $ echo '5 dup' | ga-bench asm
  ga-bench: source 1:1 NoNode

Fixed:

  $ echo 'node 709 5 dup' | ga-bench asm
  node 709 entry 000 code 2 words 2
  04DB2 00005
";

const EMPTY: &str = "\
Empty: a section of source text makes no word; there are no words for 'one' or
'dis' (words Empty); or 'run' has more workers than nodes (plan Empty, and the
number of the first worker without a node, from 0).

  $ echo 'node 709 main:' | ga-bench asm
  ga-bench: source 2:1 Empty
  $ echo | ga-bench one 5
  ga-bench: words Empty
  $ echo 'node 709 .' | ga-bench run 708,709 3 200
  ga-bench: plan Empty 2

Fixed: a node that does nothing has a '.', and a route of two nodes has one or
two workers.

  $ echo 'node 709 main: .' | ga-bench asm
  node 709 entry 000 code 1 words 1
  2C9B2
";
