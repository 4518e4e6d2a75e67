ghost use Rattle.std.specs.Prelude.{◌≡◌, map};
ghost use Rattle.ga_explain.specs.Table.{larger_entries};
ghost use Rattle.ga_explain.specs.Topic.{entry_of};

use crate::topic::{Topic, topic};

/// The faults of texts of the larger language, in the order of the pages.
#[tactic(auto, unfolding(crate::specs::Table::larger_entries))]
pub fn topics() -> [Topic; 7]
    ensures { map entry_of result ≡ larger_entries }
{
    [
        topic!(
            "ReservedName",
            "a name that the language has for something else",
            RESERVED_NAME,
        ),
        topic!(
            "DuplicateName",
            "a name that is defined already",
            DUPLICATE_NAME,
        ),
        topic!(
            "OpenDefinition",
            "a definition or a use that isn't complete",
            OPEN_DEFINITION,
        ),
        topic!(
            "NoNeighbour",
            "no neighbour of the node, or a direction in which the chip ends",
            NO_NEIGHBOUR,
        ),
        topic!(
            "UnknownBody",
            "no body before it has this name",
            UNKNOWN_BODY
        ),
        topic!(
            "TooLarge",
            "over 256 bodies, 64 parameters, or 262,144 tokens of all 'use' or all lists",
            TOO_LARGE,
        ),
        topic!(
            "MixedSides",
            "a '|' that joins the address of sides and another number",
            MIXED_SIDES,
        ),
    ]
}

const RESERVED_NAME: &str = "\
ReservedName: a constant, a body or a parameter has the name of an opcode or of
a number, or of a word of either language, as 'node', 'to' or 'include'. What is
behind the name of a body, on its line, are parameters: its tokens begin on the
next line.

  $ printf 'const up 5\\nnode 709 up\\n' | ga-bench expand
  ga-bench: expand 1:7 ReservedName
    const up 5
          ^
  a name that the language has for something else

Fixed:

  $ printf 'const UP 5\\nnode 709 UP\\n' | ga-bench expand
  node 709 $00005
";

const DUPLICATE_NAME: &str = "\
DuplicateName: a definition before this one has the name. Constants and bodies
can't share a name; nor can two parameters of a body, or a label and a constant.
A file that two others include is there twice, with its definitions.

  $ printf 'const A 1 const A 2\\nnode 709 A\\n' | ga-bench expand
  ga-bench: expand 1:17 DuplicateName
    const A 1 const A 2
                    ^
  a name that is defined already

Fixed:

  $ printf 'const A 1 const B 2\\nnode 709 A\\n' | ga-bench expand
  node 709 $00001
";

const OPEN_DEFINITION: &str = "\
OpenDefinition: the text ends in a definition: 'const' needs a name and a value,
and 'body' a name and 'end'. Or a 'use' lacks its name, or an argument: it needs
a token for each parameter, on its line. 'node', 'const', 'body', 'end', 'use'
and 'include' are no arguments.

  $ printf 'const A 1 const B\\n' | ga-bench expand
  ga-bench: expand 1:11 OpenDefinition
    const A 1 const B
              ^
  a definition or a use that isn't complete

Fixed:

  $ printf 'const A 1 const B 2\\nnode 709 B\\n' | ga-bench expand
  node 709 $00002
";

const NO_NEIGHBOUR: &str = "\
NoNeighbour: the node behind 'to' isn't beside this one, as 708 and 709 are, nor
above or below it, as 708 and 608 are. Or the chip ends in this direction: row 7
is the northern one, and column 00 the western one.

  $ printf 'node 708 to 710 b!\\n' | ga-bench expand
  ga-bench: expand 1:13 NoNeighbour
    node 708 to 710 b!
                ^
  no neighbour of the node, or a direction in which the chip ends

Fixed:

  $ printf 'node 708 to 709 b!\\n' | ga-bench expand
  node 708 $001D5 b!
";

const UNKNOWN_BODY: &str = "\
UnknownBody: no body with the name behind 'use' is defined before it. A body can
use those before it, and not itself. A body without its 'end' goes on to the
next one, with all that is between.

  $ printf 'body twice\\n 2* end\\nnode 709 use twise\\n' | ga-bench expand
  ga-bench: expand 3:14 UnknownBody
    node 709 use twise
                 ^
  no body before it has this name

Fixed:

  $ printf 'body twice\\n 2* end\\nnode 709 use twice\\n' | ga-bench expand
  node 709
  2*
";

const TOO_LARGE: &str = "\
TooLarge: with this 'use' all of the text stand for more than 262,144 tokens.
Those in bodies count, too. Or the sections of all lists of nodes, as of 'node
708,709', have more. Or the text has over 256 bodies, or a body over 64
parameters.

  $ { echo body B; seq 9999; echo end node 709; yes use B | head -n 27; } |
    ga-bench expand
  ga-bench: expand 10028:5 TooLarge
    use B
        ^
  over 256 bodies, 64 parameters, or 262,144 tokens of all 'use' or all lists

Fixed:

  $ { echo body B; seq 3; echo end node 709; yes use B | head -n 2; } |
    ga-bench expand
  node 709
  1
  2
  3
  1
  2
  3
";

const MIXED_SIDES: &str = "\
MixedSides: in an expression '|' joins the addresses of sides to that of all of
them, or the bits of other numbers, but not an address and another number. An
address is the name of a side, 'rdlu', or a constant whose value is one. A
number in digits is none, nor is the result of another operator.

  $ printf 'const P right\\nconst BOTH P|$115\\nnode 709 BOTH b!\\n' |
    ga-bench expand
  ga-bench: expand 2:12 MixedSides
    const BOTH P|$115
               ^
  a '|' that joins the address of sides and another number

Fixed:

  $ printf 'const P right\\nconst BOTH P|down\\nnode 709 BOTH b!\\n' |
    ga-bench expand
  node 709 $00195 b!
";
