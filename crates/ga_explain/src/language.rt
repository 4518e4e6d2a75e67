ghost use Rattle.std.specs.Prelude.{◌≡◌, map};
ghost use Rattle.ga_explain.specs.Table.{language_entries};
ghost use Rattle.ga_explain.specs.Topic.{entry_of};

use crate::topic::{Topic, topic};

/// The words of the larger language, which a FILE may have.
#[tactic(auto, unfolding(crate::specs::Table::language_entries))]
pub fn topics() -> [Topic; 5]
    ensures { map entry_of result ≡ language_entries }
{
    [
        topic!("const", "", CONST),
        topic!("body", "", BODY),
        topic!("use", "", USE),
        topic!("include", "", INCLUDE),
        topic!("to", "", TO),
    ]
}

const CONST: &str = "\
const: in a FILE, 'const NAME VALUE' before the first node gives a number a
name. VALUE is one token without blanks: a number, a constant before it, or an
expression with + - * / % & | << >> and ( ), as in C. An expression can't stand
elsewhere, so give its value a name. No label has the name of a constant.

  $ printf '%s\\n' 'const SIZE 8' 'const LAST SIZE-1' 'node 708 LAST push' |
    ga-bench expand
  node 708 $00007 push

In an expression 'right|left' is the address of both ports, also with constants
that are addresses of sides. Other operators take the number of a side.
";

const BODY: &str = "\
body: in a FILE, 'body NAME PARAMETERS' before the first node defines a shared
body. Its tokens begin on the next line and end with 'end'. See use.

  $ printf '%s\\n' 'body send PORT' '  PORT b! !b' end \\
    'node 708 5 use send right' | ga-bench expand
  node 708 5 right
  b! !b

A body may use those before it. A parameter stands for one token. Labels of a
body are those of the node that uses it, so a node uses such a body once.
";

const USE: &str = "\
use: in a FILE, 'use NAME ARGUMENTS' stands for the tokens of the body NAME,
with an argument in place of each parameter. The arguments are the next tokens
of this line, as many as the body has parameters. 'to 709' and '[ dup ]' are
several tokens.

  $ printf '%s\\n' 'body add A B' '  A B . +' end 'node 708 use add 3 4 ;' |
    ga-bench expand
  node 708 3 4
  . +
  ;
";

const INCLUDE: &str = "\
include: in a FILE, a line 'include \"NAME\"' stands for the lines of that file,
which lies beside the file with the line. Standard input includes nothing.

  $ echo 'include \"my.source\"' >all.source; ga-bench asm all.source
  node 000 entry 000 code 1 words 1
  2C9B2

Each include gives the lines once more. So a file of definitions is included
once: in the file that all others are included in.
";

const TO: &str = "\
to: in a FILE, 'to 709' behind the name of a node is the address of the port
between that node and its neighbour 709. So are north, east, south and west, by
the node's place.

  $ printf '%s\\n' 'node 708 to 709 b! !b' 'node 709 west a! @' | ga-bench expand
  node 708 $001D5 b! !b
  node 709 $001D5 a! @
";
