ghost use Rattle.std.specs.Prelude.{◌≡◌, map};
ghost use Rattle.ga_explain.specs.Table.{includes_entries};
ghost use Rattle.ga_explain.specs.Topic.{entry_of};

use crate::topic::{Topic, topic};

/// The faults of lines that include a file, in the order of the pages.
#[tactic(auto, unfolding(crate::specs::Table::includes_entries))]
pub fn topics() -> [Topic; 5]
    ensures { map entry_of result ≡ includes_entries }
{
    [
        topic!(
            "BadInclude",
            "an include needs the name of one file in quotation marks",
            BAD_INCLUDE,
        ),
        topic!(
            "IncludeCycle",
            "a file that includes itself, directly or through others",
            INCLUDE_CYCLE,
        ),
        topic!(
            "IncludeDepth",
            "files that include one another more than 16 deep",
            INCLUDE_DEPTH,
        ),
        topic!(
            "IncludeCount",
            "a text of more than 64 files",
            INCLUDE_COUNT,
        ),
        topic!(
            "IncludeSize",
            "here the text gets longer than 1,048,576 bytes",
            INCLUDE_SIZE,
        ),
    ]
}

const BAD_INCLUDE: &str = "\
BadInclude: a line that begins with 'include' has the name of a file behind it,
in quotation marks, and nothing else but a comment.

  $ echo 'include my.source' >all.source; ga-bench asm all.source
  all.source:1:1: error: BadInclude: an include needs the name of one file in
   quotation marks
    include my.source
    ^

Fixed:

  $ echo 'include \"my.source\"' >all.source; ga-bench asm all.source
  node 000 entry 000 code 1 words 1
  2C9B2
";

const INCLUDE_CYCLE: &str = "\
IncludeCycle: the file includes itself, or one that includes it, so its lines
would have no end.

  $ echo 'include \"all.source\"' >all.source; cat my.source >>all.source; \\
    ga-bench asm all.source
  all.source:1:1: error: IncludeCycle: a file that includes itself, directly or
   through others
    include \"all.source\"
    ^

Fixed:

  $ echo 'include \"my.source\"' >all.source; ga-bench asm all.source
  node 000 entry 000 code 1 words 1
  2C9B2
";

const INCLUDE_DEPTH: &str = "\
IncludeDepth: a file includes a file, that one the next, and so on, so that 16
files are open at once. This line would open one more.

  $ for n in {1..16}; do echo \"include \\\"f$((n+1))\\\"\" >f$n; done; \\
    cp my.source f17; ga-bench asm f1
  f16:1:1: error: IncludeDepth: files that include one another more than 16 deep
    include \"f17\"
    ^

Fixed:

  $ for n in {1..15}; do echo \"include \\\"f$((n+1))\\\"\" >f$n; done; \\
    cp my.source f16; ga-bench asm f1
  node 000 entry 000 code 1 words 1
  2C9B2
";

const INCLUDE_COUNT: &str = "\
IncludeCount: a text has at most 64 files: FILE, and those that are included. A
file that is included several times counts once.

  $ for n in {1..64}; do touch f$n; echo \"include \\\"f$n\\\"\" >>all; done; \\
    cp my.source f1; ga-bench asm all
  all:64:1: error: IncludeCount: a text of more than 64 files
    include \"f64\"
    ^

Fixed:

  $ for n in {1..63}; do touch f$n; echo \"include \\\"f$n\\\"\" >>all; done; \\
    cp my.source f1; ga-bench asm all
  node 000 entry 000 code 1 words 1
  2C9B2
";

const INCLUDE_SIZE: &str = "\
IncludeSize: with this line, or the file that it includes, the text has more
bytes than an input may have, 1,048,576.

  $ { cat my.source; yes | head -n 600000; } >big; echo 'include \"big\"' >all; \\
    ga-bench asm all
  all:1:1: error: IncludeSize: here the text gets longer than 1,048,576 bytes
    include \"big\"
    ^

Fixed:

  $ cp my.source small; echo 'include \"small\"' >all; ga-bench asm all
  node 000 entry 000 code 1 words 1
  2C9B2
";
