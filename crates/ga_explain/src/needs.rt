ghost use Rattle.std.specs.Prelude.{◌≡◌, map};
ghost use Rattle.ga_explain.specs.Table.{needs_entries};
ghost use Rattle.ga_explain.specs.Topic.{entry_of};

use crate::topic::{Topic, topic};

/// The needs and the stops of a node, in the order of the pages.
#[tactic(auto, unfolding(crate::specs::Table::needs_entries))]
pub fn topics() -> [Topic; 11]
    ensures { map entry_of result ≡ needs_entries }
{
    [
        topic!("own", "", OWN),
        topic!("take", "", TAKE),
        topic!("post", "", POST),
        topic!("check", "", CHECK),
        topic!("input", "", INPUT),
        topic!("stopped", "", STOPPED),
        topic!("Counted", "", COUNTED),
        topic!("IoRead", "", IO_READ),
        topic!("Rom", "", ROM),
        topic!("Unmapped", "", UNMAPPED),
        topic!("MultiWrite", "", MULTI_WRITE),
    ]
}

const OWN: &str = "\
own: the node needs nothing from outside for its next step. Each try of it is a
step, unless a breakpoint holds it.

  $ echo 2C9B2 | ga-bench one 0
  node 000 P 000 A 00000 B 15D R 00000 S 00000 T 00000 C 0 io 00000 at fetch
   steps 0 need own

There is nothing to fix: with one try it makes one step.

  $ echo 2C9B2 | ga-bench one 1
  node 000 P 001 A 00000 B 15D R 00000 S 00000 T 00000 C 0 io 00000 at slot0
   steps 1 need own
";

const TAKE: &str = "\
take: the node needs a word from a port, or from one of several, and waits until
a neighbour has posted one there. The port's address is in P (for a fetch), A or
B.

  $ printf 'profile 2\\nplace\\nnode 709 right a! @\\ngo\\nturn 7\\nregs 709\\n' |
    ga-bench debug
  moved 3
  node 709 P 002 A 001D5 B 15D R 00000 S 00000 T 00000 C 0 io 00000 at slot2
   steps 3 need take

Fixed: its neighbour on the right, 708, sends a word.

  $ printf '%s\\n' 'profile 2' place 'node 708 right a! 5 !' \\
    'node 709 right a! @' go 'turn 7' 'regs 709' | ga-bench debug
  moved 11
  node 709 P 002 A 001D5 B 15D R 00000 S 00000 T 00005 C 0 io 00000 at slot3
   steps 4 need own
";

const POST: &str = "\
post: the node has a word for a neighbour, and its next step posts it at the
port. There is always room, so a try posts it. Then the need is check. At a side
without a neighbour it waits for ever. So it does in 'one', which has no chip.

  $ echo 04B22 001D5 | ga-bench one 9
  node 000 P 002 A 00000 B 1D5 R 00000 S 00000 T 00000 C 0 io 00000 at slot2
   steps 3 need post

This is 'right b! !b'. Fixed, on the whole chip:

  $ printf '%s\\n' 'profile 2' place 'node 000 right b! !b' go 'turn 4' \\
    'regs 000' | ga-bench debug
  moved 4
  node 000 P 002 A 00000 B 1D5 R 00000 S 00000 T 00000 C 0 io 00000 at slot2
   steps 4 need check
";

const CHECK: &str = "\
check: the node has posted a word, and waits until the neighbour has read it. An
idle neighbour reads it too, at the next turn to its side, and executes it: here
709 would stop at IoRead.

  $ printf '%s\\n' 'profile 2' place 'node 708 right b! 5 !b' go 'turn 8' \\
    'regs 708' | ga-bench debug
  moved 7
  node 708 P 004 A 00000 B 1D5 R 00000 S 00000 T 00000 C 0 io 00000 at slot0
   steps 7 need check

Fixed: 709, on its right, reads at their port.

  $ printf '%s\\n' 'profile 2' place 'node 708 right b! 5 !b' \\
    'node 709 right a! @' go 'turn 8' 'regs 708' | ga-bench debug
  moved 13
  node 708 P 004 A 00000 B 1D5 R 00000 S 00000 T 00000 C 0 io 00000 at slot1
   steps 8 need own
";

const INPUT: &str = "\
input: the node boots, and its loader needs the next word of its stream. A try
takes it. If none is left the node waits for ever. ('input' also comes before
faults of the program's input: see BadText and TooLong.)

  $ printf '%s\\n' 'profile 2' 'route 708' 'node 708 .' go 'regs 708' |
    ga-bench debug
  node 708 P 1B5 A 00000 B 15D R 00000 S 00000 T 00000 C 0 io 00000
   at completion steps 0 need input

Fixed, with one turn for each word of the stream, 4 to load and 3 to start:

  $ printf '%s\\n' 'profile 2' 'route 708' 'node 708 .' go 'turn 7' \\
    'regs 708' | ga-bench debug
  moved 7
  node 708 P 000 A 00000 B 15D R 00000 S 00000 T 00000 C 0 io 00000 at fetch
   steps 7 need own
";

const STOPPED: &str = "\
stopped: the node can make no more steps. The name behind it is the reason: see
Counted, IoRead, Rom, Unmapped, MultiWrite. As the outcome of a try: the node
has stopped, and nothing changes.

  $ printf '%s\\n' 'profile 2' place 'node 000 @b' go 'turn 3' 'try 000 r' \\
    'regs 000' | ga-bench debug
  moved 1
  stopped
  node 000 P 001 A 00000 B 15D R 00000 S 00000 T 00000 C 0 io 00000 at slot0
   steps 1 need stopped IoRead

Fixed: B has an address of memory; after reset it has that of io.

  $ printf '%s\\n' 'profile 2' place 'node 000 0 b! @b' go 'turn 3' \\
    'try 000 r' | ga-bench debug
  moved 3
  moved
";

const COUNTED: &str = "\
Counted: the node has made 2^64 - 1 steps, the most that can be counted. There
is no example, since no run gets so far.
";

const IO_READ: &str = "\
IoRead: a read or a fetch at io, 15D, which the bench doesn't model. B is 15D
after reset, and a word of memory that was never written is '@b and @b +'. So a
program that runs past its last word stops here too.

  $ printf '%s\\n' 'profile 2' place 'node 000 5' go 'turn 99' 'regs 000' |
    ga-bench debug
  moved 6
  node 000 P 003 A 00000 B 15D R 00000 S 00000 T 00005 C 0 io 00000 at slot0
   steps 6 need stopped IoRead

Fixed, with an end at which it waits for a neighbour:

  $ printf '%s\\n' 'profile 2' place 'node 000 5 jump warm' go 'turn 99' \\
    'regs 000' | ga-bench debug
  moved 5
  node 000 P 195 A 00000 B 15D R 00000 S 00000 T 00005 C 0 io 00000 at fetch
   steps 5 need take
";

const ROM: &str = "\
Rom: a write from 080 to 0FF, or a read or a fetch there except at 0A9 and 0E9.
The bench has one word of ROM, at 0A9, warm: a jump to the ports.

  $ echo 10080 | ga-bench one 9
  node 000 P 080 A 00000 B 15D R 00000 S 00000 T 00000 C 0 io 00000 at fetch
   steps 2 need stopped Rom

This is 'jump $80'. Fixed, as 'jump warm':

  $ echo 100A9 | ga-bench one 9
  node 000 P 195 A 00000 B 15D R 00000 S 00000 T 00000 C 0 io 00000 at fetch
   steps 4 need take
";

const UNMAPPED: &str = "\
Unmapped: a read, a write or a fetch at an address from 100 to 1FF that is
neither io nor a port, nor several of them.

  $ echo 10100 | ga-bench one 9
  node 000 P 100 A 00000 B 15D R 00000 S 00000 T 00000 C 0 io 00000 at fetch
   steps 2 need stopped Unmapped

This is 'jump $100'. Fixed, as 'jump right', where it waits for a word:

  $ echo 101D5 | ga-bench one 9
  node 000 P 1D5 A 00000 B 15D R 00000 S 00000 T 00000 C 0 io 00000 at fetch
   steps 2 need take
";

const MULTI_WRITE: &str = "\
MultiWrite: a write at an address of several ports, such as rdlu. A write posts
at one port. Only reads may be multiport.

  $ printf '%s\\n' 'profile 2' place 'node 000 rdlu b! 5 !b' go 'turn 8' \\
    'regs 000' | ga-bench debug
  moved 6
  node 000 P 004 A 00000 B 1A5 R 00000 S 00000 T 00005 C 0 io 00000 at slot0
   steps 6 need stopped MultiWrite

Fixed, at the right port alone:

  $ printf '%s\\n' 'profile 2' place 'node 000 right b! 5 !b' go 'turn 8' \\
    'regs 000' | ga-bench debug
  moved 7
  node 000 P 004 A 00000 B 1D5 R 00000 S 00000 T 00000 C 0 io 00000 at slot0
   steps 7 need check
";
