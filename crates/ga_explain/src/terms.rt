ghost use Rattle.std.specs.Prelude.{◌≡◌, map};
ghost use Rattle.ga_explain.specs.Table.{terms_entries};
ghost use Rattle.ga_explain.specs.Topic.{entry_of};

use crate::topic::{Topic, topic};

/// The carry, the outcomes of a try, and other words that replies, listings and help use.
#[tactic(auto, unfolding(crate::specs::Table::terms_entries))]
pub fn topics() -> [Topic; 13]
    ensures { map entry_of result ≡ terms_entries }
{
    [
        topic!("carry", "", CARRY),
        topic!("moved", "", MOVED),
        topic!("waits", "", WAITS),
        topic!("held", "", HELD),
        topic!("stuck", "", STUCK),
        topic!("ring", "", RING),
        topic!("race", "", RACE),
        topic!("turn", "", TURN),
        topic!("place", "", PLACE),
        topic!("step", "", STEP),
        topic!("slot", "", SLOT),
        topic!("follower", "", FOLLOWER),
        topic!("profile", "", PROFILE),
    ]
}

const CARRY: &str = "\
carry: one bit of a node, 0 after reset. A node's line shows it as C 0 or C 1.
Its rules are the bench's own (profile). A node is in extended mode while bit 9
of P is set. There + makes T the sum S + T + carry, modulo 2^18, and the carry 1
if the sum is over $3FFFF, else 0. If bit 0 of A is 1, +* does the same, but it
keeps S, and then shifts T and A; if that bit is 0 the carry stays. No other
step changes it. A jump in slot 0 sets bit 9 of P, from $200 up, or clears it,
below; in slots 1 and 2 that bit stays.

  $ echo 10201 05DF2 3FFFF 00001 | ga-bench one 6
  node 000 P 204 A 00000 B 15D R 00000 S 00000 T 00000 C 1 io 00000 at slot3
   steps 6 need own

This is 'jump $201' and '@p @p + .'. Fixed, with a sum that adds the carry:

  $ echo 10201 05DF2 3FFFF 00001 05DF2 00000 00000 | ga-bench one 12
  node 000 P 207 A 00000 B 15D R 00000 S 00000 T 00001 C 0 io 00000 at fetch
   steps 12 need own
";

const MOVED: &str = "\
moved: the node made a step with this try. Behind 'turn' it is the number of
steps that all nodes made. 'moved 0' shows that no node can move only if there
were four turns or more, since each turn tries one side.

  $ printf 'profile 2\\nplace\\nnode 000 .\\ngo\\ntry 000 r\\nturn 4\\n' |
    ga-bench debug
  moved
  moved 4

There is nothing to fix. Nodes that have nothing to do make no steps:

  $ printf 'profile 2\\nplace\\nnode 000 jump warm\\ngo\\nturn 9\\nturn 4\\n' |
    ga-bench debug
  moved 4
  moved 0
";

const WAITS: &str = "\
waits: the node can't make its step now. It takes a word, and none is there, or
not at the side that the try names; its own word isn't read yet; its stream has
no more words; or its port has no neighbour. 'regs' shows its need.

  $ printf '%s\\n' 'profile 2' place 'node 709 right a! @' go 'turn 3' \\
    'try 709 r' | ga-bench debug
  moved 3
  waits

Fixed: 708 sends a word, which it posts with its seventh step.

  $ printf '%s\\n' 'profile 2' place 'node 708 right a! 5 !' \\
    'node 709 right a! @' go 'turn 6' 'try 708 r' 'try 709 r' | ga-bench debug
  moved 9
  moved
  moved
";

const HELD: &str = "\
held: the node is about to fetch at a breakpoint, and has no pass. The try
changes nothing.

  $ printf '%s\\n' 'profile 2' place 'node 000 .' go 'break 000 000' \\
    'try 000 r' | ga-bench debug
  ok
  held

Fixed: 'pass' lets one fetch go on, and 'clear' removes the breakpoint.

  $ printf '%s\\n' 'profile 2' place 'node 000 .' go 'break 000 000' \\
    'pass 000' 'try 000 r' | ga-bench debug
  ok
  ok
  moved
";

const STUCK: &str = "\
stuck: no order of tries moves this node any more, whatever breakpoints are set
or passed, unless a stream of the stuck nodes is fed. A node that isn't stuck
may still never move.

  $ printf '%s\\n' 'profile 2' place 'node 708 right a! @' \\
    'node 709 right a! @' go '> turn 9' '> where' | ga-bench record
  profile 2
  place
  node 708 right a! @
  node 709 right a! @
  go
  > turn 9
  moved 6
  > where
  708 P 002 slot2 @ take right of 709 which takes right of 708, stuck
  709 P 002 slot2 @ take right of 708 which takes right of 709, stuck
  ring 708 709
";

const RING: &str = "\
ring: nodes of which each waits for the next, and the last for the first. The
command 'where' lists each ring behind the nodes, for example 'ring 708 709', a
deadlock of two nodes. See stuck.
";

const RACE: &str = "\
race: a multiport read of one word, although a word at another of its sides
could have come first. So the schedule, the order of tries, decides which word
it takes. The command 'race' finds one, or shows that there is none.

  $ printf '%s\\n' 'node 709 $1F5 a! @' 'node 708 right a! 1 !' \\
    'node 710 left a! 2 !' | ga-bench race
  race: 709 at 000 reads 1F5 (line 1); the schedule decides which word it takes
    right 00001 from 708 at 003 (line 2)
    left  00002 from 710 at 003 (line 3)
";

const TURN: &str = "\
turn: one try of each of the 144 nodes, in order of their names. All tries of a
turn have one side: right, down, left and up follow each other. 'moved' is the
number of steps that the nodes made.

  $ printf 'profile 2\\nplace\\nnode 000 .\\ngo\\nturn 4\\n' | ga-bench debug
  moved 4
";

const PLACE: &str = "\
place: what a node does next: 'fetch', 'slot0' to 'slot3', or while it boots
'completion', 'transfer', 'count' or 'body'. A node's line shows it behind 'at'.
As the second line of a session: the words go straight into the nodes' memory,
without a boot.

  $ echo 2C9B2 | ga-bench one 0
  node 000 P 000 A 00000 B 15D R 00000 S 00000 T 00000 C 0 io 00000 at fetch
   steps 0 need own
";

const STEP: &str = "\
step: the smallest thing that a node does: it fetches a word, or executes the
opcode of a slot, or its loader handles a word. An opcode that writes to a port
takes two steps: the post, and the check that the word was read.

  $ echo 2C9B2 | ga-bench one 2
  node 000 P 001 A 00000 B 15D R 00000 S 00000 T 00000 C 0 io 00000 at slot1
   steps 2 need own
";

const SLOT: &str = "\
slot: the place of one opcode in a word, slot0 to slot3. Slots 0 to 2 have five
bits. Slot 3 has three, so it holds only ; unext @p !p +* + dup .

  $ echo 2C9B2 | ga-bench one 3
  node 000 P 001 A 00000 B 15D R 00000 S 00000 T 00000 C 0 io 00000 at slot2
   steps 3 need own
";

const FOLLOWER: &str = "\
follower: a word that an @p or !p before it reads or writes, such as a number.
P passes over it, so it isn't executed.

  $ echo 'node 709 5' | ga-bench list
  node 709 entry 000 code 2 words 2
  000  049B2  code         1  [ @p . . . ]
  001  00005  follower     1  , $00005
";

const PROFILE: &str = "\
profile: the bench's own rules, for what the chip's documents leave open. The
first line of a session has their version, 2. Only 'replay' reads profile 1.

  $ printf 'profile 2\\nplace\\nnode 000 .\\ngo\\n' | ga-bench record
  profile 2
  place
  node 000 .
  go
";
